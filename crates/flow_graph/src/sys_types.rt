ghost use Rattle.std.specs.Prelude.{◌≡◌, IfOk, map};
ghost use Rattle.c_tree.specs.Functions.{sys_types};
ghost use Rattle.c_tree.specs.Tree.{function};
ghost use Rattle.c_tree.specs.View.{ctype_of, ctypes_of, types_of};
ghost use Rattle.c_tree.specs.Prototypes.{prototype_type, type_meant, types_meant};

use c_tree::{CType, IntType, Prototype, PrototypeType, system_prototypes};
use dm_base::OutOfMemory;
use std::alloc::Global;

fn plain_type(alloc: Global, t: PrototypeType) -> Result<CType, OutOfMemory>
    ensures { IfOk result (λ made. ctype_of made ≡ type_meant t) }
{
    match t {
        PrototypeType::Void => Ok(CType::Void),
        PrototypeType::Int => Ok(CType::Int(IntType::Int)),
        PrototypeType::Uint => Ok(CType::Int(IntType::Uint)),
        PrototypeType::CharPointer => {
            let target = Box::new(alloc, CType::Int(IntType::Char))?;
            Ok(CType::Pointer(target))
        }
    }
}

fn types_taken(alloc: Global, ts: &[PrototypeType]) -> Result<Vec<CType>, OutOfMemory>
    ensures { IfOk result (λ made. ctypes_of made.items ≡ map type_meant ts.now) }
{
    let mut made = Vec::new(alloc);
    for t in ts {
        let one = plain_type(alloc, *t)?;
        made.push(one)?;
    }
    Ok(made)
}

fn type_by(alloc: Global, p: &Prototype) -> Result<CType, OutOfMemory>
    ensures { IfOk result (λ made. ctype_of made ≡ prototype_type p.now) }
{
    let gives = plain_type(alloc, p.gives)?;
    let gives = Box::new(alloc, gives)?;
    let takes = types_taken(alloc, p.takes)?;
    Ok(CType::Function(gives, takes))
}

fn types_by(alloc: Global, ps: &[Prototype]) -> Result<Vec<CType>, OutOfMemory>
    ensures { IfOk result (λ made. ctypes_of made.items ≡ map prototype_type ps.now) }
{
    let mut made = Vec::new(alloc);
    for p in ps {
        let one = type_by(alloc, p)?;
        made.push(one)?;
    }
    Ok(made)
}

// The types of the system calls, each at the place of its number.
pub fn types_of_calls(alloc: Global) -> Result<Vec<CType>, OutOfMemory>
    ensures { IfOk result (λ made. ctypes_of made.items ≡ sys_types) }
{
    types_by(alloc, system_prototypes())
}
