ghost use Rattle.std.specs.Prelude.{◌≡◌, IfOk};
ghost use Rattle.c_tree.specs.View.{ctype_of, ctypes_of};

use crate::CType;
use dm_base::OutOfMemory;
use std::alloc::Global;

/// A copy of the type.
#[cycle(copying)]
pub fn copy_type(alloc: Global, t: &CType) -> Result<CType, OutOfMemory>
    ensures { IfOk result (λ copied. ctype_of copied ≡ ctype_of t.now) }
{
    match t {
        CType::Void => Ok(CType::Void),
        CType::Int(i) => Ok(CType::Int(*i)),
        CType::Pointer(u) => {
            let target = copy_type(alloc, u)?;
            Ok(CType::Pointer(Box::new(alloc, target)?))
        }
        CType::Array(u, n) => {
            let element = copy_type(alloc, u)?;
            Ok(CType::Array(Box::new(alloc, element)?, *n))
        }
        CType::Struct(s) => Ok(CType::Struct(*s)),
        CType::Function(u, ts) => {
            let gives = copy_type(alloc, u)?;
            let takes = copy_types(alloc, ts)?;
            Ok(CType::Function(Box::new(alloc, gives)?, takes))
        }
    }
}

/// A copy of the types.
#[cycle(copying)]
pub fn copy_types(alloc: Global, ts: &[CType]) -> Result<Vec<CType>, OutOfMemory>
    ensures { IfOk result (λ copied. ctypes_of copied.items ≡ ctypes_of ts.now) }
{
    let mut copied = Vec::new(alloc);
    for i in 0..ts.len() {
        let one = copy_type(alloc, &ts[i])?;
        copied.push(one)?;
    }
    Ok(copied)
}
