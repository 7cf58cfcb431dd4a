ghost use Rattle.std.specs.Prelude.{◌≡◌, ◌+◌, ◌<◌, ◌&&◌, ℕ, Some, Contains, OnOk, IfOk, map};
ghost use Rattle.c_tree.specs.Functions.{defined, value_type, sys_types};
ghost use Rattle.c_tree.specs.Tree.{CType as TypeTerm, pointer};
ghost use Rattle.c_tree.specs.View.{ctype_of, ctypes_of, program_of};
ghost use Rattle.c_meaning.specs.CallGraph.{is_taken, is_typed, callees};
ghost use Rattle.c_meaning.specs.Mentions.{Calls, Through};
ghost use Rattle.dm_base.specs.Adding.{Adds};
ghost use Rattle.flow_graph.specs.Saying.{mention_of, said};
ghost use Rattle.flow_graph.specs.Types.{types_at, items_of, first_place, IsThrough, AreTaken};

use crate::mention::Mention;
use c_tree::{CType, Program, is_same};
use dm_base::OutOfMemory;
use std::alloc::Global;
use std::collections::HashSet;

// The first place of the type among the types, or their number where it isn't there.
pub fn place_of(types: &[&CType], t: &CType) -> usize
    ensures { result ≡ first_place (ctype_of t.now) (types_at types.now) }
{
    for k in 0..types.len() {
        if is_same(t, types[k]) {
            return k;
        }
    }
    types.len()
}

// Adds the type of the pointer that is called, where it isn't there.
fn add_type<'p>(types: &mut Vec<&'p CType>, m: &Mention<'p>) -> Result<(), OutOfMemory>
    ensures { OnOk result (Adds (types_at types.old.items) (types_at types.new.items) (λ t. IsThrough t (mention_of m.now))) }
{
    match m {
        Mention::Named(_) => Ok(()),
        Mention::Direct { .. } => Ok(()),
        Mention::Through { ctype, .. } => {
            if place_of(types, ctype) < types.len() {
                return Ok(());
            }
            types.push(*ctype)?;
            Ok(())
        }
    }
}

// The types of the pointers that are called.
pub fn types_in<'p>(alloc: Global, ms: &[Mention<'p>]) -> Result<Vec<&'p CType>, OutOfMemory>
    ensures { IfOk result (λ types. (s : ℕ) (t : TypeTerm) → Contains (said ms.now) (Calls s (Through t)) → Contains (types_at types.items) t) }
{
    let mut types = Vec::new(alloc);
    for m in ms {
        add_type(&mut types, m)?;
    }
    Ok(types)
}

// The type of the function with this number, a defined one or a system call.
fn type_of<'p>(program: &'p Program, calls: &'p [CType], f: u32) -> &'p CType
    requires calls { ctypes_of calls.now ≡ sys_types }
    requires known { f < defined (program_of program.now) + 24 }
    ensures { value_type (program_of program.now) f ≡ Some (ctype_of result.now) }
{
    if f < program.defined() {
        return &program.function(f).ctype;
    }
    &calls[(f - program.defined()) as usize]
}

// Whether the function may be called through a pointer to this type.
fn is_candidate(
    program: &Program,
    calls: &[CType],
    taken: &HashSet<u32>,
    target: &CType,
    f: u32,
) -> bool
    requires calls { ctypes_of calls.now ≡ sys_types }
    requires known { f < defined (program_of program.now) + 24 }
    requires taken { AreTaken (program_of program.now) taken.now.keys }
    ensures { result ≡ (is_taken (program_of program.now) f && is_typed (pointer (ctype_of target.now)) (value_type (program_of program.now) f)) }
{
    if !taken.contains(&f) {
        return false;
    }
    is_same(target, type_of(program, calls, f))
}

// The functions that may be called through a pointer to this type.
fn candidates_at(
    alloc: Global,
    program: &Program,
    calls: &[CType],
    taken: &HashSet<u32>,
    target: &CType,
) -> Result<Vec<u32>, OutOfMemory>
    requires calls { ctypes_of calls.now ≡ sys_types }
    requires taken { AreTaken (program_of program.now) taken.now.keys }
    ensures { IfOk result (λ v. v.items ≡ callees (program_of program.now) (Through (pointer (ctype_of target.now)))) }
{
    let mut found = Vec::new(alloc);
    let _sites = program.sites();
    for f in 0..program.defined() + 24 {
        if is_candidate(program, calls, taken, target, f) {
            found.push(f)?;
        }
    }
    Ok(found)
}

// The functions that may be called through what has this type.
pub fn candidates_of(
    alloc: Global,
    program: &Program,
    calls: &[CType],
    taken: &HashSet<u32>,
    t: &CType,
) -> Result<Vec<u32>, OutOfMemory>
    requires calls { ctypes_of calls.now ≡ sys_types }
    requires taken { AreTaken (program_of program.now) taken.now.keys }
    ensures { IfOk result (λ v. v.items ≡ callees (program_of program.now) (Through (ctype_of t.now))) }
{
    match t {
        CType::Pointer(target) => candidates_at(alloc, program, calls, taken, target),
        CType::Void => Ok(Vec::new(alloc)),
        CType::Int(_) => Ok(Vec::new(alloc)),
        CType::Array(_, _) => Ok(Vec::new(alloc)),
        CType::Struct(_) => Ok(Vec::new(alloc)),
        CType::Function(_, _) => Ok(Vec::new(alloc)),
    }
}

// The functions that may be called through each of the types.
pub fn lists_of(
    alloc: Global,
    program: &Program,
    calls: &[CType],
    taken: &HashSet<u32>,
    types: &[&CType],
) -> Result<Vec<Vec<u32>>, OutOfMemory>
    requires calls { ctypes_of calls.now ≡ sys_types }
    requires taken { AreTaken (program_of program.now) taken.now.keys }
    ensures { IfOk result (λ v. items_of v.items ≡ map (λ t. callees (program_of program.now) (Through t)) (types_at types.now)) }
{
    let mut lists = Vec::new(alloc);
    for t in types {
        let one = candidates_of(alloc, program, calls, taken, t)?;
        lists.push(one)?;
    }
    Ok(lists)
}
