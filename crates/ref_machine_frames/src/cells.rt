ghost use Rattle.std.specs.Prelude.{◌≡◌, ◌+◌, ◌*◌, ◌↔◌, IsTrue, ℕ, suc, List, Some, IfOk, length, map, get_or};
ghost use Rattle.c_tree.specs.Layout.{Structs, cells, flat_with, flat_all_with, layout, or_none};
ghost use Rattle.c_tree.specs.Tree.{CType as Term};
ghost use Rattle.c_tree.specs.View.{ctype_of, ctypes_of, members_in, program_of};
ghost use Rattle.ref_machine_steps.specs.Faults.{told};
ghost use Rattle.ref_machine_frames.specs.Cells.{AreCells, AreCounted, few_cells, kept};

use c_tree::{CType, Program, StructMembers};
use dm_base::OutOfMemory;
use ref_machine_steps::Fault;
use std::alloc::Global;

// The number as it is kept: 65,537 stands for all that are greater.
fn kept(n: u64) -> u32
    ensures { result ≡ kept n }
{
    if n < 65_537 { n as u32 } else { 65_537 }
}

// The number at this place, or 0 past the end.
fn count_at(counts: &[u32], s: u32) -> u32
    ensures { result ≡ get_or counts.now s 0 }
{
    match counts.get(s as usize) {
        Some(count) => *count,
        None => 0,
    }
}

// So many elements of so many cells.
fn times(each: u32, n: u32) -> u32
    ensures { result ≡ kept (each * n) }
{
    kept(each as u64 * n as u64)
}

// How many cells an object of this type has, where these are the cells of structs.
fn cells_with(counts: &[u32], t: &CType) -> u32
    ensures { (types : ℕ → List Term) → AreCounted types counts.now → result ≡ kept (length (flat_with types (ctype_of t.now))) }
{
    match t {
        CType::Int(_) => 1,
        CType::Pointer(_) => 1,
        CType::Array(element, n) => {
            let each = cells_with(counts, element);
            times(each, *n)
        }
        CType::Struct(s) => count_at(counts, *s),
        CType::Void => 0,
        CType::Function(_, _) => 0,
    }
}

/// How many cells an object of this type has, where `counts` has the number of cells of each struct of a program. It
/// refuses a type with more than 65,536, of which a well-typed program has no object.
pub fn cells_in(counts: &[u32], t: &CType) -> Result<u32, Fault>
    ensures { (structs : Structs) → AreCells structs counts.now → told result ≡ few_cells (cells structs (ctype_of t.now)) }
{
    let count = cells_with(counts, t);
    if count > 65_536 {
        return Err(Fault::Mistyped);
    }
    Ok(count)
}

// The sum as it is kept.
fn added(sum: u32, count: u32) -> u32
    ensures { result ≡ kept (sum + count) }
{
    kept(sum as u64 + count as u64)
}

// How many cells objects of these types have together.
fn cells_of_all(counts: &[u32], types: &[CType]) -> u32
    ensures { (lay : ℕ → List Term) → AreCounted lay counts.now → result ≡ kept (length (flat_all_with lay (ctypes_of types.now))) }
{
    let mut sum = 0u32;
    for t in types {
        let count = cells_with(counts, t);
        sum = added(sum, count);
    }
    sum
}

// How many cells a struct with these members has; one without a definition has none.
fn cells_of_struct(counts: &[u32], members: &StructMembers) -> u32
    ensures { (lay : ℕ → List Term) → AreCounted lay counts.now → result ≡ kept (length (flat_all_with lay (or_none (Some (members_in members.now))))) }
{
    match members {
        StructMembers::Undefined => 0,
        StructMembers::Defined(types) => cells_of_all(counts, types),
    }
}

// The cells of structs that hold others one level deeper than the structs of these numbers do.
fn deeper(alloc: Global, counts: &[u32], structs: &[StructMembers]) -> Result<Vec<u32>, OutOfMemory>
    ensures { (depth : ℕ) → AreCounted (layout (map members_in structs.now) depth) counts.now → IfOk result (λ next. AreCounted (layout (map members_in structs.now) (suc depth)) next.items) }
{
    let mut next = Vec::new(alloc);
    for members in structs {
        next.push(cells_of_struct(counts, members))?;
    }
    Ok(next)
}

// The cells of structs that hold no others.
fn shallow(alloc: Global, structs: &[StructMembers]) -> Result<Vec<u32>, OutOfMemory>
    ensures { IfOk result (λ counts. AreCounted (layout (map members_in structs.now) 0) counts.items) }
{
    let mut counts = Vec::new(alloc);
    for _members in structs {
        counts.push(0u32)?;
    }
    Ok(counts)
}

// Whether the numbers are the same.
fn are_same(next: &[u32], counts: &[u32]) -> bool
    ensures { IsTrue result ↔ (next.now ≡ counts.now) }
{
    next == counts
}

/// The number of cells of each struct of the program, up to 65,537, which stands for all that are greater.
pub fn struct_cells(alloc: Global, program: &Program) -> Result<Vec<u32>, OutOfMemory>
    ensures { IfOk result (λ counts. AreCells (program_of program.now).structs counts.items) }
{
    let structs = program.structs();
    let mut counts = shallow(alloc, structs)?;
    for _depth in 0..structs.len() {
        let next = deeper(alloc, &counts, structs)?;
        if are_same(&next, &counts) {
            return Ok(counts);
        }
        counts = next;
    }
    Ok(counts)
}
