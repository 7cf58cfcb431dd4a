ghost use Rattle.std.specs.Prelude.{◌≡◌};
ghost use Rattle.c_tree.specs.Layout.{Structs, cells};
ghost use Rattle.c_tree.specs.View.{ctype_of};
ghost use Rattle.c_values.specs.Answers.{and_then};
ghost use Rattle.c_values.specs.Seen.{seen};
ghost use Rattle.c_meaning.specs.Meaning.{moving};
ghost use Rattle.c_meaning.specs.Pointers.{to_first};
ghost use Rattle.ref_machine_frames.specs.Faults.{told};
ghost use Rattle.ref_machine_frames.specs.Cells.{AreCells, few_cells};
ghost use Rattle.ref_machine_frames.specs.Frames.{one_step, two_step};
ghost use Rattle.ref_machine_frames.specs.Held.{behind_of, decayed, member_of};

use c_tree::{CType, Value};
use c_values::Memory;
use ref_machine_frames::{
    Fault, Pair, Step, behind, cells_in, comparing, computed, convert_value, difference,
    function_behind, load_place, member, moved, operated, to_first,
};

// What is behind a pointer to this type.
fn dereferenced(memory: &Memory, t: &CType, v: Value) -> Result<Value, Fault>
    ensures { told result ≡ behind_of (ctype_of t.now) (seen memory.now) v }
{
    match t {
        CType::Function(_, _) => function_behind(v),
        CType::Void => behind(memory, v),
        CType::Int(_) => behind(memory, v),
        CType::Pointer(_) => behind(memory, v),
        CType::Array(_, _) => behind(memory, v),
        CType::Struct(_) => behind(memory, v),
    }
}

// The pointer to the first of so many elements of this type.
fn first_element(counts: &[u32], element: &CType, n: u32, v: Value) -> Result<Value, Fault>
    ensures { (structs : Structs) → AreCells structs counts.now → told result ≡ and_then (few_cells (cells structs (ctype_of element.now))) (λ width. to_first width n v) }
{
    let width = cells_in(counts, element)?;
    to_first(width, n, v)
}

// A place of this type as a pointer.
fn decayed(counts: &[u32], t: &CType, v: Value) -> Result<Value, Fault>
    ensures { (structs : Structs) → AreCells structs counts.now → told result ≡ decayed structs (ctype_of t.now) v }
{
    match t {
        CType::Array(element, n) => first_element(counts, element, *n, v),
        CType::Function(_, _) => Ok(v),
        CType::Void => Err(Fault::Mistyped),
        CType::Int(_) => Err(Fault::Mistyped),
        CType::Pointer(_) => Err(Fault::Mistyped),
        CType::Struct(_) => Err(Fault::Mistyped),
    }
}

// The member of this type that begins at this cell.
fn member_of(counts: &[u32], first: u32, t: &CType, v: Value) -> Result<Value, Fault>
    ensures { (structs : Structs) → AreCells structs counts.now → told result ≡ member_of structs first (ctype_of t.now) v }
{
    let width = cells_in(counts, t)?;
    member(first, width, v)
}

// A step with one value.
pub fn one_step<'p>(
    counts: &[u32],
    memory: &Memory,
    step: Step<'p>,
    v: Value,
) -> Result<Value, Fault>
    ensures { (structs : Structs) → AreCells structs counts.now → told result ≡ one_step structs step.entry (seen memory.now) v }
{
    match step {
        Step::Deref(t) => dereferenced(memory, t, v),
        Step::Load => load_place(memory, v),
        Step::Decay(t) => decayed(counts, t, v),
        Step::Discard => Ok(Value::Indeterminate),
        Step::Field(first, t) => member_of(counts, first, t, v),
        Step::Unary(op) => operated(memory, op, v),
        Step::Convert(to) => convert_value(v, to),
    }
}

// A pointer plus or minus an integer.
fn moved_by(
    memory: &Memory,
    pointer_first: bool,
    subtracted: bool,
    v: Value,
    u: Value,
) -> Result<Value, Fault>
    ensures { told result ≡ moving pointer_first subtracted (seen memory.now) v u }
{
    if pointer_first {
        return moved(memory, subtracted, v, u);
    }
    moved(memory, subtracted, u, v)
}

// A step with two values.
pub fn two_step(memory: &Memory, pair: Pair, v: Value, u: Value) -> Result<Value, Fault>
    ensures { told result ≡ two_step pair (seen memory.now) v u }
{
    match pair {
        Pair::Arith(op) => computed(op, v, u),
        Pair::Compare(op) => comparing(memory, op, v, u),
        Pair::PointerAdd {
            pointer_first,
            subtracted,
        } => moved_by(memory, pointer_first, subtracted, v, u),
        Pair::PointerDiff => difference(memory, v, u),
    }
}
