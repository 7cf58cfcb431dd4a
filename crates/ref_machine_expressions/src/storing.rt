ghost use Rattle.std.specs.Prelude.{◌≤◌, ◌<◌, ◌+◌, ◌≡◌, true, IfOk};
ghost use Rattle.c_tree.specs.Tree.{Program};
ghost use Rattle.c_tree.specs.View.{ctype_of, expr_of};
ghost use Rattle.c_values.specs.Seen.{seen};
ghost use Rattle.c_tree.specs.Operands.{promoted};
ghost use Rattle.c_tree.specs.Operators.{binary, convert};
ghost use Rattle.c_values.specs.Answers.{and_then};
ghost use Rattle.c_meaning.specs.Meaning.{computing, either, is_subtraction, updated};
ghost use Rattle.c_meaning.specs.Pointers.{load_place, store_place};
ghost use Rattle.c_meaning.specs.Results.{answered, remembered, then_do};
ghost use Rattle.ref_machine_frames.specs.Faults.{told};
ghost use Rattle.ref_machine_frames.specs.Held.{eval};
ghost use Rattle.ref_machine_frames.specs.Frames.{place_of, storing};
ghost use Rattle.ref_machine_frames.specs.Parts.{Gives};
ghost use Rattle.ref_machine_expressions.specs.Renewing.{renewing};
ghost use Rattle.ref_machine_frames.specs.declared.frames.Here.{Here as Activation};
ghost use Rattle.ref_machine_frames.specs.Work.{of_all, of_expr, of_storing, work};

use c_tree::{BinOp, CType, IntType, TExpr, Value};
use c_values::Memory;
use dm_base::OutOfMemory;
use ref_machine_frames::{
    Fault, Frame, Now, Storing, ValueFrame, computed, convert_value, load_place, moved, stopped,
    store_place, wait,
};

// The integer promotions (6.3.1.1 paragraph 2).
fn promoted(t: IntType) -> IntType
    ensures { result ≡ promoted t }
{
    match t {
        IntType::Uint => IntType::Uint,
        _ => IntType::Int,
    }
}

// The type in which the operator computes (6.3.1.8, 6.5.7 paragraph 3).
fn computing(op: BinOp, left: IntType, right: IntType) -> IntType
    ensures { result ≡ computing op left right }
{
    match op {
        BinOp::ShiftLeft => promoted(left),
        BinOp::ShiftRight => promoted(left),
        _ => right,
    }
}

// Whether the operator is `-`.
fn is_subtraction(op: BinOp) -> bool
    ensures { result ≡ is_subtraction op }
{
    match op {
        BinOp::Sub => true,
        _ => false,
    }
}

// The new value of a place of an integer type.
fn updated_integer(
    op: BinOp,
    t: IntType,
    right: IntType,
    before: Value,
    v: Value,
) -> Result<Value, Fault>
    ensures { told result ≡ and_then (convert (computing op t right) before) (λ x. and_then (binary op x v) (λ y. convert t y)) }
{
    let x = convert_value(before, computing(op, t, right))?;
    let y = computed(op, x, v)?;
    convert_value(y, t)
}

// The new value of a place, from its old one and the right side (6.5.16.2).
fn updated(
    memory: &Memory,
    op: BinOp,
    t: &CType,
    right: &CType,
    before: Value,
    v: Value,
) -> Result<Value, Fault>
    ensures { told result ≡ updated op (ctype_of t.now) (ctype_of right.now) (seen memory.now) before v }
{
    match t {
        CType::Int(i) => match right {
            CType::Int(k) => updated_integer(op, *i, *k, before, v),
            _ => Err(Fault::Mistyped),
        },
        CType::Pointer(_) => moved(memory, is_subtraction(op), before, v),
        _ => Err(Fault::Mistyped),
    }
}

// The place has the value from now on, and this is what the assignment gives.
fn stored<'p>(
    memory: &mut Memory,
    todo: &mut Vec<Frame<'p>>,
    place: Value,
    value: Value,
    gives: Value,
) -> Result<Now<'p>, OutOfMemory>
    ensures same { IfOk result (λ now. (p : Program) (h : Activation) → Gives p h (seen memory.old) todo.old.items (λ w st. remembered (store_place st.memory place value) gives st) now (seen memory.new) todo.new.items) }
    ensures less { IfOk result (λ now. work now todo.new.items ≤ of_all todo.old.items) }
{
    match store_place(memory, place, value) {
        Ok(()) => Ok(Now::Have(gives)),
        Err(fault) => Ok(stopped(fault)),
    }
}

// The value of an assignment, which may be the old one.
fn typed_value(old: bool, before: Value, new: Value) -> Value
    ensures { result ≡ either old before new }
{
    if old { before } else { new }
}

// The new value of the place of a compound assignment is stored.
fn renewed<'p>(
    memory: &mut Memory,
    todo: &mut Vec<Frame<'p>>,
    old: bool,
    place: Value,
    before: Value,
    new: Value,
) -> Result<Now<'p>, OutOfMemory>
    ensures same { IfOk result (λ now. (p : Program) (h : Activation) → Gives p h (seen memory.old) todo.old.items (λ w st. remembered (store_place st.memory place new) (either old before new) st) now (seen memory.new) todo.new.items) }
    ensures less { IfOk result (λ now. work now todo.new.items ≤ of_all todo.old.items) }
{
    stored(memory, todo, place, new, typed_value(old, before, new))
}

// The place of a compound assignment is loaded, and then its right side is evaluated.
fn loading<'p>(
    memory: &Memory,
    todo: &mut Vec<Frame<'p>>,
    op: BinOp,
    old: bool,
    ctype: &'p CType,
    right: &'p TExpr,
    place: Value,
) -> Result<Now<'p>, OutOfMemory>
    ensures same { IfOk result (λ now. (p : Program) (h : Activation) → Gives p h (seen memory.now) todo.old.items (λ w st. then_do (answered (load_place st.memory place) st) (λ before st. then_do (eval p w (place_of h) true (expr_of right.now) st) (renewing op old (ctype_of ctype.now) (ctype_of right.now.ctype) place before))) now (seen memory.now) todo.new.items) }
    ensures less { IfOk result (λ now. work now todo.new.items ≤ 1 + (of_expr (expr_of right.now) + of_all todo.old.items)) }
{
    match load_place(memory, place) {
        Ok(before) => {
            let next = Storing::New {
                op,
                old,
                ctype,
                right: &right.ctype,
                place,
                before,
            };
            wait(todo, ValueFrame::Store(next), true, right)
        }
        Err(fault) => Ok(stopped(fault)),
    }
}

// The new value of the place of a compound assignment is computed and stored.
fn renewing<'p>(
    memory: &mut Memory,
    todo: &mut Vec<Frame<'p>>,
    op: BinOp,
    old: bool,
    ctype: &CType,
    right: &CType,
    place: Value,
    before: Value,
    v: Value,
) -> Result<Now<'p>, OutOfMemory>
    ensures same { IfOk result (λ now. (p : Program) (h : Activation) → Gives p h (seen memory.old) todo.old.items (λ w st. renewing op old (ctype_of ctype.now) (ctype_of right.now) place before v st) now (seen memory.new) todo.new.items) }
    ensures less { IfOk result (λ now. work now todo.new.items ≤ of_all todo.old.items) }
{
    match updated(memory, op, ctype, right, before, v) {
        Ok(new) => renewed(memory, todo, old, place, before, new),
        Err(fault) => Ok(stopped(fault)),
    }
}

// A later part of an assignment.
pub fn storing<'p>(
    memory: &mut Memory,
    todo: &mut Vec<Frame<'p>>,
    part: Storing<'p>,
    v: Value,
) -> Result<Now<'p>, OutOfMemory>
    ensures same { IfOk result (λ now. (p : Program) (h : Activation) → Gives p h (seen memory.old) todo.old.items (λ w st. storing p w (place_of h) part.entry v st) now (seen memory.new) todo.new.items) }
    ensures less { IfOk result (λ now. work now todo.new.items < of_storing part.entry + of_all todo.old.items) }
{
    match part {
        Storing::Place(right) => wait(todo, ValueFrame::Store(Storing::Value(v)), true, right),
        Storing::Value(place) => stored(memory, todo, place, v, v),
        Storing::Old {
            op,
            old,
            ctype,
            right,
        } => loading(memory, todo, op, old, ctype, right, v),
        Storing::New {
            op,
            old,
            ctype,
            right,
            place,
            before,
        } => renewing(memory, todo, op, old, ctype, right, place, before, v),
    }
}
