ghost use Rattle.std.specs.Prelude.{◌<◌, ◌+◌, ◌≡◌, IfOk};
ghost use Rattle.c_tree.specs.Layout.{Structs};
ghost use Rattle.c_tree.specs.View.{ctype_of, expr_of, program_of};
ghost use Rattle.c_values.specs.Seen.{seen};
ghost use Rattle.c_meaning.specs.Meaning.{name_in};
ghost use Rattle.ref_machine_frames.specs.Faults.{told};
ghost use Rattle.ref_machine_frames.specs.Held.{eval, whole};
ghost use Rattle.ref_machine_frames.specs.Cells.{AreCells};
ghost use Rattle.ref_machine_frames.specs.Frames.{place_of};
ghost use Rattle.ref_machine_frames.specs.Parts.{Gives};
ghost use Rattle.ref_machine_frames.specs.Work.{of_all, of_expr, work};

use crate::calls::{arguments, wants};
use crate::values::members;
use c_tree::{CType, ObjectName, Program, TExpr, TExprKind, Value};
use c_values::Memory;
use dm_base::OutOfMemory;
use ref_machine_frames::{
    Callee, Choice, Fault, Frame, Here, Now, Pair, Step, Storing, ValueFrame, cells_in, given,
    place, wait,
};
use std::alloc::Global;

// The name of a variable: a static one, or one of the activation that runs.
fn name_in(here: Here, is_static: bool, number: u32) -> ObjectName
    ensures { result ≡ name_in (place_of here.entry) is_static number }
{
    if is_static {
        return ObjectName {
            activation: 0,
            variable: number,
        };
    }
    ObjectName {
        activation: here.activation,
        variable: number,
    }
}

// The place of an object of this type.
fn whole(counts: &[u32], name: ObjectName, t: &CType) -> Result<Value, Fault>
    ensures { (structs : Structs) → AreCells structs counts.now → told result ≡ whole structs name (ctype_of t.now) }
{
    let width = cells_in(counts, t)?;
    Ok(place(name, 0, width))
}

/// How the evaluation of an expression begins. `counts` has the number of cells of each struct.
pub fn begin<'p>(
    alloc: Global,
    program: &Program,
    counts: &[u32],
    memory: &Memory,
    todo: &mut Vec<Frame<'p>>,
    here: Here<'p>,
    wanted: bool,
    e: &'p TExpr,
) -> Result<Now<'p>, OutOfMemory>
    requires { AreCells (program_of program.now).structs counts.now }
    ensures same { IfOk result (λ now. Gives (program_of program.now) here.entry (seen memory.now) todo.old.items (λ w st. eval (program_of program.now) w (place_of here.entry) wanted (expr_of e.now) st) now (seen memory.now) todo.new.items) }
    ensures less { IfOk result (λ now. work now todo.new.items < of_expr (expr_of e.now) + of_all todo.old.items) }
{
    match &e.kind {
        TExprKind::Const(value) => Ok(Now::Have(*value)),
        TExprKind::Function(f) => Ok(Now::Have(Value::Func(*f))),
        TExprKind::StringPlace(number) => {
            Ok(given(whole(counts, name_in(here, true, *number), &e.ctype)))
        }
        TExprKind::Variable { is_static, number } => {
            Ok(given(whole(counts, name_in(here, *is_static, *number), &e.ctype)))
        }
        TExprKind::Deref(a) => wait(todo, ValueFrame::One(Step::Deref(&e.ctype)), true, a),
        TExprKind::Load(a) => wait(todo, ValueFrame::One(Step::Load), true, a),
        TExprKind::AddressOf(a) => Ok(Now::Eval {
            wanted: true,
            of: a,
        }),
        TExprKind::Decay(a) => wait(todo, ValueFrame::One(Step::Decay(&a.ctype)), true, a),
        TExprKind::Discard(a) => wait(todo, ValueFrame::One(Step::Discard), false, a),
        TExprKind::Field(a, first) => wait(
            todo,
            ValueFrame::One(Step::Field(*first, &e.ctype)),
            true,
            a,
        ),
        TExprKind::Unary(op, a) => wait(todo, ValueFrame::One(Step::Unary(*op)), true, a),
        TExprKind::Convert(to, a) => wait(todo, ValueFrame::One(Step::Convert(*to)), true, a),
        TExprKind::Arith(op, a, b) => {
            wait(todo, ValueFrame::First(Pair::Arith(*op), b), true, a)
        }
        TExprKind::Compare(op, a, b) => {
            wait(todo, ValueFrame::First(Pair::Compare(*op), b), true, a)
        }
        TExprKind::PointerAdd {
            pointer_first,
            subtracted,
            left,
            right,
        } => {
            let pair = Pair::PointerAdd {
                pointer_first: *pointer_first,
                subtracted: *subtracted,
            };
            wait(todo, ValueFrame::First(pair, right), true, left)
        }
        TExprKind::PointerDiff(a, b) => {
            wait(todo, ValueFrame::First(Pair::PointerDiff, b), true, a)
        }
        TExprKind::And(a, b) => wait(todo, ValueFrame::Test(Choice::And(b)), true, a),
        TExprKind::Or(a, b) => wait(todo, ValueFrame::Test(Choice::Or(b)), true, a),
        TExprKind::Assign(a, b) => wait(todo, ValueFrame::Store(Storing::Place(b)), true, a),
        TExprKind::Update {
            op,
            old,
            place,
            value,
        } => {
            let part = Storing::Old {
                op: *op,
                old: *old,
                ctype: &e.ctype,
                right: value,
            };
            wait(todo, ValueFrame::Store(part), true, place)
        }
        TExprKind::Cond(test, yes, no) => wait(
            todo,
            ValueFrame::Test(Choice::Cond {
                wanted: true,
                yes,
                no,
            }),
            true,
            test,
        ),
        TExprKind::Comma(es) => members(todo, wanted, es),
        TExprKind::Call {
            site: _site,
            function,
            arguments: left,
        } => {
            let wanted = wants(wanted, &e.ctype);
            let whom = Callee::Named(*function);
            let none = Vec::new(alloc);
            arguments(alloc, program, memory, todo, wanted, whom, none, left)
        }
        TExprKind::CallThrough {
            site: _site,
            designator,
            arguments: left,
        } => {
            let frame = ValueFrame::Designator {
                wanted: wants(wanted, &e.ctype),
                arguments: left,
            };
            wait(todo, frame, true, designator)
        }
    }
}
