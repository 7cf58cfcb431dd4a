ghost use Rattle.std.specs.Prelude.{◌≤◌, ◌+◌, ◌≡◌, [], drop, IfOk};
ghost use Rattle.std.specs.List.{list_any};
ghost use Rattle.c_tree.specs.Tree.{Program};
ghost use Rattle.c_tree.specs.View.{groups_of, stmt_of};
ghost use Rattle.c_values.specs.Memory.{Objects};
ghost use Rattle.c_meaning.specs.Meaning.{count_groups, group_with, is_case, is_default, or_else, same_integer, selected};
ghost use Rattle.c_meaning.specs.Results.{Go, out_of_switch, then_do};
ghost use Rattle.ref_machine_frames.specs.Held.{exec_from};
ghost use Rattle.ref_machine_frames.specs.Frames.{place_of, switched};
ghost use Rattle.ref_machine_frames.specs.Parts.{Leaves};
ghost use Rattle.ref_machine_frames.specs.declared.frames.Here.{Here as Activation};
ghost use Rattle.ref_machine_frames.specs.Work.{of_all, of_cases, of_groups, work};

use crate::sequences::groups;
use crate::{ExitFrame, Frame, Now};
use c_tree::{TGroup, TLabel, TStmt, Value};
use dm_base::OutOfMemory;

// Whether two integers of one type are the same.
fn is_same(v: Value, w: Value) -> bool
    ensures { result ≡ same_integer v w }
{
    match (v, w) {
        (Value::Int(a), Value::Int(b)) => a == b,
        (Value::Uint(a), Value::Uint(b)) => a == b,
        _ => false,
    }
}

// Whether the label is that of this case.
fn is_case(v: Value, label: TLabel) -> bool
    ensures { result ≡ is_case v label }
{
    match label {
        TLabel::Case(w) => is_same(v, w),
        TLabel::Default => false,
    }
}

// Whether the label is `default`.
fn is_default(label: TLabel) -> bool
    ensures { result ≡ is_default label }
{
    match label {
        TLabel::Case(_) => false,
        TLabel::Default => true,
    }
}

// Whether one of the labels is that of this case.
fn has_case(v: Value, labels: &[TLabel]) -> bool
    ensures { result ≡ list_any (is_case v) labels.now }
{
    for label in labels {
        if is_case(v, *label) {
            return true;
        }
    }
    false
}

// Whether one of the labels is `default`.
fn has_default(labels: &[TLabel]) -> bool
    ensures { result ≡ list_any is_default labels.now }
{
    for label in labels {
        if is_default(*label) {
            return true;
        }
    }
    false
}

// The first group with this case.
fn group_of_case(v: Value, all: &[TGroup]) -> Option<usize>
    ensures { result ≡ group_with (is_case v) (groups_of all.now) }
{
    for (i, group) in all.iter().enumerate() {
        if has_case(v, &group.labels) {
            return Some(i);
        }
    }
    None
}

// The first group with `default`.
fn group_of_default(all: &[TGroup]) -> Option<usize>
    ensures { result ≡ group_with is_default (groups_of all.now) }
{
    for (i, group) in all.iter().enumerate() {
        if has_default(&group.labels) {
            return Some(i);
        }
    }
    None
}

// The group with `default`, or the end of the groups.
fn default_or_end(all: &[TGroup]) -> usize
    ensures { result ≡ or_else (group_with is_default (groups_of all.now)) (count_groups (groups_of all.now)) }
{
    match group_of_default(all) {
        Some(n) => n,
        None => all.len(),
    }
}

// The group at which a switch goes on (C99 6.8.4.2 paragraph 5).
fn selected(v: Value, all: &[TGroup]) -> usize
    ensures { result ≡ selected v (groups_of all.now) }
{
    match group_of_case(v, all) {
        Some(n) => n,
        None => default_or_end(all),
    }
}

// The groups from this one on.
fn groups_from<'p>(all: &'p [TGroup], n: usize) -> &'p [TGroup]
    ensures { result.now ≡ drop n all.now }
{
    if all.len() <= n {
        return &[];
    }
    &all[n..]
}

// The groups of a `switch` from the one on that has the value.
fn groups_selected<'p>(
    todo: &mut Vec<Frame<'p>>,
    v: Value,
    all: &'p [TGroup],
) -> Result<Now<'p>, OutOfMemory>
    ensures same { IfOk result (λ now. (p : Program) (h : Activation) (m : Objects) → Leaves p h m todo.old.items (λ w st. then_do (exec_from p w (place_of h) (selected v (groups_of all.now)) (groups_of all.now) st) (λ x st. Go (out_of_switch x) st [])) now m todo.new.items) }
    ensures less { IfOk result (λ now. work now todo.new.items ≤ 1 + (of_groups (groups_of all.now) + of_all todo.old.items)) }
{
    let from = groups_from(all, selected(v, all));
    todo.push(Frame::Exit(ExitFrame::Switch))?;
    groups(todo, from)
}

/// What comes of the value that is compared with the labels of a `switch`.
pub fn switched<'p>(
    todo: &mut Vec<Frame<'p>>,
    v: Value,
    of: &'p TStmt,
) -> Result<Now<'p>, OutOfMemory>
    ensures same { IfOk result (λ now. (p : Program) (h : Activation) (m : Objects) → Leaves p h m todo.old.items (λ w st. switched p w (place_of h) (stmt_of of.now) v st) now m todo.new.items) }
    ensures less { IfOk result (λ now. work now todo.new.items ≤ 1 + (of_cases (stmt_of of.now) + of_all todo.old.items)) }
{
    match of {
        TStmt::Switch { groups, .. } => groups_selected(todo, v, groups),
        _ => Ok(Now::Mistyped),
    }
}
