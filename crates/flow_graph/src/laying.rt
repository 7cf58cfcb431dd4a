ghost use Rattle.std.specs.Prelude.{◌≡◌, ◌+◌, ◌<◌, ◌^◌, ◌∷◌, ◌++◌, [], OnOk, IfOk};
ghost use Rattle.c_meaning.specs.Shape.{exit_call, Cases};
ghost use Rattle.c_meaning.specs.Walks.{Silent, System};
ghost use Rattle.flow_graph.specs.View.{shape_of, parts_of};
ghost use Rattle.flow_graph.specs.Edges.{edge_of, edges_in, places_of};
ghost use Rattle.c_meaning.specs.GraphLayout.{edge, width, widths, count, edges, edges_of_parts, to_each, past_all};

use crate::Shape;
use crate::edge::{Edge, Label, Places};
use dm_base::{OutOfMemory, Pattern, SysName};

// Adds an edge.
fn add(into: &mut Vec<Edge>, from: u32, label: Label, to: u32) -> Result<(), OutOfMemory>
    ensures { OnOk result (edges_in into.new.items ≡ edges_in into.old.items ++ edge_of (record { from = from; label = label; to = to }) ∷ []) }
{
    into.push(Edge { from, label, to })?;
    Ok(())
}

// Adds an edge along which nothing is read.
fn add_silent(into: &mut Vec<Edge>, from: u32, to: u32) -> Result<(), OutOfMemory>
    ensures { OnOk result (edges_in into.new.items ≡ edges_in into.old.items ++ edge from Silent to ∷ []) }
{
    add(into, from, Label::Silent, to)
}

// Lays an edge alone, which takes no fresh node: the next one is n as before.
fn lay_edge(into: &mut Vec<Edge>, a: u32, label: Label, to: u32, n: u32) -> Result<u32, OutOfMemory>
    ensures laid { OnOk result (edges_in into.new.items ≡ edges_in into.old.items ++ edge_of (record { from = a; label = label; to = to }) ∷ []) }
    ensures next { IfOk result (λ next. next ≡ n) }
{
    add(into, a, label, to)?;
    Ok(n)
}

// The node past those of so many parts, which stand from n on.
fn after_each(n: u32, parts: &[Shape]) -> u32
    requires { n + count (parts_of parts.now) < 2 ^ 32 }
    ensures { result ≡ n + count (parts_of parts.now) }
{
    let many = parts.len() as u32;
    n + many
}

// Lays the edges of a shape from the node a, with fresh nodes from n on, and gives the node past them.
#[cycle(laying)]
pub fn lay(
    into: &mut Vec<Edge>,
    shape: &Shape,
    a: u32,
    n: u32,
    p: Places,
) -> Result<u32, OutOfMemory>
    requires { n + width (shape_of shape.now) < 2 ^ 32 }
    ensures laid { OnOk result (edges_in into.new.items ≡ edges_in into.old.items ++ edges (shape_of shape.now) a n (places_of p)) }
    ensures next { IfOk result (λ next. next ≡ n + width (shape_of shape.now)) }
{
    match shape {
        Shape::Skip => lay_edge(into, a, Label::Silent, p.to, n),
        Shape::Sys(name, pattern) => lay_edge(into, a, Label::System(*name, *pattern), p.to, n),
        Shape::Exit(pattern) => lay_exit(into, *pattern, a, n),
        Shape::Call(site) => lay_edge(into, a, Label::Site(*site), p.to, n),
        Shape::Seq(first, rest) => {
            let start = after_each(n, rest);
            let to = end_of(rest.len(), n, p.to);
            let next = lay(into, first, a, start, Places { to, ..p })?;
            lay_parts(into, rest, n, next, p)
        }
        Shape::Alt(one, other) => {
            let next = lay(into, one, a, n, p)?;
            lay(into, other, a, next, p)
        }
        Shape::Loop(test, body, step) => {
            // The fresh nodes are those of the test, the body and the step.
            let fresh = n + 3;
            add_silent(into, a, n)?;
            add_silent(into, n + 1, p.to)?;
            let inner = Places {
                to: n + 2,
                brk: p.to,
                con: n + 2,
                ret: p.ret,
            };
            let next = lay(into, test, n, fresh, Places { to: n + 1, ..p })?;
            let next = lay(into, body, n + 1, next, inner)?;
            lay(into, step, n + 2, next, Places { to: n, ..p })
        }
        Shape::Do(body, test) => {
            // The fresh nodes are those of the body and the test, and that after the test.
            let fresh = n + 3;
            add_silent(into, a, n)?;
            add_silent(into, n + 2, n)?;
            add_silent(into, n + 2, p.to)?;
            let inner = Places {
                to: n + 1,
                brk: p.to,
                con: n + 1,
                ret: p.ret,
            };
            let next = lay(into, body, n, fresh, inner)?;
            lay(into, test, n + 1, next, Places { to: n + 2, ..p })
        }
        Shape::Cases(groups, has_default) => lay_cases(into, groups, *has_default, a, n, p),
        Shape::Break => lay_edge(into, a, Label::Silent, p.brk, n),
        Shape::Continue => lay_edge(into, a, Label::Silent, p.con, n),
        Shape::Return => lay_edge(into, a, Label::Silent, p.ret, n),
    }
}

// A call of `_exit`, which leads to a fresh node that nothing leaves.
fn lay_exit(into: &mut Vec<Edge>, pattern: Pattern, a: u32, n: u32) -> Result<u32, OutOfMemory>
    requires { n + 1 < 2 ^ 32 }
    ensures laid { OnOk result (edges_in into.new.items ≡ edges_in into.old.items ++ edge a (System exit_call pattern) n ∷ []) }
    ensures next { IfOk result (λ next. next ≡ n + 1) }
{
    match SysName::from_index(23) {
        Some(name) => {
            add(into, a, Label::System(name, pattern), n)?;
            Ok(n + 1)
        }
        None => unreachable!(),
    }
}

// Where a part leads after which so many others stand: to the first of them, or to the end.
fn end_of(others: usize, first: u32, to: u32) -> u32
    ensures some { 0 < others → result ≡ first }
    ensures none { others ≡ 0 → result ≡ to }
{
    if others == 0 { to } else { first }
}

// Parts in order, which stand at the nodes from i on.
#[cycle(laying)]
fn lay_parts(
    into: &mut Vec<Edge>,
    parts: &[Shape],
    i: u32,
    n: u32,
    p: Places,
) -> Result<u32, OutOfMemory>
    requires nodes { i + count (parts_of parts.now) < 2 ^ 32 }
    requires fresh { n + widths (parts_of parts.now) < 2 ^ 32 }
    ensures laid { OnOk result (edges_in into.new.items ≡ edges_in into.old.items ++ edges_of_parts (parts_of parts.now) i n (places_of p)) }
    ensures next { IfOk result (λ next. next ≡ n + widths (parts_of parts.now)) }
{
    let mut node = i;
    let mut next = n;
    for k in 0..parts.len() {
        let following = node + 1;
        let to = end_of(parts.len() - k - 1, following, p.to);
        next = lay(into, &parts[k], node, next, Places { to, ..p })?;
        node = following;
    }
    Ok(next)
}

// A silent edge from a to each of so many nodes from i on.
fn lay_to_each(into: &mut Vec<Edge>, a: u32, parts: &[Shape], i: u32) -> Result<(), OutOfMemory>
    requires { i + count (parts_of parts.now) < 2 ^ 32 }
    ensures { OnOk result (edges_in into.new.items ≡ edges_in into.old.items ++ to_each a (parts_of parts.now) i) }
{
    let mut node = i;
    for _k in 0..parts.len() {
        add_silent(into, a, node)?;
        node += 1;
    }
    Ok(())
}

// A silent edge past the groups of a switch without a default.
fn lay_past(into: &mut Vec<Edge>, has_default: bool, a: u32, to: u32) -> Result<(), OutOfMemory>
    ensures { OnOk result (edges_in into.new.items ≡ edges_in into.old.items ++ past_all has_default a to) }
{
    if has_default {
        return Ok(());
    }
    add_silent(into, a, to)
}

// The groups of a switch: it goes to any of them, each falls to the next, and a break leads past them.
#[cycle(laying)]
fn lay_cases(
    into: &mut Vec<Edge>,
    groups: &[Shape],
    has_default: bool,
    a: u32,
    n: u32,
    p: Places,
) -> Result<u32, OutOfMemory>
    requires { n + width (Cases (parts_of groups.now) has_default) < 2 ^ 32 }
    ensures laid { OnOk result (edges_in into.new.items ≡ edges_in into.old.items ++ edges (Cases (parts_of groups.now) has_default) a n (places_of p)) }
    ensures next { IfOk result (λ next. next ≡ n + width (Cases (parts_of groups.now) has_default)) }
{
    let fresh = after_each(n, groups);
    lay_to_each(into, a, groups, n)?;
    lay_past(into, has_default, a, p.to)?;
    lay_parts(into, groups, n, fresh, Places { brk: p.to, ..p })
}
