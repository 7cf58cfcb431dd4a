ghost use Rattle.std.specs.Prelude.{◌≡◌, ◌<◌, ◌≤◌, ◌+◌, ◌↔◌, ℕ, [], IsTrue, All, Contains, nat_eq, filter, length, sum_by};
ghost use Rattle.dm_base.specs.Fits.{Fits};
ghost use Rattle.flow_model.specs.Graph.{HasSilent, HasFunction};
ghost use Rattle.flow_model.specs.Rules.{IsValid};
ghost use Rattle.dyck_monitor.specs.Adding.{Adds, IsOfOne};
ghost use Rattle.flow_model.specs.Found.{AreFound};
ghost use Rattle.dyck_monitor.specs.Moves.{IsRead, IsEntered, IsReturned, IsAhead};
ghost use Rattle.dyck_monitor.specs.Silence.{LeadsTo};
ghost use Rattle.dm_sets.specs.Nodes.{Has};

use dm_base::{Event, fits};
use dm_sets::NodeSet;
use flow_model::{Model, Scratch, Steps, SysEdge};
use std::sync::ledger::Ledger;

// Adds one node.
fn note(pool: &mut Scratch, node: u32)
    requires { node < pool.old.size }
    ensures { Adds (λ b. node ≡ b) pool.old pool.new }
{
    pool.add(node);
}

// Adds the end of the edge where it reads the event.
fn add_end(pool: &mut Scratch, edge: &SysEdge, event: &Event)
    requires { edge.now.to < pool.old.size }
    ensures { Adds (λ b. Fits edge.now.name edge.now.args event.now × (edge.now.to ≡ b)) pool.old pool.new }
{
    if fits(edge.name, &edge.args, event) {
        note(pool, edge.to);
    }
}

// Adds the ends of the edges that leave the node and read the event.
fn add_ends<L: Ledger>(
    pool: &mut Scratch,
    model: &Model,
    node: u32,
    event: &Event,
    steps: &mut Steps<L>,
)
    requires valid { IsValid model.now }
    requires node { node < model.now.nodes }
    requires size { pool.old.size ≡ model.now.nodes }
    ensures ends { Adds (IsRead model.now (λ a. a ≡ node) event.now) pool.old pool.new }
    ensures cost { steps.new ≡ steps.old + length (filter (λ e. nat_eq e.from node) model.now.sys) }
{
    for edge in model.sys_from(node) {
        steps.tick();
        add_end(pool, edge, event);
    }
}

// Adds the ends of the edges that leave the nodes of the set and read the event.
fn read<L: Ledger>(
    pool: &mut Scratch,
    nodes: &NodeSet,
    model: &Model,
    event: &Event,
    steps: &mut Steps<L>,
)
    requires valid { IsValid model.now }
    requires nodes { nodes.now.size ≡ model.now.nodes }
    requires size { pool.old.size ≡ model.now.nodes }
    ensures ends { Adds (IsRead model.now (Has nodes.now) event.now) pool.old pool.new }
    ensures cost { steps.new ≤ steps.old + length model.now.sys }
    ensures rise { steps.old ≤ steps.new }
{
    let mut from = 0;
    while let Some(node) = nodes.next(from) {
        add_ends(pool, model, node, event, steps);
        from = node + 1;
    }
}

// Adds the entry of the function.
fn add_entry(pool: &mut Scratch, model: &Model, function: u32)
    requires valid { IsValid model.now }
    requires function { function < length model.now.functions }
    requires size { pool.old.size ≡ model.now.nodes }
    ensures { Adds (λ b. (exit : ℕ) × HasFunction model.now function b exit) pool.old pool.new }
{
    let one = &model.functions()[function as usize];
    note(pool, one.entry);
}

// Adds the entries of the functions.
fn add_entries<L: Ledger>(
    pool: &mut Scratch,
    model: &Model,
    functions: &[u32],
    steps: &mut Steps<L>,
)
    requires valid { IsValid model.now }
    requires functions { All (λ f. f < length model.now.functions) functions.now }
    requires size { pool.old.size ≡ model.now.nodes }
    ensures entries { Adds (IsOfOne functions.now (λ f b. (exit : ℕ) × HasFunction model.now f b exit)) pool.old pool.new }
    ensures cost { steps.new ≡ steps.old + length functions.now }
{
    for function in functions {
        steps.tick();
        add_entry(pool, model, *function);
    }
}

// Whether one of the functions ends at a node of the set.
fn is_over<L: Ledger>(
    nodes: &NodeSet,
    model: &Model,
    functions: &[u32],
    steps: &mut Steps<L>,
) -> bool
    requires functions { All (λ f. f < length model.now.functions) functions.now }
    ensures over { IsTrue result ↔ ((f : ℕ) × (entry : ℕ) × (exit : ℕ) × Contains functions.now f × HasFunction model.now f entry exit × Has nodes.now exit) }
    ensures cost { steps.new ≤ steps.old + length functions.now }
    ensures rise { steps.old ≤ steps.new }
{
    for function in functions {
        steps.tick();
        let one = &model.functions()[*function as usize];
        if nodes.contains(one.exit) {
            return true;
        }
    }
    false
}

// Adds where the call at the site leads from the nodes of the set.
fn enter<L: Ledger>(
    pool: &mut Scratch,
    nodes: &NodeSet,
    model: &Model,
    site: u32,
    steps: &mut Steps<L>,
)
    requires valid { IsValid model.now }
    requires size { pool.old.size ≡ model.now.nodes }
    ensures entries { Adds (IsEntered model.now (Has nodes.now) site) pool.old pool.new }
    ensures cost { steps.new ≤ steps.old + sum_by (λ c. length c.candidates) model.now.calls }
    ensures rise { steps.old ≤ steps.new }
{
    let Some(call) = model.call(site) else {
        return;
    };
    if nodes.contains(call.from()) {
        add_entries(pool, model, call.candidates(), steps);
    }
}

// Adds where the return to the site leads from the nodes of the set.
fn leave<L: Ledger>(
    pool: &mut Scratch,
    nodes: &NodeSet,
    model: &Model,
    site: u32,
    steps: &mut Steps<L>,
)
    requires valid { IsValid model.now }
    requires size { pool.old.size ≡ model.now.nodes }
    ensures ends { Adds (IsReturned model.now (Has nodes.now) site) pool.old pool.new }
    ensures cost { steps.new ≤ steps.old + sum_by (λ c. length c.candidates) model.now.calls }
    ensures rise { steps.old ≤ steps.new }
{
    let Some(call) = model.call(site) else {
        return;
    };
    if is_over(nodes, model, call.candidates(), steps) {
        note(pool, call.to());
    }
}

// Adds where the event leads at once from the nodes of the set, the open sites left aside.
pub fn look_ahead<L: Ledger>(
    pool: &mut Scratch,
    nodes: &NodeSet,
    model: &Model,
    event: &Event,
    steps: &mut Steps<L>,
)
    requires valid { IsValid model.now }
    requires nodes { nodes.now.size ≡ model.now.nodes }
    requires size { pool.old.size ≡ model.now.nodes }
    ensures ahead { Adds (IsAhead model.now (Has nodes.now) event.now) pool.old pool.new }
    ensures cost { steps.new ≤ steps.old + (length model.now.sys + sum_by (λ c. length c.candidates) model.now.calls) }
    ensures rise { steps.old ≤ steps.new }
{
    match event {
        Event::Sys { .. } => read(pool, nodes, model, event, steps),
        Event::Pre(site) => enter(pool, nodes, model, *site, steps),
        Event::Post(site) => leave(pool, nodes, model, *site, steps),
    }
}

// Adds the ends of the silent edges that leave the node.
fn add_next<L: Ledger>(pool: &mut Scratch, model: &Model, node: u32, steps: &mut Steps<L>)
    requires valid { IsValid model.now }
    requires node { node < model.now.nodes }
    requires size { pool.old.size ≡ model.now.nodes }
    ensures ends { Adds (HasSilent model.now node) pool.old pool.new }
    ensures cost { steps.new ≡ steps.old + length (filter (λ e. nat_eq e.from node) model.now.silent) }
{
    for edge in model.silent_from(node) {
        steps.tick();
        note(pool, edge.to);
    }
}

// Adds all nodes to which silent edges lead from those of the list.
pub fn follow<L: Ledger>(pool: &mut Scratch, model: &Model, steps: &mut Steps<L>)
    requires valid { IsValid model.now }
    requires size { pool.old.size ≡ model.now.nodes }
    requires found { AreFound pool.old }
    ensures size { pool.new.size ≡ pool.old.size }
    ensures found { AreFound pool.new }
    ensures reached { (c : ℕ) → Contains pool.new.nodes c ↔ ((b : ℕ) × Contains pool.old.nodes b × LeadsTo model.now b c) }
    ensures cost { steps.new ≤ steps.old + length model.now.silent }
    ensures rise { steps.old ≤ steps.new }
{
    let mut done = 0;
    while let Some(node) = pool.get(done) {
        add_next(pool, model, node, steps);
        done += 1;
    }
}
