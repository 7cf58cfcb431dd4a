ghost use Rattle.std.specs.Prelude.{◌≡◌, ◌↔◌, ℕ, Contains, IfOk, OnOk};
ghost use Rattle.stack_automaton.specs.declared.place.Edge.{Edge as Edge'};
ghost use Rattle.dm_base.specs.Adding.{Has, Adds};
ghost use Rattle.stack_automaton.specs.Links.{functions_of};
ghost use Rattle.stack_automaton.specs.Storing.{key_at, IsLinkEdge, IsTopEdge, AreTops};

use crate::links::Links;
use crate::place::{Edge, Fact, Link, Place};
use dm_base::OutOfMemory;

// The key of a place, where the new states of the entered functions have these keys.
pub fn key_of(links: &Links, keys: &[usize], place: Place) -> usize
    ensures { result ≡ key_at (functions_of links.now) keys.now place }
{
    match place {
        Place::Held(key) => key,
        Place::Entered(function) => match keys.get(links.place(function)) {
            Some(key) => *key,
            None => 0,
        },
    }
}

// Puts the edges in order, and leaves out those that are there already, so that equal sets of edges are
// equal lists.
fn put_in_order(edges: &mut Vec<Edge>)
    ensures { (e : Edge') → Contains edges.new.items e ↔ Contains edges.old.items e }
{
    edges.sort_unstable();
    edges.dedup();
}

fn push_link(
    edges: &mut Vec<Edge>,
    links: &Links,
    keys: &[usize],
    link: Link,
) -> Result<(), OutOfMemory>
    ensures { OnOk result (Adds edges.old.items edges.new.items (IsLinkEdge (functions_of links.now) keys.now link)) }
{
    let to = key_of(links, keys, link.place);
    edges.push(Edge {
        label: link.site,
        to,
    })?;
    Ok(())
}

// Makes the list that of the edges of some calls, in order and each once.
pub fn link_edges(
    edges: &mut Vec<Edge>,
    links: &Links,
    keys: &[usize],
    list: &[Link],
) -> Result<(), OutOfMemory>
    ensures { OnOk result ((e : Edge') → Contains edges.new.items e ↔ Has (λ l. IsLinkEdge (functions_of links.now) keys.now l e) list.now) }
{
    edges.clear();
    for link in list {
        push_link(edges, links, keys, *link)?;
    }
    put_in_order(edges);
    Ok(())
}

fn push_top(
    edges: &mut Vec<Edge>,
    links: &Links,
    keys: &[usize],
    fact: Fact,
) -> Result<(), OutOfMemory>
    ensures { OnOk result (Adds edges.old.items edges.new.items (IsTopEdge (functions_of links.now) keys.now fact)) }
{
    let to = key_of(links, keys, fact.place);
    edges.push(Edge {
        label: fact.node,
        to,
    })?;
    Ok(())
}

// Makes the list that of the edges of the event's own state, in order and each once.
pub fn tops(
    edges: &mut Vec<Edge>,
    links: &Links,
    keys: &[usize],
    facts: &[Fact],
) -> Result<(), OutOfMemory>
    ensures { OnOk result (AreTops (functions_of links.now) keys.now facts.now edges.new.items) }
{
    edges.clear();
    for fact in facts {
        push_top(edges, links, keys, *fact)?;
    }
    put_in_order(edges);
    Ok(())
}
