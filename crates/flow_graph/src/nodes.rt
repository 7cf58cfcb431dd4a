ghost use Rattle.std.specs.Prelude.{◌≡◌, [], nat_eq, OnOk, OnErr};
ghost use Rattle.std.specs.List.{list_any};
ghost use Rattle.dm_base.specs.Adding.{Adds};
ghost use Rattle.flow_graph.specs.Nodes.{AreIndexed, with_node};

use dm_base::OutOfMemory;
use std::alloc::Global;
use std::collections::HashSet;

/// Different nodes, in the order in which they were found. Seen as their list.
#[derive(Drop)]
pub struct Nodes {
    list: Vec<usize>,
    // The nodes of the list.
    index: HashSet<usize>,
}

impl std::marker::Model for Nodes {
    ghost use Rattle.flow_graph.specs.Nodes.{Nodes as Listed, AreIndexed};

    ghost Value = { Listed };

    ghost view = { λ s. record { keys = s.list.items } };

    ghost invariant = { λ s. AreIndexed s.list.items s.index.keys };
}

// Adds the node to the list and to its index where it isn't there.
fn add_to_both(
    list: &mut Vec<usize>,
    index: &mut HashSet<usize>,
    node: usize,
) -> Result<(), OutOfMemory>
    requires { AreIndexed list.old.items index.old.keys }
    ensures added { OnOk result (list.new.items ≡ with_node list.old.items node) }
    ensures kept { OnErr result (list.new.items ≡ list.old.items) }
    ensures indexed { AreIndexed list.new.items index.new.keys }
{
    if index.contains(&node) {
        return Ok(());
    }
    list.push(node)?;
    match index.insert(node) {
        Ok(_) => Ok(()),
        Err(refused) => {
            list.pop();
            Err(OutOfMemory::from(refused))
        }
    }
}

impl Nodes {
    /// No node is there.
    pub fn new(alloc: Global) -> Nodes
        ensures { result.keys ≡ [] }
    {
        Nodes {
            list: Vec::new(alloc),
            index: HashSet::new(alloc),
        }
    }

    /// The nodes.
    pub fn as_slice(&self) -> &[usize]
        ensures { result.now ≡ self.now.keys }
    {
        &self.list
    }

    /// Whether the node is there.
    pub fn contains(&self, node: usize) -> bool
        ensures { result ≡ list_any (nat_eq node) self.now.keys }
    {
        self.index.contains(&node)
    }

    /// Adds the node where it isn't there.
    pub fn note(&mut self, node: usize) -> Result<(), OutOfMemory>
        ensures { OnOk result (Adds self.old.keys self.new.keys (λ k. k ≡ node)) }
    {
        add_to_both(&mut self.list, &mut self.index, node)
    }
}
