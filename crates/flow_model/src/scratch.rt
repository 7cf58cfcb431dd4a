ghost use Rattle.std.specs.Prelude.{◌≡◌, ◌<◌, ◌≤◌, ◌↔◌, ℕ, [], ◌∷◌, ◌++◌, length, slice_get, Contains, IsTrue, IfOk, IfSome};
ghost use Rattle.dm_sets.specs.Nodes.{Has};
ghost use Rattle.flow_model.specs.Found.{AreFound};

use crate::Model;
use dm_base::OutOfMemory;
use dm_sets::NodeSet;
use std::alloc::Global;

/// The working space of the monitors of one model, seen as the number of the model's nodes and the
/// list of different nodes that were added since it was cleared, the oldest first. It has room for
/// all nodes, so only `new` takes memory.
pub struct Scratch {
    members: NodeSet,
    found: Vec<u32>,
}

impl Drop for Scratch {
    fn drop(self) {
        let Self {
            members: _members,
            found: _found,
        } = self;
    }
}

impl std::marker::Model for Scratch {
    ghost use Rattle.std.specs.Prelude.{◌≤◌, vec_capacity};
    ghost use Rattle.flow_model.specs.Found.{Found};
    ghost use Rattle.flow_model.specs.Members.{IsSetOf};

    ghost Value = { Found };

    ghost view = { λ s. record { size = s.members.size; nodes = s.found.items } };

    ghost invariant = { λ s. IsSetOf s.members s.found.items × (s.members.size ≤ vec_capacity s.found) };
}

impl Scratch {
    /// The working space of the model, without nodes.
    pub fn new(alloc: Global, model: &Model) -> Result<Scratch, OutOfMemory>
        ensures { IfOk result (λ s. s ≡ record { size = model.now.nodes; nodes = [] }) }
    {
        Ok(Scratch {
            members: NodeSet::new(alloc, model.nodes())?,
            found: Vec::with_capacity(alloc, model.nodes() as usize)?,
        })
    }

    /// The allocator that it was made with.
    pub fn allocator(&self) -> Global {
        *self.found.allocator()
    }

    /// How many nodes the model has. The nodes that were found are below it.
    pub fn size(&self) -> u32
        ensures size { result ≡ self.now.size }
        ensures found { AreFound self.now }
    {
        self.members.size()
    }

    /// How many nodes were found.
    pub fn len(&self) -> u32
        ensures len { result ≡ length self.now.nodes }
        ensures few { result ≤ self.now.size }
    {
        let _size = self.members.size();
        self.found.len() as u32
    }

    /// The node that was found as the i-th, counted from 0, or None from `len` up.
    pub fn get(&self, i: u32) -> Option<u32>
        ensures get { result ≡ slice_get self.now.nodes i }
        ensures below { IfSome result (λ a. a < self.now.size) }
        ensures within { IfSome result (λ a. i < self.now.size) }
    {
        self.found.get(i as usize).copied()
    }

    /// The nodes that were found, in the order in which they were added.
    pub fn nodes(&self) -> &[u32]
        ensures { result.now ≡ self.now.nodes }
    {
        &self.found
    }

    /// Adds a node at the end where it was not found before, and tells whether that was so.
    pub fn add(&mut self, node: u32) -> bool
        requires { node < self.old.size }
        ensures new { IsTrue result ↔ (Contains self.old.nodes node → ⊥) }
        ensures added { IsTrue result → self.new ≡ record self.old { nodes = self.old.nodes ++ node ∷ [] } }
        ensures had { (IsTrue result → ⊥) → Contains self.old.nodes node }
        ensures same { (IsTrue result → ⊥) → self.new ≡ self.old }
    {
        if !self.members.insert(node) {
            return false;
        }
        self.found.push(node).is_ok()
    }

    /// Makes the set that of the nodes that were found.
    pub fn fill(&self, set: &mut NodeSet)
        requires { set.old.size ≡ self.now.size }
        ensures size { set.new.size ≡ set.old.size }
        ensures has { (a : ℕ) → Has set.new a ↔ Contains self.now.nodes a }
    {
        // It tells that the nodes are below the size.
        let _size = self.size();
        set.clear();
        for node in self.nodes() {
            set.insert(*node);
        }
    }

    /// Takes all nodes away. It costs no more than one step for each 64 nodes of the model.
    pub fn clear(&mut self)
        ensures { self.new ≡ record self.old { nodes = [] } }
    {
        self.members.clear();
        self.found.clear();
    }
}
