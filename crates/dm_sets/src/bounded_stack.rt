ghost use Rattle.std.specs.Prelude.{◌≡◌, ◌<◌, ◌≤◌, ◌^◌, ◌↔◌, ℕ, List, [], ◌∷◌, length, IsTrue, IfOk, IfSome, IfNone};

use dm_base::OutOfMemory;
use std::alloc::Global;
use std::marker::Model;

/// A stack of numbers that holds at most so many as its bound, seen as its entries, the newest first,
/// and its bound.
pub struct BoundedStack {
    most: u32,
    entries: Vec<u32>,
}

impl Drop for BoundedStack {
    fn drop(self) {
        let Self {
            most: _most,
            entries: _entries,
        } = self;
    }
}

impl Model for BoundedStack {
    ghost use Rattle.std.specs.Prelude.{◌<◌, ◌≤◌, ◌^◌, length, reverse, vec_capacity};
    ghost use Rattle.dm_sets.specs.Entries.{Entries};

    ghost Value = { Entries };

    ghost view = { λ s. record { bound = s.most; items = reverse s.entries.items } };

    ghost invariant = { λ s. (s.most < 2 ^ 16) × (length s.entries.items ≤ s.most) × (s.most ≤ vec_capacity s.entries) };
}

impl BoundedStack {
    /// An empty stack with the bound `k`, which is 1 to 65,535. It takes the memory for `k` entries.
    pub fn new(alloc: Global, k: u32) -> Result<BoundedStack, OutOfMemory>
        requires { (1 ≤ k) × (k < 2 ^ 16) }
        ensures { IfOk result (λ s. s ≡ record { bound = k; items = [] }) }
    {
        Ok(BoundedStack {
            most: k,
            entries: Vec::with_capacity(alloc, k as usize)?,
        })
    }

    /// Puts an entry on top. False exactly where as many entries as the bound are held; then nothing
    /// changes.
    pub fn push(&mut self, item: u32) -> bool
        ensures pushed { IsTrue result ↔ (length self.old.items < self.old.bound) }
        ensures new { IsTrue result → self.new ≡ record self.old { items = item ∷ self.old.items } }
        ensures full { (IsTrue result → ⊥) → self.new ≡ self.old }
    {
        if self.entries.len() >= self.most as usize {
            return false;
        }
        self.entries.push(item).is_ok()
    }

    /// Takes the top entry away. None exactly where the stack is empty; then nothing changes.
    pub fn pop(&mut self) -> Option<u32>
        ensures some { IfSome result (λ item. self.old ≡ record self.new { items = item ∷ self.new.items }) }
        ensures none { IfNone result ((self.old.items ≡ []) × (self.new ≡ self.old)) }
    {
        self.entries.pop()
    }

    /// The top entry. None exactly where the stack is empty.
    pub fn top(&self) -> Option<u32>
        ensures some { IfSome result (λ item. (rest : List ℕ) × (self.now.items ≡ item ∷ rest)) }
        ensures none { IfNone result (self.now.items ≡ []) }
    {
        self.entries.last().copied()
    }

    /// How many entries are held.
    pub fn len(&self) -> u32
        ensures { result ≡ length self.now.items }
    {
        self.entries.len() as u32
    }

    /// How many entries may be held.
    pub fn bound(&self) -> u32
        ensures { result ≡ self.now.bound }
    {
        self.most
    }

    /// An equal stack, in memory of the allocator that this one keeps.
    pub fn copy(&self) -> Result<BoundedStack, OutOfMemory>
        ensures { IfOk result (λ copied. copied ≡ self.now) }
    {
        let mut entries = Vec::with_capacity(*self.entries.allocator(), self.most as usize)?;
        entries.extend_from_slice(&self.entries)?;
        Ok(BoundedStack {
            most: self.most,
            entries,
        })
    }
}
