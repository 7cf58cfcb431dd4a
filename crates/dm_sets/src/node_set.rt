ghost use Rattle.std.specs.Prelude.{◌≡◌, ◌+◌, ◌*◌, ◌/◌, ◌<◌, ◌≤◌, ◌↔◌, ℕ, length, IsTrue, IfOk, IfSome, IfNone};
ghost use Rattle.std.specs.FinSet.{empty, insert};
ghost use Rattle.std.specs.Int.{bit_at, div_ceil};
ghost use Rattle.dm_sets.specs.Bits.{bit, AreBetween};
ghost use Rattle.dm_sets.specs.Nodes.{Has};

use dm_base::OutOfMemory;
use std::alloc::Global;
use std::marker::Model;

// How many numbers a word stands for.
const WORD: u32 = 64;

/// A set of numbers below its size, seen as its size and its members. It is a bit set: each member is
/// a bit of a machine word. It knows between which numbers its members are, so that members that stand
/// close together cost no more than the words between them.
pub struct NodeSet {
    limit: u32,
    // No member is below it.
    low: u32,
    // All members are below it.
    high: u32,
    words: Vec<u64>,
}

impl Drop for NodeSet {
    fn drop(self) {
        let Self {
            limit: _limit,
            low: _low,
            high: _high,
            words: _words,
        } = self;
    }
}

impl Model for NodeSet {
    ghost use Rattle.std.specs.Prelude.{◌≡◌, ◌≤◌, length};
    ghost use Rattle.std.specs.Int.{div_ceil};
    ghost use Rattle.dm_sets.specs.Bits.{members_below, AreBetween};
    ghost use Rattle.dm_sets.specs.Nodes.{Nodes, nodes_code};

    ghost Value = { Nodes };

    ghost coded = { nodes_code };

    ghost view = { λ s. record { size = s.limit; members = members_below s.words.items s.limit } };

    ghost invariant = { λ s. (length s.words.items ≡ div_ceil s.limit 64) × (s.high ≤ s.limit) × AreBetween s.words.items s.low s.high };
}

// So many words without a bit.
fn zeros(alloc: Global, count: usize) -> Result<Vec<u64>, OutOfMemory>
    ensures len { IfOk result (λ words. length words.items ≡ count) }
    ensures none { IfOk result (λ words. (k : ℕ) → bit words.items k ≡ 0) }
{
    Ok(vec![in alloc; 0; count]?)
}

// Sets the bit of the number, and tells whether it was 0.
fn set_bit(words: &mut [u64], k: u32) -> bool
    requires { k / 64 < length words.old }
    ensures here { bit words.new k ≡ 1 }
    ensures others { (j : ℕ) → (j ≡ k → ⊥) → bit words.new j ≡ bit words.old j }
    ensures new { IsTrue result ↔ (bit words.old k ≡ 0) }
{
    let place = (k / WORD) as usize;
    let word = words[place];
    words[place] = word | 1 << (k % WORD);
    word >> (k % WORD) & 1 == 0
}

// Whether the bit of the number is 1.
fn has_bit(words: &[u64], k: u32) -> bool
    ensures { IsTrue result ↔ (bit words.now k ≡ 1) }
{
    match words.get((k / WORD) as usize) {
        Some(word) => *word >> (k % WORD) & 1 == 1,
        None => false,
    }
}

// The place of the least bit of the word that is 1 and not below `low`.
fn first_in_word(word: u64, low: u32) -> Option<u32>
    requires { low < 64 }
    ensures some { IfSome result (λ k. (low ≤ k) × (k < 64) × (bit_at word k ≡ 1)) }
    ensures least { IfSome result (λ k. (j : ℕ) → low ≤ j → j < k → bit_at word j ≡ 0) }
    ensures none { IfNone result ((j : ℕ) → low ≤ j → j < 64 → bit_at word j ≡ 0) }
{
    let rest = word >> low;
    if rest == 0 {
        return None;
    }
    Some(low + rest.trailing_zeros())
}

// The least number, not below `from`, whose bit is 1, among the numbers of the words of those below
// `end`.
fn next_bit(words: &[u64], from: u32, end: u32) -> Option<u32>
    requires { div_ceil end 64 ≤ length words.now }
    ensures some { IfSome result (λ k. (from ≤ k) × (bit words.now k ≡ 1)) }
    ensures least { IfSome result (λ k. (j : ℕ) → from ≤ j → j < k → bit words.now j ≡ 0) }
    ensures none { IfNone result ((j : ℕ) → from ≤ j → j < end → bit words.now j ≡ 0) }
{
    let mut low = from % WORD;
    for i in (from / WORD) as usize..end.div_ceil(WORD) as usize {
        if let Some(place) = first_in_word(words[i], low) {
            return Some(WORD * i as u32 + place);
        }
        low = 0;
    }
    None
}

// Takes the bits of the words from that of the first number to that of the last below `end`.
fn clear_between(words: &mut [u64], first: u32, end: u32)
    requires within { div_ceil end 64 ≤ length words.old }
    requires between { AreBetween words.old first end }
    ensures { (k : ℕ) → bit words.new k ≡ 0 }
{
    for i in (first / WORD) as usize..end.div_ceil(WORD) as usize {
        words[i] = 0;
    }
}

impl NodeSet {
    /// An empty set of numbers below `n`. Only this call takes memory.
    pub fn new(alloc: Global, n: u32) -> Result<NodeSet, OutOfMemory>
        ensures { IfOk result (λ s. s ≡ record { size = n; members = empty }) }
    {
        Ok(NodeSet {
            limit: n,
            low: n,
            high: 0,
            words: zeros(alloc, n.div_ceil(WORD) as usize)?,
        })
    }

    /// How many numbers may be members: they are those below it.
    pub fn size(&self) -> u32
        ensures { result ≡ self.now.size }
    {
        self.limit
    }

    /// Adds a number, and tells whether it was new.
    pub fn insert(&mut self, node: u32) -> bool
        requires { node < self.old.size }
        ensures added { self.new ≡ record self.old { members = insert self.old.members node } }
        ensures new { IsTrue result ↔ (Has self.old node → ⊥) }
    {
        self.low = self.low.min(node);
        self.high = self.high.max(node + 1);
        set_bit(&mut self.words, node)
    }

    /// Whether the number is a member. None from the size up is.
    pub fn contains(&self, node: u32) -> bool
        ensures { IsTrue result ↔ Has self.now node }
    {
        node < self.limit && has_bit(&self.words, node)
    }

    /// Takes all members away. It costs no more than the words from the least member that was added to
    /// the greatest.
    pub fn clear(&mut self)
        ensures { self.new ≡ record self.old { members = empty } }
    {
        clear_between(&mut self.words, self.low, self.high);
        self.low = self.limit;
        self.high = 0;
    }

    /// The least member not below `from`, or None where there is none. Words without members are
    /// skipped whole.
    pub fn next(&self, from: u32) -> Option<u32>
        ensures some { IfSome result (λ k. (from ≤ k) × (k < self.now.size) × Has self.now k) }
        ensures least { IfSome result (λ k. (j : ℕ) → from ≤ j → Has self.now j → k ≤ j) }
        ensures none { IfNone result ((j : ℕ) → from ≤ j → Has self.now j → ⊥) }
    {
        let limit = self.limit;
        match next_bit(&self.words, from.max(self.low), self.high) {
            Some(node) if node < limit => Some(node),
            _ => None,
        }
    }

    /// An equal set, in memory of the allocator that this one keeps.
    pub fn copy(&self) -> Result<NodeSet, OutOfMemory>
        ensures { IfOk result (λ copied. copied ≡ self.now) }
    {
        Ok(NodeSet {
            limit: self.limit,
            low: self.low,
            high: self.high,
            words: self.words.clone()?,
        })
    }
}
