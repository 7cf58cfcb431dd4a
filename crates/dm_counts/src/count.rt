ghost use Rattle.std.specs.Prelude.{◌≡◌, ◌+◌, ◌≤◌, ◌^◌, suc, nat_eq, IfSome, IfNone, IfOk, OnOk};

use dm_base::OutOfMemory;
use std::alloc::Global;
use std::marker::Model;

// So many are one byte.
const FULL: usize = 4_294_967_296;

/// A number without a bound, seen as that number: how many there are of something, of which a text may have any number. What lies
/// beyond numbers of 32 bits takes one byte for each 2^32.
#[derive(Drop)]
pub struct Count {
    // What is left past the last full 2^32.
    low: u32,
    // One byte for each full 2^32.
    high: Vec<u8>,
}

impl Model for Count {
    ghost use Rattle.std.specs.Prelude.{ℕ, ◌+◌, ◌*◌, ◌^◌, length};

    ghost Value = { ℕ };

    ghost view = { λ c. c.low + 2 ^ 32 * length c.high.items };
}

impl Count {
    /// None.
    pub fn zero(alloc: Global) -> Count
        ensures { result ≡ 0 }
    {
        Count {
            low: 0,
            high: Vec::new(alloc),
        }
    }

    /// The number, where it is below 2^32.
    pub fn number(&self) -> Option<u32>
        ensures some { IfSome result (λ n. n ≡ self.now) }
        ensures none { IfNone result (2 ^ 32 ≤ self.now) }
    {
        if self.high.len() == 0 {
            return Some(self.low);
        }
        None
    }

    /// Whether the numbers are the same.
    pub fn is(&self, other: &Count) -> bool
        ensures { result ≡ nat_eq self.now other.now }
    {
        self.low == other.low && self.high.len() == other.high.len()
    }

    /// So many more. The only error is that memory was refused.
    pub fn add(&mut self, more: usize) -> Result<(), OutOfMemory>
        ensures { OnOk result (self.new ≡ self.old + more) }
    {
        let sum = self.low as usize + more % FULL;
        for _ in 0..more / FULL + sum / FULL {
            self.high.push(0)?;
        }
        self.low = (sum % FULL) as u32;
        Ok(())
    }

    /// One more. The only error is that memory was refused.
    pub fn raise(&mut self) -> Result<(), OutOfMemory>
        ensures { OnOk result (self.new ≡ self.old + 1) }
    {
        self.add(1)
    }

    /// The same number once more. The only error is that memory was refused.
    pub fn copy(&self) -> Result<Count, OutOfMemory>
        ensures { IfOk result (λ copy. copy ≡ self.now) }
    {
        let high = self.high.clone()?;
        Ok(Count {
            low: self.low,
            high,
        })
    }

    /// The number that is one more. The only error is that memory was refused.
    pub fn one_more(&self) -> Result<Count, OutOfMemory>
        ensures { IfOk result (λ more. more ≡ suc self.now) }
    {
        let mut more = self.copy()?;
        more.raise()?;
        Ok(more)
    }
}
