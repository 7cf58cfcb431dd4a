ghost use Rattle.std.specs.Prelude.{◌≡◌, ◌<◌, ◌≤◌, [], ◌++◌, length, take, IsTrue, IsErr, IfOk, OnErr, Ok, Some, false};
ghost use Rattle.dm_io.specs.Faults.{Rose};
ghost use Rattle.dm_io.specs.Memory.{after_write, after_failure, after_reserved, told};
ghost use Rattle.dm_io.specs.Plan.{first_plan, is_failing, share};
ghost use Rattle.dm_io.specs.Sink.{Takes};

use crate::plan::Plan;
use crate::zeros::zeros;
use crate::{Sink, WriteFail};
use dm_base::OutOfMemory;
use std::alloc::Global;
use std::marker::Model;

/// Bytes taken in memory, by writes that can be made to fail and to take few bytes.
/// Contracts see the bytes, the plan of its calls, and how many calls found no memory.
#[derive(Drop)]
pub struct MemorySink {
    held: Vec<u8>,
    plan: Plan,
    starved: u64,
}

impl Model for MemorySink {
    ghost use Rattle.dm_io.specs.Memory.{SinkState};

    ghost Value = { SinkState };

    ghost view = { λ s. record { bytes = s.held.items; plan = s.plan; starved = s.starved } };
}

impl MemorySink {
    /// A sink that has taken nothing.
    ///
    /// Writes are numbered from 0, and those whose numbers are in `failing` fail, each of which is
    /// a fault. The number of a write and the count of faults stop at 2^64 − 1.
    /// A write takes at most `most` bytes, or at most 1 where `most` is 0.
    pub fn new(alloc: Global, failing: Vec<u64>, most: usize) -> Self
        ensures bytes { result.bytes ≡ [] }
        ensures plan { result.plan ≡ first_plan failing.items most }
        ensures starved { result.starved ≡ 0 }
    {
        MemorySink {
            held: Vec::new(alloc),
            plan: Plan::new(failing, most),
            starved: 0,
        }
    }

    /// A sink that takes the memory for `room` bytes at once, and whose writes never fail.
    ///
    /// # Errors
    ///
    /// `OutOfMemory` where the memory is refused.
    pub fn reserved(alloc: Global, room: usize) -> Result<HonestSink, OutOfMemory>
        ensures { IfOk result (λ sink. sink ≡ record { room = room; bytes = []; is_over = false }) }
    {
        let buffer = zeros(alloc, room)?;
        Ok(HonestSink {
            buffer,
            len: 0,
            is_over: false,
        })
    }

    /// The bytes taken so far.
    pub fn bytes(&self) -> &[u8]
        ensures { result.now ≡ self.now.bytes }
    {
        &self.held
    }

    /// How many writes failed because a growth found no memory. The count stops at 2^64 − 1.
    pub fn starved(&self) -> u64
        ensures { result ≡ self.now.starved }
    {
        self.starved
    }
}

impl Sink for MemorySink {
    ghost taken = { λ s. Some s.bytes };

    ghost faults = { λ s. s.plan.faults };

    /// Takes bytes as the trait says.
    ///
    /// # Errors
    ///
    /// `WriteFail` where the number of this call is one of those that fail, and where the growth
    /// finds no memory, which `starved` counts. Both are faults.
    fn write(&mut self, piece: &[u8]) -> Result<usize, WriteFail>
        requires { 0 < length piece.now }
        ensures some { IfOk result (λ k. 1 ≤ k) }
        ensures within { IfOk result (λ k. k ≤ length piece.now) }
        ensures taken { IfOk result (λ k. self.new.bytes ≡ self.old.bytes ++ take k piece.now) }
        ensures unchanged { OnErr result (self.new.bytes ≡ self.old.bytes) }
        ensures never_falls { self.old.plan.faults ≤ self.new.plan.faults }
        ensures cause { OnErr result (Rose self.old.plan.faults self.new.plan.faults) }

        // What this sink does beyond that.
        ensures planned { IsTrue (is_failing self.old.plan) → IsErr result }
        ensures count { IfOk result (λ k. k ≡ share self.old.plan (length piece.now)) }
        ensures ok { IfOk result (λ k. self.new ≡ after_write self.old (take k piece.now)) }
        ensures err { OnErr result (self.new ≡ after_failure self.old) }
    {
        if self.plan.is_failing() {
            self.plan.count_fault();
            return Err(WriteFail);
        }
        let count = self.plan.share(piece.len());
        if self.held.extend_from_slice(&piece[..count]).is_err() {
            self.plan.count_fault();
            self.starved = self.starved.saturating_add(1);
            return Err(WriteFail);
        }
        self.plan.count_call();
        Ok(count)
    }
}

/// Bytes taken into memory that was there from the start. It takes every piece whole.
/// Contracts see the room, the first bytes written up to it, and whether more were written.
#[derive(Drop)]
pub struct HonestSink {
    buffer: Vec<u8>,
    len: usize,
    is_over: bool,
}

impl Model for HonestSink {
    ghost use Rattle.std.specs.Prelude.{◌≤◌, vec_len, take};
    ghost use Rattle.dm_io.specs.Memory.{ReservedState};

    ghost Value = { ReservedState };

    ghost view = { λ s. record {
      room = vec_len s.buffer;
      bytes = take s.len s.buffer.items;
      is_over = s.is_over;
    } };

    ghost invariant = { λ s. s.len ≤ vec_len s.buffer };
}

impl HonestSink {
    /// The first bytes written, up to the room; all of them where no more were written.
    pub fn bytes(&self) -> &[u8]
        ensures bytes { result.now ≡ self.now.bytes }
        ensures within { length self.now.bytes ≤ self.now.room }
    {
        &self.buffer[..self.len]
    }
}

// Puts as much of the piece as there is room for behind the first `len` bytes, and answers how
// many bytes are there then.
fn put(buffer: &mut [u8], len: usize, piece: &[u8]) -> usize
    requires { len ≤ length buffer.old }
    ensures same { length buffer.new ≡ length buffer.old }
    ensures within { result ≤ length buffer.new }
    ensures front { take result buffer.new
        ≡ take (length buffer.old) (take len buffer.old ++ piece.now) }
{
    let count = (buffer.len() - len).min(piece.len());
    buffer[len..len + count].copy_from_slice(&piece[..count]);
    len + count
}

impl Sink for HonestSink {
    ghost taken = { told };

    ghost faults = { λ _. 0 };

    /// Takes the piece whole, and never fails. Bytes past the room are not kept; from then on the
    /// sink does not tell its bytes.
    fn write(&mut self, piece: &[u8]) -> Result<usize, WriteFail>
        requires { 0 < length piece.now }
        ensures all { result ≡ Ok (length piece.now) }
        ensures taken { Takes (told self.old) (told self.new) piece.now }
        ensures state { self.new ≡ after_reserved self.old piece.now }
    {
        self.is_over = self.is_over || piece.len() > self.buffer.len() - self.len;
        self.len = put(&mut self.buffer, self.len, piece);
        Ok(piece.len())
    }
}
