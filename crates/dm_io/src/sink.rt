ghost use Rattle.std.specs.Prelude.{◌<◌, ◌≤◌, ℕ, List, [], Option, length, take, IfOk, OnErr};
ghost use Rattle.dm_io.specs.Faults.{Rose};
ghost use Rattle.dm_io.specs.Sink.{Takes};

/// A write that failed.
#[derive(Clone, Copy, Debug, PartialEq, Eq)]
pub struct WriteFail;

/// Takes bytes, a part at a time.
pub trait Sink {
    /// The bytes taken so far, where the sink tells them.
    /// A sink that writes to the system tells nothing.
    ghost taken: { Self → Option (List ℕ) };

    /// How many writes were faults. The count never falls.
    ghost faults: { Self → ℕ };

    /// Takes bytes from the front of the piece, and answers how many: at least 1, and at most
    /// `piece.len()`. Where the bytes taken are told after the call, just these were appended.
    ///
    /// # Errors
    ///
    /// `WriteFail` comes only where the count of faults rose in this call or stands at 2^64 − 1
    /// after it. Nothing of the piece is appended then.
    fn write(&mut self, piece: &[u8]) -> Result<usize, WriteFail>
        requires { 0 < length piece.now }
        ensures some { IfOk result (λ k. 1 ≤ k) }
        ensures within { IfOk result (λ k. k ≤ length piece.now) }
        ensures taken { IfOk result (λ k.
            Takes (taken self.old) (taken self.new) (take k piece.now)) }
        ensures unchanged { OnErr result (Takes (taken self.old) (taken self.new) []) }
        ensures never_falls { faults self.old ≤ faults self.new }
        ensures cause { OnErr result (Rose (faults self.old) (faults self.new)) };
}
