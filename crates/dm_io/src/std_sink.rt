// The streams of the system.
ghost use Rattle.std.specs.Prelude.{◌≡◌, ◌<◌, ◌≤◌, length, None, IfOk, OnOk, OnErr};
ghost use Rattle.std.specs.Io.KnownBytes.{WriteAppends};
ghost use Rattle.dm_io.specs.Faults.{Rose, raised};

use crate::{Sink, WriteFail};
use std::io::Write;
use std::marker::Model;

/// A stream that bytes are written to, as standard output or standard error. As a sink it tells
/// nothing of what it took. Contracts see the count of faults, and the bytes that the writer
/// holds where the writer itself tells them, as a `Vec` does and a stream of the system does not.
#[derive(Drop)]
pub struct StdSink<W: Write + Drop> {
    writer: W,
    failed: u64,
}

impl<W: Write + Drop> Model for StdSink<W> {
    ghost use Rattle.dm_io.specs.Stream.{StreamState};

    ghost Value = { StreamState };

    ghost view = { λ s. record { faults = s.failed; contents = W.contents s.writer } };
}

impl<W: Write + Drop> StdSink<W> {
    /// A sink that writes to this writer.
    pub fn new(writer: W) -> Self
        ensures faults { result.faults ≡ 0 }
        ensures contents { result.contents ≡ W.contents writer }
    {
        StdSink { writer, failed: 0 }
    }
}

impl<W: Write + Drop> Sink for StdSink<W> {
    ghost taken = { λ _. None };

    ghost faults = { λ s. s.faults };

    /// Writes once to the writer, and answers how many bytes it took.
    ///
    /// # Errors
    ///
    /// `WriteFail` where the writer fails or takes nothing of the piece. Each is a fault, which
    /// raises the count by one, up to 2^64 − 1.
    fn write(&mut self, piece: &[u8]) -> Result<usize, WriteFail>
        requires { 0 < length piece.now }
        ensures some { IfOk result (λ k. 1 ≤ k) }
        ensures within { IfOk result (λ k. k ≤ length piece.now) }
        ensures never_falls { self.old.faults ≤ self.new.faults }
        ensures cause { OnErr result (Rose self.old.faults self.new.faults) }

        // What this sink does beyond that.
        ensures appends { WriteAppends self.old.contents self.new.contents result piece.now }
        ensures ok { OnOk result (self.new.faults ≡ self.old.faults) }
        ensures err { OnErr result (self.new.faults ≡ raised self.old.faults) }
    {
        match self.writer.write(piece) {
            Ok(count) if count > 0 => Ok(count),
            _ => {
                self.failed = self.failed.saturating_add(1);
                Err(WriteFail)
            }
        }
    }
}
