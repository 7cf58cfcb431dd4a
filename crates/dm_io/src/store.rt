ghost use Rattle.std.specs.Prelude.{◌≡◌, ◌<◌, ◌≤◌, ◌⊎◌, ℕ, Option, length, IfOk, OnErr};
ghost use Rattle.dm_io.specs.Faults.{Rose};
ghost use Rattle.dm_io.specs.Store.{Files, ReadsPart, IsMissing};

/// A read that failed.
#[derive(Clone, Copy, Debug, PartialEq, Eq)]
pub struct ReadFail;

/// Files that are read by name, a part at a time.
pub trait Store {
    /// The bytes of each file by its name, where the store tells them.
    /// A store that reads from the system tells nothing.
    ghost files: { Self → Option Files };

    /// How many reads were faults. The count never falls.
    ghost faults: { Self → ℕ };

    /// Reads bytes of the file with this name, from the byte numbered `from` on (the first is 0),
    /// into the front of `into`, and answers how many: at most `into.len()`. Where the files are
    /// told, the bytes are the file's, and the answer is 0 exactly where the file has no byte from
    /// there on. A name that no file has is read as an empty file, or it is an error.
    ///
    /// # Errors
    ///
    /// `ReadFail` comes only where the count of faults rose in this call or stands at 2^64 − 1
    /// after it, or where the files are told and none has this name.
    fn read(&mut self, name: &str, from: u64, into: &mut [u8]) -> Result<usize, ReadFail>
        requires { 0 < length into.old }
        ensures same { files self.new ≡ files self.old }
        ensures within { IfOk result (λ k. k ≤ length into.old) }
        ensures part { IfOk result (λ k. ReadsPart (files self.old) name.now from k into.new) }
        ensures never_falls { faults self.old ≤ faults self.new }
        ensures cause { OnErr result (Rose (faults self.old) (faults self.new)
            ⊎ IsMissing (files self.old) name.now) };
}
