ghost use Rattle.std.specs.Prelude.{◌≡◌};
ghost use Rattle.tool_frame.specs.Stop.{line_of, status_of_stop, stop_of_read, no_memory};

use dm_base::{OutOfMemory, Status};
use dm_io::{ReadError, ReadFail};

/// Why nothing was written.
#[derive(Drop)]
pub enum Stop {
    /// The words are no command line.
    Usage,
    /// The C text is refused with this line, or the model of its program is.
    Source(Vec<u8>),
    /// The model is refused with this line.
    Model(Vec<u8>),
    /// The trace is refused with this line.
    Record(Vec<u8>),
    /// A file could not be read.
    Read,
    /// The text could not be written whole.
    Write,
    /// Memory was refused.
    OutOfMemory,
}

impl Stop {
    /// The status with which the tool ends then.
    pub fn status(&self) -> Status
        ensures { result ≡ status_of_stop self.now }
    {
        match self {
            Stop::Usage => Status::Usage,
            Stop::Source(_) => Status::SourceRefused,
            Stop::Model(_) => Status::ModelRefused,
            Stop::Record(_) => Status::RecordRefused,
            Stop::Read => Status::ReadFault,
            Stop::Write => Status::WriteFault,
            Stop::OutOfMemory => Status::OutOfMemory,
        }
    }

    /// The line that is written on err then.
    pub fn line(&self) -> &[u8]
        ensures { result.now ≡ line_of self.now }
    {
        match self {
            Stop::Usage => b"usage\n",
            Stop::Source(line) => line,
            Stop::Model(line) => line,
            Stop::Record(line) => line,
            Stop::Read => b"read fault\n",
            Stop::Write => b"write fault\n",
            Stop::OutOfMemory => b"out of memory\n",
        }
    }
}

impl From<OutOfMemory> for Stop {
    ghost from_gives = { λ _ stop. stop ≡ no_memory };

    fn from(_: OutOfMemory) -> Self {
        Stop::OutOfMemory
    }
}

impl From<ReadFail> for Stop {
    ghost use Rattle.tool_frame.specs.declared.stop.Stop.TheVariants.{Read as failed};

    ghost from_gives = { λ _ stop. stop ≡ failed };

    fn from(_: ReadFail) -> Self {
        Stop::Read
    }
}

impl From<ReadError> for Stop {
    ghost from_gives = { λ error stop. stop ≡ stop_of_read error };

    fn from(error: ReadError) -> Self {
        match error {
            ReadError::OutOfMemory => Stop::OutOfMemory,
            ReadError::Fault => Stop::Read,
        }
    }
}
