ghost use Rattle.std.specs.Prelude.{◌≡◌};
ghost use Rattle.dm_base.specs.Codes.{code_of};

/// What a monitor says of one event.
#[derive(Clone, Copy, PartialEq, Eq)]
pub enum Step {
    /// The trace is in the language still, and within the bound.
    Kept,
    /// The trace left the language, at this event or before.
    Rejected,
    /// The trace opened more calls than the bound allows, at this event or before.
    Bound,
}

/// What a monitor says of a trace. Events are counted from 1, null calls among them.
#[derive(Clone, Copy, PartialEq, Eq)]
pub enum Verdict {
    /// Each event was kept. There are so many.
    Accepted { events: u64 },
    /// The event with this number is the first at which the trace left the language.
    Rejected { at: u64 },
    /// The event with this number is the first that opened more calls than the bound allows.
    Bound { at: u64 },
}

/// How a run of the tool ended.
#[derive(Clone, Copy)]
pub enum Status {
    /// The text was written; each verdict that was asked for is Accepted.
    Done,
    /// The text was written; some verdict is Rejected.
    Rejected,
    /// The words are no command line.
    Usage,
    /// The C source was refused.
    SourceRefused,
    /// The model was refused.
    ModelRefused,
    /// The trace, the traces or the results were refused.
    RecordRefused,
    /// A file could not be read.
    ReadFault,
    /// The text could not be written whole.
    WriteFault,
    /// Memory was refused.
    OutOfMemory,
    /// The text was written; no verdict is Rejected, and some is Bound.
    Bound,
}

impl Status {
    /// The number with which the program ends, from 0 to 9 in the order of the variants.
    pub fn code(self) -> u8
        ensures { result ≡ code_of self }
    {
        self as u8
    }
}
