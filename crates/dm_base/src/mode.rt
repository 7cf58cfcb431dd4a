/// Which limits a C text may use, and which reserved names.
#[derive(Clone, Copy)]
pub enum Mode {
    /// A text as it was written by hand.
    Plain,
    /// A text with null calls and temporaries, within wider limits.
    Instrumented,
}
