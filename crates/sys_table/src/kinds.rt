ghost use Rattle.std.specs.Prelude.{◌↔◌, IsTrue};
ghost use Rattle.sys_table.specs.Table.{FitsArgument, FitsNumber, FitsResult};

use line_text::Arg;

/// The kind of an argument that a trace records of a system call.
#[derive(Clone, Copy)]
pub enum ArgKind {
    /// A number from −2^31 to 2^31 − 1.
    Signed,
    /// A number from 0 to 2^32 − 1.
    Unsigned,
    /// The bytes of the buffer of `write`, or of a path before its zero.
    Bytes,
}

impl ArgKind {
    /// Whether the number is in the range of this kind. No number is bytes.
    pub fn fits_number(self, number: i64) -> bool
        ensures { IsTrue result ↔ FitsNumber self number }
    {
        match self {
            ArgKind::Signed => i32::try_from(number).is_ok(),
            ArgKind::Unsigned => u32::try_from(number).is_ok(),
            ArgKind::Bytes => false,
        }
    }

    /// Whether the argument is of this kind, and in its range where it is a number.
    pub fn fits(self, argument: &Arg) -> bool
        ensures { IsTrue result ↔ FitsArgument self argument.now }
    {
        match argument {
            Arg::Int(number) => self.fits_number(*number),
            Arg::Bytes(_) => self == ArgKind::Bytes,
        }
    }
}

/// The kind of a system call's result.
#[derive(Clone, Copy)]
pub enum ResultKind {
    /// A number from −2^31 to 2^31 − 1.
    Int,
    /// A number from 0 to 2^32 − 1.
    UnsignedInt,
    /// Nothing, which is recorded as 0.
    Void,
}

impl ResultKind {
    /// Whether the value is in the range of this kind.
    pub fn fits(self, value: i64) -> bool
        ensures { IsTrue result ↔ FitsResult self value }
    {
        match self {
            ResultKind::Int => i32::try_from(value).is_ok(),
            ResultKind::UnsignedInt => u32::try_from(value).is_ok(),
            ResultKind::Void => value == 0,
        }
    }
}
