use std::alloc::AllocFailed;

/// Why the text of a certificate was refused. Lines count from 1, the first three among them.
#[derive(Clone, Copy, PartialEq, Eq)]
pub enum CertificateError {
    /// Memory was refused.
    OutOfMemory,
    /// The text through this line begins no text of the form, and the one through the line before
    /// does.
    BadLine(u64),
    /// The text ends before its last line does.
    NoEnd,
    /// The text is longer than 64 MiB, or has more than 1,000,000 lines of facts.
    TooLong,
    /// The text has another version than 1.
    Version,
}

impl<T: Drop> From<AllocFailed<T>> for CertificateError {
    ghost use Rattle.std.specs.Prelude.{◌≡◌};
    ghost use Rattle.certify_file.specs.declared.error.CertificateError.TheVariants.{OutOfMemory as memory};

    ghost from_gives = { λ _ error. error ≡ memory };

    fn from(_: AllocFailed<T>) -> CertificateError {
        CertificateError::OutOfMemory
    }
}
