use dm_base::OutOfMemory;

/// Why no certificate is made.
#[derive(Clone, Copy)]
pub enum CertifyError {
    /// Memory was refused.
    OutOfMemory,
    /// More than 1,000,000 facts follow.
    TooLarge,
}

impl From<OutOfMemory> for CertifyError {
    ghost use Rattle.std.specs.Prelude.{◌≡◌};
    ghost use Rattle.certify_making.specs.declared.error.CertifyError.TheVariants.{OutOfMemory as memory};

    ghost from_gives = { λ _ error. error ≡ memory };

    fn from(_: OutOfMemory) -> CertifyError {
        CertifyError::OutOfMemory
    }
}
