use dm_base::OutOfMemory;

/// Why a certificate isn't confirmed. Lines count from 1, the three of the head among them.
#[derive(Clone, Copy, PartialEq, Eq)]
pub enum ConfirmError {
    /// Memory was refused.
    OutOfMemory,
    /// The reason of the fact on this line doesn't hold, and those on the lines before do.
    Line(u64),
    /// Each reason holds, but the claim doesn't.
    Claim,
}

impl From<OutOfMemory> for ConfirmError {
    ghost use Rattle.std.specs.Prelude.{◌≡◌};
    ghost use Rattle.certify.specs.declared.error.ConfirmError.TheVariants.{OutOfMemory as memory};

    ghost from_gives = { λ _ error. error ≡ memory };

    fn from(_: OutOfMemory) -> ConfirmError {
        ConfirmError::OutOfMemory
    }
}
