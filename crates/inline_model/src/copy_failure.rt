use dm_base::OutOfMemory;

/// Why there is no list of copies.
#[derive(Clone, Copy)]
pub enum CopiesError {
    /// Memory was refused.
    OutOfMemory,
    /// The copies have more than 200,000 nodes together.
    TooManyNodes,
}

impl From<OutOfMemory> for CopiesError {
    ghost use Rattle.std.specs.Prelude.{◌≡◌};
    ghost use Rattle.inline_model.specs.declared.copy_failure.CopiesError.TheVariants.{OutOfMemory as memory};

    ghost from_gives = { λ _ error. error ≡ memory };

    fn from(_: OutOfMemory) -> CopiesError {
        CopiesError::OutOfMemory
    }
}
