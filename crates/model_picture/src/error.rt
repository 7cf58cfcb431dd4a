use dm_base::OutOfMemory;

/// Why no picture of a model was made.
#[derive(Clone, Copy)]
pub enum PictureError {
    /// Memory was refused.
    OutOfMemory,
    /// The text is longer than 16 MiB.
    TooLarge,
}

impl From<OutOfMemory> for PictureError {
    ghost use Rattle.std.specs.Prelude.{◌≡◌};
    ghost use Rattle.model_picture.specs.declared.error.PictureError.TheVariants.{OutOfMemory as memory};

    ghost from_gives = { λ _ error. error ≡ memory };

    fn from(_: OutOfMemory) -> PictureError {
        PictureError::OutOfMemory
    }
}
