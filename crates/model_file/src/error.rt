use dm_base::OutOfMemory;

/// Why a text is no model file.
#[derive(Clone, Copy, PartialEq, Eq)]
pub enum ModelError {
    /// Memory was refused.
    OutOfMemory,
    /// The text through this line, counted from 1, begins no text of the form, and the one through
    /// the line before does.
    BadLine(u32),
    /// The text has the form, and its lists break this rule of models and none with a lower number,
    /// 1 to 5 (see `FinishError`).
    Invalid(u8),
    /// The text ends before its last line does.
    Truncated,
    /// The text is longer than 16 MiB.
    TooLarge,
    /// The file has another version than 1 and 2.
    Version,
}

/// Why no text of a model was made.
#[derive(Clone, Copy)]
pub enum WriteModelError {
    /// Memory was refused.
    OutOfMemory,
    /// The text is longer than 16 MiB.
    TooLarge,
}

impl From<OutOfMemory> for ModelError {
    ghost use Rattle.std.specs.Prelude.{◌≡◌};
    ghost use Rattle.model_file.specs.declared.error.ModelError.TheVariants.{OutOfMemory as memory};

    ghost from_gives = { λ _ error. error ≡ memory };

    fn from(_: OutOfMemory) -> ModelError {
        ModelError::OutOfMemory
    }
}

impl From<OutOfMemory> for WriteModelError {
    ghost use Rattle.std.specs.Prelude.{◌≡◌};
    ghost use Rattle.model_file.specs.declared.error.WriteModelError.TheVariants.{OutOfMemory as memory};

    ghost from_gives = { λ _ error. error ≡ memory };

    fn from(_: OutOfMemory) -> WriteModelError {
        WriteModelError::OutOfMemory
    }
}
