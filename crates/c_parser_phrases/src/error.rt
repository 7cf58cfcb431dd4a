ghost use Rattle.std.specs.Prelude.{◌≡◌};
ghost use Rattle.c_parser_phrases.specs.declared.error.PhraseError.TheVariants.{OutOfMemory as NoMemory};

use dm_base::OutOfMemory;
use std::alloc::{AllocError, AllocFailed};

/// Why a phrase isn't read.
#[derive(Clone, Copy, Debug, PartialEq, Eq)]
pub enum PhraseError {
    /// Memory was refused.
    OutOfMemory,
    /// No phrase, however deep, begins with the tokens through the one at which the cursor stands; where none is left there,
    /// none begins with the tokens themselves.
    Syntax,
    /// Within the limits no phrase begins with the tokens through some token, and past them some do: at the place they have a
    /// node that is one too deep, or a pair of parentheses inside too many others.
    Nesting(u32),
}

impl From<OutOfMemory> for PhraseError {
    ghost from_gives = { λ _ e. e ≡ NoMemory };

    fn from(_: OutOfMemory) -> Self {
        PhraseError::OutOfMemory
    }
}

impl From<AllocError> for PhraseError {
    ghost from_gives = { λ _ e. e ≡ NoMemory };

    fn from(_: AllocError) -> Self {
        PhraseError::OutOfMemory
    }
}

impl<T: Drop> From<AllocFailed<T>> for PhraseError {
    ghost from_gives = { λ _ e. e ≡ NoMemory };

    fn from(_: AllocFailed<T>) -> Self {
        PhraseError::OutOfMemory
    }
}
