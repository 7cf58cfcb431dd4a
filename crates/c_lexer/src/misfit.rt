use crate::error::Cause;
use crate::token::TokenKind;
use dm_base::OutOfMemory;

// A token that stands first in a text, and how many bytes it has.
#[derive(Drop)]
pub struct Lexeme {
    pub kind: TokenKind,
    pub length: usize,
}

// Why no token is read.
#[derive(Clone, Copy, Debug, PartialEq, Eq)]
pub enum Misfit {
    // Memory was refused.
    OutOfMemory,
    // None stands first, by the cause.
    By(Cause),
}

impl From<OutOfMemory> for Misfit {
    ghost use Rattle.std.specs.Prelude.{◌≡◌};
    ghost use Rattle.c_lexer.specs.declared.misfit.Misfit.TheVariants.{OutOfMemory as memory};

    ghost from_gives = { λ _ misfit. misfit ≡ memory };

    fn from(_: OutOfMemory) -> Misfit {
        Misfit::OutOfMemory
    }
}

impl From<Cause> for Misfit {
    ghost use Rattle.std.specs.Prelude.{◌≡◌};
    ghost use Rattle.c_lexer.specs.declared.misfit.Misfit.TheVariants.{By as by_cause};

    ghost from_gives = { λ cause misfit. misfit ≡ by_cause cause };

    fn from(cause: Cause) -> Misfit {
        Misfit::By(cause)
    }
}
