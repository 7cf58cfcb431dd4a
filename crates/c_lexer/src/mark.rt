ghost use Rattle.c_lexer.specs.Reading.{IsClear, ReadsTokenOrCause};
ghost use Rattle.c_lexer.specs.Parts.{BeginsWith, IsOther};

use crate::error::Cause;
use crate::misfit::Lexeme;
use crate::token::TokenKind;
use crate::words::{longest_punctuator, punctuator_text};

// Reads the punctuator that stands first in the text, where neither a letter, a digit nor a quote
// does.
pub fn read_mark(text: &[u8]) -> Result<Lexeme, Cause>
    requires clear { IsClear text.now }
    requires begins { BeginsWith IsOther text.now }
    ensures { ReadsTokenOrCause text.now result }
{
    let Some(number) = longest_punctuator(text) else {
        return Err(Cause::ForeignByte);
    };
    Ok(Lexeme {
        kind: TokenKind::Punct(number),
        length: punctuator_text(number).len(),
    })
}
