ghost use Rattle.dm_base.specs.Name.{IsLetter};
ghost use Rattle.c_lexer.specs.Words.{IsWord};
ghost use Rattle.c_lexer.specs.Reading.{ReadsToken};
ghost use Rattle.c_lexer.specs.Parts.{BeginsWith, ReadsWord};

use crate::error::Cause;
use crate::misfit::{Lexeme, Misfit};
use crate::run::{ByteClass, run_length};
use crate::token::TokenKind;
use crate::words::{is_excluded_keyword, keyword_number};
use dm_base::Bytes;
use std::alloc::Global;

// The greatest number of bytes of a name.
const LONGEST: usize = 63;

// Reads the name or the keyword that stands first in the text. What is taken is the whole run of
// letters, digits and `_`.
pub fn read_word(alloc: Global, text: &[u8]) -> Result<Lexeme, Misfit>
    requires { BeginsWith IsLetter text.now }
    ensures { ReadsToken text.now result }
{
    let length = run_length(text, ByteClass::Word);
    let kind = word_kind(alloc, &text[..length])?;
    Ok(Lexeme { kind, length })
}

// What the word spells.
fn word_kind(alloc: Global, word: &[u8]) -> Result<TokenKind, Misfit>
    requires { IsWord word.now }
    ensures { ReadsWord word.now result }
{
    if word.len() > LONGEST {
        return Err(Misfit::By(Cause::Malformed));
    }
    if let Some(number) = keyword_number(word) {
        return Ok(TokenKind::Keyword(number));
    }
    if is_excluded_keyword(word) {
        return Err(Misfit::By(Cause::ExcludedKeyword));
    }
    Ok(TokenKind::Name(Bytes::of(alloc, word)?))
}
