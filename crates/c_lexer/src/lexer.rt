ghost use Rattle.std.specs.Prelude.{◌≡◌, ◌<◌, ◌^◌, IfOk, IfErr, length, take, drop};
ghost use Rattle.c_lexer.specs.LexerParts.{Takes, IsStuckAt, HasStopped};
ghost use Rattle.c_lexer.specs.TokenSpelling.{longest_text as longest_length, SpellsFrom, SpellsTokens};
ghost use Rattle.c_lexer.specs.Reading.{IsClear, HasNoWhite};
ghost use Rattle.c_lexer.specs.Refusals.{IsRefused, HasNoTokens};

use crate::misfit::Misfit;
use crate::reading::read_token;
use crate::white::white_length;
use crate::{LexError, Token};
use dm_base::Mode;
use std::alloc::Global;

/// The tokens of a text of the C profile (C99 6.4): the text is white space and the spellings of the
/// tokens in order, and each token is the longest that can begin at its place. Places are offsets of
/// bytes, counted from 0. A text in the mode Plain has at most 1,048,576 bytes, in the mode
/// Instrumented at most 16,777,216.
///
/// An error other than want of memory has a code and a place, as `LexError::At` says. The place is the
/// first one, from the front, at which no token goes on, or for code 7 the limit; where two causes
/// hold there the one with the lower number is named.
pub fn tokens(alloc: Global, text: &[u8], mode: Mode) -> Result<Vec<Token>, LexError>
    ensures spelled { IfOk result (λ tokens. SpellsTokens text.now mode tokens.items) }
    ensures refused { IfErr result (IsRefused text.now mode) }
    ensures none { IfErr result (HasNoTokens text.now mode) }
{
    let longest = longest_text(mode);
    if text.len() > longest as usize {
        return Err(LexError::At(7, longest));
    }
    read_tokens(alloc, text)
}

// The greatest length of a text in bytes.
fn longest_text(mode: Mode) -> u32
    ensures { result ≡ longest_length mode }
{
    match mode {
        Mode::Plain => 1_048_576,
        Mode::Instrumented => 16_777_216,
    }
}

// The tokens of a text that is not too long.
fn read_tokens(alloc: Global, text: &[u8]) -> Result<Vec<Token>, LexError>
    requires { length text.now < 2 ^ 32 }
    ensures spelled { IfOk result (λ tokens. SpellsFrom text.now 0 (length text.now) tokens.items) }
    ensures stopped { IfErr result (HasStopped text.now) }
{
    let mut tokens = Vec::new(alloc);
    let mut at = 0;
    while at < text.len() {
        at = take_piece(alloc, text, at, &mut tokens)?;
    }
    Ok(tokens)
}

// Takes white space or a token at the place. Returns the place after it.
fn take_piece(
    alloc: Global,
    text: &[u8],
    at: usize,
    tokens: &mut Vec<Token>,
) -> Result<usize, LexError>
    requires short { length text.now < 2 ^ 32 }
    requires within { at < length text.now }
    ensures taken { IfOk result (λ next. Takes text.now at tokens.old.items tokens.new.items next) }
    ensures stuck { IfErr result (IsStuckAt text.now at) }
{
    match white_length(text, at) {
        Ok(Some(length)) => Ok(at + length),
        Ok(None) => take_token(alloc, text, at, tokens),
        Err(cause) => Err(LexError::At(cause.code(), at as u32)),
    }
}

// Takes the token at the place. Returns the place after it.
fn take_token(
    alloc: Global,
    text: &[u8],
    at: usize,
    tokens: &mut Vec<Token>,
) -> Result<usize, LexError>
    requires short { length text.now < 2 ^ 32 }
    requires within { at < length text.now }
    requires no_white { HasNoWhite (take at text.now) (drop at text.now) }
    requires clear { IsClear (drop at text.now) }
    ensures taken { IfOk result (λ next. Takes text.now at tokens.old.items tokens.new.items next) }
    ensures stuck { IfErr result (IsStuckAt text.now at) }
{
    let found = match read_token(alloc, &text[at..]) {
        Ok(found) => found,
        Err(Misfit::By(cause)) => return Err(LexError::At(cause.code(), at as u32)),
        Err(Misfit::OutOfMemory) => return Err(LexError::OutOfMemory),
    };
    let next = at + found.length;
    let token = Token {
        kind: found.kind,
        from: at as u32,
        to: next as u32,
    };
    match tokens.push(token) {
        Ok(()) => Ok(next),
        Err(_) => Err(LexError::OutOfMemory),
    }
}
