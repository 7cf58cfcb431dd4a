ghost use Rattle.std.specs.Prelude.{◌≡◌, ◌↔◌, ◌<◌, ◌-◌, IsTrue, OnOk, drop, length};
ghost use Rattle.c_syntax.specs.Tokens.{Is, IsKeyword, place};
ghost use Rattle.c_parser_phrases.specs.Phrases.{ParsesName};
ghost use Rattle.c_syntax_printing.specs.Fails.{One};
ghost use Rattle.c_syntax_printing.specs.Operands.{IsSomeName};
ghost use Rattle.c_parser_phrases.specs.Refusing.{StopsFlat};
ghost use Rattle.c_parser_phrases.specs.Standing.{IsAt, IsAtKeyword, Took, TookKeyword};

use crate::error::PhraseError;
use c_lexer::{Token, TokenKind};
use c_syntax::Ident;
use dm_base::Bytes;
use std::alloc::Global;

/// The tokens that are left to read.
#[derive(Drop)]
pub struct Cursor<'a> {
    /// They stand there, in order.
    pub rest: &'a [Token],
}

impl<'a> Cursor<'a> {
    /// The place of the token that stands first, or 0 where none is left.
    pub fn place(&self) -> u32
        ensures { result ≡ place self.now.rest.now }
    {
        match self.rest.split_first() {
            Some((token, _)) => token.from,
            None => 0,
        }
    }

    /// Whether the punctuator stands first.
    pub fn is_at(&self, code: u8) -> bool
        ensures stands { IsTrue result ↔ IsAt code self.now.rest.now }
        ensures some { IsTrue result → 0 < length self.now.rest.now }
    {
        match self.rest.split_first() {
            Some((token, _)) => is_punctuator(token, code),
            None => false,
        }
    }

    /// Whether the keyword stands first.
    pub fn is_at_keyword(&self, code: u8) -> bool
        ensures stands { IsTrue result ↔ IsAtKeyword code self.now.rest.now }
        ensures some { IsTrue result → 0 < length self.now.rest.now }
    {
        match self.rest.split_first() {
            Some((token, _)) => is_keyword(token, code),
            None => false,
        }
    }

    /// Takes the punctuator if it stands first, and says whether it did.
    pub fn take(&mut self, code: u8) -> bool
        ensures { Took code result self.old.rest.now self.new.rest.now }
    {
        let rest = self.rest;
        if let Some((token, more)) = rest.split_first() {
            if is_punctuator(token, code) {
                self.rest = more;
                return true;
            }
        }
        false
    }

    /// Takes the keyword if it stands first, and says whether it did.
    pub fn take_keyword(&mut self, code: u8) -> bool
        ensures { TookKeyword code result self.old.rest.now self.new.rest.now }
    {
        let rest = self.rest;
        if let Some((token, more)) = rest.split_first() {
            if is_keyword(token, code) {
                self.rest = more;
                return true;
            }
        }
        false
    }

    /// Takes the token that stands first, if one does.
    pub fn skip(&mut self)
        ensures skips { self.new.rest.now ≡ drop 1 self.old.rest.now }
        ensures shorter { length self.new.rest.now ≡ length self.old.rest.now - 1 }
    {
        let rest = self.rest;
        if let Some((_, more)) = rest.split_first() {
            self.rest = more;
        }
    }

    /// Takes the name that stands first. `Syntax` says that none does, and `OutOfMemory` that its bytes were not copied.
    pub fn name(&mut self, alloc: Global) -> Result<Ident, PhraseError>
        ensures parses { ParsesName result self.old.rest.now self.new.rest.now }
        ensures stops { StopsFlat (One IsSomeName) result self.old.rest.now self.new.rest.now }
        ensures shorter { OnOk result (length self.new.rest.now < length self.old.rest.now) }
    {
        let rest = self.rest;
        let Some((token, more)) = rest.split_first() else {
            return Err(PhraseError::Syntax);
        };
        let TokenKind::Name(name) = &token.kind else {
            return Err(PhraseError::Syntax);
        };
        let name = Bytes::of(alloc, name.as_slice())?;
        self.rest = more;
        Ok(Ident {
            name,
            at: token.from,
        })
    }
}

fn is_punctuator(token: &Token, code: u8) -> bool
    ensures { IsTrue result ↔ Is code token.now }
{
    match token.kind {
        TokenKind::Punct(other) => other == code,
        TokenKind::Name(_) => false,
        TokenKind::Keyword(_) => false,
        TokenKind::Int { .. } => false,
        TokenKind::Char(_) => false,
        TokenKind::Str(_) => false,
    }
}

fn is_keyword(token: &Token, code: u8) -> bool
    ensures { IsTrue result ↔ IsKeyword code token.now }
{
    match token.kind {
        TokenKind::Keyword(other) => other == code,
        TokenKind::Name(_) => false,
        TokenKind::Punct(_) => false,
        TokenKind::Int { .. } => false,
        TokenKind::Char(_) => false,
        TokenKind::Str(_) => false,
    }
}
