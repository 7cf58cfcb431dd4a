// Names, constants and strings as operands (C99 6.5.1).

ghost use Rattle.std.specs.Prelude.{◌≡◌, ◌<◌, ◌≤◌, OnOk, IfOk, length};
ghost use Rattle.c_syntax_printing.specs.Ranks.{rank};
ghost use Rattle.c_parser_phrases.specs.Reading.{ParsesLeaf, RefusesLeaf};
ghost use Rattle.c_parser_phrases.specs.Deep.{IsDeep};
ghost use Rattle.c_parser_phrases.specs.Standing.{TookString, TookStrings};

use crate::cursor::Cursor;
use crate::depth::MeasuredExpr;
use crate::error::PhraseError;
use crate::nodes::leaf_node;
use c_lexer::TokenKind;
use c_syntax::ExprKind;
use dm_base::{Bytes, OutOfMemory};
use std::alloc::Global;

impl<'a> Cursor<'a> {
    // Reads the name, the constant or the strings that stand first.
    pub fn leaf(&mut self, alloc: Global) -> Result<MeasuredExpr, PhraseError>
        ensures parses { ParsesLeaf result self.old.rest.now self.new.rest.now }
        ensures shorter { OnOk result (length self.new.rest.now < length self.old.rest.now) }
        ensures fits { IfOk result (λ m. m.depth.height ≡ 1) }
        ensures ends { OnOk result (rank self.old.rest.now ≡ 0 → 1 ≤ rank self.new.rest.now) }
        ensures deep { IfOk result (λ m. IsDeep m) }
        ensures refuses { RefusesLeaf result self.old.rest.now }
    {
        let rest = self.rest;
        let Some((token, more)) = rest.split_first() else {
            return Err(PhraseError::Syntax);
        };
        match &token.kind {
            TokenKind::Name(name) => {
                let bytes = Bytes::of(alloc, name.as_slice())?;
                self.rest = more;
                leaf_node(alloc, token.from, ExprKind::Name(bytes))
            }
            TokenKind::Int { value, unsigned } => {
                self.rest = more;
                let kind = ExprKind::Int {
                    value: *value,
                    unsigned: *unsigned,
                };
                leaf_node(alloc, token.from, kind)
            }
            TokenKind::Char(value) => {
                self.rest = more;
                leaf_node(alloc, token.from, ExprKind::Char(*value))
            }
            TokenKind::Str(part) => {
                self.rest = more;
                let joined = self.strings(alloc, part.as_slice())?;
                leaf_node(alloc, token.from, ExprKind::Str(joined))
            }
            TokenKind::Punct(_) => Err(PhraseError::Syntax),
            TokenKind::Keyword(_) => Err(PhraseError::Syntax),
        }
    }

    // The bytes of a string that was taken, and of each string that stands first, which is taken too.
    fn strings(&mut self, alloc: Global, first: &[u8]) -> Result<Bytes, OutOfMemory>
        ensures took { IfOk result (λ joined. TookStrings first.now joined self.old.rest.now self.new.rest.now) }
        ensures ends { OnOk result (1 ≤ rank self.new.rest.now) }
        ensures shorter { OnOk result (length self.new.rest.now ≤ length self.old.rest.now) }
    {
        let mut bytes = first.to_vec(alloc)?;
        self.strings_from(&mut bytes)?;
        let joined = Bytes::of(alloc, bytes.as_slice())?;
        Ok(joined)
    }

    // Takes each string that stands first, and appends its bytes.
    fn strings_from(&mut self, bytes: &mut Vec<u8>) -> Result<(), OutOfMemory>
        ensures took { OnOk result (TookStrings bytes.old.items bytes.new.items self.old.rest.now self.new.rest.now) }
        ensures ends { OnOk result (1 ≤ rank self.new.rest.now) }
        ensures shorter { OnOk result (length self.new.rest.now ≤ length self.old.rest.now) }
    {
        while self.string(bytes)? {}
        Ok(())
    }

    // Takes the string that stands first, if one does, and appends its bytes.
    fn string(&mut self, bytes: &mut Vec<u8>) -> Result<bool, OutOfMemory>
        ensures { TookString result bytes.old.items bytes.new.items self.old.rest.now self.new.rest.now }
    {
        let rest = self.rest;
        let Some((token, more)) = rest.split_first() else {
            return Ok(false);
        };
        let TokenKind::Str(part) = &token.kind else {
            return Ok(false);
        };
        bytes.extend_from_slice(part.as_slice())?;
        self.rest = more;
        Ok(true)
    }
}
