ghost use Rattle.std.specs.Prelude.{◌<◌, ◌≤◌, OnOk, IfOk, length};
ghost use Rattle.c_syntax.specs.View.{spec_of};
ghost use Rattle.c_parser_phrases.specs.Phrases.{ParsesSpec};
ghost use Rattle.c_lexer.specs.declared.keyword.TheConstants.{CONST as CONST_WORD};
ghost use Rattle.c_syntax_printing.specs.Phrases.{ASpec};
ghost use Rattle.c_parser_phrases.specs.Standing.{IsAtKeyword};
ghost use Rattle.c_parser_phrases.specs.Refusing.{StopsFlat};
ghost use Rattle.c_parser_phrases.specs.Reading.{TookConsts, TookWords, LeadsSpec};

use crate::cursor::Cursor;
use crate::error::PhraseError;
use c_lexer::keyword::{CHAR, CONST, ENUM, INT, SIGNED, STRUCT, UNSIGNED, VOID};
use c_syntax::Spec;
use std::alloc::Global;

impl<'a> Cursor<'a> {
    /// Reads the words of the specifiers, with `const` before, between and after them (C99 6.7.2, 6.7.3). `Syntax` says that
    /// no specifiers go on through the token at which the cursor stands, and `OutOfMemory` that a name was not copied.
    pub fn specifiers(&mut self, alloc: Global) -> Result<Spec, PhraseError>
        ensures parses { ParsesSpec result self.old.rest.now self.new.rest.now }
        ensures stops { StopsFlat ASpec result self.old.rest.now self.new.rest.now }
        ensures shorter { OnOk result (length self.new.rest.now < length self.old.rest.now) }
    {
        self.consts();
        let spec = self.words(alloc)?;
        self.consts();
        if !self.ends_spec() {
            return Err(PhraseError::Syntax);
        }
        Ok(spec)
    }

    // Takes each `const` that stands first.
    pub fn consts(&mut self)
        ensures took { TookConsts self.old.rest.now self.new.rest.now }
        ensures ends { IsAtKeyword CONST_WORD self.new.rest.now → ⊥ }
        ensures shorter { length self.new.rest.now ≤ length self.old.rest.now }
    {
        while self.take_keyword(CONST) {}
    }

    // Reads the words of a type, without `const` before and after them.
    fn words(&mut self, alloc: Global) -> Result<Spec, PhraseError>
        requires { IsAtKeyword CONST_WORD self.old.rest.now → ⊥ }
        ensures took { IfOk result (λ s. TookWords (spec_of s) self.old.rest.now self.new.rest.now) }
        ensures leads { OnOk result (LeadsSpec self.old.rest.now self.new.rest.now) }
        ensures stops { StopsFlat ASpec result self.old.rest.now self.new.rest.now }
        ensures shorter { OnOk result (length self.new.rest.now < length self.old.rest.now) }
    {
        if self.take_keyword(VOID) {
            return Ok(Spec::Void);
        }
        if self.take_keyword(CHAR) {
            return Ok(Spec::Char);
        }
        if self.take_keyword(INT) {
            return Ok(Spec::Int);
        }
        if self.take_keyword(SIGNED) {
            self.consts();
            let _is_written = self.take_keyword(INT);
            return Ok(Spec::Int);
        }
        if self.take_keyword(UNSIGNED) {
            self.consts();
            if self.take_keyword(CHAR) {
                return Ok(Spec::Uchar);
            }
            let _is_written = self.take_keyword(INT);
            return Ok(Spec::Uint);
        }
        if self.take_keyword(STRUCT) {
            return Ok(Spec::Struct(self.name(alloc)?));
        }
        if self.take_keyword(ENUM) {
            return Ok(Spec::Enum(self.name(alloc)?));
        }
        Err(PhraseError::Syntax)
    }
}
