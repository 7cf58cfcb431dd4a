// Initialisers (C99 6.7.8).

ghost use Rattle.std.specs.Prelude.{◌≡◌, ◌<◌, ◌≤◌, OnOk, IfOk, length};
ghost use Rattle.c_syntax.specs.Tree.{list, one};
ghost use Rattle.c_syntax.specs.Statements.{place_of};
ghost use Rattle.c_syntax.specs.View.{expr_of};
ghost use Rattle.c_syntax.specs.UnitView.{init_of};
ghost use Rattle.c_syntax.specs.WritesUnit.{inits_of};
ghost use Rattle.c_parser_phrases.specs.Phrases.{ParsesInit};
ghost use Rattle.c_syntax_printing.specs.Phrases.{AnInit};
ghost use Rattle.c_parser_phrases.specs.Refusing.{bound_of, Stops, Nests};
ghost use Rattle.c_syntax_printing.specs.Opens.{DeepInit};
ghost use Rattle.c_parser_phrases.specs.Lists.{ListsInits, GoesOn};

use crate::cursor::Cursor;
use crate::error::PhraseError;
use crate::room::Room;
use c_lexer::punctuator::{COMMA, LEFT_BRACE, RIGHT_BRACE};
use c_syntax::{Expr, Init, InitKind};
use std::alloc::Global;

impl<'a> Cursor<'a> {
    /// Reads an initialiser (C99 6.7.8). The errors are as in `expression`.
    #[cycle(initialisers)]
    pub fn initialiser(&mut self, alloc: Global, room: Room) -> Result<Init, PhraseError>
        ensures parses { ParsesInit room result self.old.rest.now self.new.rest.now }
        ensures stops { Stops AnInit (bound_of room) result self.old.rest.now self.new.rest.now }
        ensures nests { Nests AnInit DeepInit room result self.old.rest.now }
        ensures shorter { OnOk result (length self.new.rest.now < length self.old.rest.now) }
    {
        let at = self.place();
        if !self.is_at(LEFT_BRACE) {
            let e = self.assignment_value(alloc, room)?;
            return Ok(one_init(e));
        }
        if room.nodes == 0 {
            return Err(PhraseError::Nesting(at));
        }
        self.skip();
        let list = self.initialisers(alloc, room.in_node())?;
        if self.goes_on_as_assignment() {
            return Err(PhraseError::Syntax);
        }
        Ok(list_init(at, list))
    }

    // Reads one or more initialisers with commas between, perhaps a comma, and the brace after them.
    #[cycle(initialisers)]
    fn initialisers(&mut self, alloc: Global, room: Room) -> Result<Vec<Init>, PhraseError>
        ensures parses { ListsInits room result self.old.rest.now self.new.rest.now }
        ensures shorter { OnOk result (length self.new.rest.now < length self.old.rest.now) }
    {
        let first = self.initialiser(alloc, room)?;
        let mut list = Vec::new(alloc);
        list.push(first)?;
        while self.goes_on()? {
            let next = self.initialiser(alloc, room)?;
            list.push(next)?;
        }
        Ok(list)
    }

    // Takes a comma with an initialiser after it, and says so; else takes the end of the list.
    fn goes_on(&mut self) -> Result<bool, PhraseError>
        ensures parses { GoesOn result self.old.rest.now self.new.rest.now }
        ensures shorter { OnOk result (length self.new.rest.now < length self.old.rest.now) }
    {
        let comma = self.take(COMMA);
        if self.take(RIGHT_BRACE) {
            return Ok(false);
        }
        if !comma {
            return Err(PhraseError::Syntax);
        }
        Ok(true)
    }
}

fn one_init(e: Expr) -> Init
    ensures { init_of result ≡ one (place_of (expr_of e)) (expr_of e) }
{
    Init {
        at: e.at,
        kind: InitKind::One(e),
    }
}

fn list_init(at: u32, inits: Vec<Init>) -> Init
    ensures { init_of result ≡ list at (inits_of inits.items) }
{
    Init {
        at,
        kind: InitKind::List(inits),
    }
}
