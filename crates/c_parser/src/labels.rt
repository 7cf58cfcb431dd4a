ghost use Rattle.std.specs.Prelude.{◌<◌, ◌↔◌, IfOk, OnOk, IsTrue, List, length, ℕ};
ghost use Rattle.c_parser.specs.Parsed.{HasLabel, AreLabels};
ghost use Rattle.c_lexer.specs.declared.token.Token.{Token};
ghost use Rattle.c_syntax_printing.specs.Fails.{Fails};
ghost use Rattle.c_syntax_printing.specs.Phrases.{Bound, SomeLabels};
ghost use Rattle.c_syntax_printing.specs.Labels.{LabelsRest};
ghost use Rattle.c_parser.specs.Starting.{IsAtLabel};
ghost use Rattle.c_parser_phrases.specs.Refusing.{bound_of, Stops};
ghost use Rattle.c_syntax_printing.specs.Opens.{Opens};
ghost use Rattle.c_syntax_printing.specs.Deep.{DeepLabels};
ghost use Rattle.c_parser.specs.Nesting.{Passes, OpensAs};

use c_lexer::keyword::{CASE, DEFAULT};
use c_lexer::punctuator::COLON;
use c_parser_phrases::{Cursor, PhraseError, Room};
use c_syntax::{Label, LabelKind};
use std::alloc::Global;

/// Reads one or more labels of a switch (C99 6.8.1).
pub fn labels(cursor: &mut Cursor<'_>, alloc: Global, room: Room) -> Result<Vec<Label>, PhraseError>
    ensures reads { IfOk result (λ xs. AreLabels room xs.items cursor.old.rest.now cursor.new.rest.now) }
    ensures shorter { OnOk result (length cursor.new.rest.now < length cursor.old.rest.now) }
    ensures stops { Stops SomeLabels (bound_of room) result cursor.old.rest.now cursor.new.rest.now }
    ensures nests { Passes SomeLabels (OpensAs DeepLabels) room result cursor.old.rest.now }
    ensures leads { OnOk result ((x : Bound) (r : List Token) → Fails (LabelsRest x) cursor.new.rest.now r → Fails (SomeLabels x) cursor.old.rest.now r) }
    ensures ended { OnOk result (IsAtLabel cursor.new.rest.now → ⊥) }
{
    let mut labels = Vec::new(alloc);
    let first = label(cursor, alloc, room)?;
    labels.push(first)?;
    'next: while is_at_label(cursor) {
        let next = label(cursor, alloc, room)?;
        labels.push(next)?;
    }
    Ok(labels)
}

/// Whether a label of a switch stands first.
pub fn is_at_label(cursor: &Cursor<'_>) -> bool
    ensures { IsTrue result ↔ IsAtLabel cursor.now.rest.now }
{
    cursor.is_at_keyword(CASE) || cursor.is_at_keyword(DEFAULT)
}

fn label(cursor: &mut Cursor<'_>, alloc: Global, room: Room) -> Result<Label, PhraseError>
    ensures reads { IfOk result (λ x. HasLabel room x cursor.old.rest.now cursor.new.rest.now) }
    ensures shorter { OnOk result (length cursor.new.rest.now < length cursor.old.rest.now) }
    ensures stops { Stops SomeLabels (bound_of room) result cursor.old.rest.now cursor.new.rest.now }
    ensures nests { Passes SomeLabels (OpensAs DeepLabels) room result cursor.old.rest.now }
    ensures opens { OnOk result ((at n : ℕ) (q : List Token) → Opens (DeepLabels at room.pairs n) cursor.new.rest.now q → Opens (DeepLabels at room.pairs n) cursor.old.rest.now q) }
    ensures leads { OnOk result ((x : Bound) (r : List Token) → Fails (LabelsRest x) cursor.new.rest.now r → Fails (SomeLabels x) cursor.old.rest.now r) }
{
    let at = cursor.place();
    if cursor.take_keyword(DEFAULT) {
        if !cursor.take(COLON) {
            return Err(PhraseError::Syntax);
        }
        return Ok(Label {
            at,
            kind: LabelKind::Default,
        });
    }
    if !cursor.take_keyword(CASE) {
        return Err(PhraseError::Syntax);
    }
    let value = cursor.conditional(alloc, room)?;
    if !cursor.take(COLON) {
        return Err(PhraseError::Syntax);
    }
    Ok(Label {
        at,
        kind: LabelKind::Case(value),
    })
}
