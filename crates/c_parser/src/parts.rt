ghost use Rattle.std.specs.Prelude.{◌<◌, IfOk, OnOk, length};
ghost use Rattle.c_syntax.specs.View.{expr_behind, expr_of};
ghost use Rattle.c_parser.specs.Parsed.{HasCondition, HasMaybe};
ghost use Rattle.c_parser_phrases.specs.Refusing.{bound_of, Stops};
ghost use Rattle.c_parser.specs.Refusing.{ACondition, ABefore};
ghost use Rattle.c_syntax.specs.Grammar.{expression_level};
ghost use Rattle.c_parser.specs.Nesting.{Passes, OpensInside, OpensExpr};

use c_lexer::punctuator::{LEFT_PARENTHESIS, RIGHT_PARENTHESIS};
use c_parser_phrases::{Cursor, PhraseError, Room};
use c_syntax::Expr;
use std::alloc::Global;

/// Reads an expression in the parentheses of a statement's head.
pub fn condition(
    cursor: &mut Cursor<'_>,
    alloc: Global,
    room: Room,
) -> Result<Box<Expr>, PhraseError>
    ensures reads { IfOk result (λ e. HasCondition room (expr_of e.value) cursor.old.rest.now cursor.new.rest.now) }
    ensures shorter { OnOk result (length cursor.new.rest.now < length cursor.old.rest.now) }
    ensures stops { Stops ACondition (bound_of room) result cursor.old.rest.now cursor.new.rest.now }
    ensures nests { Passes ACondition OpensInside room result cursor.old.rest.now }
{
    if !cursor.take(LEFT_PARENTHESIS) {
        return Err(PhraseError::Syntax);
    }
    let test = cursor.expression(alloc, room)?;
    if !cursor.take(RIGHT_PARENTHESIS) {
        return Err(PhraseError::Syntax);
    }
    let boxed = Box::new(alloc, test)?;
    Ok(boxed)
}

/// Reads an expression, if one stands before the punctuator, and the punctuator.
pub fn expression_before(
    cursor: &mut Cursor<'_>,
    alloc: Global,
    room: Room,
    end: u8,
) -> Result<Option<Box<Expr>>, PhraseError>
    ensures reads { IfOk result (λ e. HasMaybe room end (expr_behind e) cursor.old.rest.now cursor.new.rest.now) }
    ensures shorter { OnOk result (length cursor.new.rest.now < length cursor.old.rest.now) }
    ensures stops { Stops (ABefore end) (bound_of room) result cursor.old.rest.now cursor.new.rest.now }
    ensures nests { Passes (ABefore end) (OpensExpr expression_level) room result cursor.old.rest.now }
{
    if cursor.take(end) {
        return Ok(None);
    }
    let inside = cursor.expression(alloc, room)?;
    if !cursor.take(end) {
        return Err(PhraseError::Syntax);
    }
    let boxed = Box::new(alloc, inside)?;
    Ok(Some(boxed))
}
