ghost use Rattle.std.specs.Prelude.{◌≡◌, IfOk, IfErr};
ghost use Rattle.dm_base.specs.declared.mode.Mode.{Mode};
ghost use Rattle.c_syntax.specs.Tree.{Items};
ghost use Rattle.c_syntax.specs.UnitView.{items_of};
ghost use Rattle.c_syntax.specs.Spelling.{SpellsUnit};
ghost use Rattle.c_syntax.specs.Limits.{deepest};
ghost use Rattle.c_parser.specs.Refused.{end_of, IsRefused, Answers};
ghost use Rattle.c_parser.specs.Refusing.{place_left};

use crate::error::ParseError;
use crate::items::items;
use c_lexer::Token;
use c_parser_phrases::{Cursor, PhraseError, Room};
use c_syntax::{Item, Unit};
use dm_base::Mode;
use std::alloc::Global;

// How many pairs of parentheses that make no node may stand round a token.
const PAIRS: u32 = 500;

/// The unit that the tokens spell within the limits of the mode (C99 6.9). There is at most one, and where there is one it
/// is answered, unless memory is refused.
///
/// # Errors
///
/// `OutOfMemory` where memory was refused. `Syntax` names the first byte of the token with which no unit goes on, or
/// the end of the last token where the tokens end too early, or 0 where there is none. `Nesting` names the first byte
/// of a node that is too deep, or of a pair of parentheses in too many others.
pub fn parse(alloc: Global, tokens: &[Token], mode: Mode) -> Result<Unit, ParseError>
    ensures spelled { IfOk result (λ u. SpellsUnit (items_of u.items.items) tokens.now mode) }
    ensures refused { IfErr result (λ e. IsRefused tokens.now mode e) }
    ensures complete { (unit : Items) → SpellsUnit unit tokens.now mode → Answers unit result }
{
    let items = whole(alloc, tokens, mode)?;
    Ok(Unit { items })
}

fn whole(alloc: Global, tokens: &[Token], mode: Mode) -> Result<Vec<Item>, ParseError>
    ensures spelled { IfOk result (λ xs. SpellsUnit (items_of xs.items) tokens.now mode) }
    ensures refused { IfErr result (λ e. IsRefused tokens.now mode e) }
{
    let mut cursor = Cursor { rest: tokens };
    let room = Room {
        nodes: most_nodes(mode),
        pairs: PAIRS,
    };
    match items(&mut cursor, alloc, room) {
        Ok(items) => Ok(items),
        Err(PhraseError::OutOfMemory) => Err(ParseError::OutOfMemory),
        Err(PhraseError::Syntax) => Err(ParseError::Syntax(place_of_first(tokens, cursor.rest))),
        Err(PhraseError::Nesting(at)) => Err(ParseError::Nesting(at)),
    }
}

fn most_nodes(mode: Mode) -> u32
    ensures { result ≡ deepest mode }
{
    match mode {
        Mode::Plain => 200,
        Mode::Instrumented => 500,
    }
}

// The place of the first token that is left, or the end of the last one of all.
fn place_of_first(tokens: &[Token], rest: &[Token]) -> u32
    ensures { result ≡ place_left tokens.now rest.now }
{
    match rest.split_first() {
        Some((token, _)) => token.from,
        None => end_of_all(tokens),
    }
}

fn end_of_all(tokens: &[Token]) -> u32
    ensures { result ≡ end_of 0 tokens.now }
{
    let mut end = 0;
    for token in tokens {
        end = token.to;
    }
    end
}
