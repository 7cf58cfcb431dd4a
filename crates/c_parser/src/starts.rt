// What stands first, where statements and items are read.

ghost use Rattle.std.specs.Prelude.{◌≡◌, ◌<◌, ◌↔◌, ◌⊎◌, ℕ, IsTrue, IfSome, drop, length};
ghost use Rattle.c_lexer.specs.declared.punctuator.TheConstants.{LEFT_BRACE as opening};
ghost use Rattle.c_syntax_printing.specs.Heads.{head, head_of_kind, head_of_word, head_of_code};
ghost use Rattle.c_syntax_printing.specs.Phrases.{AStmt, within};
ghost use Rattle.c_parser_phrases.specs.Standing.{IsAt};
ghost use Rattle.c_parser_phrases.specs.Refusing.{Refuses};
ghost use Rattle.c_parser.specs.Refusing.{KeepsOrNests};
ghost use Rattle.c_parser_phrases.specs.declared.room.Room.{Room};
ghost use Rattle.c_syntax_printing.specs.Opens.{DeepStmt};
ghost use Rattle.c_parser.specs.Nesting.{RefusesPast, OpensAs};
ghost use Rattle.c_parser.specs.Starting.{StartsCompound, StartsItem, BeginsTagged, BeginsEnum};

use c_lexer::TokenKind;
use c_lexer::keyword::{DO, ENUM, FOR, IF, STRUCT, SWITCH, WHILE};
use c_lexer::punctuator::{LEFT_BRACE, SEMICOLON};
use c_parser_phrases::{Cursor, PhraseError};

/// What an item of a unit is, as its first tokens tell.
#[derive(Clone, Copy)]
pub enum ItemStart {
    /// `struct`, a name and `{`
    Struct,
    /// `struct`, a name and `;`
    Tag,
    /// `enum`, perhaps a name, and `{`
    Enum,
    /// Anything else.
    Other,
}

/// The form of a statement that holds others or a condition, as its first token tells.
#[derive(Clone, Copy)]
pub enum Compound {
    If,
    While,
    Do,
    For,
    Switch,
}

/// The form of the statement that stands first, where it holds others or a condition.
pub fn compound_start(cursor: &Cursor<'_>) -> Option<Compound>
    ensures starts { StartsCompound result cursor.now.rest.now }
    ensures some { IfSome result (λ _. 0 < length cursor.now.rest.now) }
{
    if cursor.is_at_keyword(IF) {
        return Some(Compound::If);
    }
    if cursor.is_at_keyword(WHILE) {
        return Some(Compound::While);
    }
    if cursor.is_at_keyword(DO) {
        return Some(Compound::Do);
    }
    if cursor.is_at_keyword(FOR) {
        return Some(Compound::For);
    }
    if cursor.is_at_keyword(SWITCH) {
        return Some(Compound::Switch);
    }
    None
}

// The number of what each punctuator begins: 20 for an expression, 21 for a block, 22 for a statement of `;` alone, and less
// for what begins no statement.
const PUNCTUATOR_HEADS: [u8; 45] = [
    15, 16, 20, 10, 21, 5, 16, 16, 20, 20, 20, 20, 20, 20, 20, 20, 16, 16, 16, 16, 16, 16, 16, 16,
    16, 16, 16, 16, 16, 16, 16, 8, 22, 9, 16, 16, 16, 16, 16, 16, 16, 16, 16, 16, 7,
];

// The number of what each keyword begins: 20 for an expression, from 23 on for the other statements, and less for what
// begins no statement.
const KEYWORD_HEADS: [u8; 22] = [
    28, 11, 2, 2, 29, 12, 25, 13, 2, 3, 26, 23, 2, 30, 2, 20, 3, 2, 27, 2, 2, 24,
];

const OTHER: u8 = 16;

fn code_head(code: u8) -> u8
    ensures { result ≡ head_of_code code }
{
    if code < 45 {
        PUNCTUATOR_HEADS[code as usize]
    } else {
        OTHER
    }
}

fn word_head(word: u8) -> u8
    ensures { result ≡ head_of_word word }
{
    if word < 22 {
        KEYWORD_HEADS[word as usize]
    } else {
        OTHER
    }
}

#[tactic(auto, unfolding(c_syntax_printing::specs::Heads::head_of_kind))]
fn kind_head(kind: &TokenKind) -> u8
    ensures { result ≡ head_of_kind kind.now }
{
    match kind {
        TokenKind::Punct(code) => code_head(*code),
        TokenKind::Keyword(word) => word_head(*word),
        TokenKind::Name(_) => 20,
        TokenKind::Int { .. } => 20,
        TokenKind::Char(_) => 20,
        TokenKind::Str(_) => 20,
    }
}

// The number of what the token that stands first begins, or 0 where none is left.
fn first_head(cursor: &Cursor<'_>) -> u8
    ensures { result ≡ head cursor.now.rest.now }
{
    match cursor.rest.split_first() {
        Some((token, _)) => kind_head(&token.kind),
        None => 0,
    }
}

/// The error of a statement for which there is no room.
pub fn no_room(cursor: &Cursor<'_>) -> PhraseError
    ensures refuses { (p : ℕ) → Refuses AStmt (within p 0) result cursor.now.rest.now cursor.now.rest.now }
    ensures nests { (room : Room) → room.nodes ≡ 0 → RefusesPast AStmt (OpensAs DeepStmt) room result cursor.now.rest.now }
{
    if first_head(cursor) < 20 {
        return PhraseError::Syntax;
    }
    PhraseError::Nesting(cursor.place())
}

/// The error after a token with which a node too deep is sure to come, where there is no room for one.
pub fn sure_to_be_deep(cursor: &Cursor<'_>, error: PhraseError) -> PhraseError
    ensures { KeepsOrNests error result }
{
    if cursor.rest.is_empty() {
        return error;
    }
    match error {
        PhraseError::Syntax => PhraseError::Nesting(cursor.place()),
        other => other,
    }
}

/// What the item that stands first is.
pub fn item_start(cursor: &Cursor<'_>) -> ItemStart
    ensures { StartsItem result cursor.now.rest.now }
{
    if begins_tagged(cursor, LEFT_BRACE) {
        return ItemStart::Struct;
    }
    if begins_tagged(cursor, SEMICOLON) {
        return ItemStart::Tag;
    }
    if begins_enum(cursor) {
        return ItemStart::Enum;
    }
    ItemStart::Other
}

// Whether `struct` stands first, and the punctuator after one token more.
fn begins_tagged(cursor: &Cursor<'_>, code: u8) -> bool
    ensures { IsTrue result ↔ BeginsTagged code cursor.now.rest.now }
{
    cursor.is_at_keyword(STRUCT) && is_after_two(cursor, code)
}

// Whether `enum` stands first, and a brace after it or after one token more.
fn begins_enum(cursor: &Cursor<'_>) -> bool
    ensures { IsTrue result ↔ BeginsEnum cursor.now.rest.now }
{
    cursor.is_at_keyword(ENUM) && has_brace(cursor)
}

fn has_brace(cursor: &Cursor<'_>) -> bool
    ensures { IsTrue result ↔ (IsAt opening (drop 1 cursor.now.rest.now) ⊎ IsAt opening (drop 2 cursor.now.rest.now)) }
{
    is_after_one(cursor, LEFT_BRACE) || is_after_two(cursor, LEFT_BRACE)
}

// Whether the punctuator stands after one token.
fn is_after_one(cursor: &Cursor<'_>, code: u8) -> bool
    ensures { IsTrue result ↔ IsAt code (drop 1 cursor.now.rest.now) }
{
    match cursor.rest.split_first() {
        Some((_, rest)) => Cursor { rest }.is_at(code),
        None => false,
    }
}

// Whether the punctuator stands after two tokens.
fn is_after_two(cursor: &Cursor<'_>, code: u8) -> bool
    ensures { IsTrue result ↔ IsAt code (drop 2 cursor.now.rest.now) }
{
    match cursor.rest.split_first() {
        Some((_, rest)) => is_after_one(&Cursor { rest }, code),
        None => false,
    }
}
