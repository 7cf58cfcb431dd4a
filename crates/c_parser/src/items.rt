ghost use Rattle.std.specs.Prelude.{◌<◌, ◌∷◌, IfOk, OnOk, List, length, ◌≡◌, ℕ};
ghost use Rattle.c_lexer.specs.declared.token.Token.{Token};
ghost use Rattle.c_lexer.specs.declared.keyword.TheConstants.{ENUM as enum_word};
ghost use Rattle.c_lexer.specs.declared.punctuator.TheConstants.{COMMA as comma, LEFT_BRACE as opening, SEMICOLON as ending};
ghost use Rattle.c_syntax.specs.Tokens.{Is, IsKeyword};
ghost use Rattle.c_syntax.specs.UnitView.{item_at, maybe_of, tag_of};
ghost use Rattle.c_syntax.specs.Statements.{ReadsTag};
ghost use Rattle.c_syntax_printing.specs.Fails.{Fails};
ghost use Rattle.c_syntax_printing.specs.Phrases.{Bound, any, Punctuator};
ghost use Rattle.c_syntax_printing.specs.Units.{AUnit};
ghost use Rattle.c_syntax_printing.specs.Items.{AnItem, AnOther, InStruct, AMember, DeclaratorsClosed, InEnum, EnumEnd, ValueRest};
ghost use Rattle.c_parser_phrases.specs.declared.room.Room.{Room};
ghost use Rattle.c_parser_phrases.specs.Standing.{IsAt};
ghost use Rattle.c_parser_phrases.specs.Refusing.{bound_of, Stops};
ghost use Rattle.c_parser.specs.Starting.{BeginsTagged, BeginsEnum};
ghost use Rattle.c_parser.specs.Parsed.{HasItem, HasMembers, HasMember, HasDeclarators, HasEnumerators, HasEnumerator, HasEnumeratorValue, AreItems};
ghost use Rattle.c_syntax_printing.specs.Opens.{Opens, DeepUnit, DeepItem};
ghost use Rattle.c_syntax_printing.specs.Deep.{DeepMembers, DeepDeclarators, DeepEnumerators};
ghost use Rattle.c_parser.specs.Nesting.{Passes, OpensAs, OpensValue};

use crate::declarations::{parts, storage};
use crate::starts::{ItemStart, item_start};
use crate::statements::block;
use c_lexer::keyword::{ENUM, STRUCT};
use c_lexer::punctuator::{ASSIGN, COMMA, LEFT_BRACE, RIGHT_BRACE, SEMICOLON};
use c_parser_phrases::{Cursor, PhraseError, Room};
use c_syntax::{Decl, Declarator, Enumerator, Expr, Ident, Item, ItemKind, Member};
use std::alloc::Global;

/// Reads one or more items, through the last token (C99 6.9).
pub fn items(cursor: &mut Cursor<'_>, alloc: Global, room: Room) -> Result<Vec<Item>, PhraseError>
    requires { 0 < room.nodes }
    ensures reads { IfOk result (λ xs. AreItems room xs.items cursor.old.rest.now cursor.new.rest.now) }
    ensures whole { OnOk result (length cursor.new.rest.now < 1) }
    ensures stops { Stops AUnit (bound_of room) result cursor.old.rest.now cursor.new.rest.now }
    ensures nests { Passes AUnit (OpensAs DeepUnit) room result cursor.old.rest.now }
{
    let mut items = Vec::new(alloc);
    let first = item(cursor, alloc, room)?;
    items.push(first)?;
    'next: while !cursor.rest.is_empty() {
        let next = item(cursor, alloc, room)?;
        items.push(next)?;
    }
    Ok(items)
}

fn item(cursor: &mut Cursor<'_>, alloc: Global, room: Room) -> Result<Item, PhraseError>
    requires { 0 < room.nodes }
    ensures reads { IfOk result (λ x. HasItem room (item_at x.at x.kind) cursor.old.rest.now cursor.new.rest.now) }
    ensures shorter { OnOk result (length cursor.new.rest.now < length cursor.old.rest.now) }
    ensures stops { Stops AnItem (bound_of room) result cursor.old.rest.now cursor.new.rest.now }
    ensures nests { Passes AnItem (OpensAs DeepItem) room result cursor.old.rest.now }
{
    match item_start(cursor) {
        ItemStart::Struct => struct_item(cursor, alloc, room),
        ItemStart::Tag => tag_item(cursor, alloc),
        ItemStart::Enum => enum_item(cursor, alloc, room),
        ItemStart::Other => other_item(cursor, alloc, room),
    }
}

// Reads a struct with its members (C99 6.7.2.1).
fn struct_item(cursor: &mut Cursor<'_>, alloc: Global, room: Room) -> Result<Item, PhraseError>
    requires { BeginsTagged opening cursor.now.rest.now }
    ensures reads { IfOk result (λ x. HasItem room (item_at x.at x.kind) cursor.old.rest.now cursor.new.rest.now) }
    ensures shorter { OnOk result (length cursor.new.rest.now < length cursor.old.rest.now) }
    ensures stops { Stops AnItem (bound_of room) result cursor.old.rest.now cursor.new.rest.now }
    ensures nests { Passes AnItem (OpensAs DeepItem) room result cursor.old.rest.now }
{
    let at = cursor.place();
    if !cursor.take_keyword(STRUCT) {
        return Err(PhraseError::Syntax);
    }
    let tag = cursor.name(alloc)?;
    if !cursor.take(LEFT_BRACE) {
        return Err(PhraseError::Syntax);
    }
    let members = members(cursor, alloc, room)?;
    if !cursor.take(SEMICOLON) {
        return Err(PhraseError::Syntax);
    }
    Ok(Item {
        at,
        kind: ItemKind::Struct { tag, members },
    })
}

// Reads one or more members, through the brace at their end.
fn members(cursor: &mut Cursor<'_>, alloc: Global, room: Room) -> Result<Vec<Member>, PhraseError>
    ensures reads { IfOk result (λ xs. HasMembers room xs.items cursor.old.rest.now cursor.new.rest.now) }
    ensures shorter { OnOk result (length cursor.new.rest.now < length cursor.old.rest.now) }
    ensures stops { Stops InStruct (bound_of room) result cursor.old.rest.now cursor.new.rest.now }
    ensures nests { Passes InStruct (OpensAs DeepMembers) room result cursor.old.rest.now }
    ensures leads { OnOk result ((x : Bound) (r : List Token) → Fails (Punctuator ending) cursor.new.rest.now r → Fails (InStruct x) cursor.old.rest.now r) }
{
    let mut members = Vec::new(alloc);
    let first = member(cursor, alloc, room)?;
    members.push(first)?;
    'next: while !cursor.take(RIGHT_BRACE) {
        let next = member(cursor, alloc, room)?;
        members.push(next)?;
    }
    Ok(members)
}

fn member(cursor: &mut Cursor<'_>, alloc: Global, room: Room) -> Result<Member, PhraseError>
    ensures reads { IfOk result (λ x. HasMember room x cursor.old.rest.now cursor.new.rest.now) }
    ensures shorter { OnOk result (length cursor.new.rest.now < length cursor.old.rest.now) }
    ensures stops { Stops AMember (bound_of room) result cursor.old.rest.now cursor.new.rest.now }
    ensures nests { Passes AMember (OpensAs DeepMembers) room result cursor.old.rest.now }
    ensures opens { OnOk result ((at n : ℕ) (q : List Token) → Opens (DeepMembers at room.pairs n) cursor.new.rest.now q → Opens (DeepMembers at room.pairs n) cursor.old.rest.now q) }
    ensures stands { OnOk result (AMember any cursor.old.rest.now cursor.new.rest.now) }
{
    let at = cursor.place();
    let spec = cursor.specifiers(alloc)?;
    let declarators = declarators(cursor, alloc, room)?;
    Ok(Member {
        spec,
        declarators,
        at,
    })
}

// Reads one or more declarators, through the semicolon at their end.
fn declarators(
    cursor: &mut Cursor<'_>,
    alloc: Global,
    room: Room,
) -> Result<Vec<Declarator>, PhraseError>
    ensures reads { IfOk result (λ xs. HasDeclarators room xs.items cursor.old.rest.now cursor.new.rest.now) }
    ensures shorter { OnOk result (length cursor.new.rest.now < length cursor.old.rest.now) }
    ensures stops { Stops DeclaratorsClosed (bound_of room) result cursor.old.rest.now cursor.new.rest.now }
    ensures nests { Passes DeclaratorsClosed (OpensAs DeepDeclarators) room result cursor.old.rest.now }
{
    let mut declarators = Vec::new(alloc);
    let first = cursor.declarator(alloc, room)?;
    declarators.push(first)?;
    'next: while !cursor.take(SEMICOLON) {
        if !cursor.take(COMMA) {
            return Err(PhraseError::Syntax);
        }
        let next = cursor.declarator(alloc, room)?;
        declarators.push(next)?;
    }
    Ok(declarators)
}

// Reads `struct` and a tag alone.
fn tag_item(cursor: &mut Cursor<'_>, alloc: Global) -> Result<Item, PhraseError>
    requires { BeginsTagged ending cursor.now.rest.now }
    ensures reads { (room : Room) → IfOk result (λ x. HasItem room (item_at x.at x.kind) cursor.old.rest.now cursor.new.rest.now) }
    ensures shorter { OnOk result (length cursor.new.rest.now < length cursor.old.rest.now) }
    ensures stops { (b : Bound) → Stops AnItem b result cursor.old.rest.now cursor.new.rest.now }
    ensures nests { (room : Room) → Passes AnItem (OpensAs DeepItem) room result cursor.old.rest.now }
{
    let at = cursor.place();
    if !cursor.take_keyword(STRUCT) {
        return Err(PhraseError::Syntax);
    }
    let tag = cursor.name(alloc)?;
    if !cursor.take(SEMICOLON) {
        return Err(PhraseError::Syntax);
    }
    Ok(Item {
        at,
        kind: ItemKind::Tag(tag),
    })
}

// Reads an enum with its enumerators (C99 6.7.2.2).
fn enum_item(cursor: &mut Cursor<'_>, alloc: Global, room: Room) -> Result<Item, PhraseError>
    requires { BeginsEnum cursor.now.rest.now }
    ensures reads { IfOk result (λ x. HasItem room (item_at x.at x.kind) cursor.old.rest.now cursor.new.rest.now) }
    ensures shorter { OnOk result (length cursor.new.rest.now < length cursor.old.rest.now) }
    ensures stops { Stops AnItem (bound_of room) result cursor.old.rest.now cursor.new.rest.now }
    ensures nests { Passes AnItem (OpensAs DeepItem) room result cursor.old.rest.now }
{
    let at = cursor.place();
    if !cursor.take_keyword(ENUM) {
        return Err(PhraseError::Syntax);
    }
    let tag = maybe_tag(cursor, alloc)?;
    if !cursor.take(LEFT_BRACE) {
        return Err(PhraseError::Syntax);
    }
    let list = enumerators(cursor, alloc, room)?;
    if !cursor.take(SEMICOLON) {
        return Err(PhraseError::Syntax);
    }
    Ok(Item {
        at,
        kind: ItemKind::Enum { tag, list },
    })
}

fn maybe_tag(cursor: &mut Cursor<'_>, alloc: Global) -> Result<Option<Ident>, PhraseError>
    ensures reads { IfOk result (λ g. ReadsTag (tag_of g) cursor.old.rest.now cursor.new.rest.now) }
    ensures stops { (b : Bound) (t : Token) → IsKeyword enum_word t → Stops AnItem b result (t ∷ cursor.old.rest.now) cursor.new.rest.now }
    ensures nests { (room : Room) (t : Token) → Passes AnItem (OpensAs DeepItem) room result (t ∷ cursor.old.rest.now) }
    ensures braced { OnOk result ((t : Token) → BeginsEnum (t ∷ cursor.old.rest.now) → IsAt opening cursor.new.rest.now) }
{
    if cursor.is_at(LEFT_BRACE) {
        return Ok(None);
    }
    let tag = cursor.name(alloc)?;
    Ok(Some(tag))
}

// Reads one or more enumerators, through the brace at their end; a comma may stand before it.
fn enumerators(
    cursor: &mut Cursor<'_>,
    alloc: Global,
    room: Room,
) -> Result<Vec<Enumerator>, PhraseError>
    ensures reads { IfOk result (λ xs. HasEnumerators room xs.items cursor.old.rest.now cursor.new.rest.now) }
    ensures shorter { OnOk result (length cursor.new.rest.now < length cursor.old.rest.now) }
    ensures stops { Stops InEnum (bound_of room) result cursor.old.rest.now cursor.new.rest.now }
    ensures nests { Passes InEnum (OpensAs DeepEnumerators) room result cursor.old.rest.now }
    ensures leads { OnOk result ((x : Bound) (r : List Token) → Fails (Punctuator ending) cursor.new.rest.now r → Fails (InEnum x) cursor.old.rest.now r) }
{
    let mut list = Vec::new(alloc);
    let first = enumerator(cursor, alloc, room)?;
    list.push(first)?;
    'next: while !cursor.take(RIGHT_BRACE) {
        if !cursor.take(COMMA) {
            return Err(PhraseError::Syntax);
        }
        if cursor.take(RIGHT_BRACE) {
            return Ok(list);
        }
        let next = enumerator(cursor, alloc, room)?;
        list.push(next)?;
    }
    Ok(list)
}

fn enumerator(cursor: &mut Cursor<'_>, alloc: Global, room: Room) -> Result<Enumerator, PhraseError>
    ensures reads { IfOk result (λ x. HasEnumerator room x cursor.old.rest.now cursor.new.rest.now) }
    ensures shorter { OnOk result (length cursor.new.rest.now < length cursor.old.rest.now) }
    ensures stops { Stops InEnum (bound_of room) result cursor.old.rest.now cursor.new.rest.now }
    ensures nests { Passes InEnum (OpensAs DeepEnumerators) room result cursor.old.rest.now }
    ensures opens { OnOk result ((at n : ℕ) (t : Token) (m q : List Token) → cursor.new.rest.now ≡ t ∷ m → Is comma t → Opens (DeepEnumerators at room.pairs n) m q → Opens (DeepEnumerators at room.pairs n) cursor.old.rest.now q) }
    ensures leads { OnOk result ((x : Bound) (r : List Token) → Fails (EnumEnd x) cursor.new.rest.now r → Fails (InEnum x) cursor.old.rest.now r) }
{
    let name = cursor.name(alloc)?;
    let value = enumerator_value(cursor, alloc, room)?;
    Ok(Enumerator { name, value })
}

fn enumerator_value(
    cursor: &mut Cursor<'_>,
    alloc: Global,
    room: Room,
) -> Result<Option<Expr>, PhraseError>
    ensures reads { IfOk result (λ e. HasEnumeratorValue room (maybe_of e) cursor.old.rest.now cursor.new.rest.now) }
    ensures stops { Stops ValueRest (bound_of room) result cursor.old.rest.now cursor.new.rest.now }
    ensures nests { Passes ValueRest OpensValue room result cursor.old.rest.now }
    ensures leads { OnOk result ((x : Bound) (r : List Token) → Fails (EnumEnd x) cursor.new.rest.now r → Fails (ValueRest x) cursor.old.rest.now r) }
{
    if !cursor.take(ASSIGN) {
        return Ok(None);
    }
    let value = cursor.conditional(alloc, room)?;
    Ok(Some(value))
}

// Reads a declaration or the definition of a function.
fn other_item(cursor: &mut Cursor<'_>, alloc: Global, room: Room) -> Result<Item, PhraseError>
    requires { 0 < room.nodes }
    ensures reads { IfOk result (λ x. HasItem room (item_at x.at x.kind) cursor.old.rest.now cursor.new.rest.now) }
    ensures shorter { OnOk result (length cursor.new.rest.now < length cursor.old.rest.now) }
    ensures stops { Stops AnOther (bound_of room) result cursor.old.rest.now cursor.new.rest.now }
    ensures nests { Passes AnOther (OpensAs DeepItem) room result cursor.old.rest.now }
{
    let at = cursor.place();
    let storage = storage(cursor);
    let spec = cursor.specifiers(alloc)?;
    let declarator = cursor.declarator(alloc, room)?;
    if cursor.is_at(LEFT_BRACE) {
        let body = block(cursor, alloc, room)?;
        return Ok(Item {
            at,
            kind: ItemKind::Function {
                storage,
                spec,
                declarator,
                body: Box::into_inner(body),
            },
        });
    }
    let parts = parts(cursor, alloc, room, declarator)?;
    Ok(Item {
        at,
        kind: ItemKind::Declaration(Decl {
            storage,
            spec,
            parts,
            at,
        }),
    })
}
