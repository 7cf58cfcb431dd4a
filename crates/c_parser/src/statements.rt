ghost use Rattle.std.specs.Prelude.{◌≡◌, ◌≤◌, ◌<◌, ◌↔◌, ◌∷◌, IfOk, OnOk, IsTrue, List, drop, length, ℕ};
ghost use Rattle.c_lexer.specs.declared.token.Token.{Token};
ghost use Rattle.c_lexer.specs.declared.keyword.TheConstants.{BREAK as break_word, CONTINUE as continue_word, DO as do_word, FOR as for_word, IF as if_word, RETURN as return_word, SWITCH as switch_word, WHILE as while_word};
ghost use Rattle.c_lexer.specs.declared.punctuator.TheConstants.{LEFT_BRACE as opening};
ghost use Rattle.c_syntax.specs.Tokens.{IsKeyword};
ghost use Rattle.c_parser_phrases.specs.Standing.{IsAt};
ghost use Rattle.c_syntax.specs.UnitView.{stmt_of, first_of_head};
ghost use Rattle.c_parser.specs.Starting.{BeginsCompound, BeginsNoCompound, EndsGroup};
ghost use Rattle.c_parser.specs.Parsed.{HasStmt, HasNode, HasBlock, HasFirst, AddsBlockItem, AreStmts, HasGroups, HasHead};
ghost use Rattle.c_parser_phrases.specs.Looking.{IsAtSpecifier};
ghost use Rattle.c_syntax_printing.specs.Heads.{head};
ghost use Rattle.c_syntax_printing.specs.Fails.{Fails};
ghost use Rattle.c_syntax_printing.specs.Phrases.{Bound, inner, AStmt, ABlockItem, InBlock, InSwitch, AFirst, IfTail, WhileTail, DoTail, ForTail, SwitchTail};
ghost use Rattle.c_syntax_printing.specs.Groups.{InGroup, GroupRest};
ghost use Rattle.c_parser_phrases.specs.Refusing.{bound_of, Stops};
ghost use Rattle.c_parser.specs.Refusing.{AHead};
ghost use Rattle.c_syntax_printing.specs.Opens.{Opens, DeepStmt, DeepBlock};
ghost use Rattle.c_syntax_printing.specs.Deep.{DeepStmts, DeepGroups};
ghost use Rattle.c_parser.specs.Nesting.{Passes, OpensAs, OpensAfter, OpensInHead, OpensInBlock};

use crate::declarations::declaration;
use crate::labels::{is_at_label, labels};
use crate::nodes::{
    ForHead, add_block_statement, add_statement, block_node, do_node, evaluation_node, for_node,
    group_node, if_else_node, if_node, stmt_node, switch_node, while_node,
};
use crate::parts::{condition, expression_before};
use crate::starts::{Compound, compound_start, no_room, sure_to_be_deep};
use c_lexer::keyword::{BREAK, CONTINUE, ELSE, RETURN, WHILE};
use c_lexer::punctuator::{
    LEFT_BRACE, LEFT_PARENTHESIS, RIGHT_BRACE, RIGHT_PARENTHESIS, SEMICOLON,
};
use c_parser_phrases::{Cursor, PhraseError, Room};
use c_syntax::{BlockItem, ForFirst, Group, Stmt, StmtKind};
use std::alloc::Global;

/// Reads a statement (C99 6.8).
#[cycle(statement)]
pub fn statement(
    cursor: &mut Cursor<'_>,
    alloc: Global,
    room: Room,
) -> Result<Box<Stmt>, PhraseError>
    ensures reads { IfOk result (λ s. HasStmt room (stmt_of s.value) cursor.old.rest.now cursor.new.rest.now) }
    ensures shorter { OnOk result (length cursor.new.rest.now < length cursor.old.rest.now) }
    ensures stops { Stops AStmt (bound_of room) result cursor.old.rest.now cursor.new.rest.now }
    ensures nests { Passes AStmt (OpensAs DeepStmt) room result cursor.old.rest.now }
{
    if room.nodes == 0 {
        return Err(no_room(cursor));
    }
    if cursor.is_at(LEFT_BRACE) {
        return block(cursor, alloc, room);
    }
    let Some(form) = compound_start(cursor) else {
        return simple(cursor, alloc, room);
    };
    match compound(cursor, alloc, room, form) {
        Ok(compound) => Ok(compound),
        Err(error) => {
            if room.nodes == 1 {
                return Err(sure_to_be_deep(cursor, error));
            }
            Err(error)
        }
    }
}

// Reads a statement that holds others or a condition.
#[cycle(statement)]
fn compound(
    cursor: &mut Cursor<'_>,
    alloc: Global,
    room: Room,
    form: Compound,
) -> Result<Box<Stmt>, PhraseError>
    requires room { 0 < room.nodes }
    requires begins { BeginsCompound form cursor.now.rest.now }
    requires some { 0 < length cursor.now.rest.now }
    ensures reads { IfOk result (λ s. HasStmt room (stmt_of s.value) cursor.old.rest.now cursor.new.rest.now) }
    ensures shorter { OnOk result (length cursor.new.rest.now < length cursor.old.rest.now) }
    ensures stops { Stops AStmt (bound_of room) result cursor.old.rest.now cursor.new.rest.now }
    ensures nests { Passes AStmt (OpensAs DeepStmt) room result cursor.old.rest.now }
{
    let at = cursor.place();
    let inside = room.in_node();
    cursor.skip();
    match form {
        Compound::If => if_statement(cursor, alloc, inside, at),
        Compound::While => while_statement(cursor, alloc, inside, at),
        Compound::Do => do_statement(cursor, alloc, inside, at),
        Compound::For => for_statement(cursor, alloc, inside, at),
        Compound::Switch => switch_statement(cursor, alloc, inside, at),
    }
}

/// Reads the block whose brace stands first (C99 6.8.2).
#[cycle(statement)]
pub fn block(cursor: &mut Cursor<'_>, alloc: Global, room: Room) -> Result<Box<Stmt>, PhraseError>
    requires room { 0 < room.nodes }
    requires begins { IsAt opening cursor.now.rest.now }
    requires some { 0 < length cursor.now.rest.now }
    ensures reads { IfOk result (λ s. HasBlock room (stmt_of s.value) cursor.old.rest.now cursor.new.rest.now) }
    ensures shorter { OnOk result (length cursor.new.rest.now < length cursor.old.rest.now) }
    ensures stops { Stops InBlock (inner (bound_of room)) result (drop 1 cursor.old.rest.now) cursor.new.rest.now }
    ensures nests { Passes (λ b. InBlock (inner b)) OpensInBlock room result (drop 1 cursor.old.rest.now) }
{
    let at = cursor.place();
    let inside = room.in_node();
    cursor.skip();
    let mut items = Vec::new(alloc);
    'next: while !cursor.take(RIGHT_BRACE) {
        block_item(cursor, alloc, inside, &mut items)?;
    }
    block_node(alloc, at, items)
}

// Reads a declaration or a statement, and adds it to the items.
#[cycle(statement)]
fn block_item(
    cursor: &mut Cursor<'_>,
    alloc: Global,
    room: Room,
    items: &mut Vec<BlockItem>,
) -> Result<(), PhraseError>
    ensures reads { IfOk result (λ _. AddsBlockItem room items.old.items items.new.items cursor.old.rest.now cursor.new.rest.now) }
    ensures shorter { OnOk result (length cursor.new.rest.now < length cursor.old.rest.now) }
    ensures stops { Stops ABlockItem (bound_of room) result cursor.old.rest.now cursor.new.rest.now }
    ensures nests { Passes ABlockItem (OpensAs DeepBlock) room result cursor.old.rest.now }
    ensures opens { OnOk result ((at n : ℕ) (q : List Token) → Opens (DeepBlock at room.pairs n) cursor.new.rest.now q → Opens (DeepBlock at room.pairs n) cursor.old.rest.now q) }
{
    if cursor.is_at_specifier() {
        return block_declaration(cursor, alloc, room, items);
    }
    let statement = statement(cursor, alloc, room)?;
    add_block_statement(items, statement)
}

// Reads what follows `if`.
#[cycle(statement)]
fn if_statement(
    cursor: &mut Cursor<'_>,
    alloc: Global,
    room: Room,
    at: u32,
) -> Result<Box<Stmt>, PhraseError>
    ensures reads { (t : Token) → IsKeyword if_word t → at ≡ t.from → IfOk result (λ s. HasNode room (stmt_of s.value) (t ∷ cursor.old.rest.now) cursor.new.rest.now) }
    ensures shorter { OnOk result (length cursor.new.rest.now < length cursor.old.rest.now) }
    ensures stops { Stops IfTail (bound_of room) result cursor.old.rest.now cursor.new.rest.now }
    ensures nests { Passes IfTail (OpensAfter if_word) room result cursor.old.rest.now }
{
    let test = condition(cursor, alloc, room)?;
    let yes = statement(cursor, alloc, room)?;
    if cursor.take_keyword(ELSE) {
        let no = statement(cursor, alloc, room)?;
        return if_else_node(alloc, at, test, yes, no);
    }
    if_node(alloc, at, test, yes)
}

// Reads what follows `while`.
#[cycle(statement)]
fn while_statement(
    cursor: &mut Cursor<'_>,
    alloc: Global,
    room: Room,
    at: u32,
) -> Result<Box<Stmt>, PhraseError>
    ensures reads { (t : Token) → IsKeyword while_word t → at ≡ t.from → IfOk result (λ s. HasNode room (stmt_of s.value) (t ∷ cursor.old.rest.now) cursor.new.rest.now) }
    ensures shorter { OnOk result (length cursor.new.rest.now < length cursor.old.rest.now) }
    ensures stops { Stops WhileTail (bound_of room) result cursor.old.rest.now cursor.new.rest.now }
    ensures nests { Passes WhileTail (OpensAfter while_word) room result cursor.old.rest.now }
{
    let test = condition(cursor, alloc, room)?;
    let body = statement(cursor, alloc, room)?;
    while_node(alloc, at, test, body)
}

// Reads what follows `do`.
#[cycle(statement)]
fn do_statement(
    cursor: &mut Cursor<'_>,
    alloc: Global,
    room: Room,
    at: u32,
) -> Result<Box<Stmt>, PhraseError>
    ensures reads { (t : Token) → IsKeyword do_word t → at ≡ t.from → IfOk result (λ s. HasNode room (stmt_of s.value) (t ∷ cursor.old.rest.now) cursor.new.rest.now) }
    ensures shorter { OnOk result (length cursor.new.rest.now < length cursor.old.rest.now) }
    ensures stops { Stops DoTail (bound_of room) result cursor.old.rest.now cursor.new.rest.now }
    ensures nests { Passes DoTail (OpensAfter do_word) room result cursor.old.rest.now }
{
    let body = statement(cursor, alloc, room)?;
    if !cursor.take_keyword(WHILE) {
        return Err(PhraseError::Syntax);
    }
    let test = condition(cursor, alloc, room)?;
    if !cursor.take(SEMICOLON) {
        return Err(PhraseError::Syntax);
    }
    do_node(alloc, at, body, test)
}

// Reads what follows `for`.
#[cycle(statement)]
fn for_statement(
    cursor: &mut Cursor<'_>,
    alloc: Global,
    room: Room,
    at: u32,
) -> Result<Box<Stmt>, PhraseError>
    ensures reads { (t : Token) → IsKeyword for_word t → at ≡ t.from → IfOk result (λ s. HasNode room (stmt_of s.value) (t ∷ cursor.old.rest.now) cursor.new.rest.now) }
    ensures shorter { OnOk result (length cursor.new.rest.now < length cursor.old.rest.now) }
    ensures stops { Stops ForTail (bound_of room) result cursor.old.rest.now cursor.new.rest.now }
    ensures nests { Passes ForTail (OpensAfter for_word) room result cursor.old.rest.now }
{
    let head = for_head(cursor, alloc, room)?;
    let body = statement(cursor, alloc, room)?;
    for_node(alloc, at, head, body)
}

// Reads what stands in the parentheses after `for`, with them.
fn for_head(cursor: &mut Cursor<'_>, alloc: Global, room: Room) -> Result<Box<ForHead>, PhraseError>
    ensures reads { IfOk result (λ h. HasHead room h.value cursor.old.rest.now cursor.new.rest.now) }
    ensures shorter { OnOk result (length cursor.new.rest.now < length cursor.old.rest.now) }
    ensures stops { Stops AHead (bound_of room) result cursor.old.rest.now cursor.new.rest.now }
    ensures nests { Passes AHead (OpensAfter for_word) room result cursor.old.rest.now }
{
    if !cursor.take(LEFT_PARENTHESIS) {
        return Err(PhraseError::Syntax);
    }
    let first = for_first(cursor, alloc, room)?;
    let test = expression_before(cursor, alloc, room, SEMICOLON)?;
    let step = expression_before(cursor, alloc, room, RIGHT_PARENTHESIS)?;
    let head = ForHead { first, test, step };
    let boxed = Box::new(alloc, head)?;
    Ok(boxed)
}

// Reads what stands first in the head of a `for`, through its semicolon.
fn for_first(cursor: &mut Cursor<'_>, alloc: Global, room: Room) -> Result<ForFirst, PhraseError>
    ensures reads { IfOk result (λ x. HasFirst room (first_of_head x) cursor.old.rest.now cursor.new.rest.now) }
    ensures shorter { OnOk result (length cursor.new.rest.now < length cursor.old.rest.now) }
    ensures stops { Stops AFirst (bound_of room) result cursor.old.rest.now cursor.new.rest.now }
    ensures nests { Passes AFirst OpensInHead room result cursor.old.rest.now }
{
    if cursor.take(SEMICOLON) {
        return Ok(ForFirst::Absent);
    }
    if cursor.is_at_specifier() {
        let declaration = declaration(cursor, alloc, room)?;
        return Ok(ForFirst::Declaration(declaration));
    }
    let first = cursor.expression(alloc, room)?;
    if !cursor.take(SEMICOLON) {
        return Err(PhraseError::Syntax);
    }
    let boxed = Box::new(alloc, first)?;
    Ok(ForFirst::Expr(boxed))
}

// Reads what follows `switch`.
#[cycle(statement)]
fn switch_statement(
    cursor: &mut Cursor<'_>,
    alloc: Global,
    room: Room,
    at: u32,
) -> Result<Box<Stmt>, PhraseError>
    ensures reads { (t : Token) → IsKeyword switch_word t → at ≡ t.from → IfOk result (λ s. HasNode room (stmt_of s.value) (t ∷ cursor.old.rest.now) cursor.new.rest.now) }
    ensures shorter { OnOk result (length cursor.new.rest.now < length cursor.old.rest.now) }
    ensures stops { Stops SwitchTail (bound_of room) result cursor.old.rest.now cursor.new.rest.now }
    ensures nests { Passes SwitchTail (OpensAfter switch_word) room result cursor.old.rest.now }
{
    let on = condition(cursor, alloc, room)?;
    if !cursor.take(LEFT_BRACE) {
        return Err(PhraseError::Syntax);
    }
    let groups = groups(cursor, alloc, room)?;
    switch_node(alloc, at, on, groups)
}

// Reads groups of labels and statements, through the brace at their end.
#[cycle(statement)]
fn groups(cursor: &mut Cursor<'_>, alloc: Global, room: Room) -> Result<Vec<Group>, PhraseError>
    ensures reads { IfOk result (λ xs. HasGroups room xs.items cursor.old.rest.now cursor.new.rest.now) }
    ensures shorter { OnOk result (length cursor.new.rest.now < length cursor.old.rest.now) }
    ensures stops { Stops InSwitch (bound_of room) result cursor.old.rest.now cursor.new.rest.now }
    ensures nests { Passes InSwitch (OpensAs DeepGroups) room result cursor.old.rest.now }
{
    let mut groups = Vec::new(alloc);
    'next: while !cursor.take(RIGHT_BRACE) {
        let labels = labels(cursor, alloc, room)?;
        let body = statements(cursor, alloc, room)?;
        groups.push(group_node(labels, body))?;
    }
    Ok(groups)
}

// Reads one or more statements, up to a label or a brace.
#[cycle(statement)]
fn statements(cursor: &mut Cursor<'_>, alloc: Global, room: Room) -> Result<Vec<Stmt>, PhraseError>
    ensures reads { IfOk result (λ xs. AreStmts room xs.items cursor.old.rest.now cursor.new.rest.now) }
    ensures shorter { OnOk result (length cursor.new.rest.now < length cursor.old.rest.now) }
    ensures stops { Stops InGroup (bound_of room) result cursor.old.rest.now cursor.new.rest.now }
    ensures nests { Passes InGroup (OpensAs DeepStmts) room result cursor.old.rest.now }
    ensures begins { OnOk result (20 ≤ head cursor.old.rest.now) }
    ensures leads { OnOk result ((x : Bound) (r : List Token) → Fails (GroupRest x) cursor.new.rest.now r → Fails (InGroup x) cursor.old.rest.now r) }
    ensures ends { OnOk result (head cursor.new.rest.now ≤ 12) }
{
    let mut body = Vec::new(alloc);
    let first = statement(cursor, alloc, room)?;
    add_statement(&mut body, first)?;
    'next: while !ends_group(cursor) {
        let next = statement(cursor, alloc, room)?;
        add_statement(&mut body, next)?;
    }
    Ok(body)
}

fn ends_group(cursor: &Cursor<'_>) -> bool
    ensures { IsTrue result ↔ EndsGroup cursor.now.rest.now }
{
    cursor.is_at(RIGHT_BRACE) || is_at_label(cursor)
}

// Reads an expression, a jump or `;` alone.
fn simple(cursor: &mut Cursor<'_>, alloc: Global, room: Room) -> Result<Box<Stmt>, PhraseError>
    requires room { 0 < room.nodes }
    requires other { BeginsNoCompound cursor.now.rest.now }
    requires no_block { IsAt opening cursor.now.rest.now → ⊥ }
    ensures reads { IfOk result (λ s. HasStmt room (stmt_of s.value) cursor.old.rest.now cursor.new.rest.now) }
    ensures shorter { OnOk result (length cursor.new.rest.now < length cursor.old.rest.now) }
    ensures stops { Stops AStmt (bound_of room) result cursor.old.rest.now cursor.new.rest.now }
    ensures nests { Passes AStmt (OpensAs DeepStmt) room result cursor.old.rest.now }
{
    let at = cursor.place();
    let inside = room.in_node();
    if cursor.take(SEMICOLON) {
        return stmt_node(alloc, at, StmtKind::Empty);
    }
    if cursor.take_keyword(BREAK) {
        if !cursor.take(SEMICOLON) {
            return Err(PhraseError::Syntax);
        }
        return stmt_node(alloc, at, StmtKind::Break);
    }
    if cursor.take_keyword(CONTINUE) {
        if !cursor.take(SEMICOLON) {
            return Err(PhraseError::Syntax);
        }
        return stmt_node(alloc, at, StmtKind::Continue);
    }
    if cursor.take_keyword(RETURN) {
        let value = expression_before(cursor, alloc, inside, SEMICOLON)?;
        return stmt_node(alloc, at, StmtKind::Return(value));
    }
    let whole = cursor.expression(alloc, inside)?;
    if !cursor.take(SEMICOLON) {
        return Err(PhraseError::Syntax);
    }
    evaluation_node(alloc, at, whole)
}

// Reads a declaration, and adds it to the items.
fn block_declaration(
    cursor: &mut Cursor<'_>,
    alloc: Global,
    room: Room,
    items: &mut Vec<BlockItem>,
) -> Result<(), PhraseError>
    requires { IsAtSpecifier cursor.now.rest.now }
    ensures reads { IfOk result (λ _. AddsBlockItem room items.old.items items.new.items cursor.old.rest.now cursor.new.rest.now) }
    ensures shorter { OnOk result (length cursor.new.rest.now < length cursor.old.rest.now) }
    ensures stops { Stops ABlockItem (bound_of room) result cursor.old.rest.now cursor.new.rest.now }
    ensures nests { Passes ABlockItem (OpensAs DeepBlock) room result cursor.old.rest.now }
    ensures opens { OnOk result ((at n : ℕ) (q : List Token) → Opens (DeepBlock at room.pairs n) cursor.new.rest.now q → Opens (DeepBlock at room.pairs n) cursor.old.rest.now q) }
{
    let declaration = declaration(cursor, alloc, room)?;
    items.push(BlockItem::Declaration(declaration))?;
    Ok(())
}
