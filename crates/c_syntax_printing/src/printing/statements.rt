ghost use Rattle.std.specs.Prelude.{◌<◌, OnOk};
ghost use Rattle.c_syntax.specs.UnitView.{first_of_head, labels_of, stmt_of, block_item_before, group_before};
ghost use Rattle.c_syntax.specs.Tree.{no_block_items, no_groups};
ghost use Rattle.c_syntax.specs.View.{expr_behind, expr_of};
ghost use Rattle.c_syntax.specs.Print.{first_kinds, labels_kinds, stmt_kinds, block_items_kinds, stmts_kinds, groups_kinds};
ghost use Rattle.c_syntax.specs.Writes.{Writes};
ghost use Rattle.c_syntax.specs.WritesUnit.{block_items_of, stmts_of, groups_of, else_behind, else_kinds, for_kinds, worded_kinds, jump_kinds, return_kinds, label_kinds};

use crate::printing::declarations::{write_decl, write_maybe};
use crate::printing::expressions::{write_expr, write_operand};
use crate::printing::tokens::{push_keyword, push_punctuator};
use c_lexer::OutOfMemory;
use c_lexer::keyword::{BREAK, CASE, CONTINUE, DEFAULT, DO, ELSE, FOR, IF, RETURN, SWITCH, WHILE};
use c_lexer::punctuator::{
    COLON, LEFT_BRACE, LEFT_PARENTHESIS, RIGHT_BRACE, RIGHT_PARENTHESIS, SEMICOLON,
};
use c_syntax::{BlockItem, Expr, ForFirst, Group, Label, LabelKind, Stmt, StmtKind};

// Writes what stands first in the head of a `for`, and the semicolon after it.
fn write_first(out: &mut Vec<u8>, first: &ForFirst) -> Result<(), OutOfMemory>
    ensures { OnOk result (Writes out.old.items out.new.items (first_kinds (first_of_head first.now))) }
{
    match first {
        ForFirst::Absent => push_punctuator(out, SEMICOLON),
        ForFirst::Expr(e) => {
            write_expr(out, e)?;
            push_punctuator(out, SEMICOLON)
        }
        ForFirst::Declaration(decl) => write_decl(out, decl),
    }
}

// Writes the head of a `for`.
fn write_for_head(
    out: &mut Vec<u8>,
    first: &ForFirst,
    test: &Option<Box<Expr>>,
    step: &Option<Box<Expr>>,
) -> Result<(), OutOfMemory>
    ensures { OnOk result (Writes out.old.items out.new.items (for_kinds (first_of_head first.now) (expr_behind test.now) (expr_behind step.now))) }
{
    push_keyword(out, FOR)?;
    push_punctuator(out, LEFT_PARENTHESIS)?;
    write_first(out, first)?;
    write_maybe(out, test)?;
    push_punctuator(out, SEMICOLON)?;
    write_maybe(out, step)?;
    push_punctuator(out, RIGHT_PARENTHESIS)
}

// Writes a keyword and an expression in parentheses.
fn write_head(out: &mut Vec<u8>, keyword: u8, test: &Expr) -> Result<(), OutOfMemory>
    requires { keyword < 22 }
    ensures { OnOk result (Writes out.old.items out.new.items (worded_kinds keyword (expr_of test.now))) }
{
    push_keyword(out, keyword)?;
    push_punctuator(out, LEFT_PARENTHESIS)?;
    write_expr(out, test)?;
    push_punctuator(out, RIGHT_PARENTHESIS)
}

// Writes a keyword and a semicolon.
fn write_jump(out: &mut Vec<u8>, keyword: u8) -> Result<(), OutOfMemory>
    requires { keyword < 22 }
    ensures { OnOk result (Writes out.old.items out.new.items (jump_kinds keyword)) }
{
    push_keyword(out, keyword)?;
    push_punctuator(out, SEMICOLON)
}

// Writes a `return`.
fn write_return(out: &mut Vec<u8>, e: &Option<Box<Expr>>) -> Result<(), OutOfMemory>
    ensures { OnOk result (Writes out.old.items out.new.items (return_kinds (expr_behind e.now))) }
{
    push_keyword(out, RETURN)?;
    write_maybe(out, e)?;
    push_punctuator(out, SEMICOLON)
}

// Writes a label of a switch.
fn write_label(out: &mut Vec<u8>, label: &Label) -> Result<(), OutOfMemory>
    ensures { OnOk result (Writes out.old.items out.new.items (label_kinds label.now.kind)) }
{
    match &label.kind {
        LabelKind::Case(e) => {
            push_keyword(out, CASE)?;
            write_operand(out, e)?;
            push_punctuator(out, COLON)
        }
        LabelKind::Default => {
            push_keyword(out, DEFAULT)?;
            push_punctuator(out, COLON)
        }
    }
}

// Writes labels of a switch.
fn write_labels(out: &mut Vec<u8>, labels: &[Label]) -> Result<(), OutOfMemory>
    ensures { OnOk result (Writes out.old.items out.new.items (labels_kinds (labels_of labels.now))) }
{
    for label in labels {
        write_label(out, label)?;
    }
    Ok(())
}

// Writes the statement.
#[cycle(printed_statement)]
pub fn write_stmt(out: &mut Vec<u8>, stmt: &Stmt) -> Result<(), OutOfMemory>
    ensures { OnOk result (Writes out.old.items out.new.items (stmt_kinds (stmt_of stmt.now))) }
{
    match &stmt.kind {
        StmtKind::Block(items) => {
            push_punctuator(out, LEFT_BRACE)?;
            write_block_items(out, items)?;
            push_punctuator(out, RIGHT_BRACE)
        }
        StmtKind::Empty => push_punctuator(out, SEMICOLON),
        StmtKind::Expr(e) => {
            write_expr(out, e)?;
            push_punctuator(out, SEMICOLON)
        }
        StmtKind::If { test, yes, no } => {
            write_head(out, IF, test)?;
            write_stmt(out, yes)?;
            write_else(out, no)
        }
        StmtKind::While { test, body } => {
            write_head(out, WHILE, test)?;
            write_stmt(out, body)
        }
        StmtKind::Do { body, test } => {
            push_keyword(out, DO)?;
            write_stmt(out, body)?;
            write_head(out, WHILE, test)?;
            push_punctuator(out, SEMICOLON)
        }
        StmtKind::For {
            first,
            test,
            step,
            body,
        } => {
            write_for_head(out, first, test, step)?;
            write_stmt(out, body)
        }
        StmtKind::Switch { on, groups } => {
            write_head(out, SWITCH, on)?;
            push_punctuator(out, LEFT_BRACE)?;
            write_groups(out, groups)?;
            push_punctuator(out, RIGHT_BRACE)
        }
        StmtKind::Break => write_jump(out, BREAK),
        StmtKind::Continue => write_jump(out, CONTINUE),
        StmtKind::Return(e) => write_return(out, e),
    }
}

// Writes `else` and what is done there, where it stands.
#[cycle(printed_statement)]
fn write_else(out: &mut Vec<u8>, no: &Option<Box<Stmt>>) -> Result<(), OutOfMemory>
    ensures { OnOk result (Writes out.old.items out.new.items (else_kinds (else_behind no.now))) }
{
    match no {
        None => Ok(()),
        Some(stmt) => {
            push_keyword(out, ELSE)?;
            write_stmt(out, stmt)
        }
    }
}

// Writes what stands in a block.
#[cycle(printed_statement)]
fn write_block_items(out: &mut Vec<u8>, items: &[BlockItem]) -> Result<(), OutOfMemory>
    ensures { OnOk result (Writes out.old.items out.new.items (block_items_kinds (block_items_of items.now))) }
{
    for item in items {
        write_block_item(out, item)?;
    }
    Ok(())
}

// Writes a declaration or a statement of a block.
#[cycle(printed_statement)]
fn write_block_item(out: &mut Vec<u8>, item: &BlockItem) -> Result<(), OutOfMemory>
    ensures { OnOk result (Writes out.old.items out.new.items (block_items_kinds (block_item_before item.now no_block_items))) }
{
    match item {
        BlockItem::Declaration(decl) => write_decl(out, decl),
        BlockItem::Statement(stmt) => write_stmt(out, stmt),
    }
}

// Writes statements.
#[cycle(printed_statement)]
fn write_stmts(out: &mut Vec<u8>, stmts: &[Stmt]) -> Result<(), OutOfMemory>
    ensures { OnOk result (Writes out.old.items out.new.items (stmts_kinds (stmts_of stmts.now))) }
{
    for stmt in stmts {
        write_stmt(out, stmt)?;
    }
    Ok(())
}

// Writes groups of a switch.
#[cycle(printed_statement)]
fn write_groups(out: &mut Vec<u8>, groups: &[Group]) -> Result<(), OutOfMemory>
    ensures { OnOk result (Writes out.old.items out.new.items (groups_kinds (groups_of groups.now))) }
{
    for group in groups {
        write_group(out, group)?;
    }
    Ok(())
}

// Writes a group of a switch.
#[cycle(printed_statement)]
fn write_group(out: &mut Vec<u8>, group: &Group) -> Result<(), OutOfMemory>
    ensures { OnOk result (Writes out.old.items out.new.items (groups_kinds (group_before group.now no_groups))) }
{
    write_labels(out, &group.labels)?;
    write_stmts(out, &group.body)
}
