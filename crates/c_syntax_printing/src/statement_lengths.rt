ghost use Rattle.std.specs.Prelude.{◌<◌};
ghost use Rattle.c_syntax.specs.UnitView.{first_of_head, labels_of, stmt_of, block_item_before, group_before};
ghost use Rattle.c_syntax.specs.Tree.{no_block_items, no_groups};
ghost use Rattle.c_syntax.specs.View.{expr_behind, expr_of};
ghost use Rattle.c_syntax.specs.Print.{first_kinds, labels_kinds, stmt_kinds, block_items_kinds, stmts_kinds, groups_kinds};
ghost use Rattle.c_syntax_printing.specs.Counted.{Counts};
ghost use Rattle.c_syntax.specs.WritesUnit.{block_items_of, stmts_of, groups_of, else_behind, else_kinds, for_kinds, worded_kinds, jump_kinds, return_kinds, label_kinds};

use crate::declaration_lengths::{count_decl, count_maybe};
use crate::expression_lengths::{count_expr, count_operand};
use crate::token_lengths::{count_keyword, count_punctuator};
use c_lexer::keyword::{BREAK, CASE, CONTINUE, DEFAULT, DO, ELSE, FOR, IF, RETURN, SWITCH, WHILE};
use c_lexer::punctuator::{
    COLON, LEFT_BRACE, LEFT_PARENTHESIS, RIGHT_BRACE, RIGHT_PARENTHESIS, SEMICOLON,
};
use c_syntax::{BlockItem, Expr, ForFirst, Group, Label, LabelKind, Stmt, StmtKind};

// Counts what stands first in the head of a `for`, and the semicolon after it.
fn count_first(total: usize, first: &ForFirst) -> usize
    ensures { Counts total (first_kinds (first_of_head first.now)) result }
{
    match first {
        ForFirst::Absent => count_punctuator(total, SEMICOLON),
        ForFirst::Expr(e) => {
            let total = count_expr(total, e);
            count_punctuator(total, SEMICOLON)
        }
        ForFirst::Declaration(decl) => count_decl(total, decl),
    }
}

// Counts the head of a `for`.
fn count_for_head(
    total: usize,
    first: &ForFirst,
    test: &Option<Box<Expr>>,
    step: &Option<Box<Expr>>,
) -> usize
    ensures { Counts total (for_kinds (first_of_head first.now) (expr_behind test.now) (expr_behind step.now)) result }
{
    let total = count_keyword(total, FOR);
    let total = count_punctuator(total, LEFT_PARENTHESIS);
    let total = count_first(total, first);
    let total = count_maybe(total, test);
    let total = count_punctuator(total, SEMICOLON);
    let total = count_maybe(total, step);
    count_punctuator(total, RIGHT_PARENTHESIS)
}

// Counts a keyword and an expression in parentheses.
fn count_head(total: usize, keyword: u8, test: &Expr) -> usize
    requires { keyword < 22 }
    ensures { Counts total (worded_kinds keyword (expr_of test.now)) result }
{
    let total = count_keyword(total, keyword);
    let total = count_punctuator(total, LEFT_PARENTHESIS);
    let total = count_expr(total, test);
    count_punctuator(total, RIGHT_PARENTHESIS)
}

// Counts a keyword and a semicolon.
fn count_jump(total: usize, keyword: u8) -> usize
    requires { keyword < 22 }
    ensures { Counts total (jump_kinds keyword) result }
{
    let total = count_keyword(total, keyword);
    count_punctuator(total, SEMICOLON)
}

// Counts a `return`.
fn count_return(total: usize, e: &Option<Box<Expr>>) -> usize
    ensures { Counts total (return_kinds (expr_behind e.now)) result }
{
    let total = count_keyword(total, RETURN);
    let total = count_maybe(total, e);
    count_punctuator(total, SEMICOLON)
}

// Counts a label of a switch.
fn count_label(total: usize, label: &Label) -> usize
    ensures { Counts total (label_kinds label.now.kind) result }
{
    match &label.kind {
        LabelKind::Case(e) => {
            let total = count_keyword(total, CASE);
            let total = count_operand(total, e);
            count_punctuator(total, COLON)
        }
        LabelKind::Default => {
            let total = count_keyword(total, DEFAULT);
            count_punctuator(total, COLON)
        }
    }
}

// Counts labels of a switch.
fn count_labels(mut total: usize, labels: &[Label]) -> usize
    ensures { Counts total (labels_kinds (labels_of labels.now)) result }
{
    for label in labels {
        total = count_label(total, label);
    }
    total
}

// Counts the statement.
#[cycle(counted_statement)]
pub fn count_stmt(total: usize, stmt: &Stmt) -> usize
    ensures { Counts total (stmt_kinds (stmt_of stmt.now)) result }
{
    match &stmt.kind {
        StmtKind::Block(items) => {
            let total = count_punctuator(total, LEFT_BRACE);
            let total = count_block_items(total, items);
            count_punctuator(total, RIGHT_BRACE)
        }
        StmtKind::Empty => count_punctuator(total, SEMICOLON),
        StmtKind::Expr(e) => {
            let total = count_expr(total, e);
            count_punctuator(total, SEMICOLON)
        }
        StmtKind::If { test, yes, no } => {
            let total = count_head(total, IF, test);
            let total = count_stmt(total, yes);
            count_else(total, no)
        }
        StmtKind::While { test, body } => {
            let total = count_head(total, WHILE, test);
            count_stmt(total, body)
        }
        StmtKind::Do { body, test } => {
            let total = count_keyword(total, DO);
            let total = count_stmt(total, body);
            let total = count_head(total, WHILE, test);
            count_punctuator(total, SEMICOLON)
        }
        StmtKind::For {
            first,
            test,
            step,
            body,
        } => {
            let total = count_for_head(total, first, test, step);
            count_stmt(total, body)
        }
        StmtKind::Switch { on, groups } => {
            let total = count_head(total, SWITCH, on);
            let total = count_punctuator(total, LEFT_BRACE);
            let total = count_groups(total, groups);
            count_punctuator(total, RIGHT_BRACE)
        }
        StmtKind::Break => count_jump(total, BREAK),
        StmtKind::Continue => count_jump(total, CONTINUE),
        StmtKind::Return(e) => count_return(total, e),
    }
}

// Counts `else` and what is done there, where it stands.
#[cycle(counted_statement)]
fn count_else(total: usize, no: &Option<Box<Stmt>>) -> usize
    ensures { Counts total (else_kinds (else_behind no.now)) result }
{
    match no {
        None => total,
        Some(stmt) => {
            let total = count_keyword(total, ELSE);
            count_stmt(total, stmt)
        }
    }
}

// Counts what stands in a block.
#[cycle(counted_statement)]
fn count_block_items(mut total: usize, items: &[BlockItem]) -> usize
    ensures { Counts total (block_items_kinds (block_items_of items.now)) result }
{
    for item in items {
        total = count_block_item(total, item);
    }
    total
}

// Counts a declaration or a statement of a block.
#[cycle(counted_statement)]
fn count_block_item(total: usize, item: &BlockItem) -> usize
    ensures { Counts total (block_items_kinds (block_item_before item.now no_block_items)) result }
{
    match item {
        BlockItem::Declaration(decl) => count_decl(total, decl),
        BlockItem::Statement(stmt) => count_stmt(total, stmt),
    }
}

// Counts statements.
#[cycle(counted_statement)]
fn count_stmts(mut total: usize, stmts: &[Stmt]) -> usize
    ensures { Counts total (stmts_kinds (stmts_of stmts.now)) result }
{
    for stmt in stmts {
        total = count_stmt(total, stmt);
    }
    total
}

// Counts groups of a switch.
#[cycle(counted_statement)]
fn count_groups(mut total: usize, groups: &[Group]) -> usize
    ensures { Counts total (groups_kinds (groups_of groups.now)) result }
{
    for group in groups {
        total = count_group(total, group);
    }
    total
}

// Counts a group of a switch.
#[cycle(counted_statement)]
fn count_group(total: usize, group: &Group) -> usize
    ensures { Counts total (groups_kinds (group_before group.now no_groups)) result }
{
    let total = count_labels(total, &group.labels);
    count_stmts(total, &group.body)
}
