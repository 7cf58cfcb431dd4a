// Statements (C99 6.8).

ghost use Rattle.std.specs.Prelude.{IfOk};
ghost use Rattle.c_syntax.specs.UnitView.{first_of_head, stmt_of, block_item_before, group_before};
ghost use Rattle.c_syntax.specs.WritesUnit.{block_items_of, stmts_of, groups_of};
ghost use Rattle.null_calls_expressions.specs.Sited.{sited};
ghost use Rattle.null_calls_expressions.specs.Marked.{IsMarked, IsMarkedBefore, reached, of_first, of_stmt, of_block, of_stmts, of_groups};

use crate::declarations::{declaration, maybe, value};
use crate::statement_nodes::{
    block_node, do_node, evaluation_node, for_node, group_node, if_else_node, if_node, switch_node,
    while_node,
};
use c_syntax::{BlockItem, ForFirst, Group, Stmt, StmtKind};
use dm_base::OutOfMemory;
use dm_counts::Count;
use null_calls_expressions::{MarkedSites, Temporary, copy_labels};
use std::alloc::Global;

// What stands first in the head of a for; the value of an expression there isn't wanted.
fn head<'p>(
    alloc: Global,
    table: &MarkedSites<'p>,
    f: &ForFirst,
    next: &mut Count,
    kept: &mut Vec<Temporary<'p>>,
) -> Result<ForFirst, OutOfMemory>
    ensures { IfOk result (λ made. IsMarked (of_first (sited table.now)) (reached next.old kept.old.items) (reached next.new kept.new.items) (first_of_head f.now) (first_of_head made)) }
{
    match f {
        ForFirst::Absent => Ok(ForFirst::Absent),
        ForFirst::Expr(e) => {
            let made = value(alloc, table, false, e, next, kept)?;
            let boxed = Box::new(alloc, made)?;
            Ok(ForFirst::Expr(boxed))
        }
        ForFirst::Declaration(d) => {
            let made = declaration(alloc, table, d, next, kept)?;
            Ok(ForFirst::Declaration(made))
        }
    }
}

// The statement with null calls round its marked calls, where `next` calls stand before it in the unit. The temporaries of its marked
// calls are added to `kept`, and its calls to `next`.
#[cycle(statements)]
pub fn statement<'p>(
    alloc: Global,
    table: &MarkedSites<'p>,
    s: &Stmt,
    next: &mut Count,
    kept: &mut Vec<Temporary<'p>>,
) -> Result<Stmt, OutOfMemory>
    ensures { IfOk result (λ made. IsMarked (of_stmt (sited table.now)) (reached next.old kept.old.items) (reached next.new kept.new.items) (stmt_of s.now) (stmt_of made)) }
{
    let at = s.at;
    match &s.kind {
        StmtKind::Block(list) => {
            let made = block_items(alloc, table, list, next, kept)?;
            Ok(block_node(at, made))
        }
        StmtKind::Empty => Ok(Stmt {
            at,
            kind: StmtKind::Empty,
        }),
        StmtKind::Expr(e) => {
            let made = value(alloc, table, false, e, next, kept)?;
            evaluation_node(alloc, at, made)
        }
        StmtKind::If { test, yes, no } => {
            let made = value(alloc, table, true, test, next, kept)?;
            let first = statement(alloc, table, yes, next, kept)?;
            match no {
                Some(no) => {
                    let other = statement(alloc, table, no, next, kept)?;
                    if_else_node(alloc, at, made, first, other)
                }
                None => if_node(alloc, at, made, first),
            }
        }
        StmtKind::While { test, body } => {
            let made = value(alloc, table, true, test, next, kept)?;
            let turn = statement(alloc, table, body, next, kept)?;
            while_node(alloc, at, made, turn)
        }
        StmtKind::Do { body, test } => {
            let turn = statement(alloc, table, body, next, kept)?;
            let made = value(alloc, table, true, test, next, kept)?;
            do_node(alloc, at, turn, made)
        }
        StmtKind::For {
            first,
            test,
            step,
            body,
        } => {
            let begin = head(alloc, table, first, next, kept)?;
            let tested = maybe(alloc, table, true, test, next, kept)?;
            let stepped = maybe(alloc, table, false, step, next, kept)?;
            let turn = statement(alloc, table, body, next, kept)?;
            for_node(alloc, at, begin, tested, stepped, turn)
        }
        StmtKind::Switch { on, groups } => {
            let made = value(alloc, table, true, on, next, kept)?;
            let all = group_list(alloc, table, groups, next, kept)?;
            switch_node(alloc, at, made, all)
        }
        StmtKind::Break => Ok(Stmt {
            at,
            kind: StmtKind::Break,
        }),
        StmtKind::Continue => Ok(Stmt {
            at,
            kind: StmtKind::Continue,
        }),
        StmtKind::Return(e) => {
            let made = maybe(alloc, table, true, e, next, kept)?;
            Ok(Stmt {
                at,
                kind: StmtKind::Return(made),
            })
        }
    }
}

// The items of a block.
#[cycle(statements)]
pub fn block_items<'p>(
    alloc: Global,
    table: &MarkedSites<'p>,
    list: &[BlockItem],
    next: &mut Count,
    kept: &mut Vec<Temporary<'p>>,
) -> Result<Vec<BlockItem>, OutOfMemory>
    ensures { IfOk result (λ made. IsMarked (of_block (sited table.now)) (reached next.old kept.old.items) (reached next.new kept.new.items) (block_items_of list.now) (block_items_of made.items)) }
{
    let mut made = Vec::new(alloc);
    for k in 0..list.len() {
        let one = block_item(alloc, table, &list[k], next, kept)?;
        made.push(one)?;
    }
    Ok(made)
}

#[cycle(statements)]
fn block_item<'p>(
    alloc: Global,
    table: &MarkedSites<'p>,
    x: &BlockItem,
    next: &mut Count,
    kept: &mut Vec<Temporary<'p>>,
) -> Result<BlockItem, OutOfMemory>
    ensures { IfOk result (λ made. IsMarkedBefore (of_block (sited table.now)) (reached next.old kept.old.items) (reached next.new kept.new.items) (block_item_before x.now) (block_item_before made)) }
{
    match x {
        BlockItem::Declaration(d) => {
            let made = declaration(alloc, table, d, next, kept)?;
            Ok(BlockItem::Declaration(made))
        }
        BlockItem::Statement(s) => {
            let made = statement(alloc, table, s, next, kept)?;
            Ok(BlockItem::Statement(made))
        }
    }
}

#[cycle(statements)]
fn statement_list<'p>(
    alloc: Global,
    table: &MarkedSites<'p>,
    list: &[Stmt],
    next: &mut Count,
    kept: &mut Vec<Temporary<'p>>,
) -> Result<Vec<Stmt>, OutOfMemory>
    ensures { IfOk result (λ made. IsMarked (of_stmts (sited table.now)) (reached next.old kept.old.items) (reached next.new kept.new.items) (stmts_of list.now) (stmts_of made.items)) }
{
    let mut made = Vec::new(alloc);
    for k in 0..list.len() {
        let one = statement(alloc, table, &list[k], next, kept)?;
        made.push(one)?;
    }
    Ok(made)
}

#[cycle(statements)]
fn group_list<'p>(
    alloc: Global,
    table: &MarkedSites<'p>,
    list: &[Group],
    next: &mut Count,
    kept: &mut Vec<Temporary<'p>>,
) -> Result<Vec<Group>, OutOfMemory>
    ensures { IfOk result (λ made. IsMarked (of_groups (sited table.now)) (reached next.old kept.old.items) (reached next.new kept.new.items) (groups_of list.now) (groups_of made.items)) }
{
    let mut made = Vec::new(alloc);
    for k in 0..list.len() {
        let one = one_group(alloc, table, &list[k], next, kept)?;
        made.push(one)?;
    }
    Ok(made)
}

#[cycle(statements)]
fn one_group<'p>(
    alloc: Global,
    table: &MarkedSites<'p>,
    g: &Group,
    next: &mut Count,
    kept: &mut Vec<Temporary<'p>>,
) -> Result<Group, OutOfMemory>
    ensures { IfOk result (λ made. IsMarkedBefore (of_groups (sited table.now)) (reached next.old kept.old.items) (reached next.new kept.new.items) (group_before g.now) (group_before made)) }
{
    let labels = copy_labels(alloc, &g.labels)?;
    let body = statement_list(alloc, table, &g.body, next, kept)?;
    Ok(group_node(labels, body))
}
