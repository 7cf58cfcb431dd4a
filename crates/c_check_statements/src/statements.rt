ghost use Rattle.std.specs.Prelude.{◌≡◌, ◌++◌, OnOk};
ghost use Rattle.c_check_bodies.specs.Named.{names_of_block_item, names_of_group};
ghost use Rattle.c_check_bodies.specs.Numbered.{HaveNumbers, next_of};
ghost use Rattle.c_check_declarations.specs.Agreement.{AgreesWith};
ghost use Rattle.c_check_bodies.specs.AroundView.{around_of};
ghost use Rattle.c_check_bodies.specs.LabelledView.{labelled_of};
ghost use Rattle.c_check_bodies.specs.StatementTreeView.{statement_trees_of, statement_tree_of};
ghost use Rattle.c_check_bodies.specs.Scoped.{Declares};
ghost use Rattle.c_rules.specs.Blocks.{after_stmt, after_stmts, held_by_block, held_by_groups, joined};
ghost use Rattle.c_rules.specs.Checked.{fine, on};
ghost use Rattle.c_rules.specs.Counts.{after, past};
ghost use Rattle.c_rules.specs.Statements.{groups_of_switch, items_of_block, stmt, stmts};
ghost use Rattle.c_rules.specs.Variables.{calls_of_block, calls_of_groups, names_of_block, names_of_first, names_of_groups, names_of_stmt, names_of_stmts, past_names};
ghost use Rattle.c_check_scopes.specs.View.{before_of, env_of};
ghost use Rattle.c_check_statements.specs.Listed.{after_item, behind_item, item_alone, stmts_in};
ghost use Rattle.c_check_statements.specs.Ruled.{after_for, for_inside, group_behind, tested};
ghost use Rattle.c_check_statements.specs.Two.{tested_of};
ghost use Rattle.c_syntax.specs.Tree.{block, do_loop, for_loop, switch_on, while_loop};
ghost use Rattle.c_syntax.specs.UnitView.{first_of_head, stmt_of};
ghost use Rattle.c_syntax.specs.View.{expr_behind, expr_of};
ghost use Rattle.c_syntax.specs.WritesUnit.{block_items_of, groups_of, stmts_of};
ghost use Rattle.c_tree.specs.Tree.{if_else as typed_if};
ghost use Rattle.c_tree.specs.View.{expr_of as tree_seen};

use crate::declarations::local_decl;
use crate::heads::{condition_of, evaluated, first_of, returned, switched_value, tests_of};
use crate::labels::labels_of;
use crate::loops::{do_loop, for_loop, while_loop};
use c_check_bodies::{
    Around, Labelled, Next, StatementTree, StatementTrees, all_found, alone, appended, bare, block,
    broken_off, continued, enter_block, found, group_added, if_else, in_loop, in_switch,
    label_type, leave_block, no_labelled, no_statements, only_if, pushed, switch_laid,
};
use c_check_declarations::CheckError;
use c_check_scopes::{Before, Environment};
use c_syntax::{BlockItem, Expr, ForFirst, Group, Stmt, StmtKind};
use c_tree::{IntType, TExpr, TStmt};
use std::alloc::Global;

/// What a statement gives (C99 6.8), where so much of the unit stands before it and its variables have the next numbers. Behind it the names
/// are those before it.
#[cycle(statement)]
pub fn statement<'t>(
    alloc: Global,
    env: &mut Environment<'t>,
    around: &Around<'_>,
    before: &mut Before<'t>,
    next: &mut Next,
    s: &'t Stmt,
) -> Result<StatementTree, CheckError>
    requires { HaveNumbers (next_of next.old) (names_of_stmt (stmt_of s.now)) }
    ensures judged { AgreesWith statement_tree_of result (stmt (env_of env.old) (around_of around.now) (before_of before.old) (next_of next.old) (stmt_of s.now)) }
    ensures counted { OnOk result (before_of before.new ≡ after_stmt (env_of env.old) (before_of before.old) (next_of next.old) (stmt_of s.now)) }
    ensures numbered { OnOk result (next_of next.new ≡ past_names (next_of next.old) (names_of_stmt (stmt_of s.now))) }
    ensures kept { OnOk result (env.new ≡ env.old) }
{
    match &s.kind {
        StmtKind::Block(items) => block_statement(alloc, env, around, before, next, items, s.at),
        StmtKind::Empty => found(bare(alloc, TStmt::Empty)),
        StmtKind::Expr(e) => evaluated(alloc, env, before, e),
        StmtKind::If { test, yes, no } => {
            let parts = tested(alloc, env, around, before, next, yes, s.at, test)?;
            let (test, yes) = parts;
            match no {
                Some(no) => else_part(alloc, env, around, before, next, no, test, yes),
                None => found(only_if(alloc, test, yes)),
            }
        }
        StmtKind::While { test, body } => {
            while_statement(alloc, env, around, before, next, body, s.at, test)
        }
        StmtKind::Do { body, test } => {
            do_statement(alloc, env, around, before, next, body, s.at, test)
        }
        StmtKind::For {
            first,
            test,
            step,
            body,
        } => for_statement(
            alloc, env, around, before, next, body, s.at, first, test, step,
        ),
        StmtKind::Switch { on, groups } => {
            switch_statement(alloc, env, around, before, next, groups, s.at, on)
        }
        StmtKind::Break => broken_off(alloc, around, s.at),
        StmtKind::Continue => continued(alloc, around, s.at),
        StmtKind::Return(e) => returned(alloc, env, before, around.returns, s.at, e),
    }
}

// A block, whose names have a scope of their own (C99 6.8.2).
#[cycle(statement)]
fn block_statement<'t>(
    alloc: Global,
    env: &mut Environment<'t>,
    around: &Around<'_>,
    before: &mut Before<'t>,
    next: &mut Next,
    items: &'t [BlockItem],
    at: u32,
) -> Result<StatementTree, CheckError>
    requires { HaveNumbers (next_of next.old) (names_of_block (block_items_of items.now)) }
    ensures judged { AgreesWith statement_tree_of result (stmt (env_of env.old) (around_of around.now) (before_of before.old) (next_of next.old) (block at (block_items_of items.now))) }
    ensures counted { OnOk result (before_of before.new ≡ after_stmt (env_of env.old) (before_of before.old) (next_of next.old) (block at (block_items_of items.now))) }
    ensures numbered { OnOk result (next_of next.new ≡ past_names (next_of next.old) (names_of_stmt (block at (block_items_of items.now)))) }
    ensures kept { OnOk result (env.new ≡ env.old) }
{
    let count = env.names.len();
    let depth = enter_block(env)?;
    let laid = items_of_block(alloc, env, around, before, next, items)?;
    leave_block(env, count, depth);
    found(block(alloc, laid))
}

// A condition and the statement behind it.
#[cycle(statement)]
fn tested<'t>(
    alloc: Global,
    env: &mut Environment<'t>,
    around: &Around<'_>,
    before: &mut Before<'t>,
    next: &mut Next,
    s: &'t Stmt,
    at: u32,
    test: &'t Expr,
) -> Result<(TExpr, StatementTree), CheckError>
    requires { HaveNumbers (next_of next.old) (names_of_stmt (stmt_of s.now)) }
    ensures judged { AgreesWith tested_of result (tested (env_of env.old) (around_of around.now) (before_of before.old) (next_of next.old) at (expr_of test.now) (stmt_of s.now)) }
    ensures counted { OnOk result (before_of before.new ≡ after_stmt (env_of env.old) (after (before_of before.old) (expr_of test.now)) (next_of next.old) (stmt_of s.now)) }
    ensures numbered { OnOk result (next_of next.new ≡ past_names (next_of next.old) (names_of_stmt (stmt_of s.now))) }
    ensures kept { OnOk result (env.new ≡ env.old) }
{
    let condition = condition_of(alloc, env, before, at, test)?;
    let laid = statement(alloc, env, around, before, next, s)?;
    Ok((condition, laid))
}

// What stands behind `else`, with what stands before it (C99 6.8.4.1).
#[cycle(statement)]
fn else_part<'t>(
    alloc: Global,
    env: &mut Environment<'t>,
    around: &Around<'_>,
    before: &mut Before<'t>,
    next: &mut Next,
    s: &'t Stmt,
    test: TExpr,
    yes: StatementTree,
) -> Result<StatementTree, CheckError>
    requires { HaveNumbers (next_of next.old) (names_of_stmt (stmt_of s.now)) }
    ensures judged { AgreesWith statement_tree_of result (on (stmt (env_of env.old) (around_of around.now) (before_of before.old) (next_of next.old) (stmt_of s.now)) (λ q. fine (joined (statement_tree_of yes) q (typed_if (tree_seen test) (statement_tree_of yes).tree q.tree)))) }
    ensures counted { OnOk result (before_of before.new ≡ after_stmt (env_of env.old) (before_of before.old) (next_of next.old) (stmt_of s.now)) }
    ensures numbered { OnOk result (next_of next.new ≡ past_names (next_of next.old) (names_of_stmt (stmt_of s.now))) }
    ensures kept { OnOk result (env.new ≡ env.old) }
{
    let no = statement(alloc, env, around, before, next, s)?;
    found(if_else(alloc, test, yes, no))
}

// A `while` (C99 6.8.5.1).
#[cycle(statement)]
fn while_statement<'t>(
    alloc: Global,
    env: &mut Environment<'t>,
    around: &Around<'_>,
    before: &mut Before<'t>,
    next: &mut Next,
    body: &'t Stmt,
    at: u32,
    test: &'t Expr,
) -> Result<StatementTree, CheckError>
    requires { HaveNumbers (next_of next.old) (names_of_stmt (stmt_of body.now)) }
    ensures judged { AgreesWith statement_tree_of result (stmt (env_of env.old) (around_of around.now) (before_of before.old) (next_of next.old) (while_loop at (expr_of test.now) (stmt_of body.now))) }
    ensures counted { OnOk result (before_of before.new ≡ after_stmt (env_of env.old) (before_of before.old) (next_of next.old) (while_loop at (expr_of test.now) (stmt_of body.now))) }
    ensures numbered { OnOk result (next_of next.new ≡ past_names (next_of next.old) (names_of_stmt (while_loop at (expr_of test.now) (stmt_of body.now)))) }
    ensures kept { OnOk result (env.new ≡ env.old) }
{
    let inner = in_loop(around);
    let parts = tested(alloc, env, &inner, before, next, body, at, test)?;
    let (condition, laid) = parts;
    found(while_loop(alloc, condition, laid))
}

// A `do` (C99 6.8.5.2).
#[cycle(statement)]
fn do_statement<'t>(
    alloc: Global,
    env: &mut Environment<'t>,
    around: &Around<'_>,
    before: &mut Before<'t>,
    next: &mut Next,
    body: &'t Stmt,
    at: u32,
    test: &'t Expr,
) -> Result<StatementTree, CheckError>
    requires { HaveNumbers (next_of next.old) (names_of_stmt (stmt_of body.now)) }
    ensures judged { AgreesWith statement_tree_of result (stmt (env_of env.old) (around_of around.now) (before_of before.old) (next_of next.old) (do_loop at (stmt_of body.now) (expr_of test.now))) }
    ensures counted { OnOk result (before_of before.new ≡ after_stmt (env_of env.old) (before_of before.old) (next_of next.old) (do_loop at (stmt_of body.now) (expr_of test.now))) }
    ensures numbered { OnOk result (next_of next.new ≡ past_names (next_of next.old) (names_of_stmt (do_loop at (stmt_of body.now) (expr_of test.now)))) }
    ensures kept { OnOk result (env.new ≡ env.old) }
{
    let inner = in_loop(around);
    let laid = statement(alloc, env, &inner, before, next, body)?;
    let condition = condition_of(alloc, env, before, at, test)?;
    found(do_loop(alloc, laid, condition))
}

// A `for`: what is declared in its head has a scope of its own, round the body (C99 6.8.5.3).
#[cycle(statement)]
fn for_statement<'t>(
    alloc: Global,
    env: &mut Environment<'t>,
    around: &Around<'_>,
    before: &mut Before<'t>,
    next: &mut Next,
    body: &'t Stmt,
    at: u32,
    first: &'t ForFirst,
    test: &'t Option<Box<Expr>>,
    step: &'t Option<Box<Expr>>,
) -> Result<StatementTree, CheckError>
    requires { HaveNumbers (next_of next.old) (names_of_first (first_of_head first.now) ++ names_of_stmt (stmt_of body.now)) }
    ensures judged { AgreesWith statement_tree_of result (stmt (env_of env.old) (around_of around.now) (before_of before.old) (next_of next.old) (for_loop at (first_of_head first.now) (expr_behind test.now) (expr_behind step.now) (stmt_of body.now))) }
    ensures counted { OnOk result (before_of before.new ≡ after_stmt (env_of env.old) (before_of before.old) (next_of next.old) (for_loop at (first_of_head first.now) (expr_behind test.now) (expr_behind step.now) (stmt_of body.now))) }
    ensures numbered { OnOk result (next_of next.new ≡ past_names (next_of next.old) (names_of_stmt (for_loop at (first_of_head first.now) (expr_behind test.now) (expr_behind step.now) (stmt_of body.now)))) }
    ensures kept { OnOk result (env.new ≡ env.old) }
{
    let count = env.names.len();
    let depth = enter_block(env)?;
    let laid = for_parts(
        alloc, env, around, before, next, body, at, first, test, step,
    )?;
    leave_block(env, count, depth);
    Ok(laid)
}

// A `for` in the scope of its head.
#[cycle(statement)]
fn for_parts<'t>(
    alloc: Global,
    env: &mut Environment<'t>,
    around: &Around<'_>,
    before: &mut Before<'t>,
    next: &mut Next,
    body: &'t Stmt,
    at: u32,
    first: &'t ForFirst,
    test: &'t Option<Box<Expr>>,
    step: &'t Option<Box<Expr>>,
) -> Result<StatementTree, CheckError>
    requires { HaveNumbers (next_of next.old) (names_of_first (first_of_head first.now) ++ names_of_stmt (stmt_of body.now)) }
    ensures judged { AgreesWith statement_tree_of result (for_inside (env_of env.old) (around_of around.now) (before_of before.old) (next_of next.old) at (first_of_head first.now) (expr_behind test.now) (expr_behind step.now) (stmt_of body.now)) }
    ensures counted { OnOk result (before_of before.new ≡ after_for (env_of env.old) (before_of before.old) (next_of next.old) (first_of_head first.now) (expr_behind test.now) (expr_behind step.now) (stmt_of body.now)) }
    ensures numbered { OnOk result (next_of next.new ≡ past_names (next_of next.old) (names_of_first (first_of_head first.now) ++ names_of_stmt (stmt_of body.now))) }
    ensures kept { OnOk result (Declares env.old env.new) }
{
    let head = first_of(alloc, env, before, next, first)?;
    let tests = tests_of(alloc, env, before, at, test, step)?;
    let (test, step) = tests;
    let inner = in_loop(around);
    let laid = statement(alloc, env, &inner, before, next, body)?;
    found(for_loop(alloc, head, test, step, laid))
}

// A `switch` (C99 6.8.4.2).
#[cycle(statement)]
fn switch_statement<'t>(
    alloc: Global,
    env: &mut Environment<'t>,
    around: &Around<'_>,
    before: &mut Before<'t>,
    next: &mut Next,
    groups: &'t [Group],
    at: u32,
    e: &'t Expr,
) -> Result<StatementTree, CheckError>
    requires { HaveNumbers (next_of next.old) (names_of_groups (groups_of groups.now)) }
    ensures judged { AgreesWith statement_tree_of result (stmt (env_of env.old) (around_of around.now) (before_of before.old) (next_of next.old) (switch_on at (expr_of e.now) (groups_of groups.now))) }
    ensures counted { OnOk result (before_of before.new ≡ after_stmt (env_of env.old) (before_of before.old) (next_of next.old) (switch_on at (expr_of e.now) (groups_of groups.now))) }
    ensures numbered { OnOk result (next_of next.new ≡ past_names (next_of next.old) (names_of_stmt (switch_on at (expr_of e.now) (groups_of groups.now)))) }
    ensures kept { OnOk result (env.new ≡ env.old) }
{
    let on = switched_value(alloc, env, before, at, e)?;
    let inner = in_switch(around);
    let i = label_type(&on.ctype);
    let laid = groups_of_switch(alloc, env, &inner, before, next, groups, i)?;
    switch_laid(alloc, at, on, laid)
}

// Declarations and statements of a block; the names of its variables stay declared.
#[cycle(statement)]
pub fn items_of_block<'t>(
    alloc: Global,
    env: &mut Environment<'t>,
    around: &Around<'_>,
    before: &mut Before<'t>,
    next: &mut Next,
    items: &'t [BlockItem],
) -> Result<StatementTrees, CheckError>
    requires { HaveNumbers (next_of next.old) (names_of_block (block_items_of items.now)) }
    ensures judged { AgreesWith statement_trees_of result (items_of_block (env_of env.old) (around_of around.now) (before_of before.old) (next_of next.old) (block_items_of items.now)) }
    ensures counted { OnOk result (before_of before.new ≡ past (before_of before.old) (calls_of_block (block_items_of items.now)) (held_by_block (env_of env.old) (next_of next.old) (block_items_of items.now))) }
    ensures numbered { OnOk result (next_of next.new ≡ past_names (next_of next.old) (names_of_block (block_items_of items.now))) }
    ensures kept { OnOk result (Declares env.old env.new) }
{
    let mut laid = no_statements(alloc);
    for item in items {
        let one = block_item(alloc, env, around, before, next, item)?;
        laid = appended(laid, one)?;
    }
    Ok(laid)
}

// One declaration or statement of a block.
#[cycle(statement)]
fn block_item<'t>(
    alloc: Global,
    env: &mut Environment<'t>,
    around: &Around<'_>,
    before: &mut Before<'t>,
    next: &mut Next,
    item: &'t BlockItem,
) -> Result<StatementTrees, CheckError>
    requires { HaveNumbers (next_of next.old) (names_of_block_item item.now) }
    ensures judged { AgreesWith statement_trees_of result (item_alone (env_of env.old) (around_of around.now) (before_of before.old) (next_of next.old) item.now) }
    ensures counted { OnOk result (before_of before.new ≡ after_item (env_of env.old) (before_of before.old) (next_of next.old) item.now) }
    ensures meant { OnOk result (env_of env.new ≡ behind_item (env_of env.old) (next_of next.old) item.now) }
    ensures numbered { OnOk result (next_of next.new ≡ past_names (next_of next.old) (names_of_block_item item.now)) }
    ensures kept { OnOk result (Declares env.old env.new) }
{
    match item {
        BlockItem::Declaration(decl) => local_decl(alloc, env, before, next, decl),
        BlockItem::Statement(s) => {
            let one = statement(alloc, env, around, before, next, s)?;
            all_found(alone(alloc, one))
        }
    }
}

// Statements alone.
#[cycle(statement)]
fn statements<'t>(
    alloc: Global,
    env: &mut Environment<'t>,
    around: &Around<'_>,
    before: &mut Before<'t>,
    next: &mut Next,
    ss: &'t [Stmt],
) -> Result<StatementTrees, CheckError>
    requires { HaveNumbers (next_of next.old) (names_of_stmts (stmts_of ss.now)) }
    ensures judged { AgreesWith statement_trees_of result (stmts (env_of env.old) (around_of around.now) (before_of before.old) (next_of next.old) (stmts_of ss.now)) }
    ensures counted { OnOk result (before_of before.new ≡ after_stmts (env_of env.old) (before_of before.old) (next_of next.old) (stmts_of ss.now)) }
    ensures numbered { OnOk result (next_of next.new ≡ past_names (next_of next.old) (names_of_stmts (stmts_of ss.now))) }
    ensures kept { OnOk result (env.new ≡ env.old) }
{
    let mut laid = no_statements(alloc);
    for s in ss {
        let one = statement(alloc, env, around, before, next, s)?;
        laid = pushed(laid, one)?;
    }
    Ok(laid)
}

// Labels and statements of a switch on values of this type.
#[cycle(statement)]
fn groups_of_switch<'t>(
    alloc: Global,
    env: &mut Environment<'t>,
    around: &Around<'_>,
    before: &mut Before<'t>,
    next: &mut Next,
    groups: &'t [Group],
    i: IntType,
) -> Result<Labelled, CheckError>
    requires { HaveNumbers (next_of next.old) (names_of_groups (groups_of groups.now)) }
    ensures judged { AgreesWith labelled_of result (groups_of_switch (env_of env.old) (around_of around.now) (before_of before.old) (next_of next.old) i (groups_of groups.now)) }
    ensures counted { OnOk result (before_of before.new ≡ past (before_of before.old) (calls_of_groups (groups_of groups.now)) (held_by_groups (env_of env.old) (next_of next.old) (groups_of groups.now))) }
    ensures numbered { OnOk result (next_of next.new ≡ past_names (next_of next.old) (names_of_groups (groups_of groups.now))) }
    ensures kept { OnOk result (env.new ≡ env.old) }
{
    let mut laid = no_labelled(alloc);
    for group in groups {
        laid = group_behind(alloc, env, around, before, next, group, i, laid)?;
    }
    Ok(laid)
}

// Groups of a switch, and one behind them.
#[cycle(statement)]
fn group_behind<'t>(
    alloc: Global,
    env: &mut Environment<'t>,
    around: &Around<'_>,
    before: &mut Before<'t>,
    next: &mut Next,
    group: &'t Group,
    i: IntType,
    done: Labelled,
) -> Result<Labelled, CheckError>
    requires { HaveNumbers (next_of next.old) (names_of_group group.now) }
    ensures judged { AgreesWith labelled_of result (group_behind (env_of env.old) (around_of around.now) (before_of before.old) (next_of next.old) i (labelled_of done) group.now) }
    ensures counted { OnOk result (before_of before.new ≡ after_stmts (env_of env.old) (before_of before.old) (next_of next.old) (stmts_in group.now)) }
    ensures numbered { OnOk result (next_of next.new ≡ past_names (next_of next.old) (names_of_group group.now)) }
    ensures kept { OnOk result (env.new ≡ env.old) }
{
    let labels = labels_of(alloc, env, i, &group.labels)?;
    let body = statements(alloc, env, around, before, next, &group.body)?;
    Ok(group_added(done, labels, body)?)
}
