ghost use Rattle.std.specs.Prelude.{◌≡◌, IfOk, OnOk};
ghost use Rattle.c_check_bodies.specs.Numbered.{HaveNumbers, next_of};
ghost use Rattle.c_check_declarations.specs.Agreement.{AgreesWith};
ghost use Rattle.c_check_declarations.specs.TypedExpressionView.{typed_expression_of};
ghost use Rattle.c_check_bodies.specs.StatementTreeView.{statement_trees_of, statement_tree_of};
ghost use Rattle.c_check_bodies.specs.Scoped.{Declares};
ghost use Rattle.c_rules.specs.Blocks.{after_first, alone, bare, behind_first};
ghost use Rattle.c_rules.specs.Checked.{beside, gives};
ghost use Rattle.c_rules.specs.Counts.{after, after_maybe};
ghost use Rattle.c_rules.specs.Expressions.{value};
ghost use Rattle.c_rules.specs.TypedExpression.{tree_of};
ghost use Rattle.c_rules.specs.Statements.{condition_at, first_of, returned, step_of, switched, test_of};
ghost use Rattle.c_rules.specs.Variables.{names_of_first, past_names};
ghost use Rattle.c_check_scopes.specs.View.{before_of, env_of};
ghost use Rattle.c_check_statements.specs.Two.{two_of};
ghost use Rattle.c_syntax.specs.Tree.{there};
ghost use Rattle.c_syntax.specs.UnitView.{first_of_head};
ghost use Rattle.c_syntax.specs.View.{expr_behind, expr_of};
ghost use Rattle.c_tree.specs.Tree.{evaluate};
ghost use Rattle.c_tree.specs.View.{ctype_of, expr_of as tree_seen, maybe_of as maybe_seen};

use crate::declarations::local_decl;
use c_check_bodies::{
    Next, StatementTree, StatementTrees, all_found, alone, bare, found, no_statements,
    returned_value, returned_void, switched,
};
use c_check_declarations::{CheckError, TypedExpression, condition};
use c_check_expressions::value;
use c_check_scopes::{Before, Environment};
use c_syntax::{Expr, ForFirst};
use c_tree::{CType, TExpr, TStmt};
use dm_base::OutOfMemory;
use std::alloc::Global;

// A condition.
pub fn condition_of<'t>(
    alloc: Global,
    env: &mut Environment<'t>,
    before: &mut Before<'t>,
    at: u32,
    e: &'t Expr,
) -> Result<TExpr, CheckError>
    ensures judged { AgreesWith tree_seen result (condition_at at (value (env_of env.old) (before_of before.old) (expr_of e.now))) }
    ensures counted { OnOk result (before_of before.new ≡ after (before_of before.old) (expr_of e.now)) }
    ensures kept { OnOk result (env.new ≡ env.old) }
{
    let given = value(alloc, env, before, e)?;
    condition(alloc, at, given)
}

// An expression that is evaluated for its effects.
fn value_tree<'t>(
    alloc: Global,
    env: &mut Environment<'t>,
    before: &mut Before<'t>,
    e: &'t Expr,
) -> Result<TExpr, CheckError>
    ensures judged { AgreesWith tree_seen result (gives (value (env_of env.old) (before_of before.old) (expr_of e.now)) tree_of) }
    ensures counted { OnOk result (before_of before.new ≡ after (before_of before.old) (expr_of e.now)) }
    ensures kept { OnOk result (env.new ≡ env.old) }
{
    let given = value(alloc, env, before, e)?;
    Ok(given.into_tree(alloc)?)
}

// A condition that may be left out.
fn test_of<'t>(
    alloc: Global,
    env: &mut Environment<'t>,
    before: &mut Before<'t>,
    at: u32,
    e: &'t Option<Box<Expr>>,
) -> Result<Option<Box<TExpr>>, CheckError>
    ensures judged { AgreesWith maybe_seen result (test_of (env_of env.old) (before_of before.old) at (expr_behind e.now)) }
    ensures counted { OnOk result (before_of before.new ≡ after_maybe (before_of before.old) (expr_behind e.now)) }
    ensures kept { OnOk result (env.new ≡ env.old) }
{
    match e {
        Some(e) => {
            let test = condition_of(alloc, env, before, at, e)?;
            Ok(Some(Box::new(alloc, test)?))
        }
        None => Ok(None),
    }
}

// An expression that may be left out.
fn step_of<'t>(
    alloc: Global,
    env: &mut Environment<'t>,
    before: &mut Before<'t>,
    e: &'t Option<Box<Expr>>,
) -> Result<Option<Box<TExpr>>, CheckError>
    ensures judged { AgreesWith maybe_seen result (step_of (env_of env.old) (before_of before.old) (expr_behind e.now)) }
    ensures counted { OnOk result (before_of before.new ≡ after_maybe (before_of before.old) (expr_behind e.now)) }
    ensures kept { OnOk result (env.new ≡ env.old) }
{
    match e {
        Some(e) => {
            let step = value_tree(alloc, env, before, e)?;
            Ok(Some(Box::new(alloc, step)?))
        }
        None => Ok(None),
    }
}

// The condition and the step of a `for`.
pub fn tests_of<'t>(
    alloc: Global,
    env: &mut Environment<'t>,
    before: &mut Before<'t>,
    at: u32,
    test: &'t Option<Box<Expr>>,
    step: &'t Option<Box<Expr>>,
) -> Result<(Option<Box<TExpr>>, Option<Box<TExpr>>), CheckError>
    ensures judged { AgreesWith two_of result (beside (test_of (env_of env.old) (before_of before.old) at (expr_behind test.now)) (step_of (env_of env.old) (after_maybe (before_of before.old) (expr_behind test.now)) (expr_behind step.now))) }
    ensures counted { OnOk result (before_of before.new ≡ after_maybe (after_maybe (before_of before.old) (expr_behind test.now)) (expr_behind step.now)) }
    ensures kept { OnOk result (env.new ≡ env.old) }
{
    let first = test_of(alloc, env, before, at, test)?;
    let second = step_of(alloc, env, before, step)?;
    Ok((first, second))
}

// An expression with this tree as a statement.
fn expression_statement(alloc: Global, tree: TExpr) -> Result<StatementTree, OutOfMemory>
    ensures { IfOk result (λ l. statement_tree_of l ≡ bare (evaluate (tree_seen tree))) }
{
    let e = Box::new(alloc, tree)?;
    bare(alloc, TStmt::Expr(e))
}

// An expression as a statement (C99 6.8.3).
pub fn evaluated<'t>(
    alloc: Global,
    env: &mut Environment<'t>,
    before: &mut Before<'t>,
    e: &'t Expr,
) -> Result<StatementTree, CheckError>
    ensures judged { AgreesWith statement_tree_of result (gives (value (env_of env.old) (before_of before.old) (expr_of e.now)) (λ g. bare (evaluate (tree_of g)))) }
    ensures counted { OnOk result (before_of before.new ≡ after (before_of before.old) (expr_of e.now)) }
    ensures kept { OnOk result (env.new ≡ env.old) }
{
    let tree = value_tree(alloc, env, before, e)?;
    found(expression_statement(alloc, tree))
}

// The same in the head of a `for`.
fn evaluated_first<'t>(
    alloc: Global,
    env: &mut Environment<'t>,
    before: &mut Before<'t>,
    e: &'t Expr,
) -> Result<StatementTrees, CheckError>
    ensures judged { AgreesWith statement_trees_of result (gives (value (env_of env.old) (before_of before.old) (expr_of e.now)) (λ g. alone (bare (evaluate (tree_of g))))) }
    ensures counted { OnOk result (before_of before.new ≡ after (before_of before.old) (expr_of e.now)) }
    ensures kept { OnOk result (env.new ≡ env.old) }
{
    let one = evaluated(alloc, env, before, e)?;
    all_found(alone(alloc, one))
}

// What stands first in the head of a `for` (C99 6.8.5.3).
pub fn first_of<'t>(
    alloc: Global,
    env: &mut Environment<'t>,
    before: &mut Before<'t>,
    next: &mut Next,
    first: &'t ForFirst,
) -> Result<StatementTrees, CheckError>
    requires { HaveNumbers (next_of next.old) (names_of_first (first_of_head first.now)) }
    ensures judged { AgreesWith statement_trees_of result (first_of (env_of env.old) (before_of before.old) (next_of next.old) (first_of_head first.now)) }
    ensures counted { OnOk result (before_of before.new ≡ after_first (env_of env.old) (before_of before.old) (next_of next.old) (first_of_head first.now)) }
    ensures meant { OnOk result (env_of env.new ≡ behind_first (env_of env.old) (next_of next.old) (first_of_head first.now)) }
    ensures numbered { OnOk result (next_of next.new ≡ past_names (next_of next.old) (names_of_first (first_of_head first.now))) }
    ensures kept { OnOk result (Declares env.old env.new) }
{
    match first {
        ForFirst::Absent => Ok(no_statements(alloc)),
        ForFirst::Expr(e) => evaluated_first(alloc, env, before, e),
        ForFirst::Declaration(decl) => local_decl(alloc, env, before, next, decl),
    }
}

// What a switch compares with its labels.
pub fn switched_value<'t>(
    alloc: Global,
    env: &mut Environment<'t>,
    before: &mut Before<'t>,
    at: u32,
    e: &'t Expr,
) -> Result<TypedExpression, CheckError>
    ensures judged { AgreesWith typed_expression_of result (switched at (value (env_of env.old) (before_of before.old) (expr_of e.now))) }
    ensures counted { OnOk result (before_of before.new ≡ after (before_of before.old) (expr_of e.now)) }
    ensures kept { OnOk result (env.new ≡ env.old) }
{
    let given = value(alloc, env, before, e)?;
    switched(alloc, at, given)
}

// A `return` with a value.
fn return_of_value<'t>(
    alloc: Global,
    env: &mut Environment<'t>,
    before: &mut Before<'t>,
    returns: &CType,
    at: u32,
    e: &'t Expr,
) -> Result<StatementTree, CheckError>
    ensures judged { AgreesWith statement_tree_of result (gives (returned (env_of env.old) (before_of before.old) at (ctype_of returns.now) (there (expr_of e.now))) bare) }
    ensures counted { OnOk result (before_of before.new ≡ after (before_of before.old) (expr_of e.now)) }
    ensures kept { OnOk result (env.new ≡ env.old) }
{
    let given = value(alloc, env, before, e)?;
    returned_value(alloc, returns, at, given)
}

// A `return` (C99 6.8.6.4).
pub fn returned<'t>(
    alloc: Global,
    env: &mut Environment<'t>,
    before: &mut Before<'t>,
    returns: &CType,
    at: u32,
    e: &'t Option<Box<Expr>>,
) -> Result<StatementTree, CheckError>
    ensures judged { AgreesWith statement_tree_of result (gives (returned (env_of env.old) (before_of before.old) at (ctype_of returns.now) (expr_behind e.now)) bare) }
    ensures counted { OnOk result (before_of before.new ≡ after_maybe (before_of before.old) (expr_behind e.now)) }
    ensures kept { OnOk result (env.new ≡ env.old) }
{
    match e {
        Some(e) => return_of_value(alloc, env, before, returns, at, e),
        None => returned_void(alloc, returns, at),
    }
}
