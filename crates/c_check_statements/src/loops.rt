ghost use Rattle.std.specs.Prelude.{◌≡◌, IfOk};
ghost use Rattle.c_check_bodies.specs.StatementTreeView.{statement_trees_of, statement_tree_of};
ghost use Rattle.c_rules.specs.Blocks.{joined, with_tree};
ghost use Rattle.c_tree.specs.Tree.{do_loop, for_loop, while_loop};
ghost use Rattle.c_tree.specs.View.{expr_of, maybe_of};

use c_check_bodies::{StatementTree, StatementTrees, variables_of_both, with_variables};
use c_tree::{TExpr, TStmt};
use dm_base::OutOfMemory;
use std::alloc::Global;

/// A `while` (C99 6.8.5.1).
pub fn while_loop(
    alloc: Global,
    test: TExpr,
    body: StatementTree,
) -> Result<StatementTree, OutOfMemory>
    ensures { IfOk result (λ l. statement_tree_of l ≡ with_tree (statement_tree_of body) (while_loop (expr_of test) (statement_tree_of body).tree)) }
{
    let test = Box::new(alloc, test)?;
    let (tree, variables) = body.into_parts();
    with_variables(alloc, TStmt::While { test, body: tree }, variables)
}

/// A `do` (C99 6.8.5.2).
pub fn do_loop(
    alloc: Global,
    body: StatementTree,
    test: TExpr,
) -> Result<StatementTree, OutOfMemory>
    ensures { IfOk result (λ l. statement_tree_of l ≡ with_tree (statement_tree_of body) (do_loop (statement_tree_of body).tree (expr_of test))) }
{
    let test = Box::new(alloc, test)?;
    let (tree, variables) = body.into_parts();
    with_variables(alloc, TStmt::Do { body: tree, test }, variables)
}

/// A `for` (C99 6.8.5.3).
pub fn for_loop(
    alloc: Global,
    first: StatementTrees,
    test: Option<Box<TExpr>>,
    step: Option<Box<TExpr>>,
    body: StatementTree,
) -> Result<StatementTree, OutOfMemory>
    ensures { IfOk result (λ l. statement_tree_of l ≡ joined (statement_trees_of first) (statement_tree_of body) (for_loop (statement_trees_of first).tree (maybe_of test) (maybe_of step) (statement_tree_of body).tree)) }
{
    let (trees, variables) = first.into_parts();
    let (tree, others) = body.into_parts();
    let all = variables_of_both(variables, others)?;
    with_variables(
        alloc,
        TStmt::For {
            first: trees,
            test,
            step,
            body: tree,
        },
        all,
    )
}
