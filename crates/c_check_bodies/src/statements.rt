ghost use Rattle.std.specs.Prelude.{◌≡◌, IfOk};
ghost use Rattle.c_check_bodies.specs.StatementTreeView.{statement_trees_of, statement_tree_of};
ghost use Rattle.c_rules.specs.Blocks.{joined, with_tree};
ghost use Rattle.c_tree.specs.Tree.{block, empty, if_else};
ghost use Rattle.c_tree.specs.View.{expr_of};

use crate::statement_tree::{StatementTree, StatementTrees, variables_of_both, with_variables};
use c_tree::{TExpr, TStmt};
use dm_base::OutOfMemory;
use std::alloc::Global;

/// A block (C99 6.8.2).
pub fn block(alloc: Global, items: StatementTrees) -> Result<StatementTree, OutOfMemory>
    ensures { IfOk result (λ l. statement_tree_of l ≡ with_tree (statement_trees_of items) (block (statement_trees_of items).tree)) }
{
    let (trees, variables) = items.into_parts();
    with_variables(alloc, TStmt::Block(trees), variables)
}

/// An `if` without `else` (C99 6.8.4.1).
pub fn only_if(alloc: Global, test: TExpr, yes: StatementTree) -> Result<StatementTree, OutOfMemory>
    ensures { IfOk result (λ l. statement_tree_of l ≡ with_tree (statement_tree_of yes) (if_else (expr_of test) (statement_tree_of yes).tree empty)) }
{
    let test = Box::new(alloc, test)?;
    let (tree, variables) = yes.into_parts();
    with_variables(
        alloc,
        TStmt::If {
            test,
            yes: tree,
            no: None,
        },
        variables,
    )
}

/// An `if` with `else` (C99 6.8.4.1).
pub fn if_else(
    alloc: Global,
    test: TExpr,
    yes: StatementTree,
    no: StatementTree,
) -> Result<StatementTree, OutOfMemory>
    ensures { IfOk result (λ l. statement_tree_of l ≡ joined (statement_tree_of yes) (statement_tree_of no) (if_else (expr_of test) (statement_tree_of yes).tree (statement_tree_of no).tree)) }
{
    let test = Box::new(alloc, test)?;
    let (tree, variables) = yes.into_parts();
    let (other, others) = no.into_parts();
    let all = variables_of_both(variables, others)?;
    with_variables(
        alloc,
        TStmt::If {
            test,
            yes: tree,
            no: Some(other),
        },
        all,
    )
}
