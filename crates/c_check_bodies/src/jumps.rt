ghost use Rattle.std.specs.Prelude.{◌≡◌, IfOk};
ghost use Rattle.c_check_initialisers.specs.Agreement.{AgreesWith};
ghost use Rattle.c_check_initialisers.specs.TypedExpressionView.{typed_expression_of};
ghost use Rattle.c_check_bodies.specs.AroundView.{around_of};
ghost use Rattle.c_check_bodies.specs.StatementTreeView.{statement_tree_of};
ghost use Rattle.c_rules.specs.Blocks.{bare};
ghost use Rattle.c_rules.specs.Checked.{demand, gives};
ghost use Rattle.c_rules.specs.Codes.{C3, C8};
ghost use Rattle.c_rules.specs.Conversions.{as_if_assigned};
ghost use Rattle.c_rules.specs.TypedExpression.{tree_of};
ghost use Rattle.c_rules.specs.Types.{is_void};
ghost use Rattle.c_tree.specs.Tree.{break_off, continue_on, return_value, return_void};
ghost use Rattle.c_tree.specs.View.{ctype_of};

use crate::around::Around;
use crate::statement_tree::{StatementTree, bare, found};
use c_check_initialisers::{C3, C8, CheckError, TypedExpression, as_if_assigned, is_void};
use c_tree::{CType, TStmt};
use dm_base::OutOfMemory;
use std::alloc::Global;

/// A `break`, which stands in a loop or a switch (C99 6.8.6.3).
pub fn broken_off(alloc: Global, around: &Around<'_>, at: u32) -> Result<StatementTree, CheckError>
    ensures { AgreesWith statement_tree_of result (demand (around_of around.now).breaks C8 at (bare break_off)) }
{
    if !around.breaks {
        return Err(CheckError::At(C8, at));
    }
    found(bare(alloc, TStmt::Break))
}

/// A `continue`, which stands in a loop (C99 6.8.6.2).
pub fn continued(alloc: Global, around: &Around<'_>, at: u32) -> Result<StatementTree, CheckError>
    ensures { AgreesWith statement_tree_of result (demand (around_of around.now).continues C8 at (bare continue_on)) }
{
    if !around.continues {
        return Err(CheckError::At(C8, at));
    }
    found(bare(alloc, TStmt::Continue))
}

/// A `return` without a value, in a function without a result (C99 6.8.6.4).
pub fn returned_void(alloc: Global, returns: &CType, at: u32) -> Result<StatementTree, CheckError>
    ensures { AgreesWith statement_tree_of result (gives (demand (is_void (ctype_of returns.now)) C3 at return_void) bare) }
{
    if !is_void(returns) {
        return Err(CheckError::At(C3, at));
    }
    found(bare(alloc, TStmt::Return(None)))
}

// A `return` with this value.
fn value_returned(alloc: Global, g: TypedExpression) -> Result<StatementTree, OutOfMemory>
    ensures { IfOk result (λ l. statement_tree_of l ≡ bare (return_value (tree_of (typed_expression_of g)))) }
{
    let tree = g.into_tree(alloc)?;
    let value = Box::new(alloc, tree)?;
    bare(alloc, TStmt::Return(Some(value)))
}

/// A `return` with a value, which is converted as if by assignment to the function's result (C99 6.8.6.4 paragraph 3).
pub fn returned_value(
    alloc: Global,
    returns: &CType,
    at: u32,
    g: TypedExpression,
) -> Result<StatementTree, CheckError>
    ensures { AgreesWith statement_tree_of result (gives (gives (as_if_assigned at (ctype_of returns.now) (typed_expression_of g)) (λ a. return_value (tree_of a))) bare) }
{
    let assigned = as_if_assigned(alloc, at, returns, g)?;
    found(value_returned(alloc, assigned))
}
