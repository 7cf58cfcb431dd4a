ghost use Rattle.std.specs.Prelude.{◌≡◌, false, OnOk};
ghost use Rattle.c_check_bodies.specs.Numbered.{HaveNumbers, next_of};
ghost use Rattle.c_check_declarations.specs.Agreement.{AgreesWith};
ghost use Rattle.c_check_bodies.specs.StatementTreeView.{statement_trees_of};
ghost use Rattle.c_rules.specs.Blocks.{held_by_block};
ghost use Rattle.c_rules.specs.Counts.{past};
ghost use Rattle.c_rules.specs.Functions.{items_of_body};
ghost use Rattle.c_rules.specs.Statements.{items_of_block};
ghost use Rattle.c_rules.specs.Variables.{calls_of_block, names_of_block, names_of_stmt};
ghost use Rattle.c_check_scopes.specs.View.{before_of, env_of};
ghost use Rattle.c_syntax.specs.Tree.{block_stmt, no_block_items};
ghost use Rattle.c_syntax.specs.UnitView.{stmt_of};
ghost use Rattle.c_syntax.specs.WritesUnit.{block_items_of};
ghost use Rattle.c_tree.specs.View.{ctype_of};

use crate::statements::{items_of_block, statement};
use c_check_bodies::{Around, Next, StatementTrees, all_found, alone, leave_names};
use c_check_declarations::CheckError;
use c_check_scopes::{Before, Environment};
use c_syntax::{BlockItem, Stmt, StmtKind};
use c_tree::CType;
use std::alloc::Global;

// The declarations and statements of the body of a function.
fn items_of_body<'t>(
    alloc: Global,
    env: &mut Environment<'t>,
    before: &mut Before<'t>,
    returns: &CType,
    next: Next,
    items: &'t [BlockItem],
) -> Result<StatementTrees, CheckError>
    requires { HaveNumbers (next_of next) (names_of_block (block_items_of items.now)) }
    ensures judged { AgreesWith statement_trees_of result (items_of_block (env_of env.old) (record { breaks = false; continues = false; returns = ctype_of returns.now }) (before_of before.old) (next_of next) (block_items_of items.now)) }
    ensures counted { OnOk result (before_of before.new ≡ past (before_of before.old) (calls_of_block (block_items_of items.now)) (held_by_block (env_of env.old) (next_of next) (block_items_of items.now))) }
    ensures kept { OnOk result (env.new ≡ env.old) }
{
    let count = env.names.len();
    let around = Around {
        breaks: false,
        continues: false,
        returns,
    };
    let mut numbers = next;
    let laid = items_of_block(alloc, env, &around, before, &mut numbers, items)?;
    leave_names(env, count);
    Ok(laid)
}

// A statement alone, in place of a block.
fn one_statement<'t>(
    alloc: Global,
    env: &mut Environment<'t>,
    before: &mut Before<'t>,
    returns: &CType,
    next: Next,
    s: &'t Stmt,
) -> Result<StatementTrees, CheckError>
    requires { HaveNumbers (next_of next) (names_of_stmt (stmt_of s.now)) }
    ensures judged { AgreesWith statement_trees_of result (items_of_block (env_of env.old) (record { breaks = false; continues = false; returns = ctype_of returns.now }) (before_of before.old) (next_of next) (block_stmt (stmt_of s.now) no_block_items)) }
    ensures counted { OnOk result (before_of before.new ≡ past (before_of before.old) (calls_of_block (block_stmt (stmt_of s.now) no_block_items)) (held_by_block (env_of env.old) (next_of next) (block_stmt (stmt_of s.now) no_block_items))) }
    ensures kept { OnOk result (env.new ≡ env.old) }
{
    let around = Around {
        breaks: false,
        continues: false,
        returns,
    };
    let mut numbers = next;
    let one = statement(alloc, env, &around, before, &mut numbers, s)?;
    all_found(alone(alloc, one))
}

/// What the body of a function gives that returns this type, in the scope of its parameters (C99 6.9.1): its variables have the next
/// numbers. Behind it the names are those before it.
pub fn body_of<'t>(
    alloc: Global,
    env: &mut Environment<'t>,
    before: &mut Before<'t>,
    returns: &CType,
    next: Next,
    body: &'t Stmt,
) -> Result<StatementTrees, CheckError>
    requires { HaveNumbers (next_of next) (names_of_block (items_of_body (stmt_of body.now))) }
    ensures judged { AgreesWith statement_trees_of result (items_of_block (env_of env.old) (record { breaks = false; continues = false; returns = ctype_of returns.now }) (before_of before.old) (next_of next) (items_of_body (stmt_of body.now))) }
    ensures counted { OnOk result (before_of before.new ≡ past (before_of before.old) (calls_of_block (items_of_body (stmt_of body.now))) (held_by_block (env_of env.old) (next_of next) (items_of_body (stmt_of body.now)))) }
    ensures kept { OnOk result (env.new ≡ env.old) }
{
    match &body.kind {
        StmtKind::Block(items) => items_of_body(alloc, env, before, returns, next, items),
        _ => one_statement(alloc, env, before, returns, next, body),
    }
}
