// The nodes of statements.

ghost use Rattle.std.specs.Prelude.{◌≡◌};
ghost use Rattle.c_syntax.specs.Tree.{block, evaluate, only_if, if_else, while_loop, do_loop, for_loop, switch_on, more_groups, Groups};
ghost use Rattle.c_syntax.specs.View.{expr_behind, expr_of};
ghost use Rattle.c_syntax.specs.UnitView.{stmt_at, stmt_of, first_of_head, group_before, labels_of};
ghost use Rattle.c_syntax.specs.WritesUnit.{block_items_of, groups_of, stmts_of};
ghost use Rattle.c_syntax.specs.declared.tree.BlockItem.TheVariants.{Statement};
ghost use Rattle.c_parser.specs.Making.{Makes, Adds};

use c_parser_phrases::PhraseError;
use c_syntax::{BlockItem, Expr, ForFirst, Group, Label, Stmt, StmtKind};
use std::alloc::Global;

/// The node of the kind at the place.
pub fn stmt_node(alloc: Global, at: u32, kind: StmtKind) -> Result<Box<Stmt>, PhraseError>
    ensures { Makes result (stmt_at at kind) }
{
    Ok(Box::new(alloc, Stmt { at, kind })?)
}

/// The block of the items.
pub fn block_node(alloc: Global, at: u32, items: Vec<BlockItem>) -> Result<Box<Stmt>, PhraseError>
    ensures { Makes result (block at (block_items_of items.items)) }
{
    stmt_node(alloc, at, StmtKind::Block(items))
}

/// An expression as a statement.
pub fn evaluation_node(alloc: Global, at: u32, whole: Expr) -> Result<Box<Stmt>, PhraseError>
    ensures { Makes result (evaluate at (expr_of whole)) }
{
    let inside = Box::new(alloc, whole)?;
    stmt_node(alloc, at, StmtKind::Expr(inside))
}

/// `if` without `else`.
pub fn if_node(
    alloc: Global,
    at: u32,
    test: Box<Expr>,
    yes: Box<Stmt>,
) -> Result<Box<Stmt>, PhraseError>
    ensures { Makes result (only_if at (expr_of test.value) (stmt_of yes.value)) }
{
    stmt_node(
        alloc,
        at,
        StmtKind::If {
            test,
            yes,
            no: None,
        },
    )
}

/// `if` with `else`.
pub fn if_else_node(
    alloc: Global,
    at: u32,
    test: Box<Expr>,
    yes: Box<Stmt>,
    no: Box<Stmt>,
) -> Result<Box<Stmt>, PhraseError>
    ensures { Makes result (if_else at (expr_of test.value) (stmt_of yes.value) (stmt_of no.value)) }
{
    stmt_node(
        alloc,
        at,
        StmtKind::If {
            test,
            yes,
            no: Some(no),
        },
    )
}

/// `while`
pub fn while_node(
    alloc: Global,
    at: u32,
    test: Box<Expr>,
    body: Box<Stmt>,
) -> Result<Box<Stmt>, PhraseError>
    ensures { Makes result (while_loop at (expr_of test.value) (stmt_of body.value)) }
{
    stmt_node(alloc, at, StmtKind::While { test, body })
}

/// `do`
pub fn do_node(
    alloc: Global,
    at: u32,
    body: Box<Stmt>,
    test: Box<Expr>,
) -> Result<Box<Stmt>, PhraseError>
    ensures { Makes result (do_loop at (stmt_of body.value) (expr_of test.value)) }
{
    stmt_node(alloc, at, StmtKind::Do { body, test })
}

/// What stands in the parentheses after `for`.
#[derive(Drop)]
pub struct ForHead {
    pub first: ForFirst,
    pub test: Option<Box<Expr>>,
    pub step: Option<Box<Expr>>,
}

/// `for`
pub fn for_node(
    alloc: Global,
    at: u32,
    head: Box<ForHead>,
    body: Box<Stmt>,
) -> Result<Box<Stmt>, PhraseError>
    ensures { Makes result (for_loop at (first_of_head head.value.first) (expr_behind head.value.test) (expr_behind head.value.step) (stmt_of body.value)) }
{
    let head = Box::into_inner(head);
    stmt_node(
        alloc,
        at,
        StmtKind::For {
            first: head.first,
            test: head.test,
            step: head.step,
            body,
        },
    )
}

/// `switch`
pub fn switch_node(
    alloc: Global,
    at: u32,
    on: Box<Expr>,
    groups: Vec<Group>,
) -> Result<Box<Stmt>, PhraseError>
    ensures { Makes result (switch_on at (expr_of on.value) (groups_of groups.items)) }
{
    stmt_node(alloc, at, StmtKind::Switch { on, groups })
}

/// Labels and the statements after them.
pub fn group_node(labels: Vec<Label>, body: Vec<Stmt>) -> Group
    ensures { (rest : Groups) → group_before result rest ≡ more_groups (labels_of labels.items) (stmts_of body.items) rest }
{
    Group { labels, body }
}

/// Adds a statement to those of a group.
pub fn add_statement(list: &mut Vec<Stmt>, statement: Box<Stmt>) -> Result<(), PhraseError>
    ensures { Adds result list.old.items list.new.items statement.value }
{
    list.push(Box::into_inner(statement))?;
    Ok(())
}

/// Adds a statement to the items of a block.
pub fn add_block_statement(
    items: &mut Vec<BlockItem>,
    statement: Box<Stmt>,
) -> Result<(), PhraseError>
    ensures { Adds result items.old.items items.new.items (Statement statement.value) }
{
    items.push(BlockItem::Statement(Box::into_inner(statement)))?;
    Ok(())
}
