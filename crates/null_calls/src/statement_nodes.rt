// The nodes of statements.

ghost use Rattle.std.specs.Prelude.{◌≡◌, IfOk};
ghost use Rattle.c_syntax.specs.Tree.{block, evaluate, only_if, if_else, while_loop, do_loop, for_loop, switch_on, more_groups, Groups};
ghost use Rattle.c_syntax.specs.View.{expr_behind, expr_of};
ghost use Rattle.c_syntax.specs.UnitView.{stmt_of, first_of_head, labels_of, group_before};
ghost use Rattle.c_syntax.specs.WritesUnit.{block_items_of, groups_of, stmts_of};

use c_syntax::{BlockItem, Expr, ForFirst, Group, Label, Stmt, StmtKind};
use dm_base::OutOfMemory;
use std::alloc::Global;

// The block of the items (C99 6.8.2).
pub fn block_node(at: u32, items: Vec<BlockItem>) -> Stmt
    ensures { stmt_of result ≡ block at (block_items_of items.items) }
{
    Stmt {
        at,
        kind: StmtKind::Block(items),
    }
}

// An expression as a statement (6.8.3).
pub fn evaluation_node(alloc: Global, at: u32, e: Expr) -> Result<Stmt, OutOfMemory>
    ensures { IfOk result (λ made. stmt_of made ≡ evaluate at (expr_of e)) }
{
    let e = Box::new(alloc, e)?;
    Ok(Stmt {
        at,
        kind: StmtKind::Expr(e),
    })
}

// `if` without `else` (6.8.4.1).
pub fn if_node(alloc: Global, at: u32, test: Expr, yes: Stmt) -> Result<Stmt, OutOfMemory>
    ensures { IfOk result (λ made. stmt_of made ≡ only_if at (expr_of test) (stmt_of yes)) }
{
    let test = Box::new(alloc, test)?;
    let yes = Box::new(alloc, yes)?;
    Ok(Stmt {
        at,
        kind: StmtKind::If {
            test,
            yes,
            no: None,
        },
    })
}

// `if` with `else` (6.8.4.1).
pub fn if_else_node(
    alloc: Global,
    at: u32,
    test: Expr,
    yes: Stmt,
    no: Stmt,
) -> Result<Stmt, OutOfMemory>
    ensures { IfOk result (λ made. stmt_of made ≡ if_else at (expr_of test) (stmt_of yes) (stmt_of no)) }
{
    let test = Box::new(alloc, test)?;
    let yes = Box::new(alloc, yes)?;
    let no = Box::new(alloc, no)?;
    Ok(Stmt {
        at,
        kind: StmtKind::If {
            test,
            yes,
            no: Some(no),
        },
    })
}

// `while` (6.8.5.1).
pub fn while_node(alloc: Global, at: u32, test: Expr, body: Stmt) -> Result<Stmt, OutOfMemory>
    ensures { IfOk result (λ made. stmt_of made ≡ while_loop at (expr_of test) (stmt_of body)) }
{
    let test = Box::new(alloc, test)?;
    let body = Box::new(alloc, body)?;
    Ok(Stmt {
        at,
        kind: StmtKind::While { test, body },
    })
}

// `do` (6.8.5.2).
pub fn do_node(alloc: Global, at: u32, body: Stmt, test: Expr) -> Result<Stmt, OutOfMemory>
    ensures { IfOk result (λ made. stmt_of made ≡ do_loop at (stmt_of body) (expr_of test)) }
{
    let test = Box::new(alloc, test)?;
    let body = Box::new(alloc, body)?;
    Ok(Stmt {
        at,
        kind: StmtKind::Do { body, test },
    })
}

// `for` (6.8.5.3).
pub fn for_node(
    alloc: Global,
    at: u32,
    first: ForFirst,
    test: Option<Box<Expr>>,
    step: Option<Box<Expr>>,
    body: Stmt,
) -> Result<Stmt, OutOfMemory>
    ensures { IfOk result (λ made. stmt_of made ≡ for_loop at (first_of_head first) (expr_behind test) (expr_behind step) (stmt_of body)) }
{
    let body = Box::new(alloc, body)?;
    Ok(Stmt {
        at,
        kind: StmtKind::For {
            first,
            test,
            step,
            body,
        },
    })
}

// `switch` (6.8.4.2).
pub fn switch_node(
    alloc: Global,
    at: u32,
    on: Expr,
    groups: Vec<Group>,
) -> Result<Stmt, OutOfMemory>
    ensures { IfOk result (λ made. stmt_of made ≡ switch_on at (expr_of on) (groups_of groups.items)) }
{
    let on = Box::new(alloc, on)?;
    Ok(Stmt {
        at,
        kind: StmtKind::Switch { on, groups },
    })
}

// Labels and the statements after them.
pub fn group_node(labels: Vec<Label>, body: Vec<Stmt>) -> Group
    ensures { (rest : Groups) → group_before result rest ≡ more_groups (labels_of labels.items) (stmts_of body.items) rest }
{
    Group { labels, body }
}
