ghost use Rattle.std.specs.Prelude.{◌≡◌, ◌++◌, OnOk};
ghost use Rattle.c_syntax.specs.UnitView.{stmt_of};
ghost use Rattle.c_syntax.specs.WritesUnit.{block_items_of, stmts_of, groups_of};
ghost use Rattle.c_rules.specs.PlacesOfCalls.{places_of_stmt, places_of_block, places_of_stmts, places_of_groups};
ghost use Rattle.c_check_counts.specs.SeenCalls.{places_of_block_item, places_of_group};

use crate::calls_in_declarations::{add_declaration, add_first};
use crate::calls_in_expressions::{add_expression, add_maybe};
use c_syntax::{BlockItem, Group, Stmt, StmtKind};
use dm_base::OutOfMemory;

// Adds the places of the calls in the statement.
#[cycle(places_in_statements)]
pub fn add_statement(into: &mut Vec<u32>, s: &Stmt) -> Result<(), OutOfMemory>
    ensures { OnOk result (into.new.items ≡ into.old.items ++ places_of_stmt (stmt_of s.now)) }
{
    match &s.kind {
        StmtKind::Empty | StmtKind::Break | StmtKind::Continue => Ok(()),
        StmtKind::Block(items) => add_block(into, items),
        StmtKind::Expr(e) => add_expression(into, e),
        StmtKind::If { test, yes, no } => {
            add_expression(into, test)?;
            add_statement(into, yes)?;
            match no {
                Some(no) => add_statement(into, no),
                None => Ok(()),
            }
        }
        StmtKind::While { test, body } => {
            add_expression(into, test)?;
            add_statement(into, body)
        }
        StmtKind::Do { body, test } => {
            add_statement(into, body)?;
            add_expression(into, test)
        }
        StmtKind::For {
            first,
            test,
            step,
            body,
        } => {
            add_first(into, first)?;
            add_maybe(into, test)?;
            add_maybe(into, step)?;
            add_statement(into, body)
        }
        StmtKind::Switch { on, groups } => {
            add_expression(into, on)?;
            add_groups(into, groups)
        }
        StmtKind::Return(e) => add_maybe(into, e),
    }
}

// Adds those in what stands in a block.
#[cycle(places_in_statements)]
fn add_block(into: &mut Vec<u32>, items: &[BlockItem]) -> Result<(), OutOfMemory>
    ensures { OnOk result (into.new.items ≡ into.old.items ++ places_of_block (block_items_of items.now)) }
{
    for item in items {
        add_block_item(into, item)?;
    }
    Ok(())
}

#[cycle(places_in_statements)]
fn add_block_item(into: &mut Vec<u32>, item: &BlockItem) -> Result<(), OutOfMemory>
    ensures { OnOk result (into.new.items ≡ into.old.items ++ places_of_block_item item.now) }
{
    match item {
        BlockItem::Declaration(decl) => add_declaration(into, decl),
        BlockItem::Statement(s) => add_statement(into, s),
    }
}

// Adds those in statements, in order.
#[cycle(places_in_statements)]
fn add_statements(into: &mut Vec<u32>, ss: &[Stmt]) -> Result<(), OutOfMemory>
    ensures { OnOk result (into.new.items ≡ into.old.items ++ places_of_stmts (stmts_of ss.now)) }
{
    for s in ss {
        add_statement(into, s)?;
    }
    Ok(())
}

// Adds those in the statements of a switch.
#[cycle(places_in_statements)]
fn add_groups(into: &mut Vec<u32>, groups: &[Group]) -> Result<(), OutOfMemory>
    ensures { OnOk result (into.new.items ≡ into.old.items ++ places_of_groups (groups_of groups.now)) }
{
    for group in groups {
        add_group(into, group)?;
    }
    Ok(())
}

#[cycle(places_in_statements)]
fn add_group(into: &mut Vec<u32>, group: &Group) -> Result<(), OutOfMemory>
    ensures { OnOk result (into.new.items ≡ into.old.items ++ places_of_group group.now) }
{
    add_statements(into, &group.body)
}
