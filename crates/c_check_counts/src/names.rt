ghost use Rattle.std.specs.Prelude.{◌≡◌, ◌++◌, OnOk};
ghost use Rattle.c_syntax.specs.View.{declarator_of};
ghost use Rattle.c_syntax.specs.UnitView.{parts_of, decl_of, first_of_head, stmt_of};
ghost use Rattle.c_syntax.specs.Writes.{declarator_behind};
ghost use Rattle.c_syntax.specs.WritesUnit.{block_items_of, stmts_of, groups_of};
ghost use Rattle.c_check_scopes.specs.Declarators.{name_of};
ghost use Rattle.c_check_scopes.specs.Variables.{name_or_empty, names_of_parts, names_of_decl, names_of_first, names_of_stmt, names_of_block, names_of_stmts, names_of_groups};
ghost use Rattle.c_check_counts.specs.Named.{names_of_block_item, names_of_group};
ghost use Rattle.c_syntax.specs.SeenNames.{seen, ident_seen};

use crate::gather::add;
use c_syntax::{
    BlockItem, Decl, DeclPart, Declarator, DeclaratorKind, ForFirst, Group, Ident, Stmt, StmtKind,
};
use dm_base::OutOfMemory;

/// The name that a declarator declares, where one stands (C99 6.7.5 paragraph 3).
#[cycle(named)]
pub fn name_of(d: &Declarator) -> Option<&Ident>
    ensures { ident_seen result ≡ name_of (declarator_of d.now) }
{
    match &d.kind {
        DeclaratorKind::Name(x) => Some(x),
        DeclaratorKind::Pointer(inner) => inner_name(inner),
        DeclaratorKind::Array { inner, .. } => inner_name(inner),
        DeclaratorKind::Function { inner, .. } => inner_name(inner),
    }
}

#[cycle(named)]
fn inner_name(inner: &Option<Box<Declarator>>) -> Option<&Ident>
    ensures { ident_seen result ≡ name_of (declarator_behind inner.now) }
{
    match inner {
        Some(d) => name_of(d),
        None => None,
    }
}

/// The bytes of the name that a declarator declares; none where no name stands.
pub fn bytes_of_name(d: &Declarator) -> &[u8]
    ensures { result.now ≡ name_or_empty (name_of (declarator_of d.now)) }
{
    match name_of(d) {
        Some(x) => x.name.as_slice(),
        None => &[],
    }
}

fn add_parts<'t>(into: &mut Vec<&'t [u8]>, parts: &'t [DeclPart]) -> Result<(), OutOfMemory>
    ensures { OnOk result (seen into.new.items ≡ seen into.old.items ++ names_of_parts (parts_of parts.now)) }
{
    for part in parts {
        add(into, bytes_of_name(&part.declarator))?;
    }
    Ok(())
}

fn add_decl<'t>(into: &mut Vec<&'t [u8]>, decl: &'t Decl) -> Result<(), OutOfMemory>
    ensures { OnOk result (seen into.new.items ≡ seen into.old.items ++ names_of_decl (decl_of decl.now)) }
{
    add_parts(into, &decl.parts)
}

fn add_first<'t>(into: &mut Vec<&'t [u8]>, first: &'t ForFirst) -> Result<(), OutOfMemory>
    ensures { OnOk result (seen into.new.items ≡ seen into.old.items ++ names_of_first (first_of_head first.now)) }
{
    match first {
        ForFirst::Declaration(decl) => add_decl(into, decl),
        _ => Ok(()),
    }
}

// Adds the names of the variables that the statement declares, in order.
#[cycle(names_in)]
pub fn add_names<'t>(into: &mut Vec<&'t [u8]>, s: &'t Stmt) -> Result<(), OutOfMemory>
    ensures { OnOk result (seen into.new.items ≡ seen into.old.items ++ names_of_stmt (stmt_of s.now)) }
{
    match &s.kind {
        StmtKind::Empty
        | StmtKind::Expr(_)
        | StmtKind::Break
        | StmtKind::Continue
        | StmtKind::Return(_) => Ok(()),
        StmtKind::Block(items) => add_block(into, items),
        StmtKind::If { yes, no, .. } => {
            add_names(into, yes)?;
            match no {
                Some(no) => add_names(into, no),
                None => Ok(()),
            }
        }
        StmtKind::While { body, .. } | StmtKind::Do { body, .. } => add_names(into, body),
        StmtKind::For { first, body, .. } => {
            add_first(into, first)?;
            add_names(into, body)
        }
        StmtKind::Switch { groups, .. } => add_groups(into, groups),
    }
}

#[cycle(names_in)]
fn add_block<'t>(into: &mut Vec<&'t [u8]>, items: &'t [BlockItem]) -> Result<(), OutOfMemory>
    ensures { OnOk result (seen into.new.items ≡ seen into.old.items ++ names_of_block (block_items_of items.now)) }
{
    for item in items {
        add_block_item(into, item)?;
    }
    Ok(())
}

#[cycle(names_in)]
fn add_block_item<'t>(into: &mut Vec<&'t [u8]>, item: &'t BlockItem) -> Result<(), OutOfMemory>
    ensures { OnOk result (seen into.new.items ≡ seen into.old.items ++ names_of_block_item item.now) }
{
    match item {
        BlockItem::Declaration(decl) => add_decl(into, decl),
        BlockItem::Statement(s) => add_names(into, s),
    }
}

#[cycle(names_in)]
fn add_statements<'t>(into: &mut Vec<&'t [u8]>, ss: &'t [Stmt]) -> Result<(), OutOfMemory>
    ensures { OnOk result (seen into.new.items ≡ seen into.old.items ++ names_of_stmts (stmts_of ss.now)) }
{
    for s in ss {
        add_names(into, s)?;
    }
    Ok(())
}

#[cycle(names_in)]
fn add_groups<'t>(into: &mut Vec<&'t [u8]>, groups: &'t [Group]) -> Result<(), OutOfMemory>
    ensures { OnOk result (seen into.new.items ≡ seen into.old.items ++ names_of_groups (groups_of groups.now)) }
{
    for group in groups {
        add_group(into, group)?;
    }
    Ok(())
}

#[cycle(names_in)]
fn add_group<'t>(into: &mut Vec<&'t [u8]>, group: &'t Group) -> Result<(), OutOfMemory>
    ensures { OnOk result (seen into.new.items ≡ seen into.old.items ++ names_of_group group.now) }
{
    add_statements(into, &group.body)
}
