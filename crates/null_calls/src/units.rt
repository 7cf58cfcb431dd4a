// Items and units (C99 6.9).

ghost use Rattle.std.specs.Prelude.{◌≡◌, ◌+◌, OnOk, IfOk};
ghost use Rattle.c_tree.specs.View.{program_of};
ghost use Rattle.c_syntax.specs.Tree.{block_stmt, no_block_items};
ghost use Rattle.c_syntax.specs.UnitView.{stmt_of, item_at, items_of};
ghost use Rattle.c_syntax.specs.WritesUnit.{block_items_of};
ghost use Rattle.c_rules.specs.Functions.{items_of_body};
ghost use Rattle.c_rules.specs.Variables.{calls_of_block};
ghost use Rattle.c_syntax.specs.SeenNames.{seen};
ghost use Rattle.flow_graph.specs.Calls.{AreCallsOf};
ghost use Rattle.null_calls_expressions.specs.Sited.{sited};
ghost use Rattle.null_calls_expressions.specs.Instrumented as marks;
ghost use Rattle.null_calls_expressions.specs.Instrumented.{instrumented_unit, calls_of_item};
ghost use Rattle.null_calls_expressions.specs.Marked.{IsMarked, reached, of_block};
ghost use Rattle.null_calls.specs.Parts.{items_where};

use crate::statement_nodes::block_node;
use crate::statements::{block_items, statement};
use c_check_counts::tag_names;
use c_syntax::{BlockItem, Ident, Item, ItemKind, Spec, Stmt, StmtKind};
use c_tree::Program;
use dm_base::{Bytes, OutOfMemory};
use dm_counts::Count;
use flow_graph::Calls;
use null_calls_expressions::{
    MarkedSites, Temporary, copy_decl, copy_declarator, copy_enumerators, copy_ident, copy_members,
    copy_spec, copy_tag, declared, declared_alone, declared_node, function_node, param_node,
    post_name, pre_name,
};
use std::alloc::Global;

// The declaration of the null call with this name: `void NAME ( unsigned int ) ;`
fn null_prototype(alloc: Global, name: Bytes) -> Result<Item, OutOfMemory>
    ensures { IfOk result (λ made. item_at made.at made.kind ≡ marks.null_prototype name) }
{
    let mut params = Vec::new(alloc);
    params.push(param_node(0, Spec::Uint, None))?;
    let inner = Box::new(alloc, declared_node(0, Ident { name, at: 0 }))?;
    let declarator = function_node(0, Some(inner), params);
    let decl = declared_alone(alloc, 0, Spec::Void, declarator)?;
    Ok(Item {
        at: 0,
        kind: ItemKind::Declaration(decl),
    })
}

// A statement as the only item of a block.
fn alone<'p>(
    alloc: Global,
    table: &MarkedSites<'p>,
    s: &Stmt,
    next: &mut Count,
    kept: &mut Vec<Temporary<'p>>,
) -> Result<Vec<BlockItem>, OutOfMemory>
    ensures { IfOk result (λ made. IsMarked (of_block (sited table.now)) (reached next.old kept.old.items) (reached next.new kept.new.items) (block_stmt (stmt_of s.now) no_block_items) (block_items_of made.items)) }
{
    let one = statement(alloc, table, s, next, kept)?;
    let mut made = Vec::new(alloc);
    made.push(BlockItem::Statement(one))?;
    Ok(made)
}

// The items of a body, where it is a block.
fn list_in(body: &Stmt) -> Option<&[BlockItem]>
    ensures { items_of_body (stmt_of body.now) ≡ items_where result (stmt_of body.now) }
{
    match &body.kind {
        StmtKind::Block(list) => Some(list.as_slice()),
        StmtKind::Empty => None,
        StmtKind::Expr(_) => None,
        StmtKind::If { .. } => None,
        StmtKind::While { .. } => None,
        StmtKind::Do { .. } => None,
        StmtKind::For { .. } => None,
        StmtKind::Switch { .. } => None,
        StmtKind::Break => None,
        StmtKind::Continue => None,
        StmtKind::Return(_) => None,
    }
}

// The items of a function's body.
fn body_items<'p>(
    alloc: Global,
    table: &MarkedSites<'p>,
    body: &Stmt,
    next: &mut Count,
    kept: &mut Vec<Temporary<'p>>,
) -> Result<Vec<BlockItem>, OutOfMemory>
    ensures { IfOk result (λ made. IsMarked (of_block (sited table.now)) (reached next.old kept.old.items) (reached next.new kept.new.items) (items_of_body (stmt_of body.now)) (block_items_of made.items)) }
{
    match list_in(body) {
        Some(list) => block_items(alloc, table, list, next, kept),
        None => alone(alloc, table, body, next, kept),
    }
}

// The body of a function, which begins with the declarations of its temporaries.
fn body_of<'p>(
    alloc: Global,
    table: &MarkedSites<'p>,
    tags: &[&[u8]],
    at: u32,
    body: &Stmt,
    next: &mut Count,
) -> Result<Stmt, OutOfMemory>
    ensures tree { IfOk result (λ made. stmt_of made ≡ marks.body_of (sited table.now) (seen tags.now) at next.old (items_of_body (stmt_of body.now))) }
    ensures counts { OnOk result (next.new ≡ next.old + calls_of_block (items_of_body (stmt_of body.now))) }
{
    let mut kept = Vec::new(alloc);
    let list = body_items(alloc, table, body, next, &mut kept)?;
    let all = declared(alloc, tags, at, &kept, list)?;
    Ok(block_node(at, all))
}

// The item with null calls round its marked calls, where `next` calls stand before it in the unit.
fn item<'p>(
    alloc: Global,
    table: &MarkedSites<'p>,
    tags: &[&[u8]],
    x: &Item,
    next: &mut Count,
) -> Result<Item, OutOfMemory>
    ensures tree { IfOk result (λ made. item_at made.at made.kind ≡ marks.item (sited table.now) (seen tags.now) next.old (item_at x.now.at x.now.kind)) }
    ensures counts { OnOk result (next.new ≡ next.old + calls_of_item (item_at x.now.at x.now.kind)) }
{
    let at = x.at;
    match &x.kind {
        ItemKind::Struct { tag, members } => {
            let tag = copy_ident(alloc, tag)?;
            let members = copy_members(alloc, members)?;
            Ok(Item {
                at,
                kind: ItemKind::Struct { tag, members },
            })
        }
        ItemKind::Enum { tag, list } => {
            let tag = copy_tag(alloc, tag)?;
            let list = copy_enumerators(alloc, list)?;
            Ok(Item {
                at,
                kind: ItemKind::Enum { tag, list },
            })
        }
        ItemKind::Tag(tag) => {
            let tag = copy_ident(alloc, tag)?;
            Ok(Item {
                at,
                kind: ItemKind::Tag(tag),
            })
        }
        ItemKind::Declaration(d) => {
            let decl = copy_decl(alloc, d)?;
            Ok(Item {
                at,
                kind: ItemKind::Declaration(decl),
            })
        }
        ItemKind::Function {
            storage,
            spec,
            declarator,
            body,
        } => {
            let spec = copy_spec(alloc, spec)?;
            let declarator = copy_declarator(alloc, declarator)?;
            let body = body_of(alloc, table, tags, at, body, next)?;
            Ok(Item {
                at,
                kind: ItemKind::Function {
                    storage: *storage,
                    spec,
                    declarator,
                    body,
                },
            })
        }
    }
}

// The items in order, from the first one of a unit on.
fn all_items<'p>(
    alloc: Global,
    table: &MarkedSites<'p>,
    tags: &[&[u8]],
    list: &[Item],
) -> Result<Vec<Item>, OutOfMemory>
    ensures { IfOk result (λ made. items_of made.items ≡ marks.items (sited table.now) (seen tags.now) 0 (items_of list.now)) }
{
    let mut next = Count::zero(alloc);
    let mut made = Vec::new(alloc);
    for k in 0..list.len() {
        let one = item(alloc, table, tags, &list[k], &mut next)?;
        made.push(one)?;
    }
    Ok(made)
}

/// The unit with null calls round the marked calls of the program that it is typed as (Giffin, Jha and Miller 2004): the two null
/// calls are declared first, each function's body begins with the declarations of its temporaries, and each marked call is a comma
/// expression that keeps the designator and the arguments, and calls between its null calls. `items` are those of the unit, and
/// `calls` is the call graph of the program. Takes time that is linear in the unit that it makes.
pub fn instrument(
    alloc: Global,
    items: &[Item],
    program: &Program,
    calls: &Calls,
) -> Result<Vec<Item>, OutOfMemory>
    requires { AreCallsOf (program_of program.now) calls.now }
    ensures { IfOk result (λ made. items_of made.items ≡ instrumented_unit (program_of program.now) (items_of items.now)) }
{
    let table = MarkedSites::of(alloc, program, calls)?;
    let tags = tag_names(alloc, items)?;
    let mut rest = all_items(alloc, &table, &tags, items)?;
    let before = pre_name(alloc)?;
    let pre = null_prototype(alloc, before)?;
    let after = post_name(alloc)?;
    let post = null_prototype(alloc, after)?;
    let mut made = Vec::new(alloc);
    made.push(pre)?;
    made.push(post)?;
    made.append(&mut rest)?;
    Ok(made)
}
