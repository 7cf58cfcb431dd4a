// Initialisers and declarations (C99 6.7).

ghost use Rattle.std.specs.Prelude.{◌≡◌, IfOk};
ghost use Rattle.c_syntax.specs.Tree.{list};
ghost use Rattle.c_syntax.specs.View.{expr_behind, expr_of};
ghost use Rattle.c_syntax.specs.UnitView.{init_of, maybe_init_of, parts_of, decl_of};
ghost use Rattle.c_syntax.specs.WritesUnit.{inits_of};
ghost use Rattle.null_calls_expressions.specs.Sited.{sited};
ghost use Rattle.null_calls_expressions.specs.Marked.{IsMarked, IsMarkedBefore, reached, of_expr, of_maybe, of_init, of_inits, of_maybe_init, of_parts, of_decl};
ghost use Rattle.null_calls.specs.Parts.{part_before};

use c_syntax::{Decl, DeclPart, Expr, Init, InitKind};
use dm_base::OutOfMemory;
use dm_counts::Count;
use null_calls_expressions::{MarkedSites, Temporary, copy_declarator, copy_spec, expression};
use std::alloc::Global;

// An expression whose value is wanted or not.
pub fn value<'p>(
    alloc: Global,
    table: &MarkedSites<'p>,
    wanted: bool,
    e: &Expr,
    next: &mut Count,
    kept: &mut Vec<Temporary<'p>>,
) -> Result<Expr, OutOfMemory>
    ensures { IfOk result (λ made. IsMarked (of_expr (sited table.now) wanted) (reached next.old kept.old.items) (reached next.new kept.new.items) (expr_of e.now) (expr_of made)) }
{
    expression(alloc, table, wanted, e, next, kept)
}

// An expression where one may be left out.
pub fn maybe<'p>(
    alloc: Global,
    table: &MarkedSites<'p>,
    wanted: bool,
    e: &Option<Box<Expr>>,
    next: &mut Count,
    kept: &mut Vec<Temporary<'p>>,
) -> Result<Option<Box<Expr>>, OutOfMemory>
    ensures { IfOk result (λ made. IsMarked (of_maybe (sited table.now) wanted) (reached next.old kept.old.items) (reached next.new kept.new.items) (expr_behind e.now) (expr_behind made)) }
{
    match e {
        Some(e) => {
            let made = value(alloc, table, wanted, e, next, kept)?;
            let boxed = Box::new(alloc, made)?;
            Ok(Some(boxed))
        }
        None => Ok(None),
    }
}

// An initialiser in braces.
fn list_node(at: u32, inits: Vec<Init>) -> Init
    ensures { init_of result ≡ list at (inits_of inits.items) }
{
    Init {
        at,
        kind: InitKind::List(inits),
    }
}

#[cycle(initialisers)]
fn init<'p>(
    alloc: Global,
    table: &MarkedSites<'p>,
    i: &Init,
    next: &mut Count,
    kept: &mut Vec<Temporary<'p>>,
) -> Result<Init, OutOfMemory>
    ensures { IfOk result (λ made. IsMarked (of_init (sited table.now)) (reached next.old kept.old.items) (reached next.new kept.new.items) (init_of i.now) (init_of made)) }
{
    let at = i.at;
    match &i.kind {
        InitKind::One(e) => {
            let made = value(alloc, table, true, e, next, kept)?;
            Ok(Init {
                at,
                kind: InitKind::One(made),
            })
        }
        InitKind::List(list) => {
            let made = init_list(alloc, table, list, next, kept)?;
            Ok(list_node(at, made))
        }
    }
}

#[cycle(initialisers)]
fn init_list<'p>(
    alloc: Global,
    table: &MarkedSites<'p>,
    list: &[Init],
    next: &mut Count,
    kept: &mut Vec<Temporary<'p>>,
) -> Result<Vec<Init>, OutOfMemory>
    ensures { IfOk result (λ made. IsMarked (of_inits (sited table.now)) (reached next.old kept.old.items) (reached next.new kept.new.items) (inits_of list.now) (inits_of made.items)) }
{
    let mut made = Vec::new(alloc);
    for k in 0..list.len() {
        let one = init(alloc, table, &list[k], next, kept)?;
        made.push(one)?;
    }
    Ok(made)
}

fn maybe_init<'p>(
    alloc: Global,
    table: &MarkedSites<'p>,
    i: &Option<Init>,
    next: &mut Count,
    kept: &mut Vec<Temporary<'p>>,
) -> Result<Option<Init>, OutOfMemory>
    ensures { IfOk result (λ made. IsMarked (of_maybe_init (sited table.now)) (reached next.old kept.old.items) (reached next.new kept.new.items) (maybe_init_of i.now) (maybe_init_of made)) }
{
    match i {
        Some(i) => {
            let made = init(alloc, table, i, next, kept)?;
            Ok(Some(made))
        }
        None => Ok(None),
    }
}

fn part<'p>(
    alloc: Global,
    table: &MarkedSites<'p>,
    p: &DeclPart,
    next: &mut Count,
    kept: &mut Vec<Temporary<'p>>,
) -> Result<DeclPart, OutOfMemory>
    ensures { IfOk result (λ made. IsMarkedBefore (of_parts (sited table.now)) (reached next.old kept.old.items) (reached next.new kept.new.items) (part_before p.now) (part_before made)) }
{
    let declarator = copy_declarator(alloc, &p.declarator)?;
    let init = maybe_init(alloc, table, &p.init, next, kept)?;
    Ok(DeclPart { declarator, init })
}

fn part_list<'p>(
    alloc: Global,
    table: &MarkedSites<'p>,
    ps: &[DeclPart],
    next: &mut Count,
    kept: &mut Vec<Temporary<'p>>,
) -> Result<Vec<DeclPart>, OutOfMemory>
    ensures { IfOk result (λ made. IsMarked (of_parts (sited table.now)) (reached next.old kept.old.items) (reached next.new kept.new.items) (parts_of ps.now) (parts_of made.items)) }
{
    let mut made = Vec::new(alloc);
    for k in 0..ps.len() {
        let one = part(alloc, table, &ps[k], next, kept)?;
        made.push(one)?;
    }
    Ok(made)
}

// A declaration (6.7).
pub fn declaration<'p>(
    alloc: Global,
    table: &MarkedSites<'p>,
    d: &Decl,
    next: &mut Count,
    kept: &mut Vec<Temporary<'p>>,
) -> Result<Decl, OutOfMemory>
    ensures { IfOk result (λ made. IsMarked (of_decl (sited table.now)) (reached next.old kept.old.items) (reached next.new kept.new.items) (decl_of d.now) (decl_of made)) }
{
    let spec = copy_spec(alloc, &d.spec)?;
    let parts = part_list(alloc, table, &d.parts, next, kept)?;
    Ok(Decl {
        storage: d.storage,
        spec,
        parts,
        at: d.at,
    })
}
