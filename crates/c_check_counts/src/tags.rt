ghost use Rattle.std.specs.Prelude.{◌≡◌, ◌++◌, OnOk};
ghost use Rattle.c_syntax.specs.View.{expr_of, spec_of, type_name_of, declarator_of};
ghost use Rattle.c_syntax.specs.UnitView.{maybe_of, init_of, maybe_init_of, parts_of, decl_of, first_of_head, labels_of, stmt_of, declarators_of, members_of, enumerators_of};
ghost use Rattle.c_syntax.specs.Writes.{exprs_of, params_of, declarator_in, declarator_behind, expr_behind};
ghost use Rattle.c_syntax.specs.WritesUnit.{inits_of, block_items_of, stmts_of, groups_of};
ghost use Rattle.c_rules.specs.Declarators.{name_of};
ghost use Rattle.c_rules.specs.Tags.{tags_of_spec, tags_of_expr, tags_of_exprs, tags_of_maybe, tags_of_type, tags_of_declarator, tags_of_params, tags_of_init, tags_of_inits, tags_of_maybe_init, tags_of_parts, are_added, declares_added, tags_of_decl, tags_of_first, tags_of_labels, tags_of_stmt, tags_of_block, tags_of_stmts, tags_of_groups, tags_of_declarators, tags_of_members, tags_of_enumerators};
ghost use Rattle.c_check_counts.specs.HeldTags.{tags_of_param, tags_of_part, tags_of_label, tags_of_block_item, tags_of_group, tags_of_member, tags_of_enumerator, tags_of_tree};
ghost use Rattle.c_syntax.specs.SeenNames.{seen};

use crate::gather::add;
use crate::name_of;
use c_check_scopes::is_added;
use c_syntax::{
    BlockItem, Decl, DeclPart, Declarator, DeclaratorKind, Enumerator, Expr, ExprKind, ForFirst,
    Group, Init, InitKind, Item, ItemKind, Label, LabelKind, Member, Param, Spec, Stmt, StmtKind,
    TypeName,
};
use dm_base::OutOfMemory;

// Adds the tag of a struct in specifiers.
fn add_spec<'t>(into: &mut Vec<&'t [u8]>, spec: &'t Spec) -> Result<(), OutOfMemory>
    ensures { OnOk result (seen into.new.items ≡ seen into.old.items ++ tags_of_spec (spec_of spec.now)) }
{
    match spec {
        Spec::Struct(tag) => add(into, tag.name.as_slice()),
        _ => Ok(()),
    }
}

// Adds the tags in an expression.
#[cycle(tags_in)]
fn add_expr<'t>(into: &mut Vec<&'t [u8]>, e: &'t Expr) -> Result<(), OutOfMemory>
    ensures { OnOk result (seen into.new.items ≡ seen into.old.items ++ tags_of_expr (expr_of e.now)) }
{
    match &e.kind {
        ExprKind::Name(_) | ExprKind::Int { .. } | ExprKind::Char(_) | ExprKind::Str(_) => Ok(()),
        ExprKind::Comma(es) => add_exprs(into, es),
        ExprKind::SizeofType(n) => add_type(into, n),
        ExprKind::Cast(n, a) => {
            add_type(into, n)?;
            add_expr(into, a)
        }
        ExprKind::Call(d, es) => {
            add_expr(into, d)?;
            add_exprs(into, es)
        }
        ExprKind::Member(a, _)
        | ExprKind::Arrow(a, _)
        | ExprKind::PostInc(a)
        | ExprKind::PostDec(a)
        | ExprKind::PreInc(a)
        | ExprKind::PreDec(a)
        | ExprKind::SizeofExpr(a)
        | ExprKind::Unary(_, a) => add_expr(into, a),
        ExprKind::Index(a, b)
        | ExprKind::And(a, b)
        | ExprKind::Or(a, b)
        | ExprKind::Binary(_, a, b)
        | ExprKind::Assign(_, a, b) => {
            add_expr(into, a)?;
            add_expr(into, b)
        }
        ExprKind::Cond(test, yes, no) => {
            add_expr(into, test)?;
            add_expr(into, yes)?;
            add_expr(into, no)
        }
    }
}

#[cycle(tags_in)]
fn add_exprs<'t>(into: &mut Vec<&'t [u8]>, es: &'t [Expr]) -> Result<(), OutOfMemory>
    ensures { OnOk result (seen into.new.items ≡ seen into.old.items ++ tags_of_exprs (exprs_of es.now)) }
{
    for e in es {
        add_expr(into, e)?;
    }
    Ok(())
}

#[cycle(tags_in)]
fn add_type<'t>(into: &mut Vec<&'t [u8]>, n: &'t TypeName) -> Result<(), OutOfMemory>
    ensures { OnOk result (seen into.new.items ≡ seen into.old.items ++ tags_of_type (type_name_of n.now)) }
{
    add_spec(into, &n.spec)?;
    add_held(into, &n.declarator)
}

#[cycle(tags_in)]
fn add_held<'t>(into: &mut Vec<&'t [u8]>, held: &'t Option<Declarator>) -> Result<(), OutOfMemory>
    ensures { OnOk result (seen into.new.items ≡ seen into.old.items ++ tags_of_declarator (declarator_in held.now)) }
{
    match held {
        Some(d) => add_declarator(into, d),
        None => Ok(()),
    }
}

// Adds the tags in a declarator.
#[cycle(tags_in)]
fn add_declarator<'t>(into: &mut Vec<&'t [u8]>, d: &'t Declarator) -> Result<(), OutOfMemory>
    ensures { OnOk result (seen into.new.items ≡ seen into.old.items ++ tags_of_declarator (declarator_of d.now)) }
{
    match &d.kind {
        DeclaratorKind::Name(_) => Ok(()),
        DeclaratorKind::Pointer(inner) => add_inner(into, inner),
        DeclaratorKind::Array { inner, size } => {
            add_inner(into, inner)?;
            add_boxed(into, size)
        }
        DeclaratorKind::Function { inner, params } => {
            add_inner(into, inner)?;
            add_params(into, params)
        }
    }
}

#[cycle(tags_in)]
fn add_inner<'t>(
    into: &mut Vec<&'t [u8]>,
    inner: &'t Option<Box<Declarator>>,
) -> Result<(), OutOfMemory>
    ensures { OnOk result (seen into.new.items ≡ seen into.old.items ++ tags_of_declarator (declarator_behind inner.now)) }
{
    match inner {
        Some(d) => add_declarator(into, d),
        None => Ok(()),
    }
}

// Adds the tags in an expression behind a box, where one stands.
#[cycle(tags_in)]
fn add_boxed<'t>(into: &mut Vec<&'t [u8]>, e: &'t Option<Box<Expr>>) -> Result<(), OutOfMemory>
    ensures { OnOk result (seen into.new.items ≡ seen into.old.items ++ tags_of_maybe (expr_behind e.now)) }
{
    match e {
        Some(e) => add_expr(into, e),
        None => Ok(()),
    }
}

#[cycle(tags_in)]
fn add_params<'t>(into: &mut Vec<&'t [u8]>, ps: &'t [Param]) -> Result<(), OutOfMemory>
    ensures { OnOk result (seen into.new.items ≡ seen into.old.items ++ tags_of_params (params_of ps.now)) }
{
    for p in ps {
        add_param(into, p)?;
    }
    Ok(())
}

#[cycle(tags_in)]
fn add_param<'t>(into: &mut Vec<&'t [u8]>, p: &'t Param) -> Result<(), OutOfMemory>
    ensures { OnOk result (seen into.new.items ≡ seen into.old.items ++ tags_of_param p.now) }
{
    add_spec(into, &p.spec)?;
    add_held(into, &p.declarator)
}

fn add_maybe<'t>(into: &mut Vec<&'t [u8]>, e: &'t Option<Expr>) -> Result<(), OutOfMemory>
    ensures { OnOk result (seen into.new.items ≡ seen into.old.items ++ tags_of_maybe (maybe_of e.now)) }
{
    match e {
        Some(e) => add_expr(into, e),
        None => Ok(()),
    }
}

// Adds the tags in an initialiser.
#[cycle(tags_in_init)]
fn add_init<'t>(into: &mut Vec<&'t [u8]>, i: &'t Init) -> Result<(), OutOfMemory>
    ensures { OnOk result (seen into.new.items ≡ seen into.old.items ++ tags_of_init (init_of i.now)) }
{
    match &i.kind {
        InitKind::One(e) => add_expr(into, e),
        InitKind::List(inits) => add_inits(into, inits),
    }
}

#[cycle(tags_in_init)]
fn add_inits<'t>(into: &mut Vec<&'t [u8]>, is: &'t [Init]) -> Result<(), OutOfMemory>
    ensures { OnOk result (seen into.new.items ≡ seen into.old.items ++ tags_of_inits (inits_of is.now)) }
{
    for i in is {
        add_init(into, i)?;
    }
    Ok(())
}

fn add_maybe_init<'t>(into: &mut Vec<&'t [u8]>, init: &'t Option<Init>) -> Result<(), OutOfMemory>
    ensures { OnOk result (seen into.new.items ≡ seen into.old.items ++ tags_of_maybe_init (maybe_init_of init.now)) }
{
    match init {
        Some(i) => add_init(into, i),
        None => Ok(()),
    }
}

fn add_part<'t>(into: &mut Vec<&'t [u8]>, p: &'t DeclPart) -> Result<(), OutOfMemory>
    ensures { OnOk result (seen into.new.items ≡ seen into.old.items ++ tags_of_part p.now) }
{
    add_declarator(into, &p.declarator)?;
    add_maybe_init(into, &p.init)
}

fn add_parts<'t>(into: &mut Vec<&'t [u8]>, ps: &'t [DeclPart]) -> Result<(), OutOfMemory>
    ensures { OnOk result (seen into.new.items ≡ seen into.old.items ++ tags_of_parts (parts_of ps.now)) }
{
    for p in ps {
        add_part(into, p)?;
    }
    Ok(())
}

// Whether the instrumenter declares it.
fn declares_added(d: &Declarator) -> bool
    ensures { result ≡ declares_added (name_of (declarator_of d.now)) }
{
    match name_of(d) {
        Some(x) => is_added(x.name.as_slice()),
        None => false,
    }
}

// Whether all names that are declared are the instrumenter's.
fn are_added(ps: &[DeclPart]) -> bool
    ensures { result ≡ are_added (parts_of ps.now) }
{
    match ps {
        [] => true,
        [p, ps @ ..] => {
            if !declares_added(&p.declarator) {
                return false;
            }
            are_added(ps)
        }
    }
}

fn add_whole<'t>(into: &mut Vec<&'t [u8]>, decl: &'t Decl) -> Result<(), OutOfMemory>
    ensures { OnOk result (seen into.new.items ≡ seen into.old.items ++ (tags_of_spec (spec_of decl.now.spec) ++ tags_of_parts (parts_of decl.now.parts.items))) }
{
    add_spec(into, &decl.spec)?;
    add_parts(into, &decl.parts)
}

// Adds the tags in a declaration; where the instrumenter's are left aside, none of those.
fn add_decl<'t>(into: &mut Vec<&'t [u8]>, aside: bool, decl: &'t Decl) -> Result<(), OutOfMemory>
    ensures { OnOk result (seen into.new.items ≡ seen into.old.items ++ tags_of_decl aside (decl_of decl.now)) }
{
    if aside {
        if are_added(&decl.parts) {
            return Ok(());
        }
    }
    add_whole(into, decl)
}

fn add_first<'t>(
    into: &mut Vec<&'t [u8]>,
    aside: bool,
    first: &'t ForFirst,
) -> Result<(), OutOfMemory>
    ensures { OnOk result (seen into.new.items ≡ seen into.old.items ++ tags_of_first aside (first_of_head first.now)) }
{
    match first {
        ForFirst::Absent => Ok(()),
        ForFirst::Expr(e) => add_expr(into, e),
        ForFirst::Declaration(decl) => add_decl(into, aside, decl),
    }
}

fn add_label<'t>(into: &mut Vec<&'t [u8]>, label: &'t Label) -> Result<(), OutOfMemory>
    ensures { OnOk result (seen into.new.items ≡ seen into.old.items ++ tags_of_label label.now) }
{
    match &label.kind {
        LabelKind::Case(e) => add_expr(into, e),
        LabelKind::Default => Ok(()),
    }
}

fn add_labels<'t>(into: &mut Vec<&'t [u8]>, labels: &'t [Label]) -> Result<(), OutOfMemory>
    ensures { OnOk result (seen into.new.items ≡ seen into.old.items ++ tags_of_labels (labels_of labels.now)) }
{
    for label in labels {
        add_label(into, label)?;
    }
    Ok(())
}

// Adds the tags in a statement.
#[cycle(tags_in_statement)]
fn add_statement<'t>(into: &mut Vec<&'t [u8]>, aside: bool, s: &'t Stmt) -> Result<(), OutOfMemory>
    ensures { OnOk result (seen into.new.items ≡ seen into.old.items ++ tags_of_stmt aside (stmt_of s.now)) }
{
    match &s.kind {
        StmtKind::Empty | StmtKind::Break | StmtKind::Continue => Ok(()),
        StmtKind::Block(items) => add_block(into, aside, items),
        StmtKind::Expr(e) => add_expr(into, e),
        StmtKind::If { test, yes, no } => {
            add_expr(into, test)?;
            add_statement(into, aside, yes)?;
            match no {
                Some(no) => add_statement(into, aside, no),
                None => Ok(()),
            }
        }
        StmtKind::While { test, body } => {
            add_expr(into, test)?;
            add_statement(into, aside, body)
        }
        StmtKind::Do { body, test } => {
            add_statement(into, aside, body)?;
            add_expr(into, test)
        }
        StmtKind::For {
            first,
            test,
            step,
            body,
        } => {
            add_first(into, aside, first)?;
            add_boxed(into, test)?;
            add_boxed(into, step)?;
            add_statement(into, aside, body)
        }
        StmtKind::Switch { on, groups } => {
            add_expr(into, on)?;
            add_groups(into, aside, groups)
        }
        StmtKind::Return(e) => add_boxed(into, e),
    }
}

#[cycle(tags_in_statement)]
fn add_block<'t>(
    into: &mut Vec<&'t [u8]>,
    aside: bool,
    items: &'t [BlockItem],
) -> Result<(), OutOfMemory>
    ensures { OnOk result (seen into.new.items ≡ seen into.old.items ++ tags_of_block aside (block_items_of items.now)) }
{
    for item in items {
        add_block_item(into, aside, item)?;
    }
    Ok(())
}

#[cycle(tags_in_statement)]
fn add_block_item<'t>(
    into: &mut Vec<&'t [u8]>,
    aside: bool,
    item: &'t BlockItem,
) -> Result<(), OutOfMemory>
    ensures { OnOk result (seen into.new.items ≡ seen into.old.items ++ tags_of_block_item aside item.now) }
{
    match item {
        BlockItem::Declaration(decl) => add_decl(into, aside, decl),
        BlockItem::Statement(s) => add_statement(into, aside, s),
    }
}

#[cycle(tags_in_statement)]
fn add_statements<'t>(
    into: &mut Vec<&'t [u8]>,
    aside: bool,
    ss: &'t [Stmt],
) -> Result<(), OutOfMemory>
    ensures { OnOk result (seen into.new.items ≡ seen into.old.items ++ tags_of_stmts aside (stmts_of ss.now)) }
{
    for s in ss {
        add_statement(into, aside, s)?;
    }
    Ok(())
}

#[cycle(tags_in_statement)]
fn add_groups<'t>(into: &mut Vec<&'t [u8]>, aside: bool, gs: &'t [Group]) -> Result<(), OutOfMemory>
    ensures { OnOk result (seen into.new.items ≡ seen into.old.items ++ tags_of_groups aside (groups_of gs.now)) }
{
    for g in gs {
        add_group(into, aside, g)?;
    }
    Ok(())
}

#[cycle(tags_in_statement)]
fn add_group<'t>(into: &mut Vec<&'t [u8]>, aside: bool, g: &'t Group) -> Result<(), OutOfMemory>
    ensures { OnOk result (seen into.new.items ≡ seen into.old.items ++ tags_of_group aside g.now) }
{
    add_labels(into, &g.labels)?;
    add_statements(into, aside, &g.body)
}

fn add_declarators<'t>(into: &mut Vec<&'t [u8]>, ds: &'t [Declarator]) -> Result<(), OutOfMemory>
    ensures { OnOk result (seen into.new.items ≡ seen into.old.items ++ tags_of_declarators (declarators_of ds.now)) }
{
    for d in ds {
        add_declarator(into, d)?;
    }
    Ok(())
}

fn add_member<'t>(into: &mut Vec<&'t [u8]>, m: &'t Member) -> Result<(), OutOfMemory>
    ensures { OnOk result (seen into.new.items ≡ seen into.old.items ++ tags_of_member m.now) }
{
    add_spec(into, &m.spec)?;
    add_declarators(into, &m.declarators)
}

fn add_members<'t>(into: &mut Vec<&'t [u8]>, ms: &'t [Member]) -> Result<(), OutOfMemory>
    ensures { OnOk result (seen into.new.items ≡ seen into.old.items ++ tags_of_members (members_of ms.now)) }
{
    for m in ms {
        add_member(into, m)?;
    }
    Ok(())
}

// Adds the tags in the list of an enum.
pub fn add_enumerators<'t>(
    into: &mut Vec<&'t [u8]>,
    es: &'t [Enumerator],
) -> Result<(), OutOfMemory>
    ensures { OnOk result (seen into.new.items ≡ seen into.old.items ++ tags_of_enumerators (enumerators_of es.now)) }
{
    for e in es {
        add_maybe(into, &e.value)?;
    }
    Ok(())
}

// Adds the tags in an item.
pub fn add_tags<'t>(
    into: &mut Vec<&'t [u8]>,
    aside: bool,
    item: &'t Item,
) -> Result<(), OutOfMemory>
    ensures { OnOk result (seen into.new.items ≡ seen into.old.items ++ tags_of_tree aside item.now) }
{
    match &item.kind {
        ItemKind::Struct { tag, members } => {
            add(into, tag.name.as_slice())?;
            add_members(into, members)
        }
        ItemKind::Enum { list, .. } => add_enumerators(into, list),
        ItemKind::Tag(tag) => add(into, tag.name.as_slice()),
        ItemKind::Declaration(decl) => add_decl(into, aside, decl),
        ItemKind::Function {
            spec,
            declarator,
            body,
            ..
        } => {
            add_spec(into, spec)?;
            add_declarator(into, declarator)?;
            add_statement(into, aside, body)
        }
    }
}
