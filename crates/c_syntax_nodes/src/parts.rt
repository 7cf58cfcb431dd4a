// Copies of labels, declarations, members and enumerators.

ghost use Rattle.std.specs.Prelude.{◌≡◌, IfOk, map};
ghost use Rattle.c_syntax.specs.Tree.{list};
ghost use Rattle.c_syntax.specs.View.{declarator_of};
ghost use Rattle.c_syntax.specs.UnitView.{maybe_of, labels_of, init_of, maybe_init_of, parts_of, decl_of, declarators_of, members_of, enumerators_of, tag_of};
ghost use Rattle.c_syntax.specs.WritesUnit.{inits_of};
ghost use Rattle.c_syntax_nodes.specs.Copied.{label_of, part_of, member_of, enumerator_of};

use crate::copies::{copy_declarator, copy_expr, copy_ident, copy_spec};
use c_syntax::{
    Decl, DeclPart, Declarator, Enumerator, Expr, Ident, Init, InitKind, Label, LabelKind, Member,
};
use dm_base::OutOfMemory;
use std::alloc::Global;

fn copy_label(alloc: Global, label: &Label) -> Result<Label, OutOfMemory>
    ensures { IfOk result (λ copied. label_of copied ≡ label_of label.now) }
{
    let at = label.at;
    match &label.kind {
        LabelKind::Case(e) => {
            let value = copy_expr(alloc, e)?;
            Ok(Label {
                at,
                kind: LabelKind::Case(value),
            })
        }
        LabelKind::Default => Ok(Label {
            at,
            kind: LabelKind::Default,
        }),
    }
}

/// Copies of the labels of a switch (C99 6.8.1), in order.
pub fn copy_labels(alloc: Global, labels: &[Label]) -> Result<Vec<Label>, OutOfMemory>
    ensures { IfOk result (λ copied. labels_of copied.items ≡ labels_of labels.now) }
{
    let mut copied = Vec::new(alloc);
    for i in 0..labels.len() {
        let one = copy_label(alloc, &labels[i])?;
        copied.push(one)?;
    }
    Ok(copied)
}

// An initialiser in braces.
fn list_node(at: u32, inits: Vec<Init>) -> Init
    ensures { init_of result ≡ list at (inits_of inits.items) }
{
    Init {
        at,
        kind: InitKind::List(inits),
    }
}

// A copy of the initialiser (C99 6.7.8).
#[cycle(copying_init)]
fn copy_init(alloc: Global, i: &Init) -> Result<Init, OutOfMemory>
    ensures { IfOk result (λ copied. init_of copied ≡ init_of i.now) }
{
    let at = i.at;
    match &i.kind {
        InitKind::One(e) => {
            let value = copy_expr(alloc, e)?;
            Ok(Init {
                at,
                kind: InitKind::One(value),
            })
        }
        InitKind::List(inits) => {
            let values = copy_inits(alloc, inits)?;
            Ok(list_node(at, values))
        }
    }
}

#[cycle(copying_init)]
fn copy_inits(alloc: Global, list: &[Init]) -> Result<Vec<Init>, OutOfMemory>
    ensures { IfOk result (λ copied. map init_of copied.items ≡ map init_of list.now) }
{
    let mut copied = Vec::new(alloc);
    for i in 0..list.len() {
        let one = copy_init(alloc, &list[i])?;
        copied.push(one)?;
    }
    Ok(copied)
}

fn copy_maybe_init(alloc: Global, i: &Option<Init>) -> Result<Option<Init>, OutOfMemory>
    ensures { IfOk result (λ copied. maybe_init_of copied ≡ maybe_init_of i.now) }
{
    match i {
        Some(i) => Ok(Some(copy_init(alloc, i)?)),
        None => Ok(None),
    }
}

fn copy_part(alloc: Global, p: &DeclPart) -> Result<DeclPart, OutOfMemory>
    ensures { IfOk result (λ copied. part_of copied ≡ part_of p.now) }
{
    let declarator = copy_declarator(alloc, &p.declarator)?;
    let init = copy_maybe_init(alloc, &p.init)?;
    Ok(DeclPart { declarator, init })
}

fn copy_parts(alloc: Global, ps: &[DeclPart]) -> Result<Vec<DeclPart>, OutOfMemory>
    ensures { IfOk result (λ copied. parts_of copied.items ≡ parts_of ps.now) }
{
    let mut copied = Vec::new(alloc);
    for i in 0..ps.len() {
        let one = copy_part(alloc, &ps[i])?;
        copied.push(one)?;
    }
    Ok(copied)
}

/// A copy of the declaration (C99 6.7).
pub fn copy_decl(alloc: Global, d: &Decl) -> Result<Decl, OutOfMemory>
    ensures { IfOk result (λ copied. decl_of copied ≡ decl_of d.now) }
{
    let spec = copy_spec(alloc, &d.spec)?;
    let parts = copy_parts(alloc, &d.parts)?;
    Ok(Decl {
        storage: d.storage,
        spec,
        parts,
        at: d.at,
    })
}

fn copy_declarators(alloc: Global, ds: &[Declarator]) -> Result<Vec<Declarator>, OutOfMemory>
    ensures { IfOk result (λ copied. declarators_of copied.items ≡ declarators_of ds.now) }
{
    let mut copied = Vec::new(alloc);
    for i in 0..ds.len() {
        let one = copy_declarator(alloc, &ds[i])?;
        copied.push(one)?;
    }
    Ok(copied)
}

fn copy_member(alloc: Global, member: &Member) -> Result<Member, OutOfMemory>
    ensures { IfOk result (λ copied. member_of copied ≡ member_of member.now) }
{
    let spec = copy_spec(alloc, &member.spec)?;
    let declarators = copy_declarators(alloc, &member.declarators)?;
    Ok(Member {
        spec,
        declarators,
        at: member.at,
    })
}

/// Copies of the members of a struct (C99 6.7.2.1), in order.
pub fn copy_members(alloc: Global, members: &[Member]) -> Result<Vec<Member>, OutOfMemory>
    ensures { IfOk result (λ copied. members_of copied.items ≡ members_of members.now) }
{
    let mut copied = Vec::new(alloc);
    for i in 0..members.len() {
        let one = copy_member(alloc, &members[i])?;
        copied.push(one)?;
    }
    Ok(copied)
}

fn copy_value(alloc: Global, value: &Option<Expr>) -> Result<Option<Expr>, OutOfMemory>
    ensures { IfOk result (λ copied. maybe_of copied ≡ maybe_of value.now) }
{
    match value {
        Some(e) => Ok(Some(copy_expr(alloc, e)?)),
        None => Ok(None),
    }
}

fn copy_enumerator(alloc: Global, one: &Enumerator) -> Result<Enumerator, OutOfMemory>
    ensures { IfOk result (λ copied. enumerator_of copied ≡ enumerator_of one.now) }
{
    let name = copy_ident(alloc, &one.name)?;
    let value = copy_value(alloc, &one.value)?;
    Ok(Enumerator { name, value })
}

/// Copies of the enumerators of an enum (C99 6.7.2.2), in order.
pub fn copy_enumerators(alloc: Global, list: &[Enumerator]) -> Result<Vec<Enumerator>, OutOfMemory>
    ensures { IfOk result (λ copied. enumerators_of copied.items ≡ enumerators_of list.now) }
{
    let mut copied = Vec::new(alloc);
    for i in 0..list.len() {
        let one = copy_enumerator(alloc, &list[i])?;
        copied.push(one)?;
    }
    Ok(copied)
}

/// A copy of the tag of an enum, where one stands.
pub fn copy_tag(alloc: Global, tag: &Option<Ident>) -> Result<Option<Ident>, OutOfMemory>
    ensures { IfOk result (λ copied. tag_of copied ≡ tag_of tag.now) }
{
    match tag {
        Some(x) => Ok(Some(copy_ident(alloc, x)?)),
        None => Ok(None),
    }
}
