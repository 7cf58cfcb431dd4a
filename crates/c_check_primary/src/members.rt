ghost use Rattle.std.specs.Prelude.{◌≡◌, ◌<◌, ◌^◌, length, map, IfOk, IfSome, slice_index_or};
ghost use Rattle.c_check_values.specs.Agreement.{AgreesWith};
ghost use Rattle.c_check_values.specs.TypedExpressionView.{typed_expression_of};
ghost use Rattle.c_check_values.specs.Shown.{knowns_of, members_types};
ghost use Rattle.c_rules.specs.Constants.{constant_member};
ghost use Rattle.c_rules.specs.TypedExpression.{a_place, tree_of};
ghost use Rattle.c_rules.specs.Names.{number_among};
ghost use Rattle.c_rules.specs.PostfixExpressions.{name_of_member, member_given, member_of_struct, member_of};
ghost use Rattle.c_rules.specs.Scopes.{layout_of, struct_of, type_of_member};
ghost use Rattle.c_check_values.specs.View.{env_of, member_of as member_seen};
ghost use Rattle.c_tree.specs.Layout.{cells, cells_of_all, first_cell};
ghost use Rattle.c_tree.specs.Tree.{field, void};
ghost use Rattle.c_tree.specs.View.{ctype_of};

use crate::names::answered;
use c_check_values::{
    C1, C3, CheckError, Environment, Form, StructMember, TypedExpression, constant_member,
};
use c_tree::{CType, TExpr, TExprKind, copy_type};
use dm_base::OutOfMemory;
use std::alloc::Global;

// The number of the member with this name.
fn number_of(members: &[StructMember<'_>], name: &[u8]) -> Option<usize>
    ensures within { IfSome result (λ k. k < length members.now) }
    ensures told { result ≡ number_among (map name_of_member (map member_seen (knowns_of members.now))) name.now }
{
    for i in 0..members.len() {
        if members[i].name == name {
            return Some(i);
        }
    }
    None
}

// The type of the member with this number.
fn type_at<'m>(members: &'m [StructMember<'_>], k: usize) -> &'m CType
    requires { k < length members.now }
    ensures { ctype_of result.now ≡ slice_index_or (map type_of_member (map member_seen (knowns_of members.now))) k void }
{
    &members[k].ctype
}

// The first cell of the member with this number.
fn cell_at(env: &Environment<'_>, members: &[StructMember<'_>], k: usize) -> u32
    requires within { k < length members.now }
    requires few { cells_of_all (layout_of (env_of env.now)) (members_types members.now) < 2 ^ 32 }
    ensures { result ≡ first_cell (layout_of (env_of env.now)) (map type_of_member (map member_seen (knowns_of members.now))) k }
{
    env.first_cell(members, k)
}

// How many cells the member with this number has.
fn cells_at(env: &Environment<'_>, members: &[StructMember<'_>], k: usize) -> u32
    requires within { k < length members.now }
    requires few { cells_of_all (layout_of (env_of env.now)) (members_types members.now) < 2 ^ 32 }
    ensures { result ≡ cells (layout_of (env_of env.now)) (slice_index_or (map type_of_member (map member_seen (knowns_of members.now))) k void) }
{
    env.member_cells(members, k)
}

// A member of this type that begins at this cell of its struct and has so many.
fn member_placed(
    alloc: Global,
    t: &CType,
    first: u32,
    cells: u32,
    g: TypedExpression,
) -> Result<TypedExpression, OutOfMemory>
    ensures { IfOk result (λ r. typed_expression_of r ≡ record { ctype = ctype_of t.now; form = a_place (field (ctype_of t.now) first (tree_of (typed_expression_of g))); constant = constant_member first cells (typed_expression_of g).constant }) }
{
    let constant = constant_member(first, cells, g.constant);
    let ctype = copy_type(alloc, t)?;
    let copied = copy_type(alloc, t)?;
    let tree = g.into_tree(alloc)?;
    Ok(TypedExpression {
        ctype,
        form: Form::Place(TExpr {
            ctype: copied,
            kind: TExprKind::Field(Box::new(alloc, tree)?, first),
        }),
        constant,
    })
}

// The member with this number.
fn member_given(
    alloc: Global,
    env: &Environment<'_>,
    members: &[StructMember<'_>],
    g: TypedExpression,
    k: usize,
) -> Result<TypedExpression, OutOfMemory>
    requires within { k < length members.now }
    requires few { cells_of_all (layout_of (env_of env.now)) (members_types members.now) < 2 ^ 32 }
    ensures { IfOk result (λ r. typed_expression_of r ≡ member_given (env_of env.now) (map member_seen (knowns_of members.now)) (typed_expression_of g) k) }
{
    let t = type_at(members, k);
    let first = cell_at(env, members, k);
    let cells = cells_at(env, members, k);
    member_placed(alloc, t, first, cells, g)
}

// A member of a struct that has its definition.
fn member_of_struct(
    alloc: Global,
    env: &Environment<'_>,
    at: u32,
    name: &[u8],
    g: TypedExpression,
    s: u32,
) -> Result<TypedExpression, CheckError>
    ensures { AgreesWith typed_expression_of result (member_of_struct (env_of env.now) at name.now (typed_expression_of g) (struct_of (env_of env.now) s)) }
{
    match env.members(s) {
        None => Err(CheckError::At(C1, at)),
        Some(members) => match number_of(members, name) {
            None => Err(CheckError::At(C1, at)),
            Some(k) => {
                env.have_few_cells(s);
                answered(member_given(alloc, env, members, g, k))
            }
        },
    }
}

/// `.` and a member (C99 6.5.2.3).
pub fn member_of(
    alloc: Global,
    env: &Environment<'_>,
    at: u32,
    name: &[u8],
    g: TypedExpression,
) -> Result<TypedExpression, CheckError>
    ensures { AgreesWith typed_expression_of result (member_of (env_of env.now) at name.now (typed_expression_of g)) }
{
    match &g.ctype {
        CType::Struct(s) => {
            let s = *s;
            member_of_struct(alloc, env, at, name, g, s)
        }
        _ => Err(CheckError::At(C3, at)),
    }
}
