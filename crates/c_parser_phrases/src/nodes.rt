// The nodes of expressions and declarators, with their depths.

ghost use Rattle.std.specs.Prelude.{◌≡◌, ◌<◌, ◌↔◌, IsTrue, IfOk, suc, max};
ghost use Rattle.c_syntax.specs.Tree.{comma, sizeof_type, cast, call, member, dot, arrow, postfix, post_increment, post_decrement, prefix, sizeof, unary, index, binary, assign, conditional, named, pointer, array, function, type_name, nothing, absent, there, void, Params, more_params};
ghost use Rattle.c_syntax.specs.Tree.{no_exprs as no_expr, no_params as no_param};
ghost use Rattle.c_syntax.specs.Limits.{height, height_of_declarator};
ghost use Rattle.c_syntax.specs.View.{ident_of, spec_of, expr_at, declarator_at, type_name_of, param_before};
ghost use Rattle.c_parser_phrases.specs.Looking.{infix_of, step_of};
ghost use Rattle.c_parser_phrases.specs.Deep.{IsDeep, AreDeep, IsDeepSize, IsDeepType, IsDeepDeclarator, AreDeepParams};
ghost use Rattle.c_parser_phrases.specs.Inside.{IsInside, IsInsideDeclarator};
ghost use Rattle.c_parser_phrases.specs.Making.{tree_of, trees_of, size_of, inner_of, list_of, Makes, MakesDeclarator, IsStep, IsBetween, IsVoidAlone};

use crate::depth::{
    Depth, MeasuredDeclarator, MeasuredExpr, MeasuredExprs, MeasuredParam, MeasuredParams,
    MeasuredSize, MeasuredType,
};
use crate::error::PhraseError;
use crate::looking::{Infix, Step};
use c_syntax::{Declarator, DeclaratorKind, Expr, ExprKind, Ident, Param, Spec, TypeName};
use std::alloc::Global;

// The node at the place, around what has the depth.
fn measured(
    alloc: Global,
    at: u32,
    kind: ExprKind,
    inside: Depth,
) -> Result<MeasuredExpr, PhraseError>
    requires low { inside.height < 4294967295 }
    requires exact { suc (inside.height) ≡ height (expr_at at kind) }
    ensures makes { Makes result (expr_at at kind) }
    ensures height { IfOk result (λ m. m.depth.height ≡ suc (inside.height)) }
    ensures deep { IsInside inside (expr_at at kind) → IfOk result (λ m. IsDeep m) }
{
    Ok(MeasuredExpr {
        tree: Box::new(alloc, Expr { at, kind })?,
        depth: inside.enclosed(at),
    })
}

pub fn comma_node(alloc: Global, at: u32, list: MeasuredExprs) -> Result<MeasuredExpr, PhraseError>
    requires { list.depth.height < 4294967295 }
    ensures makes { Makes result (comma at (trees_of list)) }
    ensures height { IfOk result (λ m. m.depth.height ≡ suc (list.depth.height)) }
    ensures deep { AreDeep list → IfOk result (λ m. IsDeep m) }
{
    measured(alloc, at, ExprKind::Comma(list.trees), list.depth)
}

pub fn sizeof_type_node(
    alloc: Global,
    at: u32,
    target: MeasuredType,
) -> Result<MeasuredExpr, PhraseError>
    requires { target.depth.height < 4294967295 }
    ensures makes { Makes result (sizeof_type at (type_name_of target.name)) }
    ensures height { IfOk result (λ m. m.depth.height ≡ suc (target.depth.height)) }
    ensures deep { IsDeepType target → IfOk result (λ m. IsDeep m) }
{
    measured(alloc, at, ExprKind::SizeofType(target.name), target.depth)
}

pub fn cast_node(
    alloc: Global,
    at: u32,
    target: MeasuredType,
    a: MeasuredExpr,
) -> Result<MeasuredExpr, PhraseError>
    requires target_low { target.depth.height < 4294967295 }
    requires a_low { a.depth.height < 4294967295 }
    ensures makes { Makes result (cast at (type_name_of target.name) (tree_of a)) }
    ensures height { IfOk result (λ m. m.depth.height ≡ suc (max target.depth.height a.depth.height)) }
    ensures deep { IsDeepType target → IsDeep a → IfOk result (λ m. IsDeep m) }
{
    measured(
        alloc,
        at,
        ExprKind::Cast(target.name, a.tree),
        target.depth.beside(a.depth),
    )
}

pub fn call_node(
    alloc: Global,
    at: u32,
    a: MeasuredExpr,
    list: MeasuredExprs,
) -> Result<MeasuredExpr, PhraseError>
    requires a_low { a.depth.height < 4294967295 }
    requires list_low { list.depth.height < 4294967295 }
    ensures makes { Makes result (call at (tree_of a) (trees_of list)) }
    ensures height { IfOk result (λ m. m.depth.height ≡ suc (max a.depth.height list.depth.height)) }
    ensures deep { IsDeep a → AreDeep list → IfOk result (λ m. IsDeep m) }
{
    measured(
        alloc,
        at,
        ExprKind::Call(a.tree, list.trees),
        a.depth.beside(list.depth),
    )
}

pub fn member_node(
    alloc: Global,
    at: u32,
    a: MeasuredExpr,
    name: Ident,
) -> Result<MeasuredExpr, PhraseError>
    requires { a.depth.height < 4294967295 }
    ensures makes { Makes result (member at dot (tree_of a) (ident_of name)) }
    ensures height { IfOk result (λ m. m.depth.height ≡ suc (a.depth.height)) }
    ensures deep { IsDeep a → IfOk result (λ m. IsDeep m) }
{
    measured(alloc, at, ExprKind::Member(a.tree, name), a.depth)
}

pub fn arrow_node(
    alloc: Global,
    at: u32,
    a: MeasuredExpr,
    name: Ident,
) -> Result<MeasuredExpr, PhraseError>
    requires { a.depth.height < 4294967295 }
    ensures makes { Makes result (member at arrow (tree_of a) (ident_of name)) }
    ensures height { IfOk result (λ m. m.depth.height ≡ suc (a.depth.height)) }
    ensures deep { IsDeep a → IfOk result (λ m. IsDeep m) }
{
    measured(alloc, at, ExprKind::Arrow(a.tree, name), a.depth)
}

pub fn increased_node(alloc: Global, at: u32, a: MeasuredExpr) -> Result<MeasuredExpr, PhraseError>
    requires { a.depth.height < 4294967295 }
    ensures makes { Makes result (postfix at post_increment (tree_of a)) }
    ensures height { IfOk result (λ m. m.depth.height ≡ suc (a.depth.height)) }
    ensures deep { IsDeep a → IfOk result (λ m. IsDeep m) }
{
    measured(alloc, at, ExprKind::PostInc(a.tree), a.depth)
}

pub fn decreased_node(alloc: Global, at: u32, a: MeasuredExpr) -> Result<MeasuredExpr, PhraseError>
    requires { a.depth.height < 4294967295 }
    ensures makes { Makes result (postfix at post_decrement (tree_of a)) }
    ensures height { IfOk result (λ m. m.depth.height ≡ suc (a.depth.height)) }
    ensures deep { IsDeep a → IfOk result (λ m. IsDeep m) }
{
    measured(alloc, at, ExprKind::PostDec(a.tree), a.depth)
}

fn step_kind(step: Step, a: Box<Expr>) -> ExprKind
    ensures { IsStep result step a }
{
    match step {
        Step::Increment => ExprKind::PreInc(a),
        Step::Decrement => ExprKind::PreDec(a),
    }
}

pub fn step_node(
    alloc: Global,
    at: u32,
    step: Step,
    a: MeasuredExpr,
) -> Result<MeasuredExpr, PhraseError>
    requires { a.depth.height < 4294967295 }
    ensures makes { Makes result (prefix at (step_of step) (tree_of a)) }
    ensures height { IfOk result (λ m. m.depth.height ≡ suc (a.depth.height)) }
    ensures deep { IsDeep a → IfOk result (λ m. IsDeep m) }
{
    measured(alloc, at, step_kind(step, a.tree), a.depth)
}

pub fn sizeof_node(alloc: Global, at: u32, a: MeasuredExpr) -> Result<MeasuredExpr, PhraseError>
    requires { a.depth.height < 4294967295 }
    ensures makes { Makes result (prefix at sizeof (tree_of a)) }
    ensures height { IfOk result (λ m. m.depth.height ≡ suc (a.depth.height)) }
    ensures deep { IsDeep a → IfOk result (λ m. IsDeep m) }
{
    measured(alloc, at, ExprKind::SizeofExpr(a.tree), a.depth)
}

pub fn unary_node(
    alloc: Global,
    at: u32,
    operator: u8,
    a: MeasuredExpr,
) -> Result<MeasuredExpr, PhraseError>
    requires { a.depth.height < 4294967295 }
    ensures makes { Makes result (unary at operator (tree_of a)) }
    ensures height { IfOk result (λ m. m.depth.height ≡ suc (a.depth.height)) }
    ensures deep { IsDeep a → IfOk result (λ m. IsDeep m) }
{
    measured(alloc, at, ExprKind::Unary(operator, a.tree), a.depth)
}

pub fn index_node(
    alloc: Global,
    at: u32,
    a: MeasuredExpr,
    b: MeasuredExpr,
) -> Result<MeasuredExpr, PhraseError>
    requires a_low { a.depth.height < 4294967295 }
    requires b_low { b.depth.height < 4294967295 }
    ensures makes { Makes result (index at (tree_of a) (tree_of b)) }
    ensures height { IfOk result (λ m. m.depth.height ≡ suc (max a.depth.height b.depth.height)) }
    ensures deep { IsDeep a → IsDeep b → IfOk result (λ m. IsDeep m) }
{
    measured(
        alloc,
        at,
        ExprKind::Index(a.tree, b.tree),
        a.depth.beside(b.depth),
    )
}

fn binary_kind(between: Infix, a: Box<Expr>, b: Box<Expr>) -> ExprKind
    ensures { IsBetween result between a b }
{
    match between {
        Infix::And => ExprKind::And(a, b),
        Infix::Or => ExprKind::Or(a, b),
        Infix::Operator(code) => ExprKind::Binary(code, a, b),
    }
}

pub fn binary_node(
    alloc: Global,
    at: u32,
    between: Infix,
    a: MeasuredExpr,
    b: MeasuredExpr,
) -> Result<MeasuredExpr, PhraseError>
    requires a_low { a.depth.height < 4294967295 }
    requires b_low { b.depth.height < 4294967295 }
    ensures makes { Makes result (binary at (infix_of between) (tree_of a) (tree_of b)) }
    ensures height { IfOk result (λ m. m.depth.height ≡ suc (max a.depth.height b.depth.height)) }
    ensures deep { IsDeep a → IsDeep b → IfOk result (λ m. IsDeep m) }
{
    measured(
        alloc,
        at,
        binary_kind(between, a.tree, b.tree),
        a.depth.beside(b.depth),
    )
}

pub fn assign_node(
    alloc: Global,
    at: u32,
    operator: u8,
    a: MeasuredExpr,
    b: MeasuredExpr,
) -> Result<MeasuredExpr, PhraseError>
    requires a_low { a.depth.height < 4294967295 }
    requires b_low { b.depth.height < 4294967295 }
    ensures makes { Makes result (assign at operator (tree_of a) (tree_of b)) }
    ensures height { IfOk result (λ m. m.depth.height ≡ suc (max a.depth.height b.depth.height)) }
    ensures deep { IsDeep a → IsDeep b → IfOk result (λ m. IsDeep m) }
{
    measured(
        alloc,
        at,
        ExprKind::Assign(operator, a.tree, b.tree),
        a.depth.beside(b.depth),
    )
}

pub fn conditional_node(
    alloc: Global,
    at: u32,
    a: MeasuredExpr,
    b: MeasuredExpr,
    c: MeasuredExpr,
) -> Result<MeasuredExpr, PhraseError>
    requires a_low { a.depth.height < 4294967295 }
    requires b_low { b.depth.height < 4294967295 }
    requires c_low { c.depth.height < 4294967295 }
    ensures makes { Makes result (conditional at (tree_of a) (tree_of b) (tree_of c)) }
    ensures height { IfOk result (λ m. m.depth.height ≡ suc (max a.depth.height (max b.depth.height c.depth.height))) }
    ensures deep { IsDeep a → IsDeep b → IsDeep c → IfOk result (λ m. IsDeep m) }
{
    measured(
        alloc,
        at,
        ExprKind::Cond(a.tree, b.tree, c.tree),
        a.depth.beside(b.depth.beside(c.depth)),
    )
}

// The name of a type.
pub fn type_node(spec: Spec, inner: MeasuredDeclarator, at: u32) -> MeasuredType
    ensures makes { type_name_of result.name ≡ type_name at (spec_of spec) (inner_of inner) }
    ensures height { result.depth.height ≡ inner.depth.height }
    ensures depth { result.depth ≡ inner.depth }
{
    let depth = inner.depth;
    let inside = inner.tree;
    match inside {
        Some(tree) => MeasuredType {
            name: TypeName {
                spec,
                declarator: Some(Box::into_inner(tree)),
                at,
            },
            depth,
        },
        None => MeasuredType {
            name: TypeName {
                spec,
                declarator: None,
                at,
            },
            depth,
        },
    }
}

// The node at the place, around what has the depth.
fn measured_declarator(
    alloc: Global,
    at: u32,
    kind: DeclaratorKind,
    inside: Depth,
) -> Result<MeasuredDeclarator, PhraseError>
    requires low { inside.height < 4294967295 }
    requires exact { suc (inside.height) ≡ height_of_declarator (declarator_at at kind) }
    ensures makes { MakesDeclarator result (declarator_at at kind) }
    ensures height { IfOk result (λ m. m.depth.height ≡ suc (inside.height)) }
    ensures deep { IsInsideDeclarator inside (declarator_at at kind) → IfOk result (λ m. IsDeepDeclarator m) }
{
    Ok(MeasuredDeclarator {
        tree: Some(Box::new(alloc, Declarator { at, kind })?),
        depth: inside.enclosed(at),
    })
}

// No declarator, before the place.
pub fn no_declarator(at: u32) -> MeasuredDeclarator
    ensures makes { inner_of result ≡ nothing }
    ensures height { result.depth.height ≡ 0 }
{
    MeasuredDeclarator {
        tree: None,
        depth: Depth::none(at),
    }
}

pub fn name_node(alloc: Global, at: u32, name: Ident) -> Result<MeasuredDeclarator, PhraseError>
    ensures makes { MakesDeclarator result (named at (ident_of name)) }
    ensures height { IfOk result (λ m. m.depth.height ≡ 1) }
    ensures deep { IfOk result (λ m. IsDeepDeclarator m) }
{
    measured_declarator(alloc, at, DeclaratorKind::Name(name), Depth::none(at))
}

pub fn pointer_node(
    alloc: Global,
    at: u32,
    a: MeasuredDeclarator,
) -> Result<MeasuredDeclarator, PhraseError>
    requires { a.depth.height < 4294967295 }
    ensures makes { MakesDeclarator result (pointer at (inner_of a)) }
    ensures height { IfOk result (λ m. m.depth.height ≡ suc (a.depth.height)) }
    ensures deep { IsDeepDeclarator a → IfOk result (λ m. IsDeepDeclarator m) }
{
    measured_declarator(alloc, at, DeclaratorKind::Pointer(a.tree), a.depth)
}

pub fn array_node(
    alloc: Global,
    at: u32,
    a: MeasuredDeclarator,
    size: MeasuredSize,
) -> Result<MeasuredDeclarator, PhraseError>
    requires a_low { a.depth.height < 4294967295 }
    requires size_low { size.depth.height < 4294967295 }
    ensures makes { MakesDeclarator result (array at (inner_of a) (size_of size)) }
    ensures height { IfOk result (λ m. m.depth.height ≡ suc (max a.depth.height size.depth.height)) }
    ensures deep { IsDeepDeclarator a → IsDeepSize size → IfOk result (λ m. IsDeepDeclarator m) }
{
    let kind = DeclaratorKind::Array {
        inner: a.tree,
        size: size.tree,
    };
    measured_declarator(alloc, at, kind, a.depth.beside(size.depth))
}

pub fn function_node(
    alloc: Global,
    at: u32,
    a: MeasuredDeclarator,
    list: MeasuredParams,
) -> Result<MeasuredDeclarator, PhraseError>
    requires a_low { a.depth.height < 4294967295 }
    requires list_low { list.depth.height < 4294967295 }
    ensures makes { MakesDeclarator result (function at (inner_of a) (list_of list)) }
    ensures height { IfOk result (λ m. m.depth.height ≡ suc (max a.depth.height list.depth.height)) }
    ensures deep { IsDeepDeclarator a → AreDeepParams list → IfOk result (λ m. IsDeepDeclarator m) }
{
    let kind = DeclaratorKind::Function {
        inner: a.tree,
        params: list.params,
    };
    measured_declarator(alloc, at, kind, a.depth.beside(list.depth))
}

// A leaf of an expression, at the place.
pub fn leaf_node(alloc: Global, at: u32, kind: ExprKind) -> Result<MeasuredExpr, PhraseError>
    requires { height (expr_at at kind) ≡ 1 }
    ensures makes { Makes result (expr_at at kind) }
    ensures height { IfOk result (λ m. m.depth.height ≡ 1) }
    ensures deep { IfOk result (λ m. IsDeep m) }
{
    measured(alloc, at, kind, Depth::none(at))
}

// No arguments, before the place.
pub fn no_exprs(alloc: Global, at: u32) -> MeasuredExprs
    ensures makes { trees_of result ≡ no_expr }
    ensures height { result.depth.height ≡ 0 }
{
    MeasuredExprs {
        trees: Vec::new(alloc),
        depth: Depth::none(at),
    }
}

// No size, before the place.
pub fn no_size(at: u32) -> MeasuredSize
    ensures makes { size_of result ≡ absent }
    ensures height { result.depth.height ≡ 0 }
{
    MeasuredSize {
        tree: None,
        depth: Depth::none(at),
    }
}

// The expression as a size.
pub fn some_size(size: MeasuredExpr) -> MeasuredSize
    ensures makes { size_of result ≡ there (tree_of size) }
    ensures height { result.depth.height ≡ size.depth.height }
    ensures deep { IsDeep size → IsDeepSize result }
{
    MeasuredSize {
        tree: Some(size.tree),
        depth: size.depth,
    }
}

// No parameters, before the place.
pub fn no_params(alloc: Global, at: u32) -> MeasuredParams
    ensures makes { list_of result ≡ no_param }
    ensures height { result.depth.height ≡ 0 }
{
    MeasuredParams {
        params: Vec::new(alloc),
        depth: Depth::none(at),
    }
}

// A parameter.
pub fn param_node(spec: Spec, inner: MeasuredDeclarator, at: u32) -> MeasuredParam
    ensures makes { (rest : Params) → param_before result.param rest ≡ more_params at (spec_of spec) (inner_of inner) rest }
    ensures height { result.depth.height ≡ inner.depth.height }
    ensures alone { IsVoidAlone result.is_void (spec_of spec) (inner_of inner) }
    ensures depth { result.depth ≡ inner.depth }
{
    let depth = inner.depth;
    let inside = inner.tree;
    match inside {
        Some(tree) => MeasuredParam {
            param: Param {
                spec,
                declarator: Some(Box::into_inner(tree)),
                at,
            },
            depth,
            is_void: false,
        },
        None => {
            let is_void = is_void_word(&spec);
            MeasuredParam {
                param: Param {
                    spec,
                    declarator: None,
                    at,
                },
                depth,
                is_void,
            }
        }
    }
}

fn is_void_word(spec: &Spec) -> bool
    ensures { IsTrue result ↔ (spec_of spec.now ≡ void) }
{
    match spec {
        Spec::Void => true,
        Spec::Char => false,
        Spec::Uchar => false,
        Spec::Int => false,
        Spec::Uint => false,
        Spec::Struct(_) => false,
        Spec::Enum(_) => false,
    }
}
