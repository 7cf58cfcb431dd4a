ghost use Rattle.std.specs.Prelude.{◌≡◌, ◌<◌, suc, max};
ghost use Rattle.c_syntax.specs.Limits.{height, height_of_exprs, height_of_maybe, height_of_type, height_of_declarator, height_of_params};
ghost use Rattle.c_syntax.specs.Tree.{Params};
ghost use Rattle.c_syntax.specs.View.{expr_of, type_name_of, param_before};
ghost use Rattle.c_syntax.specs.Writes.{exprs_of, params_of, declarator_behind, expr_behind};
ghost use Rattle.c_parser_phrases.specs.Deepest.{IsDeeper, IsAround, IsPlace};

use c_syntax::{Declarator, Expr, Param, TypeName};

// How many counted nodes stand in each other, and where the leftmost of the deepest begins.
#[derive(Clone, Copy)]
pub struct Depth {
    pub height: u32,
    pub deepest: u32,
}

impl Depth {
    // The depth of what has no node, before the place.
    pub fn none(at: u32) -> Depth
        ensures { result.height ≡ 0 }
    {
        Depth {
            height: 0,
            deepest: at,
        }
    }

    // The depth of a node with none inside, at the place.
    pub fn leaf(at: u32) -> Depth
        ensures height { result.height ≡ 1 }
        ensures place { result.deepest ≡ at }
    {
        Depth {
            height: 1,
            deepest: at,
        }
    }

    // The place of the deepest node, or the one that is given where there is none.
    pub fn place_or(self, at: u32) -> u32
        ensures { IsPlace at self result }
    {
        if self.height == 0 {
            return at;
        }
        self.deepest
    }

    // The depth of both, side by side.
    pub fn beside(self, other: Depth) -> Depth
        ensures height { result.height ≡ max self.height other.height }
        ensures deeper { IsDeeper self other result }
    {
        if self.height < other.height {
            return other;
        }
        self
    }

    // The depth of a node at the place with this inside.
    pub fn enclosed(self, at: u32) -> Depth
        requires { self.height < 4294967295 }
        ensures height { result.height ≡ suc self.height }
        ensures around { IsAround at self result }
    {
        if self.height == 0 {
            return Depth::leaf(at);
        }
        Depth {
            height: self.height + 1,
            deepest: self.deepest,
        }
    }
}

// An expression and its depth.
#[derive(Drop)]
pub struct MeasuredExpr {
    pub tree: Box<Expr>,
    pub depth: Depth,
    pub ghost exact: { depth.height ≡ height (expr_of tree.value) },
}

// Expressions and their depth, side by side.
#[derive(Drop)]
pub struct MeasuredExprs {
    pub trees: Vec<Expr>,
    pub depth: Depth,
    pub ghost exact: { depth.height ≡ height_of_exprs (exprs_of trees.items) },
}

// The size of an array, where one stands, and its depth.
#[derive(Drop)]
pub struct MeasuredSize {
    pub tree: Option<Box<Expr>>,
    pub depth: Depth,
    pub ghost exact: { depth.height ≡ height_of_maybe (expr_behind tree) },
}

// The name of a type and its depth.
#[derive(Drop)]
pub struct MeasuredType {
    pub name: TypeName,
    pub depth: Depth,
    pub ghost exact: { depth.height ≡ height_of_type (type_name_of name) },
}

// A declarator, or None where none stands, and its depth.
#[derive(Drop)]
pub struct MeasuredDeclarator {
    pub tree: Option<Box<Declarator>>,
    pub depth: Depth,
    pub ghost exact: { depth.height ≡ height_of_declarator (declarator_behind tree) },
}

// A parameter and its depth, and whether it is `void` with no declarator.
#[derive(Drop)]
pub struct MeasuredParam {
    pub param: Param,
    pub depth: Depth,
    pub is_void: bool,
    pub ghost exact: { (rest : Params) → max depth.height (height_of_params rest) ≡ height_of_params (param_before param rest) },
}

// Parameters and their depth, side by side.
#[derive(Drop)]
pub struct MeasuredParams {
    pub params: Vec<Param>,
    pub depth: Depth,
    pub ghost exact: { depth.height ≡ height_of_params (params_of params.items) },
}
