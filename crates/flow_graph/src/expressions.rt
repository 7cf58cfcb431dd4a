ghost use Rattle.std.specs.Prelude.{◌≡◌, false, slice_index_or, IfOk};
ghost use Rattle.c_tree.specs.View.{expr_of, exprs_of, maybe_of, inits_of};
ghost use Rattle.c_meaning.specs.Shape.{Skip, End};
ghost use Rattle.c_meaning.specs.ShapeOf.{system_call, without_skips, seq, seq_two, alt as alt_of};
ghost use Rattle.flow_graph.specs.View.{shape_of, parts_of};
ghost use Rattle.flow_graph.specs.Sited.{call_at, direct_at, expr_at, exprs_at, maybe_at, inits_at};

use crate::arguments::pattern_of;
use crate::sequence::{add, between, in_turn, one_of, perhaps, then_last, two};
use crate::shape::Shape;
use c_tree::{TExpr, TExprKind, TInit};
use dm_base::{OutOfMemory, Pattern, SysName};
use std::alloc::Global;

// The number of `_exit`, which does not come back.
const EXIT: u8 = 23;

// What the shapes of a program's trees depend on: how many functions it defines, and which sites are marked.
#[derive(Clone, Copy)]
pub struct Reading<'p> {
    pub defined: u32,
    pub marks: &'p [bool],
}

// A call of a system call.
pub fn system_call(name: SysName, pattern: Pattern) -> Shape
    ensures { shape_of result ≡ system_call name pattern }
{
    if name.index() == EXIT {
        Shape::Exit(pattern)
    } else {
        Shape::Sys(name, pattern)
    }
}

impl<'p> Reading<'p> {
    // Whether the site is marked.
    fn is_marked(&self, site: u32) -> bool
        ensures { result ≡ slice_index_or self.now.marks.now site false }
    {
        let place = site as usize;
        if place < self.marks.len() {
            return self.marks[place];
        }
        false
    }

    // The call at the site, where it is marked.
    fn marked_call(&self, site: u32) -> Shape
        ensures { shape_of result ≡ call_at self.now.marks.now site }
    {
        if self.is_marked(site) {
            Shape::Call(site)
        } else {
            Shape::Skip
        }
    }

    // A direct call: of a defined function, of a system call with the pattern of its arguments, or a null call.
    fn direct_call(&self, site: u32, function: u32, arguments: &[TExpr]) -> Shape
        ensures { shape_of result ≡ direct_at self.now.defined self.now.marks.now site function (exprs_of arguments.now) }
    {
        if function < self.defined {
            return self.marked_call(site);
        }
        let number = function - self.defined;
        if number >= 24 {
            return Shape::Skip;
        }
        match SysName::from_index(number as u8) {
            Some(name) => system_call(name, pattern_of(name, arguments)),
            None => unreachable!(),
        }
    }

    // The shape of an expression, whose parts come in the order of their evaluation (C99 6.5).
    #[cycle(expressions)]
    pub fn expression(&self, alloc: Global, e: &TExpr) -> Result<Shape, OutOfMemory>
        ensures { IfOk result (λ s. shape_of s ≡ expr_at self.now.defined self.now.marks.now (expr_of e.now)) }
    {
        match &e.kind {
            TExprKind::Const(_)
            | TExprKind::Function(_)
            | TExprKind::StringPlace(_)
            | TExprKind::Variable { .. } => Ok(Shape::Skip),
            TExprKind::Deref(a)
            | TExprKind::Load(a)
            | TExprKind::AddressOf(a)
            | TExprKind::Decay(a)
            | TExprKind::Discard(a)
            | TExprKind::Field(a, _)
            | TExprKind::Unary(_, a)
            | TExprKind::Convert(_, a) => self.expression(alloc, a),
            TExprKind::Arith(_, a, b)
            | TExprKind::Compare(_, a, b)
            | TExprKind::PointerAdd {
                left: a,
                right: b,
                ..
            }
            | TExprKind::PointerDiff(a, b)
            | TExprKind::Assign(a, b)
            | TExprKind::Update {
                place: a,
                value: b,
                ..
            } => {
                let first = self.expression(alloc, a)?;
                self.after(alloc, b, first)
            }
            TExprKind::And(a, b) | TExprKind::Or(a, b) => {
                let first = self.expression(alloc, a)?;
                self.perhaps_after(alloc, b, first)
            }
            TExprKind::Cond(test, yes, no) => {
                let first = self.expression(alloc, test)?;
                let one = self.expression(alloc, yes)?;
                self.one_after(alloc, no, first, one)
            }
            TExprKind::Comma(es) => {
                let parts = self.expressions(alloc, es)?;
                in_turn(alloc, parts)
            }
            TExprKind::Call {
                site,
                function,
                arguments,
            } => {
                let parts = self.expressions(alloc, arguments)?;
                let call = self.direct_call(*site, *function, arguments);
                then_last(alloc, parts, call)
            }
            TExprKind::CallThrough {
                site,
                designator,
                arguments,
            } => {
                let pointer = self.expression(alloc, designator)?;
                let parts = self.expressions(alloc, arguments)?;
                between(alloc, pointer, parts, self.marked_call(*site))
            }
        }
    }

    // A part, and the shape of an expression after it.
    #[cycle(expressions)]
    fn after(&self, alloc: Global, e: &TExpr, first: Shape) -> Result<Shape, OutOfMemory>
        ensures { IfOk result (λ s. shape_of s ≡ seq_two (shape_of first) (expr_at self.now.defined self.now.marks.now (expr_of e.now))) }
    {
        let second = self.expression(alloc, e)?;
        two(alloc, first, second)
    }

    // A part, and after it the shape of an expression or nothing.
    #[cycle(expressions)]
    fn perhaps_after(&self, alloc: Global, e: &TExpr, first: Shape) -> Result<Shape, OutOfMemory>
        ensures { IfOk result (λ s. shape_of s ≡ seq_two (shape_of first) (alt_of (expr_at self.now.defined self.now.marks.now (expr_of e.now)) Skip)) }
    {
        let second = self.expression(alloc, e)?;
        perhaps(alloc, first, second)
    }

    // A part, and after it another or the shape of an expression.
    #[cycle(expressions)]
    fn one_after(
        &self,
        alloc: Global,
        e: &TExpr,
        first: Shape,
        one: Shape,
    ) -> Result<Shape, OutOfMemory>
        ensures { IfOk result (λ s. shape_of s ≡ seq_two (shape_of first) (alt_of (shape_of one) (expr_at self.now.defined self.now.marks.now (expr_of e.now)))) }
    {
        let other = self.expression(alloc, e)?;
        one_of(alloc, first, one, other)
    }

    // The shapes of expressions, from the left to the right, but those that are nothing.
    #[cycle(expressions)]
    fn expressions(&self, alloc: Global, es: &[TExpr]) -> Result<Vec<Shape>, OutOfMemory>
        ensures { IfOk result (λ v. parts_of v.items ≡ without_skips (exprs_at self.now.defined self.now.marks.now (exprs_of es.now) End)) }
    {
        let mut parts = Vec::new(alloc);
        for e in es {
            let part = self.expression(alloc, e)?;
            add(&mut parts, part)?;
        }
        Ok(parts)
    }

    // The shape of an expression that may be absent.
    pub fn maybe(&self, alloc: Global, e: &Option<Box<TExpr>>) -> Result<Shape, OutOfMemory>
        ensures { IfOk result (λ s. shape_of s ≡ maybe_at self.now.defined self.now.marks.now (maybe_of e.now)) }
    {
        match e {
            Some(e) => self.expression(alloc, e),
            None => Ok(Shape::Skip),
        }
    }

    // The shape of initialisers, from the first to the last (C99 6.7.8).
    pub fn initialisers(&self, alloc: Global, inits: &[TInit]) -> Result<Shape, OutOfMemory>
        ensures { IfOk result (λ s. shape_of s ≡ seq (inits_at self.now.defined self.now.marks.now (inits_of inits.now))) }
    {
        let mut parts = Vec::new(alloc);
        for init in inits {
            let part = self.expression(alloc, &init.value)?;
            add(&mut parts, part)?;
        }
        in_turn(alloc, parts)
    }
}
