ghost use Rattle.std.specs.Prelude.{◌≡◌, IfOk};
ghost use Rattle.c_tree.specs.View.{expr_of, maybe_of, stmt_of, stmts_of, groups_of};
ghost use Rattle.c_meaning.specs.Shape.{Loop, Cases};
ghost use Rattle.c_meaning.specs.ShapeOf.{has_default, has_default_label, seq, seq_two, alt as alt_of};
ghost use Rattle.flow_graph.specs.View.{shape_of, parts_of};
ghost use Rattle.flow_graph.specs.Labels.{is_default};
ghost use Rattle.flow_graph.specs.Sited.{expr_at, maybe_at, stmt_at, stmts_at, groups_at};

use crate::expressions::Reading;
use crate::sequence::{add, do_of, for_of, in_turn, loop_of, one_of, push, two};
use crate::shape::Shape;
use c_tree::{TExpr, TGroup, TLabel, TStmt};
use dm_base::OutOfMemory;
use std::alloc::Global;

// Whether the label is `default`.
fn is_default(label: &TLabel) -> bool
    ensures { result ≡ is_default label.now }
{
    match label {
        TLabel::Case(_) => false,
        TLabel::Default => true,
    }
}

// Whether one of the labels is `default`.
fn has_default_label(labels: &[TLabel]) -> bool
    ensures { result ≡ has_default_label labels.now }
{
    for label in labels {
        if is_default(label) {
            return true;
        }
    }
    false
}

// Whether one of the groups has the label `default`.
fn has_default(groups: &[TGroup]) -> bool
    ensures { result ≡ has_default (groups_of groups.now) }
{
    for group in groups {
        if has_default_label(&group.labels) {
            return true;
        }
    }
    false
}

// What is compared, and the groups of a switch after it.
fn switch_of(
    alloc: Global,
    on: Shape,
    cases: Vec<Shape>,
    groups: &[TGroup],
) -> Result<Shape, OutOfMemory>
    ensures { IfOk result (λ s. shape_of s ≡ seq_two (shape_of on) (Cases (parts_of cases.items) (has_default (groups_of groups.now)))) }
{
    let cases = Shape::Cases(cases, has_default(groups));
    two(alloc, on, cases)
}

impl<'p> Reading<'p> {
    // A choice with this test between two parts (C99 6.8.4.1).
    fn choice(
        &self,
        alloc: Global,
        test: &TExpr,
        one: Shape,
        other: Shape,
    ) -> Result<Shape, OutOfMemory>
        ensures { IfOk result (λ shape. shape_of shape ≡ seq_two (expr_at self.now.defined self.now.marks.now (expr_of test.now)) (alt_of (shape_of one) (shape_of other))) }
    {
        let first = self.expression(alloc, test)?;
        one_of(alloc, first, one, other)
    }

    // A loop with this test and this step, after a part that is done first (C99 6.8.5.3).
    fn rounds(
        &self,
        alloc: Global,
        first: Shape,
        test: &Option<Box<TExpr>>,
        body: Shape,
        step: &Option<Box<TExpr>>,
    ) -> Result<Shape, OutOfMemory>
        ensures { IfOk result (λ shape. shape_of shape ≡ seq_two (shape_of first) (Loop (maybe_at self.now.defined self.now.marks.now (maybe_of test.now)) (shape_of body) (maybe_at self.now.defined self.now.marks.now (maybe_of step.now)))) }
    {
        let test = self.maybe(alloc, test)?;
        let step = self.maybe(alloc, step)?;
        for_of(alloc, first, test, body, step)
    }

    // The shape of a statement (C99 6.8).
    #[cycle(statements)]
    pub fn statement(&self, alloc: Global, s: &TStmt) -> Result<Shape, OutOfMemory>
        ensures { IfOk result (λ shape. shape_of shape ≡ stmt_at self.now.defined self.now.marks.now (stmt_of s.now)) }
    {
        match s {
            TStmt::Block(ss) => self.statements(alloc, ss),
            TStmt::Empty => Ok(Shape::Skip),
            TStmt::Expr(e) => self.expression(alloc, e),
            TStmt::Declare { init, .. } => self.initialisers(alloc, init),
            TStmt::If { test, yes, no } => {
                let one = self.statement(alloc, yes)?;
                match no {
                    Some(no) => {
                        let other = self.statement(alloc, no)?;
                        self.choice(alloc, test, one, other)
                    }
                    None => self.choice(alloc, test, one, Shape::Skip),
                }
            }
            TStmt::While { test, body } => {
                let test = self.expression(alloc, test)?;
                let body = self.statement(alloc, body)?;
                loop_of(alloc, test, body, Shape::Skip)
            }
            TStmt::Do { body, test } => {
                let body = self.statement(alloc, body)?;
                let test = self.expression(alloc, test)?;
                do_of(alloc, body, test)
            }
            TStmt::For {
                first,
                test,
                step,
                body,
            } => {
                let first = self.statements(alloc, first)?;
                let body = self.statement(alloc, body)?;
                self.rounds(alloc, first, test, body, step)
            }
            TStmt::Switch { on, groups } => {
                let on = self.expression(alloc, on)?;
                let cases = self.groups(alloc, groups)?;
                switch_of(alloc, on, cases, groups)
            }
            TStmt::Break => Ok(Shape::Break),
            TStmt::Continue => Ok(Shape::Continue),
            TStmt::Return(None) => Ok(Shape::Return),
            TStmt::Return(Some(e)) => {
                let value = self.expression(alloc, e)?;
                two(alloc, value, Shape::Return)
            }
        }
    }

    // The shape of statements in order (C99 6.8.2).
    #[cycle(statements)]
    fn statements(&self, alloc: Global, ss: &[TStmt]) -> Result<Shape, OutOfMemory>
        ensures { IfOk result (λ shape. shape_of shape ≡ seq (stmts_at self.now.defined self.now.marks.now (stmts_of ss.now))) }
    {
        let mut parts = Vec::new(alloc);
        for s in ss {
            let part = self.statement(alloc, s)?;
            add(&mut parts, part)?;
        }
        in_turn(alloc, parts)
    }

    // The shapes of the statements after each group of labels (C99 6.8.4.2).
    #[cycle(statements)]
    fn groups(&self, alloc: Global, groups: &[TGroup]) -> Result<Vec<Shape>, OutOfMemory>
        ensures { IfOk result (λ shapes. parts_of shapes.items ≡ groups_at self.now.defined self.now.marks.now (groups_of groups.now)) }
    {
        let mut shapes = Vec::new(alloc);
        for group in groups {
            let shape = self.statements(alloc, &group.body)?;
            push(&mut shapes, shape)?;
        }
        Ok(shapes)
    }
}
