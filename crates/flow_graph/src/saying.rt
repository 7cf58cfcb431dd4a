ghost use Rattle.std.specs.Prelude.{◌≡◌, ◌++◌, ◌∷◌, [], IfOk, OnOk, map, flat_map};
ghost use Rattle.c_tree.specs.View.{expr_of, exprs_of, maybe_of, inits_of, stmt_of, stmts_of, groups_of, function_of, static_of, program_of};
ghost use Rattle.c_meaning.specs.Mentions.{mentions, mentions_of_all, mentions_of_maybe, mentions_of_inits, mentions_of_stmt, mentions_of_stmts, mentions_of_groups, mentions_of_function, mentions_of_static, mention_of_cell, mentions_of_program};
ghost use Rattle.flow_graph.specs.Saying.{mention_of, said};

use crate::mention::Mention;
use c_tree::{Function, Program, Static, TExpr, TExprKind, TGroup, TInit, TStmt, Value};
use dm_base::OutOfMemory;
use std::alloc::Global;

// Adds one mention.
fn add<'p>(into: &mut Vec<Mention<'p>>, one: Mention<'p>) -> Result<(), OutOfMemory>
    ensures { OnOk result (said into.new.items ≡ said into.old.items ++ mention_of one.entry ∷ []) }
{
    into.push(one)?;
    Ok(())
}

// Adds what the expression says of functions.
#[cycle(expressions)]
fn add_expression<'p>(into: &mut Vec<Mention<'p>>, e: &'p TExpr) -> Result<(), OutOfMemory>
    ensures { OnOk result (said into.new.items ≡ said into.old.items ++ mentions (expr_of e.now)) }
{
    match &e.kind {
        TExprKind::Const(_) | TExprKind::StringPlace(_) | TExprKind::Variable { .. } => Ok(()),
        TExprKind::Function(f) => add(into, Mention::Named(*f)),
        TExprKind::Deref(a)
        | TExprKind::Load(a)
        | TExprKind::AddressOf(a)
        | TExprKind::Decay(a)
        | TExprKind::Discard(a)
        | TExprKind::Field(a, _)
        | TExprKind::Unary(_, a)
        | TExprKind::Convert(_, a) => add_expression(into, a),
        TExprKind::Arith(_, a, b)
        | TExprKind::Compare(_, a, b)
        | TExprKind::PointerAdd {
            left: a,
            right: b,
            ..
        }
        | TExprKind::PointerDiff(a, b)
        | TExprKind::And(a, b)
        | TExprKind::Or(a, b)
        | TExprKind::Assign(a, b)
        | TExprKind::Update {
            place: a,
            value: b,
            ..
        } => {
            add_expression(into, a)?;
            add_expression(into, b)
        }
        TExprKind::Cond(test, yes, no) => {
            add_expression(into, test)?;
            add_expression(into, yes)?;
            add_expression(into, no)
        }
        TExprKind::Comma(es) => add_expressions(into, es),
        TExprKind::Call {
            site,
            function,
            arguments,
        } => {
            let (site, function) = (*site, *function);
            add(into, Mention::Direct { site, function })?;
            add_expressions(into, arguments)
        }
        TExprKind::CallThrough {
            site,
            designator,
            arguments,
        } => {
            add_expression(into, designator)?;
            let (site, ctype) = (*site, &designator.ctype);
            add(into, Mention::Through { site, ctype })?;
            add_expressions(into, arguments)
        }
    }
}

#[cycle(expressions)]
fn add_expressions<'p>(into: &mut Vec<Mention<'p>>, es: &'p [TExpr]) -> Result<(), OutOfMemory>
    ensures { OnOk result (said into.new.items ≡ said into.old.items ++ mentions_of_all (exprs_of es.now)) }
{
    for e in es {
        add_expression(into, e)?;
    }
    Ok(())
}

fn add_maybe<'p>(into: &mut Vec<Mention<'p>>, e: &'p Option<Box<TExpr>>) -> Result<(), OutOfMemory>
    ensures { OnOk result (said into.new.items ≡ said into.old.items ++ mentions_of_maybe (maybe_of e.now)) }
{
    match e {
        Some(e) => add_expression(into, e),
        None => Ok(()),
    }
}

fn add_inits<'p>(into: &mut Vec<Mention<'p>>, inits: &'p [TInit]) -> Result<(), OutOfMemory>
    ensures { OnOk result (said into.new.items ≡ said into.old.items ++ mentions_of_inits (inits_of inits.now)) }
{
    for init in inits {
        add_expression(into, &init.value)?;
    }
    Ok(())
}

// Adds what the statement says of functions.
#[cycle(statements)]
fn add_statement<'p>(into: &mut Vec<Mention<'p>>, s: &'p TStmt) -> Result<(), OutOfMemory>
    ensures { OnOk result (said into.new.items ≡ said into.old.items ++ mentions_of_stmt (stmt_of s.now)) }
{
    match s {
        TStmt::Block(ss) => add_statements(into, ss),
        TStmt::Empty => Ok(()),
        TStmt::Expr(e) => add_expression(into, e),
        TStmt::Declare { init, .. } => add_inits(into, init),
        TStmt::If { test, yes, no } => {
            add_expression(into, test)?;
            add_statement(into, yes)?;
            match no {
                Some(no) => add_statement(into, no),
                None => Ok(()),
            }
        }
        TStmt::While { test, body } => {
            add_expression(into, test)?;
            add_statement(into, body)
        }
        TStmt::Do { body, test } => {
            add_statement(into, body)?;
            add_expression(into, test)
        }
        TStmt::For {
            first,
            test,
            step,
            body,
        } => {
            add_statements(into, first)?;
            add_maybe(into, test)?;
            add_maybe(into, step)?;
            add_statement(into, body)
        }
        TStmt::Switch { on, groups } => {
            add_expression(into, on)?;
            add_groups(into, groups)
        }
        TStmt::Break => Ok(()),
        TStmt::Continue => Ok(()),
        TStmt::Return(None) => Ok(()),
        TStmt::Return(Some(e)) => add_expression(into, e),
    }
}

#[cycle(statements)]
fn add_statements<'p>(into: &mut Vec<Mention<'p>>, ss: &'p [TStmt]) -> Result<(), OutOfMemory>
    ensures { OnOk result (said into.new.items ≡ said into.old.items ++ mentions_of_stmts (stmts_of ss.now)) }
{
    for s in ss {
        add_statement(into, s)?;
    }
    Ok(())
}

#[cycle(statements)]
fn add_groups<'p>(into: &mut Vec<Mention<'p>>, groups: &'p [TGroup]) -> Result<(), OutOfMemory>
    ensures { OnOk result (said into.new.items ≡ said into.old.items ++ mentions_of_groups (groups_of groups.now)) }
{
    for group in groups {
        add_statements(into, &group.body)?;
    }
    Ok(())
}

// Adds what a function's body says of functions.
fn add_function<'p>(into: &mut Vec<Mention<'p>>, f: &'p Function) -> Result<(), OutOfMemory>
    ensures { OnOk result (said into.new.items ≡ said into.old.items ++ mentions_of_function (function_of f.now)) }
{
    add_statement(into, &f.body)
}

// Adds the function whose value the cell has.
fn add_cell(into: &mut Vec<Mention>, cell: Value) -> Result<(), OutOfMemory>
    ensures { OnOk result (said into.new.items ≡ said into.old.items ++ mention_of_cell cell) }
{
    match cell {
        Value::Func(f) => add(into, Mention::Named(f)),
        _ => Ok(()),
    }
}

// Adds the functions whose values the cells of a static object have.
fn add_static(into: &mut Vec<Mention>, object: &Static) -> Result<(), OutOfMemory>
    ensures { OnOk result (said into.new.items ≡ said into.old.items ++ mentions_of_static (static_of object.now)) }
{
    for cell in &object.cells {
        add_cell(into, *cell)?;
    }
    Ok(())
}

// What a function's body says of functions, in order.
pub fn said_by<'p>(alloc: Global, f: &'p Function) -> Result<Vec<Mention<'p>>, OutOfMemory>
    ensures { IfOk result (λ v. said v.items ≡ mentions_of_function (function_of f.now)) }
{
    let mut all = Vec::new(alloc);
    add_function(&mut all, f)?;
    Ok(all)
}

/// What all functions and static objects of the program say of functions: the bodies in the order of the
/// definitions, each from its start to its end, and then the cells of the static objects in order. The only error is
/// that memory was refused.
pub fn said_in<'p>(alloc: Global, program: &'p Program) -> Result<Vec<Mention<'p>>, OutOfMemory>
    ensures { IfOk result (λ v. said v.items ≡ mentions_of_program (program_of program.now)) }
{
    let mut all = Vec::new(alloc);
    for f in 0..program.defined() {
        add_function(&mut all, program.function(f))?;
    }
    for object in program.statics() {
        add_static(&mut all, object)?;
    }
    Ok(all)
}
