// A call, with null calls round it where it is marked.

ghost use Rattle.std.specs.Prelude.{◌≡◌, ◌++◌, ℕ, true, false, Option, OnOk, IfOk};
ghost use Rattle.c_syntax.specs.Tree.{Exprs, a_name, more_exprs};
ghost use Rattle.c_syntax.specs.View.{expr_of};
ghost use Rattle.c_syntax.specs.Writes.{exprs_of};
ghost use Rattle.null_calls_temporaries.specs.Sited.{type_where, called_of, IsCallAt};
ghost use Rattle.null_calls_temporaries.specs.InstrumentedExpressions as marks;
ghost use Rattle.null_calls_temporaries.specs.MarkedCalls as term;
ghost use Rattle.null_calls_temporaries.specs.Temporaries as temporaries;
ghost use Rattle.null_calls_temporaries.specs.Kept.{temporaries_of};
ghost use Rattle.null_calls_expressions.specs.Lists.{exprs_onto};

use c_lexer::punctuator::ASSIGN;
use c_syntax::Expr;
use c_tree::CType;
use dm_base::{Bytes, OutOfMemory};
use null_calls_temporaries::{
    Called, Marked, Temporary, add_temporaries, argument_name, assign_node, call_node, comma_node,
    designator_name, int_node, is_kept, name_node, post_name, pre_name, result_name,
};
use std::alloc::Global;

// Adds a member of the comma expression.
fn add(list: &mut Vec<Expr>, one: Expr) -> Result<(), OutOfMemory>
    ensures { OnOk result ((rest : Exprs) → exprs_onto list.new.items rest ≡ exprs_onto list.old.items (more_exprs (expr_of one) rest)) }
{
    list.push(one)?;
    Ok(())
}

// The expression is assigned to the temporary.
fn keep(alloc: Global, at: u32, name: Bytes, e: Expr) -> Result<Expr, OutOfMemory>
    ensures { IfOk result (λ made. expr_of made ≡ marks.kept_in at name (expr_of e)) }
{
    assign_node(alloc, at, ASSIGN, name_node(at, name), e)
}

// Adds the assignment to the temporary, and gives the temporary. Its name is given twice.
fn add_kept(
    alloc: Global,
    at: u32,
    name: Bytes,
    again: Bytes,
    e: Expr,
    list: &mut Vec<Expr>,
) -> Result<Expr, OutOfMemory>
    ensures keeps { OnOk result ((rest : Exprs) → exprs_onto list.new.items rest ≡ exprs_onto list.old.items (more_exprs (marks.kept_in at name (expr_of e)) rest)) }
    ensures gives { IfOk result (λ made. expr_of made ≡ a_name at again) }
{
    let kept = keep(alloc, at, name, e)?;
    add(list, kept)?;
    Ok(name_node(at, again))
}

// The null call with this name.
fn null_call(alloc: Global, at: u32, name: Bytes, site: u32) -> Result<Expr, OutOfMemory>
    ensures { IfOk result (λ made. expr_of made ≡ marks.null_call at name site) }
{
    let mut arguments = Vec::new(alloc);
    arguments.push(int_node(at, site, true))?;
    call_node(alloc, at, name_node(at, name), arguments)
}

// Adds the assignment of the designator to its temporary, where there is one, and gives what is called.
fn add_designator<'p>(
    alloc: Global,
    at: u32,
    site: u32,
    pointer_type: Option<&'p CType>,
    designator: Expr,
    list: &mut Vec<Expr>,
) -> Result<Expr, OutOfMemory>
    ensures keeps { OnOk result ((rest : Exprs) → exprs_onto list.new.items rest ≡ exprs_onto list.old.items (marks.keep_designator at site (type_where pointer_type.entry) (expr_of designator) rest)) }
    ensures gives { IfOk result (λ made. expr_of made ≡ marks.kept_designator at site (type_where pointer_type.entry) (expr_of designator)) }
{
    match pointer_type {
        None => Ok(designator),
        Some(_) => {
            let name = designator_name(alloc, site)?;
            let again = designator_name(alloc, site)?;
            add_kept(alloc, at, name, again, designator, list)
        }
    }
}

// Adds the assignment of the argument with this number to its temporary, and gives that.
fn add_argument(
    alloc: Global,
    at: u32,
    site: u32,
    i: u64,
    one: Expr,
    list: &mut Vec<Expr>,
) -> Result<Expr, OutOfMemory>
    ensures keeps { OnOk result ((rest : Exprs) → exprs_onto list.new.items rest ≡ exprs_onto list.old.items (more_exprs (marks.kept_in at (temporaries.argument_name site i) (expr_of one)) rest)) }
    ensures gives { IfOk result (λ made. expr_of made ≡ a_name at (temporaries.argument_name site i)) }
{
    let name = argument_name(alloc, site, i)?;
    let again = argument_name(alloc, site, i)?;
    add_kept(alloc, at, name, again, one, list)
}

// Adds the assignments of the arguments to their temporaries, and gives these.
fn add_arguments(
    alloc: Global,
    at: u32,
    site: u32,
    arguments: Vec<Expr>,
    list: &mut Vec<Expr>,
) -> Result<Vec<Expr>, OutOfMemory>
    ensures keeps { OnOk result ((rest : Exprs) → exprs_onto list.new.items rest ≡ exprs_onto list.old.items (marks.keep_arguments at site 0 (exprs_of arguments.items) rest)) }
    ensures gives { IfOk result (λ made. exprs_of made.items ≡ marks.kept_arguments at site 0 (exprs_of arguments.items)) }
{
    let mut passed = Vec::new(alloc);
    for one in arguments {
        let i = passed.len() as u64;
        let given = add_argument(alloc, at, site, i, one, list)?;
        passed.push(given)?;
    }
    Ok(passed)
}

// Adds the null call after a marked call.
fn add_post(alloc: Global, at: u32, site: u32, list: &mut Vec<Expr>) -> Result<(), OutOfMemory>
    ensures { OnOk result ((rest : Exprs) → exprs_onto list.new.items rest ≡ exprs_onto list.old.items (more_exprs (marks.null_call at temporaries.post_name site) rest)) }
{
    let name = post_name(alloc)?;
    let after = null_call(alloc, at, name, site)?;
    add(list, after)
}

// Adds the call, whose result isn't kept, and the null call after it.
fn add_bare_call(
    alloc: Global,
    at: u32,
    site: u32,
    one: Expr,
    list: &mut Vec<Expr>,
) -> Result<(), OutOfMemory>
    ensures { OnOk result (exprs_of list.new.items ≡ exprs_onto list.old.items (marks.call_and_post at site false (expr_of one))) }
{
    add(list, one)?;
    add_post(alloc, at, site, list)
}

// Adds the call, whose result is kept, the null call after it, and the result.
fn add_kept_call(
    alloc: Global,
    at: u32,
    site: u32,
    one: Expr,
    list: &mut Vec<Expr>,
) -> Result<(), OutOfMemory>
    ensures { OnOk result (exprs_of list.new.items ≡ exprs_onto list.old.items (marks.call_and_post at site true (expr_of one))) }
{
    let name = result_name(alloc, site)?;
    let again = result_name(alloc, site)?;
    let value = add_kept(alloc, at, name, again, one, list)?;
    add_post(alloc, at, site, list)?;
    add(list, value)
}

fn add_call_and_post(
    alloc: Global,
    at: u32,
    site: u32,
    kept: bool,
    one: Expr,
    list: &mut Vec<Expr>,
) -> Result<(), OutOfMemory>
    ensures { OnOk result (exprs_of list.new.items ≡ exprs_onto list.old.items (marks.call_and_post at site kept (expr_of one))) }
{
    if kept {
        return add_kept_call(alloc, at, site, one, list);
    }
    add_bare_call(alloc, at, site, one, list)
}

// The comma expression of a marked call.
fn marked_call<'p>(
    alloc: Global,
    at: u32,
    site: u32,
    wanted: bool,
    called: &Called<'p>,
    designator: Expr,
    arguments: Vec<Expr>,
) -> Result<Expr, OutOfMemory>
    ensures { IfOk result (λ made. expr_of made ≡ marks.marked_call at site wanted (called_of called.now) (expr_of designator) (exprs_of arguments.items)) }
{
    let mut list = Vec::new(alloc);
    let function = add_designator(alloc, at, site, called.pointer_type, designator, &mut list)?;
    let passed = add_arguments(alloc, at, site, arguments, &mut list)?;
    let one = call_node(alloc, at, function, passed)?;
    let name = pre_name(alloc)?;
    let before = null_call(alloc, at, name, site)?;
    add(&mut list, before)?;
    let kept = is_kept(wanted, called.returns);
    add_call_and_post(alloc, at, site, kept, one, &mut list)?;
    Ok(comma_node(at, list))
}

// The call, between null calls where it is marked.
pub fn call_where<'p>(
    alloc: Global,
    at: u32,
    wanted: bool,
    marked: Option<Marked<'p>>,
    designator: Expr,
    arguments: Vec<Expr>,
) -> Result<Expr, OutOfMemory>
    ensures { (site : ℕ) (called : Option term.Called) → IsCallAt marked.entry site called → IfOk result (λ made. expr_of made ≡ marks.call_where at site wanted called (expr_of designator) (exprs_of arguments.items)) }
{
    match marked {
        None => call_node(alloc, at, designator, arguments),
        Some(one) => marked_call(
            alloc,
            at,
            one.site,
            wanted,
            &one.called,
            designator,
            arguments,
        ),
    }
}

// Adds the temporaries of the call, where it is marked.
pub fn add_where<'p>(
    alloc: Global,
    into: &mut Vec<Temporary<'p>>,
    wanted: bool,
    marked: Option<Marked<'p>>,
) -> Result<(), OutOfMemory>
    ensures { (site : ℕ) (called : Option term.Called) → IsCallAt marked.entry site called → OnOk result (temporaries_of into.new.items ≡ temporaries_of into.old.items ++ temporaries.temporaries_where site wanted called) }
{
    match marked {
        None => Ok(()),
        Some(one) => add_temporaries(alloc, into, one.site, wanted, &one.called),
    }
}
