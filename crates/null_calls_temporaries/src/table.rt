ghost use Rattle.std.specs.Prelude.{◌≡◌, ◌<◌};
ghost use Rattle.c_tree.specs.Functions.{defined};
ghost use Rattle.c_tree.specs.View.{ctype_of, types_of, program_of};
ghost use Rattle.c_meaning.specs.CallGraph.{callee_at};
ghost use Rattle.c_meaning.specs.Mentions.{Direct, mentions_of_program};
ghost use Rattle.flow_graph.specs.Calls.{AreCallsOf};
ghost use Rattle.null_calls_laws.specs.MarkedCalls as marks;
ghost use Rattle.null_calls_temporaries.specs.Callees.{callee_of, callee_where, IsDefinedWhere};
ghost use Rattle.null_calls_temporaries.specs.Sited.{type_where, called_of, called_where};

use crate::callees::Designator;
use c_tree::{CType, Program};
use flow_graph::Calls;

/// What a marked call calls.
#[derive(Clone, Copy)]
pub struct Called<'p> {
    /// The type of the pointer, where the call is one through a pointer.
    pub pointer_type: Option<&'p CType>,
    /// The type of its result.
    pub returns: &'p CType,
    /// The types of its parameters.
    pub parameters: &'p [CType],
}

// What is called where the function has this result and these parameters.
fn called_with<'p>(
    pointer_type: Option<&'p CType>,
    returns: &'p CType,
    parameters: &'p [CType],
) -> Called<'p>
    ensures { called_of result ≡ record { pointer_type = type_where pointer_type.entry; returns = ctype_of returns.now; parameters = types_of parameters.now } }
{
    Called {
        pointer_type,
        returns,
        parameters,
    }
}

// What is called where the function has this type.
fn called_as<'p>(pointer_type: Option<&'p CType>, t: &'p CType) -> Option<Called<'p>>
    ensures { called_where result ≡ marks.called_as (type_where pointer_type.entry) (ctype_of t.now) }
{
    match t {
        CType::Function(returns, parameters) => Some(called_with(
            pointer_type,
            returns,
            parameters,
        )),
        CType::Void => None,
        CType::Int(_) => None,
        CType::Pointer(_) => None,
        CType::Array(_, _) => None,
        CType::Struct(_) => None,
    }
}

// What a call through a pointer of this type calls.
fn called_through<'p>(t: &'p CType) -> Option<Called<'p>>
    ensures { called_where result ≡ marks.called_through (ctype_of t.now) }
{
    match t {
        CType::Pointer(target) => called_as(Some(t), target),
        CType::Void => None,
        CType::Int(_) => None,
        CType::Array(_, _) => None,
        CType::Struct(_) => None,
        CType::Function(_, _) => None,
    }
}

// What a call of the function with this number calls, where it is a defined one.
fn called_directly<'p>(program: &'p Program, f: u32) -> Option<Called<'p>>
    ensures { f < defined (program_of program.now) → called_where result ≡ marks.called_of (program_of program.now) (Direct f) }
{
    if f >= program.defined() {
        return None;
    }
    called_as(None, &program.function(f).ctype)
}

// What a call with this designator calls, where it is no direct call of a system call.
fn called_by<'p>(program: &'p Program, designator: Designator<'p>) -> Option<Called<'p>>
    ensures { IsDefinedWhere (program_of program.now) (callee_of designator.entry) → called_where result ≡ marks.called_of (program_of program.now) (callee_of designator.entry) }
{
    match designator {
        Designator::Function(f) => called_directly(program, f),
        Designator::Pointer(t) => called_through(t),
    }
}

// What is called at the site, where the call there is marked.
pub fn called_at<'p>(
    program: &'p Program,
    calls: &Calls,
    site: u32,
    callee: Option<Designator<'p>>,
) -> Option<Called<'p>>
    requires { AreCallsOf (program_of program.now) calls.now }
    ensures { callee_where callee.entry ≡ callee_at site (mentions_of_program (program_of program.now)) → called_where result ≡ marks.sites_of (program_of program.now) site }
{
    if !calls.marked(site) {
        return None;
    }
    match callee {
        None => None,
        Some(designator) => called_by(program, designator),
    }
}
