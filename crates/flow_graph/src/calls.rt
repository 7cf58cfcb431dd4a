ghost use Rattle.std.specs.Prelude.{◌≡◌, ◌+◌, ◌<◌, IfOk, map};
ghost use Rattle.c_tree.specs.Functions.{defined};
ghost use Rattle.c_tree.specs.Tree.{Program as Tree};
ghost use Rattle.c_tree.specs.View.{program_of};
ghost use Rattle.c_meaning.specs.CallGraph.{is_taken, reaches, callees, candidates, marked};
ghost use Rattle.c_meaning.specs.Mentions.{Through, mentions_of_program};
ghost use Rattle.flow_graph.specs.Callers.{AreReaching};
ghost use Rattle.flow_graph.specs.Calls.{AreCallsOf, place_at};
ghost use Rattle.flow_graph.specs.Saying.{said};
ghost use Rattle.flow_graph.specs.Types.{types_at, items_of, AreTaken};

use crate::call_sites::{Place, places_of};
use crate::callers::callers_of;
use crate::mention::Mention;
use crate::naming::named_in;
use crate::nodes::Nodes;
use crate::reaching::reaching_nodes;
use crate::saying::said_in;
use crate::sys_types::types_of_calls;
use crate::types::{lists_of, types_in};
use c_tree::{CType, Program};
use dm_base::OutOfMemory;
use std::alloc::Global;
use std::collections::HashSet;
use std::slice::from_ref;

/// The call graph of a program: which functions have their names taken, which functions may be called at each
/// site, which functions may come to a system call, and which calls are marked (Wagner and Dean 2001; Giffin,
/// Jha and Miller 2004). Functions go by their numbers: the defined ones in the order of their definitions,
/// and then the 24 system calls. The sites of pointers of one type share one list of candidates.
pub struct Calls {
    defined: u32,
    taken: HashSet<u32>,
    // The functions that may come to a system call, and after the functions the types of pointers through
    // which one of them may be called.
    reaching: Nodes,
    // The functions that may be called through each type.
    lists: Vec<Vec<u32>>,
    places: Vec<Option<Place>>,
}

impl Drop for Calls {
    fn drop(self) {
        let Self {
            defined: _,
            taken: _taken,
            reaching: _reaching,
            lists: _lists,
            places: _places,
        } = self;
    }
}

// The lists of the functions that may be called through each of the types.
fn lists_in(
    alloc: Global,
    program: &Program,
    taken: &HashSet<u32>,
    types: &[&CType],
) -> Result<Vec<Vec<u32>>, OutOfMemory>
    requires { AreTaken (program_of program.now) taken.now.keys }
    ensures { IfOk result (λ v. items_of v.items ≡ map (λ t. callees (program_of program.now) (Through t)) (types_at types.now)) }
{
    let system_types = types_of_calls(alloc)?;
    lists_of(alloc, program, &system_types, taken, types)
}

// The nodes from which calls lead to a system call.
fn reaching_in(
    alloc: Global,
    program: &Program,
    types: &[&CType],
    lists: &[Vec<u32>],
) -> Result<Nodes, OutOfMemory>
    ensures { IfOk result (λ found. AreReaching (program_of program.now) (types_at types.now) (items_of lists.now) found.keys) }
{
    let callers = callers_of(alloc, program, types, lists)?;
    reaching_nodes(alloc, &callers, program.defined() as usize)
}

// The call graph of the program that says this of functions.
fn calls_said(alloc: Global, program: &Program, ms: &[Mention]) -> Result<Calls, OutOfMemory>
    requires { said ms.now ≡ mentions_of_program (program_of program.now) }
    ensures { IfOk result (λ calls. AreCallsOf (program_of program.now) calls) }
{
    let taken = named_in(alloc, ms)?;
    let types = types_in(alloc, ms)?;
    let lists = lists_in(alloc, program, &taken, &types)?;
    let reaching = reaching_in(alloc, program, &types, &lists)?;
    let places = places_of(alloc, ms, &types, program.sites())?;
    Ok(Calls {
        defined: program.defined(),
        taken,
        reaching,
        lists,
        places,
    })
}

impl Calls {
    /// The call graph of the program.
    pub fn of(alloc: Global, program: &Program) -> Result<Calls, OutOfMemory>
        ensures { IfOk result (λ calls. AreCallsOf (program_of program.now) calls) }
    {
        let said = said_in(alloc, program)?;
        calls_said(alloc, program, &said)
    }

    /// Whether the function's name stands in the program other than to call it, or is in a cell of a static
    /// object.
    pub fn address_taken(&self, f: u32) -> bool
        ensures { (p : Tree) → AreCallsOf p self.now → result ≡ is_taken p f }
    {
        self.taken.contains(&f)
    }

    /// Whether the function, a defined one or a system call, may come to a system call.
    pub fn reaches(&self, f: u32) -> bool
        ensures { (p : Tree) → AreCallsOf p self.now → f < defined p + 24 → result ≡ reaches p f }
    {
        self.reaching.contains(f as usize)
    }

    // What is called at the site.
    fn place(&self, site: u32) -> Option<Place>
        ensures { result ≡ place_at self.now site }
    {
        match self.places.get(site as usize) {
            Some(place) => *place,
            None => None,
        }
    }

    /// The functions that may be called at the site, in the order of their numbers. Where there is no such
    /// site there are none.
    pub fn candidates(&self, site: u32) -> &[u32]
        ensures { (p : Tree) → AreCallsOf p self.now → result.now ≡ candidates p site }
    {
        match self.places.get(site as usize) {
            Some(Some(Place::Function(f))) => from_ref(f),
            Some(Some(Place::Pointer(k))) => match self.lists.get(*k) {
                Some(list) => list,
                None => &[],
            },
            Some(None) => &[],
            None => &[],
        }
    }

    /// Whether the call at the site is marked: it may come to a system call, and is no direct call of a system
    /// call. Where there is no such site it is false.
    pub fn marked(&self, site: u32) -> bool
        ensures { (p : Tree) → AreCallsOf p self.now → result ≡ marked p site }
    {
        match self.place(site) {
            None => false,
            Some(Place::Function(f)) => f < self.defined && self.reaching.contains(f as usize),
            Some(Place::Pointer(k)) => {
                let first = self.defined as usize + 24;
                match first.checked_add(k) {
                    Some(node) => self.reaching.contains(node),
                    None => false,
                }
            }
        }
    }
}
