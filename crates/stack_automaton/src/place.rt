ghost use Rattle.std.specs.Prelude.{◌≡◌, [], IfOk};

use dm_base::OutOfMemory;
use smallvec::SmallVec;
use std::alloc::Global;

// So many edges of a state need no memory of their own.
const INLINE: usize = 2;

/// An edge of a state of the pool: its label, which is a node or a site, and the key of the state to
/// which it leads.
#[derive(Clone, Copy, Default, PartialEq, Eq, PartialOrd, Ord, Hash)]
pub struct Edge {
    pub label: u32,
    pub to: usize,
}

// What stands below a node that is reached at an event: a state that the pool had before the event, or
// the new state of a function that is entered at it.
#[derive(Clone, Copy, PartialEq, Eq, Hash)]
pub enum Place {
    Held(usize),
    Entered(u32),
}

impl Default for Place {
    fn default() -> Self {
        Place::Held(0)
    }
}

// A node that is reached at an event, and what stands below it.
#[derive(Clone, Copy, PartialEq, Eq, Hash)]
pub struct Fact {
    pub node: u32,
    pub place: Place,
}

// A call that is made at an event: its site, the node to which it returns, and what stands below.
#[derive(Clone, Copy, Default)]
pub struct Link {
    pub site: u32,
    pub to: u32,
    pub place: Place,
}

// A state of the pool, seen as its edges.
#[derive(Drop)]
pub struct State {
    edges: SmallVec<Edge, INLINE>,
}

impl std::marker::Model for State {
    ghost use Rattle.std.specs.Prelude.{List};
    ghost use Rattle.stack_automaton.specs.declared.place.Edge.{Edge};

    ghost Value = { List Edge };

    ghost view = { λ s. s.edges.items };
}

impl State {
    // The state without edges.
    pub fn empty(alloc: Global) -> State
        ensures { result ≡ [] }
    {
        State {
            edges: SmallVec::new(alloc),
        }
    }

    // The state with these edges.
    pub fn of(alloc: Global, edges: &[Edge]) -> Result<State, OutOfMemory>
        ensures { IfOk result (λ state. state ≡ edges.now) }
    {
        Ok(State {
            edges: SmallVec::from_slice(alloc, edges)?,
        })
    }

    // The edges of the state.
    pub fn edges(&self) -> &[Edge]
        ensures { result.now ≡ self.now }
    {
        &self.edges
    }
}
