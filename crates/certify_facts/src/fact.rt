/// A model whose verdicts are certified.
#[derive(Clone, Copy)]
pub enum Judge {
    /// The callgraph model, a finite automaton (Wagner and Dean 2001).
    Callgraph,
    /// The abstract-stack model, a pushdown automaton (Wagner and Dean 2001).
    Stack,
}

/// A fact about a model and a trace. Events are counted from 1, null calls among them.
#[derive(Clone, Copy, PartialEq, Eq, Hash)]
pub enum Fact {
    /// After k events a walk of the callgraph model may be at the node v.
    Callgraph {
        k: u32,
        v: u32,
    },
    /// After k events an activation of the function f that was entered after i events may be at the
    /// node v.
    At {
        k: u32,
        i: u32,
        f: u32,
        v: u32,
    },
    /// An activation of the function f that was entered after i events may have been called at the
    /// site s by an activation of the function g that was entered after j events.
    Link {
        i: u32,
        f: u32,
        j: u32,
        g: u32,
        s: u32,
    },
}

/// Why a fact follows from earlier ones, which go by their numbers, from 1.
#[derive(Clone, Copy)]
pub enum Reason {
    /// A run begins so.
    Start,
    /// A silent edge leads here from the node of this fact.
    Silent(u32),
    /// A function was entered from this fact, at this site.
    Enter(u32, u32),
    /// A function was left. In the abstract-stack model the numbers are those of the fact at its exit
    /// and of the link that is followed back, in the callgraph model those of the fact at its exit
    /// and of the site.
    Return(u32, u32),
    /// An event was read from this fact.
    Event(u32),
    /// A function was called from this fact. It is the reason of links alone.
    Link(u32),
}

/// A fact with its reason.
#[derive(Clone, Copy)]
pub struct FactLine {
    pub fact: Fact,
    pub reason: Reason,
}
