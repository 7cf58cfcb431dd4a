/// A language of a model.
#[derive(Clone, Copy)]
pub enum Which {
    /// That of the callgraph model, a finite automaton (Wagner and Dean 2001).
    Callgraph,
    /// That of the abstract-stack model, a pushdown automaton (Wagner and Dean 2001).
    Stack,
    /// That of the Dyck model, whose words show the stack by null calls (after Giffin, Jha and
    /// Miller 2004).
    Dyck,
}
