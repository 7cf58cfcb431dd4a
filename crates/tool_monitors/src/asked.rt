/// The monitors that a command line asks for.
#[derive(Clone, Copy)]
pub enum Asked {
    Callgraph,
    Stack,
    Dyck,
    /// All three, in this order.
    All,
}
