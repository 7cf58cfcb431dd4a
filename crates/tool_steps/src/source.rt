use c_syntax::Unit;
use c_tree::Program;

/// A C text that was read: its unit (C99 6.9), and the program that the unit is typed as.
#[derive(Drop)]
pub struct Source {
    pub unit: Unit,
    pub program: Program,
}
