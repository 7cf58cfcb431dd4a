/// Why no model was made of a program.
#[derive(Clone, Copy)]
pub enum BuildError {
    /// Memory was refused.
    OutOfMemory,
    /// The graph has more than 200,000 nodes.
    TooManyNodes,
}
