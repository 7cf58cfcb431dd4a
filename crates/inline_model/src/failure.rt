/// Why a model is not inlined.
#[derive(Clone, Copy)]
pub enum InlineError {
    /// Memory was refused.
    OutOfMemory,
    /// Chains of sites have no greatest length, so the model has no inlined one.
    Recursive,
    /// The inlined model has more than 200,000 nodes.
    TooManyNodes,
}
