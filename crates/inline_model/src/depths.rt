use crate::Sites;

/// How many calls may be open at once: the length of the longest chains of sites, or a chain that ends in a cycle.
#[derive(Drop)]
pub enum Depth {
    /// The longest chains have this length.
    Greatest(u32),
    /// Chains have no greatest length. The sites of `first` and then of `cycle` are a chain, and the last site of the
    /// cycle opens its first one.
    Unbounded { first: Sites, cycle: Sites },
}
