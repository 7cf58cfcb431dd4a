use c_tree::CType;

/// What an expression says of a function. Functions go by their numbers: the defined ones in the order of their
/// definitions, and then the 24 system calls.
#[derive(Clone, Copy)]
pub enum Mention<'p> {
    /// The name of the function with this number stands there, other than to call it.
    Named(u32),
    /// The function with this number is called at the site.
    Direct {
        /// The number of the call's site.
        site: u32,
        /// The number of the function.
        function: u32,
    },
    /// A pointer is called at the site.
    Through {
        /// The number of the call's site.
        site: u32,
        /// The type of the pointer.
        ctype: &'p CType,
    },
}
