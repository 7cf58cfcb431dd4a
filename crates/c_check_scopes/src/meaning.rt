use c_tree::CType;

/// What an ordinary name means (C99 6.2.1). An object has two types, which differ within its own initialiser alone:
/// an array without a size has its size at the end of the initialiser that gives it one (6.7.8 paragraph 22).
#[derive(Drop)]
pub enum Meaning {
    /// A static object.
    Static {
        /// Its type so far.
        seen: CType,
        /// Its type.
        whole: CType,
        /// Whether its definition stands before.
        defined: bool,
    },
    /// A variable of the function.
    Local {
        /// Its number among the variables of the function.
        number: u32,
        /// Its type so far.
        seen: CType,
        /// Its type.
        whole: CType,
    },
    /// A function.
    Function {
        /// Its type.
        ctype: CType,
        /// Whether its definition stands before.
        defined: bool,
    },
    /// An enumerator with this value.
    Enumerator(i32),
}
