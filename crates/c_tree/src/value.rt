/// An integer type of the C profile (C99 6.2.5). `char` is signed with 8 bits, and `int` and `unsigned int`
/// have 32 bits.
#[derive(Clone, Copy, PartialEq, Eq)]
pub enum IntType {
    /// `char`, −128 to 127
    Char,
    /// `unsigned char`, 0 to 255
    Uchar,
    /// `int`, −2^31 to 2^31 − 1
    Int,
    /// `unsigned int`, 0 to 2^32 − 1
    Uint,
}

/// A unary operator on a scalar (C99 6.5.3.3). Unary `+` is a conversion.
#[derive(Clone, Copy)]
pub enum UnOp {
    /// `-`
    Minus,
    /// `~`
    Complement,
    /// `!`
    Not,
}

/// A binary operator of C99 6.5.5 to 6.5.12.
#[derive(Clone, Copy)]
pub enum BinOp {
    /// `*` (6.5.5)
    Mul,
    /// `/` (6.5.5)
    Div,
    /// `%` (6.5.5)
    Rem,
    /// `+` (6.5.6)
    Add,
    /// `-` (6.5.6)
    Sub,
    /// `<<` (6.5.7)
    ShiftLeft,
    /// `>>` (6.5.7)
    ShiftRight,
    /// `&` (6.5.10)
    BitAnd,
    /// `^` (6.5.11)
    BitXor,
    /// `|` (6.5.12)
    BitOr,
    /// `<` (6.5.8)
    Less,
    /// `>` (6.5.8)
    Greater,
    /// `<=` (6.5.8)
    LessEqual,
    /// `>=` (6.5.8)
    GreaterEqual,
    /// `==` (6.5.9)
    Equal,
    /// `!=` (6.5.9)
    NotEqual,
}

/// The name of an object of a run.
#[derive(Clone, Copy)]
pub struct ObjectName {
    /// 0 for a static object or a string, and n for an object of the n-th function entry of the run.
    pub activation: u64,
    /// The number of the variable in its function, or in the program's statics for activation 0.
    pub variable: u32,
}

/// A pointer to an element of an array, or one past its last (C99 6.5.6 paragraph 8). An object that is no
/// element of an array is an array of one.
#[derive(Clone, Copy)]
pub struct Pointer {
    /// The object in which the array lies.
    pub name: ObjectName,
    /// The cell of the object at which the array begins.
    pub first: u32,
    /// The cells of one element.
    pub width: u32,
    /// The elements of the array.
    pub elements: u32,
    /// The element that is pointed to, from 0; as many as the elements where it is one past the last.
    pub index: u32,
}

/// What a cell holds, and what an expression gives.
#[derive(Clone, Copy)]
pub enum Value {
    /// An indeterminate value (C99 3.17.2).
    Indeterminate,
    /// An `int`.
    Int(i32),
    /// An `unsigned int`.
    Uint(u32),
    /// A `char`.
    Char(i8),
    /// An `unsigned char`.
    Uchar(u8),
    /// A null pointer (C99 6.3.2.3 paragraph 3).
    Null,
    /// The function with this number, in the numbering of `Program`.
    Func(u32),
    /// A pointer to an object.
    At(Pointer),
}
