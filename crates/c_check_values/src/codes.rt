/// The code of the demand that each name, tag behind a member access, and member is declared before its use (C99 6.5.1 paragraph 2, 6.5.2.3
/// paragraph 1).
pub const C1: u8 = 1;

/// The code of the demand that a name is declared once in a scope (C99 6.7 paragraph 3).
pub const C2: u8 = 2;

/// The code of the demand that the types fit (C99 6.5, 6.7, 6.8).
pub const C3: u8 = 3;

/// The code of the demand that the operand of an assignment, of `&`, `++` or `--` is a place (C99 6.5.2.4, 6.5.3.1, 6.5.3.2, 6.5.16).
pub const C4: u8 = 4;

/// The code of the demand that a call has as many arguments as the function has parameters (C99 6.5.2.2 paragraph 2).
pub const C5: u8 = 5;

/// The code of the demand that what has to be constant is constant and defined (C99 6.6).
pub const C6: u8 = 6;

/// The code of the demand that the case values of a switch are distinct, and it has at most one default (C99 6.8.4.2 paragraph 3).
pub const C7: u8 = 7;

/// The code of the demand that `break` stands in a loop or switch, `continue` in a loop (C99 6.8.6.2, 6.8.6.3).
pub const C8: u8 = 8;

/// The code of the demand that `int main(void)` is defined (C99 5.1.2.2.1).
pub const C9: u8 = 9;

/// The code of the demand that what is used is defined (C99 6.9 paragraph 5).
pub const C10: u8 = 10;

/// The code of the demand that a declared name of a system call has its type and no definition.
pub const C11: u8 = 11;

/// The code of the demand that no declared name is reserved (C99 7.1.3).
pub const C12: u8 = 12;

/// The code of the demand that the limits hold (C99 5.2.4.1).
pub const C13: u8 = 13;

/// The code of the demand that an initialiser has the form and the count that its type allows (C99 6.7.8).
pub const C14: u8 = 14;
