//! The keywords of the C profile, by their numbers (C99 6.4.1).

/// `break`
pub const BREAK: u8 = 0;
/// `case`
pub const CASE: u8 = 1;
/// `char`
pub const CHAR: u8 = 2;
/// `const`
pub const CONST: u8 = 3;
/// `continue`
pub const CONTINUE: u8 = 4;
/// `default`
pub const DEFAULT: u8 = 5;
/// `do`
pub const DO: u8 = 6;
/// `else`
pub const ELSE: u8 = 7;
/// `enum`
pub const ENUM: u8 = 8;
/// `extern`
pub const EXTERN: u8 = 9;
/// `for`
pub const FOR: u8 = 10;
/// `if`
pub const IF: u8 = 11;
/// `int`
pub const INT: u8 = 12;
/// `return`
pub const RETURN: u8 = 13;
/// `signed`
pub const SIGNED: u8 = 14;
/// `sizeof`
pub const SIZEOF: u8 = 15;
/// `static`
pub const STATIC: u8 = 16;
/// `struct`
pub const STRUCT: u8 = 17;
/// `switch`
pub const SWITCH: u8 = 18;
/// `unsigned`
pub const UNSIGNED: u8 = 19;
/// `void`
pub const VOID: u8 = 20;
/// `while`
pub const WHILE: u8 = 21;
