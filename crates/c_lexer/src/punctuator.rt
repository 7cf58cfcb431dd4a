//! The punctuators of the C profile, by their numbers (C99 6.4.6).

/// `[`
pub const LEFT_BRACKET: u8 = 0;
/// `]`
pub const RIGHT_BRACKET: u8 = 1;
/// `(`
pub const LEFT_PARENTHESIS: u8 = 2;
/// `)`
pub const RIGHT_PARENTHESIS: u8 = 3;
/// `{`
pub const LEFT_BRACE: u8 = 4;
/// `}`
pub const RIGHT_BRACE: u8 = 5;
/// `.`
pub const DOT: u8 = 6;
/// `->`
pub const ARROW: u8 = 7;
/// `++`
pub const INCREMENT: u8 = 8;
/// `--`
pub const DECREMENT: u8 = 9;
/// `&`
pub const AMPERSAND: u8 = 10;
/// `*`
pub const ASTERISK: u8 = 11;
/// `+`
pub const PLUS: u8 = 12;
/// `-`
pub const MINUS: u8 = 13;
/// `~`
pub const TILDE: u8 = 14;
/// `!`
pub const EXCLAMATION: u8 = 15;
/// `/`
pub const SLASH: u8 = 16;
/// `%`
pub const PERCENT: u8 = 17;
/// `<<`
pub const LEFT_SHIFT: u8 = 18;
/// `>>`
pub const RIGHT_SHIFT: u8 = 19;
/// `<`
pub const LESS: u8 = 20;
/// `>`
pub const GREATER: u8 = 21;
/// `<=`
pub const LESS_EQUAL: u8 = 22;
/// `>=`
pub const GREATER_EQUAL: u8 = 23;
/// `==`
pub const EQUAL_EQUAL: u8 = 24;
/// `!=`
pub const NOT_EQUAL: u8 = 25;
/// `^`
pub const CARET: u8 = 26;
/// `|`
pub const BAR: u8 = 27;
/// `&&`
pub const AND: u8 = 28;
/// `||`
pub const OR: u8 = 29;
/// `?`
pub const QUESTION: u8 = 30;
/// `:`
pub const COLON: u8 = 31;
/// `;`
pub const SEMICOLON: u8 = 32;
/// `=`
pub const ASSIGN: u8 = 33;
/// `*=`
pub const ASSIGN_MULTIPLY: u8 = 34;
/// `/=`
pub const ASSIGN_DIVIDE: u8 = 35;
/// `%=`
pub const ASSIGN_REMAINDER: u8 = 36;
/// `+=`
pub const ASSIGN_ADD: u8 = 37;
/// `-=`
pub const ASSIGN_SUBTRACT: u8 = 38;
/// `<<=`
pub const ASSIGN_LEFT_SHIFT: u8 = 39;
/// `>>=`
pub const ASSIGN_RIGHT_SHIFT: u8 = 40;
/// `&=`
pub const ASSIGN_AND: u8 = 41;
/// `^=`
pub const ASSIGN_XOR: u8 = 42;
/// `|=`
pub const ASSIGN_OR: u8 = 43;
/// `,`
pub const COMMA: u8 = 44;
