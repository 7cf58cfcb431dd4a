ghost use Rattle.c_lexer.specs.Kinds.{IsKind};
ghost use Rattle.c_lexer.specs.KindProp.{IsKind-prop};

use dm_base::Bytes;

/// What a token is, with its value.
#[derive(Drop)]
pub enum TokenKind {
    /// A name of 1 to 63 bytes (C99 6.4.2.1).
    Name(Bytes),
    /// A keyword, by its number below 22 (C99 6.4.1); the module `keyword` names them.
    Keyword(u8),
    /// An integer constant, of type int or unsigned int (C99 6.4.4.1); the value of an int is below
    /// 2^31.
    Int {
        /// The value.
        value: u32,
        /// Whether the type is unsigned int.
        unsigned: bool,
    },
    /// A character constant, from -128 to 127, which is an int (C99 6.4.4.4).
    Char(i32),
    /// A string literal: the values of its elements, without a zero at the end (C99 6.4.5).
    Str(Bytes),
    /// A punctuator, by its number below 45 (C99 6.4.6); the module `punctuator` names them.
    Punct(u8),
}

/// A token of a text. Its kind is one that some text spells.
#[derive(Drop)]
pub struct Token {
    /// What the token is.
    pub kind: TokenKind,
    /// The place of its first byte, counted from 0.
    pub from: u32,
    /// The place after its last byte.
    pub to: u32,
    pub ghost given: { IsKind kind } by { IsKind-prop kind },
}
