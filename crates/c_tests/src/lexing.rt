use c_lexer::keyword::{CHAR, ELSE, IF, INT};
use c_lexer::punctuator::{
    ARROW, ASSIGN, ASSIGN_LEFT_SHIFT, ASTERISK, DOT, INCREMENT, LEFT_PARENTHESIS, LESS, LESS_EQUAL,
    MINUS, PLUS, SEMICOLON, SLASH,
};
use c_lexer::{LexError, Token, TokenKind, keyword_text, punctuator_text, tokens};
use dm_base::Mode;
use std::test::Fail;

// What a token is to be.
#[derive(Clone, Copy)]
enum Wanted {
    Name(&'static [u8]),
    Keyword(u8),
    Int(u32),
    Unsigned(u32),
    Char(i32),
    Str(&'static [u8]),
    Punct(u8),
}

use Wanted::{Char, Int, Keyword, Name, Punct, Str, Unsigned};

// Texts with their tokens (C99 6.4).
const KINDS: [(&[u8], &[Wanted]); 11] = [
    (b" \t\n\x0b\x0c\r", &[]),
    (
        b"a+++b",
        &[Name(b"a"), Punct(INCREMENT), Punct(PLUS), Name(b"b")],
    ),
    (
        b"<<=<=p->x",
        &[
            Punct(ASSIGN_LEFT_SHIFT),
            Punct(LESS_EQUAL),
            Name(b"p"),
            Punct(ARROW),
            Name(b"x"),
        ],
    ),
    (
        b"# 1 \"a.c\"\nint0/**/int//\nelse if(",
        &[
            Name(b"int0"),
            Keyword(INT),
            Keyword(ELSE),
            Keyword(IF),
            Punct(LEFT_PARENTHESIS),
        ],
    ),
    (
        b"2147483647 017777777777 020000000000 0xffffffff 0u",
        &[
            Int(2_147_483_647),
            Int(2_147_483_647),
            Unsigned(2_147_483_648),
            Unsigned(4_294_967_295),
            Unsigned(0),
        ],
    ),
    (
        b"0xe+1-1 .5",
        &[
            Int(14),
            Punct(PLUS),
            Int(1),
            Punct(MINUS),
            Int(1),
            Punct(DOT),
            Int(5),
        ],
    ),
    (
        b"'a''\"''\\'''\\n''\\0''\\200''\\xff'",
        &[
            Char(97),
            Char(34),
            Char(39),
            Char(10),
            Char(0),
            Char(-128),
            Char(-1),
        ],
    ),
    (
        b"\"/*\" \"\\0\\12\\1234\\x41g\"",
        &[Str(b"/*"), Str(b"\0\nS4Ag")],
    ),
    (b"char<", &[Keyword(CHAR), Punct(LESS)]),
    (
        b"a//*b\n*/c=",
        &[
            Name(b"a"),
            Punct(ASTERISK),
            Punct(SLASH),
            Name(b"c"),
            Punct(ASSIGN),
        ],
    ),
    (b";", &[Punct(SEMICOLON)]),
];

// Texts without tokens, with the code and the place of the refusal.
const REFUSALS: [(&[u8], u8, u32); 14] = [
    (b"int x = 08;", 3, 8),
    (b"4294967296", 4, 0),
    (b"x = 2147483648;", 4, 4),
    (b"/* x", 2, 0),
    (b"#define A", 5, 0),
    (b"/**/# 1 \"a\"", 5, 4),
    (b"a\\\n", 1, 1),
    (b"a \"b\nc\"", 3, 2),
    (b"'\\1234'", 3, 0),
    (b"a '\\x100'", 4, 2),
    (b"\"\\x100", 3, 0),
    (b"1.0", 3, 0),
    (b"int main(void) { goto x; }", 6, 17),
    (
        b"{goto456789b123456789c123456789d123456789e123456789f123456789g123",
        3,
        1,
    ),
];

// Whether the kind is the wanted one.
fn is_kind(kind: &TokenKind, wanted: &Wanted) -> bool {
    match (kind, wanted) {
        (TokenKind::Name(name), Name(other)) => name.as_slice() == *other,
        (TokenKind::Keyword(number), Keyword(other)) => *number == *other,
        (TokenKind::Int { value, unsigned }, Int(other)) => !*unsigned && *value == *other,
        (TokenKind::Int { value, unsigned }, Unsigned(other)) => *unsigned && *value == *other,
        (TokenKind::Char(value), Char(other)) => *value == *other,
        (TokenKind::Str(bytes), Str(other)) => bytes.as_slice() == *other,
        (TokenKind::Punct(number), Punct(other)) => *number == *other,
        _ => false,
    }
}

// Whether the tokens have the wanted kinds.
fn have_kinds(tokens: &[Token], wanted: &[Wanted]) -> bool {
    for (token, other) in tokens.iter().zip(wanted) {
        if !is_kind(&token.kind, other) {
            return false;
        }
    }
    tokens.len() == wanted.len()
}

#[test]
fn texts_have_their_tokens(rt: HostRuntime) -> Result<(), Fail> {
    for (row, (text, wanted)) in KINDS.iter().enumerate() {
        let found = tokens(rt.alloc(), text, Mode::Plain)?;
        assert!(rt; have_kinds(&found, wanted), "row {row}");
    }
    assert!(rt; keyword_text(CHAR) == b"char".as_slice());
    assert!(rt; punctuator_text(ARROW) == b"->".as_slice());
    Ok(())
}

#[test]
fn texts_are_refused(rt: HostRuntime) {
    for (row, (text, code, place)) in REFUSALS.iter().enumerate() {
        let error = tokens(rt.alloc(), text, Mode::Plain).err();
        assert_eq!(rt; error, Some(LexError::At(*code, *place)), "row {row}");
    }
}

#[test]
fn a_text_has_a_greatest_length(rt: HostRuntime) -> Result<(), Fail> {
    let text = vec![in rt.alloc(); b' '; 1_048_577]?;
    let plain = tokens(rt.alloc(), &text, Mode::Plain).err();
    assert_eq!(rt; plain, Some(LexError::At(7, 1_048_576)));
    assert!(rt; tokens(rt.alloc(), &text, Mode::Instrumented)?.is_empty());
    Ok(())
}
