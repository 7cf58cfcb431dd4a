use c_lexer::tokens;
use c_parser::{ParseError, parse};
use dm_base::Mode;
use std::test::Fail;

// Texts that no unit spells, with the first byte of the first token with which none goes on, or the end of the text.
const PLACES: [(&[u8], u32); 14] = [
    (b"int x int y;", 6),
    (b"int f(void) { return (1; }", 23),
    (b"int f(void) { a + b = c; }", 20),
    (b"int f(void) { ++(int)x; }", 17),
    (b"struct const s x;", 7),
    (b"int f(int x) { switch (x) { case 1: } }", 36),
    (b"int f(int x) { switch (x) { case 1: ; int y; } }", 38),
    (b"int f(void) { else ; }", 14),
    (b"", 0),
    (b"int f(void) { ;", 15),
    (b"int f(void) { static int x; }", 14),
    (b"int f(void) { return 0; } }", 26),
    (b"int a[;", 6),
    (b"int f(void) { x = ; }", 18),
];

#[test]
fn a_refusal_names_the_first_token_that_fits_nothing(rt: HostRuntime) -> Result<(), Fail> {
    for (row, (text, place)) in PLACES.iter().enumerate() {
        let list = tokens(rt.alloc(), text, Mode::Plain)?;
        let error = parse(rt.alloc(), &list, Mode::Plain).err();
        assert_eq!(rt; error, Some(ParseError::Syntax(*place)), "row {row}");
    }
    Ok(())
}
