use c_lexer::tokens;
use c_parser::{ParseError, parse};
use dm_base::Mode;
use std::alloc::Global;
use std::test::Fail;

// A text in which something is repeated, and where it is refused.
struct Row {
    front: &'static [u8],
    // what is repeated, and how often
    open: &'static [u8],
    count: usize,
    middle: &'static [u8],
    // what is repeated as often
    close: &'static [u8],
    back: &'static [u8],
    mode: Mode,
    place: Option<u32>,
}

const MAIN: &[u8] = b"int main(void) ";

const RETURN: &[u8] = b"int main(void){return ";

fn add(text: &mut Vec<u8>, part: &[u8], count: usize) -> Result<(), Fail> {
    for _ in 0..count {
        text.extend_from_slice(part)?;
    }
    Ok(())
}

fn text_of(alloc: Global, row: &Row) -> Result<Vec<u8>, Fail> {
    let mut text = Vec::new(alloc);
    text.extend_from_slice(row.front)?;
    add(&mut text, row.open, row.count)?;
    text.extend_from_slice(row.middle)?;
    add(&mut text, row.close, row.count)?;
    text.extend_from_slice(row.back)?;
    Ok(text)
}

const ROWS: [Row; 38] = [
    Row {
        front: MAIN,
        open: b"{",
        count: 200,
        middle: b"",
        close: b"}",
        back: b"",
        mode: Mode::Plain,
        place: None,
    },
    Row {
        front: MAIN,
        open: b"{",
        count: 201,
        middle: b"",
        close: b"}",
        back: b"",
        mode: Mode::Plain,
        place: Some(215),
    },
    Row {
        front: MAIN,
        open: b"{",
        count: 500,
        middle: b"",
        close: b"}",
        back: b"",
        mode: Mode::Instrumented,
        place: None,
    },
    Row {
        front: MAIN,
        open: b"{",
        count: 501,
        middle: b"",
        close: b"}",
        back: b"",
        mode: Mode::Instrumented,
        place: Some(515),
    },
    Row {
        front: RETURN,
        open: b"(",
        count: 500,
        middle: b"0",
        close: b")",
        back: b";}",
        mode: Mode::Plain,
        place: None,
    },
    Row {
        front: RETURN,
        open: b"(",
        count: 501,
        middle: b"0",
        close: b")",
        back: b";}",
        mode: Mode::Plain,
        place: Some(522),
    },
    Row {
        front: RETURN,
        open: b"~",
        count: 197,
        middle: b"x",
        close: b"",
        back: b";}",
        mode: Mode::Plain,
        place: None,
    },
    Row {
        front: RETURN,
        open: b"~",
        count: 198,
        middle: b"x",
        close: b"",
        back: b";}",
        mode: Mode::Plain,
        place: Some(220),
    },
    Row {
        front: RETURN,
        open: b"~",
        count: 497,
        middle: b"x",
        close: b"",
        back: b";}",
        mode: Mode::Instrumented,
        place: None,
    },
    Row {
        front: RETURN,
        open: b"~",
        count: 498,
        middle: b"x",
        close: b"",
        back: b";}",
        mode: Mode::Instrumented,
        place: Some(520),
    },
    Row {
        front: RETURN,
        open: b"(~",
        count: 497,
        middle: b"x",
        close: b")",
        back: b";}",
        mode: Mode::Instrumented,
        place: None,
    },
    Row {
        front: RETURN,
        open: b"(~",
        count: 498,
        middle: b"x",
        close: b")",
        back: b";}",
        mode: Mode::Instrumented,
        place: Some(1018),
    },
    Row {
        front: RETURN,
        open: b"f(",
        count: 497,
        middle: b"x",
        close: b")",
        back: b";}",
        mode: Mode::Instrumented,
        place: None,
    },
    Row {
        front: RETURN,
        open: b"f(",
        count: 498,
        middle: b"x",
        close: b")",
        back: b";}",
        mode: Mode::Instrumented,
        place: Some(1016),
    },
    Row {
        front: RETURN,
        open: b"x?",
        count: 497,
        middle: b"x",
        close: b":x",
        back: b";}",
        mode: Mode::Instrumented,
        place: None,
    },
    Row {
        front: RETURN,
        open: b"x=",
        count: 497,
        middle: b"x",
        close: b"",
        back: b";}",
        mode: Mode::Instrumented,
        place: None,
    },
    Row {
        front: RETURN,
        open: b"x=",
        count: 498,
        middle: b"x",
        close: b"",
        back: b";}",
        mode: Mode::Instrumented,
        place: Some(1016),
    },
    Row {
        front: RETURN,
        open: b"(int)",
        count: 497,
        middle: b"x",
        close: b"",
        back: b";}",
        mode: Mode::Instrumented,
        place: None,
    },
    Row {
        front: b"int ",
        open: b"*",
        count: 499,
        middle: b"x",
        close: b"",
        back: b";",
        mode: Mode::Instrumented,
        place: None,
    },
    Row {
        front: b"int ",
        open: b"*",
        count: 500,
        middle: b"x",
        close: b"",
        back: b";",
        mode: Mode::Instrumented,
        place: Some(504),
    },
    Row {
        front: b"int ",
        open: b"(",
        count: 500,
        middle: b"x",
        close: b")",
        back: b";",
        mode: Mode::Plain,
        place: None,
    },
    Row {
        front: b"int ",
        open: b"(",
        count: 501,
        middle: b"x",
        close: b")",
        back: b";",
        mode: Mode::Plain,
        place: Some(504),
    },
    Row {
        front: b"int x = ",
        open: b"{",
        count: 499,
        middle: b"1",
        close: b"}",
        back: b";",
        mode: Mode::Instrumented,
        place: None,
    },
    Row {
        front: b"int x = ",
        open: b"{",
        count: 500,
        middle: b"1",
        close: b"}",
        back: b";",
        mode: Mode::Instrumented,
        place: Some(508),
    },
    Row {
        front: b"int main(void) {",
        open: b"if(x)",
        count: 498,
        middle: b";",
        close: b"",
        back: b"}",
        mode: Mode::Instrumented,
        place: None,
    },
    Row {
        front: b"int main(void) {",
        open: b"if(x)",
        count: 499,
        middle: b";",
        close: b"",
        back: b"}",
        mode: Mode::Instrumented,
        place: Some(2509),
    },
    Row {
        front: b"int main(void) {",
        open: b"while(x)",
        count: 498,
        middle: b";",
        close: b"",
        back: b"}",
        mode: Mode::Instrumented,
        place: None,
    },
    Row {
        front: b"int main(void) {",
        open: b"for(;;)",
        count: 498,
        middle: b";",
        close: b"",
        back: b"}",
        mode: Mode::Instrumented,
        place: None,
    },
    Row {
        front: b"int main(void) {",
        open: b"do ",
        count: 498,
        middle: b";",
        close: b"while(x);",
        back: b"}",
        mode: Mode::Instrumented,
        place: None,
    },
    Row {
        front: b"int main(void) {",
        open: b"switch(x){case 1:",
        count: 498,
        middle: b";",
        close: b"}",
        back: b"}",
        mode: Mode::Instrumented,
        place: None,
    },
    Row {
        front: b"int main(void){return 1",
        open: b"+1",
        count: 197,
        middle: b"",
        close: b"",
        back: b";}",
        mode: Mode::Plain,
        place: None,
    },
    Row {
        front: b"int main(void){return 1",
        open: b"+1",
        count: 198,
        middle: b"",
        close: b"",
        back: b";}",
        mode: Mode::Plain,
        place: Some(22),
    },
    Row {
        front: b"int main(void){return x",
        open: b"[1]",
        count: 197,
        middle: b"",
        close: b"",
        back: b";}",
        mode: Mode::Plain,
        place: None,
    },
    Row {
        front: b"int main(void){return x",
        open: b"[1]",
        count: 198,
        middle: b"",
        close: b"",
        back: b";}",
        mode: Mode::Plain,
        place: Some(22),
    },
    Row {
        front: MAIN,
        open: b"{",
        count: 199,
        middle: b"if )",
        close: b"",
        back: b"",
        mode: Mode::Plain,
        place: Some(217),
    },
    Row {
        front: MAIN,
        open: b"{",
        count: 201,
        middle: b"",
        close: b"",
        back: b"",
        mode: Mode::Plain,
        place: Some(215),
    },
    Row {
        front: RETURN,
        open: b"f((",
        count: 497,
        middle: b"x",
        close: b"))",
        back: b";}",
        mode: Mode::Instrumented,
        place: None,
    },
    Row {
        front: RETURN,
        open: b"a[(",
        count: 497,
        middle: b"x",
        close: b")]",
        back: b";}",
        mode: Mode::Instrumented,
        place: None,
    },
];

#[test]
fn nodes_and_parentheses_have_limits(rt: HostRuntime) -> Result<(), Fail> {
    for (number, row) in ROWS.iter().enumerate() {
        let text = text_of(rt.alloc(), row)?;
        let list = tokens(rt.alloc(), &text, Mode::Instrumented)?;
        let found = parse(rt.alloc(), &list, row.mode).err();
        let wanted = match row.place {
            Some(place) => Some(ParseError::Nesting(place)),
            None => None,
        };
        assert_eq!(rt; found, wanted, "row {number}");
    }
    Ok(())
}

// What makes a statement of another one that stands between.
const STATEMENTS: [(&[u8], &[u8]); 7] = [
    (b"{", b"}"),
    (b"if(x)", b""),
    (b"if(x);else ", b""),
    (b"while(x)", b""),
    (b"for(;;)", b""),
    (b"do ", b"while(x);"),
    (b"switch(x){case 1:", b"}"),
];

#[test]
fn as_many_nodes_and_parentheses_as_may_be_stand_in_each_other(
    rt: HostRuntime,
) -> Result<(), Fail> {
    for (number, (open, close)) in STATEMENTS.iter().enumerate() {
        let mut text = Vec::new(rt.alloc());
        text.extend_from_slice(b"int main(void) {")?;
        add(&mut text, open, 497)?;
        text.extend_from_slice(b"return ")?;
        add(&mut text, b"(", 500)?;
        text.extend_from_slice(b"0")?;
        add(&mut text, b")", 500)?;
        text.extend_from_slice(b";")?;
        add(&mut text, close, 497)?;
        text.extend_from_slice(b"}")?;
        let list = tokens(rt.alloc(), &text, Mode::Instrumented)?;
        let found = parse(rt.alloc(), &list, Mode::Instrumented).err();
        assert_eq!(rt; found, None, "row {number}");
    }
    Ok(())
}
