use c_lexer::tokens;
use c_parser::parse;
use c_syntax::{BlockItem, Item, ItemKind, StmtKind, Unit};
use c_syntax_printing::print;
use dm_base::Mode;
use std::test::Fail;

// Texts, with what is printed of their units: an operand with operands of its own is printed in parentheses.
const PRINTED: [(&[u8], &[u8]); 39] = [
    (
        b"int f(void) { return a - b - c; }",
        b"int f ( void ) {\nreturn ( a - b ) - c ;\n}\n",
    ),
    (
        b"int f(void) { return a * b + c % d; }",
        b"int f ( void ) {\nreturn ( a * b ) + ( c % d ) ;\n}\n",
    ),
    (
        b"int f(void) { return a << b + c < d == e & f ^ g | h; }",
        b"int f ( void ) {\nreturn ( ( ( ( ( a << ( b + c ) ) < d ) == e ) & f ) ^ g ) | h ;\n}\n",
    ),
    (
        b"int f(void) { return a && b || c && d; }",
        b"int f ( void ) {\nreturn ( a && b ) || ( c && d ) ;\n}\n",
    ),
    (
        b"int f(void) { return a || b && c; }",
        b"int f ( void ) {\nreturn a || ( b && c ) ;\n}\n",
    ),
    (
        b"int f(void) { return a = b += c; }",
        b"int f ( void ) {\nreturn a = ( b += c ) ;\n}\n",
    ),
    (
        b"int f(void) { return a ? b, c : d ? e : f; }",
        b"int f ( void ) {\nreturn a ? ( b , c ) : ( d ? e : f ) ;\n}\n",
    ),
    (
        b"int f(void) { return x * (2 + x); }",
        b"int f ( void ) {\nreturn x * ( 2 + x ) ;\n}\n",
    ),
    (
        b"int f(void) { return -a * *p ++; }",
        b"int f ( void ) {\nreturn ( - a ) * ( * ( p ++ ) ) ;\n}\n",
    ),
    (
        b"int f(void) { return (int)x + y; }",
        b"int f ( void ) {\nreturn ( ( int ) x ) + y ;\n}\n",
    ),
    (
        b"int f(void) { return (x) + y; }",
        b"int f ( void ) {\nreturn x + y ;\n}\n",
    ),
    (
        b"int f(void) { return (unsigned char *)x; }",
        b"int f ( void ) {\nreturn ( unsigned char * ) x ;\n}\n",
    ),
    (
        b"int f(void) { return sizeof (int) * p; }",
        b"int f ( void ) {\nreturn ( sizeof ( int ) ) * p ;\n}\n",
    ),
    (
        b"int f(void) { return sizeof (x)[0]; }",
        b"int f ( void ) {\nreturn sizeof x [ 0 ] ;\n}\n",
    ),
    (
        b"int f(void) { return sizeof (int (*[3])(void)); }",
        b"int f ( void ) {\nreturn sizeof ( int ( * [ 3 ] ) ( void ) ) ;\n}\n",
    ),
    (
        b"int f(void) { return a.b->c[1](2, 3); }",
        b"int f ( void ) {\nreturn a . b -> c [ 1 ] ( 2 , 3 ) ;\n}\n",
    ),
    (
        b"int f(void) { return (a, b)[c]; }",
        b"int f ( void ) {\nreturn ( a , b ) [ c ] ;\n}\n",
    ),
    (
        b"int f(void) { return ! ~ ++x; }",
        b"int f ( void ) {\nreturn ! ( ~ ( ++ x ) ) ;\n}\n",
    ),
    (
        b"int f(void) { return \"a\" \"b\"; }",
        b"int f ( void ) {\nreturn \"ab\" ;\n}\n",
    ),
    (b"struct s;", b"struct s ;\n"),
    (
        b"struct s { int x, *y; char z[3]; };",
        b"struct s {\nint x , * y ;\nchar z [ 3 ] ;\n}\n;\n",
    ),
    (b"enum { A, B = 2, };", b"enum {\nA , B = 2 }\n;\n"),
    (b"enum e { A };", b"enum e {\nA }\n;\n"),
    (b"struct s x, *y;", b"struct s x , * y ;\n"),
    (b"enum e f(void);", b"enum e f ( void ) ;\n"),
    (
        b"static int const unsigned_x = 1;",
        b"static int unsigned_x = 1 ;\n",
    ),
    (b"int const *const p;", b"int * p ;\n"),
    (b"const unsigned const int const x;", b"unsigned int x ;\n"),
    (b"int f(void, int);", b"int f ( void , int ) ;\n"),
    (b"int f(void);", b"int f ( void ) ;\n"),
    (b"int f(const void);", b"int f ( void ) ;\n"),
    (
        b"int f(int (x), int *(*y)(int), char []);",
        b"int f ( int x , int * ( * y ) ( int ) , char [ ] ) ;\n",
    ),
    (
        b"int (*(*f)(int))[2];",
        b"int ( * ( * f ) ( int ) ) [ 2 ] ;\n",
    ),
    (
        b"int a[2][3] = { { 1, 2 }, { 3, }, };",
        b"int a [ 2 ] [ 3 ] = {\n{\n1 , 2 }\n, {\n3 }\n}\n;\n",
    ),
    (
        b"int f(void) { for (int i = 0; i; i++) continue; for (;;) break; for (x; ; y) ; }",
        b"int f ( void ) {\nfor ( int i = 0 ;\ni ;\ni ++ ) continue ;\nfor ( ;\n;\n) break ;\nfor ( x ;\n;\ny ) ;\n}\n",
    ),
    (
        b"int f(void) { switch (x) { case 1: case 2: a; b; default: ; } switch (y) { } }",
        b"int f ( void ) {\nswitch ( x ) {\ncase 1 : case 2 : a ;\nb ;\ndefault : ;\n}\nswitch ( y ) {\n}\n}\n",
    ),
    (
        b"int f(void) { do { } while (x); while (y) { return; } }",
        b"int f ( void ) {\ndo {\n}\nwhile ( x ) ;\nwhile ( y ) {\nreturn ;\n}\n}\n",
    ),
    (
        b"extern int f(int x) { int y = 1, z; return x; }",
        b"extern int f ( int x ) {\nint y = 1 , z ;\nreturn x ;\n}\n",
    ),
    (
        b"int f(void) { if (a) b; else if (c) d; else e; }",
        b"int f ( void ) {\nif ( a ) b ;\nelse if ( c ) d ;\nelse e ;\n}\n",
    ),
];

#[test]
fn units_are_printed_as_they_are_read(rt: HostRuntime) -> Result<(), Fail> {
    for (row, (text, wanted)) in PRINTED.iter().enumerate() {
        let list = tokens(rt.alloc(), text, Mode::Plain)?;
        let unit = parse(rt.alloc(), &list, Mode::Plain)?;
        let printed = print(rt.alloc(), &unit)?;
        assert!(rt; printed.as_slice() == *wanted, "row {row}");
    }
    Ok(())
}

// Whether the only statement of the only function is an `if` without `else` round one with `else`.
fn has_else_inside(unit: &Unit) -> bool {
    let [Item { kind, .. }] = unit.items.as_slice() else {
        return false;
    };
    let ItemKind::Function { body, .. } = kind else {
        return false;
    };
    let StmtKind::Block(items) = &body.kind else {
        return false;
    };
    let [BlockItem::Statement(outer)] = items.as_slice() else {
        return false;
    };
    let StmtKind::If { yes, no, .. } = &outer.kind else {
        return false;
    };
    if no.is_some() {
        return false;
    }
    match &yes.kind {
        StmtKind::If { no, .. } => no.is_some(),
        _ => false,
    }
}

#[test]
fn an_else_belongs_to_the_nearest_if(rt: HostRuntime) -> Result<(), Fail> {
    let text = b"int main(void) { if (a) if (b) c(); else d(); }";
    let list = tokens(rt.alloc(), text, Mode::Plain)?;
    let unit = parse(rt.alloc(), &list, Mode::Plain)?;
    assert!(rt; has_else_inside(&unit));
    Ok(())
}
