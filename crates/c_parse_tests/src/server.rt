use c_lexer::tokens;
use c_parser::parse;
use c_syntax_printing::print;
use dm_base::Mode;
use std::test::Fail;

// A server that reads lines from a terminal and echoes them, line by line.
const ECHO_SERVER: [&[u8]; 52] = [
    b"# 1 \"echo.c\"",
    b"int read(int fd, char *buf, unsigned n);",
    b"int write(int fd, const char *buf, unsigned n);",
    b"int open(const char *path, int flags, unsigned mode);",
    b"int dup2(int from, int to);",
    b"int close(int fd);",
    b"int getpid(void);",
    b"int fork(void);",
    b"void _exit(int status);",
    b"enum { LINE = 8, OPS = 2 };",
    b"struct session { int fd; int lines; char buf[LINE]; };",
    b"static struct session s;",
    b"static int op_echo(struct session *p, int n)",
    b"{",
    b"    return write(p->fd, p->buf, (unsigned) n);",
    b"}",
    b"static int op_pid(struct session *p, int n)",
    b"{",
    b"    char d;",
    b"    d = '0' + getpid() % 10;",
    b"    return n > 0 ? write(p->fd, &d, 1) : 0;",
    b"}",
    b"static int (*const ops[OPS])(struct session *, int) = { op_echo, op_pid };",
    b"static int serve(struct session *p)",
    b"{",
    b"    int n;",
    b"    while ((n = read(p->fd, p->buf, sizeof p->buf)) > 0) {",
    b"        p->lines++;",
    b"        switch (p->buf[0]) {",
    b"        case 'q':",
    b"            return p->lines;",
    b"        case 'p':",
    b"            ops[1](p, n);",
    b"            break;",
    b"        default:",
    b"            ops[0](p, n);",
    b"        }",
    b"    }",
    b"    return n;",
    b"}",
    b"int main(void)",
    b"{",
    b"    int child;",
    b"    s.fd = open(\"/dev/ttyS0\", 2, 0);",
    b"    if (s.fd < 0 || dup2(s.fd, 2) < 0)",
    b"        return 1;",
    b"    child = fork();",
    b"    if (child == 0)",
    b"        _exit(serve(&s));",
    b"    close(s.fd);",
    b"    return 0;",
    b"}",
];

#[test]
fn what_is_printed_of_a_server_is_read_back_as_it_was(rt: HostRuntime) -> Result<(), Fail> {
    let mut text = Vec::new(rt.alloc());
    for line in ECHO_SERVER.iter() {
        text.extend_from_slice(line)?;
        text.push(b'\n')?;
    }
    let list = tokens(rt.alloc(), &text, Mode::Plain)?;
    let unit = parse(rt.alloc(), &list, Mode::Plain)?;
    assert_eq!(rt; unit.items.len(), 16);
    let printed = print(rt.alloc(), &unit)?;
    let again = tokens(rt.alloc(), &printed, Mode::Plain)?;
    let same = parse(rt.alloc(), &again, Mode::Plain)?;
    assert_eq!(rt; same.items.len(), 16);
    let reprinted = print(rt.alloc(), &same)?;
    assert!(rt; reprinted == printed);
    Ok(())
}
