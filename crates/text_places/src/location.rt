/// Where a byte of a text stands: a file, a line of it and a column, both counted from 1.
#[derive(Clone, Copy)]
pub struct Location<'a> {
    pub file: &'a [u8],
    pub line: u64,
    pub column: u64,
}
