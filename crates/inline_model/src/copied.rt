/// A copy of a function: the function, the place of the copy from which it goes on in the list of copies, the place of the
/// call edge, and the number of its first node. The start's copy goes on from none.
#[derive(Clone, Copy)]
pub struct Copied {
    pub function: u32,
    pub root: bool,
    pub parent: usize,
    pub place: usize,
    pub first: u32,
}

/// A copy that is still to be put into the list.
#[derive(Clone, Copy)]
pub struct Waiting {
    pub function: u32,
    pub root: bool,
    pub parent: usize,
    pub place: usize,
}
