// Whether a declarator has a name.
#[derive(Clone, Copy, PartialEq, Eq)]
pub enum Form {
    Named,
    Abstract,
    Either,
}
