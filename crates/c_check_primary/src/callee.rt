ghost use Rattle.std.specs.Prelude.{◌≡◌};

use c_tree::{CType, TExpr};

/// What is called (C99 6.5.2.2).
#[derive(Drop)]
pub enum Designator {
    /// The function with this number, by its name.
    Direct(u32),
    /// The function behind this pointer.
    Through(TExpr),
}

/// What is called, with its type.
pub struct Callee {
    /// The function.
    pub designator: Designator,
    /// What it returns.
    pub returns: CType,
    /// The types of its parameters.
    pub parameters: Vec<CType>,
}

impl Drop for Callee {
    fn drop(self) {
        let Self {
            designator: _designator,
            returns: _returns,
            parameters: _parameters,
        } = self;
    }
}

impl Callee {
    /// The function, what it returns, and the types of its parameters.
    pub fn into_parts(self) -> (Designator, CType, Vec<CType>)
        ensures designator { result.0 ≡ self.designator }
        ensures returns { result.1 ≡ self.returns }
        ensures parameters { result.2 ≡ self.parameters }
    {
        let Self {
            designator,
            returns,
            parameters,
        } = self;
        (designator, returns, parameters)
    }
}
