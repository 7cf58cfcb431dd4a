ghost use Rattle.std.specs.Prelude.{◌≡◌, ◌<◌, ◌^◌, length};
ghost use Rattle.c_rules.specs.Names.{number_among};

use crate::numbering::Numbering;
use std::marker::Model;

/// A list of fewer than 2^31 names of a whole unit.
#[derive(Drop)]
pub struct FewNames<'t> {
    names: Numbering<'t>,
}

impl<'t> Model for FewNames<'t> {
    ghost use Rattle.std.specs.Prelude.{List, ℕ, ◌<◌, ◌^◌, length};

    ghost Value = { List (List ℕ) };

    ghost view = { λ s. s.names };

    ghost invariant = { λ s. length s.names < 2 ^ 31 };
}

impl<'t> FewNames<'t> {
    /// These names, which are fewer than 2^31.
    pub fn of(names: Numbering<'t>) -> FewNames<'t>
        requires { length names < 2 ^ 31 }
        ensures { result ≡ names.entry }
    {
        FewNames { names }
    }

    /// How many names there are.
    pub fn len(&self) -> usize
        ensures is { result ≡ length self.now }
        ensures few { result < 2 ^ 31 }
    {
        self.names.len()
    }

    /// The first place of the name, where it stands there.
    pub fn number(&self, name: &[u8]) -> Option<u32>
        ensures { result ≡ number_among self.now name.now }
    {
        match self.names.number(name) {
            Some(place) => Some(place as u32),
            None => None,
        }
    }
}
