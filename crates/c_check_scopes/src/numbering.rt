ghost use Rattle.std.specs.Prelude.{◌≡◌, ℕ, List, [], ◌∷◌, ◌++◌, length, OnOk};
ghost use Rattle.c_rules.specs.Names.{number_among, is_among, with_new};

use dm_counts::OutOfMemory;
use std::alloc::Global;
use std::collections::HashMap;
use std::marker::Model;

/// A list of names, which tells the first place of each.
#[derive(Drop)]
pub struct Numbering<'t> {
    first: HashMap<&'t [u8], usize>,
    names: Vec<&'t [u8]>,
}

impl<'t> Model for Numbering<'t> {
    ghost use Rattle.std.specs.Prelude.{List, ℕ};

    ghost Value = { List (List ℕ) };

    ghost use Rattle.c_check_scopes.specs.Numbers.{seen, AreNumbers};

    ghost view = { λ s. seen s.names.items };

    ghost invariant = { λ s. AreNumbers s.first s.names.items };
}

impl<'t> Numbering<'t> {
    /// No names.
    pub fn new(alloc: Global) -> Numbering<'t>
        ensures { result ≡ [] }
    {
        Numbering {
            first: HashMap::new(alloc),
            names: Vec::new(alloc),
        }
    }

    /// How many names there are.
    pub fn len(&self) -> usize
        ensures { result ≡ length self.now }
    {
        self.names.len()
    }

    /// The first place of the name, where it stands there.
    pub fn number(&self, name: &[u8]) -> Option<usize>
        ensures { result ≡ number_among self.now name.now }
    {
        match self.first.get(name) {
            Some(place) => Some(*place),
            None => None,
        }
    }

    /// Whether the name stands there.
    pub fn contains(&self, name: &[u8]) -> bool
        ensures { result ≡ is_among self.now name.now }
    {
        self.number(name).is_some()
    }

    /// Puts the name at the end. The only error is that memory was refused.
    pub fn push(&mut self, name: &'t [u8]) -> Result<(), OutOfMemory>
        ensures { OnOk result (self.new ≡ self.old ++ name.now ∷ []) }
    {
        let place = self.names.len();
        if self.contains(name) {
            self.names.push(name)?;
            return Ok(());
        }
        self.names.push(name)?;
        match self.first.insert(name, place) {
            Ok(_) => Ok(()),
            Err(_) => {
                self.names.pop();
                Err(OutOfMemory)
            }
        }
    }

    /// Puts the name at the end, where it isn't there yet. The only error is that memory was refused.
    pub fn add(&mut self, name: &'t [u8]) -> Result<(), OutOfMemory>
        ensures { OnOk result (self.new ≡ with_new self.old name.now) }
    {
        if self.contains(name) {
            return Ok(());
        }
        self.push(name)
    }
}
