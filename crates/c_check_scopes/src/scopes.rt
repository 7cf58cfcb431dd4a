ghost use Rattle.std.specs.Prelude.{◌≡◌, List, [], ◌∷◌, ◌++◌, length, OnOk};
ghost use Rattle.c_rules.specs.Scopes.{lookup};
ghost use Rattle.c_check_scopes.specs.Bound.{Bound, bound, bindings_of};
ghost use Rattle.c_check_scopes.specs.View.{found};

use crate::meaning::Meaning;
use dm_counts::{Count, OutOfMemory};
use std::alloc::Global;
use std::collections::HashMap;
use std::marker::Model;

/// A name that is declared.
#[derive(Drop)]
pub struct Entry<'t> {
    /// The name.
    pub name: &'t [u8],
    /// How many blocks enclose its declaration.
    pub depth: Count,
    /// What it means.
    pub means: Meaning,
    /// The number of the entry of the name that it hides.
    pub hidden: Option<usize>,
}

/// The names that are declared, seen as a list with the newest first.
#[derive(Drop)]
pub struct Scopes<'t> {
    newest: HashMap<&'t [u8], Option<usize>>,
    entries: Vec<Entry<'t>>,
}

impl<'t> Model for Scopes<'t> {
    ghost use Rattle.std.specs.Prelude.{List, []};
    ghost use Rattle.std.specs.Coded.{codes};
    ghost use Rattle.c_tree.specs.contracts.tree.CType as t;
    ghost use Rattle.c_check_scopes.specs.Bound.{Bound};

    ghost Value = { List Bound };

    ghost coded = { Prim.hlevel (codes, t.the_row.coded) };

    ghost use Rattle.c_check_scopes.specs.Index.{onto, IsIndex};

    ghost view = { λ s. onto s.entries.items [] };

    ghost invariant = { λ s. IsIndex s.newest s.entries.items };
}

impl<'t> Scopes<'t> {
    /// No names.
    pub fn new(alloc: Global) -> Scopes<'t>
        ensures { result ≡ [] }
    {
        Scopes {
            newest: HashMap::new(alloc),
            entries: Vec::new(alloc),
        }
    }

    /// How many names are declared.
    pub fn len(&self) -> usize
        ensures { result ≡ length self.now }
    {
        self.entries.len()
    }

    // The number of the newest entry of the name.
    fn newest_of(&self, name: &[u8]) -> Option<usize>
        ensures { result ≡ Rattle.c_check_scopes.specs.Bound.place self.now name.now }
    {
        match self.newest.get(name) {
            Some(place) => *place,
            None => None,
        }
    }

    /// The newest declaration of the name (C99 6.2.1 paragraph 4).
    pub fn find(&self, name: &[u8]) -> Option<&Entry<'t>>
        ensures { found result ≡ lookup (bindings_of self.now) name.now }
    {
        match self.newest_of(name) {
            Some(place) => self.entries.get(place),
            None => None,
        }
    }

    /// Declares a name inside so many blocks.
    pub fn declare(
        &mut self,
        name: &'t [u8],
        depth: Count,
        means: Meaning,
    ) -> Result<(), OutOfMemory>
        ensures { OnOk result (self.new ≡ bound name.now depth means ∷ self.old) }
    {
        let hidden = self.newest_of(name);
        let place = self.entries.len();
        self.entries.push(Entry {
            name,
            depth,
            means,
            hidden,
        })?;
        match self.newest.insert(name, Some(place)) {
            Ok(_) => Ok(()),
            Err(_) => {
                self.entries.pop();
                Err(OutOfMemory)
            }
        }
    }

    // Takes the newest back.
    fn undo(&mut self)
        ensures { (b : Bound) (bs : List Bound) → self.old ≡ b ∷ bs → self.new ≡ bs }
    {
        if let Some(entry) = self.entries.pop() {
            if let Some(place) = self.newest.get_mut(&entry.name) {
                *place = entry.hidden;
            }
        }
    }

    /// Leaves a block, back to the so many names that were declared before it.
    pub fn leave(&mut self, count: usize)
        ensures { (inner outer : List Bound) → self.old ≡ inner ++ outer → length outer ≡ count → self.new ≡ outer }
    {
        while self.len() > count {
            self.undo();
        }
    }
}
