ghost use Rattle.std.specs.Prelude.{◌≡◌, ◌+◌, ◌≤◌, ◌<◌, [], ◌∷◌, length, All, OnOk};
ghost use Rattle.c_check_scopes.specs.Numbers.{seen};
ghost use Rattle.c_check_scopes.specs.View.{before_of};
ghost use Rattle.c_rules.specs.Counts.{past};
ghost use Rattle.c_rules.specs.Limits.{most_cells};
ghost use Rattle.c_rules.specs.Scopes.{nothing_before};

use dm_counts::{Count, OutOfMemory};
use std::alloc::Global;
use std::marker::Model;

/// What stands before a part of a unit, seen as in the rules: so many calls that are evaluated, the strings that the typed program holds, and
/// so many cells of static objects and of such strings.
#[derive(Drop)]
pub struct Before<'t> {
    sites: Count,
    strings: Vec<&'t [u8]>,
    cells: Count,
}

impl<'t> Model for Before<'t> {
    ghost use Rattle.c_rules.specs.Scopes as rules;

    ghost Value = { rules.Before };

    ghost use Rattle.c_check_scopes.specs.Numbers.{seen};
    ghost use Rattle.c_check_scopes.specs.Strings.{AreHeld};

    ghost view = { λ b. record { sites = b.sites; strings = seen b.strings.items; cells = b.cells } };

    ghost invariant = { λ b. AreHeld (seen b.strings.items) b.cells };
}

/// Nothing stands before.
pub fn nothing_before<'t>(alloc: Global) -> Before<'t>
    ensures { before_of result ≡ nothing_before }
{
    Before {
        sites: Count::zero(alloc),
        strings: Vec::new(alloc),
        cells: Count::zero(alloc),
    }
}

impl<'t> Before<'t> {
    /// How many calls there are.
    pub fn sites(&self) -> &Count
        ensures { result.now ≡ (before_of self.now).sites }
    {
        &self.sites
    }

    /// How many cells there are.
    pub fn cells(&self) -> &Count
        ensures { result.now ≡ (before_of self.now).cells }
    {
        &self.cells
    }

    /// The strings, each of which is within the limit on a string.
    pub fn strings(&self) -> &[&'t [u8]]
        ensures are { seen result.now ≡ (before_of self.now).strings }
        ensures short { All (λ w. length w < most_cells) (seen result.now) }
    {
        &self.strings
    }

    /// How many strings there are, each of which has a cell at least.
    pub fn string_count(&self) -> usize
        ensures is { result ≡ length (before_of self.now).strings }
        ensures few { result ≤ (before_of self.now).cells }
    {
        self.strings.len()
    }

    /// One more call stands before.
    pub fn count_call(&mut self) -> Result<(), OutOfMemory>
        ensures { OnOk result (before_of self.new ≡ past (before_of self.old) 1 []) }
    {
        self.sites.raise()
    }

    /// One more string stands before, which is within the limit on a string.
    pub fn count_string(&mut self, bytes: &'t [u8]) -> Result<(), OutOfMemory>
        requires { length bytes.now < most_cells }
        ensures { OnOk result (before_of self.new ≡ past (before_of self.old) 0 (bytes.now ∷ [])) }
    {
        let mut cells = self.cells.copy()?;
        // Its zero is a cell, too.
        cells.add(bytes.len() + 1)?;
        self.strings.push(bytes)?;
        self.cells = cells;
        Ok(())
    }

    /// So many more cells of static objects stand before.
    pub fn count_cells(&mut self, more: u32) -> Result<(), OutOfMemory>
        ensures { OnOk result (before_of self.new ≡ record (before_of self.old) { cells = (before_of self.old).cells + more }) }
    {
        let mut cells = self.cells.copy()?;
        cells.add(more as usize)?;
        self.cells = cells;
        Ok(())
    }
}
