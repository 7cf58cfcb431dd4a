ghost use Rattle.std.specs.Prelude.{◌≡◌, [], ◌∷◌, ◌++◌, IfErr, IfOk, OnOk};
ghost use Rattle.certify_making.specs.Adding.{AddsOne, Added, CannotAdd, CannotAddEach, IsKept, Remembers};

use crate::CertifyError;
use certify_facts::{Fact, FactLine};
use dm_base::OutOfMemory;
use indexmap::IndexSet;
use std::alloc::Global;

// The greatest number of facts.
pub const MOST: usize = 1_000_000;

// Adds the fact to those that are known, and tells whether it is a new one.
fn remember(known: &mut IndexSet<Fact>, fact: Fact) -> Result<bool, OutOfMemory>
    ensures { IfOk result (λ fresh. Remembers fresh fact known.old.keys known.new.keys) }
{
    let fresh = known.insert(fact)?;
    Ok(fresh)
}

// Adds the line at the end.
fn append(lines: &mut Vec<FactLine>, line: FactLine) -> Result<(), OutOfMemory>
    ensures { OnOk result (lines.new.items ≡ lines.old.items ++ line ∷ []) }
{
    lines.push(line)?;
    Ok(())
}

// The lines that were made, and their facts as a set.
#[derive(Drop)]
pub struct Facts {
    known: IndexSet<Fact>,
    pub lines: Vec<FactLine>,
}

impl Facts {
    // There is no line yet.
    pub fn new(alloc: Global) -> Facts
        ensures kept { IsKept result }
        ensures empty { result.lines.items ≡ [] }
    {
        Facts {
            known: IndexSet::new(alloc),
            lines: Vec::new(alloc),
        }
    }

    // Adds the line, unless its fact is known.
    pub fn add(&mut self, line: FactLine) -> Result<(), CertifyError>
        requires { IsKept self.old }
        ensures kept { OnOk result (IsKept self.new) }
        ensures adds { OnOk result (AddsOne line self.old.lines.items self.new.lines.items) }
        ensures large { IfErr result (CannotAdd line self.old.lines.items) }
    {
        let fresh = remember(&mut self.known, line.fact)?;
        if !fresh {
            return Ok(());
        }
        if self.lines.len() >= MOST {
            return Err(CertifyError::TooLarge);
        }
        append(&mut self.lines, line)?;
        Ok(())
    }

    // Adds the lines one after another, each unless its fact is known.
    pub fn add_each(&mut self, found: &[FactLine]) -> Result<(), CertifyError>
        requires { IsKept self.old }
        ensures kept { OnOk result (IsKept self.new) }
        ensures adds { OnOk result (Added self.old.lines.items found.now self.new.lines.items) }
        ensures large { IfErr result (CannotAddEach found.now self.old.lines.items) }
    {
        for line in found {
            match self.add(*line) {
                Ok(()) => {}
                Err(error) => return Err(error),
            }
        }
        Ok(())
    }
}
