ghost use Rattle.std.specs.Prelude.{◌≡◌, ◌↔◌, Contains, IsTrue, IfOk};
ghost use Rattle.certify_facts.specs.declared.fact.Fact.{Fact as Fact'};
ghost use Rattle.certify_facts.specs.declared.fact.FactLine.{FactLine as Line};
ghost use Rattle.dm_base.specs.Adding.{Has};
ghost use Rattle.certify.specs.Closing.{AreSame};

use certify_facts::{Fact, FactLine};
use dm_base::OutOfMemory;
use indexmap::IndexSet;
use std::alloc::Global;

// The facts of the lines, as a set.
pub fn known_facts(alloc: Global, lines: &[FactLine]) -> Result<IndexSet<Fact>, OutOfMemory>
    ensures { IfOk result (λ known. (x : Fact') → Contains known.keys x ↔ Has (λ l. x ≡ l.fact) lines.now) }
{
    let mut known = IndexSet::new(alloc);
    for line in lines {
        known.insert(line.fact)?;
    }
    Ok(known)
}

// Whether the fact is known.
pub fn has_fact(known: &IndexSet<Fact>, fact: Fact) -> bool
    ensures { IsTrue result ↔ Contains known.now.keys fact }
{
    known.contains(&fact)
}

// Whether the facts of all lines are known.
pub fn are_known(known: &IndexSet<Fact>, lines: &[FactLine]) -> bool
    ensures { IsTrue result ↔ ((l : Line) → Contains lines.now l → Contains known.now.keys l.fact) }
{
    for line in lines {
        if !has_fact(known, line.fact) {
            return false;
        }
    }
    true
}
