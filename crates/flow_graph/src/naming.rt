ghost use Rattle.std.specs.Prelude.{◌≡◌, ◌↔◌, ℕ, Contains, OnOk, IfOk};
ghost use Rattle.c_meaning.specs.Mentions.{Named};
ghost use Rattle.dm_base.specs.Adding.{Gains};
ghost use Rattle.flow_graph.specs.Saying.{mention_of, said};

use crate::mention::Mention;
use dm_base::OutOfMemory;
use std::alloc::Global;
use std::collections::HashSet;

// Adds the number where it isn't there.
fn note(named: &mut HashSet<u32>, f: u32) -> Result<(), OutOfMemory>
    ensures { OnOk result (Gains (Contains named.old.keys) (Contains named.new.keys) (λ g. g ≡ f)) }
{
    named.insert(f)?;
    Ok(())
}

// Adds the function that the mention names.
fn note_name(named: &mut HashSet<u32>, m: &Mention) -> Result<(), OutOfMemory>
    ensures { OnOk result (Gains (Contains named.old.keys) (Contains named.new.keys) (λ g. mention_of m.now ≡ Named g)) }
{
    match m {
        Mention::Named(f) => note(named, *f),
        Mention::Direct { .. } => Ok(()),
        Mention::Through { .. } => Ok(()),
    }
}

// The functions whose names stand there, other than to call them.
pub fn named_in(alloc: Global, ms: &[Mention]) -> Result<HashSet<u32>, OutOfMemory>
    ensures { IfOk result (λ named. (f : ℕ) → Contains named.keys f ↔ Contains (said ms.now) (Named f)) }
{
    let mut named = HashSet::new(alloc);
    for m in ms {
        note_name(&mut named, m)?;
    }
    Ok(named)
}
