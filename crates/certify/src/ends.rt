ghost use Rattle.std.specs.Prelude.{◌≡◌, ◌⊎◌, ◌↔◌, Contains, IfOk, OnOk};
ghost use Rattle.certify_facts.specs.declared.fact.Fact.{Fact as Fact'};
ghost use Rattle.dm_base.specs.Adding.{Has};
ghost use Rattle.certify.specs.declared.ends.Activation.{Activation as Activation'};
ghost use Rattle.certify.specs.Closing.{EndsActivation};
ghost use Rattle.certify.specs.Ends.{HasEnd};

use certify_facts::{Fact, FactLine};
use certify_steps::ends_activation;
use dm_base::OutOfMemory;
use flow_model::Model;
use indexmap::IndexMap;
use std::alloc::Global;

// An activation: after how many events it was entered, and its function.
#[derive(Clone, Copy, PartialEq, Eq, Hash)]
pub struct Activation {
    pub entered: u32,
    pub function: u32,
}

// For each activation the facts at its exit.
#[derive(Drop)]
pub struct Ends {
    alloc: Global,
    lists: IndexMap<Activation, Vec<Fact>>,
}

impl Ends {
    // No fact is noted yet.
    fn new(alloc: Global) -> Ends
        ensures { (a : Activation') (x : Fact') → HasEnd result a x → ⊥ }
    {
        Ends {
            alloc,
            lists: IndexMap::new(alloc),
        }
    }

    // Takes the facts of the activation out.
    fn take(&mut self, activation: Activation) -> Vec<Fact>
        ensures facts { (x : Fact') → Contains result.items x ↔ HasEnd self.old activation x }
        ensures others { (a : Activation') (x : Fact') → (a ≡ activation → ⊥) → HasEnd self.new a x ↔ HasEnd self.old a x }
    {
        match self.lists.swap_remove(&activation) {
            Some(facts) => facts,
            None => Vec::new(self.alloc),
        }
    }

    // Puts the facts of the activation in.
    fn put(&mut self, activation: Activation, facts: Vec<Fact>) -> Result<(), OutOfMemory>
        ensures facts { OnOk result ((x : Fact') → HasEnd self.new activation x ↔ Contains facts.items x) }
        ensures others { OnOk result ((a : Activation') (x : Fact') → (a ≡ activation → ⊥) → HasEnd self.new a x ↔ HasEnd self.old a x) }
    {
        self.lists.insert(activation, facts)?;
        Ok(())
    }

    // Notes a fact of the activation.
    fn add(&mut self, activation: Activation, fact: Fact) -> Result<(), OutOfMemory>
        ensures { OnOk result ((a : Activation') (x : Fact') → HasEnd self.new a x ↔ (HasEnd self.old a x ⊎ ((a ≡ activation) × (x ≡ fact)))) }
    {
        let mut facts = self.take(activation);
        facts.push(fact)?;
        self.put(activation, facts)?;
        Ok(())
    }

    // The facts of the activation.
    pub fn of(&self, activation: Activation) -> &[Fact]
        ensures { (x : Fact') → Contains result.now x ↔ HasEnd self.now activation x }
    {
        match self.lists.get(&activation) {
            Some(facts) => facts,
            None => &[],
        }
    }
}

// Notes the fact where it is at the exit of its activation.
fn note_end(ends: &mut Ends, model: &Model, fact: Fact) -> Result<(), OutOfMemory>
    ensures { OnOk result ((a : Activation') (x : Fact') → HasEnd ends.new a x ↔ (HasEnd ends.old a x ⊎ ((x ≡ fact) × EndsActivation model.now a.entered a.function fact))) }
{
    if let Fact::At { i, f, .. } = fact {
        if ends_activation(model, fact) {
            let activation = Activation {
                entered: i,
                function: f,
            };
            ends.add(activation, fact)?;
        }
    }
    Ok(())
}

// The facts at the exits of their activations.
pub fn ends_of(alloc: Global, model: &Model, lines: &[FactLine]) -> Result<Ends, OutOfMemory>
    ensures { IfOk result (λ ends. (a : Activation') (x : Fact') → HasEnd ends a x ↔ Has (λ l. (x ≡ l.fact) × EndsActivation model.now a.entered a.function l.fact) lines.now) }
{
    let mut ends = Ends::new(alloc);
    for line in lines {
        note_end(&mut ends, model, line.fact)?;
    }
    Ok(ends)
}
