ghost use Rattle.std.specs.Prelude.{◌≡◌, ◌↔◌, ℕ, OnOk, Some};
ghost use Rattle.certify_facts.specs.declared.fact.Fact.{Fact as Fact'};
ghost use Rattle.certify_facts.specs.Confirms.{facts_of};
ghost use Rattle.certify_facts.specs.Reasons.{IsNamed, IsReturnedAlong};
ghost use Rattle.certify_facts.specs.declared.fact.Reason.TheVariants.{Return as Return'};
ghost use Rattle.dm_base.specs.Adding.{Has};
ghost use Rattle.certify_steps.specs.Adding.{Adds};
ghost use Rattle.certify_making.specs.Pairs.{IsPair, IsPairWith, IsPaired, IsReturnLine};

use crate::notes::{Notes, key_of, other_side};
use certify_facts::{Fact, FactLine, Reason};
use certify_steps::returned_along;
use dm_base::OutOfMemory;
use flow_model::Model;

// The fact with this number.
fn named(lines: &[FactLine], number: u32) -> Option<Fact>
    ensures { (x : Fact') → (result ≡ Some x) ↔ IsNamed (facts_of lines.now) number x }
{
    if number == 0 {
        return None;
    }
    match lines.get(number as usize - 1) {
        Some(line) => Some(line.fact),
        None => None,
    }
}

// Adds the return from the fact x along the link z, which have these numbers, where there is one.
fn return_along(
    found: &mut Vec<FactLine>,
    model: &Model,
    x: Fact,
    number: u32,
    z: Fact,
    link: u32,
) -> Result<(), OutOfMemory>
    ensures { OnOk result (Adds found.old.items found.new.items (IsReturnLine model.now x number z link)) }
{
    if let Some(fact) = returned_along(model, x, z) {
        found.push(FactLine {
            fact,
            reason: Reason::Return(number, link),
        })?;
    }
    Ok(())
}

// Adds the return by the two facts, which have these numbers, where there is one.
fn pair_with(
    found: &mut Vec<FactLine>,
    model: &Model,
    fact: Fact,
    number: u32,
    other: Fact,
    its: u32,
) -> Result<(), OutOfMemory>
    ensures { OnOk result (Adds found.old.items found.new.items (IsPair model.now fact number other its)) }
{
    return_along(found, model, fact, number, other, its)?;
    return_along(found, model, other, its, fact, number)?;
    Ok(())
}

// Adds the return by the fact and that with the other number, where there is one.
fn pair_one(
    found: &mut Vec<FactLine>,
    lines: &[FactLine],
    model: &Model,
    fact: Fact,
    number: u32,
    other: u32,
) -> Result<(), OutOfMemory>
    ensures { OnOk result (Adds found.old.items found.new.items (IsPairWith model.now lines.now fact number other)) }
{
    if let Some(z) = named(lines, other) {
        pair_with(found, model, fact, number, z, other)?;
    }
    Ok(())
}

fn pair_each(
    found: &mut Vec<FactLine>,
    lines: &[FactLine],
    model: &Model,
    fact: Fact,
    number: u32,
    others: &[u32],
) -> Result<(), OutOfMemory>
    ensures { OnOk result (Adds found.old.items found.new.items (λ l. Has (λ n. IsPairWith model.now lines.now fact number n l) others.now)) }
{
    for other in others {
        pair_one(found, lines, model, fact, number, *other)?;
    }
    Ok(())
}

// Adds the returns by the fact, which has the number, and those that are noted.
pub fn follow_pairs(
    found: &mut Vec<FactLine>,
    lines: &[FactLine],
    notes: &Notes,
    model: &Model,
    fact: Fact,
    number: u32,
) -> Result<(), OutOfMemory>
    ensures { OnOk result (Adds found.old.items found.new.items (IsPaired model.now lines.now notes.now fact number)) }
{
    if let Some(key) = key_of(model, fact) {
        pair_each(found, lines, model, fact, number, notes.of(other_side(key)))?;
    }
    Ok(())
}
