ghost use Rattle.std.specs.Prelude.{◌≡◌, IfOk};
ghost use Rattle.c_check_values.specs.Agreement.{AgreesWith};
ghost use Rattle.c_check.specs.OutputView.{output_of};
ghost use Rattle.c_rules.specs.Checked.{fine, met, on};
ghost use Rattle.c_rules.specs.Items.{after_items, items};
ghost use Rattle.c_rules.specs.Scopes.{nothing_before};
ghost use Rattle.c_rules.specs.Units.{env_before, env_behind, few_names};
ghost use Rattle.c_check_values.specs.View.{before_of, env_of};
ghost use Rattle.c_syntax.specs.UnitView.{items_of};

use crate::{Output, environment_before, items};
use c_check_values::{Before, CheckError, Environment, nothing_before};
use c_syntax::Item;
use dm_base::Mode;
use std::alloc::Global;

// What is found of a unit: what is known and what stands before behind its items, and what they define.
#[derive(Drop)]
pub struct Found<'t> {
    pub env: Environment<'t>,
    pub before: Before<'t>,
    pub output: Output,
}

// What is found of a unit with these items.
pub fn found_in<'t>(alloc: Global, mode: Mode, listed: &'t [Item]) -> Result<Found<'t>, CheckError>
    ensures judged { AgreesWith (λ f. output_of f.output) result (on (few_names (items_of listed.now)) (λ _. items (env_before mode (items_of listed.now)) nothing_before (items_of listed.now))) }
    ensures few { IfOk result (λ _. few_names (items_of listed.now) ≡ fine met) }
    ensures behind { IfOk result (λ f. env_of f.env ≡ env_behind mode (items_of listed.now)) }
    ensures counted { IfOk result (λ f. before_of f.before ≡ after_items (env_before mode (items_of listed.now)) nothing_before (items_of listed.now)) }
{
    let mut env = environment_before(alloc, mode, listed)?;
    let mut before = nothing_before(alloc);
    let output = items(alloc, &mut env, &mut before, listed)?;
    Ok(Found {
        env,
        before,
        output,
    })
}
