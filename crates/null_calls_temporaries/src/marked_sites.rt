ghost use Rattle.std.specs.Prelude.{◌≡◌, ◌∷◌, ◌++◌, ◌<◌, ◌^◌, [], length, OnOk};

use crate::callees::{callee_in, callees_of};
use crate::table::{Called, called_at};
use c_tree::Program;
use dm_base::OutOfMemory;
use dm_counts::Count;
use flow_graph::{Calls, said_in};
use std::alloc::Global;

/// A call that stands between null calls.
#[derive(Clone, Copy)]
pub struct Marked<'p> {
    /// The number of its site.
    pub site: u32,
    /// What is called.
    pub called: Called<'p>,
}

/// The calls of a program that stand between null calls, by their sites.
#[derive(Drop)]
pub struct MarkedSites<'p> {
    calls: Vec<Option<Called<'p>>>,
    ghost few: { length calls.items < 2 ^ 32 },
}

// Adds the call at the next site.
fn add<'p>(into: &mut Vec<Option<Called<'p>>>, one: Option<Called<'p>>) -> Result<(), OutOfMemory>
    ensures { OnOk result (into.new.items ≡ into.old.items ++ one.entry ∷ []) }
{
    into.push(one)?;
    Ok(())
}

impl<'p> MarkedSites<'p> {
    ghost use Rattle.std.specs.Prelude.{ℕ, IfOk};
    ghost use Rattle.c_tree.specs.View.{program_of};
    ghost use Rattle.flow_graph.specs.Calls.{AreCallsOf};
    ghost use Rattle.null_calls_laws.specs.MarkedCalls as marks;
    ghost use Rattle.null_calls_temporaries.specs.Sited.{called_where, sited, IsCallAt};

    /// The marked calls of the program, with the types of what they call. Takes time that is linear in the program.
    pub fn of(
        alloc: Global,
        program: &'p Program,
        calls: &Calls,
    ) -> Result<MarkedSites<'p>, OutOfMemory>
        requires { AreCallsOf (program_of program.now) calls.now }
        ensures { IfOk result (λ table. (s : ℕ) → sited table s ≡ marks.sites_of (program_of program.now) s) }
    {
        let said = said_in(alloc, program)?;
        let count = program.sites();
        let callees = callees_of(alloc, &said, count)?;
        let mut all = Vec::new(alloc);
        for site in 0..count {
            let callee = callee_in(&callees, site);
            let one = called_at(program, calls, site, callee);
            add(&mut all, one)?;
        }
        Ok(MarkedSites { calls: all })
    }

    // What is called at the site.
    fn called(&self, site: u32) -> Option<Called<'p>>
        ensures { called_where result ≡ sited self.now site }
    {
        match self.calls.get(site as usize) {
            Some(one) => *one,
            None => None,
        }
    }

    /// The call before which so many stand in the unit. None where there is no such site, or where the call there isn't marked.
    pub fn after(&self, before: &Count) -> Option<Marked<'p>>
        ensures { IsCallAt result before.now (sited self.now before.now) }
    {
        let Some(site) = before.number() else {
            return None;
        };
        match self.called(site) {
            Some(called) => Some(Marked { site, called }),
            None => None,
        }
    }
}
