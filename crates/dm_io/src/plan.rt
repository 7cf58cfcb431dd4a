// Which calls of a store or sink in memory fail.
ghost use Rattle.std.specs.Prelude.{◌≡◌, ◌≤◌};
ghost use Rattle.dm_io.specs.Faults.{Rose};
ghost use Rattle.dm_io.specs.Plan.{first_plan, is_failing, share, after_call, after_fault};

use std::marker::Model;

/// The calls so far, and the numbers of those that fail.
#[derive(Drop)]
pub struct Plan {
    failing: Vec<u64>,
    most: usize,
    next: u64,
    faults: u64,
}

impl Model for Plan {
    ghost use Rattle.dm_io.specs.Plan.{CallPlan};

    ghost Value = { CallPlan };

    ghost view = { λ p. record {
      failing = p.failing.items;
      most = p.most;
      next = p.next;
      faults = p.faults;
    } };
}

impl Plan {
    /// The plan of a store or sink that has had no call.
    pub fn new(failing: Vec<u64>, most: usize) -> Self
        ensures { result ≡ first_plan failing.items most }
    {
        Plan {
            failing,
            most,
            next: 0,
            faults: 0,
        }
    }

    /// Whether the next call is to fail.
    pub fn is_failing(&self) -> bool
        ensures { result ≡ is_failing self.now }
    {
        self.failing.contains(&self.next)
    }

    /// Counts a call that is no fault.
    pub fn count_call(&mut self)
        ensures { self.new ≡ after_call self.old }
    {
        self.next = self.next.saturating_add(1);
    }

    /// Counts a call that is a fault.
    pub fn count_fault(&mut self)
        ensures state { self.new ≡ after_fault self.old }
        ensures never_falls { self.old.faults ≤ self.new.faults }
        ensures rose { Rose self.old.faults self.new.faults }
    {
        self.next = self.next.saturating_add(1);
        self.faults = self.faults.saturating_add(1);
    }

    /// How many of so many bytes one call gives or takes: at most `most`, or at most 1 where that
    /// is 0.
    pub fn share(&self, count: usize) -> usize
        ensures { result ≡ share self.now count }
    {
        self.most.max(1).min(count)
    }
}
