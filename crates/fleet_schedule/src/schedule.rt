ghost use Rattle.std.specs.Prelude.{◌≡◌};

use crate::Line;
use std::marker::Model;

/// A schedule, seen as its two lists: its processes, and the numbers of those that are advanced, one
/// after another; a process may be advanced any number of times.
#[derive(Drop)]
pub struct Schedule {
    lines: Vec<Line>,
    advances: Vec<u32>,
}

impl Model for Schedule {
    ghost use Rattle.fleet_schedule.specs.Plan.{Plan};

    ghost Value = { Plan };

    ghost view = { λ s. record { processes = s.lines.items; order = s.advances.items } };
}

impl Schedule {
    // The schedule with these lists.
    pub(crate) fn of(lines: Vec<Line>, advances: Vec<u32>) -> Schedule
        ensures { result ≡ record { processes = lines.items; order = advances.items } }
    {
        Schedule { lines, advances }
    }

    /// The processes, in order.
    pub fn processes(&self) -> &[Line]
        ensures { result.now ≡ self.now.processes }
    {
        &self.lines
    }

    /// The numbers of the processes that are advanced, in order.
    pub fn order(&self) -> &[u32]
        ensures { result.now ≡ self.now.order }
    {
        &self.advances
    }
}
