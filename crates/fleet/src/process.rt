use dm_base::Outcome;
use ref_machine::Machine;
use sys_table::SysResult;

// How a process goes on.
#[derive(Drop)]
pub enum Stage {
    // It makes its next event.
    Open,
    // Its last event was rejected.
    Rejected,
    // Its last event was one call too deep.
    Bound,
    // Its run has ended.
    Ended(Outcome),
    // Memory was refused to it.
    Failed,
}

// A process of a fleet: its number, its group, its machine, its recorded results, and how many of them were given to the machine.
#[derive(Drop)]
pub struct Process<'p> {
    pub pid: u32,
    pub group: u32,
    pub machine: Machine<'p>,
    pub results: &'p [SysResult],
    pub taken: usize,
    pub stage: Stage,
}
