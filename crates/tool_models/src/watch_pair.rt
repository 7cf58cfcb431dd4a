ghost use Rattle.std.specs.Prelude.{◌++◌};

use crate::findings::Findings;
use crate::watches::Watches;
use dm_base::{Event, OutOfMemory};
use flow_model::Model;
use std::alloc::Global;
use trace_file::TracesVersion;

/// Two kinds of watches that are given the same records; of each process the lines of the first stand
/// before those of the second.
#[derive(Drop)]
pub struct WatchPair<A: Watches, B: Watches> {
    first: A,
    second: B,
}

impl<A: Watches, B: Watches> Watches for WatchPair<A, B> {
    ghost watched = { λ p g k version records. A.watched p.first g k version records × B.watched p.second g k version records };

    ghost monitors = { A.monitors ++ B.monitors };

    fn open(
        alloc: Global,
        model: &Model,
        bound: u32,
        version: TracesVersion,
    ) -> Result<Self, OutOfMemory> {
        Ok(WatchPair {
            first: A::open(alloc, model, bound, version)?,
            second: B::open(alloc, model, bound, version)?,
        })
    }

    fn take(&mut self, pid: u32, event: &Event) -> Result<(), OutOfMemory> {
        self.first.take(pid, event)?;
        self.second.take(pid, event)?;
        Ok(())
    }

    fn pids(&self, alloc: Global) -> Result<Vec<u32>, OutOfMemory> {
        self.first.pids(alloc)
    }

    fn tell(&self, alloc: Global, pid: u32, findings: &mut Findings) -> Result<(), OutOfMemory> {
        self.first.tell(alloc, pid, findings)?;
        self.second.tell(alloc, pid, findings)?;
        Ok(())
    }
}
