use crate::places::{place_of, start};
use crate::process::Process;
use crate::stepping::advance_at;
use crate::telling::standing_at;
use crate::{Advance, Standing};
use c_meaning::values_have_kinds;
use c_tree::Program;
use dm_base::OutOfMemory;
use flow_model::{Model, Monitor};
use std::alloc::Global;
use sys_table::SysResult;
use trace_file::TracesVersion;
use watch::Watch;

/// Processes that run side by side, in groups. Each has a program that runs with recorded results, and is advanced one event at a time,
/// in any order; the watch of its group judges its events. A fleet stands for its groups, and for its processes with how often each was
/// advanced: whatever the order, each process does what it does alone until its model refuses it.
pub struct Fleet<'p, M: Monitor> {
    alloc: Global,
    watches: Vec<Watch<M>>,
    processes: Vec<Process<'p>>,
    taken: u64,
}

impl<'p, M: Monitor> Drop for Fleet<'p, M> {
    fn drop(self) {
        let Self {
            alloc: _,
            watches: _watches,
            processes: _processes,
            taken: _,
        } = self;
    }
}

impl<'p, M: Monitor> Fleet<'p, M> {
    ghost use Rattle.std.specs.Prelude.{◌≡◌, ◌≢◌, ◌≤◌, ◌<◌, ◌+◌, ◌-◌, ◌^◌, ◌↔◌, ◌++◌, ◌∷◌, [], ℕ, List, Some, true, Contains, length, slice_get, IsTrue, IfOk, OnOk, OnErr, IsErr};
    ghost use Rattle.c_tree.specs.View.{program_of};
    ghost use Rattle.flow_model.specs.Graph.{Graph};
    ghost use Rattle.trace_file.specs.declared.record.Record.{Record};
    ghost use Rattle.trace_file.specs.declared.version.TracesVersion.{TracesVersion as TracesVersion'};
    ghost use Rattle.trace_file.specs.declared.version.TracesVersion.TheVariants.{One as VersionOne};
    ghost use Rattle.watch.specs.declared.watch.Watch.{Watch as Watch'};
    ghost use Rattle.watch.specs.Watching.{StandsFor as WatchStandsFor};
    ghost use Rattle.fleet.specs.declared.standing.Standing.{Standing as Standing'};
    ghost use Rattle.fleet.specs.Alone.{IsAlone, IsAnswer, IsTellable};
    ghost use Rattle.fleet.specs.Fleets.{StandsFor, added, advanced, failed, pids, steps_of, watch_of};
    ghost use Rattle.fleet.specs.Members.{Group, Member, new_member, run_of};

    /// A fleet without groups and processes. The error is that memory was refused; today none is taken.
    pub fn new(alloc: Global) -> Result<Fleet<'p, M>, OutOfMemory>
        ensures stands { IfOk result (λ fleet. StandsFor M.Monitor fleet [] []) }
        ensures counted { IfOk result (λ fleet. steps_of fleet ≡ 0) }
    {
        Ok(Fleet {
            alloc,
            watches: Vec::new(alloc),
            processes: Vec::new(alloc),
            taken: 0,
        })
    }

    /// How many groups there are.
    pub fn groups(&self) -> u32
        requires { (groups : List Group) × (members : List Member) × StandsFor M.Monitor self.now groups members }
        ensures { (groups : List Group) (members : List Member) → StandsFor M.Monitor self.now groups members → result ≡ length groups }
    {
        self.watches.len() as u32
    }

    /// How many processes there are.
    pub fn processes(&self) -> u32
        requires { (groups : List Group) × (members : List Member) × StandsFor M.Monitor self.now groups members }
        ensures { (groups : List Group) (members : List Member) → StandsFor M.Monitor self.now groups members → result ≡ length members }
    {
        self.processes.len() as u32
    }

    /// Whether a process has this number.
    pub fn has(&self, pid: u32) -> bool
        ensures { (groups : List Group) (members : List Member) → StandsFor M.Monitor self.now groups members → IsTrue result ↔ Contains (pids members) pid }
    {
        match place_of(&self.processes, pid) {
            Some(_) => true,
            None => false,
        }
    }

    /// How many steps were taken, those left out to which memory was refused.
    pub fn steps(&self) -> u64
        ensures { result ≡ steps_of self.now }
    {
        self.taken
    }

    /// The watch of a group.
    pub fn watch(&self, group: u32) -> &Watch<M>
        requires { (groups : List Group) × (members : List Member) × StandsFor M.Monitor self.now groups members × (group < length groups) }
        ensures { watch_of self.now group ≡ Some result.now }
    {
        &self.watches[group as usize]
    }

    /// Adds a group whose processes are judged by this model, and gives its number; groups are numbered from 0 upwards. The bound is the
    /// greatest number of calls that may be open at once in the Dyck model, 1 to 65,535; there are fewer than 64 groups. The group's
    /// watch stands for no records, and the other watches stay. The error is that memory was refused, and then nothing changes.
    pub fn group(&mut self, model: Model, bound: u32) -> Result<u32, OutOfMemory>
        requires bound { (1 ≤ bound) × (bound < 2 ^ 16) }
        requires room { (groups : List Group) × (members : List Member) × StandsFor M.Monitor self.old groups members × (length groups < 64) }
        ensures number { IfOk result (λ number. (groups : List Group) (members : List Member) → StandsFor M.Monitor self.old groups members → number ≡ length groups) }
        ensures stands { OnOk result ((groups : List Group) (members : List Member) → StandsFor M.Monitor self.old groups members → StandsFor M.Monitor self.new (groups ++ record { model = model; bound = bound } ∷ []) members) }
        ensures empty { IfOk result (λ number. (w : Watch' M M.Pool) → watch_of self.new number ≡ Some w → WatchStandsFor M.Monitor model bound VersionOne w []) }
        ensures others { (i : ℕ) (w : Watch' M M.Pool) → watch_of self.old i ≡ Some w → watch_of self.new i ≡ Some w }
        ensures counted { steps_of self.new ≡ steps_of self.old }
        ensures err { OnErr result ((groups : List Group) (members : List Member) → StandsFor M.Monitor self.old groups members → StandsFor M.Monitor self.new groups members) }
    {
        let _nodes = model.nodes();
        let number = self.watches.len() as u32;
        let watch = Watch::open(self.alloc, model, bound, TracesVersion::One)?;
        self.watches.push(watch)?;
        Ok(number)
    }

    /// Adds a process with this number, in a group that is there: its program, with the recorded results and turns of its run. There are
    /// fewer than 64 processes, and none has this number. No watch changes. The error is that memory was refused, and then nothing
    /// changes.
    pub fn process(
        &mut self,
        pid: u32,
        group: u32,
        program: &'p Program,
        results: &'p [SysResult],
        turns: u32,
    ) -> Result<(), OutOfMemory>
        requires { (groups : List Group) × (members : List Member) × StandsFor M.Monitor self.old groups members × (group < length groups) × (length members < 64) × (Contains (pids members) pid → ⊥) }
        ensures stands { OnOk result ((groups : List Group) (members : List Member) → StandsFor M.Monitor self.old groups members → StandsFor M.Monitor self.new groups (members ++ new_member pid group (program_of program.now) results.now turns ∷ [])) }
        ensures watches { (i : ℕ) → watch_of self.new i ≡ watch_of self.old i }
        ensures counted { steps_of self.new ≡ steps_of self.old }
        ensures err { OnErr result ((groups : List Group) (members : List Member) → StandsFor M.Monitor self.old groups members → StandsFor M.Monitor self.new groups members) }
    {
        values_have_kinds();
        let _sites = program.sites();
        let process = start(self.alloc, pid, group, program, results, turns)?;
        self.processes.push(process)?;
        Ok(())
    }

    /// Advances the process with this number, to its next event or its end, and answers as what it does alone has it: once it was
    /// refused, or has ended, it answers the same again. The watch of its group takes a new event, also the one that is refused; the
    /// other watches stay, and so do the other processes. Fewer than 2^64 − 1 steps were taken.
    ///
    /// The error is that memory was refused: then this process answers so from then on, no watch has taken an event, and the others stay
    /// as they are. So it answers, too, where `ref_machine::Machine::advance` does.
    pub fn step(&mut self, pid: u32) -> Result<Advance, OutOfMemory>
        requires there { (groups : List Group) × (members : List Member) × StandsFor M.Monitor self.old groups members × Contains (pids members) pid }
        requires few { steps_of self.old < 2 ^ 64 - 1 }
        ensures progress { OnOk result ((groups : List Group) (members : List Member) → StandsFor M.Monitor self.old groups members → StandsFor M.Monitor self.new groups (advanced pid members)) }
        ensures exact { IfOk result (λ answer. (groups : List Group) (members : List Member) (m : Member) (g : Group) → StandsFor M.Monitor self.old groups members → Contains members m → m.pid ≡ pid → slice_get groups m.group ≡ Some g → IsAnswer M.WHICH g.model g.bound (run_of m) (m.advances + 1) answer) }
        ensures followed { IfOk result (λ answer. (groups : List Group) (members : List Member) (m : Member) (g : Group) (s : Standing') (w : Watch' M M.Pool) → StandsFor M.Monitor self.old groups members → Contains members m → m.pid ≡ pid → slice_get groups m.group ≡ Some g → IsAlone M.WHICH g.model g.bound (run_of m) m.advances s → watch_of self.old m.group ≡ Some w → (v : Watch' M M.Pool) × (watch_of self.new m.group ≡ Some v) × ((h : Graph) (k : ℕ) (version : TracesVersion') (records : List Record) → WatchStandsFor M.Monitor h k version w records → WatchStandsFor M.Monitor h k version v (records ++ added pid s answer))) }
        ensures others { (groups : List Group) (members : List Member) (m : Member) (i : ℕ) → StandsFor M.Monitor self.old groups members → Contains members m → m.pid ≡ pid → i ≢ m.group → watch_of self.new i ≡ watch_of self.old i }
        ensures refused { OnErr result ((groups : List Group) (members : List Member) → StandsFor M.Monitor self.old groups members → StandsFor M.Monitor self.new groups (failed pid members)) }
        ensures unfollowed { OnErr result ((groups : List Group) (members : List Member) (m : Member) (w : Watch' M M.Pool) → StandsFor M.Monitor self.old groups members → Contains members m → m.pid ≡ pid → watch_of self.old m.group ≡ Some w → (v : Watch' M M.Pool) × (watch_of self.new m.group ≡ Some v) × ((h : Graph) (k : ℕ) (version : TracesVersion') (records : List Record) → WatchStandsFor M.Monitor h k version w records → WatchStandsFor M.Monitor h k version v records)) }
        ensures fails { (groups : List Group) (members : List Member) (m : Member) → StandsFor M.Monitor self.old groups members → Contains members m → m.pid ≡ pid → m.failed ≡ true → IsErr result }
        ensures counted { OnOk result (steps_of self.new ≡ steps_of self.old + 1) }
        ensures uncounted { OnErr result (steps_of self.new ≡ steps_of self.old) }
    {
        let Some(place) = place_of(&self.processes, pid) else {
            unreachable!()
        };
        match advance_at(self.alloc, &mut self.processes, &mut self.watches, place) {
            Ok(answer) => {
                self.taken += 1;
                Ok(answer)
            }
            Err(error) => Err(error),
        }
    }

    /// What the process with this number has come to, which is what it has come to alone; its event and its outcome are such as a trace
    /// file holds. The error is that memory was refused, to this call or to an advance of this process.
    pub fn standing(&self, pid: u32) -> Result<Standing, OutOfMemory>
        requires { (groups : List Group) × (members : List Member) × StandsFor M.Monitor self.now groups members × Contains (pids members) pid }
        ensures exact { IfOk result (λ standing. (groups : List Group) (members : List Member) (m : Member) (g : Group) → StandsFor M.Monitor self.now groups members → Contains members m → m.pid ≡ pid → slice_get groups m.group ≡ Some g → IsAlone M.WHICH g.model g.bound (run_of m) m.advances standing) }
        ensures tellable { IfOk result (λ standing. IsTellable standing) }
        ensures fails { (groups : List Group) (members : List Member) (m : Member) → StandsFor M.Monitor self.now groups members → Contains members m → m.pid ≡ pid → m.failed ≡ true → IsErr result }
    {
        let Some(place) = place_of(&self.processes, pid) else {
            unreachable!()
        };
        let standing = standing_at(self.alloc, &self.processes, &self.watches, place)?;
        Ok(standing)
    }
}
