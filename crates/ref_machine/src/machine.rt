ghost use Rattle.std.specs.Prelude.{◌≡◌, ◌≤◌, ◌<◌, ◌+◌, ◌^◌};
ghost use Rattle.c_tree.specs.View.{program_of};
ghost use Rattle.c_values.specs.Seen.{seen};
ghost use Rattle.ref_machine_frames.specs.Cells.{AreCells};
ghost use Rattle.ref_machine.specs.declared.pause.Pause.TheVariants.{Ended};
ghost use Rattle.std.proofs.Props.{props};
ghost use Rattle.ref_machine.specs.Props.{IsEnding-prop, HasCall-prop};
ghost use Rattle.ref_machine.specs.Standing.{GoesRight};
ghost use Rattle.ref_machine.specs.Stages.{HasCall};

use crate::Pause;
use crate::stepping::{coming, go_on, settled};
use c_meaning::values_have_kinds;
use c_tree::Program;
use c_values::Memory;
use dm_base::{OutOfMemory, Outcome, SysName};
use ref_machine_frames::{
    Called, Frame, Here, Now, Request, static_objects, struct_cells, take_record,
};
use std::alloc::Global;
use std::mem;
use sys_table::SysResult;

// How a machine was left.
#[derive(Clone, Copy)]
pub enum Stage {
    // It goes on.
    Going,
    // It has said that it needs a record.
    Waiting,
    // Memory was refused.
    Failed(OutOfMemory),
}

/// A run of a program that can be paused at each event and each need of a recorded result (C99 5.1.2.3). It stands for its
/// future: from the recorded results to come, how the run ends, and the events to come.
pub struct Machine<'p> {
    alloc: Global,
    program: &'p Program,
    counts: Vec<u32>,
    memory: Memory,
    todo: Vec<Frame<'p>>,
    here: Here<'p>,
    entries: u64,
    taken: u64,
    allowed: u32,
    turns: u32,
    stage: Stage,
    next: Now<'p>,
    ghost counted: { AreCells (program_of program.now).structs counts.items },
    ghost bounded: { entries + turns ≤ allowed },
    ghost few: { allowed < 2 ^ 32 },
    ghost right: { GoesRight (program_of program.now) allowed (record { here = here; memory = seen memory; entries = entries; turns = turns; now = next; todo = todo.items }) taken } by { Prim.hlevel (props, IsEnding-prop) },
    ghost called: { HasCall stage next } by { HasCall-prop stage next },
}

// Written, so that a function that owns a machine proves no more than a call of it where it drops one.
impl<'p> Drop for Machine<'p> {
    fn drop(self) {
        let Self {
            alloc: _,
            program: _,
            counts: _counts,
            memory: _memory,
            todo: _todo,
            here: _,
            entries: _,
            taken: _,
            allowed: _,
            turns: _,
            stage: _,
            next: _next,
        } = self;
    }
}

// Where a run stands before `main` is entered.
fn before_main<'p>() -> Here<'p> {
    Here {
        activation: 0,
        types: &[],
    }
}

// The end by this outcome.
fn ended(outcome: &Outcome) -> Pause
    ensures { result ≡ Ended outcome.now }
{
    Pause::Ended(*outcome)
}

impl<'p> Machine<'p> {
    ghost use Rattle.std.specs.Prelude.{◌≡◌, ◌<◌, ◌^◌, ◌-◌, ◌+◌, Some, List, true, false, IfOk, OnErr, IsErr, IsSome};
    ghost use Rattle.std.specs.Option.{option_copied};
    ghost use Rattle.sys_table.specs.declared.sys_result.SysResult.{SysResult as Record};
    ghost use Rattle.c_meaning.specs.Runs.{run};
    ghost use Rattle.ref_machine.specs.Futures.{future, future_at, is_waiting, has_failed, records_taken, taken_with, EndsRight, Advances, GoesOn, HasResumed, Resumes};
    ghost use Rattle.ref_machine.specs.Standing.{IsPausing};
    ghost use Rattle.ref_machine_frames.specs.declared.frames.Now.TheVariants.{Ask};

    /// The run of the program from its start, where its static objects have their first values and `main` is entered (C99 5.1.2,
    /// 5.1.2.2.1), with so many turns: to enter a function costs one, and so does each test of a loop. The error is that memory was
    /// refused.
    pub fn start(
        alloc: Global,
        program: &'p Program,
        turns: u32,
    ) -> Result<Machine<'p>, OutOfMemory>
        ensures future { IfOk result (λ machine. (records : List Record) → future machine records ≡ run (program_of program.now) records turns) }
        ensures waiting { IfOk result (λ machine. is_waiting machine ≡ false) }
        ensures taken { IfOk result (λ machine. records_taken machine ≡ 0) }
    {
        values_have_kinds();
        let _sites = program.sites();
        let counts = struct_cells(alloc, program)?;
        let memory = static_objects(alloc, program.statics())?;
        Ok(Machine {
            alloc,
            program,
            counts,
            memory,
            todo: Vec::new(alloc),
            here: before_main(),
            entries: 0,
            taken: 0,
            allowed: turns,
            turns,
            stage: Stage::Going,
            next: Now::Enter {
                wanted: true,
                function: program.main(),
                arguments: Vec::new(alloc),
            },
        })
    }

    /// How many recorded results were taken so far. It takes no memory.
    pub fn records_taken(&self) -> u64
        ensures { result ≡ records_taken self.now }
    {
        self.taken
    }

    /// Whether the last call of `advance` said that a recorded result is needed. It takes no memory.
    pub fn is_waiting(&self) -> bool
        ensures { result ≡ is_waiting self.now }
    {
        match self.stage {
            Stage::Going => false,
            Stage::Waiting => true,
            Stage::Failed(_) => false,
        }
    }

    // Tells what the machine has come to.
    fn pause(&mut self, now: Now<'p>) -> Pause
        requires pausing { IsPausing now }
        requires right { EndsRight (future_at self.old now) }
        ensures goes_on { GoesOn (future_at self.old now.entry) result (future self.new) (is_waiting self.new) }
        ensures taken { records_taken self.new ≡ records_taken self.old }
    {
        match now {
            Now::Ask { name, request } => {
                self.next = Now::Ask { name, request };
                self.stage = Stage::Waiting;
                Pause::NeedResult
            }
            Now::Told { event, then } => {
                self.next = coming(then);
                self.stage = Stage::Going;
                Pause::Did(event)
            }
            Now::Stopped(outcome) => {
                let pause = ended(&outcome);
                self.next = Now::Stopped(outcome);
                self.stage = Stage::Going;
                pause
            }
            Now::Eval { .. } => unreachable!(),
            Now::Have(_) => unreachable!(),
            Now::Exec(_) => unreachable!(),
            Now::Left(_) => unreachable!(),
            Now::Enter { .. } => unreachable!(),
            Now::Test(_) => unreachable!(),
            Now::Mistyped => unreachable!(),
        }
    }

    // Goes on to the next event, need of a record or end.
    fn go_on(&mut self) -> Result<Pause, OutOfMemory>
        ensures goes_on { IfOk result (λ pause. GoesOn (future self.old) pause (future self.new) (is_waiting self.new)) }
        ensures taken { records_taken self.new ≡ records_taken self.old }
    {
        let now = mem::replace(&mut self.next, Now::Stopped(Outcome::Turns));
        self.stage = Stage::Going;
        let next = go_on(
            self.alloc,
            self.program,
            &self.counts,
            &mut self.memory,
            &mut self.todo,
            &mut self.here,
            &mut self.entries,
            &mut self.turns,
            now,
        )?;
        Ok(self.pause(next))
    }

    // Goes on with a record.
    fn take(&mut self, name: SysName, request: Request, recorded: &SysResult) -> Pause
        requires few { records_taken self.old < 2 ^ 64 - 1 }
        requires right { EndsRight (future_at self.old (Ask name request)) }
        ensures resumes { HasResumed (future_at self.old (Ask name request)) (Some recorded.now) result (future self.new) (is_waiting self.new) }
        ensures taken { records_taken self.new ≡ records_taken self.old + 1 }
    {
        self.taken += 1;
        self.stage = Stage::Going;
        match take_record(&mut self.memory, name, request, recorded) {
            Called::Answered { event, value } => {
                self.next = settled(value);
                Pause::Did(event)
            }
            Called::BadResult => {
                self.next = Now::Stopped(Outcome::BadResult(self.taken));
                Pause::Ended(Outcome::BadResult(self.taken))
            }
        }
    }

    // Goes on with a record, or with none.
    fn resume(&mut self, given: Option<&SysResult>) -> Pause
        requires waiting { is_waiting self.old ≡ true }
        requires few { IsSome given → records_taken self.old < 2 ^ 64 - 1 }
        ensures resumes { Resumes (future self.old) (option_copied given.entry) result (future self.new) (is_waiting self.new) }
        ensures taken { records_taken self.new ≡ taken_with (option_copied given.entry) (records_taken self.old) }
    {
        let now = mem::replace(&mut self.next, Now::Stopped(Outcome::Turns));
        self.stage = Stage::Going;
        let Now::Ask { name, request } = now else {
            unreachable!()
        };
        match given {
            Some(recorded) => self.take(name, request, recorded),
            None => {
                self.next = Now::Stopped(Outcome::Results);
                Pause::Ended(Outcome::Results)
            }
        }
    }

    // Memory was refused.
    fn fail(&mut self, error: OutOfMemory) -> OutOfMemory
        ensures { has_failed self.new ≡ true }
    {
        self.stage = Stage::Failed(error);
        error
    }

    /// Goes on to the next event, need of a recorded result, or end (C99 5.1.2.3). A result is given only where the machine is
    /// waiting, and fewer than 2^64 − 1 were taken before; where it is waiting and none is given, there is none left, and the run
    /// ends for want of it. A result that does not answer its call ends the run with its number, counted from 1. After the end it
    /// answers the same again.
    ///
    /// The error is that memory was refused; from then on each call answers so.
    pub fn advance(&mut self, given: Option<&SysResult>) -> Result<Pause, OutOfMemory>
        requires waiting { IsSome given → is_waiting self.old ≡ true }
        requires few { IsSome given → records_taken self.old < 2 ^ 64 - 1 }
        ensures advances { IfOk result (λ pause. Advances (is_waiting self.old) (future self.old) (option_copied given.entry) pause (future self.new) (is_waiting self.new)) }
        ensures taken { IfOk result (λ pause. records_taken self.new ≡ taken_with (option_copied given.entry) (records_taken self.old)) }
        ensures failed { OnErr result (has_failed self.new ≡ true) }
        ensures fails { has_failed self.old ≡ true → IsErr result }
    {
        match self.stage {
            Stage::Going => match self.go_on() {
                Ok(pause) => Ok(pause),
                Err(error) => Err(self.fail(error)),
            },
            Stage::Waiting => Ok(self.resume(given)),
            Stage::Failed(error) => Err(error),
        }
    }
}
