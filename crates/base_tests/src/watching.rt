ghost use Rattle.std.specs.Prelude.{IfOk};
ghost use Rattle.base_tests.specs.Going.{IsGoing};

use dm_base::Verdict;
use flow_model::Monitor;
use model_file::read_model;
use stack_automaton::StackMonitor;
use std::alloc::{AllocError, Global};
use std::test::Fail;
use trace_file::{Record, TracesReader, TracesVersion};
use watch::Watch;

// One call of getpid.
const ONE_GETPID: &[u8] =
    b"dyckmon-model 1\nfunctions 1\nf main 0 1\nnodes 2\ns 0 getpid 1\nstart 0\nend\n";

// A function that calls getpid is called, then getuid, then the function again.
const TWO_CALLERS: &[u8] =
    b"dyckmon-model 2\nfunctions 2\nf f 0 1\nf main 3 4\nnodes 8\ne 2 1\ne 7 4\ns 0 getpid 2\ns 5 getuid 6\nc 3 1 5 0\nc 6 3 7 0\nstart 1\nend\n";

// A function that calls dup, itself and close, or getpid.
const RECURSION: &[u8] =
    b"dyckmon-model 1\nfunctions 2\nf f 0 1\nf main 5 6\nnodes 8\ne 2 1\ne 7 6\ns 0 dup 3\ns 0 getpid 2\ns 4 close 2\nc 3 1 4 0\nc 5 4 7 0\nstart 1\nend\n";

// So many times the same event of each process from the first to the last.
type Rounds = (usize, u32, u32, &'static str);

// A watch of the model by the monitor of stacks, and what is wanted after the rounds.
struct Row {
    model: &'static [u8],
    rounds: &'static [Rounds],
    // Whether a sweep follows each record.
    sweeps: bool,
    // The fewest and the most keys that the pool holds.
    held: (usize, usize),
    // How many processes have a verdict.
    processes: usize,
    // The process that is rejected, and at which of its events.
    rejected: Option<(u32, u64)>,
    // How many events of each other process are accepted.
    events: u64,
    // How many records there are, and the most keys that the pool holds behind each of them, where that is looked at.
    swept: Option<(usize, usize)>,
}

const ROWS: [Row; 5] = [
    // Two processes share the state after their call.
    Row {
        model: ONE_GETPID,
        rounds: &[(1, 1, 2, "S getpid = 1")],
        sweeps: true,
        held: (2, 2),
        processes: 2,
        rejected: None,
        events: 1,
        swept: Some((2, 2)),
    },
    // One that is rejected needs none.
    Row {
        model: ONE_GETPID,
        rounds: &[(1, 1, 2, "S getpid = 1"), (1, 3, 3, "S dup 1 = 0")],
        sweeps: true,
        held: (2, 2),
        processes: 3,
        rejected: Some((3, 1)),
        events: 1,
        swept: Some((3, 2)),
    },
    // One that goes down, turns and comes up again: steps sweep by themselves.
    Row {
        model: RECURSION,
        rounds: &[
            (512, 1, 1, "S dup 1 = 5"),
            (1, 1, 1, "S getpid = 1"),
            (511, 1, 1, "S close 1 = 0"),
        ],
        sweeps: false,
        held: (2, 511),
        processes: 1,
        rejected: None,
        events: 1_024,
        swept: None,
    },
    // Forty in three rounds, of which the seventh leaves out the call of getuid.
    Row {
        model: TWO_CALLERS,
        rounds: &[
            (1, 1, 40, "S getpid = 100"),
            (1, 1, 6, "S getuid = 0"),
            (1, 7, 7, "S getpid = 100"),
            (1, 8, 40, "S getuid = 0"),
            (1, 1, 40, "S getpid = 101"),
        ],
        sweeps: true,
        held: (2, 39),
        processes: 40,
        rejected: Some((7, 2)),
        events: 3,
        swept: None,
    },
    // Five likewise, of which the third does. No more than two histories that are accepted stand
    // beside each other, and each has two calls open at most.
    Row {
        model: TWO_CALLERS,
        rounds: &[
            (1, 1, 5, "S getpid = 100"),
            (1, 1, 2, "S getuid = 0"),
            (1, 3, 3, "S getpid = 100"),
            (1, 4, 5, "S getuid = 0"),
            (1, 1, 5, "S getpid = 101"),
        ],
        sweeps: true,
        held: (2, 4),
        processes: 5,
        rejected: Some((3, 2)),
        events: 3,
        swept: Some((15, 5)),
    },
];

fn add_round(alloc: Global, text: &mut Vec<u8>, round: &Rounds) -> Result<(), AllocError> {
    for pid in round.1..=round.2 {
        let event = round.3;
        let line = format!(in alloc; "{pid} {event}\n")?;
        text.extend_from_slice(line.as_bytes())?;
    }
    Ok(())
}

fn add_rounds(alloc: Global, text: &mut Vec<u8>, rounds: &Rounds) -> Result<(), AllocError> {
    for _ in 0..rounds.0 {
        add_round(alloc, text, rounds)?;
    }
    Ok(())
}

// The records of all rounds.
fn records_of(alloc: Global, rounds: &[Rounds]) -> Result<Vec<Record>, Fail> {
    let mut text = b"dyckmon-traces 1\n".to_vec(alloc)?;
    for one in rounds {
        add_rounds(alloc, &mut text, one)?;
    }
    let mut reader = TracesReader::new(alloc)?;
    let records = reader.feed(&text).map_err(|_| "records")?;
    Ok(records)
}

// Gives the watch these records, and sweeps after each if that is asked for.
fn give<M: Monitor>(watch: &mut Watch<M>, records: &[Record], sweeps: bool) -> Result<(), Fail>
    requires { IsGoing M.Monitor watch.old }
    ensures { IsGoing M.Monitor watch.new }
{
    for one in records {
        if watch.steps() >= 1_000_000 {
            return Err(Fail::from("fewer than a million records"));
        }
        if !watch.room(one.pid, &one.event) {
            return Err(Fail::from("room for a record"));
        }
        watch.step(one.pid, &one.event)?;
        if sweeps {
            watch.sweep()?;
        }
    }
    Ok(())
}

// A watch of the model that was given the first records of the row, so many at most.
fn watched<M: Monitor>(alloc: Global, row: &Row, most: usize) -> Result<Watch<M>, Fail>
    ensures { IfOk result (IsGoing M.Monitor) }
{
    let model = read_model(alloc, row.model).map_err(|_| "a model")?;
    let mut records = records_of(alloc, row.rounds)?;
    records.truncate(most);
    let mut watch = Watch::open(alloc, model, 1_000, TracesVersion::One)?;
    give(&mut watch, &records, row.sweeps)?;
    Ok(watch)
}

// Whether the verdict on the process is the one that is wanted.
fn is_as_wanted(row: &Row, found: &(u32, Verdict)) -> bool {
    match row.rejected {
        Some((pid, at)) if pid == found.0 => found.1 == Verdict::Rejected { at },
        _ => found.1 == Verdict::Accepted { events: row.events },
    }
}

// How many keys are held, how many processes have a verdict, and whether each is as wanted.
fn found(alloc: Global, row: &Row) -> Result<(usize, usize, bool), Fail> {
    let watch = watched::<StackMonitor>(alloc, row, usize::MAX)?;
    let verdicts = watch.verdicts()?;
    let wanted = verdicts.iter().all(|one| is_as_wanted(row, one));
    Ok((watch.pool().live(), verdicts.len(), wanted))
}

#[test]
fn what_no_process_needs_is_freed(rt: HostRuntime) -> Result<(), Fail> {
    for (i, row) in ROWS.iter().enumerate() {
        let (live, verdicts, wanted) = found(rt.alloc(), row)?;
        let (least, most) = row.held;
        assert!(rt; least <= live && live <= most, "row {i} holds {live}");
        assert_eq!(rt; verdicts, row.processes, "row {i}");
        assert!(rt; wanted, "row {i}");
    }
    Ok(())
}

#[test]
fn a_sweep_after_each_step_leaves_few_states(rt: HostRuntime) -> Result<(), Fail> {
    for (i, row) in ROWS.iter().enumerate() {
        if let Some((records, most)) = row.swept {
            for given in 1..=records {
                let watch = watched::<StackMonitor>(rt.alloc(), row, given)?;
                let live = watch.pool().live();
                assert!(rt;
                    2 <= live && live <= most,
                    "row {i} holds {live} after {given}"
                );
            }
        }
    }
    Ok(())
}
