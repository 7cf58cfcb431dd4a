ghost use Rattle.std.specs.Prelude.{◌<◌, ◌^◌, length};

use callgraph_monitor::CallgraphMonitor;
use dm_base::{Bytes, Event, Outcome};
use flow_model::{Model, Monitor};
use model_file::read_model;
use report::{measure, next_line, next_names, precision_line};
use std::alloc::Global;
use std::test::Fail;
use sys_table::{SysResult, write_results};
use trace_file::{Record, TracesVersion, outcome_text, write_traces};

// One call of getpid.
const ONE_GETPID: &[u8] =
    b"dyckmon-model 1\nfunctions 1\nf main 0 1\nnodes 2\ns 0 getpid 1\nstart 0\nend\n";

#[test]
fn results_traces_and_outcomes_are_written(rt: HostRuntime) -> Result<(), Fail> {
    let alloc = rt.alloc();
    let results = [
        SysResult {
            value: -2_147_483_648,
            bytes: Bytes::of(alloc, b"")?,
        },
        SysResult {
            value: 2,
            bytes: Bytes::of(alloc, b"\x00\xfa")?,
        },
    ];
    let text = write_results(alloc, &results)?;
    assert_eq!(rt;
        text.as_slice(),
        b"dyckmon-results 1\nR -2147483648\nR 2 00fa\nend\n".as_slice()
    );
    let one = Record {
        pid: 4_294_967_295,
        event: Event::Pre(7),
    };
    let text = write_traces(alloc, TracesVersion::Two, &[one])?;
    assert_eq!(rt;
        text.as_slice(),
        b"dyckmon-traces 2\n4294967295 B 7\nend\n".as_slice()
    );
    let text = outcome_text(alloc, &Outcome::Exit(-7))?;
    assert_eq!(rt; text.as_slice(), b"exit -7".as_slice());
    Ok(())
}

// The line of the precision along these events.
fn measured(alloc: Global, model: &Model, events: &[Event]) -> Result<Vec<u8>, Fail>
    requires { length events.now < 2 ^ 32 }
{
    let precision = measure::<CallgraphMonitor>(alloc, model, events)?;
    Ok(precision_line(alloc, CallgraphMonitor::WHICH, &precision)?)
}

// The line that tells how many names may come next at the start.
fn next_of(alloc: Global, model: &Model) -> Result<Vec<u8>, Fail> {
    let mut pool = CallgraphMonitor::pool(alloc, model)?;
    let monitor = CallgraphMonitor::open(&mut pool, model, 1)?;
    let names = next_names(alloc, &monitor, &mut pool, model)?;
    Ok(next_line(alloc, names, 0, 20)?)
}

#[test]
fn the_precision_of_a_model_is_told(rt: HostRuntime) -> Result<(), Fail> {
    let alloc = rt.alloc();
    let model = read_model(alloc, ONE_GETPID).map_err(|_| "a model")?;
    let line = measured(alloc, &model, &[Event::Pre(1)])?;
    assert_eq!(rt;
        line.as_slice(),
        b"callgraph prefixes 2 branching 2\n".as_slice()
    );
    let line = next_of(alloc, &model)?;
    assert_eq!(rt; line.as_slice(), b"next 1 0 20\n".as_slice());
    Ok(())
}
