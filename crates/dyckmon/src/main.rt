//! The program `dyckmon`: the tool over the files and the streams of this machine. What the commands make of their words and
//! files stands in `.ci/cases`, which the built program runs; `.ci/faults.py` lets each of its reads and writes fail.
#![tactic(auto)]

use dm_base::Status;
use dm_io::{FolderStore, StdSink, write_whole};
use std::env::{self, Env};
use std::io;
use std::process::ExitCode;
use tool::run_tool;

// The words after the program's name, or the status where there are none to be had.
fn words(rt: &(impl Env + AllocGlobal)) -> Result<Vec<String>, Status> {
    let mut args = env::args(rt).map_err(|error| status_without_words(&error))?;
    let _name = args.next();
    let mut words = Vec::new(rt.alloc());
    for arg in args {
        if words.push(arg).is_err() {
            return Err(Status::OutOfMemory);
        }
    }
    Ok(words)
}

// The system gave no words: for want of memory, or since one of them isn't UTF-8.
fn status_without_words(error: &io::Error) -> Status {
    if error.kind() == io::ErrorKind::OutOfMemory {
        Status::OutOfMemory
    } else {
        Status::Usage
    }
}

fn main(rt: HostRuntime) -> ExitCode {
    let mut store = FolderStore::new(&rt, rt.alloc(), rt.stdin());
    let mut out = StdSink::new(rt.stdout());
    let mut err = StdSink::new(rt.stderr());
    let status = match words(&rt) {
        Ok(words) => run_tool(rt.alloc(), &words, &mut store, &mut out, &mut err),
        Err(status) => status,
    };
    ExitCode::from(status.code())
}
