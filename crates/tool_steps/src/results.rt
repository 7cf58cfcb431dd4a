ghost use Rattle.std.specs.Prelude.{◌≡◌, ◌≤◌, IfOk, IfErr, IfSome};
ghost use Rattle.dm_io.specs.Store.{file_at, IsMissing};
ghost use Rattle.tool_steps.specs.ResultsStops.{RefusesResultsAlone};
ghost use Rattle.sys_table.specs.ResultsText.{AreResultsWithin};
ghost use Rattle.tool_frame.specs.Stop.{Stops};

use crate::refusals::refused_with;
use dm_io::{Store, read_whole};
use std::alloc::Global;
use sys_table::{SysResult, read_results};
use tool_frame::Stop;

// One byte more than a file of results may have.
const MOST: usize = 67_108_865;

/// The records of a file of results.
///
/// # Errors
///
/// `Record` where the file is no file of results within the limits, `Read` where a read failed or the file isn't there, and
/// `OutOfMemory`.
pub fn results_in<S: Store>(
    alloc: Global,
    store: &mut S,
    name: &str,
) -> Result<Vec<SysResult>, Stop>
    ensures read { IfOk result (λ records. IfSome (S.files store.old) (λ told. AreResultsWithin (file_at told name.now) records.items)) }
    ensures stop { IfErr result (λ stop. Stops stop (RefusesResultsAlone (S.files store.old) name.now) (IsMissing (S.files store.old) name.now) (S.faults store.old) (S.faults store.new)) }
    ensures same { S.files store.new ≡ S.files store.old }
    ensures never_falls { S.faults store.old ≤ S.faults store.new }
{
    let text = read_whole(alloc, store, name, MOST)?;
    match read_results(alloc, &text) {
        Ok(records) => Ok(records),
        Err(error) => Err(refused_with(alloc, error)),
    }
}
