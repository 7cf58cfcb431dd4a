ghost use Rattle.std.specs.Prelude.{◌≡◌, ◌*◌, ◌≤◌, ◌<◌, IfOk};
ghost use Rattle.generated_program.specs.Generator.{result_of, generated_results as results};

use dm_base::{Bytes, OutOfMemory};
use std::alloc::Global;
use sys_table::SysResult;

// A number times itself.
fn square(n: u32) -> u32
    requires { n ≤ 500 }
    ensures { result ≡ n * n }
{
    n * n
}

// The recorded result with this value and no data.
fn recorded_as(alloc: Global, value: u32) -> Result<SysResult, OutOfMemory>
    ensures { IfOk result (λ made. made ≡ result_of value) }
{
    let bytes = Bytes::of(alloc, b"")?;
    Ok(SysResult {
        value: value as i64,
        bytes,
    })
}

/// The recorded results for the run of the generated program with the functions f0 to f`last`, which is below 500: as many as the square of
/// their number, the k-th with the value k.
pub fn generated_results(alloc: Global, last: u32) -> Result<Vec<SysResult>, OutOfMemory>
    requires { last < 500 }
    ensures { IfOk result (λ records. records.items ≡ results last) }
{
    let count = square(last + 1);
    let mut records = Vec::new(alloc);
    for done in 0..count {
        let one = recorded_as(alloc, done + 1)?;
        records.push(one)?;
    }
    Ok(records)
}
