ghost use Rattle.std.specs.Prelude.{◌≡◌, ◌≤◌, nat_lt, length, filter, map, if◌then◌else◌, IfOk};
ghost use Rattle.flow_graph.specs.Places.{place_at};

use dm_base::OutOfMemory;
use std::alloc::Global;

// 1 for true.
fn one_if(holds: bool) -> u32
    ensures { result ≡ (if holds then 1 else 0) }
{
    if holds { 1 } else { 0 }
}

// How many of the numbers are below this one.
fn count_below(numbers: &[u32], bound: u32) -> u32
    requires { length numbers.now ≤ 24 }
    ensures count { result ≡ length (filter (λ x. nat_lt x bound) numbers.now) }
    ensures few { result ≤ 24 }
{
    let mut count = 0;
    for x in numbers {
        count += one_if(*x < bound);
    }
    count
}

// Where the function with this number stands among the defined ones and the taken system calls.
fn place_of(defined: u32, taken: &[u32], f: u32) -> u32
    requires many { defined ≤ 4098 }
    requires few { length taken.now ≤ 24 }
    ensures { result ≡ place_at defined taken.now f }
{
    if f < defined {
        return f;
    }
    defined + count_below(taken, f - defined)
}

// Where each of the functions stands.
pub fn places_of(
    alloc: Global,
    defined: u32,
    taken: &[u32],
    functions: &[u32],
) -> Result<Vec<u32>, OutOfMemory>
    requires many { defined ≤ 4098 }
    requires few { length taken.now ≤ 24 }
    ensures { IfOk result (λ places. places.items ≡ map (place_at defined taken.now) functions.now) }
{
    let mut places = Vec::new(alloc);
    for f in functions {
        places.push(place_of(defined, taken, *f))?;
    }
    Ok(places)
}
