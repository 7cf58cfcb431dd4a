ghost use Rattle.std.specs.Prelude.{◌≡◌, ℤ, pos, ◌<◌, ◌≤ℤ◌, ℕ, IfSome, IfNone};
ghost use Rattle.std.specs.Option.{option_to_list};
ghost use Rattle.trace_file.specs.Known.{child_of};

use dm_base::Event;

/// The number of `fork` in the table of system calls.
const FORK: u8 = 22;

/// The process that the event makes where it is a `fork` with a result from 1 to 4,294,967,295.
pub fn child_of(event: &Event) -> Option<u32>
    ensures { option_to_list result ≡ child_of event.now }
{
    match event {
        Event::Sys { name, result, .. } => {
            if name.index() == FORK {
                process(*result)
            } else {
                None
            }
        }
        Event::Pre(_) | Event::Post(_) => None,
    }
}

// The process with this number, which is at least 1 and below 2^32.
fn process(number: i64) -> Option<u32>
    ensures some { IfSome result (λ process. (number ≡ pos process) × (0 < process)) }
    ensures none { IfNone result ((n : ℕ) → number ≡ pos n → 0 < n → n < 4294967296 → ⊥) }
{
    if 1 <= number && number <= 4_294_967_295 {
        Some(number as u32)
    } else {
        None
    }
}
