ghost use Rattle.std.specs.Prelude.{◌≡◌, ◌<◌, IfSome};
ghost use Rattle.c_rules.specs.Names.{number_among, is_among, system_calls, null_calls, given_names};

use dm_counts::Mode;
use sys_table::find;

// The number of the system call with this name.
fn system_call(name: &[u8]) -> Option<u32>
    ensures { result ≡ number_among system_calls name.now }
{
    match find(name) {
        Some(call) => Some(call.index() as u32),
        None => None,
    }
}

// The number among the two null calls of the one with this name.
fn null_call(name: &[u8]) -> Option<u32>
    ensures { result ≡ number_among null_calls name.now }
{
    if name == b"__dyck_pre".as_slice() {
        return Some(0);
    }
    if name == b"__dyck_post".as_slice() {
        return Some(1);
    }
    None
}

/// Whether it is the name of a null call.
pub fn is_null_call(name: &[u8]) -> bool
    ensures { result ≡ is_among null_calls name.now }
{
    null_call(name).is_some()
}

/// The number among the functions that have no definition of the one with this name: the system calls, and in the mode
/// Instrumented the two null calls.
pub fn given_number(mode: Mode, name: &[u8]) -> Option<u32>
    ensures told { result ≡ number_among (given_names mode) name.now }
    ensures few { IfSome result (λ i. i < 26) }
{
    match system_call(name) {
        Some(number) => Some(number),
        None => match mode {
            Mode::Plain => None,
            Mode::Instrumented => match null_call(name) {
                Some(number) => Some(24 + number),
                None => None,
            },
        },
    }
}

/// Whether it is the name of a function that has no definition.
pub fn is_given(mode: Mode, name: &[u8]) -> bool
    ensures { result ≡ is_among (given_names mode) name.now }
{
    given_number(mode, name).is_some()
}
