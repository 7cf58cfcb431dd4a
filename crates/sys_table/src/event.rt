ghost use Rattle.std.specs.Prelude.{◌↔◌, IsTrue};
ghost use Rattle.std.specs.List.{AllZip};
ghost use Rattle.sys_table.specs.Table.{FitsArgument, IsRecorded};

use crate::{ArgKind, argument_kinds, result_kind};
use line_text::{ArgList, Event};

/// Whether a trace records the event: a null call, or a system call with as many arguments as the
/// table says, each of its kind and in its range, and with a result in the range of the result's
/// kind. It takes no memory.
pub fn recorded(event: &Event) -> bool
    ensures { IsTrue result ↔ IsRecorded event.now }
{
    match event {
        Event::Sys { name, args, result } => {
            do_arguments_fit(argument_kinds(*name), args) && result_kind(*name).fits(*result)
        }
        Event::Pre(_) | Event::Post(_) => true,
    }
}

// Whether there are as many arguments as kinds, and each is of its kind and in its range.
fn do_arguments_fit(kinds: &[ArgKind], arguments: &ArgList) -> bool
    ensures { IsTrue result ↔ AllZip FitsArgument kinds.now arguments.now }
{
    for (i, kind) in kinds.iter().enumerate() {
        let Some(argument) = arguments.get(i) else {
            return false;
        };
        if !kind.fits(argument) {
            return false;
        }
    }
    arguments.len() == kinds.len()
}
