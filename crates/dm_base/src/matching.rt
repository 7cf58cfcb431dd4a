ghost use Rattle.std.specs.Prelude.{◌≡◌, ◌↔◌, ◌∷◌, [], IsTrue, option_to_list};
ghost use Rattle.std.specs.Option.{option_copied};
ghost use Rattle.dm_base.specs.Fits.{Fits, FitArguments};

use crate::{Arg, ArgList, Event, Pattern, SysName};

/// Whether the event is a system call with this name whose recorded arguments fit the pattern:
/// where an entry has a number, the argument is that number. It takes no memory.
pub fn fits(name: SysName, pattern: &Pattern, event: &Event) -> bool
    ensures { IsTrue result ↔ Fits name pattern.now event.now }
{
    match event {
        Event::Sys {
            name: called,
            args,
            ..
        } => *called == name && do_arguments_fit(pattern, args),
        Event::Pre(_) => false,
        Event::Post(_) => false,
    }
}

// Whether each argument at which the pattern has a number is that number.
fn do_arguments_fit(pattern: &Pattern, arguments: &ArgList) -> bool
    ensures { IsTrue result ↔ FitArguments pattern.now arguments.now }
{
    for i in 0..pattern.count() {
        if !does_entry_fit(pattern.get(i), arguments.get(i as usize)) {
            return false;
        }
    }
    true
}

// Whether one argument, where there is one, fits one entry.
fn does_entry_fit(entry: Option<i64>, argument: Option<&Arg>) -> bool
    ensures { IsTrue result
        ↔ FitArguments (entry ∷ []) (option_to_list (option_copied argument.entry)) }
{
    match (entry, argument) {
        (Some(number), Some(Arg::Int(recorded))) => *recorded == number,
        (Some(_), Some(Arg::Bytes(_))) => false,
        (Some(_), None) => true,
        (None, _) => true,
    }
}
