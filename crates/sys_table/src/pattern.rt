ghost use Rattle.std.specs.Prelude.{◌↔◌, IsTrue};
ghost use Rattle.std.specs.List.{AllZip};
ghost use Rattle.sys_table.specs.Table.{FitsEntry, IsRight};

use crate::{ArgKind, argument_kinds};
use line_text::{Pattern, SysName};

/// Whether the pattern is right for the system call: it has as many entries as the call has
/// recorded arguments, bytes have None, and each number is in its argument's range. It takes no
/// memory.
pub fn is_right(pattern: &Pattern, name: SysName) -> bool
    ensures { IsTrue result ↔ IsRight name pattern.now }
{
    do_entries_fit(argument_kinds(name), pattern)
}

// Whether there are as many entries as kinds, and each number is in the range of its kind.
fn do_entries_fit(kinds: &[ArgKind], pattern: &Pattern) -> bool
    ensures { IsTrue result ↔ AllZip FitsEntry kinds.now pattern.now }
{
    if pattern.count() as usize != kinds.len() {
        return false;
    }
    for (i, kind) in kinds.iter().enumerate() {
        if let Some(number) = pattern.get(i as u8)
            && !kind.fits_number(number)
        {
            return false;
        }
    }
    true
}
