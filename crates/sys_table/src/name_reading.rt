ghost use Rattle.std.specs.Prelude.{◌≡◌, ◌≤◌, ◌<◌, ◌↔◌, Err, IsTrue};
ghost use Rattle.line_text.specs.Reading.{Reads};
ghost use Rattle.line_text.specs.Spelling.{BeginsOne, Spells};
ghost use Rattle.line_text.specs.declared.miss.Miss.TheVariants.{OutOfMemory as NoMemory};
ghost use Rattle.sys_table.specs.Table.{name_of, name_word};

use crate::{find, name_text};
use line_text::{Cursor, Miss, SysName};

/// Takes the name of a system call whose number in the table is at least `least`, and the space after
/// it.
pub fn take_call_name(cursor: &mut Cursor, least: u8) -> Result<SysName, Miss>
    requires { least < 24 }
    ensures reads { Reads (λ x. (least ≤ x) × (x < 24)) name_word cursor.old.rest.now cursor.new.rest.now result }
    ensures memory { result ≡ Err NoMemory → ⊥ }
{
    let rest = cursor.rest;
    match cursor.word(b' ') {
        Ok(text) => named(text, least),
        Err(miss) => {
            if begins_name(rest, least) {
                Err(miss)
            } else {
                Err(Miss::Wrong)
            }
        }
    }
}

// The system call with this name, whose number is at least `least`.
fn named(text: &[u8], least: u8) -> Result<SysName, Miss>
    ensures spells { Spells (λ x. (least ≤ x) × (x < 24)) name_of text.now result }
    ensures memory { result ≡ Err NoMemory → ⊥ }
{
    let Some(name) = find(text) else {
        return Err(Miss::Wrong);
    };
    if name.index() < least {
        return Err(Miss::Wrong);
    }
    Ok(name)
}

// Whether the name of some system call from number `least` up begins with the text, or is it.
fn begins_name(text: &[u8], least: u8) -> bool
    ensures { IsTrue result ↔ BeginsOne (λ x. (least ≤ x) × (x < 24)) name_of text.now }
{
    for i in least..24 {
        let Some(name) = SysName::from_index(i) else {
            return false;
        };
        if name_text(name).starts_with(text) {
            return true;
        }
    }
    false
}
