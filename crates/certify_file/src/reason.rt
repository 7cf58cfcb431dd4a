ghost use Rattle.std.specs.Prelude.{◌≡◌, get_or};
ghost use Rattle.line_text.specs.Reading.{Reads};
ghost use Rattle.certify_file.specs.CertificateText.{reason_text};
ghost use Rattle.certify_file.specs.Lines.{IsNodeReason};

use crate::numbers::{take_labelled, take_labelled_pair};
use certify_facts::Reason;
use line_text::{Cursor, Miss};

/// Takes the reason of a fact that is no link, and the line feed after it.
pub fn take_reason(cursor: &mut Cursor) -> Result<Reason, Miss>
    ensures { Reads IsNodeReason reason_text cursor.old.rest.now cursor.new.rest.now result }
{
    match cursor.rest {
        [] => Err(Miss::Short),
        [b's', ..] => take_start_or_silent(cursor),
        [b'e', ..] => take_enter_or_event(cursor),
        _ => {
            let (fact, back) = take_labelled_pair(cursor, b"return ", b'\n')?;
            Ok(Reason::Return(fact, back))
        }
    }
}

// Takes a reason that begins with `s`.
fn take_start_or_silent(cursor: &mut Cursor) -> Result<Reason, Miss>
    requires { get_or cursor.old.rest.now 0 0 ≡ 115 }
    ensures { Reads IsNodeReason reason_text cursor.old.rest.now cursor.new.rest.now result }
{
    match cursor.rest {
        [_, b't', ..] => {
            cursor.take(b"start\n")?;
            Ok(Reason::Start)
        }
        [_, _, ..] => {
            let fact = take_labelled(cursor, b"silent ", b'\n')?;
            Ok(Reason::Silent(fact))
        }
        _ => Err(Miss::Short),
    }
}

// Takes a reason that begins with `e`.
fn take_enter_or_event(cursor: &mut Cursor) -> Result<Reason, Miss>
    requires { get_or cursor.old.rest.now 0 0 ≡ 101 }
    ensures { Reads IsNodeReason reason_text cursor.old.rest.now cursor.new.rest.now result }
{
    match cursor.rest {
        [_, b'n', ..] => {
            let (fact, site) = take_labelled_pair(cursor, b"enter ", b'\n')?;
            Ok(Reason::Enter(fact, site))
        }
        [_, _, ..] => {
            let fact = take_labelled(cursor, b"event ", b'\n')?;
            Ok(Reason::Event(fact))
        }
        _ => Err(Miss::Short),
    }
}
