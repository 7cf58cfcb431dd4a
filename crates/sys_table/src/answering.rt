ghost use Rattle.std.specs.Prelude.{◌↔◌, IsTrue};
ghost use Rattle.sys_table.specs.Answering.{Answers, AnswersRead, AnswersWrite, AnswersOther};

use crate::{SysResult, result_kind};
use line_text::SysName;

/// Whether the record answers the system call. `read` and `write` asked for `asked` bytes; for other
/// calls that number is of no account. A record answers `read` where it is −1 without data, or its
/// value is the length of its data, at most `asked` and within an int. It answers `write` where it
/// has no data and its value is −1 to `asked` and within an int. It answers another call where it
/// has no data and its value is in the range of the result's kind.
pub fn answers(name: SysName, asked: u32, given: &SysResult) -> bool
    ensures { IsTrue result ↔ Answers name asked given.now }
{
    match name.index() {
        0 => answers_read(asked, given),
        1 => answers_write(asked, given),
        _ => answers_other(name, given),
    }
}

// Whether the record answers `read` of this many bytes.
fn answers_read(asked: u32, given: &SysResult) -> bool
    ensures { IsTrue result ↔ AnswersRead asked given.now }
{
    let count = given.bytes.as_slice().len();
    if given.value == -1 {
        return count == 0;
    }
    if i32::try_from(given.value).is_err() {
        return false;
    }
    if (asked as usize) < count {
        return false;
    }
    given.value == count as i64
}

// Whether the record answers `write` of this many bytes.
fn answers_write(asked: u32, given: &SysResult) -> bool
    ensures { IsTrue result ↔ AnswersWrite asked given.now }
{
    if !given.bytes.as_slice().is_empty() {
        return false;
    }
    if i32::try_from(given.value).is_err() {
        return false;
    }
    -1 <= given.value && given.value <= i64::from(asked)
}

// Whether the record answers a call that is neither `read` nor `write`.
fn answers_other(name: SysName, given: &SysResult) -> bool
    ensures { IsTrue result ↔ AnswersOther name given.now }
{
    given.bytes.as_slice().is_empty() && result_kind(name).fits(given.value)
}
