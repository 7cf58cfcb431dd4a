ghost use Rattle.std.specs.Prelude.{[]};
ghost use Rattle.line_text.specs.OneLine.{IsLine};
ghost use Rattle.line_text.specs.Reading.{Reads};
ghost use Rattle.certify_facts.specs.Form.{IsCounted};
ghost use Rattle.certify_file.specs.CertificateText.{verdict_line, which_line};
ghost use Rattle.certify_file.specs.Lines.{IsAnyJudge, which_word};

use crate::numbers::take_labelled;
use certify_facts::Judge;
use dm_base::Verdict;
use line_text::{Cursor, Miss};

/// The judge whose line the whole of this one is.
pub fn read_which_line(line: &[u8]) -> Result<Judge, Miss>
    requires { IsLine line.now }
    ensures { Reads IsAnyJudge which_line line.now [] result }
{
    let mut cursor = Cursor { rest: line };
    take_which_line(&mut cursor)
}

/// The claimed verdict whose line the whole of this one is.
pub fn read_verdict_line(line: &[u8]) -> Result<Verdict, Miss>
    requires { IsLine line.now }
    ensures { Reads IsCounted verdict_line line.now [] result }
{
    let mut cursor = Cursor { rest: line };
    take_verdict_line(&mut cursor)
}

// Takes the line of a judge.
fn take_which_line(cursor: &mut Cursor) -> Result<Judge, Miss>
    ensures { Reads IsAnyJudge which_line cursor.old.rest.now cursor.new.rest.now result }
{
    cursor.take(b"which ")?;
    take_judge(cursor)
}

// Takes the name of a judge, and the line feed after it.
fn take_judge(cursor: &mut Cursor) -> Result<Judge, Miss>
    ensures { Reads IsAnyJudge which_word cursor.old.rest.now cursor.new.rest.now result }
{
    match cursor.rest {
        [] => Err(Miss::Short),
        [b'c', ..] => {
            cursor.take(b"callgraph\n")?;
            Ok(Judge::Callgraph)
        }
        _ => {
            cursor.take(b"stack\n")?;
            Ok(Judge::Stack)
        }
    }
}

// Takes the line of a claimed verdict.
fn take_verdict_line(cursor: &mut Cursor) -> Result<Verdict, Miss>
    ensures { Reads IsCounted verdict_line cursor.old.rest.now cursor.new.rest.now result }
{
    match cursor.rest {
        [] => Err(Miss::Short),
        [b'a', ..] => {
            let events = take_labelled(cursor, b"accepted ", b'\n')?;
            Ok(Verdict::Accepted {
                events: u64::from(events),
            })
        }
        _ => {
            let at = take_labelled(cursor, b"rejected ", b'\n')?;
            Ok(Verdict::Rejected { at: u64::from(at) })
        }
    }
}
