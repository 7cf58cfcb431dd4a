ghost use Rattle.line_text.specs.Reading.{Reads};
ghost use Rattle.certify_facts.specs.declared.fact.Judge.TheVariants.{Callgraph, Stack};
ghost use Rattle.certify_file.specs.CertificateText.{IsRightLine, fact_line};
ghost use Rattle.certify_file.specs.Lines.{IsAtLine, IsLinkLine};

use crate::numbers::{take_labelled_pair, take_pair};
use crate::reason::take_reason;
use certify_facts::{Fact, FactLine, Judge, Reason};
use line_text::{Cursor, Miss};

/// Takes the line of a fact of the judge's model.
pub fn take_fact_line(cursor: &mut Cursor, judge: Judge) -> Result<FactLine, Miss>
    ensures { Reads (IsRightLine judge) fact_line cursor.old.rest.now cursor.new.rest.now result }
{
    match judge {
        Judge::Callgraph => take_callgraph_line(cursor),
        Judge::Stack => take_stack_line(cursor),
    }
}

// Takes the line of a fact of the callgraph model.
fn take_callgraph_line(cursor: &mut Cursor) -> Result<FactLine, Miss>
    ensures { Reads (IsRightLine Callgraph) fact_line cursor.old.rest.now cursor.new.rest.now result }
{
    let (k, v) = take_labelled_pair(cursor, b"a ", b' ')?;
    let reason = take_reason(cursor)?;
    Ok(FactLine {
        fact: Fact::Callgraph { k, v },
        reason,
    })
}

// Takes the line of a fact of the abstract-stack model.
fn take_stack_line(cursor: &mut Cursor) -> Result<FactLine, Miss>
    ensures { Reads (IsRightLine Stack) fact_line cursor.old.rest.now cursor.new.rest.now result }
{
    match cursor.rest {
        [] => Err(Miss::Short),
        [b'l', ..] => take_link_line(cursor),
        _ => take_at_line(cursor),
    }
}

// Takes the line of a fact about the node at which an activation may be.
fn take_at_line(cursor: &mut Cursor) -> Result<FactLine, Miss>
    ensures { Reads IsAtLine fact_line cursor.old.rest.now cursor.new.rest.now result }
{
    let (k, i) = take_labelled_pair(cursor, b"a ", b' ')?;
    let (f, v) = take_pair(cursor, b' ')?;
    let reason = take_reason(cursor)?;
    Ok(FactLine {
        fact: Fact::At { k, i, f, v },
        reason,
    })
}

// Takes the line of a link.
fn take_link_line(cursor: &mut Cursor) -> Result<FactLine, Miss>
    ensures { Reads IsLinkLine fact_line cursor.old.rest.now cursor.new.rest.now result }
{
    let (i, f) = take_labelled_pair(cursor, b"l ", b' ')?;
    let (j, g) = take_pair(cursor, b' ')?;
    let (s, caller) = take_pair(cursor, b'\n')?;
    Ok(FactLine {
        fact: Fact::Link { i, f, j, g, s },
        reason: Reason::Link(caller),
    })
}
