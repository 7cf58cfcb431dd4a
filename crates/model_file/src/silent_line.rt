ghost use Rattle.line_text.specs.Reading.{Reads};
ghost use Rattle.model_file.specs.Bounds.{IsLeast, IsNextSilent, BeginsSilent, JoinsSilent};
ghost use Rattle.model_file.specs.ModelText.{silent_line};

use crate::words::{MOST, take_number};
use flow_model::SilentEdge;
use line_text::{Cursor, Miss};

// Takes the line of a silent edge that goes after the last one.
pub(crate) fn take_silent_line(
    cursor: &mut Cursor,
    last: Option<SilentEdge>,
) -> Result<SilentEdge, Miss>
    ensures { Reads (IsNextSilent last) silent_line cursor.old.rest.now cursor.new.rest.now result }
{
    let least = least_from(last);
    if least > MOST {
        return Err(Miss::Wrong);
    }
    cursor.take(b"e ")?;
    let from = take_number(cursor, least, b' ')?;
    let to = take_number(cursor, least_to(last, from), b'\n')?;
    Ok(SilentEdge { from, to })
}

// The least node at which a silent edge after the last one may begin.
fn least_from(last: Option<SilentEdge>) -> u64
    ensures { IsLeast (BeginsSilent last) result }
{
    match last {
        Some(edge) => {
            if edge.to < u32::MAX {
                u64::from(edge.from)
            } else {
                u64::from(edge.from) + 1
            }
        }
        None => 0,
    }
}

// The least node at which a silent edge after the last one may end that begins at the node.
fn least_to(last: Option<SilentEdge>, from: u32) -> u64
    requires { BeginsSilent last from }
    ensures { IsLeast (JoinsSilent last from) result }
{
    match last {
        Some(edge) if edge.from == from => u64::from(edge.to) + 1,
        _ => 0,
    }
}
