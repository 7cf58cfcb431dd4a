ghost use Rattle.std.specs.Prelude.{◌≡◌, ◌∷◌, [], ◌++◌, OnOk};
ghost use Rattle.std.specs.Result.{result_map_both};
ghost use Rattle.line_text.specs.Reading.{Reads};
ghost use Rattle.model_file.specs.Bounds.{IsLeast, IsNextCall};
ghost use Rattle.model_file.specs.Lines.{IsAfterSite};
ghost use Rattle.model_file.specs.ModelText.{call_line};
ghost use Rattle.model_file.specs.Words.{AreCandidates, IsCallEnd, call_end, numbers_text};

use crate::words::{MOST, has_space, take_lower_number, take_number};
use dm_base::OutOfMemory;
use flow_model::CallEdge;
use line_text::{Cursor, Miss};
use std::alloc::Global;

// Takes the line of a call edge whose site is greater than the last one.
pub(crate) fn take_call_line(
    alloc: Global,
    cursor: &mut Cursor,
    last: Option<u32>,
) -> Result<CallEdge, Miss>
    ensures { Reads (IsNextCall last) call_line cursor.old.rest.now cursor.new.rest.now result }
{
    let least = least_site(last);
    if least > MOST {
        return Err(Miss::Wrong);
    }
    cursor.take(b"c ")?;
    let from = take_number(cursor, 0, b' ')?;
    let site = take_number(cursor, least, b' ')?;
    take_call_end(alloc, cursor, from, site)
}

// The least site of a call edge that may follow.
fn least_site(last: Option<u32>) -> u64
    ensures { IsLeast (IsAfterSite last) result }
{
    match last {
        Some(site) => u64::from(site) + 1,
        None => 0,
    }
}

// Takes the line of a call edge with these numbers from its second node on.
fn take_call_end(alloc: Global, cursor: &mut Cursor, from: u32, site: u32) -> Result<CallEdge, Miss>
    ensures { Reads (IsCallEnd from site) call_end cursor.old.rest.now cursor.new.rest.now result }
{
    if has_space(cursor.rest) {
        let to = take_number(cursor, 0, b' ')?;
        let candidates = take_candidates(alloc, cursor)?;
        Ok(CallEdge::new(from, site, to, candidates))
    } else {
        let to = take_number(cursor, 0, b'\n')?;
        Ok(CallEdge::new(from, site, to, Vec::new(alloc)))
    }
}

// Takes candidates, at least one, and the line feed after the last.
fn take_candidates(alloc: Global, cursor: &mut Cursor) -> Result<Vec<u32>, Miss>
    ensures { Reads AreCandidates numbers_text cursor.old.rest.now cursor.new.rest.now
        (result_map_both (λ v. v.items) (λ miss. miss) result) }
{
    let mut candidates = Vec::new(alloc);
    let mut least = 0;
    while has_space(cursor.rest) {
        let number = take_lower_number(cursor, least)?;
        push(&mut candidates, number)?;
        least = u64::from(number) + 1;
    }
    let number = take_number(cursor, least, b'\n')?;
    push(&mut candidates, number)?;
    Ok(candidates)
}

// Adds the number at the end.
fn push(numbers: &mut Vec<u32>, number: u32) -> Result<(), OutOfMemory>
    ensures { OnOk result (numbers.new.items ≡ numbers.old.items ++ number ∷ []) }
{
    numbers.push(number)?;
    Ok(())
}
