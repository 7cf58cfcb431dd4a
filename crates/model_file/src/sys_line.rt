ghost use Rattle.std.specs.Prelude.{◌≡◌, ◌≢◌, ◌↔◌, ◌≤◌, ◌<◌, ℕ, IsTrue, IfSome, IfNone, Some};
ghost use Rattle.line_text.specs.Reading.{Reads};
ghost use Rattle.line_text.specs.Words.{IsEnd};
ghost use Rattle.sys_table.specs.Table.{recorded_of};
ghost use Rattle.model_file.specs.Bounds.{IsNextSys};
ghost use Rattle.model_file.specs.ModelText.{sys_line};
ghost use Rattle.model_file.specs.SysBounds.{IsAfter, BeginsAt, IsNamed, HasNameAfter, HasEndAfter, HasNumber, IsLeastBelow, IsNextPattern, name_order, end_order, pattern_rest, end_after};
ghost use Rattle.flow_model.specs.Order.{sys_order};
ghost use Rattle.model_file.specs.ModelText.{IsSpelledSys};

use crate::ModelVersion;
use crate::pattern_words::{has_pattern_after, take_pattern};
use crate::words::{MOST, take_number};
use dm_base::SysName;
use flow_model::SysEdge;
use line_text::{Cursor, Miss};
use sys_table::{argument_kinds, take_call_name};

// Takes the line of a system-call edge that goes after the last one.
pub(crate) fn take_sys_line(
    cursor: &mut Cursor,
    version: ModelVersion,
    last: &Option<SysEdge>,
) -> Result<SysEdge, Miss>
    ensures { Reads (IsNextSys version last.now) (sys_line version) cursor.old.rest.now cursor.new.rest.now result }
{
    let least = least_from(version, last);
    if least > MOST {
        return Err(Miss::Wrong);
    }
    cursor.take(b"s ")?;
    let from = take_number(cursor, least, b' ')?;
    let begun = with_from(last, from);
    let name = take_call_name(cursor, least_name(version, &begun))?;
    let named = with_name(&begun, name);
    let to = take_number(cursor, least_to(version, &named), byte_after(version, name))?;
    let ended = with_to(&named, to);
    let args = take_pattern(cursor, version, name, &ended)?;
    Ok(SysEdge {
        from,
        name,
        to,
        args,
    })
}

// The least first node of an edge that may follow.
fn least_from(version: ModelVersion, last: &Option<SysEdge>) -> u64
    ensures { IsLeastBelow 4294967296 (HasNumber (λ e. IsSpelledSys version e × IsAfter sys_order last.now e) (λ e. e.from)) result }
{
    match last {
        Some(edge) => {
            if has_name_after(version, edge) {
                u64::from(edge.from)
            } else {
                u64::from(edge.from) + 1
            }
        }
        None => 0,
    }
}

// The least name, by its number, of an edge that may follow with the first node of the last one.
fn least_name(version: ModelVersion, last: &Option<SysEdge>) -> u8
    ensures { (from : ℕ) → from < 4294967296
        → IsLeastBelow 24 (HasNumber (λ e. BeginsAt version from e × IsAfter name_order last.now e) (λ e. e.name)) result }
{
    match last {
        Some(edge) => {
            if has_end_after(version, edge) {
                edge.name.index()
            } else {
                edge.name.index() + 1
            }
        }
        None => 0,
    }
}

// The least second node of an edge that may follow with the first node and the name of the last one.
fn least_to(version: ModelVersion, last: &Option<SysEdge>) -> u64
    ensures { (from name : ℕ) → IfSome last.now (λ d. d.name ≡ name) → from < 4294967296 → name < 24
        → IsLeastBelow 4294967296 (HasNumber (λ e. IsNamed version from name e × IsAfter end_order last.now e) (λ e. e.to)) result }
{
    match last {
        Some(edge) => {
            if has_pattern_after(version, edge.name, &edge.args) {
                u64::from(edge.to)
            } else {
                u64::from(edge.to) + 1
            }
        }
        None => 0,
    }
}

// Whether some name, second node and pattern go after those of the edge.
fn has_name_after(version: ModelVersion, edge: &SysEdge) -> bool
    ensures { IsTrue result ↔ HasNameAfter version edge.now }
{
    if edge.name.index() < 23 {
        return true;
    }
    has_end_after(version, edge)
}

// Whether, with the same name, some second node and pattern go after those of the edge.
fn has_end_after(version: ModelVersion, edge: &SysEdge) -> bool
    ensures { IsTrue result ↔ HasEndAfter version edge.now }
{
    if edge.to < u32::MAX {
        return true;
    }
    has_pattern_after(version, edge.name, &edge.args)
}

// The last edge, where its first node is this one.
fn with_from(last: &Option<SysEdge>, from: u32) -> Option<SysEdge>
    ensures same { IfSome result (λ d. (last.now ≡ Some d) × (d.from ≡ from)) }
    ensures other { IfNone result (IfSome last.now (λ d. d.from ≢ from)) }
{
    match last {
        Some(edge) if edge.from == from => Some(*edge),
        _ => None,
    }
}

// The last edge, where its name is this one.
fn with_name(last: &Option<SysEdge>, name: SysName) -> Option<SysEdge>
    ensures same { IfSome result (λ d. (last.now ≡ Some d) × (d.name ≡ name)) }
    ensures other { IfNone result (IfSome last.now (λ d. d.name ≢ name)) }
{
    match last {
        Some(edge) if edge.name == name => Some(*edge),
        _ => None,
    }
}

// The last edge, where its second node is this one.
fn with_to(last: &Option<SysEdge>, to: u32) -> Option<SysEdge>
    ensures same { IfSome result (λ d. (last.now ≡ Some d) × (d.to ≡ to)) }
    ensures other { IfNone result (IfSome last.now (λ d. d.to ≢ to)) }
{
    match last {
        Some(edge) if edge.to == to => Some(*edge),
        _ => None,
    }
}

// The byte after the second node.
fn byte_after(version: ModelVersion, name: SysName) -> u8
    ensures value { result ≡ end_after version (recorded_of name) }
    ensures end { IsEnd result }
{
    match version {
        ModelVersion::One => b'\n',
        ModelVersion::Two => {
            if argument_kinds(name).is_empty() {
                b'\n'
            } else {
                b' '
            }
        }
    }
}
