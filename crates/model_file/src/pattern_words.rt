ghost use Rattle.std.specs.Prelude.{◌≡◌, ◌≢◌, ◌↔◌, ◌≤◌, ◌≤ℤ◌, ◌+◌, ◌∷◌, ℕ, List, Option, ℤ, length, IsTrue, IfSome, IfNone, IfOk, None, Some, slice_get};
ghost use Rattle.line_text.specs.Reading.{Reads};
ghost use Rattle.line_text.specs.Words.{IsEnd, integer_word};
ghost use Rattle.std.specs.Option.{option_cmp, option_map};
ghost use Rattle.model_file.specs.declared.version.ModelVersion.TheVariants.{One, Two};
ghost use Rattle.std.specs.Ordering.{int_cmp};
ghost use Rattle.std.specs.declared.cmp.Ordering.TheVariants.{Less};
ghost use Rattle.sys_table.specs.Table.{FitsEntry, FitsNumber};
ghost use Rattle.sys_table.specs.declared.kinds.ArgKind.{ArgKind};
ghost use Rattle.model_file.specs.SysBounds.{HasPatternAfter, IsNextPattern, pattern_rest, end_after, AreEntries, HasEntriesAfter, HasEntryAfter, IsFrom, entry_word, entries_words};

use crate::ModelVersion;
use dm_base::{Pattern, SysName};
use flow_model::SysEdge;
use line_text::{Cursor, Miss};
use sys_table::{ArgKind, argument_kinds};

// Takes the pattern of a system-call edge whose other parts are those of the last one, where there is
// one. In version 1 it has no text.
pub(crate) fn take_pattern(
    cursor: &mut Cursor,
    version: ModelVersion,
    name: SysName,
    last: &Option<SysEdge>,
) -> Result<Pattern, Miss>
    ensures { Reads (IsNextPattern version name last.now) (pattern_rest version) cursor.old.rest.now cursor.new.rest.now result }
{
    match version {
        ModelVersion::One => plain_pattern(name, last),
        ModelVersion::Two => take_entries(cursor, argument_kinds(name), &args_of(last), 0),
    }
}

// The pattern of version 1 for the call, where it goes after that of the last edge.
fn plain_pattern(name: SysName, last: &Option<SysEdge>) -> Result<Pattern, Miss>
    ensures { (rest : List ℕ) → Reads (IsNextPattern One name last.now) (pattern_rest One) rest rest result }
{
    let plain = Pattern::any(argument_kinds(name).len() as u8);
    match last {
        Some(edge) => {
            if edge.args < plain {
                Ok(plain)
            } else {
                Err(Miss::Wrong)
            }
        }
        None => Ok(plain),
    }
}

// The pattern of the edge.
fn args_of(edge: &Option<SysEdge>) -> Option<Pattern>
    ensures { result ≡ option_map (λ d. d.args) edge.now }
{
    match edge {
        Some(edge) => Some(edge.args),
        None => None,
    }
}

// Takes entries of the kinds that go after those of the last pattern from the place on, where there is
// one.
fn take_entries(
    cursor: &mut Cursor,
    kinds: &[ArgKind],
    last: &Option<Pattern>,
    place: u8,
) -> Result<Pattern, Miss>
    requires { place + length kinds.now ≤ 3 }
    ensures reads { Reads (AreEntries kinds.now last.now place) entries_words cursor.old.rest.now cursor.new.rest.now result }
    ensures length { IfOk result (λ p. length p ≡ length kinds.now) }
{
    let [kind, others @ ..] = kinds else {
        return match last {
            Some(_) => Err(Miss::Wrong),
            None => Ok(Pattern::any(0)),
        };
    };
    let end = byte_before(others);
    let entry = take_entry(cursor, *kind, least_entry(others, last, place), end)?;
    let rest = take_entries(cursor, others, &with_entry(last, place, entry), place + 1)?;
    Ok(joined(entry, &rest))
}

// The byte before entries of the kinds.
fn byte_before(kinds: &[ArgKind]) -> u8
    ensures value { result ≡ end_after Two kinds.now }
    ensures end { IsEnd result }
{
    if kinds.is_empty() { b'\n' } else { b' ' }
}

// The least entry at the place that some entries of the kinds may follow.
fn least_entry(others: &[ArgKind], last: &Option<Pattern>, place: u8) -> Option<i64>
    requires { place + length others.now ≤ 2 }
    ensures { (kind : ArgKind) (x : Option ℤ) → FitsEntry kind x
        → (IsFrom result x ↔ ((es : List (Option ℤ)) × AreEntries (kind ∷ others.now) last.now place (x ∷ es))) }
{
    let Some(pattern) = last else {
        return None;
    };
    if place >= pattern.count() {
        return None;
    }
    let entry = pattern.get(place);
    if has_entries_after(others, pattern, place + 1) {
        entry
    } else {
        next_entry(entry)
    }
}

// The last pattern, where it has the entry at the place.
fn with_entry(last: &Option<Pattern>, place: u8, entry: Option<i64>) -> Option<Pattern>
    ensures same { IfSome result (λ d. (last.now ≡ Some d) × (slice_get d place ≡ Some entry)) }
    ensures other { IfNone result (IfSome last.now (λ d. slice_get d place ≢ Some entry)) }
{
    let Some(pattern) = last else {
        return None;
    };
    if place < pattern.count() && pattern.get(place) == entry {
        Some(*pattern)
    } else {
        None
    }
}

// The entry and those after it.
fn joined(entry: Option<i64>, rest: &Pattern) -> Pattern
    requires { length rest.now ≤ 2 }
    ensures { result ≡ entry ∷ rest.now }
{
    let mut pattern = Pattern::any(rest.count() + 1);
    if let Some(number) = entry {
        pattern.set(0, number);
    }
    for i in 0..rest.count() {
        if let Some(number) = rest.get(i) {
            pattern.set(i + 1, number);
        }
    }
    pattern
}

// Takes an entry of the kind that does not go before the least one, and the byte `end` after it.
fn take_entry(
    cursor: &mut Cursor,
    kind: ArgKind,
    least: Option<i64>,
    end: u8,
) -> Result<Option<i64>, Miss>
    requires { IsEnd end }
    ensures { Reads (λ x. FitsEntry kind x × IsFrom least x) (entry_word end) cursor.old.rest.now cursor.new.rest.now result }
{
    match least {
        Some(_) => Ok(Some(take_integer(cursor, kind, least, end)?)),
        None => take_first_entry(cursor, kind, end),
    }
}

// Takes an entry of the kind, and the byte `end` after it.
fn take_first_entry(cursor: &mut Cursor, kind: ArgKind, end: u8) -> Result<Option<i64>, Miss>
    requires { IsEnd end }
    ensures { Reads (FitsEntry kind) (entry_word end) cursor.old.rest.now cursor.new.rest.now result }
{
    let [first, ..] = cursor.rest else {
        return Err(Miss::Short);
    };
    if *first == b'*' {
        take_any(cursor, end)?;
        Ok(None)
    } else {
        Ok(Some(take_integer(cursor, kind, None, end)?))
    }
}

// Takes a number of the kind that does not go before the least entry, and the byte `end` after it.
fn take_integer(
    cursor: &mut Cursor,
    kind: ArgKind,
    least: Option<i64>,
    end: u8,
) -> Result<i64, Miss>
    requires { IsEnd end }
    ensures { Reads (λ z. FitsNumber kind z × IsFrom least (Some z)) (integer_word end) cursor.old.rest.now cursor.new.rest.now result }
{
    let Some(numbers) = numbers_from(kind, least) else {
        return Err(Miss::Wrong);
    };
    cursor.integer(numbers.first, numbers.last, end)
}

// Takes `*` and the byte `end` after it.
fn take_any(cursor: &mut Cursor, end: u8) -> Result<(), Miss>
    requires { IsEnd end }
    ensures { Reads (λ _. Unit {0}) (λ _. entry_word end None) cursor.old.rest.now cursor.new.rest.now result }
{
    if end == b' ' {
        cursor.take(b"* ")
    } else {
        cursor.take(b"*\n")
    }
}

// Whether a pattern for the call goes after this one.
pub(crate) fn has_pattern_after(version: ModelVersion, name: SysName, args: &Pattern) -> bool
    ensures { IsTrue result ↔ HasPatternAfter version name args.now }
{
    let kinds = argument_kinds(name);
    match version {
        ModelVersion::One => *args < Pattern::any(kinds.len() as u8),
        ModelVersion::Two => has_entries_after(kinds, args, 0),
    }
}

// Whether some entries of these kinds go after those of the pattern from the place on.
fn has_entries_after(kinds: &[ArgKind], pattern: &Pattern, place: u8) -> bool
    requires { place + length kinds.now ≤ 3 }
    ensures { IsTrue result ↔ HasEntriesAfter kinds.now pattern.now place }
{
    let [kind, others @ ..] = kinds else {
        return false;
    };
    if place >= pattern.count() {
        return true;
    }
    let entry = pattern.get(place);
    if is_entry_after(*kind, entry) {
        return true;
    }
    kind_fits(*kind, entry) && has_entries_after(others, pattern, place + 1)
}

// Whether an entry of the kind goes after this one.
fn is_entry_after(kind: ArgKind, entry: Option<i64>) -> bool
    ensures { IsTrue result ↔ HasEntryAfter kind entry }
{
    match numbers_from(kind, next_entry(entry)) {
        Some(_) => true,
        None => false,
    }
}

// The least entry that goes after this one. Where it is the greatest number, no argument is past it.
fn next_entry(entry: Option<i64>) -> Option<i64>
    ensures { (kind : ArgKind) (x : Option ℤ) → FitsEntry kind x → (IsFrom result x ↔ (option_cmp int_cmp entry x ≡ Less)) }
{
    match entry {
        Some(number) => Some(number.saturating_add(1)),
        None => Some(i64::MIN),
    }
}

// The numbers of a kind that may stand, from the first to the last.
#[derive(Clone, Copy)]
struct Numbers {
    first: i64,
    last: i64,
}

// The numbers of the kind that do not go before the least entry, where there are any.
fn numbers_from(kind: ArgKind, least: Option<i64>) -> Option<Numbers>
    ensures some { IfSome result (λ r. r.first ≤ℤ r.last) }
    ensures range { IfSome result (λ r. (z : ℤ) → ((r.first ≤ℤ z) × (z ≤ℤ r.last)) ↔ (FitsNumber kind z × IsFrom least (Some z))) }
    ensures none { IfNone result ((z : ℤ) → FitsNumber kind z → IsFrom least (Some z) → ⊥) }
{
    let (first, last) = match kind {
        ArgKind::Signed => (-2_147_483_648, 2_147_483_647),
        ArgKind::Unsigned => (0, 4_294_967_295),
        ArgKind::Bytes => return None,
    };
    let first = match least {
        Some(number) if number > first => number,
        _ => first,
    };
    if first <= last {
        Some(Numbers { first, last })
    } else {
        None
    }
}

// Whether the entry is one for the kind.
fn kind_fits(kind: ArgKind, entry: Option<i64>) -> bool
    ensures { IsTrue result ↔ FitsEntry kind entry }
{
    match entry {
        Some(number) => kind.fits_number(number),
        None => true,
    }
}
