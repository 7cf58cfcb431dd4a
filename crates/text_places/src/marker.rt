ghost use Rattle.std.specs.Prelude.{◌≡◌, ◌⊎◌, ◌+◌, ◌<◌, ◌≤◌, ◌^◌, IfSome, IfNone, Some, length, nat_eq, if◌then◌else◌, option_map};
ghost use Rattle.std.specs.List.{list_all};
ghost use Rattle.std.specs.Option.{option_copied};
ghost use Rattle.text_places.specs.Markers.{is_blank, is_tail, is_flag, behind_margin, behind, number_of, last_quote, ends_marker, quoted_line, spaced_line, split_line, first_blank, numbered_line, marker_of};
ghost use Rattle.text_places.specs.Locations.{next_line};
ghost use Rattle.text_places.specs.Told.{line_told};

use dm_base::read_u32;

// A line of a file, counted from 1.
#[derive(Clone, Copy)]
pub struct SourceLine<'a> {
    pub file: &'a [u8],
    pub line: u64,
}

// Whether the byte is a blank or a tab.
fn is_blank(b: u8) -> bool
    ensures { result ≡ is_blank b }
{
    b == b' ' || b == b'\t'
}

// What stands behind the blanks and tabs at the front.
fn behind_margin(line: &[u8]) -> &[u8]
    ensures { result.now ≡ behind_margin line.now }
{
    for (i, b) in line.iter().enumerate() {
        if !is_blank(*b) {
            return &line[i..];
        }
    }
    &[]
}

// What stands behind the word, where the bytes begin with it.
fn behind<'a>(word: &[u8], bytes: &'a [u8]) -> Option<&'a [u8]>
    ensures { option_copied result ≡ behind word.now bytes.now }
{
    bytes.strip_prefix(word)
}

// The number from 0 to 4,294,967,295 whose canonical decimal the bytes are.
fn number_of(digits: &[u8]) -> Option<u32>
    ensures { result ≡ number_of digits.now }
{
    match read_u32(digits) {
        Some(number) => Some(number),
        None => None,
    }
}

// The place where the byte is a double quote, else the one before.
fn quote_or(b: u8, place: usize, before: Option<usize>) -> Option<usize>
    ensures { result ≡ (if nat_eq b 34 then Some place else before) }
{
    if b == b'"' { Some(place) } else { before }
}

// Where the last double quote stands.
#[tactic(auto, using(crate::proofs::MarkerLemmas::last_quote_more, crate::proofs::MarkerLemmas::quote_within))]
fn last_quote(bytes: &[u8]) -> Option<usize>
    ensures last { result ≡ last_quote bytes.now }
    ensures within { IfSome result (λ i. i < length bytes.now) }
{
    let mut last = None;
    for (i, b) in bytes.iter().enumerate() {
        last = quote_or(*b, i, last);
    }
    last
}

// Whether the byte is a blank, a tab or a carriage return.
fn is_tail(b: u8) -> bool
    ensures { result ≡ is_tail b }
{
    b == b' ' || b == b'\t' || b == b'\r'
}

// Whether all bytes are blanks, tabs and carriage returns.
fn are_tail(bytes: &[u8]) -> bool
    ensures { result ≡ list_all is_tail bytes.now }
{
    bytes.iter().all(|b| is_tail(*b))
}

// Whether the byte is a digit from 1 to 4.
fn is_flag(b: u8) -> bool
    ensures { result ≡ is_flag b }
{
    b'1' <= b && b <= b'4'
}

// What stands behind a flag with a blank before it, where the bytes begin with these.
#[tactic(auto, using(crate::proofs::MarkerLemmas::short_end, crate::proofs::MarkerLemmas::no_blank_end, crate::proofs::MarkerLemmas::no_flag_end, crate::proofs::MarkerLemmas::flag_end))]
fn behind_flag(bytes: &[u8]) -> Option<&[u8]>
    ensures some { IfSome result (λ more. ends_marker bytes.now ≡ ends_marker more.now) }
    ensures shorter { IfSome result (λ more. length more.now < length bytes.now) }
    ensures none { IfNone result (ends_marker bytes.now ≡ list_all is_tail bytes.now) }
{
    if bytes.len() < 2 {
        return None;
    }
    if bytes[0] != b' ' {
        return None;
    }
    if !is_flag(bytes[1]) {
        return None;
    }
    Some(&bytes[2..])
}

// Whether the bytes are flags, each behind one blank, and then blanks, tabs and carriage returns.
fn ends_marker(bytes: &[u8]) -> bool
    ensures { result ≡ ends_marker bytes.now }
{
    let mut rest = bytes;
    while let Some(more) = behind_flag(rest) {
        rest = more;
    }
    are_tail(rest)
}

// The line that is told, where the bytes behind the first double quote end a line marker with this number.
fn quoted_line(number: u32, bytes: &[u8]) -> Option<SourceLine<'_>>
    ensures told { option_map line_told result ≡ quoted_line number bytes.now }
    ensures small { IfSome result (λ told. told.line < 2 ^ 32) }
{
    let quote = last_quote(bytes)?;
    if !ends_marker(&bytes[quote + 1..]) {
        return None;
    }
    Some(SourceLine {
        file: &bytes[..quote],
        line: u64::from(number),
    })
}

// The line that is told, where the bytes begin with a double quote behind a blank, and end a line marker with this number.
fn spaced_line(number: u32, bytes: &[u8]) -> Option<SourceLine<'_>>
    ensures told { option_map line_told result ≡ spaced_line number bytes.now }
    ensures small { IfSome result (λ told. told.line < 2 ^ 32) }
{
    let quoted = behind(b" \"", bytes)?;
    quoted_line(number, quoted)
}

// The line that is told, where the bytes before the place are the number, and those from it on end the line marker.
fn split_line(bytes: &[u8], place: usize) -> Option<SourceLine<'_>>
    requires { place ≤ length bytes.now }
    ensures told { option_map line_told result ≡ split_line bytes.now place }
    ensures small { IfSome result (λ told. told.line < 2 ^ 32) }
{
    let (digits, rest) = bytes.split_at(place);
    let number = number_of(digits)?;
    spaced_line(number, rest)
}

// Where the first blank stands.
fn first_blank(bytes: &[u8]) -> Option<usize>
    ensures first { result ≡ first_blank bytes.now }
    ensures within { IfSome result (λ i. i < length bytes.now) }
{
    bytes.iter().position(|b| *b == b' ')
}

// The line that is told, where the bytes behind the `# ` are a number, a double quote behind a blank, and so on.
fn numbered_line(bytes: &[u8]) -> Option<SourceLine<'_>>
    ensures told { option_map line_told result ≡ numbered_line bytes.now }
    ensures small { IfSome result (λ told. told.line < 2 ^ 32) }
{
    let place = first_blank(bytes)?;
    split_line(bytes, place)
}

/// The line that a line marker line tells, `# N "NAME"` with blanks or tabs before it, flags from 1 to 4 after it, each behind one
/// blank, and blanks, tabs or carriage returns at the end; N is the canonical decimal of a number below 2^32. None for every
/// other line.
pub fn marker_of(line: &[u8]) -> Option<SourceLine<'_>>
    ensures told { option_map line_told result ≡ marker_of line.now }
    ensures small { IfSome result (λ told. told.line < 2 ^ 32) }
{
    let bytes = behind(b"# ", behind_margin(line))?;
    numbered_line(bytes)
}

/// The line behind a line: the one that it tells where it is a line marker line, else the next one of the same file.
pub fn line_behind<'a>(here: &SourceLine<'a>, line: &'a [u8]) -> SourceLine<'a>
    requires { here.now.line < 2 ^ 63 + 2 ^ 32 }
    ensures next { line_told result ≡ next_line (line_told here.now) line.now }
    ensures small { (result.line < 2 ^ 32) ⊎ (result.line ≡ here.now.line + 1) }
{
    match marker_of(line) {
        Some(told) => told,
        None => SourceLine {
            file: here.file,
            line: here.line + 1,
        },
    }
}
