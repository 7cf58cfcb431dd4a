ghost use Rattle.std.specs.Prelude.{◌≡◌, ◌+◌, ◌<◌, ◌^◌, if◌then◌else◌};
ghost use Rattle.text_places.specs.Lines.{first_line, is_feed, last_line, part_before, part_from};

/// The part of a line round a place: at most 60 bytes before it and at most 60 from it on.
#[derive(Clone, Copy)]
pub struct Excerpt<'a> {
    pub before: &'a [u8],
    pub from: &'a [u8],
}

// The place behind the byte where it is a line feed, else the one before.
fn behind_or(b: u8, place: usize, before: usize) -> usize
    requires { place < 2 ^ 63 }
    ensures { result ≡ (if is_feed b then place + 1 else before) }
{
    if b == b'\n' { place + 1 } else { before }
}

// What stands behind the last line feed; all of it where there is none.
fn last_line(bytes: &[u8]) -> &[u8]
    ensures { result.now ≡ last_line bytes.now }
{
    let mut begin = 0;
    for (i, b) in bytes.iter().enumerate() {
        begin = behind_or(*b, i, begin);
    }
    &bytes[begin..]
}

// What stands before the first line feed; all of it where there is none.
fn first_line(bytes: &[u8]) -> &[u8]
    ensures { result.now ≡ first_line bytes.now }
{
    for (i, b) in bytes.iter().enumerate() {
        if *b == b'\n' {
            return &bytes[..i];
        }
    }
    bytes
}

/// The part of the line of a place of the text, from the 60th byte before the place to the 60th byte from the place on, its own
/// byte counted. A place past the text's end has no byte of its own.
pub fn excerpt_at(text: &[u8], place: usize) -> Excerpt<'_>
    ensures before { result.before.now ≡ part_before text.now place }
    ensures from { result.from.now ≡ part_from text.now place }
{
    let (front, rest) = text.split_at(place.min(text.len()));
    let begin = place.saturating_sub(60).min(front.len());
    Excerpt {
        before: last_line(&front[begin..]),
        from: first_line(&rest[..rest.len().min(60)]),
    }
}
