ghost use Rattle.std.specs.Prelude.{◌≡◌, [], IfSome, IfNone, drop};
ghost use Rattle.line_text.specs.OneLine.{IsLine};
ghost use Rattle.model_file.specs.Progress.{IsPlace, IsNext};

use line_text::first_line;

/// How far a text was read: where the next line begins, and how many lines stand before it.
#[derive(Clone, Copy, PartialEq, Eq)]
pub struct Place {
    pub byte: usize,
    pub line: u32,
}

/// The line after the place, with its line feed if it has one; the place moves behind it. None at the
/// end of the text.
pub fn next_line<'a>(text: &'a [u8], place: &mut Place) -> Option<&'a [u8]>
    requires { IsPlace text.now place.old }
    ensures place { IsPlace text.now place.new }
    ensures line { IfSome result (λ line. IsLine line.now) }
    ensures some { IfSome result (λ line. IsNext text.now place.old place.new line.now) }
    ensures none { IfNone result (drop place.old.byte text.now ≡ []) }
{
    let left = &text[place.byte..];
    if left.is_empty() {
        return None;
    }
    let (line, _) = first_line(left);
    place.byte += line.len();
    place.line += 1;
    Some(line)
}
