ghost use Rattle.std.specs.Prelude.{◌≤◌, ◌≡◌, ◌↔◌, IsTrue};
ghost use Rattle.line_text.specs.Reading.{Reads};
ghost use Rattle.line_text.specs.Words.{IsEnd, number_word};
ghost use Rattle.model_file.specs.ModelText.{IsSmall};
ghost use Rattle.model_file.specs.Words.{HasSpace};

use line_text::{Cursor, Miss};

// The greatest number that a line may hold.
pub(crate) const MOST: u64 = u32::MAX as u64;

// Takes a number from `least` up, and the byte `end` after it.
pub(crate) fn take_number(cursor: &mut Cursor, least: u64, end: u8) -> Result<u32, Miss>
    requires { IsEnd end }
    ensures { Reads (λ n. (least ≤ n) × IsSmall n) (number_word end) cursor.old.rest.now cursor.new.rest.now result }
{
    if least > MOST {
        return Err(Miss::Wrong);
    }
    let number = cursor.number(least, MOST, end)?;
    Ok(number as u32)
}

// Takes a number from `least` up after which a greater one may stand, and the space after it.
pub(crate) fn take_lower_number(cursor: &mut Cursor, least: u64) -> Result<u32, Miss>
    ensures { Reads (λ n. (least ≤ n) × (n ≤ 4294967294)) (number_word 32) cursor.old.rest.now cursor.new.rest.now result }
{
    if least >= MOST {
        return Err(Miss::Wrong);
    }
    let number = cursor.number(least, MOST - 1, b' ')?;
    Ok(number as u32)
}

// Whether the first byte that ends a word is a space.
pub(crate) fn has_space(text: &[u8]) -> bool
    ensures { IsTrue result ↔ HasSpace text.now }
{
    let mut cursor = Cursor { rest: text };
    match cursor.word(b' ') {
        Ok(_) => true,
        Err(_) => false,
    }
}
