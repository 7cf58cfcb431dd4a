ghost use Rattle.std.specs.Prelude.{◌++◌, IsTrue};
ghost use Rattle.line_text.specs.Reading.{Reads};
ghost use Rattle.line_text.specs.Words.{IsEnd, number_word};
ghost use Rattle.certify_file.specs.CertificateText.{IsSmall};
ghost use Rattle.certify_file.specs.Lines.{AreSmall, has_no_feed, pair_word};

use line_text::{Cursor, Miss};

/// Takes a number from 0 to 2^32 − 1, and the byte `end` after it.
pub fn take_number(cursor: &mut Cursor, end: u8) -> Result<u32, Miss>
    requires { IsEnd end }
    ensures { Reads IsSmall (number_word end) cursor.old.rest.now cursor.new.rest.now result }
{
    let number = cursor.number(0, 4_294_967_295, end)?;
    Ok(number as u32)
}

/// Takes two numbers with a space between them, and the byte `end` after the second.
pub fn take_pair(cursor: &mut Cursor, end: u8) -> Result<(u32, u32), Miss>
    requires { IsEnd end }
    ensures { Reads AreSmall (pair_word end) cursor.old.rest.now cursor.new.rest.now result }
{
    let first = take_number(cursor, b' ')?;
    let second = take_number(cursor, end)?;
    Ok((first, second))
}

/// Takes a word with its space, a number, and the byte `end` after it.
pub fn take_labelled(cursor: &mut Cursor, label: &[u8], end: u8) -> Result<u32, Miss>
    requires label { IsTrue (has_no_feed label.now) }
    requires end { IsEnd end }
    ensures { Reads IsSmall (λ n. label.now ++ number_word end n) cursor.old.rest.now cursor.new.rest.now result }
{
    cursor.take(label)?;
    take_number(cursor, end)
}

/// Takes a word with its space, two numbers with a space between them, and the byte `end` after the
/// second.
pub fn take_labelled_pair(cursor: &mut Cursor, label: &[u8], end: u8) -> Result<(u32, u32), Miss>
    requires label { IsTrue (has_no_feed label.now) }
    requires end { IsEnd end }
    ensures { Reads AreSmall (λ p. label.now ++ pair_word end p) cursor.old.rest.now cursor.new.rest.now result }
{
    cursor.take(label)?;
    take_pair(cursor, end)
}
