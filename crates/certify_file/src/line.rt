ghost use Rattle.std.specs.Prelude.{[]};
ghost use Rattle.line_text.specs.OneLine.{IsLine};
ghost use Rattle.line_text.specs.Reading.{Reads};
ghost use Rattle.certify_file.specs.Lines.{IsCertificateLine, certificate_line};

use crate::fact_line::take_fact_line;
use certify_facts::{FactLine, Judge};
use line_text::{Cursor, Miss};

/// A line of a certificate after the first three.
#[derive(Drop)]
pub enum CertificateLine {
    Fact(FactLine),
    End,
}

/// The line of a certificate after the first three that the whole of this one is.
pub fn read_certificate_line(judge: Judge, line: &[u8]) -> Result<CertificateLine, Miss>
    requires { IsLine line.now }
    ensures { Reads (IsCertificateLine judge) certificate_line line.now [] result }
{
    let mut cursor = Cursor { rest: line };
    take_certificate_line(&mut cursor, judge)
}

// Takes a line of a certificate after the first three.
fn take_certificate_line(cursor: &mut Cursor, judge: Judge) -> Result<CertificateLine, Miss>
    ensures { Reads (IsCertificateLine judge) certificate_line cursor.old.rest.now cursor.new.rest.now result }
{
    match cursor.rest {
        [] => Err(Miss::Short),
        [b'e', ..] => {
            cursor.take(b"end\n")?;
            Ok(CertificateLine::End)
        }
        _ => Ok(CertificateLine::Fact(take_fact_line(cursor, judge)?)),
    }
}
