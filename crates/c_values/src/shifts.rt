ghost use Rattle.std.specs.Prelude.{◌≡◌, ◌≤◌, IfOk};
ghost use Rattle.c_values.specs.Ranges.{bits_of_shift};
ghost use Rattle.c_values.specs.Told.{told};

use crate::kinds::kind;
use c_tree::Kind;

// The number of bits of a shift, which is 0 to 31.
pub fn shift_amount(bits: i64) -> Result<u32, Kind>
    ensures amount { told result ≡ bits_of_shift bits }
    ensures few { IfOk result (λ bits. bits ≤ 31) }
{
    if 0 <= bits && bits <= 31 {
        Ok(bits as u32)
    } else {
        Err(kind(3))
    }
}
