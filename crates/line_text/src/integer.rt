ghost use Rattle.std.specs.Prelude.{◌≡◌, ◌↔◌, ◌∷◌, ◌++◌, ◌≤ℤ◌, ℕ, ℤ, negsuc, pos, suc, List, decimal, FitsSigned, IfSome, IfNone, IsTrue};
ghost use Rattle.std.specs.Fmt.{signed_decimal};
ghost use Rattle.std.specs.Int.{w64};
ghost use Rattle.line_text.specs.Spelling.{BeginsOne};

use crate::decimal::{begins_number, number_in};

/// The integer of the range whose canonical decimal the text is: a `-` for those below 0, no other
/// sign, and no zero before other digits. None where there is none.
pub fn integer_in(text: &[u8], least: i64, most: i64) -> Option<i64>
    ensures some { IfSome result (λ z. (least ≤ℤ z) × (z ≤ℤ most) × (text.now ≡ signed_decimal z)) }
    ensures none { IfNone result ((z : ℤ) → least ≤ℤ z → z ≤ℤ most → text.now ≡ signed_decimal z → ⊥) }
{
    let integer = read_i64(text)?;
    if integer < least || most < integer {
        return None;
    }
    Some(integer)
}

/// Whether the canonical decimal of some integer of the range begins with the text, or is it.
pub fn begins_integer(text: &[u8], least: i64, most: i64) -> bool
    requires { least ≤ℤ most }
    ensures { IsTrue result ↔ BeginsOne (λ z. (least ≤ℤ z) × (z ≤ℤ most)) signed_decimal text.now }
{
    match text {
        [] => true,
        [b'-', digits @ ..] => begins_negative(digits, least, most),
        _ => begins_natural(text, least, most),
    }
}

// Whether the digits of some number of the range below 0 begin with these.
fn begins_negative(digits: &[u8], least: i64, most: i64) -> bool
    requires { least ≤ℤ most }
    ensures { IsTrue result ↔ ((n : ℕ) × (rest : List ℕ) × (least ≤ℤ negsuc n) × (negsuc n ≤ℤ most)
        × (decimal (suc n) ≡ digits.now ++ rest)) }
{
    if 0 <= least {
        return false;
    }
    let nearest = if most < 0 { most.unsigned_abs() } else { 1 };
    begins_number(digits, nearest, least.unsigned_abs())
}

// Whether the digits of some number of the range from 0 begin with these.
fn begins_natural(digits: &[u8], least: i64, most: i64) -> bool
    requires { least ≤ℤ most }
    ensures { IsTrue result ↔ ((n : ℕ) × (rest : List ℕ) × (least ≤ℤ pos n) × (pos n ≤ℤ most)
        × (decimal n ≡ digits.now ++ rest)) }
{
    if most < 0 {
        return false;
    }
    begins_number(digits, least.max(0).unsigned_abs(), most.unsigned_abs())
}

// The integer from −2^63 to 2^63 − 1 whose canonical decimal the text is. None where there is none.
fn read_i64(text: &[u8]) -> Option<i64>
    ensures some { IfSome result (λ z. text.now ≡ signed_decimal z) }
    ensures none { IfNone result ((z : ℤ) → FitsSigned w64 z → text.now ≡ signed_decimal z → ⊥) }
{
    match text {
        [b'-', digits @ ..] => read_negative(digits),
        _ => read_natural(text),
    }
}

// The number below 0 whose decimal is a `-` and these digits.
fn read_negative(digits: &[u8]) -> Option<i64>
    ensures some { IfSome result (λ z. 45 ∷ digits.now ≡ signed_decimal z) }
    ensures none { IfNone result ((z : ℤ) → FitsSigned w64 z → 45 ∷ digits.now ≡ signed_decimal z → ⊥) }
{
    let size = number_in(digits, 1, 1 << 63)?;
    Some(-((size - 1) as i64) - 1)
}

// The number from 0 whose decimal is these digits.
fn read_natural(digits: &[u8]) -> Option<i64>
    ensures some { IfSome result (λ z. digits.now ≡ signed_decimal z) }
    ensures none { IfNone result ((n : ℕ) → FitsSigned w64 (pos n) → digits.now ≡ decimal n → ⊥) }
{
    let size = number_in(digits, 0, (1 << 63) - 1)?;
    Some(size as i64)
}
