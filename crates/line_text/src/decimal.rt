ghost use Rattle.std.specs.Prelude.{◌≡◌, ◌↔◌, ◌<◌, ◌≤◌, ◌/◌, ℕ, decimal, IfSome, IfNone, IsTrue};
ghost use Rattle.line_text.specs.Numbers.{IsFrontOf};
ghost use Rattle.line_text.specs.Spelling.{BeginsOne};

use dm_base::read_u64;

/// The number of the range whose canonical decimal the text is: no sign, and no zero before other
/// digits. None where there is none.
pub fn number_in(text: &[u8], least: u64, most: u64) -> Option<u64>
    ensures some { IfSome result (λ n. (least ≤ n) × (n ≤ most) × (text.now ≡ decimal n)) }
    ensures none { IfNone result ((n : ℕ) → least ≤ n → n ≤ most → text.now ≡ decimal n → ⊥) }
{
    let number = read_u64(text)?;
    if number < least || most < number {
        return None;
    }
    Some(number)
}

/// Whether the canonical decimal of some number of the range begins with the text, or is it.
pub fn begins_number(text: &[u8], least: u64, most: u64) -> bool
    requires { least ≤ most }
    ensures { IsTrue result ↔ BeginsOne (λ n. (least ≤ n) × (n ≤ most)) decimal text.now }
{
    if text.is_empty() {
        return true;
    }
    match read_u64(text) {
        Some(0) => least == 0,
        Some(front) => is_front_in(front, least, most),
        None => false,
    }
}

// Whether the decimal of some number of the range begins with that of `front`: the front is in the
// range, or is that of a number without its last digit.
fn is_front_in(front: u64, least: u64, most: u64) -> bool
    requires some { 0 < front }
    requires range { least ≤ most }
    ensures { IsTrue result ↔ ((n : ℕ) × (least ≤ n) × (n ≤ most) × IsFrontOf front n) }
{
    if most < front {
        return false;
    }
    least <= front || is_front_in(front, least / 10, most / 10)
}
