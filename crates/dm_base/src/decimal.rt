ghost use Rattle.std.specs.Prelude.{◌≡◌, ◌≢◌, ◌↔◌, ◌^◌, ◌<◌, ℕ, length, slice_index, decimal, IfSome, IfNone, IsTrue};

/// The number from 0 to 4,294,967,295 that a canonical decimal stands for: no sign, and no zero
/// before other digits. None for every other text.
pub fn read_u32(text: &[u8]) -> Option<u32>
    ensures some { IfSome result (λ n. text.now ≡ decimal n) }
    ensures none { IfNone result ((n : ℕ) → n < 2 ^ 32 → text.now ≡ decimal n → ⊥) }
{
    let number = read_u64(text)?;
    if number > u32::MAX as u64 {
        return None;
    }
    Some(number as u32)
}

/// The number below 2^64 that a canonical decimal stands for. None for every other text.
pub fn read_u64(text: &[u8]) -> Option<u64>
    ensures some { IfSome result (λ n. text.now ≡ decimal n) }
    ensures none { IfNone result ((n : ℕ) → n < 2 ^ 64 → text.now ≡ decimal n → ⊥) }
{
    if !begins_plainly(text) {
        return None;
    }
    match str::from_utf8(text) {
        Ok(digits) => digits.parse().ok(),
        Err(_) => None,
    }
}

// Whether the text begins with no plus sign, and with no zero before other bytes.
fn begins_plainly(text: &[u8]) -> bool
    ensures { IsTrue result
        ↔ ((slice_index text.now 0 ≢ 43) × (slice_index text.now 0 ≡ 48 → length text.now ≡ 1)) }
{
    match text {
        [b'+', ..] => false,
        [b'0', _, ..] => false,
        _ => true,
    }
}
