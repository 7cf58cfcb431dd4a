ghost use Rattle.std.specs.Prelude.{◌≡◌, ◌≤◌};

use c_tree::Kind;

// The kind with this number.
pub fn kind(number: u8) -> Kind
    requires least { 1 ≤ number }
    requires greatest { number ≤ 12 }
    ensures { result ≡ number }
{
    match Kind::from_number(number) {
        Some(kind) => kind,
        None => unreachable!(),
    }
}
