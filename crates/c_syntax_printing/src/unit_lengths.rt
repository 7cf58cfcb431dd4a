ghost use Rattle.std.specs.Prelude.{◌≤◌, ◌↔◌, IsTrue, length};
ghost use Rattle.c_syntax.specs.Text.{unit_text};
ghost use Rattle.c_syntax.specs.UnitView.{items_of};

use crate::item_lengths::count_item;
use c_syntax::Item;

/// Whether the printed text of a unit with these items (C99 6.9), as `crate::print` makes it, has at most `most` bytes. Nothing is
/// written and no memory is taken. Takes time that is linear in the unit, and none for what stands behind the item in which the text
/// goes past the limit.
pub fn is_within(items: &[Item], most: u32) -> bool
    ensures { IsTrue result ↔ (length (unit_text (items_of items.now)) ≤ most) }
{
    let limit = most as usize;
    let mut total = 0;
    for item in items {
        total = count_item(total, item);
        if limit < total {
            return false;
        }
    }
    true
}
