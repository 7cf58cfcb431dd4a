ghost use Rattle.std.specs.Prelude.{◌≡◌, Contains};
ghost use Rattle.flow_model.specs.Order.{StrictlyRise};

use std::cmp::Ordering;

/// Sorts the items, and leaves out those that are there already.
pub fn in_order<T: Ord + Drop>(items: &mut Vec<T>)
    ensures rise { StrictlyRise T.cmp items.new.items }
    ensures from { (x : T) → Contains items.new.items x → Contains items.old.items x }
    ensures all { (x : T) → Contains items.old.items x → (y : T) × Contains items.new.items y × (T.cmp x y ≡ Ordering.Equal) }
{
    items.sort_unstable();
    items.dedup();
}
