ghost use Rattle.c_syntax.specs.UnitView.{items_of};
ghost use Rattle.c_syntax.specs.Spelling.{IsUnit};

use crate::tree::Item;

/// A unit (C99 6.9). Some list of tokens spells it, apart from places, within the limits of the mode Instrumented.
#[derive(Drop)]
pub struct Unit {
    /// What stands at file scope, in order.
    pub items: Vec<Item>,
    pub ghost spelled: { ∥ IsUnit (items_of items.items) ∥₁ },
}
