ghost use Rattle.null_calls_laws.specs.OtherItems.{OtherItemsGo};

/// A law on the rules: where the file scope of an instrumented unit is beside that of the plain one, a struct, an enum, a tag, a static
/// object and a prototype that are fine in the plain unit are so in the instrumented one and give the same, and the scopes behind them
/// are beside each other (C99 6.7, 6.9.2).
pub fn other_items_go()
    ensures { OtherItemsGo }
{}
