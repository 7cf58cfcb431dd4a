ghost use Rattle.c_values.specs.MemoryLaws.{StoredIsLoaded, OthersAreKept, EndedIsUndefined};

/// An object keeps its last-stored value while it lasts: what was stored is loaded, a store leaves the other objects
/// as they are, and what has ended can neither be loaded nor stored to (C99 6.2.4 paragraph 2). The function does
/// nothing.
pub fn memory_keeps_values()
    ensures stored { StoredIsLoaded }
    ensures others { OthersAreKept }
    ensures ended { EndedIsUndefined }
{}
