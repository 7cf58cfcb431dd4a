ghost use Rattle.c_syntax_printing.specs.Laws.{SpelledUnitsAreWritable, WritableUnitsAreReadBack, WritableUnitsAreUnits};

/// A law on units: what tokens spell has only names, constants, strings and operators that some text spells.
pub fn spelled_units_are_writable()
    ensures { SpelledUnitsAreWritable }
{}

/// A law on units: the printed text of a unit that can be written is read back as the same unit, apart from places.
pub fn writable_units_are_read_back()
    ensures { WritableUnitsAreReadBack }
{}

/// A law on units: such a unit is one that some tokens spell, apart from places, whatever the length of its text.
pub fn writable_units_are_units()
    ensures { WritableUnitsAreUnits }
{}
