ghost use Rattle.generated_program.specs.Accepted.{GeneratedTextsAreAccepted};

use c_rules_laws::units_are_typed_alike_apart_from_places;
use c_syntax_printing::writable_units_are_read_back;

/// The law on the text of the generated program with the functions f0 to f`last`, where `last` is below 500: its tokens spell a unit within
/// the limits of a plain text, no demand of the rules on it fails, and the program that it is typed as is the generated program in closed
/// form. The function does nothing.
pub fn generated_texts_are_accepted()
    ensures { GeneratedTextsAreAccepted }
{
    writable_units_are_read_back();
    units_are_typed_alike_apart_from_places();
}
