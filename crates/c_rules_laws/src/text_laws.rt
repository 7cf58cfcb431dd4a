ghost use Rattle.std.specs.Prelude.{◌≡◌, ℕ, List};
ghost use Rattle.dm_base.specs.declared.mode.Mode.{Mode};
ghost use Rattle.dm_base.specs.declared.mode.Mode.TheVariants.{Plain, Instrumented};
ghost use Rattle.c_tree.specs.Tree.{Program};
ghost use Rattle.c_tree.specs.Program.{IsProgram};
ghost use Rattle.c_rules.specs.Accepted.{IsAcceptedAs};
ghost use Rattle.c_rules_laws.specs.WellTyped.{PartsAreRight};
ghost use Rattle.c_meaning.specs.WithoutNullCalls.{MakesNoNullCall};

use crate::program_laws::a_typed_unit_is_a_program;
use crate::unit_laws::{a_spelled_unit_is_lexical, units_are_well_typed};
use c_lexer::a_text_has_one_list_of_tokens;
use c_rules::{
    a_plain_program_calls_no_null_call, a_plain_unit_is_typed_alike_in_both_modes,
    a_unit_types_one_program,
};
use c_syntax_printing::a_list_of_tokens_has_one_unit;

/// A law on texts: a text is accepted as one program at most in a mode.
pub fn a_text_is_accepted_as_one_program()
    ensures { (text : List ℕ) (m : Mode) (p q : Program) → IsAcceptedAs text m p → IsAcceptedAs text m q → p ≡ q }
{
    a_text_has_one_list_of_tokens();
    a_list_of_tokens_has_one_unit();
    a_unit_types_one_program();
}

/// A law on texts: a text that is accepted in the mode Plain is accepted in the mode Instrumented, as the same
/// program.
pub fn a_plain_text_is_accepted_in_both_modes()
    ensures { (text : List ℕ) (p : Program) → IsAcceptedAs text Plain p → IsAcceptedAs text Instrumented p }
{
    a_plain_unit_is_typed_alike_in_both_modes();
}

/// A law on texts: a program that is accepted in the mode Plain makes no null call.
pub fn a_plain_text_makes_no_null_call()
    ensures { (text : List ℕ) (p : Program) → IsAcceptedAs text Plain p → MakesNoNullCall p }
{
    a_plain_program_calls_no_null_call();
}

/// A law on texts: the structs, the functions and the objects with names of a program that is accepted are those of a
/// well-typed program.
pub fn accepted_texts_are_well_typed()
    ensures { (text : List ℕ) (m : Mode) (p : Program) → IsAcceptedAs text m p → PartsAreRight p }
{
    a_spelled_unit_is_lexical();
    units_are_well_typed();
}

/// A law on texts: a program that is accepted is well-typed, with some number of call expressions.
pub fn accepted_texts_are_programs()
    ensures { (text : List ℕ) (m : Mode) (p : Program) → IsAcceptedAs text m p → (n : ℕ) × IsProgram p n }
{
    a_spelled_unit_is_lexical();
    a_typed_unit_is_a_program();
}
