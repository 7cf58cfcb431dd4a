ghost use Rattle.generated_program.specs.Bounds.{GeneratedCallsAreFew, GeneratedCallsDescend, GeneratedProgramsAreSmall};

use c_meaning::open_calls_are_bounded;

/// The law on the numbers of the generated program with the functions f0 to f`last`: it defines main beside them, has two call expressions for
/// each of them, of which one is marked, and its graph has 4 nodes for each number up to `last` and 9 more, so at most 200,000 where `last` is
/// below 500. The function does nothing.
pub fn generated_programs_are_small()
    ensures { GeneratedProgramsAreSmall }
{}

/// The law that each function of the generated program calls functions of lower numbers alone, so that at most as many calls are open at
/// once in a word of its Dyck language as there are functions before main. The function does nothing.
pub fn generated_calls_descend()
    ensures descend { GeneratedCallsDescend }
    ensures few { GeneratedCallsAreFew }
{
    open_calls_are_bounded();
}
