ghost use Rattle.std.specs.Prelude.{◌≡◌, ◌<◌, ◌++◌, All, length, map, unwrap_or, codes, IfOk};
ghost use Rattle.c_syntax.specs.SeenNames.{seen};
ghost use Rattle.c_rules.specs.Limits.{most_cells};
ghost use Rattle.c_rules.specs.Names.{number_among};
ghost use Rattle.c_rules.specs.Units.{static_string};
ghost use Rattle.c_check_values.specs.View.{before_of, env_of};
ghost use Rattle.c_tree.specs.Program.{IsProgram};
ghost use Rattle.c_tree.specs.View.{program_of, static_of};
ghost use Rattle.c_check_units.specs.Made.{output_of, program_made};

use crate::strings::static_string;
use crate::structs::{cells_of_structs, structs_of};
use c_check_values::{Before, Environment};
use c_tree::{Function, Program, Static};
use dm_base::OutOfMemory;
use std::alloc::Global;

/// The number of `main` among the functions that the unit defines, or 0 where it isn't among them.
pub fn main_number(env: &Environment<'_>) -> u32
    ensures { result ≡ unwrap_or (number_among (env_of env.now).whole.functions (codes "main")) 0 }
{
    match env.defined_functions.number(b"main") {
        Some(number) => number,
        None => 0,
    }
}

// Static objects, and strings behind them.
fn statics_with(
    alloc: Global,
    objects: Vec<Static>,
    strings: &[&[u8]],
) -> Result<Vec<Static>, OutOfMemory>
    requires { All (λ w. length w < most_cells) (seen strings.now) }
    ensures { IfOk result (λ statics. map static_of statics.items ≡ map static_of objects.items ++ map static_string (seen strings.now)) }
{
    let mut statics = objects;
    for bytes in strings {
        let string = static_string(alloc, bytes)?;
        statics.push(string)?;
    }
    Ok(statics)
}

/// The program with these functions, this number of `main` and these static objects, where this is known and stands before behind all items.
pub fn program_with(
    alloc: Global,
    env: &Environment<'_>,
    before: &Before<'_>,
    defined: Vec<Function>,
    number: u32,
    objects: Vec<Static>,
) -> Result<Program, OutOfMemory>
    requires counted { length (env_of env.now).structs ≡ length env.now.struct_tags }
    requires typed { IsProgram (program_made (env_of env.now) (before_of before.now) (output_of defined.items objects.items) number) before.now.sites }
    ensures { IfOk result (λ p. program_of p ≡ program_made (env_of env.now) (before_of before.now) (output_of defined.items objects.items) number) }
{
    let structs = structs_of(alloc, env)?;
    let struct_cells = cells_of_structs(alloc, env)?;
    let statics = statics_with(alloc, objects, before.strings())?;
    match before.sites().number() {
        Some(sites) => Ok(Program::of(structs, defined, number, statics, sites, struct_cells)),
        None => unreachable!(),
    }
}
