ghost use Rattle.std.specs.Prelude.{◌≡◌, ◌++◌, ◌<◌, ◌^◌, nat_le, IfOk, SomeIff};
ghost use Rattle.c_check_values.specs.Agreement.{AgreesWith};
ghost use Rattle.c_rules.specs.Checked.{demand};
ghost use Rattle.c_rules.specs.Limits.{most_local_cells};
ghost use Rattle.c_rules.specs.Scopes.{layout_of};
ghost use Rattle.c_check_values.specs.View.{env_of};
ghost use Rattle.c_tree.specs.Layout.{cells_of_all};
ghost use Rattle.c_tree.specs.Tree.{block, list_of};
ghost use Rattle.c_tree.specs.View.{ctype_of, ctypes_of, function_of, stmts_of, types_of};

use c_check_values::{C13, CheckError, Environment};
use c_syntax::Ident;
use c_tree::{CType, Function, TStmt, copy_types};
use dm_base::{Bytes, Mode, OutOfMemory};
use std::alloc::Global;

// The cells of objects of these types together, where these are fewer than 2^32.
fn cells_of_types(env: &Environment<'_>, types: &[CType]) -> Option<u32>
    ensures { SomeIff result (cells_of_all (layout_of (env_of env.now)) (ctypes_of types.now) < 2 ^ 32) (cells_of_all (layout_of (env_of env.now)) (ctypes_of types.now)) }
{
    let mut sum = 0u32;
    for t in types {
        let own = env.cells(t)?;
        sum = sum.checked_add(own)?;
    }
    Some(sum)
}

// How many cells the variables of a function may have.
fn most_local_cells(mode: Mode) -> u32
    ensures { result ≡ most_local_cells mode }
{
    match mode {
        Mode::Plain => 65536,
        Mode::Instrumented => 262144,
    }
}

/// The types of the variables of a function: its parameters, the others, and those of the instrumenter.
pub fn variables_of(
    alloc: Global,
    parameters: &[CType],
    plain: Vec<CType>,
    added: Vec<CType>,
) -> Result<Vec<CType>, OutOfMemory>
    ensures { IfOk result (λ v. ctypes_of v.items ≡ list_of (types_of parameters.now) ++ (ctypes_of plain.items ++ ctypes_of added.items)) }
{
    let mut variables = copy_types(alloc, parameters)?;
    let mut plain = plain;
    let mut added = added;
    variables.append(&mut plain)?;
    variables.append(&mut added)?;
    Ok(variables)
}

/// A function with these variables and this body, with the limit on the cells of its variables (C99 5.2.4.1).
pub fn function_with(
    alloc: Global,
    env: &Environment<'_>,
    x: &Ident,
    ctype: CType,
    variables: Vec<CType>,
    tree: Vec<TStmt>,
) -> Result<Function, CheckError>
    ensures { AgreesWith function_of result (demand (nat_le (cells_of_all (layout_of (env_of env.now)) (ctypes_of variables.items)) (most_local_cells env.now.mode)) 13 x.now.at
        (record { name = x.now.name; ctype = ctype_of ctype; variables = ctypes_of variables.items; body = block (stmts_of tree.items) })) }
{
    let Some(cells) = cells_of_types(env, &variables) else {
        return Err(CheckError::At(C13, x.at));
    };
    if cells > most_local_cells(env.mode) {
        return Err(CheckError::At(C13, x.at));
    }
    let name = Bytes::of(alloc, x.name.as_slice())?;
    Ok(Function {
        name,
        ctype,
        variables,
        body: TStmt::Block(tree),
    })
}
