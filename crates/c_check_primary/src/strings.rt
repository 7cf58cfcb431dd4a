ghost use Rattle.std.specs.Prelude.{◌≡◌, ◌+◌, ◌≤◌, ◌<◌, ◌^◌, length, IfOk};
ghost use Rattle.c_check_values.specs.Agreement.{AgreesWith};
ghost use Rattle.c_check_values.specs.TypedExpressionView.{typed_expression_of};
ghost use Rattle.c_rules.specs.Checked.{met};
ghost use Rattle.c_rules.specs.Constants.{address_of_static};
ghost use Rattle.c_rules.specs.Limits.{most_cells};
ghost use Rattle.c_rules.specs.TypedExpression.{a_place, known};
ghost use Rattle.c_rules.specs.PrimaryExpressions.{most_cells_in, string_fits, string_number, string_expression};
ghost use Rattle.c_check_values.specs.View.{before_of, context_of, env_of};
ghost use Rattle.c_tree.specs.Tree.{array, integer, string_place};
ghost use Rattle.c_tree.specs.View.{ctype_of};
ghost use Rattle.c_tree.specs.declared.value.IntType.TheVariants.{Char};

use c_check_values::{
    Before, C13, CheckError, Constant, Context, Environment, Form, TypedExpression,
    address_of_static,
};
use c_tree::{CType, IntType, TExpr, TExprKind};
use dm_base::OutOfMemory;
use dm_counts::Count;
use std::alloc::Global;

// The limit on the cells of strings, in a context.
fn most_cells_in(context: Context) -> u32
    ensures is { result ≡ most_cells_in (context_of context) }
    ensures few { result ≤ 2 ^ 31 }
{
    match context {
        Context::Evaluated => 1_048_576,
        Context::Sized | Context::Folded => 2_147_483_648,
    }
}

// The limit on all strings, where so many cells stand before one with so many.
fn strings_fit(context: Context, at: u32, before: &Count, cells: u32) -> Result<(), CheckError>
    requires { cells ≤ 65536 }
    ensures judged { AgreesWith (λ _. met) result (string_fits (context_of context) at before.now cells) }
    ensures few { IfOk result (λ _. before.now + cells ≤ 2 ^ 31) }
{
    let Some(number) = before.number() else {
        return Err(CheckError::At(C13, at));
    };
    let Some(sum) = number.checked_add(cells) else {
        return Err(CheckError::At(C13, at));
    };
    if sum > most_cells_in(context) {
        return Err(CheckError::At(C13, at));
    }
    Ok(())
}

// The type of a string of so many cells, its zero among them (C99 6.4.5 paragraph 5).
fn string_type(alloc: Global, cells: u32) -> Result<CType, OutOfMemory>
    ensures { IfOk result (λ t. ctype_of t ≡ array (integer Char) cells) }
{
    Ok(CType::Array(Box::new(alloc, CType::Int(IntType::Char))?, cells))
}

// The number of the next string among the statics.
fn string_number(env: &Environment<'_>, before: &Before<'_>) -> u32
    requires { (before_of before.now).cells < 2 ^ 31 }
    ensures { result ≡ string_number (env_of env.now) (before_of before.now) }
{
    env.objects.len() as u32 + before.string_count() as u32
}

// A string with so many cells, its zero among them; it designates a static array (C99 6.4.5 paragraph 5).
fn typed_string(alloc: Global, number: u32, cells: u32) -> Result<TypedExpression, OutOfMemory>
    ensures { IfOk result (λ g. typed_expression_of g ≡ record { ctype = array (integer Char) cells; form = a_place (string_place (array (integer Char) cells) number); constant = known (address_of_static number cells) }) }
{
    let ctype = string_type(alloc, cells)?;
    let copied = string_type(alloc, cells)?;
    Ok(TypedExpression {
        ctype,
        form: Form::Place(TExpr {
            ctype: copied,
            kind: TExprKind::StringPlace(number),
        }),
        constant: Constant::Known(address_of_static(number, cells)),
    })
}

/// A string (C99 6.4.5).
pub fn string_expression(
    alloc: Global,
    env: &Environment<'_>,
    before: &Before<'_>,
    at: u32,
    bytes: &[u8],
) -> Result<TypedExpression, CheckError>
    ensures judged { AgreesWith typed_expression_of result (string_expression (env_of env.now) (before_of before.now) at bytes.now) }
    ensures short { IfOk result (λ _. length bytes.now < most_cells) }
{
    if bytes.len() >= 65_536 {
        return Err(CheckError::At(C13, at));
    }
    let cells = bytes.len() as u32 + 1;
    strings_fit(env.context, at, before.cells(), cells)?;
    let number = string_number(env, before);
    Ok(typed_string(alloc, number, cells)?)
}
