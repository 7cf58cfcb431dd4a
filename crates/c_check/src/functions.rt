ghost use Rattle.std.specs.Prelude.{◌≡◌, true, Some, OnOk, IfOk};
ghost use Rattle.c_check_units.specs.Numbered.{HaveNumbers, next_of};
ghost use Rattle.c_check_units.specs.Agreement.{AgreesWith};
ghost use Rattle.c_check_statements.specs.StatementTreeView.{statement_trees_of};
ghost use Rattle.c_check_units.specs.OutputView.{output_of};
ghost use Rattle.c_rules.specs.Blocks.{held_by_block};
ghost use Rattle.c_rules.specs.Checked.{both, demand, fine, gives, met};
ghost use Rattle.c_rules.specs.Counts.{past};
ghost use Rattle.c_rules.specs.Declarators.{name_of, place_or};
ghost use Rattle.c_rules.specs.Expressions.{type_declared};
ghost use Rattle.c_rules.specs.Functions.{are_named, body_env, body_numbers, body_of, declares_function, defined_as, few_variables, function_declared, function_laid, held_by_type, held_by_typed, items_of_body, parameters_of};
ghost use Rattle.c_rules.specs.Items.{after_function, behind_defined, behind_function_named, function_named, output_of_function, with_output};
ghost use Rattle.c_rules.specs.Variables.{calls_of_block, names_of_block};
ghost use Rattle.c_check_statements.specs.View.{before_of, env_of};
ghost use Rattle.c_syntax.specs.UnitView.{stmt_of};
ghost use Rattle.c_syntax.specs.View.{declarator_of, ident_of, spec_of};
ghost use Rattle.c_tree.specs.Tree.{function};
ghost use Rattle.c_tree.specs.View.{ctype_of, function_of, types_of};

use c_check_statements::{
    Before, Environment, StatementTrees, are_named, body_numbers, body_of, declare_function,
    enter_body, function_meaning, parameters_of, type_declared,
};
use c_check_units::{
    C3, C13, CheckError, Next, Output, add_function, count_names, declares_function, function_with,
    leave, name_of, place_of_declarator, variables_of,
};
use c_syntax::{Declarator, Ident, Spec, Stmt};
use c_tree::{CType, Function, copy_type, copy_types};
use dm_base::OutOfMemory;
use std::alloc::Global;

// The first numbers of the variables in the body of a function, with the limit on these and its parameters (C99 5.2.4.1).
fn first_numbers(
    alloc: Global,
    env: &Environment<'_>,
    x: &Ident,
    d: &Declarator,
    body: &Stmt,
) -> Result<Next, CheckError>
    ensures judged { AgreesWith (λ _. met) result (few_variables (env_of env.now) (ident_of x.now) (declarator_of d.now) (items_of_body (stmt_of body.now))) }
    ensures numbered { IfOk result (λ n. next_of n ≡ body_numbers (declarator_of d.now) (items_of_body (stmt_of body.now))) }
    ensures left { IfOk result (λ n. HaveNumbers (next_of n) (names_of_block (items_of_body (stmt_of body.now)))) }
{
    match body_numbers(alloc, env.mode, d, body)? {
        Some(numbers) => Ok(numbers),
        None => Err(CheckError::At(C13, x.at)),
    }
}

// The body of a function with parameters of these types (C99 6.9.1).
fn body_laid<'t>(
    alloc: Global,
    env: &mut Environment<'t>,
    before: &mut Before<'t>,
    d: &'t Declarator,
    body: &'t Stmt,
    returns: &CType,
    types: &[CType],
    numbers: Next,
) -> Result<StatementTrees, CheckError>
    requires numbered { next_of numbers ≡ body_numbers (declarator_of d.now) (items_of_body (stmt_of body.now)) }
    requires left { HaveNumbers (next_of numbers) (names_of_block (items_of_body (stmt_of body.now))) }
    ensures judged { AgreesWith statement_trees_of result (body_of (env_of env.old) (before_of before.old) (ctype_of returns.now) (declarator_of d.now) (types_of types.now) (items_of_body (stmt_of body.now))) }
    ensures kept { OnOk result (env_of env.new ≡ env_of env.old) }
    ensures counted { OnOk result (before_of before.new ≡ past (before_of before.old) (calls_of_block (items_of_body (stmt_of body.now))) (held_by_block (body_env (env_of env.old) (declarator_of d.now) (types_of types.now)) (body_numbers (declarator_of d.now) (items_of_body (stmt_of body.now))) (items_of_body (stmt_of body.now)))) }
{
    let count = count_names(env);
    let depth = env.depth.copy()?;
    enter_body(alloc, env, d, types)?;
    let laid = body_of(alloc, env, before, returns, numbers, body)?;
    leave(env, count, depth);
    Ok(laid)
}

// The type of a function.
fn function_type(alloc: Global, returns: &CType, types: &[CType]) -> Result<CType, OutOfMemory>
    ensures { IfOk result (λ t. ctype_of t ≡ function (ctype_of returns.now) (types_of types.now)) }
{
    let gives = copy_type(alloc, returns)?;
    let takes = copy_types(alloc, types)?;
    Ok(CType::Function(Box::new(alloc, gives)?, takes))
}

// A function with its body, with the limit on the cells of its variables (C99 5.2.4.1).
fn function_laid(
    alloc: Global,
    env: &Environment<'_>,
    x: &Ident,
    returns: &CType,
    types: &[CType],
    laid: StatementTrees,
) -> Result<Function, CheckError>
    ensures { AgreesWith function_of result (function_laid (env_of env.now) (ident_of x.now) (ctype_of returns.now) (types_of types.now) (statement_trees_of laid)) }
{
    let ctype = function_type(alloc, returns, types)?;
    let (trees, declared) = laid.into_parts();
    let variables = variables_of(alloc, types, declared.plain, declared.added)?;
    function_with(alloc, env, x, ctype, variables, trees)
}

// The demand that each parameter of a definition has a name (C99 6.9.1 paragraph 5), which stands only where its body meets its own.
fn named_parameters(place: u32, d: &Declarator) -> Result<(), CheckError>
    ensures { AgreesWith (λ _. met) result (demand (are_named (parameters_of (declarator_of d.now))) 3 place met) }
{
    if !are_named(parameters_of(d)) {
        return Err(CheckError::At(C3, place));
    }
    Ok(())
}

// The definition of a function with parameters of these types.
fn defined_with<'t>(
    alloc: Global,
    env: &mut Environment<'t>,
    before: &mut Before<'t>,
    place: u32,
    d: &'t Declarator,
    x: &Ident,
    body: &'t Stmt,
    returns: &CType,
    types: &[CType],
) -> Result<Function, CheckError>
    ensures judged { AgreesWith function_of result (defined_as (env_of env.old) (before_of before.old) place (declarator_of d.now) (ident_of x.now) (items_of_body (stmt_of body.now)) (function (ctype_of returns.now) (types_of types.now))) }
    ensures kept { OnOk result (env_of env.new ≡ env_of env.old) }
    ensures counted { OnOk result (before_of before.new ≡ past (before_of before.old) (calls_of_block (items_of_body (stmt_of body.now))) (held_by_type (env_of env.old) (declarator_of d.now) (items_of_body (stmt_of body.now)) (function (ctype_of returns.now) (types_of types.now)))) }
{
    let numbers = first_numbers(alloc, env, x, d, body)?;
    let laid = body_laid(alloc, env, before, d, body, returns, types, numbers)?;
    named_parameters(place, d)?;
    function_laid(alloc, env, x, returns, types, laid)
}

// The definition of a function of this type, whose name is known in its body.
fn defined_as<'t>(
    alloc: Global,
    env: &mut Environment<'t>,
    before: &mut Before<'t>,
    place: u32,
    d: &'t Declarator,
    x: &Ident,
    body: &'t Stmt,
    t: &CType,
) -> Result<Function, CheckError>
    ensures judged { AgreesWith function_of result (defined_as (env_of env.old) (before_of before.old) place (declarator_of d.now) (ident_of x.now) (items_of_body (stmt_of body.now)) (ctype_of t.now)) }
    ensures kept { OnOk result (env_of env.new ≡ env_of env.old) }
    ensures counted { OnOk result (before_of before.new ≡ past (before_of before.old) (calls_of_block (items_of_body (stmt_of body.now))) (held_by_type (env_of env.old) (declarator_of d.now) (items_of_body (stmt_of body.now)) (ctype_of t.now))) }
{
    match t {
        CType::Function(returns, types) => {
            defined_with(alloc, env, before, place, d, x, body, returns, types)
        }
        _ => Err(CheckError::At(C3, place)),
    }
}

// The type of a function that is defined, whose name is declared.
fn declare_definition<'t>(
    alloc: Global,
    env: &mut Environment<'t>,
    at: u32,
    s: &'t Spec,
    d: &'t Declarator,
    x: &'t Ident,
) -> Result<CType, CheckError>
    ensures judged { AgreesWith ctype_of result (both (function_declared (env_of env.old) true at (spec_of s.now) (declarator_of d.now) (ident_of x.now)) (type_declared (env_of env.old) at (spec_of s.now) (declarator_of d.now)) (λ _ t. fine t)) }
    ensures declared { IfOk result (λ t. type_declared (env_of env.old) at (spec_of s.now) (declarator_of d.now) ≡ fine (ctype_of t)) }
    ensures behind { OnOk result (env_of env.new ≡ behind_defined (env_of env.old) at (spec_of s.now) (declarator_of d.now) (ident_of x.now)) }
{
    let ctype = type_declared(alloc, env, at, s, d)?;
    let copied = copy_type(alloc, &ctype)?;
    let means = function_meaning(env, true, x, copied)?;
    declare_function(env, x.name.as_slice(), means)?;
    Ok(ctype)
}

// The definition of a function with its name.
fn function_named<'t>(
    alloc: Global,
    env: &mut Environment<'t>,
    before: &mut Before<'t>,
    at: u32,
    s: &'t Spec,
    d: &'t Declarator,
    body: &'t Stmt,
    x: &'t Ident,
) -> Result<Function, CheckError>
    ensures judged { AgreesWith (λ f. output_of_function (function_of f)) result (function_named (env_of env.old) (before_of before.old) at (spec_of s.now) (declarator_of d.now) (stmt_of body.now) true (Some (ident_of x.now))) }
    ensures behind { OnOk result (env_of env.new ≡ behind_defined (env_of env.old) at (spec_of s.now) (declarator_of d.now) (ident_of x.now)) }
    ensures counted { OnOk result (before_of before.new ≡ past (before_of before.old) (calls_of_block (items_of_body (stmt_of body.now))) (held_by_typed (behind_defined (env_of env.old) at (spec_of s.now) (declarator_of d.now) (ident_of x.now)) (declarator_of d.now) (items_of_body (stmt_of body.now)) (type_declared (env_of env.old) at (spec_of s.now) (declarator_of d.now)))) }
{
    let ctype = declare_definition(alloc, env, at, s, d, x)?;
    defined_as(
        alloc,
        env,
        before,
        place_of_declarator(d),
        d,
        x,
        body,
        &ctype,
    )
}

// The definition of a function.
fn function_defined<'t>(
    alloc: Global,
    env: &mut Environment<'t>,
    before: &mut Before<'t>,
    at: u32,
    s: &'t Spec,
    d: &'t Declarator,
    body: &'t Stmt,
) -> Result<Function, CheckError>
    ensures judged { AgreesWith (λ f. output_of_function (function_of f)) result (function_named (env_of env.old) (before_of before.old) at (spec_of s.now) (declarator_of d.now) (stmt_of body.now) (declares_function (declarator_of d.now)) (name_of (declarator_of d.now))) }
    ensures behind { OnOk result (env_of env.new ≡ behind_function_named (env_of env.old) at (spec_of s.now) (declarator_of d.now) (name_of (declarator_of d.now))) }
    ensures counted { OnOk result (before_of before.new ≡ after_function (env_of env.old) (before_of before.old) at (spec_of s.now) (declarator_of d.now) (stmt_of body.now)) }
{
    if !declares_function(d) {
        return Err(CheckError::At(C3, place_of_declarator(d)));
    }
    match name_of(d) {
        Some(x) => function_named(alloc, env, before, at, s, d, body, x),
        None => Err(CheckError::At(C3, place_of_declarator(d))),
    }
}

// Adds a function that is defined (C99 6.9.1).
pub fn function_item<'t>(
    alloc: Global,
    env: &mut Environment<'t>,
    before: &mut Before<'t>,
    into: &mut Output,
    at: u32,
    s: &'t Spec,
    d: &'t Declarator,
    body: &'t Stmt,
) -> Result<(), CheckError>
    ensures judged { AgreesWith (λ _. output_of into.new) result (gives (function_named (env_of env.old) (before_of before.old) at (spec_of s.now) (declarator_of d.now) (stmt_of body.now) (declares_function (declarator_of d.now)) (name_of (declarator_of d.now))) (with_output (output_of into.old))) }
    ensures behind { OnOk result (env_of env.new ≡ behind_function_named (env_of env.old) at (spec_of s.now) (declarator_of d.now) (name_of (declarator_of d.now))) }
    ensures counted { OnOk result (before_of before.new ≡ after_function (env_of env.old) (before_of before.old) at (spec_of s.now) (declarator_of d.now) (stmt_of body.now)) }
{
    let function = function_defined(alloc, env, before, at, s, d, body)?;
    add_function(into, function)?;
    Ok(())
}
