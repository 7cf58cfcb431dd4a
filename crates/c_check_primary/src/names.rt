ghost use Rattle.std.specs.Prelude.{◌≡◌, IfOk};
ghost use Rattle.c_check_values.specs.Agreement.{AgreesWith};
ghost use Rattle.c_check_values.specs.TypedExpressionView.{constant_of, typed_expression_of};
ghost use Rattle.c_rules.specs.Checked.{fine};
ghost use Rattle.c_rules.specs.Constants.{static_address};
ghost use Rattle.c_rules.specs.Names.{number_among, given_names};
ghost use Rattle.c_rules.specs.PrimaryExpressions.{given_number, used, object_number, function_number, function_value_number, static_given, typed_function, typed_int, meant, named_expression, integer_expression};
ghost use Rattle.c_rules.specs.Scopes.{layout_of};
ghost use Rattle.c_rules.specs.TypedExpression.{a_place};
ghost use Rattle.c_check_values.specs.Bound.{meaning_of};
ghost use Rattle.c_check_values.specs.View.{context_of, env_of};
ghost use Rattle.c_tree.specs.Layout.{cells};
ghost use Rattle.c_tree.specs.Tree.{variable};
ghost use Rattle.c_tree.specs.View.{ctype_of};

use c_check_values::{
    C1, C10, C12, CheckError, Constant, Context, Environment, Form, Meaning, TypedExpression,
    given_number, is_null_call, static_address, typed_unsigned,
};
use c_tree::{CType, IntType, TExpr, TExprKind, Value, copy_type};
use dm_base::OutOfMemory;
use std::alloc::Global;

// What an expression gives, which only wants memory.
pub fn answered(one: Result<TypedExpression, OutOfMemory>) -> Result<TypedExpression, CheckError>
    ensures { (g : Rattle.c_rules.specs.TypedExpression.TypedExpression) → IfOk one (λ r. typed_expression_of r ≡ g) → AgreesWith typed_expression_of result (fine g) }
{
    Ok(one?)
}

// What is used is defined (C99 6.9 paragraph 5); an operand that isn't evaluated has a number that nobody reads.
pub fn used(context: Context, at: u32, number: Option<u32>) -> Result<u32, CheckError>
    ensures { AgreesWith (λ n. n) result (used (context_of context) at number) }
{
    match number {
        Some(n) => Ok(n),
        None => match context {
            Context::Evaluated => Err(CheckError::At(C10, at)),
            Context::Sized | Context::Folded => Ok(0),
        },
    }
}

// The number of a function that has no definition.
fn number_of_given(env: &Environment<'_>, name: &[u8]) -> Option<u32>
    ensures { result ≡ given_number (env_of env.now) (number_among (given_names env.now.mode) name.now) }
{
    match given_number(env.mode, name) {
        Some(i) => Some(env.defined_functions.len() as u32 + i),
        None => None,
    }
}

// Functions are numbered in the order of their definitions; after them stand the system calls and the two null calls.
pub fn function_number(env: &Environment<'_>, name: &[u8]) -> Option<u32>
    ensures { result ≡ function_number (env_of env.now) name.now }
{
    match env.defined_functions.number(name) {
        Some(n) => Some(n),
        None => number_of_given(env, name),
    }
}

// A function whose name isn't the designator of a call: it is no null call.
fn function_value_number(env: &Environment<'_>, at: u32, name: &[u8]) -> Result<u32, CheckError>
    ensures { AgreesWith (λ n. n) result (function_value_number (env_of env.now) at name.now) }
{
    if is_null_call(name) {
        return Err(CheckError::At(C12, at));
    }
    used(env.context, at, function_number(env, name))
}

// The address of a static object of this type.
fn address_of_object(env: &Environment<'_>, whole: &CType, number: u32) -> Constant
    ensures { constant_of result ≡ static_address number (cells (layout_of (env_of env.now)) (ctype_of whole.now)) }
{
    match env.cells(whole) {
        Some(cells) => static_address(number, cells),
        None => Constant::Undefined,
    }
}

// A static object or a variable of the function, with this constant.
fn variable(
    alloc: Global,
    seen: &CType,
    whole: &CType,
    is_static: bool,
    number: u32,
    constant: Constant,
) -> Result<TypedExpression, OutOfMemory>
    ensures { IfOk result (λ g. typed_expression_of g ≡ record { ctype = ctype_of seen.now; form = a_place (variable (ctype_of whole.now) is_static number); constant = constant_of constant }) }
{
    let ctype = copy_type(alloc, seen)?;
    let whole = copy_type(alloc, whole)?;
    Ok(TypedExpression {
        ctype,
        form: Form::Place(TExpr {
            ctype: whole,
            kind: TExprKind::Variable { is_static, number },
        }),
        constant,
    })
}

// A static object.
fn static_given(
    alloc: Global,
    env: &Environment<'_>,
    seen: &CType,
    whole: &CType,
    number: u32,
) -> Result<TypedExpression, OutOfMemory>
    ensures { IfOk result (λ g. typed_expression_of g ≡ static_given (env_of env.now) (ctype_of seen.now) (ctype_of whole.now) number) }
{
    let constant = address_of_object(env, whole, number);
    variable(alloc, seen, whole, true, number, constant)
}

// A function.
fn typed_function(alloc: Global, t: &CType, f: u32) -> Result<TypedExpression, OutOfMemory>
    ensures { IfOk result (λ g. typed_expression_of g ≡ typed_function (ctype_of t.now) f) }
{
    let ctype = copy_type(alloc, t)?;
    let copied = copy_type(alloc, t)?;
    Ok(TypedExpression {
        ctype,
        form: Form::Place(TExpr {
            ctype: copied,
            kind: TExprKind::Function(f),
        }),
        constant: Constant::Known(Value::Func(f)),
    })
}

/// An int.
pub fn typed_int(z: i32) -> TypedExpression
    ensures { typed_expression_of result ≡ typed_int z }
{
    TypedExpression {
        ctype: CType::Int(IntType::Int),
        form: Form::Value(TExpr {
            ctype: CType::Int(IntType::Int),
            kind: TExprKind::Const(Value::Int(z)),
        }),
        constant: Constant::Known(Value::Int(z)),
    }
}

// A name by its meaning (C99 6.5.1 paragraph 2).
fn meant(
    alloc: Global,
    env: &Environment<'_>,
    at: u32,
    name: &[u8],
    means: &Meaning,
) -> Result<TypedExpression, CheckError>
    ensures { AgreesWith typed_expression_of result (meant (env_of env.now) at name.now (meaning_of means.now)) }
{
    match means {
        Meaning::Static { seen, whole, .. } => {
            let number = used(env.context, at, env.objects.number(name))?;
            answered(static_given(alloc, env, seen, whole, number))
        }
        Meaning::Local {
            number,
            seen,
            whole,
        } => answered(variable(alloc, seen, whole, false, *number, Constant::Not)),
        Meaning::Function { ctype, .. } => {
            let number = function_value_number(env, at, name)?;
            answered(typed_function(alloc, ctype, number))
        }
        Meaning::Enumerator(z) => Ok(typed_int(*z)),
    }
}

/// A name (C99 6.5.1 paragraph 2).
pub fn named_expression(
    alloc: Global,
    env: &Environment<'_>,
    at: u32,
    name: &[u8],
) -> Result<TypedExpression, CheckError>
    ensures { AgreesWith typed_expression_of result (named_expression (env_of env.now) at name.now) }
{
    match env.names.find(name) {
        Some(entry) => meant(alloc, env, at, name, &entry.means),
        None => Err(CheckError::At(C1, at)),
    }
}

/// An integer constant (C99 6.4.4.1), which is unsigned where no int has its value.
pub fn integer_expression(n: u32, unsigned: bool) -> TypedExpression
    ensures { typed_expression_of result ≡ integer_expression n unsigned }
{
    if unsigned || n >= 2_147_483_648 {
        return typed_unsigned(n);
    }
    typed_int(n as i32)
}
