ghost use Rattle.std.specs.Prelude.{◌≡◌, ◌+◌, ◌≤◌, map, false, IfOk, OnOk};
ghost use Rattle.c_check_values.specs.Agreement.{AgreesWith};
ghost use Rattle.c_check_values.specs.TypedExpressionView.{constant_of, typed_expression_of};
ghost use Rattle.c_check_declarations.specs.ObjectView.{cells_seen, object_seen};
ghost use Rattle.c_rules.specs.Checked.{met};
ghost use Rattle.c_rules.specs.Initialisers.{value_of_constant, value_of_cell};
ghost use Rattle.c_rules.specs.Items.{after_object, without_init};
ghost use Rattle.c_rules.specs.Limits.{most_static_cells};
ghost use Rattle.c_rules.specs.Scopes.{layout_of};
ghost use Rattle.c_check_values.specs.View.{before_of, env_of};
ghost use Rattle.c_syntax.specs.UnitView.{maybe_init_of};
ghost use Rattle.c_tree.specs.Layout.{cells};
ghost use Rattle.c_tree.specs.View.{ctype_of, static_of};

use crate::types::Object;
use c_check_values::{Before, C14, CheckError, Constant, Environment, TypedExpression};
use c_syntax::{Init, InitKind};
use c_tree::{CType, Static, Value};
use dm_base::OutOfMemory;
use std::alloc::Global;

/// The demand that a function has no initialiser (C99 6.7.8 paragraph 3).
pub fn without_init(m: &Option<Init>) -> Result<(), CheckError>
    ensures { AgreesWith (λ _. met) result (without_init (maybe_init_of m.now)) }
{
    match m {
        Some(i) => Err(CheckError::At(C14, i.at)),
        None => Ok(()),
    }
}

/// The object's cells, which are within the limit on all of them, stand before what follows.
pub fn count_object(
    env: &Environment<'_>,
    before: &mut Before<'_>,
    t: &CType,
) -> Result<(), OutOfMemory>
    requires { (before_of before.old).cells + cells (layout_of (env_of env.now)) (ctype_of t.now) ≤ most_static_cells }
    ensures { OnOk result (before_of before.new ≡ after_object (env_of env.now) (before_of before.old) (ctype_of t.now)) }
{
    match env.cells(t) {
        Some(own) => before.count_cells(own),
        None => unreachable!(),
    }
}

// The value of a constant.
fn value_of_constant(c: Constant) -> Value
    ensures { result ≡ value_of_constant (constant_of c) }
{
    match c {
        Constant::Not => Value::Null,
        Constant::Undefined => Value::Null,
        Constant::Known(value) => value,
    }
}

// The values of cells.
fn values_of(alloc: Global, cells: &[TypedExpression]) -> Result<Vec<Value>, OutOfMemory>
    ensures { IfOk result (λ values. values.items ≡ cells_seen cells.now) }
{
    let mut values = Vec::new(alloc);
    for g in cells {
        values.push(value_of_constant(g.constant))?;
    }
    Ok(values)
}

/// The static object whose cells have these values (C99 6.7.8 paragraph 4).
pub fn static_object(
    alloc: Global,
    o: Object,
    cells: &[TypedExpression],
) -> Result<Static, OutOfMemory>
    ensures { IfOk result (λ s. static_of s ≡ record { ctype = (object_seen o).whole; cells = cells_seen cells.now; string = false }) }
{
    let values = values_of(alloc, cells)?;
    Ok(Static {
        ctype: o.whole,
        cells: values,
        string: false,
    })
}
