ghost use Rattle.std.specs.Prelude.{◌≡◌, OnOk};
ghost use Rattle.c_check_declarations.specs.Agreement.{AgreesWith};
ghost use Rattle.c_rules.specs.Checked.{on};
ghost use Rattle.c_rules.specs.Counts.{place_of};
ghost use Rattle.c_rules.specs.Declarators.{constant_value};
ghost use Rattle.c_rules.specs.Expressions.{folded_value};
ghost use Rattle.c_rules.specs.Statements.{labels_of};
ghost use Rattle.c_check_scopes.specs.View.{env_of};
ghost use Rattle.c_check_statements.specs.Listed.{items_of_labels, label_alone};
ghost use Rattle.c_syntax.specs.UnitView.{labels_of as labels_seen};
ghost use Rattle.c_syntax.specs.View.{expr_of};

use c_check_declarations::CheckError;
use c_check_expressions::{constant_value, folded_value, value_of_number};
use c_check_scopes::Environment;
use c_syntax::{Expr, Label, LabelKind};
use c_tree::{IntType, TLabel, Value};
use std::alloc::Global;

// A constant integer expression (C99 6.8.4.2 paragraph 3).
fn case_value<'t>(
    alloc: Global,
    env: &mut Environment<'t>,
    e: &'t Expr,
) -> Result<Value, CheckError>
    ensures judged { AgreesWith (λ v. v) result (on (folded_value (env_of env.old) (expr_of e.now)) (constant_value (place_of (expr_of e.now)))) }
    ensures kept { OnOk result (env.new ≡ env.old) }
{
    let given = folded_value(alloc, env, e)?;
    constant_value(e.at, &given)
}

// One label of a switch on values of this type.
fn label_of<'t>(
    alloc: Global,
    env: &mut Environment<'t>,
    i: IntType,
    label: &'t Label,
) -> Result<TLabel, CheckError>
    ensures judged { AgreesWith (λ l. l) result (label_alone (env_of env.old) i label.now.kind) }
    ensures kept { OnOk result (env.new ≡ env.old) }
{
    match &label.kind {
        LabelKind::Case(e) => {
            let value = case_value(alloc, env, e)?;
            Ok(TLabel::Case(value_of_number(i, value)))
        }
        LabelKind::Default => Ok(TLabel::Default),
    }
}

// Labels of a switch on values of this type.
pub fn labels_of<'t>(
    alloc: Global,
    env: &mut Environment<'t>,
    i: IntType,
    labels: &'t [Label],
) -> Result<Vec<TLabel>, CheckError>
    ensures judged { AgreesWith items_of_labels result (labels_of (env_of env.old) i (labels_seen labels.now)) }
    ensures kept { OnOk result (env.new ≡ env.old) }
{
    let mut all = Vec::new(alloc);
    for label in labels {
        let one = label_of(alloc, env, i, label)?;
        all.push(one)?;
    }
    Ok(all)
}
