ghost use Rattle.std.specs.Prelude.{◌≡◌, ◌≤◌, length, map, nat_eq, IfOk};
ghost use Rattle.c_check_values.specs.TypedExpressionView.{typed_expression_of};
ghost use Rattle.c_rules.specs.PostfixExpressions.{all_fit, as_many_as, passed};
ghost use Rattle.c_tree.specs.View.{exprs_of, types_of};

use c_check_values::{TypedExpression, assigned, fits};
use c_tree::{CType, TExpr};
use dm_base::OutOfMemory;
use std::alloc::Global;

// Whether there are as many arguments as parameters (C99 6.5.2.2 paragraph 2).
#[tactic(auto, using(crate::proofs::CallLemmas::as_many_is))]
pub fn as_many(ts: &[CType], gs: &[TypedExpression]) -> bool
    ensures counted { result ≡ nat_eq (length gs.now) (length ts.now) }
    ensures judged { result ≡ as_many_as (types_of ts.now) (map typed_expression_of gs.now) }
{
    gs.len() == ts.len()
}

// Whether each argument may be assigned to its parameter (C99 6.5.2.2 paragraph 2).
pub fn all_fit(ts: &[CType], gs: &[TypedExpression]) -> bool
    ensures { result ≡ all_fit (types_of ts.now) (map typed_expression_of gs.now) }
{
    for i in 0..ts.len() {
        if i >= gs.len() {
            return true;
        }
        if !fits(&ts[i], &gs[i]) {
            return false;
        }
    }
    true
}

// The arguments, no more than there are parameters, in the types of the parameters (C99 6.5.2.2 paragraph 7).
pub fn passed(
    alloc: Global,
    ts: &[CType],
    gs: Vec<TypedExpression>,
) -> Result<Vec<TExpr>, OutOfMemory>
    requires { length gs.items ≤ length ts.now }
    ensures { IfOk result (λ es. exprs_of es.items ≡ passed (types_of ts.now) (map typed_expression_of gs.items)) }
{
    let mut es = Vec::new(alloc);
    for g in gs {
        let i = es.len();
        let value = assigned(alloc, &ts[i], g)?;
        let tree = value.into_tree(alloc)?;
        es.push(tree)?;
    }
    Ok(es)
}
