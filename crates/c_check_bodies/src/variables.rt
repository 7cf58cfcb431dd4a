ghost use Rattle.std.specs.Prelude.{◌≡◌, ◌≤◌, ◌∷◌, [], length, IfOk};
ghost use Rattle.c_check_initialisers.specs.CellView.{typed_expressions_of};
ghost use Rattle.c_check_counts.specs.Numbered.{HaveNumbers, next_of};
ghost use Rattle.c_check_bodies.specs.StatementTreeView.{statement_tree_of};
ghost use Rattle.c_check_bodies.specs.VariablesView.{one_declared, variables_of};
ghost use Rattle.c_rules.specs.Blocks.{laid_variable, past_part};
ghost use Rattle.c_rules.specs.Declarators.{name_of};
ghost use Rattle.c_rules.specs.Limits.{most_cells};
ghost use Rattle.c_rules.specs.Variables.{name_or_empty};
ghost use Rattle.c_syntax.specs.View.{declarator_of};
ghost use Rattle.c_tree.specs.View.{ctype_of};

use crate::statement_tree::{StatementTree, Variables, with_variables};
use c_check_counts::{Next, bytes_of_name, is_added};
use c_check_initialisers::{TypedExpression, stores_of};
use c_syntax::Declarator;
use c_tree::{CType, TStmt};
use dm_base::OutOfMemory;
use std::alloc::Global;

// A variable with this name and type.
fn one_variable(alloc: Global, name: &[u8], t: CType) -> Result<Variables, OutOfMemory>
    ensures { IfOk result (λ v. variables_of v ≡ one_declared name.now (ctype_of t)) }
{
    let mut types = Vec::new(alloc);
    types.push(t)?;
    if is_added(name) {
        return Ok(Variables {
            plain: Vec::new(alloc),
            added: types,
        });
    }
    Ok(Variables {
        plain: types,
        added: Vec::new(alloc),
    })
}

/// The declaration of a variable with this name, number and type, and its cells (C99 6.7.8), which are within the limit on those of an
/// object.
pub fn laid_variable(
    alloc: Global,
    name: &[u8],
    number: u32,
    t: CType,
    cells: Vec<TypedExpression>,
) -> Result<StatementTree, OutOfMemory>
    requires few { length cells.items ≤ most_cells }
    ensures { IfOk result (λ l. statement_tree_of l ≡ laid_variable name.now number (ctype_of t) (typed_expressions_of cells.items)) }
{
    let variables = one_variable(alloc, name, t)?;
    let init = stores_of(alloc, cells)?;
    with_variables(
        alloc,
        TStmt::Declare {
            variable: number,
            init,
        },
        variables,
    )
}

/// The next numbers behind the variable that the declarator declares.
pub fn past_part(next: Next, d: &Declarator) -> Next
    requires { HaveNumbers (next_of next) (name_or_empty (name_of (declarator_of d.now)) ∷ []) }
    ensures { next_of result ≡ past_part (next_of next) (declarator_of d.now) }
{
    next.past(bytes_of_name(d))
}
