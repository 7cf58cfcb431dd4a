ghost use Rattle.std.specs.Prelude.{◌≡◌, map, IfOk};
ghost use Rattle.c_check_values.specs.TypedExpressionView.{typed_expression_of};
ghost use Rattle.c_rules.specs.Assignments.{comma_of, last_type, trees_of};
ghost use Rattle.c_rules.specs.TypedExpression.{tree_of};
ghost use Rattle.c_tree.specs.Tree.{void};
ghost use Rattle.c_tree.specs.View.{ctype_of, expr_of, exprs_of};

use c_check_values::{Constant, TypedExpression, typed_value};
use c_tree::{CType, TExpr, TExprKind, copy_type};
use dm_base::OutOfMemory;
use std::alloc::Global;

// An operand of a comma: its type and its typed tree.
struct Operand {
    ctype: CType,
    tree: TExpr,
}

fn operand_of(alloc: Global, g: TypedExpression) -> Result<Operand, OutOfMemory>
    ensures ctype { IfOk result (λ r. ctype_of r.ctype ≡ (typed_expression_of g).ctype) }
    ensures tree { IfOk result (λ r. expr_of r.tree ≡ tree_of (typed_expression_of g)) }
{
    let ctype = copy_type(alloc, &g.ctype)?;
    let tree = g.into_tree(alloc)?;
    Ok(Operand { ctype, tree })
}

// Operands of a comma.
struct Operands {
    // The type of the last one.
    last: CType,
    // Their trees.
    trees: Vec<TExpr>,
}

fn gather(alloc: Global, gs: Vec<TypedExpression>) -> Result<Operands, OutOfMemory>
    ensures last { IfOk result (λ r. ctype_of r.last ≡ last_type void (map typed_expression_of gs.items)) }
    ensures trees { IfOk result (λ r. exprs_of r.trees.items ≡ trees_of (map typed_expression_of gs.items)) }
{
    let mut last = CType::Void;
    let mut trees = Vec::new(alloc);
    for g in gs {
        let Operand { ctype, tree } = operand_of(alloc, g)?;
        last = ctype;
        trees.push(tree)?;
    }
    Ok(Operands { last, trees })
}

/// The comma, which gives its last expression (C99 6.5.17).
pub fn comma_of(alloc: Global, gs: Vec<TypedExpression>) -> Result<TypedExpression, OutOfMemory>
    ensures { IfOk result (λ r. typed_expression_of r ≡ comma_of (map typed_expression_of gs.items)) }
{
    let Operands { last, trees } = gather(alloc, gs)?;
    typed_value(alloc, last, TExprKind::Comma(trees), Constant::Not)
}
