ghost use Rattle.std.specs.Prelude.{◌≡◌, ◌++◌, IfOk};
ghost use Rattle.c_check_initialisers.specs.Agreement.{AgreesWith};
ghost use Rattle.c_check_initialisers.specs.TypedExpressionView.{typed_expression_of};
ghost use Rattle.c_check_bodies.specs.LabelledView.{labelled_before, labelled_of};
ghost use Rattle.c_check_bodies.specs.StatementTreeView.{statement_trees_of, statement_tree_of};
ghost use Rattle.c_rules.specs.Blocks.{with_tree};
ghost use Rattle.c_rules.specs.Conversions.{kind_of};
ghost use Rattle.c_rules.specs.TypedExpression.{tree_of};
ghost use Rattle.c_rules.specs.Statements.{label_kind, labelled, no_labelled, switch_of, switched_kind};
ghost use Rattle.c_tree.specs.Tree.{switch_on};
ghost use Rattle.c_tree.specs.View.{ctype_of};

use crate::labels::are_distinct;
use crate::statement_tree::{
    StatementTree, StatementTrees, Variables, found, no_variables, variables_of_both,
    with_variables,
};
use c_check_initialisers::{C3, C7, CheckError, TypedExpression, converted_to, promoted};
use c_tree::{CType, IntType, TGroup, TLabel, TStmt};
use dm_base::OutOfMemory;
use std::alloc::Global;

/// What groups of a switch give.
pub struct Labelled {
    /// Their typed trees.
    pub groups: Vec<TGroup>,
    /// All labels in them, in order.
    pub labels: Vec<TLabel>,
    /// The variables that their statements declare.
    pub variables: Variables,
}

impl Drop for Labelled {
    fn drop(self) {
        let Self {
            groups: _groups,
            labels: _labels,
            variables: _variables,
        } = self;
    }
}

impl Labelled {
    // Their typed trees, all labels in them and their variables.
    fn into_parts(self) -> (Vec<TGroup>, Vec<TLabel>, Variables)
        ensures groups { result.0 ≡ self.groups }
        ensures labels { result.1 ≡ self.labels }
        ensures variables { result.2 ≡ self.variables }
    {
        let Self {
            groups,
            labels,
            variables,
        } = self;
        (groups, labels, variables)
    }
}

/// What a switch compares with its labels: an integer, which is promoted (C99 6.8.4.2 paragraphs 1 and 5).
pub fn switched(alloc: Global, at: u32, g: TypedExpression) -> Result<TypedExpression, CheckError>
    ensures { AgreesWith typed_expression_of result (switched_kind at (typed_expression_of g) (kind_of (typed_expression_of g).ctype)) }
{
    match &g.ctype {
        CType::Int(i) => {
            let i = promoted(*i);
            Ok(converted_to(alloc, i, g)?)
        }
        _ => Err(CheckError::At(C3, at)),
    }
}

/// The integer type to which case values are converted (C99 6.8.4.2 paragraph 5).
pub fn label_type(t: &CType) -> IntType
    ensures { result ≡ label_kind (kind_of (ctype_of t.now)) }
{
    match t {
        CType::Int(i) => *i,
        _ => IntType::Int,
    }
}

/// No groups.
pub fn no_labelled(alloc: Global) -> Labelled
    ensures { labelled_of result ≡ no_labelled }
{
    Labelled {
        groups: Vec::new(alloc),
        labels: Vec::new(alloc),
        variables: no_variables(alloc),
    }
}

// Labels behind others.
fn labels_of_both(first: Vec<TLabel>, second: &[TLabel]) -> Result<Vec<TLabel>, OutOfMemory>
    ensures { IfOk result (λ all. all.items ≡ first.items ++ second.now) }
{
    let mut all = first;
    for label in second {
        all.push(*label)?;
    }
    Ok(all)
}

/// Groups of a switch, and one with these labels and statements behind them.
pub fn group_added(
    first: Labelled,
    labels: Vec<TLabel>,
    body: StatementTrees,
) -> Result<Labelled, OutOfMemory>
    ensures { IfOk result (λ all. labelled_of all ≡ labelled_before (labelled_of first) (labelled labels.items (statement_trees_of body) no_labelled)) }
{
    let (groups, earlier, variables) = first.into_parts();
    let (trees, others) = body.into_parts();
    let all_labels = labels_of_both(earlier, &labels)?;
    let variables = variables_of_both(variables, others)?;
    let mut all = groups;
    all.push(TGroup {
        labels,
        body: trees,
    })?;
    Ok(Labelled {
        groups: all,
        labels: all_labels,
        variables,
    })
}

// A switch without the demand on its labels.
fn laid_switch(
    alloc: Global,
    g: TypedExpression,
    gs: Labelled,
) -> Result<StatementTree, OutOfMemory>
    ensures { IfOk result (λ l. statement_tree_of l ≡ with_tree (labelled_of gs).groups (switch_on (tree_of (typed_expression_of g)) (labelled_of gs).groups.tree)) }
{
    let tree = g.into_tree(alloc)?;
    let on = Box::new(alloc, tree)?;
    let (groups, _labels, variables) = gs.into_parts();
    with_variables(alloc, TStmt::Switch { on, groups }, variables)
}

/// A switch, whose case values are distinct, with at most one default (C99 6.8.4.2 paragraph 3).
pub fn switch_laid(
    alloc: Global,
    at: u32,
    g: TypedExpression,
    gs: Labelled,
) -> Result<StatementTree, CheckError>
    ensures { AgreesWith statement_tree_of result (switch_of at (typed_expression_of g) (labelled_of gs)) }
{
    let distinct = are_distinct(alloc, &gs.labels)?;
    if !distinct {
        return Err(CheckError::At(C7, at));
    }
    found(laid_switch(alloc, g, gs))
}
