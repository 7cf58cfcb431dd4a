ghost use Rattle.std.specs.Prelude.{◌≡◌, [], ◌∷◌, ◌++◌, IfOk};
ghost use Rattle.c_check_initialisers.specs.Agreement.{AgreesWith};
ghost use Rattle.c_check_bodies.specs.StatementTreeView.{statement_trees_of, statement_tree_of};
ghost use Rattle.c_check_bodies.specs.VariablesView.{both_declared, laid_with, none_declared, variables_of};
ghost use Rattle.c_rules.specs.Blocks.{alone, bare, some_more};
ghost use Rattle.c_rules.specs.Checked.{fine};
ghost use Rattle.c_tree.specs.Tree.{Stmt, Stmts, no_stmts};
ghost use Rattle.c_tree.specs.View.{stmt_of};

use c_check_initialisers::CheckError;
use c_tree::{CType, TStmt};
use dm_base::OutOfMemory;
use std::alloc::Global;

/// The types of the variables that a part of a body declares, in order.
#[derive(Drop)]
pub struct Variables {
    /// Those of the variables that aren't the instrumenter's.
    pub plain: Vec<CType>,
    /// Those of the instrumenter's variables.
    pub added: Vec<CType>,
}

/// What a statement gives.
pub struct StatementTree {
    /// Its typed tree.
    pub tree: Box<TStmt>,
    /// The variables that it declares.
    pub variables: Variables,
}

impl Drop for StatementTree {
    fn drop(self) {
        let Self {
            tree: _tree,
            variables: _variables,
        } = self;
    }
}

impl StatementTree {
    /// Its typed tree and its variables.
    pub fn into_parts(self) -> (Box<TStmt>, Variables)
        ensures tree { result.0 ≡ self.tree }
        ensures variables { result.1 ≡ self.variables }
    {
        let Self { tree, variables } = self;
        (tree, variables)
    }
}

/// What several statements give.
pub struct StatementTrees {
    /// Their typed trees.
    pub trees: Vec<TStmt>,
    /// The variables that they declare.
    pub variables: Variables,
}

impl Drop for StatementTrees {
    fn drop(self) {
        let Self {
            trees: _trees,
            variables: _variables,
        } = self;
    }
}

impl StatementTrees {
    /// Their typed trees and their variables.
    pub fn into_parts(self) -> (Vec<TStmt>, Variables)
        ensures trees { result.0 ≡ self.trees }
        ensures variables { result.1 ≡ self.variables }
    {
        let Self { trees, variables } = self;
        (trees, variables)
    }
}

// No variables.
pub fn no_variables(alloc: Global) -> Variables
    ensures { variables_of result ≡ none_declared }
{
    Variables {
        plain: Vec::new(alloc),
        added: Vec::new(alloc),
    }
}

// The types of two lists.
fn types_of_both(first: Vec<CType>, second: Vec<CType>) -> Result<Vec<CType>, OutOfMemory>
    ensures { IfOk result (λ all. all.items ≡ first.items ++ second.items) }
{
    let mut all = first;
    let mut others = second;
    all.append(&mut others)?;
    Ok(all)
}

/// The variables of two parts: those of the first, then those of the second.
pub fn variables_of_both(first: Variables, second: Variables) -> Result<Variables, OutOfMemory>
    ensures { IfOk result (λ all. variables_of all ≡ both_declared (variables_of first) (variables_of second)) }
{
    let Variables { plain, added } = first;
    let Variables {
        plain: other_plain,
        added: other_added,
    } = second;
    let plain = types_of_both(plain, other_plain)?;
    let added = types_of_both(added, other_added)?;
    Ok(Variables { plain, added })
}

/// A statement and the variables that it declares.
pub fn with_variables(
    alloc: Global,
    tree: TStmt,
    variables: Variables,
) -> Result<StatementTree, OutOfMemory>
    ensures { IfOk result (λ l. statement_tree_of l ≡ laid_with (variables_of variables) (stmt_of tree)) }
{
    Ok(StatementTree {
        tree: Box::new(alloc, tree)?,
        variables,
    })
}

/// A statement without variables.
pub fn bare(alloc: Global, tree: TStmt) -> Result<StatementTree, OutOfMemory>
    ensures { IfOk result (λ l. statement_tree_of l ≡ bare (stmt_of tree)) }
{
    with_variables(alloc, tree, no_variables(alloc))
}

/// What a statement gives, which only wants memory.
pub fn found(one: Result<StatementTree, OutOfMemory>) -> Result<StatementTree, CheckError>
    ensures { (p : Rattle.c_rules.specs.Blocks.StatementTree Stmt) → IfOk one (λ l. statement_tree_of l ≡ p) → AgreesWith statement_tree_of result (fine p) }
{
    Ok(one?)
}

/// What several statements give, which only want memory.
pub fn all_found(all: Result<StatementTrees, OutOfMemory>) -> Result<StatementTrees, CheckError>
    ensures { (p : Rattle.c_rules.specs.Blocks.StatementTree Stmts) → IfOk all (λ l. statement_trees_of l ≡ p) → AgreesWith statement_trees_of result (fine p) }
{
    Ok(all?)
}

/// No statements.
pub fn no_statements(alloc: Global) -> StatementTrees
    ensures { statement_trees_of result ≡ bare no_stmts }
{
    StatementTrees {
        trees: Vec::new(alloc),
        variables: no_variables(alloc),
    }
}

// Typed trees of statements, and this one behind them.
fn tree_pushed(trees: Vec<TStmt>, tree: Box<TStmt>) -> Result<Vec<TStmt>, OutOfMemory>
    ensures { IfOk result (λ all. all.items ≡ trees.items ++ tree.value ∷ []) }
{
    let mut all = trees;
    all.push(Box::into_inner(tree))?;
    Ok(all)
}

/// One statement alone.
pub fn alone(alloc: Global, one: StatementTree) -> Result<StatementTrees, OutOfMemory>
    ensures { IfOk result (λ all. statement_trees_of all ≡ alone (statement_tree_of one)) }
{
    let (tree, variables) = one.into_parts();
    let trees = tree_pushed(Vec::new(alloc), tree)?;
    Ok(StatementTrees { trees, variables })
}

/// Some statements, and others behind them.
pub fn appended(
    first: StatementTrees,
    second: StatementTrees,
) -> Result<StatementTrees, OutOfMemory>
    ensures { IfOk result (λ all. statement_trees_of all ≡ some_more (statement_trees_of first) (statement_trees_of second)) }
{
    let (mut all, variables) = first.into_parts();
    let (mut behind, others) = second.into_parts();
    all.append(&mut behind)?;
    let variables = variables_of_both(variables, others)?;
    Ok(StatementTrees {
        trees: all,
        variables,
    })
}

/// Some statements, and one behind them.
pub fn pushed(first: StatementTrees, one: StatementTree) -> Result<StatementTrees, OutOfMemory>
    ensures { IfOk result (λ all. statement_trees_of all ≡ some_more (statement_trees_of first) (alone (statement_tree_of one))) }
{
    let (trees, variables) = first.into_parts();
    let (tree, others) = one.into_parts();
    let all = tree_pushed(trees, tree)?;
    let variables = variables_of_both(variables, others)?;
    Ok(StatementTrees {
        trees: all,
        variables,
    })
}
