ghost use Rattle.std.specs.Prelude.{◌≡◌, ◌↔◌, ℕ, [], ◌∷◌, ◌++◌, IsTrue, IfOk, IfErr, OnOk, OnErr};
ghost use Rattle.flow_model.specs.Built.{graph_of_records, IsMadeOf};
ghost use Rattle.flow_model.specs.Checked.{KeepsFirstFive, IsCause};
ghost use Rattle.flow_model.specs.Graph.{Graph};
ghost use Rattle.flow_model.specs.Rules.{HasRightEntries, HasRightNames, HasInnerEdges, HasKnownFunctions, HasNoRepeats, HasRightPatterns, IsInOrder, IsValid, KeepsRules, IsLeastBroken};

use crate::rules::{
    are_calls_inner, are_candidates_below, are_named, are_patterns_right, are_silent_inner,
    are_sys_inner, has_own_exits, has_right_entries,
};
use crate::sorting::{do_names_differ, sort_calls, sort_candidates, sort_silent, sort_sys};
use crate::{CallEdge, Model, ModelFunction, SilentEdge, SysEdge};
use dm_base::OutOfMemory;
use std::alloc::Global;

/// Why no model was made.
#[derive(Clone, Copy)]
pub enum FinishError {
    /// Memory was refused.
    OutOfMemory,
    /// The least rule that the records break, 1 to 7:
    /// 1. There are 1 to 200,000 nodes; the first function begins at node 0; the entries strictly
    ///    rise and are nodes.
    /// 2. Each function's exit is one of its own nodes, which are those from its entry up to the
    ///    next function's, or to the last node.
    /// 3. The functions have names (C99 6.4.2.1), and they differ.
    /// 4. The two nodes of each edge are owned by one function.
    /// 5. There is a function; the start and the candidates are functions.
    /// 6. No edge, no site and no candidate of a call stands twice.
    /// 7. Each pattern is right for its system call.
    Invalid(u8),
}

impl From<OutOfMemory> for FinishError {
    ghost use Rattle.std.specs.Prelude.{◌≡◌};
    ghost use Rattle.flow_model.specs.declared.builder.FinishError.TheVariants.{OutOfMemory as memory};

    ghost from_gives = { λ _ error. error ≡ memory };

    fn from(_: OutOfMemory) -> FinishError {
        FinishError::OutOfMemory
    }
}

/// Takes the records of a model one after another, seen as the four lists of what it was given.
#[derive(Drop)]
pub struct ModelBuilder {
    allocator: Global,
    functions: Vec<ModelFunction>,
    silent: Vec<SilentEdge>,
    sys: Vec<SysEdge>,
    calls: Vec<CallEdge>,
}

impl std::marker::Model for ModelBuilder {
    ghost use Rattle.flow_model.specs.Built.{Records};

    ghost Value = { Records };

    ghost view = { λ b. record { functions = b.functions.items; silent = b.silent.items; sys = b.sys.items; calls = b.calls.items } };
}

impl ModelBuilder {
    /// A builder with no record.
    pub fn new(alloc: Global) -> Result<ModelBuilder, OutOfMemory>
        ensures { IfOk result (λ b. b ≡ record { functions = []; silent = []; sys = []; calls = [] }) }
    {
        Ok(ModelBuilder {
            allocator: alloc,
            functions: Vec::new(alloc),
            silent: Vec::new(alloc),
            sys: Vec::new(alloc),
            calls: Vec::new(alloc),
        })
    }

    /// Adds a function after those that were added before. It changes nothing where memory is
    /// refused.
    pub fn function(&mut self, one: ModelFunction) -> Result<(), OutOfMemory>
        ensures ok { OnOk result (self.new ≡ record self.old { functions = self.old.functions ++ one ∷ [] }) }
        ensures err { OnErr result (self.new ≡ self.old) }
    {
        self.functions.push(one)?;
        Ok(())
    }

    /// Adds a silent edge. It changes nothing where memory is refused.
    pub fn silent(&mut self, one: SilentEdge) -> Result<(), OutOfMemory>
        ensures ok { OnOk result (self.new ≡ record self.old { silent = self.old.silent ++ one ∷ [] }) }
        ensures err { OnErr result (self.new ≡ self.old) }
    {
        self.silent.push(one)?;
        Ok(())
    }

    /// Adds a system-call edge. It changes nothing where memory is refused.
    pub fn sys(&mut self, one: SysEdge) -> Result<(), OutOfMemory>
        ensures ok { OnOk result (self.new ≡ record self.old { sys = self.old.sys ++ one ∷ [] }) }
        ensures err { OnErr result (self.new ≡ self.old) }
    {
        self.sys.push(one)?;
        Ok(())
    }

    /// Adds a call edge. It changes nothing where memory is refused.
    pub fn call(&mut self, one: CallEdge) -> Result<(), OutOfMemory>
        ensures ok { OnOk result (self.new ≡ record self.old { calls = self.old.calls ++ one ∷ [] }) }
        ensures err { OnErr result (self.new ≡ self.old) }
    {
        self.calls.push(one)?;
        Ok(())
    }

    /// The model of the records, with so many nodes and this start function: the functions in the
    /// order in which they were added, the edges and the candidates of each call in increasing
    /// order; where they were added in that order, the model is just the records. It takes n log n
    /// steps for n records. Where the records break a rule, it names the least one; the builder is
    /// gone then.
    pub fn finish(mut self, nodes: u32, start: u32) -> Result<Model, FinishError>
        ensures made { IfOk result (λ m. IsMadeOf (graph_of_records self nodes start) m) }
        ensures valid { IfOk result (λ m. IsValid m) }
        ensures kept { IsInOrder (graph_of_records self nodes start) → IfOk result (λ m. m ≡ graph_of_records self nodes start) }
        ensures rules { OnOk result (KeepsRules (graph_of_records self nodes start)) }
        ensures invalid { IfErr result (λ e. (k : ℕ) → e ≡ FinishError.Invalid k → IsLeastBroken (graph_of_records self nodes start) k) }
    {
        self.check_first_five(nodes, start)?;
        if !self.sort() {
            return Err(FinishError::Invalid(6));
        }
        if !self.has_right_patterns() {
            return Err(FinishError::Invalid(7));
        }
        let model = self.into_model(nodes, start)?;
        Ok(model)
    }

    // Names the least of the rules 1 to 5 that the records break.
    fn check_first_five(&self, nodes: u32, start: u32) -> Result<(), FinishError>
        ensures ok { OnOk result (KeepsFirstFive (graph_of_records self.now nodes start)) }
        ensures err { IfErr result (λ e. IsCause (graph_of_records self.now nodes start) e) }
    {
        if !has_right_entries(&self.functions, nodes) {
            return Err(FinishError::Invalid(1));
        }
        if !has_own_exits(&self.functions, nodes) {
            return Err(FinishError::Invalid(2));
        }
        if !self.has_right_names()? {
            return Err(FinishError::Invalid(3));
        }
        if !self.has_inner_edges(nodes) {
            return Err(FinishError::Invalid(4));
        }
        if !self.has_known_functions(start) {
            return Err(FinishError::Invalid(5));
        }
        Ok(())
    }

    // Whether the functions have names that differ.
    fn has_right_names(&self) -> Result<bool, OutOfMemory>
        ensures { IfOk result (λ right. IsTrue right ↔ HasRightNames self.now.functions) }
    {
        if !are_named(&self.functions) {
            return Ok(false);
        }
        do_names_differ(self.allocator, &self.functions)
    }

    // Whether the two nodes of each edge are owned by one function.
    fn has_inner_edges(&self, nodes: u32) -> bool
        requires { HasRightEntries self.now.functions nodes }
        ensures { (start : ℕ) → IsTrue result ↔ HasInnerEdges (graph_of_records self.now nodes start) }
    {
        are_silent_inner(&self.functions, nodes, &self.silent)
            && are_sys_inner(&self.functions, nodes, &self.sys)
            && are_calls_inner(&self.functions, nodes, &self.calls)
    }

    // Whether there is a function, and the start and the candidates are functions.
    fn has_known_functions(&self, start: u32) -> bool
        ensures { (nodes : ℕ) → IsTrue result ↔ HasKnownFunctions (graph_of_records self.now nodes start) }
    {
        (start as usize) < self.functions.len()
            && are_candidates_below(&self.calls, self.functions.len())
    }

    // Sorts the edges and the candidates of each call, and tells whether no edge, no site and no
    // candidate of a call stands twice.
    fn sort(&mut self) -> bool
        ensures same { (nodes start : ℕ) → IsMadeOf (graph_of_records self.old nodes start) (graph_of_records self.new nodes start) }
        ensures repeats { (nodes start : ℕ) → IsTrue result ↔ HasNoRepeats (graph_of_records self.old nodes start) }
        ensures order { (nodes start : ℕ) → IsTrue result → IsInOrder (graph_of_records self.new nodes start) }
    {
        sort_edges(&mut self.silent, &mut self.sys, &mut self.calls)
    }

    // Whether each pattern is right for its system call.
    fn has_right_patterns(&self) -> bool
        ensures { (nodes start : ℕ) → IsTrue result ↔ HasRightPatterns (graph_of_records self.now nodes start) }
    {
        are_patterns_right(&self.sys)
    }

    // The model that has these records, which are in order and keep the rules.
    fn into_model(self, nodes: u32, start: u32) -> Result<Model, OutOfMemory>
        requires { IsValid (graph_of_records self nodes start) }
        ensures { IfOk result (λ m. m ≡ graph_of_records self nodes start) }
    {
        Model::indexed(
            self.allocator,
            nodes,
            start,
            self.functions,
            self.silent,
            self.sys,
            self.calls,
        )
    }
}

// Sorts the edges and the candidates of each call, and tells whether no edge, no site and no
// candidate of a call stands twice. The clauses speak of any graph that has these edges.
fn sort_edges(silent: &mut [SilentEdge], sys: &mut [SysEdge], calls: &mut [CallEdge]) -> bool
    ensures same { (g : Graph) → IsMadeOf (record g { silent = silent.old; sys = sys.old; calls = calls.old }) (record g { silent = silent.new; sys = sys.new; calls = calls.new }) }
    ensures repeats { (g : Graph) → IsTrue result ↔ HasNoRepeats (record g { silent = silent.old; sys = sys.old; calls = calls.old }) }
    ensures order { (g : Graph) → IsTrue result → IsInOrder (record g { silent = silent.new; sys = sys.new; calls = calls.new }) }
{
    let are_silent_new = sort_silent(silent);
    let are_sys_new = sort_sys(sys);
    let are_candidates_new = sort_candidates(calls);
    let are_sites_new = sort_calls(calls);
    are_silent_new && are_sys_new && are_candidates_new && are_sites_new
}
