ghost use Rattle.std.specs.Prelude.{◌≡◌, ◌≢◌, ◌↔◌, AllPairs, IsTrue, IfOk};
ghost use Rattle.std.specs.Ordering.{nat_cmp};
ghost use Rattle.flow_model.specs.Built.{IsReordered};
ghost use Rattle.flow_model.specs.Order.{StrictlyRise};

use crate::sorting::sort_apart;
use dm_base::{Bytes, OutOfMemory, Pattern, SysName};
use std::alloc::Global;

/// A function of a model: its name, the node at which it begins and the one at which it ends.
pub struct ModelFunction {
    pub name: Bytes,
    pub entry: u32,
    pub exit: u32,
}

impl Drop for ModelFunction {
    fn drop(self) {
        let Self {
            name: _name,
            entry: _entry,
            exit: _exit,
        } = self;
    }
}

impl ModelFunction {
    /// An equal function.
    pub fn copy(&self, alloc: Global) -> Result<ModelFunction, OutOfMemory>
        ensures { IfOk result (λ copied. copied ≡ self.now) }
    {
        Ok(ModelFunction {
            name: Bytes::of(alloc, self.name.as_slice())?,
            entry: self.entry,
            exit: self.exit,
        })
    }
}

/// An edge along which nothing is read.
#[derive(Clone, Copy, PartialEq, Eq, PartialOrd, Ord)]
pub struct SilentEdge {
    pub from: u32,
    pub to: u32,
}

/// An edge along which a system call is read, where its arguments fit the pattern. Such edges are
/// ordered by their fields from the first on.
#[derive(Clone, Copy, PartialEq, Eq, PartialOrd, Ord)]
pub struct SysEdge {
    pub from: u32,
    pub name: SysName,
    pub to: u32,
    pub args: Pattern,
}

/// A call at a site, seen as its two nodes, its site and the list of the functions that it may
/// enter, each by its place in the model.
pub struct CallEdge {
    begins: u32,
    at_site: u32,
    ends: u32,
    functions: Vec<u32>,
}

impl Drop for CallEdge {
    fn drop(self) {
        let Self {
            begins: _begins,
            at_site: _at_site,
            ends: _ends,
            functions: _functions,
        } = self;
    }
}

impl std::marker::Model for CallEdge {
    ghost use Rattle.flow_model.specs.Call.{Call};

    ghost Value = { Call };

    ghost view = { λ c. record { from = c.begins; site = c.at_site; to = c.ends; candidates = c.functions.items } };
}

impl CallEdge {
    /// The call edge with these nodes, this site and these candidates.
    pub fn new(from: u32, site: u32, to: u32, candidates: Vec<u32>) -> Self
        ensures { result ≡ record { from = from; site = site; to = to; candidates = candidates.items } }
    {
        CallEdge {
            begins: from,
            at_site: site,
            ends: to,
            functions: candidates,
        }
    }

    /// The node before the call.
    pub fn from(&self) -> u32
        ensures { result ≡ self.now.from }
    {
        self.begins
    }

    /// The number of the site.
    pub fn site(&self) -> u32
        ensures { result ≡ self.now.site }
    {
        self.at_site
    }

    /// The node after the call.
    pub fn to(&self) -> u32
        ensures { result ≡ self.now.to }
    {
        self.ends
    }

    /// The functions that the call may enter.
    pub fn candidates(&self) -> &[u32]
        ensures { result.now ≡ self.now.candidates }
    {
        &self.functions
    }

    // Sorts the candidates, and tells whether none stands twice.
    pub(crate) fn sort_candidates(&mut self) -> bool
        ensures same { IsReordered self.old self.new }
        ensures differ { IsTrue result ↔ AllPairs (λ f h. f ≢ h) self.old.candidates }
        ensures rise { IsTrue result → StrictlyRise nat_cmp self.new.candidates }
    {
        sort_apart(&mut self.functions)
    }

    /// An equal call edge, in memory of the allocator that this one keeps.
    pub fn copy(&self) -> Result<CallEdge, OutOfMemory>
        ensures { IfOk result (λ copied. copied ≡ self.now) }
    {
        Ok(CallEdge {
            begins: self.begins,
            at_site: self.at_site,
            ends: self.ends,
            functions: self.functions.clone()?,
        })
    }
}
