ghost use Rattle.std.specs.Prelude.{◌≡◌, ◌<◌, ℕ, nat_eq, None, length, slice_index_or, IfOk};
ghost use Rattle.c_meaning.specs.CallGraph.{callee_at};
ghost use Rattle.flow_graph.specs.Saying.{mention_of, said};
ghost use Rattle.null_calls_temporaries.specs.Callees.{callee_where, put_where, callee_after};

use c_tree::CType;
use dm_base::OutOfMemory;
use flow_graph::Mention;
use std::alloc::Global;

// What is called: the function with this number by its name, or a pointer of this type.
#[derive(Clone, Copy)]
pub enum Designator<'p> {
    Function(u32),
    Pointer(&'p CType),
}

// Puts what is called at the site there.
fn put<'p>(callees: &mut [Option<Designator<'p>>], site: u32, one: Designator<'p>)
    ensures length { length callees.new ≡ length callees.old }
    ensures put { (s : ℕ) → s < length callees.old → slice_index_or callees.new s None ≡ put_where (nat_eq s site) one.entry (slice_index_or callees.old s None) }
{
    let place = site as usize;
    if place >= callees.len() {
        return;
    }
    callees[place] = Some(one);
}

// Puts what the mention calls at its site.
fn put_call<'p>(callees: &mut [Option<Designator<'p>>], m: &Mention<'p>)
    ensures length { length callees.new ≡ length callees.old }
    ensures put { (s : ℕ) → s < length callees.old → callee_where (slice_index_or callees.new s None) ≡ callee_after s (mention_of m.now) (callee_where (slice_index_or callees.old s None)) }
{
    match m {
        Mention::Named(_) => {}
        Mention::Direct { site, function } => put(callees, *site, Designator::Function(*function)),
        Mention::Through { site, ctype } => put(callees, *site, Designator::Pointer(*ctype)),
    }
}

// Puts what the mentions call at their sites. Of two with one site the first counts, so the last one is put first.
fn put_calls<'p>(callees: &mut [Option<Designator<'p>>], ms: &[Mention<'p>])
    ensures length { length callees.new ≡ length callees.old }
    ensures put { (s : ℕ) → s < length callees.old → slice_index_or callees.old s None ≡ None → callee_where (slice_index_or callees.new s None) ≡ callee_at s (said ms.now) }
{
    let count = ms.len();
    for i in 0..count {
        let place = count - 1 - i;
        put_call(callees, &ms[place]);
    }
}

// So many sites without a call.
fn no_callees<'p>(alloc: Global, sites: u32) -> Result<Vec<Option<Designator<'p>>>, OutOfMemory>
    ensures length { IfOk result (λ v. length v.items ≡ sites) }
    ensures none { IfOk result (λ v. (s : ℕ) → slice_index_or v.items s None ≡ None) }
{
    let mut callees = Vec::new(alloc);
    for _site in 0..sites {
        callees.push(None)?;
    }
    Ok(callees)
}

// What is called at each site.
pub fn callees_of<'p>(
    alloc: Global,
    ms: &[Mention<'p>],
    sites: u32,
) -> Result<Vec<Option<Designator<'p>>>, OutOfMemory>
    ensures length { IfOk result (λ v. length v.items ≡ sites) }
    ensures are { IfOk result (λ v. (s : ℕ) → s < sites → callee_where (slice_index_or v.items s None) ≡ callee_at s (said ms.now)) }
{
    let mut callees = no_callees(alloc, sites)?;
    put_calls(&mut callees, ms);
    Ok(callees)
}

// What is called at the site.
pub fn callee_in<'p>(callees: &[Option<Designator<'p>>], site: u32) -> Option<Designator<'p>>
    ensures { result ≡ slice_index_or callees.now site None }
{
    match callees.get(site as usize) {
        Some(one) => *one,
        None => None,
    }
}
