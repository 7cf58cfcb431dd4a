ghost use Rattle.std.specs.Prelude.{◌≡◌, ◌↔◌, ◌<◌, ◌≤◌, ℕ, length, take, IsTrue, IfSome, IfNone, Some};
ghost use Rattle.certify_facts.specs.declared.fact.Fact.{Fact as Fact'};
ghost use Rattle.certify_facts.specs.Confirms.{HoldsAt, AllHold, facts_of};
ghost use Rattle.certify_facts.specs.Reasons.{IsNamed, HasReason, HasReturn, IsSilent, IsEntered, IsReturned, IsReturnedAlong, IsRead, IsLinked};
ghost use Rattle.certify.specs.Refusals.{FailsFirst};

use certify_facts::{Fact, FactLine, Reason};
use certify_steps::{
    is_entered, is_linked, is_read, is_returned, is_silent, is_start, returned_along,
};
use dm_base::Event;
use flow_model::Model;

// The fact with this number among the first ones.
fn named(lines: &[FactLine], before: usize, number: u32) -> Option<Fact>
    requires { before ≤ length lines.now }
    ensures { (x : Fact') → (result ≡ Some x) ↔ IsNamed (facts_of (take before lines.now)) number x }
{
    if number == 0 {
        return None;
    }
    if number as usize > before {
        return None;
    }
    Some(lines[number as usize - 1].fact)
}

fn has_silent(model: &Model, lines: &[FactLine], before: usize, number: u32, y: Fact) -> bool
    requires { before ≤ length lines.now }
    ensures { IsTrue result ↔ ((x : Fact') × IsNamed (facts_of (take before lines.now)) number x × IsSilent model.now x y) }
{
    match named(lines, before, number) {
        Some(x) => is_silent(model, x, y),
        None => false,
    }
}

fn has_enter(
    model: &Model,
    lines: &[FactLine],
    before: usize,
    number: u32,
    site: u32,
    y: Fact,
) -> bool
    requires { before ≤ length lines.now }
    ensures { IsTrue result ↔ ((x : Fact') × IsNamed (facts_of (take before lines.now)) number x × IsEntered model.now site x y) }
{
    match named(lines, before, number) {
        Some(x) => is_entered(model, site, x, y),
        None => false,
    }
}

fn has_site_return(
    model: &Model,
    lines: &[FactLine],
    before: usize,
    number: u32,
    site: u32,
    y: Fact,
) -> bool
    requires { before ≤ length lines.now }
    ensures { IsTrue result ↔ ((x : Fact') × IsNamed (facts_of (take before lines.now)) number x × IsReturned model.now site x y) }
{
    match named(lines, before, number) {
        Some(x) => is_returned(model, site, x, y),
        None => false,
    }
}

fn has_event(
    model: &Model,
    trace: &[Event],
    lines: &[FactLine],
    before: usize,
    number: u32,
    y: Fact,
) -> bool
    requires { before ≤ length lines.now }
    ensures { IsTrue result ↔ ((x : Fact') × IsNamed (facts_of (take before lines.now)) number x × IsRead model.now trace.now x y) }
{
    match named(lines, before, number) {
        Some(x) => is_read(model, trace, x, y),
        None => false,
    }
}

fn has_link(model: &Model, lines: &[FactLine], before: usize, number: u32, y: Fact) -> bool
    requires { before ≤ length lines.now }
    ensures { IsTrue result ↔ ((x : Fact') × IsNamed (facts_of (take before lines.now)) number x × IsLinked model.now x y) }
{
    match named(lines, before, number) {
        Some(x) => is_linked(model, x, y),
        None => false,
    }
}

// Whether the two facts are one.
fn are_equal(x: Fact, y: Fact) -> bool
    ensures { IsTrue result ↔ (x ≡ y) }
{
    x == y
}

// Whether the fact y follows from the fact x and the link z.
fn is_along(model: &Model, x: Fact, z: Fact, y: Fact) -> bool
    ensures { IsTrue result ↔ IsReturnedAlong model.now x z y }
{
    match returned_along(model, x, z) {
        Some(found) => are_equal(found, y),
        None => false,
    }
}

// Whether the fact y follows from the fact x and the link with the number.
fn is_along_named(
    model: &Model,
    lines: &[FactLine],
    before: usize,
    x: Fact,
    number: u32,
    y: Fact,
) -> bool
    requires { before ≤ length lines.now }
    ensures { IsTrue result ↔ ((z : Fact') × IsNamed (facts_of (take before lines.now)) number z × IsReturnedAlong model.now x z y) }
{
    match named(lines, before, number) {
        Some(z) => is_along(model, x, z, y),
        None => false,
    }
}

fn has_link_return(
    model: &Model,
    lines: &[FactLine],
    before: usize,
    number: u32,
    link: u32,
    y: Fact,
) -> bool
    requires { before ≤ length lines.now }
    ensures { IsTrue result ↔ ((x : Fact') × IsNamed (facts_of (take before lines.now)) number x × ((z : Fact') × IsNamed (facts_of (take before lines.now)) link z × IsReturnedAlong model.now x z y)) }
{
    match named(lines, before, number) {
        Some(x) => is_along_named(model, lines, before, x, link, y),
        None => false,
    }
}

fn has_return(
    model: &Model,
    lines: &[FactLine],
    before: usize,
    number: u32,
    second: u32,
    y: Fact,
) -> bool
    requires { before ≤ length lines.now }
    ensures { IsTrue result ↔ HasReturn model.now (facts_of (take before lines.now)) number second y }
{
    match y {
        Fact::Callgraph { .. } => has_site_return(model, lines, before, number, second, y),
        Fact::At { .. } => has_link_return(model, lines, before, number, second, y),
        Fact::Link { .. } => false,
    }
}

// Whether the reason of the fact holds, where so many lines stand before it.
fn has_reason(
    model: &Model,
    trace: &[Event],
    lines: &[FactLine],
    before: usize,
    reason: Reason,
    y: Fact,
) -> bool
    requires { before ≤ length lines.now }
    ensures { IsTrue result ↔ HasReason model.now trace.now (facts_of (take before lines.now)) reason y }
{
    match reason {
        Reason::Start => is_start(model, y),
        Reason::Silent(r) => has_silent(model, lines, before, r, y),
        Reason::Enter(r, s) => has_enter(model, lines, before, r, s, y),
        Reason::Return(r, l) => has_return(model, lines, before, r, l, y),
        Reason::Event(r) => has_event(model, trace, lines, before, r, y),
        Reason::Link(r) => has_link(model, lines, before, r, y),
    }
}

// Whether the reason of the line at the place holds.
fn holds_at(model: &Model, trace: &[Event], lines: &[FactLine], place: usize) -> bool
    requires { place < length lines.now }
    ensures { IsTrue result ↔ HoldsAt model.now trace.now lines.now place }
{
    let line = lines[place];
    has_reason(model, trace, lines, place, line.reason, line.fact)
}

// The place of the first line whose reason doesn't hold.
pub fn first_failing(model: &Model, trace: &[Event], lines: &[FactLine]) -> Option<usize>
    ensures some { IfSome result (FailsFirst model.now trace.now lines.now) }
    ensures none { IfNone result (AllHold model.now trace.now lines.now) }
{
    for place in 0..lines.len() {
        if !holds_at(model, trace, lines, place) {
            return Some(place);
        }
    }
    None
}
