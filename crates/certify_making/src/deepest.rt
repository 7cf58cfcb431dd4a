ghost use Rattle.std.specs.Prelude.{◌≡◌};
ghost use Rattle.certify_making.specs.Ahead.{IsDeeper, IsDeepest, events_of};

use certify_facts::{Fact, FactLine};

// How many events the fact is about.
fn events_of(fact: Fact) -> u32
    ensures { result ≡ events_of fact }
{
    match fact {
        Fact::Callgraph { k, .. } => k,
        Fact::At { k, .. } => k,
        Fact::Link { i, .. } => i,
    }
}

// The greater of the number and that of the events that the fact is about.
fn deeper(events: u32, fact: Fact) -> u32
    ensures { IsDeeper events fact result }
{
    let its = events_of(fact);
    if its > events {
        return its;
    }
    events
}

// The greatest number of events that one of the facts is about, 0 where there is none.
pub fn deepest(lines: &[FactLine]) -> u32
    ensures { IsDeepest lines.now result }
{
    let mut events = 0;
    for line in lines {
        events = deeper(events, line.fact);
    }
    events
}
