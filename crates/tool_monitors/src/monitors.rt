use crate::judging::Judging;
use crate::pair::Pair;
use callgraph_monitor::CallgraphMonitor;
use dyck_monitor::DyckMonitor;
use stack_automaton::StackMonitor;

/// The three monitors, in the order of their lines.
pub type AllMonitors = Pair<
    Judging<CallgraphMonitor>,
    Pair<Judging<StackMonitor>, Judging<DyckMonitor>>,
>;
