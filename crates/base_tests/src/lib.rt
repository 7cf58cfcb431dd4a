//! Tests of the crates at the bottom, over their public calls. Each call that can want memory is run
//! once with ample memory: `NodeSet::new` and `copy`, `BoundedStack::new` and `copy` in `sets`;
//! `read_whole`, `MemorySink::reserved` in `outside`. In
//! `uncalled` stand calls of higher crates that no command makes: `write_results`, `write_traces`,
//! `outcome_text`, `measure`, `next_names` and `next_line`; in `watching` how many states of the
//! monitors of stacks a watch holds, and a sweep after each step.
#![tactic(auto)]

#[cfg(test)]
mod outside;
#[cfg(test)]
mod sets;
#[cfg(test)]
mod uncalled;
#[cfg(test)]
mod watching;
