//! Worked scenes over a table of lists: its calls turn by turn, with what no single clause says, run once each. This crate has tests alone.
//!
//! Where a link was loaded once and is loaded again to confirm it, another caller's step would have to come between two steps of
//! one turn for INVALID to stand there. No test on one thread can bring that about, so that these scenes meet INVALID at the first
//! load of a turn and at the load of the held record's own link alone. The contract of `Walk::turn` speaks of all three.
#![tactic(auto)]

#[cfg(test)]
mod chains;
#[cfg(test)]
mod readers;
#[cfg(test)]
mod staging;
#[cfg(test)]
mod stopped;
#[cfg(test)]
mod tables;
#[cfg(test)]
mod walks;
#[cfg(test)]
mod writers;
