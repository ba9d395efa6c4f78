//! Worked scenes over a queue, and whole replays of a queue's traces: what no single clause says, run once each. This crate has
//! tests alone.
#![tactic(auto)]

#[cfg(test)]
mod replays;
#[cfg(test)]
mod staging;
#[cfg(test)]
mod stalled;
#[cfg(test)]
mod tests;
