//! Plans of turns, calls that are made by them, and whole replays by a plan. This crate has tests alone.
#![tactic(auto)]

#[cfg(test)]
mod plans;
#[cfg(test)]
mod replays;
#[cfg(test)]
mod turns;
