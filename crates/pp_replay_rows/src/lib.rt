//! Replays as worked by hand, in tables. This crate has tests alone.
#![tactic(auto)]

#[cfg(test)]
mod rows;
