//! Whole replays, from words and bytes to statuses, bytes and lines. But for the replays that tests begin with, it has tests alone.
#![tactic(auto)]

#[cfg(test)]
mod crossing;
#[cfg(test)]
mod devices;
#[cfg(test)]
mod long;
pub mod replaying;
