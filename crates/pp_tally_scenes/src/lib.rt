//! Whole tallies, from words and bytes to statuses, counts and lines. But for the tallies that tests begin with, it has tests alone.
#![tactic(auto)]

#[cfg(test)]
mod crossing;
#[cfg(test)]
mod devices;
pub mod tallying;
