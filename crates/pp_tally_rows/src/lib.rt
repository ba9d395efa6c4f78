//! Tallies, and the pieces of an input, as worked by hand, in tables. This crate has tests alone.
#![tactic(auto)]

#[cfg(test)]
mod pieces;
#[cfg(test)]
mod rows;
#[cfg(test)]
mod sizes;
