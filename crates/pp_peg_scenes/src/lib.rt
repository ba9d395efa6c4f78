//! A second shape for scenes, PegShape, and worked scenes over pools of it: what no single clause says, run once each. This crate has tests
//! alone.
#![tactic(auto)]

#[cfg(test)]
mod filling;
#[cfg(test)]
mod peg_tests;
pub mod pegs;
#[cfg(test)]
mod shelving;
#[cfg(test)]
mod staging;
