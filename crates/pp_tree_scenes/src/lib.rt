//! Worked scenes over a tree: its calls turn by turn, with what no single clause says, run once each. This crate has tests alone.
#![tactic(auto)]

#[cfg(test)]
mod hands;
#[cfg(test)]
mod helpers;
#[cfg(test)]
mod parents;
#[cfg(test)]
mod paths;
#[cfg(test)]
mod readers;
#[cfg(test)]
mod seeks;
#[cfg(test)]
mod smallest;
#[cfg(test)]
mod staging;
#[cfg(test)]
mod stopped;
#[cfg(test)]
mod writers;
