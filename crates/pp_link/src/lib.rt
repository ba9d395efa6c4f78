//! Link words, and the layout of the table that holds all words of a pool. The layers above build and read words by `Link`, and find each
//! word's place by `Layout`.
#![tactic(auto)]

pub mod laws;
pub mod layout;
pub mod link;

pub use layout::{Field, Layout, Sizes};
pub use link::Link;

#[cfg(test)]
mod tests;
