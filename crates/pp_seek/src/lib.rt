//! Seeks: how a call comes from the root of a tree to the leaf of its key. The layers above have a `Seek` make turns until it has `Sought`
//! a leaf, with what is held above it.
#![tactic(auto)]

pub mod keeping;
pub mod seek;
pub mod steps;
pub mod turn;

pub use seek::{Above, Seek, SeekTurn, Sought, Spot};
