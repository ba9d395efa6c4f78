//! What tests of whole programs have in common: their words, devices in memory, what they showed, and callers that wait for one another.
//! The crates of such tests make a `Stage`, and give a program its parts.
#![tactic(auto)]

pub mod crossing;
pub mod staging;

pub use crossing::Crossing;
pub use staging::{Devices, SOUND, Shown, Stage, words_of};
