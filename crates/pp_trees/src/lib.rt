//! What the records of a pool look like as a search tree, what every step makes of a walk, and how a tree opens and closes: definitions and
//! lemmas alone but for the values of its opening, on which the steps of `pp_edges` and `pp_seek` stand.
#![tactic(auto)]

pub mod gathering;
pub mod opening;
pub mod own;

pub use own::{Passed, TreeOwn};
