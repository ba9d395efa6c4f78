//! The rule of a pool's table: what the threads know of it, what is true of it between any two atomic steps, and what a structure adds to
//! that. A structure implements `Shape`, and cites the lemma of each kind of step; only `pp_base` makes the steps themselves.
#![tactic(auto)]

pub mod shape;
pub mod views;

pub use shape::{PoolRule, Shape};
