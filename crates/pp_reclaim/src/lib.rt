//! Reclaiming: a pass reads all hazard words, and what none of them names is free with it. The layers above use `reclaim` and no more.
#![tactic(auto)]

pub mod reclaiming;
pub mod scanning;

pub use reclaiming::reclaim;
