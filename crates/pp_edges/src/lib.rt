//! The shape of the pool of a tree, and the steps with which calls change a tree's edges. The layers above use `publish`, `flag`, `tag` and
//! `splice`, each at edges that a seek has found.
#![tactic(auto)]

pub mod edges;
pub mod shape;

pub use edges::{Flagged, Published, flag, publish, splice, tag};
pub use shape::TreeShape;
