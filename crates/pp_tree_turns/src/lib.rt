//! The turns of a tree's calls, each by the steps that it makes. The layers above use `publish_turn`, `flag_turn`, `tag_turn` and
//! `splice_turn` after a seek, and read a tree's steps as this crate does.
#![tactic(auto)]

pub mod filling;
pub mod turns;

pub use filling::publish_turn;
pub use turns::{flag_turn, other, splice_turn, tag_turn};
