//! Calls on one list of a pool, turn by turn. The layers above begin a `ListGoing` for a `ListOp`, and have it make turns until one of them
//! answers.
#![tactic(auto)]

pub mod calls;
pub mod ending;
pub mod going;
pub mod parts;
pub mod records;
pub mod stored;
pub mod turns;

pub use going::{ListGoing, ListOp};
