//! The devices of a program: what its source and its sink show, the ways in which it ends, and the line on `errs` that tells its way. The
//! programs end in a `Way`, and `tell` writes its line and gives its status.
#![tactic(auto)]

mod telling;
mod ways;

pub use telling::{tell, tell_line, write_text};
pub use ways::Way;
