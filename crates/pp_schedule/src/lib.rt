//! Calls of any map as futures, each poll one turn, and callers on one thread who make their turns by a plan. The layers above make a
//! `CallFuture` of a call, or `play` all callers by a `Schedule` under a `Runner`.
#![tactic(auto)]

pub mod call_future;
pub mod caller;
pub mod playing;
pub mod runner;
pub mod schedule;

pub use call_future::{CallFuture, Spoken};
pub use runner::{BlockOn, NoRunner, Runner};
