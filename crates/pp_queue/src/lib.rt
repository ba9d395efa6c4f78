//! The queue of a pool: its shape, the steps that are its own, and its calls. The layers above `start` a `Queue`, `put` and `take` through
//! each pass, and `close` it.
#![tactic(auto)]

pub mod calling;
pub mod calls;
pub mod closing;
pub mod opening;
pub mod queue;
pub mod records;
pub mod shape;
pub mod steps;
pub mod tidying;
pub mod trying;

pub use closing::QueueClosed;
pub use queue::Queue;
pub use shape::QueueShape;
