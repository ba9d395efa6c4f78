//! Taking chains of records out of a structure, and retiring them once no link leads through them any more. The layers above detach by
//! `try_unlink`, and `invalidate` or `flush` before they reclaim.
#![tactic(auto)]

pub mod invalidating;
pub mod unlinking;

pub use invalidating::{flush, invalidate};
pub use unlinking::{Unlink, flush_full, free_word, try_unlink};
