//! Protection: a pass reads a link and holds the record that it leads to. The layers above hold a record by `try_protect`, read it by
//! `link`, `key` and `value`, and let it go by `clear`.
#![tactic(auto)]

pub mod protection;
pub mod reading;

pub use protection::{Protect, clear, try_protect};
pub use reading::{key, link, value};
