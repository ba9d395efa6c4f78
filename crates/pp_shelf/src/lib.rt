//! Shelves: free records that pass from one pass to another over shared words. A pass that has more free records than its share puts some
//! on shelves, and one that has too few takes some from there. The layers above use `tidy` and `collect`, or a step of theirs alone, `put`
//! and `take_any`.
#![tactic(auto)]

pub mod putting;
pub mod taking;

pub use putting::{put, tidy};
pub use taking::{collect, take_any};
