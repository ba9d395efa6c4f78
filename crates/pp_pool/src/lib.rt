//! A pool from its opening to its end: it is made with a pass for each caller, its records are taken and given back, and it is closed over
//! all its passes. The layers above use `make_pool` and `close`, fill a taken record (`take`, `set_key`, `set_value`, `set_link`), and then
//! call it `published` or give it back.
#![tactic(auto)]

pub mod carried;
pub mod closing;
pub mod fresh;
pub mod notes;
pub mod opening;

pub use carried::Note;
pub use closing::{Witness, close};
pub use fresh::{Fresh, give_back, published, set_key, set_link, set_value, take};
pub use notes::{learn, note};
pub use opening::make_pool;
