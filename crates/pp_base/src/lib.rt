//! The table of a pool under its rule: pools, passes, and the atomic steps that every structure makes. The layers above make the steps of a
//! structure's own as those that `Pass` has (`load_word`, `store_word`, `exchange_word`, `set_bits`, `swap_word`), and all others by the
//! crates `pp_pool`, `pp_hazard`, `pp_unlink`, `pp_reclaim` and `pp_shelf`.
#![tactic(auto)]

pub mod chains;
pub mod frontier;
pub mod hazards;
pub mod pool;
pub mod private;
pub mod purse;
pub mod row;
pub mod scan;
pub mod seats;
pub mod shelves;
pub mod source;
pub mod steps;

pub use pool::{Pass, Pool};
pub use purse::{InHand, Purse};
pub use row::RowShape;
pub use source::{Place, Side};
