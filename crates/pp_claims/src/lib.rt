//! Pieces of an input that callers claim by inserts into a map, each caller in a thread, and the counts of what each of them owns. The
//! layers above use `claim_on`, over any map, then `shares_of`, `count_shares`, `count_rest` and `total_of`.
#![tactic(auto)]

pub mod claiming;
pub mod rest;
pub mod shares;
pub mod totals;
