//! The pieces of an input, which callers claim by inserts, and how often each byte value stands in them. The layers above list the claims
//! by `all_claims_of`, and count by `count_owned`, `mark_owned` and `count_left`.
#![tactic(auto)]

pub mod claims;
pub mod counting;
pub mod leaving;
pub mod pieces;
