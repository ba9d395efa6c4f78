//! What a pass keeps of its going call on a list. No value of these types is made: they stand in contracts alone.

use pp_model::Call;
use std::collections::LinkedList;

/// A removed record that the walk came through, and its left link.
pub struct Gathered {
    pub number: u64,
    pub link: u64,
}

/// The part of a pass that is a list's own.
pub struct ListOwn {
    /// Whether the call walks.
    pub going: bool,
    pub call: Call,
    /// How many changes had taken effect after the first step of the call.
    pub start: u64,
    /// The walk word of the record where the call stands. At the head it is 5.
    pub at: u64,
    /// The walk word of the first record of the chain. Where nothing is gathered it is 5.
    pub first: u64,
    pub chain: LinkedList<Gathered>,
    /// The records that the pass marked as removed and hasn't published since. Those that are still attached are left to
    /// later walks.
    pub left: LinkedList<u64>,
}
