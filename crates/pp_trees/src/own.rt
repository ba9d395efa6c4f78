//! What a tree adds to what is known of a pass. No value of these types is made: they stand in contracts alone.

use pp_model::Call;
use std::collections::LinkedList;

/// An internal record over whose tagged edge a walk went: the side and the word of that edge, and the leaf beside it.
pub struct Passed {
    pub number: u64,
    pub side: u64,
    pub word: u64,
    pub leaf: u64,
}

/// The seek of a call, and what the pass removed and perhaps left attached.
pub struct TreeOwn {
    pub going: bool,
    pub call: Call,
    /// The length of the log after the call's first step.
    pub start: u64,
    /// The walk word of the internal record where the call stands; 5 where it stands at the head.
    pub at: u64,
    /// The walk word of the record to which the last untagged edge led, the successor; 5 where there is none.
    pub top: u64,
    /// The tagged edges from there on.
    pub path: LinkedList<Passed>,
    /// The side of the record where the call stands at which it read FLAG or set it; 2 where it did neither.
    pub flag: u64,
    /// The leaf to which that edge leads.
    pub beside: u64,
    /// The numbers of the leaves that the pass put FLAG on, but for those that it published again since.
    pub left: LinkedList<u64>,
}
