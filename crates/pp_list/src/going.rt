//! A call on a list, turn by turn.

use pp_base::Place;
use pp_link::Link;
use pp_model::Call;
use pp_pool::fresh::Fresh;
use pp_walk::walk::{Found, Walk};

/// What a call on a list does with its key.
#[derive(Clone, Copy, Debug, PartialEq, Eq)]
pub enum ListOp {
    Get,
    Insert { value: u128 },
    Remove,
    Cut { value: u128 },
}

/// What a remove or a cut has marked and not yet tried to detach.
#[derive(Clone, Copy, Debug, PartialEq, Eq)]
pub struct Marked {
    /// The head or a held record before it.
    pub anchor: Place,
    /// Leads to the first record of what its walk gathered, or to the marked one.
    pub first: Link,
    /// Leads to the record behind the marked one, or to nil.
    pub next: Link,
    /// The walk word in which it is held.
    pub word: u8,
    pub value: u128,
}

/// The next turn of a call.
#[derive(Clone, Copy, Debug, PartialEq, Eq)]
pub enum Next {
    /// A turn of its walk.
    Walks(Walk),
    /// An insert detaches what its walk gathered.
    Detaches(Found),
    /// A remove or a cut marks the record where its walk ended.
    Marks(Found),
    /// An insert publishes its record between the anchor and the end of its walk.
    Publishes(Found),
    /// A remove or a cut detaches the record that it marked.
    Unlinks(Marked),
    /// The call was answered.
    Over,
}

/// A call on a list that was begun.
#[derive(Drop)]
pub struct ListGoing {
    /// The list of its key.
    pub head: u32,
    pub call: Call,
    /// How many of its turns may be lost before it takes effect.
    pub races: u64,
    /// How many were lost.
    pub lost: u64,
    /// Whether it has taken effect.
    pub struck: bool,
    pub next: Next,
    /// The record of an insert. It is kept over lost turns.
    pub fresh: Option<Fresh>,
}
