//! A call on a tree, turn by turn.

use pp_base::Side;
use pp_link::Link;
use pp_model::Call;
use pp_pool::fresh::Fresh;
use pp_seek::{Seek, Sought};

/// The next turn of a call.
#[derive(Clone, Copy, Debug, PartialEq, Eq)]
pub enum Next {
    /// A turn of its seek.
    Seeks(Seek),
    /// An insert publishes its two records at the edge where its seek ended.
    Publishes(Sought),
    /// A remove or a cut sets FLAG in the edge where its seek ended.
    Flags(Sought),
    /// TAG is set in the parent's edge at this side.
    Tags(Sought, Side),
    /// The path that was found is spliced out, up to the sibling, which the parent's edge at this side led to.
    Splices(Sought, Side, Link),
    /// The call was answered.
    Over,
}

/// A call on a tree that was begun.
#[derive(Drop)]
pub struct TreeGoing {
    pub call: Call,
    /// How many of its turns may be lost before it takes effect.
    pub races: u64,
    /// How many were lost.
    pub lost: u64,
    /// Whether it has taken effect.
    pub struck: bool,
    /// The value that it took, if it has taken one.
    pub taken: u128,
    pub next: Next,
    /// The two records of an insert, the leaf's first. They are kept over lost turns.
    pub records: Option<(Fresh, Fresh)>,
}
