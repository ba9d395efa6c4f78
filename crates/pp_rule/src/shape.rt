//! What a structure adds to the rule of its pool.

ghost use Rattle.std.specs.Prelude.{◌≡◌, ◌≢◌, ℕ, ◌+◌, ◌*◌, ◌<◌, ◌≤◌, Bool, true, false, List, [], length};
ghost use Rattle.std.specs.Prelude.{slice_index, slice_set, vec_capacity};
ghost use Rattle.pp_link.specs.declared.layout.Sizes.{Sizes};
ghost use Rattle.pp_link.specs.Links.{word_of, target};
ghost use Rattle.pp_link.specs.Places.{IsWithin, field_number};
ghost use Rattle.pp_model.specs.declared.Pair.{Pair};
ghost use Rattle.pp_rule.specs.Orders.{log_of, placed_by};
ghost use Rattle.pp_rule.specs.Views.{WalkSlot, Chain};
ghost use Rattle.pp_rule.specs.States.{PoolState};
ghost use Rattle.pp_rule.specs.Rule.{Base};
ghost use Rattle.pp_rule.specs.Ties.{Holds};
ghost use Rattle.pp_rule.specs.Opening.{opening_words, first_view};
ghost use Rattle.pp_rule.specs.Laws.{Freezes, HeadsOpen, LinksOpen, MetAtOpening, KeptAlike, KeptCleared, KeptInvalid};
ghost use Rattle.pp_rule.specs.Alone.{HasOwnChanges};
ghost use Rattle.pp_rule.specs.Reached.{ReachesAll};
ghost use Rattle.pp_rule.specs.Laws.{Chained, MayDetach, KeptDetached, Closes};

use crate::views::{Chain, SeatView, WalkSlot};
use atomic_table::TableRule;
use pp_link::{Field, Layout, Link, Sizes};
use pp_model::Pair;
use std::marker::PhantomData;

/// What a structure adds to the rule of its pool: facts about the heads, the records in use, the log and its own
/// part of each pass. The addition doesn't look at hazard words, free records or private records, and the steps
/// that every pool has keep it.
pub trait Shape {
    /// What the log lists.
    type Entry;

    /// What a pass's list of placed calls has.
    type Said;

    /// The shape's part of what is known of a pass.
    type Own;

    /// How many records, from 1 on, are attached from the opening on.
    const SENTINELS: u32;

    /// How many records an insert needs.
    const NEED: u32;

    /// How many links of a record the structure uses: the left one, or both.
    const SIDES: u8;

    ghost SENTINELS: { ℕ };

    ghost NEED: { ℕ };

    ghost SIDES: { ℕ };

    // the word with which a head opens
    ghost first_head: { ℕ → ℕ };

    // the word with which a field of a sentinel opens
    ghost first_field: { ℕ → ℕ → ℕ };

    // the shape's part of a pass at the opening
    ghost fresh: { Self.Own };

    ghost addition: { Sizes → List ℕ → PoolState Self.Entry Self.Said Self.Own → Type 0 };

    // whether the word of a link never changes but for INVALID
    ghost frozen: { ℕ → Bool };

    // the shape's part of a pass that cleared a walk word
    ghost forget: { ℕ → Self.Own → Self.Own };

    // the chain that an exchange of one word for another detaches under a frontier word, as a pass knows it by its walk words
    // and its part of the shape
    ghost chain: { List WalkSlot → Self.Own → ℕ → ℕ → ℕ → Chain };

    // what a pass has to know by them for that exchange of the word at a place
    ghost may_detach: { Sizes → List WalkSlot → Self.Own → ℕ → ℕ → ℕ → Type 0 };

    // what the contents and the live numbers of closed words are
    ghost gathered: { Sizes → List ℕ → List Pair → List ℕ → Type 0 };

    // how many live numbers there are with so many pairs
    ghost live_count: { ℕ → ℕ };

    // what the log of a closed pool says of its contents
    ghost tells: { Sizes → List Self.Entry → List Pair → Type 0 };

    // what it says of the placed calls of a pass
    ghost tells_pass: { Sizes → List Self.Entry → ℕ → List Self.Said → Type 0 };

    // the pass to which a change belongs
    ghost caller_of: { Self.Entry → ℕ };

    /// The word with which a field of a sentinel starts.
    fn opening(number: u32, field: Field) -> u64
        requires { (1 ≤ number) × (number ≤ SENTINELS) }
        ensures { result ≡ first_field number (field_number field) };

    /// The link with which a head starts.
    fn head(head: u32) -> Link
        ensures { word_of result ≡ first_head head };

    /// Appends the pairs and the live numbers of a closed table. It takes no memory: both lists have room for all
    /// records.
    fn gather(layout: &Layout, words: &[u64], contents: &mut Vec<Pair>, live: &mut Vec<u32>)
        requires rule { (g : PoolState Self.Entry Self.Said Self.Own)
            × Base SIDES layout.now words.now g × addition layout.now words.now g }
        requires none { (contents.old.items ≡ []) × (live.old.items ≡ []) }
        requires room { (layout.now.records ≤ vec_capacity contents.old) × (layout.now.records ≤ vec_capacity live.old) }
        ensures { gathered layout.now words.now contents.new.items live.new.items };

    // A structure has one link or two.
    ghost sided: { (1 ≤ SIDES) × (SIDES ≤ 2) };

    // The smallest pool has room for the sentinels.
    ghost fits: { SENTINELS ≤ 8 };

    ghost heads_open: { HeadsOpen SENTINELS first_head };

    ghost links_open: { LinksOpen SIDES SENTINELS first_field };

    ghost freezes: { Freezes frozen };

    ghost opened: { MetAtOpening SIDES addition SENTINELS first_head first_field fresh };

    ghost alike: { KeptAlike SIDES addition };

    ghost clears: { KeptCleared SIDES addition forget };

    ghost invalidates: { KeptInvalid SIDES addition };

    // Each attached record can be reached from a head by links.
    ghost reached: { ReachesAll SIDES addition };

    ghost chained: { Chained SIDES addition chain may_detach };

    ghost detaches: { MayDetach SIDES addition chain may_detach };

    ghost detached: { KeptDetached SIDES addition chain may_detach };

    // The changes of each step are those of the pass that made it.
    ghost own_changes: { HasOwnChanges addition caller_of };

    ghost gathers: { Closes SIDES addition gathered live_count tells tells_pass };
}

/// The rule of the table of a pool of this shape.
pub struct PoolRule<S> {
    shape: PhantomData<S>,
}

impl<S: Shape> TableRule<(), SeatView<S::Entry, S::Said, S::Own>, Sizes> for PoolRule<S> {
    ghost holds = { Holds S.SIDES (opening_words S.SENTINELS S.first_head S.first_field) S.addition };

    ghost first = { first_view S.SENTINELS S.fresh };
}
