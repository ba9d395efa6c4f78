//! What a seat of the table knows. No value of these types is made: they stand in contracts alone.

use pp_link::Sizes;
use pp_model::steps::OrderEntry;
use std::collections::LinkedList;

/// An entry of the order of all steps, and the calls that were placed in the log at it: one or none.
pub struct LoggedStep<E, A> {
    pub entry: OrderEntry<E>,
    pub placed: LinkedList<A>,
}

/// A value, by its low and its high 64 bits.
pub struct Halves {
    pub low: u64,
    pub high: u64,
}

/// What a pass knows of one of its walk words.
pub struct WalkSlot {
    /// What stands in the word.
    pub named: u64,
    /// Whether the pass holds that record.
    pub held: bool,
    /// What the record was published with, while it is held.
    pub key: u64,
    pub value: Halves,
    /// The frozen links that were read, each with its side.
    pub learnt: LinkedList<(u64, u64)>,
}

/// A link of a detached record, and the word that it had when the record was detached.
pub struct ChainLink {
    pub number: u64,
    pub side: u64,
    pub word: u64,
}

/// Records that one exchange detached, until they are retired.
pub struct Chain {
    pub records: LinkedList<u64>,
    /// The frontier word that guards it.
    pub guard: u64,
    /// The record that it leads to, or 0.
    pub frontier: u64,
    /// Its links as they were.
    pub links: LinkedList<ChainLink>,
    /// The links that have no INVALID yet, as far as is known: each a record and a side.
    pub valid: LinkedList<(u64, u64)>,
}

/// A record that is free with a pass or private to it, and what stands in it.
pub struct PrivateRecord {
    pub number: u64,
    pub key: u64,
    pub value: u64,
    pub left: u64,
    pub right: u64,
    pub high: u64,
}

/// How far the reclaim pass of a pass has come.
pub struct Scan {
    /// How many hazard words it has read: the frontier words first, then the walk words.
    pub read: u64,
    /// The retired numbers that none of them named.
    pub left: LinkedList<u64>,
}

/// What is known of one pass.
pub struct PassState<W> {
    pub number: u64,
    pub sizes: Sizes,
    pub owned: LinkedList<PrivateRecord>,
    pub retired: LinkedList<u64>,
    pub walk: LinkedList<WalkSlot>,
    pub frontier: LinkedList<u64>,
    pub chains: LinkedList<Chain>,
    pub scan: Scan,
    /// The part of the shape.
    pub own: W,
}

/// The order of all steps that a pass had seen when its seat was joined to another.
pub struct JoinedOrder<E, A> {
    pub pass: u64,
    pub order: LinkedList<LoggedStep<E, A>>,
}

/// What a seat knows: the order of all steps up to the last one of its own, and the passes that it stands for.
pub struct SeatView<E, A, W> {
    pub order: LinkedList<LoggedStep<E, A>>,
    /// A seat that was joined to another stands for no pass.
    pub standing: bool,
    pub known: PassState<W>,
    /// The other passes that it stands for: those that it took over, or has still to deal.
    pub taken: LinkedList<PassState<W>>,
    /// The orders of the seats that were joined.
    pub kept: LinkedList<JoinedOrder<E, A>>,
    /// The orders that it took over from notes, until it has learnt that they begin that of all steps.
    pub met: LinkedList<LinkedList<LoggedStep<E, A>>>,
}
