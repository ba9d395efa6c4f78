//! The settings of a replay, read from the words of its command line. The layers above have `settings` read them, and use what `Settings`
//! holds.
#![tactic(auto)]

mod command;
mod values;
pub mod words;

use pp_trace::Make;

/// The map that a replay runs.
#[derive(Clone, Copy, Debug, PartialEq, Eq)]
pub enum Kind {
    /// The plain sequential map, for one caller.
    Plain,
    /// One list.
    List,
    /// A hash table of lists.
    Hash,
    /// A search tree.
    Tree,
}

/// The settings of a replay.
#[derive(Clone, Copy, Debug, PartialEq, Eq)]
pub struct Settings {
    /// The map that runs; without a default.
    pub map: Kind,
    /// The number of callers, 1 to 64: 4 where it is left out. The plain map has 1.
    pub callers: u32,
    /// The number of records, 8 to 262144: 65536 where it is left out.
    pub records: u32,
    /// The number of buckets of the hash table, 1 to 4096: 64 where it is left out.
    pub buckets: u32,
    /// The turns that a call may lose before it is given up, 1 to 1099511627776, which is the default.
    pub races: u64,
    /// The made trace that stands in place of the source, if one was asked for.
    pub make: Option<Make>,
}

/// Why words say no settings.
#[derive(Clone, Copy, Debug, PartialEq, Eq)]
pub enum WordsFault {
    /// The words are no settings.
    BadWords,
    /// There was no memory.
    NoMemory,
}
