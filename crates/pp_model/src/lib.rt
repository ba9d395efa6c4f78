//! A map from keys to values as its callers see it: calls, replies, one history of them, and the interface that every map of this project
//! meets. The layers above implement `MapCalls` or call through it, by `answer_one` and `answer_all`, and have `linearization_is_legal` for
//! what their callers have seen; `PlainMap` is the sequential map.
#![tactic(auto)]

pub mod calling;
pub mod laws;
pub mod lists;
pub mod map_calls;
pub mod plain;
pub mod steps;

pub use map_calls::{CloseFault, Closed, MapCalls};
pub use plain::{PlainGoing, PlainKept, PlainMap, PlainPass};

/// A call on a map. Keys are at most 2^64 - 4; values are any 128 bits.
#[derive(Clone, Copy, Debug, PartialEq, Eq)]
pub enum Call {
    /// Asks for the value of a key.
    Get { key: u64 },
    /// Adds a pair where the key is absent.
    Insert { key: u64, value: u128 },
    /// Takes the pair of a key away.
    Remove { key: u64 },
    /// Takes the pair of a key away where it has this value.
    Cut { key: u64, value: u128 },
}

/// What a map replies to a call.
#[derive(Clone, Copy, Debug, PartialEq, Eq)]
pub enum Reply {
    /// A get found the key with this value.
    Value(u128),
    /// A get, a remove or a cut didn't find the key.
    Absent,
    /// An insert added its pair.
    Added,
    /// An insert found the key with this value, which stays.
    Held(u128),
    /// A remove or a cut took the pair away; this was its value.
    Took(u128),
    /// A cut found the key with this value, which stays: it isn't the one that was asked for.
    Other(u128),
}

ghost use Rattle.std.specs.Prelude.{◌≡◌};
ghost use Rattle.pp_model.specs.Calls.{changes};

impl Reply {
    /// Whether it says that the map was changed.
    pub fn changes(&self) -> bool
        ensures { result ≡ changes self.now }
    {
        matches!(self, Reply::Added | Reply::Took(_))
    }
}

/// How a call ended.
#[derive(Clone, Copy, Debug, PartialEq, Eq)]
pub enum Answer {
    /// With a reply, which stands in the history.
    Said(Reply),
    /// An insert found no free record; nothing changed.
    Full,
    /// The call lost as many turns as it was allowed, before it took effect; nothing changed.
    Lost { turns: u64 },
}

ghost use Rattle.pp_model.specs.MapCalls.{took_effect};

impl Answer {
    /// Whether the call took effect: it changed the map.
    pub fn took_effect(&self) -> bool
        ensures { result ≡ took_effect self.now }
    {
        match self {
            Answer::Said(said) => said.changes(),
            Answer::Full | Answer::Lost { .. } => false,
        }
    }
}

/// A change of a map, as the log of a run lists it: which caller's call of which number, from 1, made it.
#[derive(Clone, Copy, Debug, PartialEq, Eq)]
pub struct Change {
    pub caller: u32,
    pub number: u64,
    pub call: Call,
}

/// A call with its reply and its place in the log. The place of a change is its position, from 1; the place
/// of a call that changed nothing is the number of changes after which its reply is right.
#[derive(Clone, Copy, Debug, PartialEq, Eq)]
pub struct Placed {
    pub call: Call,
    pub reply: Reply,
    pub place: u64,
}

/// A key with its value.
#[derive(Clone, Copy, Debug, PartialEq, Eq)]
pub struct Pair {
    pub key: u64,
    pub value: u128,
}

/// There was no memory.
#[derive(Clone, Copy, Debug, PartialEq, Eq)]
pub struct NoMemory;

/// A call lost this many turns, which is all that it was allowed.
#[derive(Clone, Copy, Debug, PartialEq, Eq)]
pub struct Lost {
    pub turns: u64,
}

/// What an insert did.
#[derive(Clone, Copy, Debug, PartialEq, Eq)]
pub enum Inserted {
    /// It added its pair.
    Added,
    /// The key was there with this value, which stays.
    Held(u128),
}

/// What a cut did.
#[derive(Clone, Copy, Debug, PartialEq, Eq)]
pub enum Cut {
    /// It took the pair away: the key was there with the value asked for.
    Took,
    /// The key was there with this other value, which stays.
    Other(u128),
    /// The key was absent.
    Absent,
}

/// Why an insert did nothing.
#[derive(Clone, Copy, Debug, PartialEq, Eq)]
pub enum InsertFault {
    /// No free record was found.
    Full,
    /// It lost this many turns, which is all that it was allowed.
    Lost { turns: u64 },
}

/// What one turn of a call came to.
#[derive(Clone, Copy, Debug, PartialEq, Eq)]
pub enum Turned {
    /// The call goes on with another turn.
    On,
    /// The call ended with this answer.
    Done(Answer),
}
