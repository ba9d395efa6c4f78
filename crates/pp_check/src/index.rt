//! What a key's value is at a place of a log, found without computing the map there.

ghost use Rattle.std.specs.Prelude.{◌≡◌, ◌+◌, ◌≤◌, length, IfOk, IsTrue, ◌↔◌};
ghost use Rattle.pp_model.specs.Calls.{key_of, reply_at};
ghost use Rattle.pp_model.specs.FiniteMap.{find};
ghost use Rattle.pp_model.specs.History.{after};
ghost use Rattle.pp_check.specs.Histories.{SoundTo};
ghost use Rattle.pp_check.specs.Indexes.{IsIndex, Rises, IsSplit, IsBefore, left_by};

use pp_model::{Call, Change, NoMemory, Reply};
use std::alloc::Global;

/// The key of a change, and the change's position in its log.
#[derive(Clone, Copy, Debug, PartialEq, Eq, PartialOrd, Ord)]
pub struct Touch {
    pub key: u64,
    pub at: usize,
}

impl Touch {
    fn is_before(&self, key: u64, at: usize) -> bool
        ensures { IsTrue result ↔ IsBefore self.now key at }
    {
        self.key < key || self.key == key && self.at < at
    }
}

/// The touches of a log's changes, by their keys and then by their positions.
pub fn index_of(alloc: Global, log: &[Change]) -> Result<Vec<Touch>, NoMemory>
    ensures { IfOk result (λ index. IsIndex log.now index.items) }
{
    let Ok(mut touches) = Vec::with_capacity(alloc, log.len()) else {
        return Err(NoMemory);
    };
    for (at, change) in log.iter().enumerate() {
        let key = key_of(&change.call);
        if touches.push(Touch { key, at }).is_err() {
            return Err(NoMemory);
        }
    }
    touches.sort_unstable();
    Ok(touches)
}

/// The value that a key has after the first `place` changes of a log, each of which changed the map. It is what the last of them on
/// this key left.
pub fn value_at(log: &[Change], index: &[Touch], key: u64, place: usize) -> Option<u128>
    requires index { IsIndex log.now index.now }
    requires sound { SoundTo log.now place }
    requires within { place ≤ length log.now }
    ensures { result ≡ find (after log.now place) key }
{
    let count = count_before(index, key, place);
    if count == 0 {
        return None;
    }
    let last = index[count - 1];
    if last.key != key {
        return None;
    }
    left_by(&log[last.at].call)
}

/// How many touches come before the changes of a key from a position on, by a binary search.
fn count_before(index: &[Touch], key: u64, at: usize) -> usize
    requires { Rises index.now }
    ensures { IsSplit index.now key at result }
{
    let mut low = 0;
    let mut high = index.len();
    while low < high {
        let middle = low + (high - low) / 2;
        if index[middle].is_before(key, at) {
            low = middle + 1;
        } else {
            high = middle;
        }
    }
    low
}

/// The key that a call speaks of.
pub fn key_of(call: &Call) -> u64
    ensures { result ≡ key_of call.now }
{
    match call {
        Call::Get { key }
        | Call::Insert { key, .. }
        | Call::Remove { key }
        | Call::Cut { key, .. } => *key,
    }
}

/// The value that a call which changes the map leaves at its key.
fn left_by(call: &Call) -> Option<u128>
    ensures { result ≡ left_by call.now }
{
    match call {
        Call::Insert { value, .. } => Some(*value),
        Call::Get { .. } | Call::Remove { .. } | Call::Cut { .. } => None,
    }
}

/// The reply to a call whose key has this value.
pub fn reply_to(call: &Call, found: Option<u128>) -> Reply
    ensures { result ≡ reply_at call.now found }
{
    match (call, found) {
        (Call::Get { .. }, Some(value)) => Reply::Value(value),
        (Call::Insert { .. }, Some(value)) => Reply::Held(value),
        (Call::Insert { .. }, None) => Reply::Added,
        (Call::Remove { .. }, Some(value)) => Reply::Took(value),
        (Call::Cut { value, .. }, Some(found)) if found == *value => Reply::Took(found),
        (Call::Cut { .. }, Some(found)) => Reply::Other(found),
        (Call::Get { .. } | Call::Remove { .. } | Call::Cut { .. }, None) => Reply::Absent,
    }
}
