//! What a line of a certificate says, and what may come next.

ghost use Rattle.std.specs.Prelude.{◌≡◌, ◌+◌, ◌≤◌, ◌<◌, [], length, IfSome, option_map};
ghost use Rattle.std.specs.List.{between};
ghost use Rattle.pp_certificate.specs.Words.{words_left};
ghost use Rattle.pp_certificate.specs.Lines.{opening_of, change_of_words, said_of_words, ending_of, line_entry};
ghost use Rattle.pp_certificate.specs.Lines.{called_at, call_of, word_of, reply_of, bare_reply, valued_reply};
ghost use Rattle.pp_certificate.specs.Stages.{next_stage, has_ended};

use crate::Entry;
use crate::words::{next_word, read_below, read_value};
use pp_model::{Call, Change, Placed, Reply};

/// A caller is below this number.
const CALLER_BOUND: u128 = 64;

/// A key is below this number.
const KEY_BOUND: u128 = 18446744073709551613;

/// The number of a call, and a place, are below this number.
const COUNT_BOUND: u128 = 18446744073709551616;

/// The word of a call.
#[derive(Clone, Copy, Debug, PartialEq, Eq)]
pub(crate) enum Word {
    Get,
    Insert,
    Remove,
    Cut,
}

/// A call, and the place in its line at which the fields behind it begin.
#[derive(Clone, Copy, Debug, PartialEq, Eq)]
pub(crate) struct Called {
    pub call: Call,
    pub next: usize,
}

/// How far a certificate has come.
#[derive(Clone, Copy, Debug, PartialEq, Eq)]
pub(crate) enum Stage {
    /// Nothing was read.
    Opening,
    /// The changes of the log are being read.
    Log,
    /// The calls of this caller are being read.
    Calls(u32),
    /// The last line was read.
    Ended,
}

impl Stage {
    /// How far it has come with one more entry, if this entry may come next.
    pub(crate) fn after(self, entry: &Entry) -> Option<Stage>
        ensures { result ≡ next_stage self entry.now }
    {
        match (self, entry) {
            (Stage::Opening, Entry::Opens) => Some(Stage::Log),
            (Stage::Log, Entry::Changes(_)) => Some(Stage::Log),
            (Stage::Log, Entry::Says { caller, .. }) => Some(Stage::Calls(*caller)),
            (Stage::Calls(before), Entry::Says { caller, .. }) if before <= *caller => {
                Some(Stage::Calls(*caller))
            }
            (Stage::Log | Stage::Calls(_), Entry::Ends) => Some(Stage::Ended),
            _ => None,
        }
    }

    /// Whether the last line was read.
    pub(crate) fn has_ended(self) -> bool
        ensures { result ≡ has_ended self }
    {
        matches!(self, Stage::Ended)
    }
}

/// What the line between two places says.
pub(crate) fn read_entry(bytes: &[u8], from: usize, end: usize) -> Option<Entry>
    requires order { from ≤ end }
    requires within { end ≤ length bytes.now }
    ensures { result ≡ line_entry (between from end bytes.now) }
{
    let word = next_word(bytes, from, end)?;
    match &bytes[word.start..word.end] {
        b"change" => read_change(bytes, word.next, end),
        b"said" => read_said(bytes, word.next, end),
        b"certificate" => read_opening(bytes, word.next, end),
        b"end" => read_ending(bytes, word.next, end),
        _ => None,
    }
}

fn read_opening(bytes: &[u8], from: usize, end: usize) -> Option<Entry>
    requires order { from ≤ end + 1 }
    requires within { end ≤ length bytes.now }
    ensures { result ≡ opening_of (words_left bytes.now from end) }
{
    let version = next_word(bytes, from, end)?;
    if next_word(bytes, version.next, end).is_some() {
        return None;
    }
    match &bytes[version.start..version.end] {
        b"1" => Some(Entry::Opens),
        _ => None,
    }
}

fn read_ending(bytes: &[u8], from: usize, end: usize) -> Option<Entry>
    requires order { from ≤ end + 1 }
    requires within { end ≤ length bytes.now }
    ensures { result ≡ ending_of (words_left bytes.now from end) }
{
    if next_word(bytes, from, end).is_some() {
        return None;
    }
    Some(Entry::Ends)
}

fn read_change(bytes: &[u8], from: usize, end: usize) -> Option<Entry>
    requires order { from ≤ end + 1 }
    requires within { end ≤ length bytes.now }
    ensures { result ≡ change_of_words (words_left bytes.now from end) }
{
    let caller = next_word(bytes, from, end)?;
    let number = next_word(bytes, caller.next, end)?;
    let caller = read_below(bytes, caller, CALLER_BOUND)?;
    let count = read_below(bytes, number, COUNT_BOUND)?;
    let called = read_call(bytes, number.next, end)?;
    if next_word(bytes, called.next, end).is_some() {
        return None;
    }
    Some(Entry::Changes(Change {
        caller: caller as u32,
        number: count,
        call: called.call,
    }))
}

fn read_said(bytes: &[u8], from: usize, end: usize) -> Option<Entry>
    requires order { from ≤ end + 1 }
    requires within { end ≤ length bytes.now }
    ensures { result ≡ said_of_words (words_left bytes.now from end) }
{
    let caller = next_word(bytes, from, end)?;
    let place = next_word(bytes, caller.next, end)?;
    let caller = read_below(bytes, caller, CALLER_BOUND)?;
    let at = read_below(bytes, place, COUNT_BOUND)?;
    let called = read_call(bytes, place.next, end)?;
    let reply = read_reply(bytes, called.next, end)?;
    Some(Entry::Says {
        caller: caller as u32,
        placed: Placed {
            call: called.call,
            reply,
            place: at,
        },
    })
}

/// The call that the next fields say, and where the fields behind it begin.
fn read_call(bytes: &[u8], from: usize, end: usize) -> Option<Called>
    requires order { from ≤ end + 1 }
    requires within { end ≤ length bytes.now }
    ensures call { option_map (called_at bytes.now end) result ≡ call_of (words_left bytes.now from end) }
    ensures next { IfSome result (λ r. r.next ≤ end + 1) }
{
    let word = next_word(bytes, from, end)?;
    let field = next_word(bytes, word.next, end)?;
    let kind = read_word(&bytes[word.start..word.end])?;
    let key = read_below(bytes, field, KEY_BOUND)?;
    match kind {
        Word::Get => Some(Called {
            call: Call::Get { key },
            next: field.next,
        }),
        Word::Insert => {
            let given = next_word(bytes, field.next, end)?;
            let value = read_value(bytes, given)?;
            Some(Called {
                call: Call::Insert { key, value },
                next: given.next,
            })
        }
        Word::Remove => Some(Called {
            call: Call::Remove { key },
            next: field.next,
        }),
        Word::Cut => {
            let given = next_word(bytes, field.next, end)?;
            let value = read_value(bytes, given)?;
            Some(Called {
                call: Call::Cut { key, value },
                next: given.next,
            })
        }
    }
}

fn read_word(field: &[u8]) -> Option<Word>
    ensures { result ≡ word_of field.now }
{
    match field {
        b"get" => Some(Word::Get),
        b"insert" => Some(Word::Insert),
        b"remove" => Some(Word::Remove),
        b"cut" => Some(Word::Cut),
        _ => None,
    }
}

/// The reply that the last fields of a line say.
fn read_reply(bytes: &[u8], from: usize, end: usize) -> Option<Reply>
    requires order { from ≤ end + 1 }
    requires within { end ≤ length bytes.now }
    ensures { result ≡ reply_of (words_left bytes.now from end) }
{
    let word = next_word(bytes, from, end)?;
    let Some(given) = next_word(bytes, word.next, end) else {
        return read_bare_reply(&bytes[word.start..word.end]);
    };
    if next_word(bytes, given.next, end).is_some() {
        return None;
    }
    let value = read_value(bytes, given)?;
    read_valued_reply(&bytes[word.start..word.end], value)
}

fn read_bare_reply(field: &[u8]) -> Option<Reply>
    ensures { result ≡ bare_reply field.now }
{
    match field {
        b"absent" => Some(Reply::Absent),
        b"added" => Some(Reply::Added),
        _ => None,
    }
}

fn read_valued_reply(field: &[u8], value: u128) -> Option<Reply>
    ensures { result ≡ valued_reply field.now value }
{
    match field {
        b"value" => Some(Reply::Value(value)),
        b"held" => Some(Reply::Held(value)),
        b"took" => Some(Reply::Took(value)),
        b"other" => Some(Reply::Other(value)),
        _ => None,
    }
}
