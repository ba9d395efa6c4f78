//! The grammar of a trace.

ghost use Rattle.std.specs.Prelude.{◌≡◌, ◌<◌, ◌≤◌, ◌^◌, length, IfSome, IfOk, IfErr};
ghost use Rattle.std.specs.List.{between};
ghost use Rattle.pp_trace.specs.Grammar.{reading, call_of, word_of, key_of_fields, pair_of_fields, number_below, value_in};
ghost use Rattle.pp_trace.specs.Lines.{fields_of};
ghost use Rattle.pp_trace.specs.TraceLists.{IsTrace, TraceCause};
ghost use Rattle.pp_trace.specs.declared.TraceFault.TheVariants.{NoMemory};

use crate::forms::{Form, Opening, read_opening};
use crate::scanning::{Number, Span, next_field, next_line, read_number};
use crate::{Trace, TraceFault, Why};
use pp_model::{Call, Pair};
use std::alloc::{AllocError, Global};

/// A key is below this number.
const KEY_BOUND: u128 = 18446744073709551613;

/// What a line of a trace says.
#[derive(Clone, Copy, Debug, PartialEq, Eq)]
pub(crate) enum Reading {
    /// It is skipped.
    Nothing,
    /// The caller asks this call.
    Asks { caller: u32, call: Call },
    /// It is bad.
    Bad(Why),
}

/// The word of a call.
#[derive(Clone, Copy, Debug, PartialEq, Eq)]
pub(crate) enum Word {
    Get,
    Insert,
    Remove,
    Cut,
}

pub(crate) fn read_line(bytes: &[u8], line: Span, form: Form, callers: u32) -> Reading
    requires order { line.start ≤ line.end }
    requires within { line.end ≤ length bytes.now }
    ensures { result ≡ reading form callers (fields_of (between line.start line.end bytes.now)) }
{
    let Some(first) = next_field(bytes, line.start, line.end) else {
        return Reading::Nothing;
    };
    if bytes[first.start] == b'#' {
        return Reading::Nothing;
    }
    let Some(caller) = read_below(bytes, first, u128::from(callers)) else {
        return Reading::Bad(Why::Caller);
    };
    match read_call(bytes, first.next, line.end, form) {
        Ok(call) => Reading::Asks {
            caller: caller as u32,
            call,
        },
        Err(why) => Reading::Bad(why),
    }
}

/// The call that the fields between two places say, from its word on.
fn read_call(bytes: &[u8], from: usize, end: usize, form: Form) -> Result<Call, Why>
    requires order { from ≤ end }
    requires within { end ≤ length bytes.now }
    ensures { result ≡ call_of form (fields_of (between from end bytes.now)) }
{
    let Some(word) = next_field(bytes, from, end) else {
        return Err(Why::Word);
    };
    match read_word(&bytes[word.start..word.end], form) {
        Some(Word::Get) => {
            let key = read_key(bytes, word.next, end)?;
            Ok(Call::Get { key })
        }
        Some(Word::Insert) => {
            let Pair { key, value } = read_pair(bytes, word.next, end, form)?;
            Ok(Call::Insert { key, value })
        }
        Some(Word::Remove) => {
            let key = read_key(bytes, word.next, end)?;
            Ok(Call::Remove { key })
        }
        Some(Word::Cut) => {
            let Pair { key, value } = read_pair(bytes, word.next, end, form)?;
            Ok(Call::Cut { key, value })
        }
        None => Err(Why::Word),
    }
}

fn read_word(field: &[u8], form: Form) -> Option<Word>
    ensures { result ≡ word_of form field.now }
{
    match field {
        b"get" => Some(Word::Get),
        b"insert" => Some(Word::Insert),
        b"remove" => Some(Word::Remove),
        b"cut" if form == Form::Second => Some(Word::Cut),
        _ => None,
    }
}

/// The key between two places, where nothing else stands.
fn read_key(bytes: &[u8], from: usize, end: usize) -> Result<u64, Why>
    requires order { from ≤ end }
    requires within { end ≤ length bytes.now }
    ensures { result ≡ key_of_fields (fields_of (between from end bytes.now)) }
{
    let Some(key) = next_field(bytes, from, end) else {
        return Err(Why::Fields);
    };
    if next_field(bytes, key.next, end).is_some() {
        return Err(Why::Fields);
    }
    read_below(bytes, key, KEY_BOUND).ok_or(Why::Key)
}

/// The key and the value between two places, where nothing else stands.
fn read_pair(bytes: &[u8], from: usize, end: usize, form: Form) -> Result<Pair, Why>
    requires order { from ≤ end }
    requires within { end ≤ length bytes.now }
    ensures { result ≡ pair_of_fields form (fields_of (between from end bytes.now)) }
{
    let Some(first) = next_field(bytes, from, end) else {
        return Err(Why::Fields);
    };
    let Some(second) = next_field(bytes, first.next, end) else {
        return Err(Why::Fields);
    };
    if next_field(bytes, second.next, end).is_some() {
        return Err(Why::Fields);
    }
    let Some(key) = read_below(bytes, first, KEY_BOUND) else {
        return Err(Why::Key);
    };
    let Some(value) = read_value(bytes, second, form) else {
        return Err(Why::Value);
    };
    Ok(Pair { key, value })
}

/// The number of a field, if it is one and below a bound.
fn read_below(bytes: &[u8], field: Span, bound: u128) -> Option<u64>
    requires order { field.start ≤ field.end }
    requires within { field.end ≤ length bytes.now }
    requires fits { bound ≤ 2 ^ 64 }
    ensures number { result ≡ number_below bound (between field.start field.end bytes.now) }
    ensures below { IfSome result (λ n. n < bound) }
{
    match read_number(bytes, field.start, field.end) {
        Number::Is(number) if number < bound => Some(number as u64),
        _ => None,
    }
}

/// The value that a field writes, if it is one of the form.
fn read_value(bytes: &[u8], field: Span, form: Form) -> Option<u128>
    requires order { field.start ≤ field.end }
    requires within { field.end ≤ length bytes.now }
    ensures { result ≡ value_in form (between field.start field.end bytes.now) }
{
    match read_number(bytes, field.start, field.end) {
        Number::Is(number) if number <= form.greatest_value() => Some(number),
        _ => None,
    }
}

impl From<AllocError> for TraceFault {
    ghost from_gives = { λ _ fault. fault ≡ NoMemory };

    fn from(_error: AllocError) -> TraceFault {
        TraceFault::NoMemory
    }
}

/// Reads a trace of at most 16777216 bytes for 1 to 64 callers: in each line the caller's number, and `get` with a
/// key, `insert` with a key and a value, or `remove` with a key. Where the first line that isn't skipped is `trace 2`, it is
/// skipped too, and the trace has the second form: also `cut` with a key and a value, and values up to 2^128 - 1.
///
/// It gives the list of each caller's calls. `BadLine` comes exactly where a line is bad, and tells the first one;
/// `NoMemory` comes where the memory for the calls isn't there.
pub fn parse(alloc: Global, bytes: &[u8], callers: u32) -> Result<Trace, TraceFault>
    requires callers { (0 < callers) × (callers ≤ 64) }
    requires short { length bytes.now ≤ 16777216 }
    ensures lists { IfOk result (IsTrace bytes.now callers) }
    ensures fault { IfErr result (TraceCause bytes.now callers) }
{
    let mut trace = Trace::empty(alloc, callers)?;
    let Opening {
        form,
        lines: mut line,
        mut from,
    } = read_opening(bytes);
    while let Some(span) = next_line(bytes, from) {
        line += 1;
        match read_line(bytes, span, form, callers) {
            Reading::Nothing => {}
            Reading::Asks { caller, call } => trace.push(caller, call)?,
            Reading::Bad(why) => return Err(TraceFault::BadLine { line, why }),
        }
        from = span.next;
    }
    Ok(trace)
}
