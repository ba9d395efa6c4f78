//! The grammar of a queue's trace.

ghost use Rattle.std.specs.Prelude.{◌≡◌, ◌<◌, ◌≤◌, List, [], length, map, replicate, IfSome, IfOk, IfErr, OnOk};
ghost use Rattle.std.specs.List.{between};
ghost use Rattle.pp_trace.specs.Grammar.{number_below};
ghost use Rattle.pp_trace.specs.Lines.{fields_of};
ghost use Rattle.pp_queue_replay.specs.Grammar.{reading, call_of, put_of, take_of, with_call, IsTrace, TraceCause};

use pp_queues::calls::QueueCall;
use pp_trace::{Number, Span, TraceFault, Why, next_field, next_line, read_number};
use std::alloc::{AllocError, Global};

/// What a line of a trace says.
#[derive(Clone, Copy, Debug, PartialEq, Eq)]
pub(crate) enum Reading {
    /// It is skipped.
    Nothing,
    /// The caller asks this call.
    Asks { caller: u32, call: QueueCall },
    /// It is bad.
    Bad(Why),
}

fn read_line(bytes: &[u8], line: Span, callers: u32) -> Reading
    requires order { line.start ≤ line.end }
    requires within { line.end ≤ length bytes.now }
    ensures { result ≡ reading callers (fields_of (between line.start line.end bytes.now)) }
{
    let Some(first) = next_field(bytes, line.start, line.end) else {
        return Reading::Nothing;
    };
    if bytes[first.start] == b'#' {
        return Reading::Nothing;
    }
    let Some(caller) = read_caller(bytes, first, callers) else {
        return Reading::Bad(Why::Caller);
    };
    match read_call(bytes, first.next, line.end) {
        Ok(call) => Reading::Asks { caller, call },
        Err(why) => Reading::Bad(why),
    }
}

/// The number of a caller that a field writes, if it is one.
fn read_caller(bytes: &[u8], field: Span, callers: u32) -> Option<u32>
    requires order { field.start ≤ field.end }
    requires within { field.end ≤ length bytes.now }
    ensures number { result ≡ number_below callers (between field.start field.end bytes.now) }
{
    match read_number(bytes, field.start, field.end) {
        Number::Is(number) if number < u128::from(callers) => Some(number as u32),
        _ => None,
    }
}

/// The call that the fields between two places say, from its word on.
fn read_call(bytes: &[u8], from: usize, end: usize) -> Result<QueueCall, Why>
    requires order { from ≤ end }
    requires within { end ≤ length bytes.now }
    ensures { result ≡ call_of (fields_of (between from end bytes.now)) }
{
    let Some(word) = next_field(bytes, from, end) else {
        return Err(Why::Word);
    };
    match &bytes[word.start..word.end] {
        b"put" => read_put(bytes, word.next, end),
        b"take" => read_take(bytes, word.next, end),
        _ => Err(Why::Word),
    }
}

/// The put of the value between two places, where nothing else stands.
fn read_put(bytes: &[u8], from: usize, end: usize) -> Result<QueueCall, Why>
    requires order { from ≤ end }
    requires within { end ≤ length bytes.now }
    ensures { result ≡ put_of (fields_of (between from end bytes.now)) }
{
    let Some(field) = next_field(bytes, from, end) else {
        return Err(Why::Fields);
    };
    if next_field(bytes, field.next, end).is_some() {
        return Err(Why::Fields);
    }
    match read_number(bytes, field.start, field.end) {
        Number::Is(value) => Ok(QueueCall::Put { value }),
        _ => Err(Why::Value),
    }
}

/// A take, where nothing stands between two places.
fn read_take(bytes: &[u8], from: usize, end: usize) -> Result<QueueCall, Why>
    requires order { from ≤ end }
    requires within { end ≤ length bytes.now }
    ensures { result ≡ take_of (fields_of (between from end bytes.now)) }
{
    if next_field(bytes, from, end).is_some() {
        return Err(Why::Fields);
    }
    Ok(QueueCall::Take)
}

/// So many lists without calls.
fn empty_lists(alloc: Global, callers: u32) -> Result<Vec<Vec<QueueCall>>, AllocError>
    requires { callers ≤ 64 }
    ensures { IfOk result (λ lists. map (λ v. v.items) lists.items ≡ replicate callers []) }
{
    let mut lists = Vec::with_capacity(alloc, callers as usize)?;
    for _ in 0..callers {
        lists.push(Vec::new(alloc))?;
    }
    Ok(lists)
}

/// Reads a trace of at most 16777216 bytes for 1 to 64 callers: in each line the caller's number, and `put` with a value up to
/// 2^128 - 1, or `take`.
///
/// It gives the list of each caller's calls.
///
/// # Errors
///
/// - `BadLine` exactly where a line is bad: the first one, by the first of its causes.
/// - `NoMemory`: there was no memory for the calls.
pub(crate) fn parse(
    alloc: Global,
    bytes: &[u8],
    callers: u32,
) -> Result<Vec<Vec<QueueCall>>, TraceFault>
    requires callers { (0 < callers) × (callers ≤ 64) }
    requires short { length bytes.now ≤ 16777216 }
    ensures lists { IfOk result (λ lists. IsTrace bytes.now callers (map (λ v. v.items) lists.items)) }
    ensures fault { IfErr result (TraceCause bytes.now callers) }
{
    let mut lists = empty_lists(alloc, callers)?;
    let mut line = 0u32;
    let mut from = 0usize;
    while let Some(span) = next_line(bytes, from) {
        line += 1;
        match read_line(bytes, span, callers) {
            Reading::Nothing => {}
            Reading::Asks { caller, call } => enter_call(&mut lists, caller, call)?,
            Reading::Bad(why) => return Err(TraceFault::BadLine { line, why }),
        }
        from = span.next;
    }
    Ok(lists)
}

/// Adds a call at the end of one caller's list.
fn enter_call(
    lists: &mut Vec<Vec<QueueCall>>,
    caller: u32,
    call: QueueCall,
) -> Result<(), AllocError>
    requires { caller < length lists.old.items }
    ensures { OnOk result (map (λ v. v.items) lists.new.items
        ≡ with_call (map (λ v. v.items) lists.old.items) caller call) }
{
    lists[caller as usize].push(call)?;
    Ok(())
}
