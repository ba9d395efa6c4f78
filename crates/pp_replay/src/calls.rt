//! The calls of a replay: read from the source, or made.

ghost use Rattle.std.specs.Prelude.{◌≡◌, ◌≤◌, ◌<◌, map, length, Some, None, IfOk, IfErr};
ghost use Rattle.pp_trace.specs.MadeTrace.{IsMade};
ghost use Rattle.pp_trace.specs.TraceLists.{IsTrace};
ghost use Rattle.pp_devices.specs.declared.ways.Way.TheVariants as Way;
ghost use Rattle.pp_words.specs.Words.{MakeFits};
ghost use Rattle.pp_devices.specs.Devices.{device};
ghost use Rattle.pp_replay.specs.Replay.{HasCalls, WasRead};
ghost use Rattle.pp_replay.specs.Parts.{HasNoCalls, HasBadTrace};

use pp_devices::Way;
use pp_model::Call;
use pp_outside::{ReadFault, Source, read_all};
use pp_trace::{Make, Trace, TraceFault, parse};
use std::alloc::Global;

/// A trace has at most this many bytes.
const LONGEST: u32 = 16_777_216;

/// The calls of each caller: those of the made trace, where one is asked for, and else those that the source says.
///
/// # Errors
///
/// The way in which the replay ends without them.
pub fn take_calls<S: Source>(
    alloc: Global,
    make: Option<Make>,
    callers: u32,
    source: &mut S,
) -> Result<Vec<Vec<Call>>, Way>
    requires callers { (1 ≤ callers) × (callers ≤ 64) }
    requires make { MakeFits make }
    ensures calls { IfOk result (λ lists. HasCalls make callers (device (S.left source.old) (S.faults source.old))
        (device (S.left source.new) (S.faults source.new)) (map (λ v. v.items) lists.items)) }
    ensures none { IfErr result (λ way. HasNoCalls way make callers (device (S.left source.old) (S.faults source.old))
        (device (S.left source.new) (S.faults source.new))) }
{
    match make {
        Some(make) => make_calls(alloc, make, callers),
        None => read_calls(alloc, callers, source),
    }
}

fn make_calls(alloc: Global, make: Make, callers: u32) -> Result<Vec<Vec<Call>>, Way>
    requires callers { (1 ≤ callers) × (callers ≤ 64) }
    requires make { (make.seed ≤ 2147483647) × (make.lines ≤ 1000000) }
    ensures calls { IfOk result (λ lists. IsMade make.seed make.lines callers (map (λ v. v.items) lists.items)) }
    ensures none { IfErr result (λ way. way ≡ Way.NoMemory) }
{
    match Trace::made(alloc, make, callers) {
        Ok(trace) => Ok(trace.into_lists()),
        Err(_) => Err(Way::NoMemory),
    }
}

fn read_calls<S: Source>(alloc: Global, callers: u32, source: &mut S) -> Result<Vec<Vec<Call>>, Way>
    requires callers { (1 ≤ callers) × (callers ≤ 64) }
    ensures calls { IfOk result (λ lists. WasRead callers (device (S.left source.old) (S.faults source.old))
        (device (S.left source.new) (S.faults source.new)) (map (λ v. v.items) lists.items)) }
    ensures none { IfErr result (λ way. HasNoCalls way None callers (device (S.left source.old) (S.faults source.old))
        (device (S.left source.new) (S.faults source.new))) }
{
    match read_all(alloc, source, LONGEST) {
        Ok(bytes) => parse_calls(alloc, &bytes, callers),
        Err(ReadFault::Failed) => Err(Way::Unread),
        Err(ReadFault::TooLong) => Err(Way::TooLong),
        Err(ReadFault::NoMemory) => Err(Way::NoMemory),
    }
}

fn parse_calls(alloc: Global, bytes: &[u8], callers: u32) -> Result<Vec<Vec<Call>>, Way>
    requires callers { (1 ≤ callers) × (callers ≤ 64) }
    requires short { length bytes.now ≤ 16777216 }
    ensures calls { IfOk result (λ lists. IsTrace bytes.now callers (map (λ v. v.items) lists.items)) }
    ensures none { IfErr result (HasBadTrace bytes.now callers) }
{
    match parse(alloc, bytes, callers) {
        Ok(trace) => Ok(trace.into_lists()),
        Err(TraceFault::BadLine { line, why }) => Err(Way::BadLine { line, why }),
        Err(TraceFault::NoMemory) => Err(Way::NoMemory),
    }
}
