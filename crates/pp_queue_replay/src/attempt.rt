//! A replay up to its last write: words, calls, the run and its text.

ghost use Rattle.std.specs.Prelude.{◌≡◌, ◌≤◌, ℕ, List, [], map, length, Some, None, IfOk, IfErr, string_bytes};
ghost use Rattle.pp_devices.specs.declared.ways.Way.TheVariants as Way;
ghost use Rattle.pp_devices.specs.Devices.{Device, device, world};
ghost use Rattle.pp_words.specs.Words.{settings_of, InRange};
ghost use Rattle.pp_programs.specs.Causes.{Says};
ghost use Rattle.pp_queue_replay.specs.Grammar.{IsTrace};
ghost use Rattle.pp_queue_replay.specs.Jobs.{AreCalls};
ghost use Rattle.pp_queue_replay.specs.Parts.{HasNoCalls, HasBadTrace};
ghost use Rattle.pp_queue_replay.specs.Replay.{Cause, WasRead, and_list};
ghost use Rattle.pp_queue_replay.specs.View.{kept_run};

use crate::parsing::parse;
use crate::printing::finish;
use crate::running::run_on;
use pp_devices::Way;
use pp_outside::{Gate, ReadFault, Sink, Source, read_all};
use pp_queue::{Queue, QueueClosed};
use pp_queues::calls::{QueueAnswer, QueueCall};
use pp_trace::TraceFault;
use pp_words::words::settings;
use pp_words::{Settings, WordsFault};
use std::alloc::{AllocError, Global};
use std::thread::Threads;

/// A trace has at most this many bytes.
const LONGEST: u32 = 16_777_216;

/// What a replay came to: the way in which it ended, the closed queue where there was one, and the callers' answers.
#[derive(Drop)]
pub struct Attempt {
    pub way: Way,
    pub kept: Option<QueueClosed>,
    pub answers: Vec<Vec<QueueAnswer>>,
}

/// Makes a replay. The causes of its way are those of the ending.
pub fn make_attempt<R: Threads + Sync, S: Source, K: Sink, G: Gate + Sync>(
    rt: &R,
    alloc: Global,
    words: &[String],
    source: &mut S,
    sink: &mut K,
    gate: &G,
) -> Attempt
    ensures { Cause result.way (map string_bytes words.now)
        (world (device (S.left source.old) (S.faults source.old)) (device (K.written sink.old) (K.faults sink.old)))
        (world (device (S.left source.new) (S.faults source.new)) (device (K.written sink.new) (K.faults sink.new)))
        (map (λ v. v.items) result.answers.items) (kept_run result.kept) }
{
    let Ok(words) = with_list(alloc, words) else {
        return without_run(alloc, Way::NoMemory);
    };
    match settings(alloc, &words) {
        Ok(settings) => attempt_under(rt, alloc, settings, source, sink, gate),
        Err(WordsFault::BadWords) => without_run(alloc, Way::BadWords),
        Err(WordsFault::NoMemory) => without_run(alloc, Way::NoMemory),
    }
}

/// The words of a replay on a list, in which the rest are these.
fn with_list(alloc: Global, words: &[String]) -> Result<Vec<String>, AllocError>
    ensures { IfOk result (λ all. map string_bytes all.items ≡ and_list (map string_bytes words.now)) }
{
    let mut all = Vec::with_capacity(alloc, words.len())?;
    all.push(String::from_str(alloc, "--map")?)?;
    all.push(String::from_str(alloc, "list")?)?;
    for word in words {
        all.push(word.clone()?)?;
    }
    Ok(all)
}

fn without_run(alloc: Global, way: Way) -> Attempt
    ensures { (result.way ≡ way) × (result.kept ≡ None) × (result.answers.items ≡ []) }
{
    Attempt {
        way,
        kept: None,
        answers: Vec::new(alloc),
    }
}

fn attempt_under<R: Threads + Sync, S: Source, K: Sink, G: Gate + Sync>(
    rt: &R,
    alloc: Global,
    settings: Settings,
    source: &mut S,
    sink: &mut K,
    gate: &G,
) -> Attempt
    requires { InRange settings }
    ensures { (words : List (List ℕ)) → settings_of (and_list words) ≡ Some settings → Cause result.way words
        (world (device (S.left source.old) (S.faults source.old)) (device (K.written sink.old) (K.faults sink.old)))
        (world (device (S.left source.new) (S.faults source.new)) (device (K.written sink.new) (K.faults sink.new)))
        (map (λ v. v.items) result.answers.items) (kept_run result.kept) }
{
    if settings.make.is_some() {
        return without_run(alloc, Way::BadWords);
    }
    match read_calls(alloc, settings.callers, source) {
        Ok(lists) => run_queue(rt, alloc, settings, lists, sink, gate),
        Err(way) => without_run(alloc, way),
    }
}

/// The calls of each caller that the source says.
///
/// # Errors
///
/// The way in which the replay ends without them.
fn read_calls<S: Source>(
    alloc: Global,
    callers: u32,
    source: &mut S,
) -> Result<Vec<Vec<QueueCall>>, Way>
    requires callers { (1 ≤ callers) × (callers ≤ 64) }
    ensures calls { IfOk result (λ lists. WasRead callers (device (S.left source.old) (S.faults source.old))
        (device (S.left source.new) (S.faults source.new)) (map (λ v. v.items) lists.items)) }
    ensures none { IfErr result (λ way. HasNoCalls way callers (device (S.left source.old) (S.faults source.old))
        (device (S.left source.new) (S.faults source.new))) }
{
    match read_all(alloc, source, LONGEST) {
        Ok(bytes) => parse_calls(alloc, &bytes, callers),
        Err(ReadFault::Failed) => Err(Way::Unread),
        Err(ReadFault::TooLong) => Err(Way::TooLong),
        Err(ReadFault::NoMemory) => Err(Way::NoMemory),
    }
}

fn parse_calls(alloc: Global, bytes: &[u8], callers: u32) -> Result<Vec<Vec<QueueCall>>, Way>
    requires callers { (1 ≤ callers) × (callers ≤ 64) }
    requires short { length bytes.now ≤ 16777216 }
    ensures calls { IfOk result (λ lists. IsTrace bytes.now callers (map (λ v. v.items) lists.items)) }
    ensures none { IfErr result (HasBadTrace bytes.now callers) }
{
    match parse(alloc, bytes, callers) {
        Ok(lists) => Ok(lists),
        Err(TraceFault::BadLine { line, why }) => Err(Way::BadLine { line, why }),
        Err(TraceFault::NoMemory) => Err(Way::NoMemory),
    }
}

fn run_queue<R: Threads + Sync, K: Sink, G: Gate + Sync>(
    rt: &R,
    alloc: Global,
    settings: Settings,
    lists: Vec<Vec<QueueCall>>,
    sink: &mut K,
    gate: &G,
) -> Attempt
    requires within { InRange settings }
    requires calls { AreCalls settings.callers (map (λ v. v.items) lists.items) }
    ensures { (words : List (List ℕ)) → (before : Device) → (after : Device) → Says (and_list words) settings
        → WasRead settings.callers before after (map (λ v. v.items) lists.items) → Cause result.way words
        (world before (device (K.written sink.old) (K.faults sink.old))) (world after (device (K.written sink.new) (K.faults sink.new)))
        (map (λ v. v.items) result.answers.items) (kept_run result.kept) }
{
    let Ok((queue, passes)) = Queue::start(alloc, settings.callers, settings.records) else {
        return without_run(alloc, Way::NoMemory);
    };
    let Ok(ran) = run_on(rt, alloc, queue, passes, lists, settings.races, gate) else {
        return without_run(alloc, Way::NoMemory);
    };
    let way = finish(alloc, sink, &ran.answers, ran.closed.items());
    Attempt {
        way,
        kept: Some(ran.closed),
        answers: ran.answers,
    }
}
