//! The whole replay of a queue: words and a trace in, answers and what is left out, and one history of the calls between them. `hpp_queue`
//! calls `queue_replay` and no more.
#![tactic(auto)]

ghost use Rattle.std.specs.Prelude.{◌≡◌, map, string_bytes};
ghost use Rattle.pp_devices.specs.Devices.{world, device};
ghost use Rattle.pp_devices.specs.Told.{IsTold};
ghost use Rattle.pp_queue_replay.specs.Replay.{IsEnding, IsGood, IsAnswered};

mod attempt;
mod counting;
mod ending;
mod parsing;
mod printing;
mod running;
mod text;

pub use ending::QueueEnding;
use pp_devices::tell;
use pp_outside::{Gate, Sink, Source};
use std::alloc::Global;
use std::thread::Threads;

/// Does all that the program does: reads its words, reads the trace, runs the calls of all callers on a queue, closes it, and
/// prints the answers and the items that are left. It tells how it ended by a status, and by a line on `errs` where the status
/// isn't 0.
///
/// The calls that are answered by a reply stand in one legal history of a first-in first-out queue, in the sense of Herlihy and
/// Wing, "Linearizability: a correctness condition for concurrent objects", 1990. So each item comes out at most once.
pub fn queue_replay<R: Threads + Sync, S: Source, K: Sink, E: Sink, G: Gate + Sync>(
    rt: &R,
    alloc: Global,
    words: &[String],
    source: &mut S,
    sink: &mut K,
    errs: &mut E,
    gate: &G,
) -> QueueEnding
    ensures ending { IsEnding (map string_bytes words.now)
        (world (device (S.left source.old) (S.faults source.old)) (device (K.written sink.old) (K.faults sink.old)))
        (world (device (S.left source.new) (S.faults source.new)) (device (K.written sink.new) (K.faults sink.new)))
        (IsTold E.written E.faults E.Writes errs.old errs.new) result }
    ensures complete { IsGood (map string_bytes words.now)
        (world (device (S.left source.old) (S.faults source.old)) (device (K.written sink.old) (K.faults sink.old)))
        (world (device (S.left source.new) (S.faults source.new)) (device (K.written sink.new) (K.faults sink.new)))
        → IsAnswered result.status }
{
    let attempt = attempt::make_attempt(rt, alloc, words, source, sink, gate);
    tell(errs, attempt.way);
    QueueEnding::of(attempt)
}
