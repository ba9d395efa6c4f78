//! The tally: callers claim the pieces of an input by inserts into one map, and each counts the bytes of those that it won. `hpp_tally`
//! calls `tally` and no more.
#![tactic(auto)]

ghost use Rattle.std.specs.Prelude.{◌≡◌, map, string_bytes};
ghost use Rattle.pp_devices.specs.Devices.{world, device};
ghost use Rattle.pp_devices.specs.Told.{IsTold};
ghost use Rattle.pp_tally.specs.Tally.{IsTallied, IsGood, IsAnswered};

mod attempt;
pub mod ending;
mod printing;
mod showing;
mod text;

pub use ending::Tallied;
use pp_devices::tell;
use pp_outside::{Gate, Sink, Source};
use std::alloc::Global;
use std::thread::Threads;

/// Counts how often each byte value stands in the input. The input is cut into pieces of 4,096 bytes, and each caller claims every
/// piece by an insert into the chosen map, from its own part of them on and going round; it owns those whose insert answered Added,
/// and counts them in its thread once the map is closed. Pieces that nobody owns are counted last. What is written is the same for
/// every number of callers.
///
/// It tells how it ended by a status, and by a line on `errs` where the status isn't 0.
pub fn tally<R: Threads + Sync, S: Source, K: Sink, E: Sink, G: Gate + Sync>(
    rt: &R,
    alloc: Global,
    words: &[String],
    source: &mut S,
    sink: &mut K,
    errs: &mut E,
    gate: &G,
) -> Tallied
    ensures tallied { IsTallied (map string_bytes words.now)
        (world (device (S.left source.old) (S.faults source.old)) (device (K.written sink.old) (K.faults sink.old)))
        (world (device (S.left source.new) (S.faults source.new)) (device (K.written sink.new) (K.faults sink.new)))
        (IsTold E.written E.faults E.Writes errs.old errs.new) result }
    ensures complete { IsGood (map string_bytes words.now)
        (world (device (S.left source.old) (S.faults source.old)) (device (K.written sink.old) (K.faults sink.old)))
        (world (device (S.left source.new) (S.faults source.new)) (device (K.written sink.new) (K.faults sink.new)))
        → IsAnswered result.status }
{
    let attempt = attempt::make_attempt(rt, alloc, words, source, sink, gate);
    tell(errs, attempt.way);
    Tallied::of(attempt)
}
