//! A replay whose calls are polled by hand on one thread, by a plan of turns that stands behind the trace. `hpp_polled` calls `polled` and
//! no more; who polls calls of his own finds `CallFuture`, `BlockOn` and the like here too.
#![tactic(auto)]

ghost use Rattle.std.specs.Prelude.{◌≡◌, map, string_bytes};
ghost use Rattle.pp_devices.specs.Devices.{world, device};
ghost use Rattle.pp_devices.specs.Told.{IsTold};
ghost use Rattle.pp_poll.specs.Polled.{IsEnding, IsGood, IsAnswered};

mod attempt;
mod ending;
mod input;
pub mod laws;
mod printing;
mod showing;
mod telling;
mod ways;

pub use ending::PolledEnding;
use pp_outside::{Sink, Source};
pub use pp_schedule::{BlockOn, CallFuture, NoRunner, Runner, Spoken};
use std::alloc::{AllocGlobal, Global};
use std::random::RandomSource;
use std::sync::Wait;
use telling::tell_way;
pub use ways::PolledWay;

/// Does all that the program does: reads its words, reads or makes the trace, reads the plan behind the trace, makes the calls of
/// all callers on the chosen map turn by turn in the plan's order, closes the map, and prints the answers and the contents. The
/// runner is given one future, which polls the calls. Where the first word is `places`, the other words say the settings, and it prints
/// the certificate of the run in place of the answers and the contents: its log, and each caller's calls with their places. To that
/// `pp_check::check` says yes (`laws::certificates_are_right`). It tells how it ended by a status, and by a line on `errs` where the status
/// isn't 0.
pub fn polled<R: Wait + RandomSource + AllocGlobal, X: Runner, S: Source, K: Sink, E: Sink>(
    rt: &R,
    alloc: Global,
    words: &[String],
    runner: &mut X,
    source: &mut S,
    sink: &mut K,
    errs: &mut E,
) -> PolledEnding
    ensures ending { IsEnding (map string_bytes words.now)
        (world (device (S.left source.old) (S.faults source.old)) (device (K.written sink.old) (K.faults sink.old)))
        (world (device (S.left source.new) (S.faults source.new)) (device (K.written sink.new) (K.faults sink.new)))
        (X.faults runner.old) (X.faults runner.new) (IsTold E.written E.faults E.Writes errs.old errs.new) result }
    ensures complete { IsGood (map string_bytes words.now)
        (world (device (S.left source.old) (S.faults source.old)) (device (K.written sink.old) (K.faults sink.old)))
        (world (device (S.left source.new) (S.faults source.new)) (device (K.written sink.new) (K.faults sink.new)))
        (X.faults runner.old) (X.faults runner.new) → IsAnswered result.status }
{
    let attempt = attempt::make_attempt(rt, alloc, words, runner, source, sink);
    tell_way(errs, attempt.way);
    PolledEnding::of(attempt)
}
