//! What a run by a plan shows: its answers and its contents, or the certificate of its log and lists.

ghost use Rattle.std.specs.Prelude.{◌≡◌, ◌^◌, ◌<◌, ◌≤◌, map, length, IfOk};
ghost use Rattle.pp_certificate.specs.Printed.{certificate_text};
ghost use Rattle.pp_devices.specs.Devices.{device};
ghost use Rattle.pp_devices.specs.declared.ways.Way.TheVariants as Way;
ghost use Rattle.pp_model.specs.History.{contents_of};
ghost use Rattle.pp_model.specs.Pass.{RunView};
ghost use Rattle.pp_places.specs.Held.{AreHeld};
ghost use Rattle.pp_places.specs.Places.{IsPlaced};
ghost use Rattle.pp_poll.specs.Certificates.{text_of, IsHeldWith};
ghost use Rattle.pp_programs.specs.Printed.{AreShort, IsFinished};
ghost use Rattle.pp_trace.specs.Text.{count_all, is_full, is_lost};

use pp_devices::Way;
use pp_model::{Answer, Call, NoMemory, Pair};
use pp_outside::Sink;
use pp_places::{certificate_of, history_of};
use pp_programs::end;
use pp_replay::printing::finish;
use pp_trace::{Counts, Make, Printer};
use std::alloc::Global;

/// Prints what a run gave: with places its certificate, and else its answers and contents. Tells how that ended. Its memory is
/// taken before the first write.
pub fn show<K: Sink>(
    alloc: Global,
    sink: &mut K,
    places: bool,
    make: Option<Make>,
    lists: &[Vec<Call>],
    answers: &[Vec<Answer>],
    marks: &[Vec<u64>],
    contents: &[Pair],
) -> Way
    requires short { AreShort (map (λ v. v.items) answers.now) }
    requires few { length contents.now < 2 ^ 32 }
    requires callers { length lists.now ≤ 64 }
    requires run { (run : RunView) × IsPlaced (map (λ v. v.items) lists.now) (map (λ v. v.items) answers.now)
        (map (λ v. v.items) marks.now) run }
    ensures shown { (run : RunView) → IsPlaced (map (λ v. v.items) lists.now) (map (λ v. v.items) answers.now)
        (map (λ v. v.items) marks.now) run → contents.now ≡ contents_of run.log
        → IsFinished result (device (K.written sink.old) (K.faults sink.old)) (device (K.written sink.new) (K.faults sink.new))
        (count_all is_full (map (λ v. v.items) answers.now)) (count_all is_lost (map (λ v. v.items) answers.now))
        (text_of places make (map (λ v. v.items) answers.now) run) }
    ensures held { (run : RunView) → IsPlaced (map (λ v. v.items) lists.now) (map (λ v. v.items) answers.now)
        (map (λ v. v.items) marks.now) run → (result ≡ Way.NoMemory → ⊥) → IsHeldWith places run }
{
    if places {
        show_certificate(alloc, sink, lists, answers, marks)
    } else {
        finish(alloc, sink, make, answers, contents)
    }
}

fn show_certificate<K: Sink>(
    alloc: Global,
    sink: &mut K,
    lists: &[Vec<Call>],
    answers: &[Vec<Answer>],
    marks: &[Vec<u64>],
) -> Way
    requires short { AreShort (map (λ v. v.items) answers.now) }
    requires callers { length lists.now ≤ 64 }
    requires run { (run : RunView) × IsPlaced (map (λ v. v.items) lists.now) (map (λ v. v.items) answers.now)
        (map (λ v. v.items) marks.now) run }
    ensures shown { (run : RunView) → IsPlaced (map (λ v. v.items) lists.now) (map (λ v. v.items) answers.now)
        (map (λ v. v.items) marks.now) run
        → IsFinished result (device (K.written sink.old) (K.faults sink.old)) (device (K.written sink.new) (K.faults sink.new))
        (count_all is_full (map (λ v. v.items) answers.now)) (count_all is_lost (map (λ v. v.items) answers.now))
        (certificate_text run.log (map (λ r. r.mine) run.callers)) }
    ensures held { (run : RunView) → IsPlaced (map (λ v. v.items) lists.now) (map (λ v. v.items) answers.now)
        (map (λ v. v.items) marks.now) run → (result ≡ Way.NoMemory → ⊥) → AreHeld run.log (map (λ r. r.mine) run.callers) }
{
    let Ok(text) = certificate_for(alloc, lists, answers, marks) else {
        return Way::NoMemory;
    };
    let Ok(mut printer) = Printer::new(alloc) else {
        return Way::NoMemory;
    };
    let counts = Counts::of(answers);
    let printed = printer.put(sink, &text);
    end(printer, sink, printed, counts.full, counts.lost)
}

/// The certificate of the run with these calls, answers and marks.
///
/// # Errors
///
/// There was no memory.
fn certificate_for(
    alloc: Global,
    lists: &[Vec<Call>],
    answers: &[Vec<Answer>],
    marks: &[Vec<u64>],
) -> Result<Vec<u8>, NoMemory>
    requires callers { length lists.now ≤ 64 }
    requires run { (run : RunView) × IsPlaced (map (λ v. v.items) lists.now) (map (λ v. v.items) answers.now)
        (map (λ v. v.items) marks.now) run }
    ensures text { (run : RunView) → IsPlaced (map (λ v. v.items) lists.now) (map (λ v. v.items) answers.now)
        (map (λ v. v.items) marks.now) run
        → IfOk result (λ text. text.items ≡ certificate_text run.log (map (λ r. r.mine) run.callers)) }
    ensures held { (run : RunView) → IsPlaced (map (λ v. v.items) lists.now) (map (λ v. v.items) answers.now)
        (map (λ v. v.items) marks.now) run → IfOk result (λ text. AreHeld run.log (map (λ r. r.mine) run.callers)) }
{
    let history = history_of(alloc, lists, answers, marks)?;
    certificate_of(alloc, &history.log, &history.lists)
}
