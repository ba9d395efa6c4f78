//! The answers and the contents of a run, printed.

ghost use Rattle.std.specs.Prelude.{◌≡◌, ◌^◌, ◌<◌, map, length, false};
ghost use Rattle.pp_trace.specs.Printing.{Puts};
ghost use Rattle.pp_trace.specs.Text.{count_all, counts_of, is_full, is_lost, out};
ghost use Rattle.pp_devices.specs.Devices.{device};
ghost use Rattle.pp_programs.specs.Printed.{AreShort, IsFinished};
ghost use Rattle.pp_replay.specs.Replay.{output};

use pp_devices::Way;
use pp_model::{Answer, Pair};
use pp_outside::{Failed, Sink};
use pp_programs::{MapLines, end, print_answers};
use pp_trace::{Counts, Make, Printer};
use std::alloc::Global;

/// Prints what a run gave, and tells how that ended. Its memory is taken before the first write.
pub fn finish<K: Sink>(
    alloc: Global,
    sink: &mut K,
    make: Option<Make>,
    answers: &[Vec<Answer>],
    contents: &[Pair],
) -> Way
    requires short { AreShort (map (λ v. v.items) answers.now) }
    requires few { length contents.now < 2 ^ 32 }
    ensures { IsFinished result (device (K.written sink.old) (K.faults sink.old)) (device (K.written sink.new) (K.faults sink.new))
        (count_all is_full (map (λ v. v.items) answers.now)) (count_all is_lost (map (λ v. v.items) answers.now))
        (output make (map (λ v. v.items) answers.now) contents.now) }
{
    let Ok(mut printer) = Printer::new(alloc) else {
        return Way::NoMemory;
    };
    let counts = Counts::of(answers);
    let printed = print_text(&mut printer, sink, make, answers, &counts, contents);
    end(printer, sink, printed, counts.full, counts.lost)
}

fn print_text<K: Sink>(
    printer: &mut Printer,
    sink: &mut K,
    make: Option<Make>,
    answers: &[Vec<Answer>],
    counts: &Counts,
    contents: &[Pair],
) -> Result<(), Failed>
    requires whole { printer.old.failed ≡ false }
    requires counts { counts.now ≡ counts_of (map (λ v. v.items) answers.now) }
    requires short { AreShort (map (λ v. v.items) answers.now) }
    requires few { length contents.now < 2 ^ 32 }
    ensures { Puts K.written K.faults K.Writes sink.old sink.new printer.old printer.new
        (output make (map (λ v. v.items) answers.now) contents.now) result }
{
    match make {
        Some(make) => printer.summary(sink, make.lines, counts, contents.len() as u32),
        None => print_trace(printer, sink, answers, contents),
    }
}

fn print_trace<K: Sink>(
    printer: &mut Printer,
    sink: &mut K,
    answers: &[Vec<Answer>],
    contents: &[Pair],
) -> Result<(), Failed>
    requires whole { printer.old.failed ≡ false }
    requires short { AreShort (map (λ v. v.items) answers.now) }
    ensures { Puts K.written K.faults K.Writes sink.old sink.new printer.old printer.new
        (out (map (λ v. v.items) answers.now) contents.now) result }
{
    print_answers::<MapLines, K>(printer, sink, answers)?;
    printer.contents(sink, contents)
}
