//! The answers and the items of a run, printed.

ghost use Rattle.std.specs.Prelude.{◌≡◌, map, false};
ghost use Rattle.pp_trace.specs.Printing.{Puts};
ghost use Rattle.pp_trace.specs.Text.{count_all};
ghost use Rattle.pp_devices.specs.Devices.{device};
ghost use Rattle.pp_programs.specs.Printed.{AreShort, IsFinished};
ghost use Rattle.pp_queue_replay.specs.Text.{answer_line, is_full, is_lost, left_text, out};

use crate::counting::Counts;
use crate::text;
use pp_devices::Way;
use pp_outside::{Failed, Sink};
use pp_programs::{AnswerLines, end, print_answers};
use pp_queues::calls::QueueAnswer;
use pp_trace::Printer;
use std::alloc::Global;

/// Prints what a run gave, and tells how that ended. Its memory is taken before the first write.
pub fn finish<K: Sink>(
    alloc: Global,
    sink: &mut K,
    answers: &[Vec<QueueAnswer>],
    items: &[u128],
) -> Way
    requires short { AreShort (map (λ v. v.items) answers.now) }
    ensures { IsFinished result (device (K.written sink.old) (K.faults sink.old)) (device (K.written sink.new) (K.faults sink.new))
        (count_all is_full (map (λ v. v.items) answers.now)) (count_all is_lost (map (λ v. v.items) answers.now))
        (out (map (λ v. v.items) answers.now) items.now) }
{
    let Ok(mut printer) = Printer::new(alloc) else {
        return Way::NoMemory;
    };
    let printed = print_text(&mut printer, sink, answers, items);
    let counts = Counts::of(answers);
    end(printer, sink, printed, counts.full, counts.lost)
}

fn print_text<K: Sink>(
    printer: &mut Printer,
    sink: &mut K,
    answers: &[Vec<QueueAnswer>],
    items: &[u128],
) -> Result<(), Failed>
    requires whole { printer.old.failed ≡ false }
    requires short { AreShort (map (λ v. v.items) answers.now) }
    ensures { Puts K.written K.faults K.Writes sink.old sink.new printer.old printer.new
        (out (map (λ v. v.items) answers.now) items.now) result }
{
    print_answers::<QueueLines, K>(printer, sink, answers)?;
    print_left(printer, sink, items)
}

/// The lines of a queue's answers.
struct QueueLines;

impl AnswerLines for QueueLines {
    type Answer = QueueAnswer;

    ghost line = { answer_line };

    fn print<K: Sink>(
        printer: &mut Printer,
        sink: &mut K,
        caller: u32,
        number: u32,
        answer: &QueueAnswer,
    ) -> Result<(), Failed> {
        let line = text::of_answer(caller, number, answer);
        printer.put(sink, line.as_str().as_bytes())
    }
}

/// Prints how many items are left, and then each on a line.
fn print_left<K: Sink>(printer: &mut Printer, sink: &mut K, items: &[u128]) -> Result<(), Failed>
    requires whole { printer.old.failed ≡ false }
    ensures { Puts K.written K.faults K.Writes sink.old sink.new printer.old printer.new (left_text items.now) result }
{
    let line = text::of_length(items.len());
    printer.put(sink, line.as_str().as_bytes())?;
    for item in items {
        let line = text::of_item(*item);
        printer.put(sink, line.as_str().as_bytes())?;
    }
    Ok(())
}
