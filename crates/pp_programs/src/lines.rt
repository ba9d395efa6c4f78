//! The lines of answers, printed for each caller.

ghost use Rattle.std.specs.Prelude.{◌≡◌, ◌≤◌, ℕ, List, map, length, false};
ghost use Rattle.pp_trace.specs.Printing.{Puts};
ghost use Rattle.pp_trace.specs.Text.{answer_line, callers_text, caller_text};
ghost use Rattle.pp_programs.specs.Printed.{AreShort};

use pp_model::Answer;
use pp_outside::{Failed, Sink};
use pp_trace::Printer;

/// How a program prints an answer: a line for each, which tells the caller, the number of its call, and the answer.
pub trait AnswerLines {
    /// What is printed.
    type Answer;

    ghost line: { ℕ → ℕ → Self.Answer → List ℕ };

    /// Prints the line of a caller's call of this number, from 1.
    ///
    /// # Errors
    ///
    /// `Failed` comes with the first write that fails; what was written and what waits is a front of the text.
    fn print<K: Sink>(
        printer: &mut Printer,
        sink: &mut K,
        caller: u32,
        number: u32,
        answer: &Self::Answer,
    ) -> Result<(), Failed>
        requires whole { printer.old.failed ≡ false }
        ensures { Puts K.written K.faults K.Writes sink.old sink.new printer.old printer.new (line caller number answer.now) result };
}

/// The lines of a map's answers.
pub struct MapLines;

impl AnswerLines for MapLines {
    type Answer = Answer;

    ghost line = { answer_line };

    fn print<K: Sink>(
        printer: &mut Printer,
        sink: &mut K,
        caller: u32,
        number: u32,
        answer: &Answer,
    ) -> Result<(), Failed> {
        printer.reply(sink, caller, number, answer)
    }
}

/// Prints the answers of all callers, each caller's in order.
///
/// # Errors
///
/// `Failed` comes with the first write that fails; what was written and what waits is a front of the text.
pub fn print_answers<L: AnswerLines, K: Sink>(
    printer: &mut Printer,
    sink: &mut K,
    answers: &[Vec<L::Answer>],
) -> Result<(), Failed>
    requires whole { printer.old.failed ≡ false }
    requires short { AreShort (map (λ v. v.items) answers.now) }
    ensures { Puts K.written K.faults K.Writes sink.old sink.new printer.old printer.new
        (callers_text L.line 0 (map (λ v. v.items) answers.now)) result }
{
    let mut caller = 0u32;
    for given in answers {
        print_caller::<L, K>(printer, sink, caller, given)?;
        caller = caller.saturating_add(1);
    }
    Ok(())
}

fn print_caller<L: AnswerLines, K: Sink>(
    printer: &mut Printer,
    sink: &mut K,
    caller: u32,
    answers: &[L::Answer],
) -> Result<(), Failed>
    requires whole { printer.old.failed ≡ false }
    requires short { length answers.now ≤ 16777216 }
    ensures { Puts K.written K.faults K.Writes sink.old sink.new printer.old printer.new
        (caller_text L.line caller 1 answers.now) result }
{
    let mut number = 1u32;
    for answer in answers {
        L::print(printer, sink, caller, number, answer)?;
        number = number.saturating_add(1);
    }
    Ok(())
}
