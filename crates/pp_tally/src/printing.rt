//! The counts of an input, printed.

ghost use Rattle.std.specs.Prelude.{◌≡◌, ◌++◌, length, get_or, false};
ghost use Rattle.pp_trace.specs.Printing.{Puts};
ghost use Rattle.pp_devices.specs.Devices.{device};
ghost use Rattle.pp_programs.specs.Printed.{IsFinished};
ghost use Rattle.pp_tally.specs.Text.{head_text, value_line, values_text};

use crate::text;
use pp_devices::Way;
use pp_outside::{Failed, Sink};
use pp_programs::end;
use pp_trace::Printer;
use std::alloc::Global;

/// Prints how many bytes and pieces there are, and the count of each byte value that is there, and tells how that ended. Its memory is
/// taken before the first write.
pub fn finish<K: Sink>(alloc: Global, sink: &mut K, bytes: usize, pieces: u32, total: &[u32]) -> Way
    requires all { length total.now ≡ 256 }
    ensures { IsFinished result (device (K.written sink.old) (K.faults sink.old)) (device (K.written sink.new) (K.faults sink.new))
        0 0 (head_text bytes pieces ++ values_text (λ value. get_or total.now value 0) 256) }
{
    let Ok(mut printer) = Printer::new(alloc) else {
        return Way::NoMemory;
    };
    let printed = print_text(&mut printer, sink, bytes, pieces, total);
    end(printer, sink, printed, 0, 0)
}

fn print_text<K: Sink>(
    printer: &mut Printer,
    sink: &mut K,
    bytes: usize,
    pieces: u32,
    total: &[u32],
) -> Result<(), Failed>
    requires whole { printer.old.failed ≡ false }
    requires all { length total.now ≡ 256 }
    ensures { Puts K.written K.faults K.Writes sink.old sink.new printer.old printer.new
        (head_text bytes pieces ++ values_text (λ value. get_or total.now value 0) 256) result }
{
    let head = text::of_head(bytes, pieces);
    printer.put(sink, head.as_str().as_bytes())?;
    print_values(printer, sink, total)
}

fn print_values<K: Sink>(printer: &mut Printer, sink: &mut K, total: &[u32]) -> Result<(), Failed>
    requires whole { printer.old.failed ≡ false }
    requires all { length total.now ≡ 256 }
    ensures { Puts K.written K.faults K.Writes sink.old sink.new printer.old printer.new
        (values_text (λ value. get_or total.now value 0) 256) result }
{
    for value in 0..256u32 {
        print_value(printer, sink, value, total[value as usize])?;
    }
    Ok(())
}

/// Prints the line of a byte value, where it has one.
fn print_value<K: Sink>(
    printer: &mut Printer,
    sink: &mut K,
    value: u32,
    count: u32,
) -> Result<(), Failed>
    requires whole { printer.old.failed ≡ false }
    ensures { Puts K.written K.faults K.Writes sink.old sink.new printer.old printer.new (value_line value count) result }
{
    if count == 0 {
        return Ok(());
    }
    let line = text::of_value(value, count);
    printer.put(sink, line.as_str().as_bytes())
}
