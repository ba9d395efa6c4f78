//! The end of a program's printing.

ghost use Rattle.std.specs.Prelude.{◌≡◌, ℕ, List, [], false, is_err};
ghost use Rattle.pp_trace.specs.Printing.{Puts};
ghost use Rattle.pp_devices.specs.Devices.{device};
ghost use Rattle.pp_programs.specs.Printed.{IsPrinted, IsFinished, IsWayOf};

use pp_devices::Way;
use pp_outside::{Failed, Sink};
use pp_trace::Printer;

/// Ends a printing that came to this: writes what waits, and tells how a program ended whose text was printed, with so many full and
/// lost lines.
pub fn end<K: Sink>(
    printer: Printer,
    sink: &mut K,
    printed: Result<(), Failed>,
    full: u32,
    lost: u32,
) -> Way
    requires { printer.failed ≡ is_err printed }
    ensures { (was : K) → (text : List ℕ)
        → Puts K.written K.faults K.Writes was sink.old (record { waits = []; failed = false }) printer text printed
        → IsFinished result (device (K.written was) (K.faults was)) (device (K.written sink.new) (K.faults sink.new)) full lost text }
{
    match write_rest(printer, sink, printed) {
        Ok(()) => way_of(full, lost),
        Err(_) => Way::Unwritten,
    }
}

fn write_rest<K: Sink>(
    mut printer: Printer,
    sink: &mut K,
    printed: Result<(), Failed>,
) -> Result<(), Failed>
    requires { printer.failed ≡ is_err printed }
    ensures { (was : K) → (text : List ℕ)
        → Puts K.written K.faults K.Writes was sink.old (record { waits = []; failed = false }) printer text printed
        → IsPrinted (K.written was) (K.faults was) (K.written sink.new) (K.faults sink.new) text result }
{
    match printed {
        Ok(()) => printer.end(sink),
        Err(error) => Err(error),
    }
}

fn way_of(full: u32, lost: u32) -> Way
    ensures { IsWayOf full lost result }
{
    if full == 0 && lost == 0 {
        Way::Answered
    } else {
        Way::Partly { full, lost }
    }
}
