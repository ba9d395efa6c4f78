//! Tallies with a source and sinks in memory.

use pp_outside::{Gate, NoGate};
use pp_program_scenes::{Devices, Shown, Stage};
use pp_tally::tally;
use std::alloc::{AllocError, AllocGlobal, Global};
use std::thread::Threads;

/// A small input.
pub const SMALL: &[u8] = b"abca\n";

/// What a tally of the small input prints.
pub const SMALL_OUT: &[u8] = b"bytes 5\npieces 1\n10 1\n97 2\n98 1\n99 1\n";

/// Tallies an input by the words of a line, on these devices in memory.
///
/// # Errors
///
/// There was no memory for the devices, or for what they showed.
pub fn tallied<R: Threads + Sync, G: Gate + Sync>(
    rt: &R,
    alloc: Global,
    line: &str,
    input: &[u8],
    devices: &Devices,
    gate: &G,
) -> Result<Shown, AllocError> {
    let mut stage = Stage::new(alloc, line, input, devices)?;
    let ending = tally(
        rt,
        alloc,
        &stage.words,
        &mut stage.source,
        &mut stage.sink,
        &mut stage.errs,
        gate,
    );
    stage.shown(alloc, ending.status)
}

/// Whether a tally ends with this status, with these bytes printed and these told of an error.
///
/// # Errors
///
/// There was no memory for the devices, or for what they showed.
pub fn shows<R: Threads + Sync + AllocGlobal>(
    rt: &R,
    line: &str,
    input: &[u8],
    devices: &Devices,
    status: u8,
    sink: &[u8],
    errs: &[u8],
) -> Result<bool, AllocError> {
    let got = tallied(rt, rt.alloc(), line, input, devices, &NoGate)?;
    Ok(got.is(status, sink, errs))
}
