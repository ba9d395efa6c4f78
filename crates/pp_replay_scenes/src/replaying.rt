//! Replays with a source and sinks in memory.

use pp_outside::{Gate, NoGate};
use pp_program_scenes::{Devices, Shown, Stage};
use pp_replay::replay;
use std::alloc::{AllocError, AllocGlobal, Global};
use std::thread::Threads;

/// A small trace of one caller.
pub const SMALL: &[u8] = b"0 insert 7 70\n0 get 7\n0 insert 7 71\n0 remove 7\n0 get 7\n";

/// What a replay of the small trace prints.
pub const SMALL_OUT: &[u8] =
    b"0 1 added\n0 2 value 70\n0 3 held 70\n0 4 took 70\n0 5 absent\ncontents 0\n";

/// Replays a trace by the words of a line, on these devices in memory.
///
/// # Errors
///
/// There was no memory for the devices, or for what they showed.
pub fn replayed<R: Threads + Sync, G: Gate + Sync>(
    rt: &R,
    alloc: Global,
    line: &str,
    trace: &[u8],
    devices: &Devices,
    gate: &G,
) -> Result<Shown, AllocError> {
    let mut stage = Stage::new(alloc, line, trace, devices)?;
    let ending = replay(
        rt,
        alloc,
        &stage.words,
        &mut stage.source,
        &mut stage.sink,
        &mut stage.errs,
        gate,
    );
    stage.shown(alloc, ending.status)
}

/// Whether a replay ends with this status, with these bytes printed and these told of an error.
///
/// # Errors
///
/// There was no memory for the devices, or for what they showed.
pub fn shows<R: Threads + Sync + AllocGlobal>(
    rt: &R,
    line: &str,
    trace: &[u8],
    devices: &Devices,
    status: u8,
    sink: &[u8],
    errs: &[u8],
) -> Result<bool, AllocError> {
    let got = replayed(rt, rt.alloc(), line, trace, devices, &NoGate)?;
    Ok(got.is(status, sink, errs))
}
