//! Replays of a queue from words and bytes to statuses, bytes and lines, as worked by hand.

use pp_outside::{Gate, NoGate};
use pp_program_scenes::{Crossing, Devices, SOUND, Shown, Stage};
use pp_queue_replay::queue_replay;
use std::alloc::{AllocGlobal, Global};
use std::test::Fail;
use std::thread::Threads;

/// Devices that move sixteen bytes at most.
const SMALL: Devices<'static> = Devices {
    read: 16,
    write: 16,
    ..SOUND
};

/// Replays a trace with a source and sinks in memory.
fn replayed<R: Threads + Sync, G: Gate + Sync>(
    rt: &R,
    alloc: Global,
    line: &str,
    trace: &[u8],
    devices: &Devices,
    gate: &G,
) -> Result<Shown, Fail> {
    let mut stage = Stage::new(alloc, line, trace, devices)?;
    let ending = queue_replay(
        rt,
        alloc,
        &stage.words,
        &mut stage.source,
        &mut stage.sink,
        &mut stage.errs,
        gate,
    );
    Ok(stage.shown(alloc, ending.status)?)
}

/// Whether a replay ends with this status, with these bytes printed and these told of an error.
fn shows<R: Threads + Sync + AllocGlobal>(
    rt: &R,
    line: &str,
    trace: &[u8],
    devices: &Devices,
    status: u8,
    sink: &[u8],
    errs: &[u8],
) -> Result<bool, Fail> {
    let got = replayed(rt, rt.alloc(), line, trace, devices, &NoGate)?;
    Ok(got.is(status, sink, errs))
}

const ONE: &[u8] = b"0 take\n0 put 5\n0 put 6\n0 take\n0 take\n0 take\n";

const ONE_OUT: &[u8] = b"0 1 empty\n0 2 put\n0 3 put\n0 4 took 5\n0 5 took 6\n0 6 empty\nleft 0\n";

const NINE: &[u8] =
    b"0 put 1\n0 put 2\n0 put 3\n0 put 4\n0 put 5\n0 put 6\n0 put 7\n0 put 8\n0 take\n0 put 9\n";

const NINE_OUT: &[u8] =
    b"0 1 put\n0 2 put\n0 3 put\n0 4 put\n0 5 put\n0 6 put\n0 7 put\n0 8 full\n0 9 took 1\n0 10 put\nleft 7\n2\n3\n4\n5\n6\n7\n9\n";

const GREATEST: &[u8] = b"# the greatest\r\n\t0  put\t340282366920938463463374607431768211455";

const GREATEST_OUT: &[u8] = b"0 1 put\nleft 1\n340282366920938463463374607431768211455\n";

const ABOVE: &[u8] = b"0 put 340282366920938463463374607431768211456\n";

const ROWS: [(&str, &[u8], u8, &[u8], &[u8]); 15] = [
    ("--callers 1", ONE, 0, ONE_OUT, b""),
    (
        "--callers 1 --records 8",
        NINE,
        6,
        NINE_OUT,
        b"answers: 1 full, 0 lost\n",
    ),
    ("", GREATEST, 0, GREATEST_OUT, b""),
    ("", b"", 0, b"left 0\n", b""),
    ("", ABOVE, 2, b"", b"trace: line 1: value\n"),
    ("", b"0 take\n4 take\n", 2, b"", b"trace: line 2: caller\n"),
    ("", b"trace 2\n0 take\n", 2, b"", b"trace: line 1: caller\n"),
    ("", b"0 take\n\n0 get 1\n", 2, b"", b"trace: line 3: word\n"),
    ("", b"0 take 1\n", 2, b"", b"trace: line 1: fields\n"),
    ("", b"0 put\n", 2, b"", b"trace: line 1: fields\n"),
    ("", b"0 put -1\n", 2, b"", b"trace: line 1: value\n"),
    ("--make 1,2", b"", 1, b"", b"words: refused\n"),
    ("--map list", b"", 1, b"", b"words: refused\n"),
    ("--callers 65", b"", 1, b"", b"words: refused\n"),
    ("--", b"", 1, b"", b"words: refused\n"),
];

#[test]
fn replays_end_as_worked_by_hand(rt: HostRuntime) -> Result<(), Fail> {
    for (words, trace, status, sink, errs) in ROWS {
        assert!(rt;
            shows(&rt, words, trace, &SMALL, status, sink, errs)?,
            "{words}"
        );
    }
    Ok(())
}

#[test]
fn devices_fail_at_each_call_in_turn(rt: HostRuntime) -> Result<(), Fail> {
    for number in 1u64..4 {
        let failing = [number];
        let unread = Devices {
            failing_reads: &failing,
            ..SMALL
        };
        let unwritten = Devices {
            failing_writes: &failing,
            ..SMALL
        };
        let whole = 16usize.saturating_mul(number as usize - 1);
        let written = &ONE_OUT[..ONE_OUT.len().min(whole)];
        let is_read = shows(&rt, "", ONE, &unread, 3, b"", b"read: failed\n")?;
        let is_written = shows(&rt, "", ONE, &unwritten, 4, written, b"write: failed\n")?;
        assert!(rt; is_read && is_written, "call {number}");
    }
    Ok(())
}

#[test]
fn callers_run_side_by_side(rt: HostRuntime) -> Result<(), Fail> {
    let gate = Crossing::new();
    let trace = b"0 take\n0 take\n1 take\n1 take\n";
    let got = replayed(&rt, rt.alloc(), "--callers 2", trace, &SMALL, &gate)?;
    let told = b"0 1 empty\n0 2 empty\n1 1 empty\n1 2 empty\nleft 0\n";
    assert!(rt; got.is(0, told, b""));
    assert!(rt; !gate.is_overdue());
    Ok(())
}
