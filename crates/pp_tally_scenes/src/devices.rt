//! Devices that fail, inputs that are too long, and std's own reader and writer.

use crate::tallying::{SMALL, SMALL_OUT, shows};
use pp_outside::{MemSink, NoGate, StdSink, StdSource};
use pp_program_scenes::{Devices, SOUND, words_of};
use pp_tally::tally;
use std::collections::VecDeque;
use std::fs;
use std::test::Fail;

#[test]
fn devices_fail_at_each_call_in_turn(rt: HostRuntime) -> Result<(), Fail> {
    let line = "--map hash";
    for number in 1..3 {
        let failing = [number];
        let unread = Devices {
            read: 3,
            failing_reads: &failing,
            ..SOUND
        };
        assert!(rt;
            shows(&rt, line, SMALL, &unread, 3, b"", b"read: failed\n")?,
            "read {number}"
        );
    }
    for number in 1u64..5 {
        let failing = [number];
        let unwritten = Devices {
            write: 9,
            failing_writes: &failing,
            ..SOUND
        };
        let whole = 9usize.saturating_mul(number as usize - 1);
        let written = &SMALL_OUT[..SMALL_OUT.len().min(whole)];
        assert!(rt;
            shows(&rt, line, SMALL, &unwritten, 4, written, b"write: failed\n")?,
            "write {number}"
        );
    }
    Ok(())
}

#[test]
fn longer_inputs_are_refused(rt: HostRuntime) -> Result<(), Fail> {
    let longer = vec![in rt.alloc(); 0u8; 16_777_217]?;
    let told = b"trace: longer than 16777216 bytes\n";
    assert!(rt; shows(&rt, "--map plain", &longer, &SOUND, 7, b"", told)?);
    Ok(())
}

#[test]
fn the_real_edge_runs(rt: HostRuntime) -> Result<(), Fail> {
    let words = words_of(rt.alloc(), "--map tree")?;
    let mut source = StdSource::new(fs::File::open(&rt, "/dev/null")?);
    let mut sink = StdSink::new(VecDeque::new(rt.alloc()));
    let mut errs = MemSink::new(rt.alloc(), 7, [1].to_vec(rt.alloc())?);
    let ended = tally(
        &rt,
        rt.alloc(),
        &words,
        &mut source,
        &mut sink,
        &mut errs,
        &NoGate,
    );
    assert_eq!(rt; (ended.status, errs.written().len()), (0, 0));
    Ok(())
}
