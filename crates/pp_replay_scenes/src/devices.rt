//! Devices that fail, long traces, and std's own reader and writer.

use crate::replaying::{SMALL, SMALL_OUT, shows};
use pp_outside::{MemSink, NoGate, StdSink, StdSource};
use pp_program_scenes::{Devices, SOUND, words_of};
use pp_replay::replay;
use std::alloc::{AllocError, AllocGlobal, Global};
use std::collections::VecDeque;
use std::fs;
use std::test::Fail;
use std::thread::Threads;

/// The words that choose each map, for one caller.
const MAPS: [&str; 4] = [
    "--map plain",
    "--map list --callers 1",
    "--map hash --callers 1",
    "--map tree --callers 1",
];

/// The trace has 55 bytes: fourteen reads of four bytes at most give them, and the fifteenth its end.
#[test]
fn reads_fail_one_after_another(rt: HostRuntime) -> Result<(), Fail> {
    for line in MAPS {
        for number in 1..17 {
            let failing = [number];
            let unread = Devices {
                read: 4,
                failing_reads: &failing,
                ..SOUND
            };
            let is_so = if number == 16 {
                shows(&rt, line, SMALL, &unread, 0, SMALL_OUT, b"")?
            } else {
                shows(&rt, line, SMALL, &unread, 3, b"", b"read: failed\n")?
            };
            assert!(rt; is_so, "{line}, read {number}");
        }
    }
    Ok(())
}

/// The output has 69 bytes: ten writes of seven bytes at most take them.
#[test]
fn writes_fail_one_after_another(rt: HostRuntime) -> Result<(), Fail> {
    for line in MAPS {
        for number in 1u64..12 {
            let failing = [number];
            let unwritten = Devices {
                write: 7,
                failing_writes: &failing,
                ..SOUND
            };
            let whole = 7usize.saturating_mul(number as usize - 1);
            let written = &SMALL_OUT[..SMALL_OUT.len().min(whole)];
            let is_so = if number == 11 {
                shows(&rt, line, SMALL, &unwritten, 0, written, b"")?
            } else {
                shows(&rt, line, SMALL, &unwritten, 4, written, b"write: failed\n")?
            };
            assert!(rt; is_so, "{line}, write {number}");
        }
    }
    Ok(())
}

const ADDED: &[u8] = b"0 1 added\ncontents 1\n7 70\n";

const READ: &[u8] = b"0 1 added\n0 2 value 70\ncontents 1\n7 70\n";

const HELD: &[u8] = b"0 1 added\n0 2 value 70\n0 3 held 70\ncontents 1\n7 70\n";

const TAKEN: &[u8] = b"0 1 added\n0 2 value 70\n0 3 held 70\n0 4 took 70\ncontents 0\n";

/// Of the small trace's first bytes, from one number of them to another: the status, what is printed, and the line about an error.
const CUT_OFF: [(usize, usize, u8, &[u8], &[u8]); 16] = [
    (0, 0, 0, b"contents 0\n", b""),
    (1, 7, 2, b"", b"trace: line 1: word\n"),
    (8, 11, 2, b"", b"trace: line 1: fields\n"),
    (12, 12, 0, b"0 1 added\ncontents 1\n7 7\n", b""),
    (13, 14, 0, ADDED, b""),
    (15, 18, 2, b"", b"trace: line 2: word\n"),
    (19, 20, 2, b"", b"trace: line 2: fields\n"),
    (21, 22, 0, READ, b""),
    (23, 29, 2, b"", b"trace: line 3: word\n"),
    (30, 33, 2, b"", b"trace: line 3: fields\n"),
    (34, 36, 0, HELD, b""),
    (37, 43, 2, b"", b"trace: line 4: word\n"),
    (44, 45, 2, b"", b"trace: line 4: fields\n"),
    (46, 47, 0, TAKEN, b""),
    (48, 51, 2, b"", b"trace: line 5: word\n"),
    (52, 53, 2, b"", b"trace: line 5: fields\n"),
];

/// The number of first bytes of which a replay by these words doesn't end as the table has it.
fn differs_at<R: Threads + Sync + AllocGlobal>(
    rt: &R,
    line: &str,
) -> Result<Option<usize>, AllocError> {
    for (first, last, status, sink, errs) in CUT_OFF {
        for length in first..last + 1 {
            let part = &SMALL[..SMALL.len().min(length)];
            if !shows(rt, line, part, &SOUND, status, sink, errs)? {
                return Ok(Some(length));
            }
        }
    }
    Ok(None)
}

#[test]
fn a_trace_that_was_cut_off_is_refused_or_answered(rt: HostRuntime) -> Result<(), Fail> {
    for line in MAPS {
        assert_eq!(rt; differs_at(&rt, line)?, None, "{line}");
    }
    Ok(())
}

/// The line has 20 bytes: with five at most for each write it takes four.
#[test]
fn a_line_about_an_error_is_cut_where_its_sink_fails(rt: HostRuntime) -> Result<(), Fail> {
    let told = b"trace: line 1: word\n";
    for line in MAPS {
        for number in 1u64..6 {
            let failing = [number];
            let untold = Devices {
                error: 5,
                failing_errors: &failing,
                ..SOUND
            };
            let whole = 5usize.saturating_mul(number as usize - 1);
            let part = &told[..told.len().min(whole)];
            assert!(rt;
                shows(&rt, line, b"0", &untold, 2, b"", part)?,
                "{line}, write {number}"
            );
        }
    }
    Ok(())
}

const UNREAD: Devices<'static> = Devices {
    failing_reads: &[1],
    failing_writes: &[1],
    ..SOUND
};

const UNWRITTEN: Devices<'static> = Devices {
    failing_writes: &[1],
    ..SOUND
};

const FULL: &[u8] =
    b"0 insert 1 1\n0 insert 2 2\n0 insert 3 3\n0 insert 4 4\n0 insert 5 5\n0 insert 6 6\n\
    0 insert 7 7\n0 insert 8 8\n0 insert 9 9\n";

const TWO_CAUSES: [(&str, &[u8], Devices<'static>, u8, &[u8]); 5] = [
    ("--races 0", b"0", UNREAD, 1, b"words: refused\n"),
    ("", b"0", UNREAD, 3, b"read: failed\n"),
    ("", b"0", UNWRITTEN, 2, b"trace: line 1: word\n"),
    ("--records 8", FULL, UNWRITTEN, 4, b"write: failed\n"),
    ("--records 8", FULL, UNREAD, 3, b"read: failed\n"),
];

/// Words before reading, reading before the trace, and writing last.
#[test]
fn the_first_of_two_causes_decides(rt: HostRuntime) -> Result<(), Fail> {
    for map in MAPS {
        for (more, trace, devices, status, errs) in TWO_CAUSES {
            let line = format!(in rt.alloc(); "{map} {more}")?;
            assert!(rt;
                shows(&rt, &line, trace, &devices, status, b"", errs)?,
                "{line}, status {status}"
            );
        }
    }
    Ok(())
}

/// So many line feeds.
fn feeds(alloc: Global, count: usize) -> Result<Vec<u8>, Fail> {
    Ok(vec![in alloc; 10u8; count]?)
}

#[test]
fn long_traces_are_read_up_to_the_limit(rt: HostRuntime) -> Result<(), Fail> {
    let whole = feeds(rt.alloc(), 16_777_216)?;
    let longer = feeds(rt.alloc(), 16_777_217)?;
    let told = b"trace: longer than 16777216 bytes\n";
    for line in MAPS {
        assert!(rt;
            shows(&rt, line, &whole, &SOUND, 0, b"contents 0\n", b"")?,
            "{line}"
        );
        assert!(rt;
            shows(&rt, line, &longer, &SOUND, 7, b"", told)?,
            "{line}, one byte more"
        );
    }
    Ok(())
}

// The line about an error finds a sink that fails, which changes no status.
#[test]
fn the_real_edge_runs(rt: HostRuntime) -> Result<(), Fail> {
    for (line, status) in [("--map plain", 0), ("--map", 1)] {
        let words = words_of(rt.alloc(), line)?;
        let mut source = StdSource::new(fs::File::open(&rt, "/dev/null")?);
        let mut sink = StdSink::new(VecDeque::new(rt.alloc()));
        let mut errs = MemSink::new(rt.alloc(), 7, [1].to_vec(rt.alloc())?);
        let ending = replay(
            &rt,
            rt.alloc(),
            &words,
            &mut source,
            &mut sink,
            &mut errs,
            &NoGate,
        );
        assert_eq!(rt; (ending.status, errs.written().len()), (status, 0));
    }
    Ok(())
}
