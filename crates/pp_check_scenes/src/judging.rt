//! Certificates and their verdicts, worked by hand, and whole judgements.

ghost use Rattle.std.specs.Prelude.{◌≤◌, length};

use pp_check::{Verdict, check, judge};
use pp_model::NoMemory;
use pp_program_scenes::{Devices, SOUND, Shown, Stage};
use std::alloc::Global;
use std::test::Fail;

const WORKED: &[u8] = b"certificate 1\n\
    change 1 1 insert 40 4\nchange 1 2 insert 30 3\nchange 1 3 remove 40\nchange 1 4 remove 30\n\
    said 0 2 get 30 value 3\nsaid 1 1 insert 40 4 added\nsaid 1 2 insert 30 3 added\n\
    said 1 3 remove 40 took 4\nsaid 1 4 remove 30 took 3\nend\n";

const CUTS: &[u8] = b"certificate 1\n\
    change 63 1 insert 18446744073709551612 340282366920938463463374607431768211455\n\
    change 5 2 cut 18446744073709551612 340282366920938463463374607431768211455\n\
    said 5 1 cut 18446744073709551612 0 other 340282366920938463463374607431768211455\n\
    said 5 2 cut 18446744073709551612 340282366920938463463374607431768211455 took 340282366920938463463374607431768211455\n\
    said 5 2 insert 0 0 added\nend\n";

fn verdict_of(alloc: Global, text: &[u8]) -> Result<Verdict, NoMemory>
    requires { length text.now ≤ 16777216 }
{
    check(alloc, text)
}

#[test]
fn the_worked_certificate_and_its_changed_forms(rt: HostRuntime) -> Result<(), Fail> {
    let rows: [(&[u8], &[u8], Verdict); 31] = [
        (b"", b"", Verdict::Yes),
        (b"said 0 2", b"said 0 3", Verdict::Yes),
        (
            b"said 0 2",
            b"said 0 4",
            Verdict::Misplaced {
                caller: 0,
                number: 1,
            },
        ),
        (
            b"said 0 2",
            b"said 0 1",
            Verdict::Misplaced {
                caller: 0,
                number: 1,
            },
        ),
        (
            b"said 0 2",
            b"said 0 5",
            Verdict::Misplaced {
                caller: 0,
                number: 1,
            },
        ),
        (
            b"said 0 2 get 30 value 3",
            b"said 0 0 get 30 absent",
            Verdict::Yes,
        ),
        (
            b"change 1 4 remove 30\n",
            b"",
            Verdict::Misplaced {
                caller: 1,
                number: 4,
            },
        ),
        (
            b"change 1 1 insert 40 4\nchange 1 2 insert 30 3\nchange 1 3 remove 40\n",
            b"change 1 3 remove 40\nchange 1 2 insert 30 3\nchange 1 1 insert 40 4\n",
            Verdict::Unsound { change: 1 },
        ),
        (
            b"remove 40\nchange",
            b"get 40\nchange",
            Verdict::Unsound { change: 3 },
        ),
        (
            b"remove 40\nchange",
            b"cut 40 5\nchange",
            Verdict::Unsound { change: 3 },
        ),
        (
            b"change 1 4 remove 30",
            b"change 1 4 remove 40",
            Verdict::Unsound { change: 4 },
        ),
        (
            b"insert 30 3\n",
            b"insert 40 3\n",
            Verdict::Unsound { change: 2 },
        ),
        (
            b"change 1 2",
            b"change 1 3",
            Verdict::Misplaced {
                caller: 1,
                number: 2,
            },
        ),
        (
            b"change 1 2",
            b"change 2 2",
            Verdict::Misplaced {
                caller: 1,
                number: 2,
            },
        ),
        (
            b"remove 40 took 4",
            b"remove 40 took 5",
            Verdict::Misplaced {
                caller: 1,
                number: 3,
            },
        ),
        (
            b"remove 40 took 4",
            b"cut 40 4 took 4",
            Verdict::Misplaced {
                caller: 1,
                number: 3,
            },
        ),
        (
            b"said 1 3",
            b"said 1 2",
            Verdict::Misplaced {
                caller: 1,
                number: 3,
            },
        ),
        (
            b"said 1 1",
            b"said 1 0",
            Verdict::Misplaced {
                caller: 1,
                number: 1,
            },
        ),
        (
            b"said 1 4 remove 30 took 3\n",
            b"",
            Verdict::Misplaced {
                caller: 1,
                number: 4,
            },
        ),
        (b"said 0 2 get 30 value 3\n", b"", Verdict::Yes),
        (b"end\n", b"", Verdict::BadLine { line: 11 }),
        (b"end\n", b"end", Verdict::BadLine { line: 11 }),
        (b"end\n", b"end\n\n", Verdict::BadLine { line: 12 }),
        (b"end\n", b"end\nend\n", Verdict::BadLine { line: 12 }),
        (b"end\n", b"end\n ", Verdict::BadLine { line: 12 }),
        (
            b"certificate 1",
            b"certificate 2",
            Verdict::BadLine { line: 1 },
        ),
        (b"certificate 1\n", b"", Verdict::BadLine { line: 1 }),
        (b"said 0 2", b"said 2 2", Verdict::BadLine { line: 7 }),
        (b"said 0 2", b"change 0 2", Verdict::BadLine { line: 6 }),
        (
            b"certificate 1\n",
            b"certificate 1\ncertificate 1\n",
            Verdict::BadLine { line: 2 },
        ),
        (b"change 1 2", b"said 1 2", Verdict::BadLine { line: 3 }),
    ];
    for (number, (old, new, expected)) in rows.iter().enumerate() {
        let text = changed(rt.alloc(), WORKED, old, new)?;
        assert!(rt; text.len() <= 1000);
        let verdict = verdict_of(rt.alloc(), &text)?;
        assert_eq!(rt; verdict, *expected, "row {number}");
    }
    Ok(())
}

/// The text with the first place of `old` replaced, which is there; the text itself where `old` is empty.
fn changed(alloc: Global, text: &[u8], old: &[u8], new: &[u8]) -> Result<Vec<u8>, Fail> {
    if old.is_empty() {
        return Ok(text.to_vec(alloc)?);
    }
    for at in 0..text.len() {
        if let Some(rest) = text[at..].strip_prefix(old) {
            let mut made = text[..at].to_vec(alloc)?;
            made.extend_from_slice(new)?;
            made.extend_from_slice(rest)?;
            return Ok(made);
        }
    }
    Ok(text.to_vec(alloc)?)
}

#[test]
fn lines_are_refused_that_are_not_as_the_grammar_has_them(rt: HostRuntime) -> Result<(), Fail> {
    let rows: [&[u8]; 40] = [
        b"",
        b"\r",
        b"#",
        b"said",
        b"said 0",
        b"said 0 2",
        b"said 0 2 get",
        b"said 0 2 get 30",
        b"said 0 2 get 30 value",
        b"said 0 2 get 30 value 3 3",
        b"said 0 2 get 30 value 3 ",
        b" said 0 2 get 30 value 3",
        b"said  0 2 get 30 value 3",
        b"said 0 2 get 30  value 3",
        b"said\t0 2 get 30 value 3",
        b"said 0 2 get 30 value 3\r",
        b"said 00 2 get 30 value 3",
        b"said 0 02 get 30 value 3",
        b"said 0 2 get 030 value 3",
        b"said 0 2 get 30 value 03",
        b"said +0 2 get 30 value 3",
        b"said 0 2 get 30 value -3",
        b"said 64 2 get 30 value 3",
        b"said 0 18446744073709551616 get 30 value 3",
        b"said 0 2 get 18446744073709551613 value 3",
        b"said 0 2 get 30 value 340282366920938463463374607431768211456",
        b"said 0 2 get 30 value 999999999999999999999999999999999999999999",
        b"said 0 2 insert 30 3 full",
        b"said 0 2 get 30 lost",
        b"said 0 2 get 30 absent 3",
        b"said 0 2 get 30 added 3",
        b"said 0 2 get 30 held",
        b"said 0 2 Get 30 value 3",
        b"said 0 2 put 30 value 3",
        b"said 0 2 insert 30 added",
        b"said 0 2 cut 30",
        b"change 0 2 get 30 3",
        b"change 0 18446744073709551616 get 30",
        b"change 64 2 get 30",
        b"end end",
    ];
    for (number, line) in rows.iter().enumerate() {
        let mut text = b"certificate 1\n".to_vec(rt.alloc())?;
        text.extend_from_slice(line)?;
        text.extend_from_slice(b"\nend\n")?;
        assert!(rt; text.len() <= 1000);
        let verdict = verdict_of(rt.alloc(), &text)?;
        assert_eq!(rt; verdict, Verdict::BadLine { line: 2 }, "row {number}");
    }
    Ok(())
}

const AT_THEIR_LIMITS: [(&[u8], &[u8], Verdict); 3] = [
    (
        b"",
        b"",
        Verdict::Misplaced {
            caller: 5,
            number: 3,
        },
    ),
    (
        b"said 5 1",
        b"said 5 18446744073709551615",
        Verdict::Misplaced {
            caller: 5,
            number: 1,
        },
    ),
    (
        b"said 5 2 insert 0 0 added\n",
        b"said 63 1 insert 18446744073709551612 340282366920938463463374607431768211455 added\n",
        Verdict::Yes,
    ),
];

#[test]
fn numbers_at_their_limits_are_read(rt: HostRuntime) -> Result<(), Fail> {
    for (old, new, expected) in AT_THEIR_LIMITS {
        let text = changed(rt.alloc(), CUTS, old, new)?;
        assert!(rt; text.len() <= 1000);
        assert_eq!(rt; verdict_of(rt.alloc(), &text)?, expected);
    }
    Ok(())
}

fn feeds_in(text: &[u8]) -> usize {
    text.iter().filter(|byte| **byte == b'\n').count()
}

#[test]
fn a_text_that_is_cut_off_is_told_by_its_line(rt: HostRuntime) -> Result<(), Fail> {
    for length in 0..WORKED.len() {
        let text = &WORKED[..length];
        let line = feeds_in(text).saturating_add(1);
        let verdict = verdict_of(rt.alloc(), text)?;
        assert!(rt;
            matches!(verdict, Verdict::BadLine { line: told } if told as usize == line),
            "{length} bytes"
        );
    }
    Ok(())
}

/// Judges a text with a source and sinks in memory.
fn judged(alloc: Global, text: &[u8], devices: &Devices) -> Result<Shown, Fail> {
    let mut stage = Stage::new(alloc, "", text, devices)?;
    let judged = judge(alloc, &mut stage.source, &mut stage.sink, &mut stage.errs);
    Ok(stage.shown(alloc, judged.status)?)
}

#[test]
fn judgements_end_as_worked_by_hand(rt: HostRuntime) -> Result<(), Fail> {
    let rows: [(&[u8], &[u8], u8, &[u8]); 6] = [
        (b"", b"", 0, b"yes\n"),
        (b"said 0 2", b"said 0 3", 0, b"yes\n"),
        (b"said 0 2", b"said 0 4", 12, b"no: call 0 1\n"),
        (b"change 1 4 remove 30\n", b"", 12, b"no: call 1 4\n"),
        (b"insert 30 3\n", b"insert 40 3\n", 11, b"no: change 2\n"),
        (b"end\n", b"", 10, b"no: line 11\n"),
    ];
    for (number, (old, new, status, sink)) in rows.iter().enumerate() {
        for most in [1, 3, 100] {
            let text = changed(rt.alloc(), WORKED, old, new)?;
            let devices = Devices {
                write: most,
                ..SOUND
            };
            let shown = judged(rt.alloc(), &text, &devices)?;
            assert!(rt; shown.is(*status, sink, b""), "row {number}");
        }
    }
    Ok(())
}

const FIRST_READ: Devices<'static> = Devices {
    failing_reads: &[1],
    ..SOUND
};

const SECOND_READ: Devices<'static> = Devices {
    failing_reads: &[2],
    ..SOUND
};

const FIRST_WRITE: Devices<'static> = Devices {
    failing_writes: &[1],
    ..SOUND
};

const SECOND_WRITE: Devices<'static> = Devices {
    write: 2,
    failing_writes: &[2],
    ..SOUND
};

#[test]
fn a_read_and_a_write_that_fail_are_told(rt: HostRuntime) -> Result<(), Fail> {
    let rows: [(Devices<'static>, u8, &[u8], &[u8]); 4] = [
        (FIRST_READ, 3, b"", b"read: failed\n"),
        (SECOND_READ, 3, b"", b"read: failed\n"),
        (FIRST_WRITE, 4, b"", b"write: failed\n"),
        (SECOND_WRITE, 4, b"ye", b"write: failed\n"),
    ];
    for (number, (devices, status, sink, errs)) in rows.iter().enumerate() {
        let shown = judged(rt.alloc(), WORKED, devices)?;
        assert!(rt; shown.is(*status, sink, errs), "row {number}");
    }
    Ok(())
}

/// A certificate of an empty log and gets of caller 0 that found nothing, of so many bytes: lines of 22 bytes and 20 of 23.
fn long_certificate(alloc: Global, lines: u32) -> Result<Vec<u8>, Fail> {
    let mut text = Vec::with_capacity(alloc, 16_777_217)?;
    text.extend_from_slice(b"certificate 1\n")?;
    for _ in 0..20 {
        text.extend_from_slice(b"said 0 0 get 77 absent\n")?;
    }
    for _ in 0..lines {
        text.extend_from_slice(b"said 0 0 get 7 absent\n")?;
    }
    text.extend_from_slice(b"end\n")?;
    Ok(text)
}

#[test]
fn long_certificates_are_read_up_to_the_limit(rt: HostRuntime) -> Result<(), Fail> {
    let mut text = long_certificate(rt.alloc(), 762_579)?;
    assert_eq!(rt; text.len(), 16_777_216);
    let shown = judged(rt.alloc(), &text, &SOUND)?;
    assert!(rt; shown.is(0, b"yes\n", b""));
    text.push(b'\n')?;
    let shown = judged(rt.alloc(), &text, &SOUND)?;
    assert!(rt; shown.is(7, b"", b"trace: longer than 16777216 bytes\n"));
    Ok(())
}
