//! Tallies as worked by hand.

use pp_program_scenes::SOUND;
use pp_tally_scenes::tallying::{SMALL, SMALL_OUT, shows};
use std::test::Fail;

const NONE_OUT: &[u8] = b"bytes 0\npieces 0\n";

const ROWS: [(&str, &[u8], &[u8]); 12] = [
    ("--map hash", SMALL, SMALL_OUT),
    ("--map hash", b"", NONE_OUT),
    ("--map plain", SMALL, SMALL_OUT),
    ("--map plain", b"", NONE_OUT),
    ("--map list --callers 1", SMALL, SMALL_OUT),
    ("--map list", b"", NONE_OUT),
    ("--map tree --callers 1", SMALL, SMALL_OUT),
    ("--map tree", b"", NONE_OUT),
    ("--map list --callers 64", SMALL, SMALL_OUT),
    ("--map hash --callers 64", SMALL, SMALL_OUT),
    ("--map tree --callers 64 --records 262144", SMALL, SMALL_OUT),
    ("--map tree --callers 64 --races 1", SMALL, SMALL_OUT),
];

#[test]
fn inputs_are_counted_as_worked_by_hand(rt: HostRuntime) -> Result<(), Fail> {
    for (line, input, sink) in ROWS {
        assert!(rt; shows(&rt, line, input, &SOUND, 0, sink, b"")?, "{line}");
    }
    Ok(())
}

#[test]
fn the_longest_input_is_counted(rt: HostRuntime) -> Result<(), Fail> {
    let zeros = vec![in rt.alloc(); 0u8; 16_777_216]?;
    let told = b"bytes 16777216\npieces 4096\n0 16777216\n";
    for line in ["--map tree --callers 8", "--map plain"] {
        assert!(rt; shows(&rt, line, &zeros, &SOUND, 0, told, b"")?, "{line}");
    }
    Ok(())
}

#[test]
fn words_that_say_no_settings_are_refused(rt: HostRuntime) -> Result<(), Fail> {
    for line in [
        "",
        "--map",
        "--map plain --callers 2",
        "--map hash --callers 65",
        "--map hash --make 1,2",
        "--map hash more",
    ] {
        assert!(rt;
            shows(&rt, line, SMALL, &SOUND, 1, b"", b"words: refused\n")?,
            "{line}"
        );
    }
    Ok(())
}
