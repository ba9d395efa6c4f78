//! Replays as worked by hand.

use pp_outside::NoGate;
use pp_program_scenes::SOUND;
use pp_replay_scenes::replaying::{SMALL, SMALL_OUT, replayed, shows};
use std::test::Fail;

const NINE: &[u8] =
    b"0 insert 1 1\n0 insert 2 2\n0 insert 3 3\n0 insert 4 4\n0 insert 5 5\n0 insert 6 6\n0 insert 7 7\n0 insert 8 8\n0 insert 9 9\n";

const NINE_OUT: &[u8] =
    b"0 1 added\n0 2 added\n0 3 added\n0 4 added\n0 5 added\n0 6 added\n0 7 added\n0 8 added\n0 9 full\n\
    contents 8\n1 1\n2 2\n3 3\n4 4\n5 5\n6 6\n7 7\n8 8\n";

const SECOND_FORM: &[u8] =
    b"trace 2\n0 insert 7 340282366920938463463374607431768211455\n0 cut 7 1\n0 cut 7 340282366920938463463374607431768211455\n0 cut 7 1\n";

const SECOND_FORM_OUT: &[u8] = b"0 1 added\n0 2 other 340282366920938463463374607431768211455\n\
    0 3 took 340282366920938463463374607431768211455\n0 4 absent\ncontents 0\n";

const MADE_OUT: &[u8] =
    b"made 2\nadded 1\nheld 0\nvalue 0\nabsent 1\ntook 0\nfull 0\nlost 0\ncontents 1\n";

/// The last insert finds the record of the key that was removed, which its reclaim pass frees.
const AGAIN: &[u8] =
    b"0 insert 1 1\n0 insert 2 2\n0 insert 3 3\n0 insert 4 4\n0 insert 5 5\n0 insert 6 6\n0 insert 7 7\n0 insert 8 8\n\
    0 insert 9 9\n0 remove 1\n0 insert 9 9\n";

const AGAIN_OUT: &[u8] =
    b"0 1 added\n0 2 added\n0 3 added\n0 4 added\n0 5 added\n0 6 added\n0 7 added\n0 8 added\n\
    0 9 full\n0 10 took 1\n0 11 added\ncontents 8\n2 2\n3 3\n4 4\n5 5\n6 6\n7 7\n8 8\n9 9\n";

const PLAIN: [(&str, &[u8], u8, &[u8], &[u8]); 23] = [
    ("--map plain", b"", 0, b"contents 0\n", b""),
    ("--map plain", SMALL, 0, SMALL_OUT, b""),
    ("--map plain", b"0", 2, b"", b"trace: line 1: word\n"),
    ("--map plain", b"0 ", 2, b"", b"trace: line 1: word\n"),
    ("--map plain", b"0 g", 2, b"", b"trace: line 1: word\n"),
    ("--map plain", b"0 ge", 2, b"", b"trace: line 1: word\n"),
    ("--map plain", b"0 get", 2, b"", b"trace: line 1: fields\n"),
    ("--map plain", b"0 get ", 2, b"", b"trace: line 1: fields\n"),
    (
        "--map plain",
        b"0 get 7",
        0,
        b"0 1 absent\ncontents 0\n",
        b"",
    ),
    (
        "--map plain",
        b"0 get 7\n",
        0,
        b"0 1 absent\ncontents 0\n",
        b"",
    ),
    (
        "--map=plain --callers 1",
        b"# try\r\n\r\n\t0  insert\t007 1 \r\n0 get 7",
        0,
        b"0 1 added\n0 2 value 1\ncontents 1\n7 1\n",
        b"",
    ),
    (
        "--map plain --records 8",
        NINE,
        6,
        NINE_OUT,
        b"answers: 1 full, 0 lost\n",
    ),
    ("--map plain --make 1,2", b"0 inse", 0, MADE_OUT, b""),
    (
        "--map plain",
        b"0 get 1\n1 get 1\n",
        2,
        b"",
        b"trace: line 2: caller\n",
    ),
    (
        "--map plain",
        b"0 get 1\n0 inse",
        2,
        b"",
        b"trace: line 2: word\n",
    ),
    (
        "--map plain",
        b"0 get 1 2\n",
        2,
        b"",
        b"trace: line 1: fields\n",
    ),
    (
        "--map plain",
        b"0 insert 18446744073709551613 1\n",
        2,
        b"",
        b"trace: line 1: key\n",
    ),
    (
        "--map plain",
        b"0 insert 1 18446744073709551616\n",
        2,
        b"",
        b"trace: line 1: value\n",
    ),
    ("--map plain", SECOND_FORM, 0, SECOND_FORM_OUT, b""),
    (
        "--map plain",
        b"trace 2\n0 insert 7 340282366920938463463374607431768211456\n",
        2,
        b"",
        b"trace: line 2: value\n",
    ),
    (
        "--map plain",
        b"0 cut 7 1\n",
        2,
        b"",
        b"trace: line 1: word\n",
    ),
    (
        "--map plain",
        b"trace 3\n",
        2,
        b"",
        b"trace: line 1: caller\n",
    ),
    (
        "--map plain",
        b"0 get 1\ntrace 2\n",
        2,
        b"",
        b"trace: line 2: caller\n",
    ),
];

#[test]
fn the_plain_map_replays_as_worked_by_hand(rt: HostRuntime) -> Result<(), Fail> {
    for (line, trace, status, sink, errs) in PLAIN {
        assert!(rt;
            shows(&rt, line, trace, &SOUND, status, sink, errs)?,
            "{line}"
        );
    }
    Ok(())
}

const LISTS_AND_TABLES: [(&str, &[u8], u8, &[u8], &[u8]); 16] = [
    ("--map hash", b"", 0, b"contents 0\n", b""),
    ("--map list --callers 1", SMALL, 0, SMALL_OUT, b""),
    ("--map hash --callers 1", SMALL, 0, SMALL_OUT, b""),
    (
        "--map list --callers 1",
        SECOND_FORM,
        0,
        SECOND_FORM_OUT,
        b"",
    ),
    (
        "--map hash --callers 1",
        SECOND_FORM,
        0,
        SECOND_FORM_OUT,
        b"",
    ),
    (
        "--map list",
        b"0 insert 0 18446744073709551615\n",
        0,
        b"0 1 added\ncontents 1\n0 18446744073709551615\n",
        b"",
    ),
    (
        "--map hash",
        b"0 get 1\n4 get 1\n",
        2,
        b"",
        b"trace: line 2: caller\n",
    ),
    (
        "--map hash",
        b"0 get 1\n0 inse",
        2,
        b"",
        b"trace: line 2: word\n",
    ),
    (
        "--map hash",
        b"0 get 1 2\n",
        2,
        b"",
        b"trace: line 1: fields\n",
    ),
    (
        "--map hash",
        b"0 insert 1 18446744073709551616\n",
        2,
        b"",
        b"trace: line 1: value\n",
    ),
    (
        "--map hash",
        b"# try\r\n\r\n\t0  insert\t007 1 \r\n0 get 7",
        0,
        b"0 1 added\n0 2 value 1\ncontents 1\n7 1\n",
        b"",
    ),
    (
        "--map list --records 8 --callers 1",
        AGAIN,
        6,
        AGAIN_OUT,
        b"answers: 1 full, 0 lost\n",
    ),
    ("--map list --callers 1 --make 1,2", b"", 0, MADE_OUT, b""),
    (
        "--map hash --callers 2",
        b"0 insert 1 10\n1 insert 2 20\n1 get 2\n0 get 1\n",
        0,
        b"0 1 added\n0 2 value 10\n1 1 added\n1 2 value 20\ncontents 2\n1 10\n2 20\n",
        b"",
    ),
    // the callers from the ninth on have no record of their own
    (
        "--map hash --callers 64 --records 8",
        b"8 insert 1 1\n",
        6,
        b"8 1 full\ncontents 0\n",
        b"answers: 1 full, 0 lost\n",
    ),
    (
        "--map list --callers 64 --records 8",
        b"63 insert 1 1\n",
        6,
        b"63 1 full\ncontents 0\n",
        b"answers: 1 full, 0 lost\n",
    ),
];

#[test]
fn lists_and_hash_tables_replay_as_worked_by_hand(rt: HostRuntime) -> Result<(), Fail> {
    for (line, trace, status, sink, errs) in LISTS_AND_TABLES {
        assert!(rt;
            shows(&rt, line, trace, &SOUND, status, sink, errs)?,
            "{line}"
        );
    }
    Ok(())
}

const TREES: [(&str, &[u8], u8, &[u8], &[u8]); 8] = [
    ("--map tree --callers 1", SMALL, 0, SMALL_OUT, b""),
    (
        "--map tree --callers 1",
        SECOND_FORM,
        0,
        SECOND_FORM_OUT,
        b"",
    ),
    (
        "--map tree",
        b"0 insert 18446744073709551612 1\n",
        0,
        b"0 1 added\ncontents 1\n18446744073709551612 1\n",
        b"",
    ),
    (
        "--map tree",
        b"0 insert 18446744073709551613 1\n",
        2,
        b"",
        b"trace: line 1: key\n",
    ),
    (
        "--map tree --callers 2",
        b"0 insert 1 10\n1 insert 2 20\n1 get 2\n0 get 1\n",
        0,
        b"0 1 added\n0 2 value 10\n1 1 added\n1 2 value 20\ncontents 2\n1 10\n2 20\n",
        b"",
    ),
    (
        "--map tree --records 8 --callers 1",
        b"0 insert 1 1\n0 insert 2 2\n",
        6,
        b"0 1 added\n0 2 full\ncontents 1\n1 1\n",
        b"answers: 1 full, 0 lost\n",
    ),
    // five records are the empty tree's, and the shares of four callers are 1, 1, 1 and 0, where an insert needs two
    (
        "--map tree --records 8",
        b"0 insert 1 1\n",
        6,
        b"0 1 full\ncontents 0\n",
        b"answers: 1 full, 0 lost\n",
    ),
    (
        "--map tree --records 8 --callers 64",
        b"63 insert 1 1\n",
        6,
        b"63 1 full\ncontents 0\n",
        b"answers: 1 full, 0 lost\n",
    ),
];

#[test]
fn trees_replay_as_worked_by_hand(rt: HostRuntime) -> Result<(), Fail> {
    for (line, trace, status, sink, errs) in TREES {
        assert!(rt;
            shows(&rt, line, trace, &SOUND, status, sink, errs)?,
            "{line}"
        );
    }
    Ok(())
}

#[test]
fn words_that_say_no_settings_are_refused(rt: HostRuntime) -> Result<(), Fail> {
    let lines = [
        "",
        "--map plain --map plain",
        "--map hash --callers=65",
        "--map plain --callers 2",
        "--map hash --",
        "--map hash --map tree",
        "--map hash --callers 0",
        "--map hash --callers +4",
        "--map hash more",
        "--help",
    ];
    for line in lines {
        assert!(rt;
            shows(&rt, line, SMALL, &SOUND, 1, b"", b"words: refused\n")?,
            "{line}"
        );
    }
    Ok(())
}

/// Two inserts of one key by two callers: the first one that takes effect wins.
#[test]
fn one_of_two_inserts_is_held(rt: HostRuntime) -> Result<(), Fail> {
    let trace = b"0 insert 5 50\n1 insert 5 51\n";
    let first: &[u8] = b"0 1 added\n1 1 held 50\ncontents 1\n5 50\n";
    let second: &[u8] = b"0 1 held 51\n1 1 added\ncontents 1\n5 51\n";
    for line in [
        "--map list --callers 2",
        "--map hash --callers 2",
        "--map tree --callers 2",
    ] {
        let got = replayed(&rt, rt.alloc(), line, trace, &SOUND, &NoGate)?;
        let is_so = got.is(0, first, b"") || got.is(0, second, b"");
        assert!(rt; is_so, "{line}");
    }
    Ok(())
}
