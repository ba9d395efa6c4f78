//! Replays by a plan, as worked by hand.

use pp_check::{Verdict, check};
use pp_poll::{BlockOn, NoRunner, Runner, polled};
use pp_program_scenes::{Devices, SOUND, Shown, Stage};
use std::alloc::{AllocGlobal, Global};
use std::process::Abort;
use std::random::RandomSource;
use std::sync::Wait;
use std::test::Fail;

/// Devices that move seven bytes at most.
const SMALL: Devices<'static> = Devices {
    read: 7,
    write: 7,
    ..SOUND
};

/// A replay by a plan with a source and sinks in memory.
fn replayed<R: Wait + RandomSource + AllocGlobal, X: Runner>(
    rt: &R,
    alloc: Global,
    line: &str,
    runner: &mut X,
    input: &[u8],
) -> Result<Shown, Fail> {
    let mut stage = Stage::new(alloc, line, input, &SMALL)?;
    let ending = polled(
        rt,
        alloc,
        &stage.words,
        runner,
        &mut stage.source,
        &mut stage.sink,
        &mut stage.errs,
    );
    Ok(stage.shown(alloc, ending.status)?)
}

const LIST: &[u8] =
    b"1 insert 10 1\n1 insert 20 2\n1 insert 30 3\n0 get 30\n1 remove 20\nschedule\n1 9\n0 2\n1 4\n0 1\n";

const LIST_OUT: &[u8] =
    b"0 1 value 3\n1 1 added\n1 2 added\n1 3 added\n1 4 took 2\ncontents 2\n10 1\n30 3\n";

const TREE: &[u8] =
    b"1 insert 40 4\n1 insert 30 3\n0 get 30\n1 remove 40\n1 remove 30\nschedule\n1 9\n0 4\n1 15\n0 1\n";

const TREE_OUT: &[u8] = b"0 1 value 3\n1 1 added\n1 2 added\n1 3 took 4\n1 4 took 3\ncontents 0\n";

const NO_TURNS: &[u8] =
    b"1 insert 40 4\n1 insert 30 3\n0 get 30\n1 remove 40\n1 remove 30\nschedule\n1 9\n0 0\n";

// In each the get stands on a record while the other caller removes it, and is right at a place before.
#[test]
fn plans_order_the_turns(rt: HostRuntime) -> Result<(), Fail> {
    let rows: [(&str, &[u8], u8, &[u8], &[u8]); 5] = [
        ("--map list --callers 2", LIST, 0, LIST_OUT, b""),
        ("--map tree --callers 2", TREE, 0, TREE_OUT, b""),
        (
            "--map tree --callers 2",
            NO_TURNS,
            9,
            b"",
            b"schedule: line 8: turns\n",
        ),
        (
            "--map hash --callers 2",
            b"0 put 1\nschedule\n2 1\n",
            2,
            b"",
            b"trace: line 1: word\n",
        ),
        (
            "--map plain",
            b"0 insert 7 70\nschedule\n0 1000000\n",
            0,
            b"0 1 added\ncontents 1\n7 70\n",
            b"",
        ),
    ];
    for (line, input, status, sink, errs) in rows {
        let ended = replayed(&rt, rt.alloc(), line, &mut BlockOn::new(), input)?;
        assert!(rt; ended.is(status, sink, errs), "{line}, status {status}");
    }
    Ok(())
}

// A line has two fields, a caller below two and 1 to 1000000 turns. Lines are counted over the whole input, skipped ones too.
#[test]
fn a_bad_line_of_a_plan_is_named(rt: HostRuntime) -> Result<(), Fail> {
    let rows: [(&[u8], &[u8]); 9] = [
        (b"schedule\n0 1 1\n", b"schedule: line 2: fields\n"),
        (b"schedule\n\n2\n", b"schedule: line 3: fields\n"),
        (
            b"0 get 1\nschedule\n0 1\n2 1\n",
            b"schedule: line 4: caller\n",
        ),
        (b"schedule\n# 0\nx 0\n0\n", b"schedule: line 3: caller\n"),
        (
            b"trace 2\nschedule\ntrace 2\n",
            b"schedule: line 3: caller\n",
        ),
        (b"schedule\n0 0\n", b"schedule: line 2: turns\n"),
        (
            b"schedule\n1 1000000\n0 1000001\n",
            b"schedule: line 3: turns\n",
        ),
        (b"schedule\n0 -1", b"schedule: line 2: turns\n"),
        (b"schedule\nschedule\n", b"schedule: line 2: fields\n"),
    ];
    for (number, (input, errs)) in rows.iter().enumerate() {
        let line = "--map list --callers 2";
        let ended = replayed(&rt, rt.alloc(), line, &mut BlockOn::new(), input)?;
        assert!(rt; ended.is(9, b"", errs), "row {number}");
    }
    Ok(())
}

#[test]
fn a_runner_fails(rt: HostRuntime) -> Result<(), Fail> {
    let line = "--map list --callers 2";
    let ended = replayed(&rt, rt.alloc(), line, &mut NoRunner::new(), LIST)?;
    assert!(rt; ended.is(13, b"", b"runner: failed\n"));
    Ok(())
}

/// A replay with `places`: it ends so, what it wrote is this certificate, and the checker says yes to it.
fn certifies<R: Wait + RandomSource + AllocGlobal + Abort>(
    rt: &R,
    line: &str,
    input: &[u8],
    status: u8,
    certificate: &[u8],
) -> Result<(), Fail> {
    let ended = replayed(rt, rt.alloc(), line, &mut BlockOn::new(), input)?;
    assert_eq!(rt; ended.sink.as_slice(), certificate);
    assert_eq!(rt; ended.status, status);
    assert!(rt; ended.sink.len() <= 16_777_216);
    let Ok(verdict) = check(rt.alloc(), ended.sink.as_slice()) else {
        panic!(rt; "no memory");
    };
    assert_eq!(rt; verdict, Verdict::Yes);
    Ok(())
}

const LIST_CERTIFICATE: &[u8] = b"certificate 1\n\
    change 1 1 insert 10 1\nchange 1 2 insert 20 2\nchange 1 3 insert 30 3\nchange 1 4 remove 20\n\
    said 0 3 get 30 value 3\n\
    said 1 1 insert 10 1 added\nsaid 1 2 insert 20 2 added\nsaid 1 3 insert 30 3 added\nsaid 1 4 remove 20 took 2\nend\n";

const TREE_CERTIFICATE: &[u8] = b"certificate 1\n\
    change 1 1 insert 40 4\nchange 1 2 insert 30 3\nchange 1 3 remove 40\nchange 1 4 remove 30\n\
    said 0 2 get 30 value 3\n\
    said 1 1 insert 40 4 added\nsaid 1 2 insert 30 3 added\nsaid 1 3 remove 40 took 4\nsaid 1 4 remove 30 took 3\nend\n";

// In each the get's place is the least one from its start on at which its value stands.
#[test]
fn certificates_are_printed(rt: HostRuntime) -> Result<(), Fail> {
    certifies(
        &rt,
        "places --map list --callers 2",
        LIST,
        0,
        LIST_CERTIFICATE,
    )?;
    certifies(
        &rt,
        "places --map tree --callers 2",
        TREE,
        0,
        TREE_CERTIFICATE,
    )
}

// Caller 1 is passed over once its calls are answered.
const LONGER: &[u8] = b"0 get 5\n1 insert 5 50\n0 get 5\nschedule\n1 1000\n0 1000\n1 1000\n";

const LONGER_CERTIFICATE: &[u8] = b"certificate 1\nchange 1 1 insert 5 50\n\
    said 0 1 get 5 value 50\nsaid 0 1 get 5 value 50\nsaid 1 1 insert 5 50 added\nend\n";

// The turns that the plan doesn't make are made by rising callers: caller 0 looks before caller 1 inserts.
const SHORTER: &[u8] = b"0 get 5\n1 insert 5 50\n1 remove 6\nschedule\n1 1\n";

const SHORTER_CERTIFICATE: &[u8] = b"certificate 1\nchange 1 1 insert 5 50\n\
    said 0 0 get 5 absent\nsaid 1 1 insert 5 50 added\nsaid 1 1 remove 6 absent\nend\n";

#[test]
fn a_plan_is_longer_or_shorter_than_its_run(rt: HostRuntime) -> Result<(), Fail> {
    for line in [
        "places --map list --callers 2",
        "places --map hash --callers 2",
        "places --map tree --callers 2",
    ] {
        certifies(&rt, line, LONGER, 0, LONGER_CERTIFICATE)?;
        certifies(&rt, line, SHORTER, 0, SHORTER_CERTIFICATE)?;
    }
    Ok(())
}

// A call of the plain map takes one turn, so the second call is made behind the plan.
#[test]
fn the_plain_map_is_certified(rt: HostRuntime) -> Result<(), Fail> {
    certifies(
        &rt,
        "places --map plain",
        b"0 insert 7 70\n0 get 7\nschedule\n0 1\n",
        0,
        b"certificate 1\nchange 0 1 insert 7 70\nsaid 0 1 insert 7 70 added\nsaid 0 1 get 7 value 70\nend\n",
    )
}

// The other words are those of a replay without places, and the plan's faults are too.
#[test]
fn places_stands_first(rt: HostRuntime) -> Result<(), Fail> {
    let rows: [(&str, &[u8], u8, &[u8]); 4] = [
        (
            "places --map tree --callers 2",
            NO_TURNS,
            9,
            b"schedule: line 8: turns\n",
        ),
        ("--map list places", LIST, 1, b"words: refused\n"),
        ("places", LIST, 1, b"words: refused\n"),
        ("places places --map list", LIST, 1, b"words: refused\n"),
    ];
    for (line, input, status, errs) in rows {
        let ended = replayed(&rt, rt.alloc(), line, &mut BlockOn::new(), input)?;
        assert!(rt; ended.is(status, b"", errs), "{line}");
    }
    Ok(())
}

// The get of 25 stands on the inner record 20 while that is detached with the leaf 10. Behind it stands the inner record 30, whose left
// leaf 20 gives way to another inner record 20 when 15 is put in. That key isn't above the one where the get went right.
const OUTSIDE: &[u8] =
    b"1 insert 10 1\n1 insert 20 2\n1 insert 30 3\n0 get 25\n1 remove 10\n1 insert 15 5\n\
    schedule\n1 15\n0 4\n1 1000\n";

// The same without the last insert: the get loses no turn by the detached record alone.
const INSIDE: &[u8] = b"1 insert 10 1\n1 insert 20 2\n1 insert 30 3\n0 get 25\n1 remove 10\n\
    schedule\n1 15\n0 4\n1 1000\n";

// The get begins again and finds nothing: so it was from its start on.
const BEGUN_AGAIN: &[u8] = b"certificate 1\n\
    change 1 1 insert 10 1\nchange 1 2 insert 20 2\nchange 1 3 insert 30 3\nchange 1 4 remove 10\nchange 1 5 insert 15 5\n\
    said 0 3 get 25 absent\n\
    said 1 1 insert 10 1 added\nsaid 1 2 insert 20 2 added\nsaid 1 3 insert 30 3 added\n\
    said 1 4 remove 10 took 1\nsaid 1 5 insert 15 5 added\nend\n";

// With a budget of one lost turn it is lost, and has no place.
const GIVEN_UP: &[u8] = b"certificate 1\n\
    change 1 1 insert 10 1\nchange 1 2 insert 20 2\nchange 1 3 insert 30 3\nchange 1 4 remove 10\nchange 1 5 insert 15 5\n\
    said 1 1 insert 10 1 added\nsaid 1 2 insert 20 2 added\nsaid 1 3 insert 30 3 added\n\
    said 1 4 remove 10 took 1\nsaid 1 5 insert 15 5 added\nend\n";

const INSIDE_CERTIFICATE: &[u8] = b"certificate 1\n\
    change 1 1 insert 10 1\nchange 1 2 insert 20 2\nchange 1 3 insert 30 3\nchange 1 4 remove 10\n\
    said 0 3 get 25 absent\n\
    said 1 1 insert 10 1 added\nsaid 1 2 insert 20 2 added\nsaid 1 3 insert 30 3 added\nsaid 1 4 remove 10 took 1\nend\n";

#[test]
fn a_get_comes_to_a_key_out_of_its_bounds(rt: HostRuntime) -> Result<(), Fail> {
    let once = "places --map tree --callers 2 --races 1";
    certifies(
        &rt,
        "places --map tree --callers 2",
        OUTSIDE,
        0,
        BEGUN_AGAIN,
    )?;
    certifies(&rt, once, OUTSIDE, 6, GIVEN_UP)?;
    certifies(&rt, once, INSIDE, 0, INSIDE_CERTIFICATE)
}
