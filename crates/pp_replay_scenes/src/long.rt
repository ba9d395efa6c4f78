//! Long traces over callers that share their keys, and made traces run again.

use crate::replaying::{replayed, shows};
use pp_outside::NoGate;
use pp_program_scenes::SOUND;
use std::alloc::Global;
use std::test::Fail;

/// The next state of the generator of made traces.
fn drawn(state: u64) -> u64 {
    state.wrapping_mul(1103515245).wrapping_add(12345) % 2147483648
}

/// A trace of so many lines by eight callers in turn, over 10,000 keys that all of them share: one half gets, one quarter inserts,
/// one quarter removes.
fn shared(alloc: Global, lines: u32) -> Result<String, Fail> {
    let mut text = String::new(alloc);
    let mut state = 1u64;
    for line in 0..lines {
        let caller = line % 8;
        state = drawn(state);
        let kind = state / 65536 % 4;
        state = drawn(state);
        let key = state / 65536 % 10000;
        let call = match kind {
            0 => format!(in alloc; "{caller} insert {key} {state}\n")?,
            1 => format!(in alloc; "{caller} remove {key}\n")?,
            _ => format!(in alloc; "{caller} get {key}\n")?,
        };
        text.push_str(call.as_str())?;
    }
    Ok(text)
}

/// Whether a text has so many answers of each of eight callers, one after another, and then contents of which there are as many as
/// are said, with keys that rise.
fn is_whole(alloc: Global, text: &str, calls: u32) -> Result<bool, Fail> {
    let mut lines = text.lines();
    for caller in 0..8u32 {
        for number in 1..=calls {
            let start = format!(in alloc; "{caller} {number} ")?;
            if !lines.next().unwrap_or("").starts_with(start.as_str()) {
                return Ok(false);
            }
        }
    }
    let head = lines.next().unwrap_or("");
    let mut count = 0u32;
    let mut least = 0u64;
    for line in lines {
        let (key, _) = line.split_once(' ').unwrap_or(("", ""));
        let key = key.parse::<u64>()?;
        if key < least {
            return Ok(false);
        }
        least = key.saturating_add(1);
        count = count.saturating_add(1);
    }
    let said = format!(in alloc; "contents {count}")?;
    Ok(head == said.as_str())
}

#[test]
fn eight_callers_share_their_keys(rt: HostRuntime) -> Result<(), Fail> {
    let trace = shared(rt.alloc(), 200_000)?;
    for line in [
        "--map hash --callers 8",
        "--map tree --callers 8 --records 262144",
    ] {
        let got = replayed(&rt, rt.alloc(), line, trace.as_bytes(), &SOUND, &NoGate)?;
        assert_eq!(rt; got.status, 0, "{line}");
        let text = String::from_utf8(got.sink)?;
        let is_whole = is_whole(rt.alloc(), text.as_str(), 25_000)?;
        assert!(rt; is_whole, "{line}");
    }
    Ok(())
}

const HASH_OUT: &[u8] =
    b"made 100000\nadded 23799\nheld 26148\nvalue 13028\nabsent 24010\ntook 13015\nfull 0\nlost 0\ncontents 10784\n";

const LIST_OUT: &[u8] =
    b"made 10000\nadded 4321\nheld 657\nvalue 321\nabsent 4363\ntook 338\nfull 0\nlost 0\ncontents 3983\n";

/// The counts were found by a program in C++ that makes these calls on one `std::map`.
#[test]
fn made_traces_come_to_the_same_each_time(rt: HostRuntime) -> Result<(), Fail> {
    let rows = [
        ("--map hash --records 262144 --make 1,100000", HASH_OUT),
        ("--map tree --records 262144 --make 1,100000", HASH_OUT),
        ("--map list --records 262144 --make 1,10000", LIST_OUT),
    ];
    for (line, sink) in rows {
        for run in 0..3 {
            assert!(rt;
                shows(&rt, line, b"", &SOUND, 0, sink, b"")?,
                "{line}, run {run}"
            );
        }
    }
    Ok(())
}
