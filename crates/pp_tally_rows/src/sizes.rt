//! Inputs of every size around one piece and around two, and maps that have no room for all pieces.

use pp_program_scenes::SOUND;
use pp_tally_scenes::tallying::shows;
use std::alloc::Global;
use std::test::Fail;

/// A piece of one byte value, and then so many bytes of another.
fn two_values(alloc: Global, first: usize, second: usize) -> Result<Vec<u8>, Fail> {
    let mut bytes = vec![in alloc; b'a'; first]?;
    for _ in 0..second {
        bytes.push(b'b')?;
    }
    Ok(bytes)
}

const SIZES: [(usize, usize, &[u8]); 7] = [
    (1, 0, b"bytes 1\npieces 1\n97 1\n"),
    (4095, 0, b"bytes 4095\npieces 1\n97 4095\n"),
    (4096, 0, b"bytes 4096\npieces 1\n97 4096\n"),
    (4096, 1, b"bytes 4097\npieces 2\n97 4096\n98 1\n"),
    (4096, 4095, b"bytes 8191\npieces 2\n97 4096\n98 4095\n"),
    (4096, 4096, b"bytes 8192\npieces 2\n97 4096\n98 4096\n"),
    (4096, 4097, b"bytes 8193\npieces 3\n97 4096\n98 4097\n"),
];

#[test]
fn sizes_around_one_piece_and_two(rt: HostRuntime) -> Result<(), Fail> {
    for (first, second, sink) in SIZES {
        let input = two_values(rt.alloc(), first, second)?;
        for line in [
            "--map plain",
            "--map list --callers 3",
            "--map hash --callers 1",
            "--map tree --callers 2",
        ] {
            assert!(rt;
                shows(&rt, line, &input, &SOUND, 0, sink, b"")?,
                "{line} {first} {second}"
            );
        }
    }
    Ok(())
}

/// Ten pieces, of which the map holds eight, one or none in a caller's share: the others are left over, and counted all the same.
#[test]
fn pieces_that_find_no_room_are_counted(rt: HostRuntime) -> Result<(), Fail> {
    let input = two_values(rt.alloc(), 36_864, 4096)?;
    let told = b"bytes 40960\npieces 10\n97 36864\n98 4096\n";
    for line in [
        "--map plain --records 8",
        "--map list --records 8 --callers 1",
        "--map hash --records 8 --callers 4",
        "--map tree --records 8 --callers 1",
        "--map tree --records 8 --callers 4",
        "--map tree --records 8 --callers 64",
    ] {
        assert!(rt; shows(&rt, line, &input, &SOUND, 0, told, b"")?, "{line}");
    }
    Ok(())
}

/// Callers that give up at their first lost turn leave pieces to others, or to the end.
#[test]
fn claims_that_give_up_leave_nothing_uncounted(rt: HostRuntime) -> Result<(), Fail> {
    let input = two_values(rt.alloc(), 1_044_480, 4097)?;
    let told = b"bytes 1048577\npieces 257\n97 1044480\n98 4097\n";
    for line in [
        "--map list --callers 8 --races 1",
        "--map hash --callers 8 --races 1 --buckets 1",
        "--map tree --callers 8 --races 1",
    ] {
        for run in 0..3 {
            assert!(rt;
                shows(&rt, line, &input, &SOUND, 0, told, b"")?,
                "{line} {run}"
            );
        }
    }
    Ok(())
}
