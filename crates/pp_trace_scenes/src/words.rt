//! Settings, from the words of a line.

use pp_trace::Make;
use pp_words::words::settings;
use pp_words::{Kind, Settings, WordsFault};
use std::alloc::{AllocError, Global};
use std::test::Fail;

/// The words of a line, which are parted by one space each.
fn words_of(alloc: Global, line: &str) -> Result<Vec<String>, AllocError> {
    let mut words = Vec::new(alloc);
    for word in line.split_terminator(' ') {
        words.push(String::from_str(alloc, word)?)?;
    }
    Ok(words)
}

const HASH: Settings = Settings {
    map: Kind::Hash,
    callers: 4,
    records: 65_536,
    buckets: 64,
    races: 1_099_511_627_776,
    make: None,
};

const ALL: Settings = Settings {
    map: Kind::Tree,
    callers: 2,
    records: 8,
    buckets: 4_096,
    races: 1,
    make: Some(Make {
        seed: 2_147_483_647,
        lines: 1_000_000,
    }),
};

const ACCEPTED: [(&str, Settings); 6] = [
    ("--map=hash", HASH),
    (
        "--callers 064 --map hash",
        Settings {
            callers: 64,
            ..HASH
        },
    ),
    (
        "--make 1,2 --map list",
        Settings {
            map: Kind::List,
            make: Some(Make { seed: 1, lines: 2 }),
            ..HASH
        },
    ),
    (
        "--map plain",
        Settings {
            map: Kind::Plain,
            callers: 1,
            ..HASH
        },
    ),
    (
        "--callers=1 --map=plain",
        Settings {
            map: Kind::Plain,
            callers: 1,
            ..HASH
        },
    ),
    (
        "--races 1 --make=2147483647,1000000 --buckets 4096 --map=tree --records=8 --callers 2",
        ALL,
    ),
];

const REFUSED: [&str; 36] = [
    "",
    "--map",
    "--map=",
    "--map=hash=",
    "--MAP hash",
    "--ma hash",
    "--map Hash",
    "hash",
    "--map hash more",
    "--map hash --map tree",
    "--map=hash --map=hash",
    "--map hash --callers 0",
    "--map hash --callers +4",
    "--map hash --callers=65",
    "--map hash --callers=",
    "--map hash --callers  --races 1",
    "--map hash --callers -4",
    "--map hash --callers 4 --callers=4",
    "--map hash --records 7",
    "--map hash --records 262145",
    "--map hash --buckets 4097",
    "--map hash --races 1099511627777",
    "--map hash --make 1",
    "--map hash --make 1,2,3",
    "--map hash --make 2147483648,1",
    "--map hash --make 1,1000001",
    "--map plain --callers 2",
    "--help",
    "--map hash --help",
    "--map hash -h",
    "--map hash --version",
    "--map hash --",
    "-- --map hash",
    "--map hash --callers --",
    "--map hash -",
    "--map -",
];

#[test]
fn reads_words(rt: HostRuntime) -> Result<(), Fail> {
    for (line, want) in ACCEPTED {
        let words = words_of(rt.alloc(), line)?;
        assert_eq!(rt; settings(rt.alloc(), &words), Ok(want), "at {line}");
    }
    for line in REFUSED {
        let words = words_of(rt.alloc(), line)?;
        assert_eq!(rt;
            settings(rt.alloc(), &words),
            Err(WordsFault::BadWords),
            "at {line}"
        );
    }
    Ok(())
}
