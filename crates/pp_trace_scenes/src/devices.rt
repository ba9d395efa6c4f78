//! How reads and writes go in pieces, the room that a read is offered, and one run of std's own reader and writer.

ghost use Rattle.std.specs.Prelude.{◌≡◌, ℕ, ◌≤◌, None};

use pp_outside::{
    Failed, Gate, MemSink, MemSource, NoGate, ReadFault, Sink, Source, StdSink, StdSource,
    SureSink, SureSource, read_all,
};
use std::collections::VecDeque;
use std::fs;
use std::test::Fail;

/// A source that gives a byte a read and notes the least room that it was offered.
#[derive(Drop)]
struct Watched {
    left: u8,
    least: usize,
}

impl Source for Watched {
    ghost left = { λ s. None };

    ghost faults = { λ s. 0 };

    ghost Reads = { λ s t room result. Unit {0} };

    fn read(&mut self, into: &mut [u8]) -> Result<usize, Failed> {
        self.least = self.least.min(into.len());
        if self.left == 0 {
            return Ok(0);
        }
        self.left -= 1;
        into[0] = 7;
        Ok(1)
    }
}

#[test]
fn a_source_is_read_to_its_end(rt: HostRuntime) -> Result<(), Fail> {
    for most in [1, 2, 3, 100] {
        let mut source = MemSource::new(
            b"three words here".to_vec(rt.alloc())?,
            most,
            Vec::new(rt.alloc()),
        );
        let bytes = read_all(rt.alloc(), &mut source, 16)?;
        assert_eq!(rt;
            bytes.as_slice(),
            b"three words here".as_slice(),
            "{most} bytes a read"
        );
    }
    let mut short = MemSource::new(
        b"three words here".to_vec(rt.alloc())?,
        5,
        Vec::new(rt.alloc()),
    );
    assert!(rt;
        matches!(
            read_all(rt.alloc(), &mut short, 15),
            Err(ReadFault::TooLong)
        )
    );
    let mut empty = SureSource::new(Vec::new(rt.alloc()));
    assert_eq!(rt; read_all(rt.alloc(), &mut empty, 0)?.len(), 0);
    Ok(())
}

#[test]
fn the_first_failing_read_ends_the_reading(rt: HostRuntime) -> Result<(), Fail> {
    for failing in [1, 2, 3] {
        let numbers = [failing].to_vec(rt.alloc())?;
        let mut source = MemSource::new(b"abcd".to_vec(rt.alloc())?, 2, numbers);
        assert!(rt;
            matches!(read_all(rt.alloc(), &mut source, 4), Err(ReadFault::Failed)),
            "read {failing}"
        );
    }
    Ok(())
}

#[test]
fn each_read_is_offered_room(rt: HostRuntime) -> Result<(), Fail> {
    let mut source = Watched {
        left: 200,
        least: usize::MAX,
    };
    assert_eq!(rt; read_all(rt.alloc(), &mut source, 1000)?.len(), 200);
    assert!(rt; 64 <= source.least);
    Ok(())
}

#[test]
fn the_real_edge_moves_bytes(rt: HostRuntime) -> Result<(), Fail> {
    let mut sink = StdSink::new(VecDeque::new(rt.alloc()));
    assert_eq!(rt; sink.write(b"to std"), Ok(6));
    let mut source = StdSource::new(fs::File::open(&rt, "/dev/null")?);
    assert_eq!(rt; read_all(rt.alloc(), &mut source, 10)?.len(), 0);
    Ok(())
}

#[test]
fn a_sink_takes_pieces_and_fails_at_its_numbers(rt: HostRuntime) -> Result<(), Fail> {
    let mut sink = MemSink::new(rt.alloc(), 4, [2].to_vec(rt.alloc())?);
    assert_eq!(rt; sink.write(b"abcdef"), Ok(4));
    assert_eq!(rt; sink.write(b"ef"), Err(Failed));
    assert_eq!(rt; sink.write(b"ef"), Ok(2));
    assert_eq!(rt; sink.written(), b"abcdef".as_slice());
    let mut sure = SureSink::new();
    assert_eq!(rt; sure.write(b"abc"), Ok(3));
    NoGate.before(0, 1);
    NoGate.after(0, 1);
    Ok(())
}
