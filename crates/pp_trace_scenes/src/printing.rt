//! Printed text over sinks that take little at a time, and over sinks that fail.

ghost use Rattle.std.specs.Prelude.{◌≡◌, ◌≤◌, false};

use pp_model::{Answer, Pair, Reply};
use pp_outside::{Failed, MemSink};
use pp_trace::{Counts, Printer};
use std::alloc::{AllocError, Global};
use std::process::Abort;
use std::test::Fail;

const RUN: &[u8] = b"0 1 added\n0 2 value 70\n0 3 held 70\n0 4 took 70\n0 5 absent\n\
63 4294967295 full\n1 10 lost\n63 4294967295 other 340282366920938463463374607431768211455\ncontents 2\n2 1\n\
18446744073709551612 340282366920938463463374607431768211455\n";

fn print_run(printer: &mut Printer, sink: &mut MemSink) -> Result<(), Failed>
    requires { printer.old.failed ≡ false }
{
    printer.reply(sink, 0, 1, &Answer::Said(Reply::Added))?;
    printer.reply(sink, 0, 2, &Answer::Said(Reply::Value(70)))?;
    printer.reply(sink, 0, 3, &Answer::Said(Reply::Held(70)))?;
    printer.reply(sink, 0, 4, &Answer::Said(Reply::Took(70)))?;
    printer.reply(sink, 0, 5, &Answer::Said(Reply::Absent))?;
    printer.reply(sink, 63, 4294967295, &Answer::Full)?;
    printer.reply(sink, 1, 10, &Answer::Lost { turns: 3 })?;
    let other = Reply::Other(340282366920938463463374607431768211455);
    printer.reply(sink, 63, 4294967295, &Answer::Said(other))?;
    let pairs = [
        Pair { key: 2, value: 1 },
        Pair {
            key: 18446744073709551612,
            value: 340282366920938463463374607431768211455,
        },
    ];
    printer.contents(sink, &pairs)?;
    printer.end(sink)
}

// A run over a sink that takes so many bytes a write and fails at one write.
fn stops_at(rt: &impl Abort, alloc: Global, most: usize, failing: usize) -> Result<(), Fail>
    requires { (1 ≤ most) × (most ≤ 100) × (1 ≤ failing) × (failing ≤ 1000) }
{
    let mut sink = MemSink::new(alloc, most, vec![in alloc; failing as u64]?);
    let Ok(mut printer) = Printer::new(alloc) else {
        assert!(rt; false, "no memory");
        return Ok(());
    };
    let ended = print_run(&mut printer, &mut sink);
    let taken = (most * (failing - 1)).min(RUN.len());
    assert_eq!(rt; ended.is_ok(), taken == RUN.len(), "write {failing}");
    assert_eq!(rt; sink.written(), &RUN[..taken], "write {failing}");
    Ok(())
}

#[test]
fn a_run_is_printed_up_to_the_write_that_fails(rt: HostRuntime) -> Result<(), Fail> {
    for failing in 1..=230 {
        stops_at(&rt, rt.alloc(), 1, failing)?;
        stops_at(&rt, rt.alloc(), 4, failing)?;
    }
    Ok(())
}

fn same_pairs(alloc: Global, count: usize) -> Result<Vec<Pair>, AllocError> {
    vec![in alloc; Pair { key: 1, value: 2 }; count]
}

#[test]
fn a_full_buffer_makes_room_by_single_writes(rt: HostRuntime) -> Result<(), Fail> {
    let pairs = same_pairs(rt.alloc(), 20000)?;
    let mut sink = MemSink::new(rt.alloc(), 7, Vec::new(rt.alloc()));
    let Ok(mut printer) = Printer::new(rt.alloc()) else {
        assert!(rt; false, "no memory");
        return Ok(());
    };
    if printer.contents(&mut sink, &pairs).is_ok() {
        assert_eq!(rt; sink.written().len(), 14483);
        assert!(rt; printer.end(&mut sink).is_ok());
    }
    assert_eq!(rt; sink.written().len(), 80015);
    assert_eq!(rt; &sink.written()[..15], b"contents 20000\n".as_slice());
    assert!(rt;
        sink.written()[15..]
            .chunks(4)
            .all(|line| line == b"1 2\n".as_slice())
    );
    Ok(())
}

#[test]
fn a_made_trace_ends_in_nine_lines(rt: HostRuntime) -> Result<(), Fail> {
    let first = vec![in rt.alloc();
        Answer::Said(Reply::Absent),
        Answer::Said(Reply::Took(5)),
        Answer::Full,
    ]?;
    let second = vec![in rt.alloc();
        Answer::Said(Reply::Added),
        Answer::Full,
        Answer::Lost { turns: 1 },
    ]?;
    let lists = [first, second];
    let counts = Counts::of(&lists);
    let mut sink = MemSink::new(rt.alloc(), 1000, Vec::new(rt.alloc()));
    let Ok(mut printer) = Printer::new(rt.alloc()) else {
        assert!(rt; false, "no memory");
        return Ok(());
    };
    if printer.summary(&mut sink, 6, &counts, 0).is_ok() {
        assert!(rt; printer.end(&mut sink).is_ok());
    }
    assert_eq!(rt;
        sink.written(),
        b"made 6\nadded 1\nheld 0\nvalue 0\nabsent 1\ntook 1\nfull 2\nlost 1\ncontents 0\n".as_slice()
    );
    Ok(())
}
