//! A whole judgement: a certificate in, a verdict out.

ghost use Rattle.std.specs.Prelude.{◌≡◌};
ghost use Rattle.pp_devices.specs.Devices.{device};
ghost use Rattle.pp_devices.specs.Told.{IsTold, IsToldWhole, IsToldPart};
ghost use Rattle.pp_check.specs.Judging.{status_of, Cause, IsJudgement, IsGood, IsJudgedOrNot};

use crate::telling::{verdict_text, way_text};
use crate::{Verdict, check};
use pp_devices::{tell_line, write_text};
use pp_outside::{ReadFault, Sink, Source, read_all};
use std::alloc::Global;

/// A certificate has at most this many bytes.
const LONGEST: u32 = 16_777_216;

/// The way in which a judgement ended.
#[derive(Clone, Copy, Debug, PartialEq, Eq)]
pub(crate) enum Way {
    /// This verdict was printed.
    Judged(Verdict),
    /// A read failed.
    Unread,
    /// The source gave more bytes than a certificate may have.
    TooLong,
    /// A write failed.
    Unwritten,
    /// There was no memory.
    NoMemory,
}

impl Way {
    fn status(self) -> u8
        ensures { result ≡ status_of self }
    {
        match self {
            Way::Judged(Verdict::Yes) => 0,
            Way::Judged(Verdict::BadLine { .. }) => 10,
            Way::Judged(Verdict::Unsound { .. }) => 11,
            Way::Judged(Verdict::Misplaced { .. }) => 12,
            Way::Unread => 3,
            Way::Unwritten => 4,
            Way::NoMemory => 5,
            Way::TooLong => 7,
        }
    }
}

/// The ending of a judgement.
#[derive(Clone, Copy, Debug, PartialEq, Eq)]
pub struct Judged {
    /// 0 for yes; 10, 11 or 12 for a bad line, a change that isn't sound, or a misplaced call; 3 where a read failed, 4 where a write
    /// failed, 5 for want of memory, 7 where the source is too long.
    pub status: u8,
}

/// Does all that the program does: reads a certificate, checks it, and prints `yes`, or `no` with what is wrong first. It tells how it
/// ended by a status, and by a line on `errs` where there is no verdict or it couldn't be printed.
pub fn judge<S: Source, K: Sink, E: Sink>(
    alloc: Global,
    source: &mut S,
    sink: &mut K,
    errs: &mut E,
) -> Judged
    ensures ending { IsJudgement result.status
        (device (S.left source.old) (S.faults source.old)) (device (S.left source.new) (S.faults source.new))
        (device (K.written sink.new) (K.faults sink.new) ≡ device (K.written sink.old) (K.faults sink.old))
        (IsToldWhole K.written K.faults K.Writes sink.old sink.new) (IsToldPart K.written K.faults K.Writes sink.old sink.new)
        (IsTold E.written E.faults E.Writes errs.old errs.new) }
    ensures complete { IsGood (device (S.left source.old) (S.faults source.old)) (device (S.left source.new) (S.faults source.new))
        (K.faults sink.old) (K.faults sink.new) → IsJudgedOrNot result.status }
{
    let way = judge_source(alloc, source, sink);
    tell_line(errs, way_text(way).as_str().as_bytes());
    Judged {
        status: way.status(),
    }
}

fn judge_source<S: Source, K: Sink>(alloc: Global, source: &mut S, sink: &mut K) -> Way
    ensures { Cause result (device (S.left source.old) (S.faults source.old)) (device (S.left source.new) (S.faults source.new))
        (device (K.written sink.new) (K.faults sink.new) ≡ device (K.written sink.old) (K.faults sink.old))
        (IsToldWhole K.written K.faults K.Writes sink.old sink.new) (IsToldPart K.written K.faults K.Writes sink.old sink.new) }
{
    match read_all(alloc, source, LONGEST) {
        Ok(bytes) => match check(alloc, &bytes) {
            Ok(verdict) => match write_text(sink, verdict_text(verdict).as_str().as_bytes()) {
                Ok(()) => Way::Judged(verdict),
                Err(_) => Way::Unwritten,
            },
            Err(_) => Way::NoMemory,
        },
        Err(ReadFault::Failed) => Way::Unread,
        Err(ReadFault::TooLong) => Way::TooLong,
        Err(ReadFault::NoMemory) => Way::NoMemory,
    }
}
