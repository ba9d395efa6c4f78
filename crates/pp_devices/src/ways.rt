//! How a program ends.

ghost use Rattle.std.specs.Prelude.{◌≡◌};
ghost use Rattle.pp_devices.specs.Ways.{status_of};

use pp_trace::Why;

/// The way in which a run of a program ended that reads a trace and prints answers.
#[derive(Clone, Copy, Debug, PartialEq, Eq)]
pub enum Way {
    /// All lines were answered by a reply, and everything was written.
    Answered,
    /// The same, but so many lines were full and lost, at least one of them.
    Partly { full: u32, lost: u32 },
    /// The words say no settings.
    BadWords,
    /// This line of the trace is bad, the first one.
    BadLine { line: u32, why: Why },
    /// A read failed.
    Unread,
    /// The source gave more bytes than a trace may have.
    TooLong,
    /// A write failed.
    Unwritten,
    /// There was no memory.
    NoMemory,
}

impl Way {
    /// The exit status that tells the way.
    pub fn status(self) -> u8
        ensures { result ≡ status_of self }
    {
        match self {
            Way::Answered => 0,
            Way::BadWords => 1,
            Way::BadLine { .. } => 2,
            Way::Unread => 3,
            Way::Unwritten => 4,
            Way::NoMemory => 5,
            Way::Partly { .. } => 6,
            Way::TooLong => 7,
        }
    }
}
