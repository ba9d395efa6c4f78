//! Where bytes come from and where they go, seen so that a contract can name the bytes and the faults. The layers above read by `read_all`
//! from any `Source`, write to any `Sink`, and have a `Gate` called around each call of a map.
#![tactic(auto)]

ghost use Rattle.std.specs.Prelude.{◌≡◌, ℕ, ◌<◌, ◌≤◌, List, length, Option, Result, IfOk};
ghost use Rattle.std.specs.Io.{ReadsAtMost, WritesAtMost};
ghost use Rattle.std.specs.Io.KnownBytes.{ReadConsumes, WriteAppends};
ghost use Rattle.pp_outside.specs.Outside.{HasCause};
ghost use Rattle.pp_outside.specs.declared.Failed.{Failed};

mod memory;
mod reading;
mod streams;
mod sure;

pub use memory::{MemSink, MemSource};
pub use reading::{ReadFault, read_all};
pub use streams::{StdSink, StdSource};
pub use sure::{SureSink, SureSource};

/// A read or a write failed.
#[derive(Clone, Copy, Debug, PartialEq, Eq)]
pub struct Failed;

/// What gives bytes. `left` is the bytes still to come, where the source tells them; `faults` is a count that
/// never falls. `Reads` is what the source tells of one read: of the source before and after it, of the room that the read was
/// offered, and of its answer. A contract names by it the reads that a function made.
pub trait Source {
    ghost left: { Self → Option (List ℕ) };

    ghost faults: { Self → ℕ };

    ghost Reads: { Self → Self → ℕ → Result ℕ Failed → Type 0 };

    /// Puts the next bytes into the front of `into`, in order, and gives their number; 0 is the end.
    ///
    /// # Errors
    ///
    /// `Failed` comes only where `faults` rose in this call, and then nothing was taken. A read that succeeds leaves
    /// `faults` as it was.
    fn read(&mut self, into: &mut [u8]) -> Result<usize, Failed>
        requires room { 0 < length into.old }
        ensures bound { ReadsAtMost result into.new }
        ensures bytes { ReadConsumes (left self.old) (left self.new) result into.new }
        ensures cause { HasCause (faults self.old) (faults self.new) result }
        ensures made { Reads self.old self.new (length into.old) result };
}

/// What takes bytes. `written` is the bytes that it took so far, where the sink tells them; `faults` is a count
/// that never falls. `Writes` is what the sink tells of one write: of the sink before and after it, of the bytes that it was
/// offered, and of its answer. A contract names by it the writes that a function made.
pub trait Sink {
    ghost written: { Self → Option (List ℕ) };

    ghost faults: { Self → ℕ };

    ghost Writes: { Self → Self → List ℕ → Result ℕ Failed → Type 0 };

    /// Takes the first of these bytes, at least one, and gives their number.
    ///
    /// # Errors
    ///
    /// `Failed` comes only where `faults` rose in this call, and then nothing was taken. A write that succeeds leaves
    /// `faults` as it was.
    fn write(&mut self, bytes: &[u8]) -> Result<usize, Failed>
        requires some { 0 < length bytes.now }
        ensures bound { WritesAtMost result bytes.now }
        ensures progress { IfOk result (λ n. 1 ≤ n) }
        ensures bytes { WriteAppends (written self.old) (written self.new) result bytes.now }
        ensures cause { HasCause (faults self.old) (faults self.new) result }
        ensures made { Writes self.old self.new bytes.now result };
}

/// What is called round each call of a caller on a map. It tells nothing, and its calls return. `number` is
/// the call's number among its caller's calls, from 1.
pub trait Gate {
    /// The call is about to be made.
    fn before(&self, caller: u32, number: u32);

    /// The call was answered.
    fn after(&self, caller: u32, number: u32);
}

/// A gate that does nothing.
#[derive(Clone, Copy, Debug, PartialEq, Eq)]
pub struct NoGate;

impl Gate for NoGate {
    fn before(&self, _caller: u32, _number: u32) {}

    fn after(&self, _caller: u32, _number: u32) {}
}
