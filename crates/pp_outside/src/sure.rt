//! A source and a sink that never fail.

ghost use Rattle.std.specs.Prelude.{◌≡◌, ℕ, ◌+◌, ◌-◌, ◌^◌, ◌<◌, ◌≤◌, min, drop, length, None, Some, Ok, IsOk, IfOk};
ghost use Rattle.std.specs.Io.{WritesAtMost};
ghost use Rattle.std.specs.Io.KnownBytes.{WriteAppends};
ghost use Rattle.pp_outside.specs.Outside.{HasCause};

use crate::{Failed, Sink, Source};

/// A source in memory that never fails: it tells what is left, and its count of faults stays 0.
#[derive(Drop)]
pub struct SureSource {
    bytes: Vec<u8>,
    at: usize,
    ghost within: { at ≤ length bytes.items },
}

impl SureSource {
    /// A source that gives these bytes.
    pub fn new(bytes: Vec<u8>) -> SureSource
        ensures left { ⟦<SureSource as Source>⟧.left result ≡ Some bytes.items }
    {
        SureSource { bytes, at: 0 }
    }
}

impl Source for SureSource {
    ghost left = { λ s. Some (drop s.at s.bytes.items) };

    ghost faults = { λ s. 0 };

    ghost Reads = { λ s t room result. IsOk result };

    fn read(&mut self, into: &mut [u8]) -> Result<usize, Failed> {
        let count = (self.bytes.len() - self.at).min(into.len());
        into[..count].copy_from_slice(&self.bytes[self.at..self.at + count]);
        self.at += count;
        Ok(count)
    }
}

/// A sink that never fails: its count of faults stays 0. It keeps only how many bytes it took, and tells no
/// content.
#[derive(Drop)]
pub struct SureSink {
    count: u64,
}

impl SureSink {
    /// A sink that took nothing so far.
    pub fn new() -> SureSink
        ensures { result.count ≡ 0 }
    {
        SureSink { count: 0 }
    }
}

impl Sink for SureSink {
    ghost written = { λ s. None };

    ghost faults = { λ s. 0 };

    ghost Writes = { λ s t offered result. result ≡ Ok (length offered) };

    fn write(&mut self, bytes: &[u8]) -> Result<usize, Failed>
        requires some { 0 < length bytes.now }
        ensures bound { WritesAtMost result bytes.now }
        ensures progress { IfOk result (λ n. 1 ≤ n) }
        ensures bytes { WriteAppends None None result bytes.now }
        ensures cause { HasCause 0 0 result }
        ensures made { result ≡ Ok (length bytes.now) }
        ensures count { self.new.count ≡ min (self.old.count + length bytes.now) (2 ^ 64 - 1) }
    {
        self.count = self.count.saturating_add(bytes.len() as u64);
        Ok(bytes.len())
    }
}
