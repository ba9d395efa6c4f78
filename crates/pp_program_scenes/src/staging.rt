//! The stage on which a program runs in a test: its words, and a source and sinks in memory.

ghost use Rattle.std.specs.Prelude.{◌≡◌, IfOk};

use pp_outside::{MemSink, MemSource};
use std::alloc::{AllocError, Global};

/// The most bytes that the source gives at a read, that the sink takes at a write and that the sink for the line about an error
/// takes at a write, and which of these fail.
#[derive(Clone, Copy)]
pub struct Devices<'a> {
    pub read: usize,
    pub failing_reads: &'a [u64],
    pub write: usize,
    pub failing_writes: &'a [u64],
    pub error: usize,
    pub failing_errors: &'a [u64],
}

/// Devices that never fail.
pub const SOUND: Devices<'static> = Devices {
    read: 100_000,
    failing_reads: &[],
    write: 100_000,
    failing_writes: &[],
    error: 7,
    failing_errors: &[],
};

/// What a program showed: its status, and what its two sinks took.
#[derive(Drop)]
pub struct Shown {
    pub status: u8,
    pub sink: Vec<u8>,
    pub errs: Vec<u8>,
}

impl Shown {
    /// Whether it is this status, with these bytes taken by the sink and by the sink for the line about an error.
    pub fn is(&self, status: u8, sink: &[u8], errs: &[u8]) -> bool {
        self.status == status && self.sink.as_slice() == sink && self.errs.as_slice() == errs
    }
}

/// The words of a line.
///
/// # Errors
///
/// There was no memory.
pub fn words_of(alloc: Global, line: &str) -> Result<Vec<String>, AllocError> {
    let mut words = Vec::new(alloc);
    for word in line.split_ascii_whitespace() {
        words.push(String::from_str(alloc, word)?)?;
    }
    Ok(words)
}

/// The words and the devices of a program that is about to run.
#[derive(Drop)]
pub struct Stage {
    pub words: Vec<String>,
    pub source: MemSource,
    pub sink: MemSink,
    pub errs: MemSink,
}

impl Stage {
    /// A stage with the words of a line, and a source that gives this input.
    ///
    /// # Errors
    ///
    /// There was no memory.
    pub fn new(
        alloc: Global,
        line: &str,
        input: &[u8],
        devices: &Devices,
    ) -> Result<Stage, AllocError>
        ensures { IfOk result (λ stage. stage.source.bytes ≡ input.now) }
    {
        let reads = devices.failing_reads.to_vec(alloc)?;
        let writes = devices.failing_writes.to_vec(alloc)?;
        let errors = devices.failing_errors.to_vec(alloc)?;
        Ok(Stage {
            words: words_of(alloc, line)?,
            source: MemSource::new(input.to_vec(alloc)?, devices.read.max(1), reads),
            sink: MemSink::new(alloc, devices.write.max(1), writes),
            errs: MemSink::new(alloc, devices.error.max(1), errors),
        })
    }

    /// What a program showed that ended on this stage with this status.
    ///
    /// # Errors
    ///
    /// There was no memory.
    pub fn shown(&self, alloc: Global, status: u8) -> Result<Shown, AllocError>
        ensures { IfOk result (λ shown. (shown.status ≡ status) × (shown.sink.items ≡ self.now.sink.bytes)
            × (shown.errs.items ≡ self.now.errs.bytes)) }
    {
        Ok(Shown {
            status,
            sink: self.sink.written().to_vec(alloc)?,
            errs: self.errs.written().to_vec(alloc)?,
        })
    }
}
