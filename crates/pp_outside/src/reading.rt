//! Reading a source to its end.

ghost use Rattle.std.specs.Prelude.{◌≡◌, ℕ, ◌+◌, ◌≤◌, length, IfOk, IfErr};
ghost use Rattle.pp_outside.specs.Outside.{WasAll, ReadCause, ReadsTillFault};

use crate::Source;
use std::alloc::Global;

/// Why a source wasn't read to its end.
#[derive(Clone, Copy, Debug, PartialEq, Eq)]
pub enum ReadFault {
    /// A read failed.
    Failed,
    /// The source gave more bytes than were allowed.
    TooLong,
    /// There was no memory.
    NoMemory,
}

/// The room that each read is offered, in bytes.
const CHUNK: usize = 16_384;

/// Reads a source to its end and gives all its bytes, in order, at most `most`. Each read is offered at least 64 bytes of room.
///
/// # Errors
///
/// `Failed` where a read failed: the first one that does ends the reading. `TooLong` exactly where the source gave more than
/// `most` bytes and no read failed before; `NoMemory` for want of memory.
pub fn read_all<S: Source>(alloc: Global, source: &mut S, most: u32) -> Result<Vec<u8>, ReadFault>
    ensures all { IfOk result (λ v. WasAll (S.left source.old) (S.left source.new) v.items) }
    ensures most { IfOk result (λ v. length v.items ≤ most) }
    ensures cause { IfErr result (λ e. ReadCause most (S.left source.old) (S.left source.new) (S.faults source.old) (S.faults source.new)
        e) }
    ensures kept { IfOk result (λ v. S.faults source.new ≡ S.faults source.old) }
    ensures later { S.faults source.old ≤ S.faults source.new }
    ensures reads { ReadsTillFault S.Reads 64 source.old source.new result }
{
    let most = most as usize;
    let mut bytes = Vec::new(alloc);
    let mut chunk = [0u8; CHUNK];
    loop {
        match source.read(&mut chunk) {
            Err(_) => return Err(ReadFault::Failed),
            Ok(0) => return Ok(bytes),
            Ok(count) => {
                if count > most - bytes.len() {
                    return Err(ReadFault::TooLong);
                }
                if bytes.extend_from_slice(&chunk[..count]).is_err() {
                    return Err(ReadFault::NoMemory);
                }
            }
        }
    }
}
