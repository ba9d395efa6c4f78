//! Reading a certificate line by line.

ghost use Rattle.std.specs.Prelude.{◌≡◌, ◌+◌, ◌≤◌, length, IfOk, IfErr, MatchOption, OnOk};
ghost use Rattle.pp_certificate.specs.Certificates.{IsCertificate, CertificateCause, with_entry};
ghost use Rattle.pp_certificate.specs.Lines.{EntryFits};
ghost use Rattle.pp_certificate.specs.Cuts.{IsLastPart, IsLineTo};
ghost use Rattle.pp_certificate.specs.declared.reading.CertificateFault.TheVariants.{NoMemory};

use crate::entries::{Stage, read_entry};
use crate::words::length_to;
use crate::{Certificate, Entry};
use std::alloc::{AllocError, Global};

/// Why a text gives no certificate.
#[derive(Clone, Copy, Debug, PartialEq, Eq)]
pub enum CertificateFault {
    /// This is the number, from 1, of the first line with which no certificate goes on, or one past the last line where the text
    /// ends early.
    BadLine { line: u32 },
    /// There was no memory.
    NoMemory,
}

impl From<AllocError> for CertificateFault {
    ghost from_gives = { λ _ fault. fault ≡ NoMemory };

    fn from(_error: AllocError) -> CertificateFault {
        CertificateFault::NoMemory
    }
}

/// Reads a certificate of at most 16777216 bytes: the line `certificate 1`, a line for each change of a log, a line for each placed
/// call of each caller, by rising callers, and the line `end`.
///
/// # Errors
///
/// `BadLine` comes exactly where the text is none; it tells the first line with which no certificate goes on, or one past the last
/// line where the text ends early. `NoMemory` comes where the memory for log and lists isn't there.
pub fn read_certificate(alloc: Global, bytes: &[u8]) -> Result<Certificate, CertificateFault>
    requires { length bytes.now ≤ 16777216 }
    ensures certificate { IfOk result (IsCertificate bytes.now) }
    ensures fault { IfErr result (CertificateCause bytes.now) }
{
    let mut certificate = Certificate::empty(alloc)?;
    let mut stage = Stage::Opening;
    let mut line = 1;
    let mut from = 0;
    while let Some(feed) = line_end(bytes, from) {
        let Some(entry) = read_entry(bytes, from, feed) else {
            return Err(CertificateFault::BadLine { line });
        };
        let Some(next) = stage.after(&entry) else {
            return Err(CertificateFault::BadLine { line });
        };
        enter(&mut certificate, &entry)?;
        stage = next;
        line += 1;
        from = feed + 1;
    }
    if !stage.has_ended() || from < bytes.len() {
        return Err(CertificateFault::BadLine { line });
    }
    Ok(certificate)
}

/// Where the line feed of the line stands that begins at `from`; none where no line feed follows.
fn line_end(bytes: &[u8], from: usize) -> Option<usize>
    requires { from ≤ length bytes.now }
    ensures { MatchOption result (IsLastPart bytes.now from) (IsLineTo bytes.now from) }
{
    let feed = from + length_to(&bytes[from..], b'\n');
    if feed == bytes.len() {
        return None;
    }
    Some(feed)
}

/// Adds what a line says.
fn enter(certificate: &mut Certificate, entry: &Entry) -> Result<(), AllocError>
    requires { EntryFits entry.now }
    ensures { OnOk result (certificate.new ≡ with_entry certificate.old entry.now) }
{
    match entry {
        Entry::Opens | Entry::Ends => Ok(()),
        Entry::Changes(change) => certificate.push_change(*change),
        Entry::Says { caller, placed } => certificate.push_placed(*caller, *placed),
    }
}
