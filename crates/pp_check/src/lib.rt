//! Checks certificates of a map's history: whether the calls that they list stand in one legal history. The layers above `check` a history,
//! or `judge` the text of a certificate from a source to a sink.
#![tactic(auto)]

ghost use Rattle.std.specs.Prelude.{◌≡◌, ◌≤◌, length, IfOk};
ghost use Rattle.pp_check.specs.declared.Verdict.TheVariants.{Yes};
ghost use Rattle.pp_check.specs.Verdicts.{IsVerdict, IsLegal};

mod history;
pub mod index;
mod judging;
pub mod laws;
mod placing;
mod telling;

pub use judging::{Judged, judge};
use pp_certificate::{CertificateFault, read_certificate};
use pp_model::NoMemory;
use std::alloc::Global;

/// What a checker says of a text.
#[derive(Clone, Copy, Debug, PartialEq, Eq)]
pub enum Verdict {
    /// It is a certificate, its log is sound, and each caller's list stands in the log.
    Yes,
    /// It is no certificate: this is the number, from 1, of the first line with which none goes on, or one past the last line
    /// where the text ends early.
    BadLine { line: u32 },
    /// Its log isn't sound: this is the number, from 1, of the first change that leaves the map before it as it was.
    Unsound { change: u64 },
    /// A caller's list doesn't stand in the log: the least such caller, and the number, from 1, of its first call that doesn't fit the
    /// log, or is placed below the call before it, or, being a change, not above it; or else one more than its calls are, where the
    /// log has a change of this caller that the list leaves out.
    Misplaced { caller: u32, number: u64 },
}

/// Says whether a text of at most 16777216 bytes is the certificate of a legal history of a map, and else what is wrong first.
///
/// Where the answer is yes, the linearization of the certificate's log and lists is a legal history with each of their calls once,
/// in the sense of Herlihy and Wing, "Linearizability: a correctness condition for concurrent objects", 1990. That a checker takes a
/// witness in place of searching for one is the idea of certifying algorithms: McConnell, Mehlhorn, Näher and Schweitzer, "Certifying
/// algorithms", 2011.
///
/// # Errors
///
/// There was no memory.
pub fn check(alloc: Global, bytes: &[u8]) -> Result<Verdict, NoMemory>
    requires { length bytes.now ≤ 16777216 }
    ensures verdict { IfOk result (IsVerdict bytes.now) }
    ensures legal { IfOk result (λ verdict. verdict ≡ Yes → IsLegal bytes.now) }
{
    match read_certificate(alloc, bytes) {
        Ok(certificate) => history::check_history(alloc, &certificate),
        Err(CertificateFault::BadLine { line }) => Ok(Verdict::BadLine { line }),
        Err(CertificateFault::NoMemory) => Err(NoMemory),
    }
}
