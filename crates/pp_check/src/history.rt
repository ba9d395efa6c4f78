//! Whether a log is sound and the callers' lists stand in it.

ghost use Rattle.std.specs.Prelude.{◌≡◌, ◌<◌, length, Some, slice_get, IfOk, MatchOption};
ghost use Rattle.pp_model.specs.Lists.{AtEach};
ghost use Rattle.pp_model.specs.History.{Sound};
ghost use Rattle.pp_certificate.specs.Certificates.{IsCertificate};
ghost use Rattle.pp_check.specs.declared.Verdict.TheVariants.{Yes};
ghost use Rattle.pp_check.specs.Histories.{IsUnsound};
ghost use Rattle.pp_check.specs.Indexes.{IsIndex};
ghost use Rattle.pp_check.specs.Verdicts.{IsVerdict, IsLegal};

use crate::Verdict;
use crate::index::{Touch, index_of, key_of, reply_to, value_at};
use crate::placing::first_misplaced;
use pp_certificate::Certificate;
use pp_model::{Change, NoMemory};
use std::alloc::Global;

/// The number of callers that a certificate speaks of.
const CALLERS: u32 = 64;

/// The verdict on a certificate that was read.
pub fn check_history(alloc: Global, certificate: &Certificate) -> Result<Verdict, NoMemory>
    ensures verdict { (text : _) → IsCertificate text certificate.now → IfOk result (IsVerdict text) }
    ensures legal { (text : _) → IsCertificate text certificate.now → IfOk result (λ verdict. verdict ≡ Yes → IsLegal text) }
{
    let index = index_of(alloc, certificate.log())?;
    if let Some(change) = first_unsound(certificate.log(), &index) {
        return Ok(Verdict::Unsound { change });
    }
    Ok(check_lists(certificate, &index))
}

/// The number of the first change that leaves the map before it as it was, if there is one.
fn first_unsound(log: &[Change], index: &[Touch]) -> Option<u64>
    requires { IsIndex log.now index.now }
    ensures { MatchOption result (Sound log.now) (IsUnsound log.now) }
{
    for (at, change) in log.iter().enumerate() {
        let found = value_at(log, index, key_of(&change.call), at);
        if !reply_to(&change.call, found).changes() {
            return Some(at as u64 + 1);
        }
    }
    None
}

/// The verdict on a certificate whose log is sound.
fn check_lists(certificate: &Certificate, index: &[Touch]) -> Verdict
    requires index { IsIndex certificate.now.log index.now }
    requires sound { Sound certificate.now.log }
    ensures { (text : _) → IsCertificate text certificate.now → IsVerdict text result }
{
    for caller in 0..CALLERS {
        let list = certificate.list(caller);
        if let Some(number) = first_misplaced(certificate.log(), index, caller, list) {
            return Verdict::Misplaced { caller, number };
        }
    }
    Verdict::Yes
}
