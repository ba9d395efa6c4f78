//! A certificate that was read: a log, and for each caller the list of its placed calls.

ghost use Rattle.std.specs.Prelude.{◌≡◌, ◌<◌, ◌≤◌, [], ◌∷◌, ◌++◌, map, length, replicate, Some, slice_get, IfOk, OnOk};
ghost use Rattle.pp_certificate.specs.Certificates.{with_change, with_placed, empty_lists};

use pp_model::{Change, Placed};
use std::alloc::{AllocError, Global};
use std::marker::Model;

/// The number of callers that a certificate speaks of.
const CALLERS: usize = 64;

/// A log of changes, and for each caller below 64 the list of its placed calls.
#[derive(Drop)]
pub struct Certificate {
    log: Vec<Change>,
    lists: Vec<Vec<Placed>>,
}

impl Model for Certificate {
    ghost use Rattle.std.specs.Prelude.{◌≡◌, map, length};
    ghost use Rattle.pp_certificate.specs.Certificates.{CertificateView};

    ghost Value = { CertificateView };

    ghost view = { λ c. record { log = c.log.items; lists = map (λ v. v.items) c.lists.items } };

    ghost invariant = { λ c. length c.lists.items ≡ 64 };
}

impl Certificate {
    /// A certificate with an empty log and empty lists.
    pub(crate) fn empty(alloc: Global) -> Result<Certificate, AllocError>
        ensures { IfOk result (λ c. (c.log ≡ []) × (c.lists ≡ empty_lists)) }
    {
        let mut lists = Vec::with_capacity(alloc, CALLERS)?;
        for _ in 0..CALLERS {
            lists.push(Vec::new(alloc))?;
        }
        Ok(Certificate {
            log: Vec::new(alloc),
            lists,
        })
    }

    /// Adds a change at the end of the log.
    pub(crate) fn push_change(&mut self, change: Change) -> Result<(), AllocError>
        ensures { OnOk result (self.new ≡ with_change self.old change) }
    {
        self.log.push(change)?;
        Ok(())
    }

    /// Adds a placed call at the end of one caller's list.
    pub(crate) fn push_placed(&mut self, caller: u32, placed: Placed) -> Result<(), AllocError>
        requires { caller < 64 }
        ensures { OnOk result (self.new ≡ with_placed self.old caller placed) }
    {
        self.lists[caller as usize].push(placed)?;
        Ok(())
    }

    /// The changes, in order.
    pub fn log(&self) -> &[Change]
        ensures { result.now ≡ self.now.log }
    {
        &self.log
    }

    /// The placed calls of one caller, in their order. The caller is below 64.
    pub fn list(&self, caller: u32) -> &[Placed]
        requires { caller < 64 }
        ensures { slice_get self.now.lists caller ≡ Some result.now }
    {
        &self.lists[caller as usize]
    }
}
