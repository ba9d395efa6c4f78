//! Certificates of a map's history: their grammar, and a reader of them. The layers above use `read_certificate`, and take the log and the
//! lists from the `Certificate`.
#![tactic(auto)]

mod certificate;
mod entries;
pub mod laws;
mod reading;
mod words;

pub use certificate::Certificate;
use pp_model::{Change, Placed};
pub use reading::{CertificateFault, read_certificate};

/// What a line of a certificate says.
#[derive(Clone, Copy, Debug, PartialEq, Eq)]
pub enum Entry {
    /// That a certificate begins.
    Opens,
    /// The next change of the log.
    Changes(Change),
    /// The next placed call of a caller.
    Says { caller: u32, placed: Placed },
    /// That the certificate is at its end.
    Ends,
}
