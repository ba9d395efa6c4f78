//! A law on printed certificates, as a function that does nothing and whose contract is the law.

ghost use Rattle.pp_poll.specs.Right.{CertificatesAreRight};

/// A certificate that a replay by a plan prints is right: the checker's verdict on its text is yes. So `pp_check::check` answers yes to
/// it, where it is no longer than the checker takes.
pub fn certificates_are_right()
    ensures { CertificatesAreRight }
{}
