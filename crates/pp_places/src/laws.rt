//! A law on runs and certificates, as a function that does nothing and whose contract is the law.

ghost use Rattle.pp_places.specs.Certified.{RunsAreCertified};

/// The certificate of a run by a plan is right: the checker's verdict on its text is yes. It asks that the run's numbers, keys and values
/// are in a certificate's ranges.
pub fn runs_are_certified()
    ensures { RunsAreCertified }
{}
