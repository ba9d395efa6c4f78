//! A law on certificates, as a function that does nothing and whose contract is the law.

ghost use Rattle.pp_certificate.specs.Printed.{TextsAreCertificates};

/// The text of a log and of callers' lists is their certificate: it has no bad line, and its log and lists are these. Callers without
/// a list have an empty one. It asks that callers, numbers, places, keys and values are in a certificate's ranges.
pub fn texts_are_certificates()
    ensures { TextsAreCertificates }
{}
