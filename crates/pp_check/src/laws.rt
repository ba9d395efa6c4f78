//! Laws on verdicts, as functions that do nothing and whose contract is the law.

ghost use Rattle.pp_check.specs.Verdicts.{VerdictsAreOne, EachHasVerdict};

/// No text has two verdicts: the conditions of the answers exclude each other, and each answer is the only one of its kind.
pub fn verdicts_are_one()
    ensures { VerdictsAreOne }
{}

/// Each text has a verdict: the conditions of the answers cover every text.
pub fn each_text_has_a_verdict()
    ensures { EachHasVerdict }
{}
