//! Laws on histories, as functions that do nothing and whose contract is the law.

ghost use Rattle.std.specs.Prelude.{List};
ghost use Rattle.pp_model.specs.declared.Change.{Change};
ghost use Rattle.pp_model.specs.Linearization.{CallerList, IsRecordedRun, IsHistory};

/// The linearization of a recorded run is legal: if the log is sound, each change's caller has a list, and each list stands
/// in the log, then it has each call of the lists once and no other, each caller's calls in the order of its list, and
/// running them from the empty map gives their replies.
///
/// A history is legal with respect to the sequential map in the sense of Herlihy and Wing, "Linearizability: a correctness
/// condition for concurrent objects", 1990.
pub fn linearization_is_legal()
    ensures { (log : List Change) → (lists : List CallerList) → IsRecordedRun log lists → IsHistory log lists }
{}
