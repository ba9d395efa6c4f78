//! How a tally ends.

ghost use Rattle.std.specs.Prelude.{◌≡◌, map};
ghost use Rattle.pp_devices.specs.Ways.{status_of};

use crate::attempt::Attempt;
use pp_claims::claiming::Counts;
use pp_model::Answer;
use pp_replay::Kept;
use std::marker::Model;

/// The ending of a tally. Contracts see its status, the answers to the callers' claims, each caller's counts and those of the pieces
/// left over, and the run of the map that was closed.
#[derive(Drop)]
pub struct Tallied {
    /// 0, 1, 3, 4, 5 or 7, by the way in which the tally ended.
    pub status: u8,
    kept: Kept,
    answers: Vec<Vec<Answer>>,
    counted: Counts,
}

impl Model for Tallied {
    ghost use Rattle.pp_tally.specs.Tally.{TalliedView};

    ghost Value = { TalliedView };

    ghost use Rattle.pp_tally.specs.View.{tallied_view};

    ghost view = { tallied_view };
}

impl Tallied {
    ghost use Rattle.pp_replay.specs.View.{kept_run};
    ghost use Rattle.pp_tally.specs.Tally.{tally_view};

    /// The ending of a tally that came to this.
    pub(crate) fn of(attempt: Attempt) -> Tallied
        ensures status { result.status ≡ status_of attempt.way }
        ensures tally { result.tally ≡ tally_view (map (λ v. v.items) attempt.answers.items)
            (map (λ v. v.items) attempt.counted.counts.items) attempt.counted.rest.items (kept_run attempt.kept) }
    {
        Tallied {
            status: attempt.way.status(),
            kept: attempt.kept,
            answers: attempt.answers,
            counted: attempt.counted,
        }
    }
}
