//! How a replay by a plan ends.

ghost use Rattle.std.specs.Prelude.{◌≡◌, map};
ghost use Rattle.pp_poll.specs.PolledWays.{status_of};

use crate::attempt::Attempt;
use pp_model::Answer;
use pp_replay::Kept;
use std::marker::Model;

/// The ending of a replay by a plan. Contracts see its status, the callers' answers, and the run of the map that was closed.
#[derive(Drop)]
pub struct PolledEnding {
    /// 0 to 7, 9 or 13, by the way in which the replay ended.
    pub status: u8,
    kept: Kept,
    answers: Vec<Vec<Answer>>,
}

impl Model for PolledEnding {
    ghost use Rattle.pp_replay.specs.Replay.{EndingView};

    ghost Value = { EndingView };

    ghost use Rattle.pp_poll.specs.View.{ending_view};

    ghost view = { ending_view };
}

impl PolledEnding {
    ghost use Rattle.pp_replay.specs.View.{kept_run};

    /// The ending of a replay that came to this.
    pub(crate) fn of(attempt: Attempt) -> PolledEnding
        ensures status { result.status ≡ status_of attempt.way }
        ensures answers { result.answers ≡ map (λ v. v.items) attempt.answers.items }
        ensures run { result.run ≡ kept_run attempt.kept }
    {
        PolledEnding {
            status: attempt.way.status(),
            kept: attempt.kept,
            answers: attempt.answers,
        }
    }
}
