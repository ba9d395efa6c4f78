//! How a queue's replay ends.

ghost use Rattle.std.specs.Prelude.{◌≡◌, map};
ghost use Rattle.pp_devices.specs.Ways.{status_of};

use crate::attempt::Attempt;
use pp_queue::QueueClosed;
use pp_queues::calls::QueueAnswer;
use std::marker::Model;

/// The ending of a replay. Contracts see its status, the callers' answers, and the run of the queue that was closed.
#[derive(Drop)]
pub struct QueueEnding {
    /// 0 to 7, by the way in which the replay ended.
    pub status: u8,
    kept: Option<QueueClosed>,
    answers: Vec<Vec<QueueAnswer>>,
}

impl Model for QueueEnding {
    ghost use Rattle.pp_queue_replay.specs.Replay.{EndingView};

    ghost Value = { EndingView };

    ghost use Rattle.pp_queue_replay.specs.View.{ending_view};

    ghost view = { ending_view };
}

impl QueueEnding {
    ghost use Rattle.pp_queue_replay.specs.View.{kept_run};

    /// The ending of a replay that came to this.
    pub(crate) fn of(attempt: Attempt) -> QueueEnding
        ensures status { result.status ≡ status_of attempt.way }
        ensures answers { result.answers ≡ map (λ v. v.items) attempt.answers.items }
        ensures run { result.run ≡ kept_run attempt.kept }
    {
        QueueEnding {
            status: attempt.way.status(),
            kept: attempt.kept,
            answers: attempt.answers,
        }
    }
}
