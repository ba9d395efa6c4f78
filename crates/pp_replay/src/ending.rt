//! How a replay ends.

ghost use Rattle.std.specs.Prelude.{◌≡◌, List, map};
ghost use Rattle.pp_devices.specs.Ways.{status_of};
ghost use Rattle.pp_replay.specs.View.{kept_run, plain_kept_run, pool_kept_run, shown_run};

use crate::attempt::Attempt;
use pp_edges::TreeShape;
use pp_model::{Answer, Closed, PlainKept};
use pp_pool::closing::Witness;
use pp_walk::ListShape;
use std::marker::Model;

/// The closed map of a run, of whichever kind.
#[derive(Drop)]
pub enum Kept {
    /// No run was closed.
    Nothing,
    /// A plain map's.
    Plain(Closed<PlainKept>),
    /// A list's or a hash table's: the run of its pool.
    Table(Closed<Witness<ListShape>>),
    /// A tree's: the run of its pool.
    Tree(Closed<Witness<TreeShape>>),
}

/// The closed plain map of a run, where there was one.
pub fn kept_plain(closed: Option<Closed<PlainKept>>) -> Kept
    ensures { kept_run result ≡ shown_run plain_kept_run closed }
{
    match closed {
        Some(closed) => Kept::Plain(closed),
        None => Kept::Nothing,
    }
}

/// The closed list or hash table of a run, where there was one.
pub fn kept_table(closed: Option<Closed<Witness<ListShape>>>) -> Kept
    ensures { kept_run result ≡ shown_run pool_kept_run closed }
{
    match closed {
        Some(closed) => Kept::Table(closed),
        None => Kept::Nothing,
    }
}

/// The closed tree of a run, where there was one.
pub fn kept_tree(closed: Option<Closed<Witness<TreeShape>>>) -> Kept
    ensures { kept_run result ≡ shown_run pool_kept_run closed }
{
    match closed {
        Some(closed) => Kept::Tree(closed),
        None => Kept::Nothing,
    }
}

/// The ending of a replay. Contracts see its status, the callers' answers, and the run of the map that was closed.
#[derive(Drop)]
pub struct Ending {
    /// 0 to 7, by the way in which the replay ended.
    pub status: u8,
    kept: Kept,
    answers: Vec<Vec<Answer>>,
}

impl Model for Ending {
    ghost use Rattle.pp_replay.specs.Replay.{EndingView};

    ghost Value = { EndingView };

    ghost use Rattle.pp_replay.specs.View.{ending_view};

    ghost view = { ending_view };
}

impl Ending {
    ghost use Rattle.pp_replay.specs.View.{kept_run};

    /// The ending of a replay that came to this.
    pub(crate) fn of(attempt: Attempt) -> Ending
        ensures status { result.status ≡ status_of attempt.way }
        ensures answers { result.answers ≡ map (λ v. v.items) attempt.answers.items }
        ensures run { result.run ≡ kept_run attempt.kept }
    {
        Ending {
            status: attempt.way.status(),
            kept: attempt.kept,
            answers: attempt.answers,
        }
    }
}
