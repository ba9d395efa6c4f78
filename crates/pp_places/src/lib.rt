//! The history of a run by a plan, found from its calls, their answers and their marks: its log, and where each call has its place. The
//! layers above use `history_of`, and `certificate_of` for its text.
#![tactic(auto)]

ghost use Rattle.std.specs.Prelude.{◌≡◌, ◌≤◌, map, length, IfOk};
ghost use Rattle.pp_model.specs.Pass.{RunView};
ghost use Rattle.pp_places.specs.Places.{IsPlaced};

pub mod laws;
mod log;
mod placing;
mod text;
mod writing;

use log::log_of;
use placing::lists_of;
use pp_check::index::index_of;
use pp_model::{Answer, Call, Change, NoMemory, Placed};
use std::alloc::Global;
pub use writing::certificate_of;

/// A log of changes, and for each caller the list of its placed calls.
#[derive(Drop)]
pub struct History {
    pub log: Vec<Change>,
    pub lists: Vec<Vec<Placed>>,
}

/// The log and the callers' lists of a run by a plan, from the callers' calls, their answers and their marks. A call that changed
/// nothing has the least place from its mark on at which its reply is right: it is looked for from the mark on, along the changes
/// that came while the call was going.
///
/// # Errors
///
/// There was no memory.
pub fn history_of(
    alloc: Global,
    lists: &[Vec<Call>],
    answers: &[Vec<Answer>],
    marks: &[Vec<u64>],
) -> Result<History, NoMemory>
    requires callers { length lists.now ≤ 64 }
    requires run { (run : RunView) × IsPlaced (map (λ v. v.items) lists.now) (map (λ v. v.items) answers.now)
        (map (λ v. v.items) marks.now) run }
    ensures { (run : RunView) → IsPlaced (map (λ v. v.items) lists.now) (map (λ v. v.items) answers.now) (map (λ v. v.items) marks.now) run
        → IfOk result (λ h. (h.log.items ≡ run.log) × (map (λ v. v.items) h.lists.items ≡ map (λ r. r.mine) run.callers)) }
{
    let log = log_of(alloc, lists, answers, marks)?;
    let index = index_of(alloc, &log)?;
    let lists = lists_of(alloc, &log, &index, lists, answers, marks)?;
    Ok(History { log, lists })
}
