//! A run: the calls of all callers on a map, each caller in a thread, and its closing. The layers above use `run_on`, over any map, and
//! read what came of it from `Ran`; over other structures they make their callers' jobs by `jobs_of`.
#![tactic(auto)]

ghost use Rattle.std.specs.Prelude.{◌≡◌, ◌≤◌, map, length, IfOk};
ghost use Rattle.pp_model.specs.Lists.{AtEach};
ghost use Rattle.pp_model.specs.History.{contents_of};
ghost use Rattle.pp_trace.specs.TraceLists.{KeysFit};
ghost use Rattle.pp_running.specs.Run.{IsRunOf, IsOpened};
ghost use Rattle.pp_running.specs.Jobs.{HaveRoom, views_of};

pub mod jobs;

use jobs::{jobs_of, parts_of};
use pp_callers::run;
use pp_model::{Answer, Call, Closed, MapCalls, NoMemory};
use pp_outside::Gate;
use std::alloc::Global;
use std::thread::Threads;

/// What a run gave: the callers' answers, and the closed map.
#[derive(Drop)]
pub struct Ran<W> {
    pub answers: Vec<Vec<Answer>>,
    pub closed: Closed<W>,
}

/// Makes the calls of these lists on a map with these passes, one a list, and closes it.
///
/// # Errors
///
/// There was no memory for the answers or for closing.
pub fn run_on<R: Threads + Sync, M: MapCalls + Sync + Drop, G: Gate + Sync>(
    rt: &R,
    alloc: Global,
    chosen: M,
    passes: Vec<M::Pass>,
    lists: Vec<Vec<Call>>,
    races: u64,
    gate: &G,
) -> Result<Ran<M::Witness>, NoMemory>
where
    M::Pass: Send + Drop,
    M::Witness: Drop,
    requires passes { AtEach passes.items (λ c pass. M.Belongs chosen pass × M.Idle pass × IsOpened c (M.pass_view pass)) }
    requires all { length passes.items ≡ (M.sizes chosen).passes }
    requires lists { length lists.items ≡ length passes.items }
    requires keys { KeysFit (map (λ v. v.items) lists.items) }
    requires room { HaveRoom (views_of M.pass_view passes.items) (map (λ v. v.items) lists.items) }
    requires races { 1 ≤ races }
    ensures ran { IfOk result (λ ran. IsRunOf M.meaning (M.sizes chosen) races (views_of M.pass_view passes.items)
        (map (λ v. v.items) lists.items) (map (λ v. v.items) ran.answers.items) (M.run_view ran.closed.witness)) }
    ensures contents { IfOk result (λ ran. ran.closed.contents.items ≡ contents_of (M.run_view ran.closed.witness).log) }
    ensures few { IfOk result (λ ran. M.meaning.live (length ran.closed.contents.items) ≤ (M.sizes chosen).records) }
{
    let mut jobs = jobs_of(alloc, passes, lists)?;
    run(rt, &chosen, jobs.as_mut_slice(), races, gate);
    let (passes, answers) = parts_of(alloc, jobs)?;
    match chosen.close(alloc, passes) {
        Ok(closed) => Ok(Ran { answers, closed }),
        Err(_) => Err(NoMemory),
    }
}
