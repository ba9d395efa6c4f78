//! A run of callers' calls by a plan of turns, on one thread, from a map's start to its closing. The layers above use `run_by_plan`, and
//! read what came of it from `Planned`.
#![tactic(auto)]

ghost use Rattle.std.specs.Prelude.{◌≡◌, ◌≤◌, ◌<◌, ◌⊎◌, ℕ, List, map, length, IfOk, IfErr};
ghost use Rattle.pp_model.specs.Lists.{AtEach};
ghost use Rattle.pp_model.specs.History.{contents_of};
ghost use Rattle.pp_trace.specs.TraceLists.{KeysFit};
ghost use Rattle.pp_running.specs.Run.{IsRunOf, IsOpened};
ghost use Rattle.pp_running.specs.Jobs.{HaveRoom, views_of};
ghost use Rattle.pp_schedule.specs.Plays.{Moment, Plays};
ghost use Rattle.pp_schedule.specs.Seats.{AllSeen, calls_of};
ghost use Rattle.pp_planned.specs.Planned.{IsPlanned, IsMarked, IsRunnersFault, opened_at};

mod callers;

use callers::{Parts, callers_of, first_note, parts_of};
use pp_model::{Call, MapCalls};
use pp_running::Ran;
use pp_schedule::Runner;
use pp_schedule::caller::Caller;
use pp_schedule::playing::play;
use std::alloc::{AllocGlobal, Global};
use std::random::RandomSource;
use std::sync::Wait;

/// Why a run by a plan gave nothing.
#[derive(Clone, Copy, Debug, PartialEq, Eq)]
pub enum PlannedFault {
    /// The runner failed.
    Failed,
    /// There was no memory for the answers or for closing.
    NoMemory,
}

/// What a run by a plan gave: the callers' answers and the closed map, their lists of calls again, and the marks of their calls.
#[derive(Drop)]
pub struct Planned<W> {
    pub ran: Ran<W>,
    pub lists: Vec<Vec<Call>>,
    pub marks: Vec<Vec<u64>>,
}

/// Makes the calls of these lists on a map with these passes, one a list, turn by turn in the order that the plan gives, and
/// closes the map. The calls are marked by how many changes had taken effect: from the marks follows where in the run's log each
/// answered call has its place.
///
/// # Errors
///
/// - `Failed`: the runner's count of faults rose.
/// - `NoMemory`: there was no memory for the answers or for closing.
pub fn run_by_plan<R: Wait + RandomSource + AllocGlobal, X: Runner, M: MapCalls + Drop>(
    rt: &R,
    alloc: Global,
    runner: &mut X,
    chosen: M,
    passes: Vec<M::Pass>,
    lists: Vec<Vec<Call>>,
    races: u64,
    plan: Vec<u32>,
) -> Result<Planned<M::Witness>, PlannedFault>
where
    M::Pass: Drop,
    M::Going: Drop,
    M::Note: Drop,
    M::Witness: Drop,
    requires passes { AtEach passes.items (λ c pass. M.Belongs chosen pass × M.Idle pass × IsOpened c (M.pass_view pass)) }
    requires all { length passes.items ≡ (M.sizes chosen).passes }
    requires some { 1 ≤ length passes.items }
    requires lists { length lists.items ≡ length passes.items }
    requires keys { KeysFit (map (λ v. v.items) lists.items) }
    requires room { HaveRoom (views_of M.pass_view passes.items) (map (λ v. v.items) lists.items) }
    requires races { 1 ≤ races }
    requires plan { AtEach plan.items (λ k c. c < length passes.items) }
    ensures ran { IfOk result (λ planned. IsRunOf M.meaning (M.sizes chosen) races (views_of M.pass_view passes.items)
        (map (λ v. v.items) lists.items) (map (λ v. v.items) planned.ran.answers.items) (M.run_view planned.ran.closed.witness)) }
    ensures planned { IfOk result (λ planned. IsPlanned M.meaning (M.sizes chosen) races plan.items (views_of M.pass_view passes.items)
        (map (λ v. v.items) lists.items) (M.run_view planned.ran.closed.witness)) }
    ensures lists { IfOk result (λ planned. planned.lists.items ≡ lists.items) }
    ensures marked { (1 ≤ M.meaning.turn_steps) ⊎ (length lists.items ≡ 1) → IfOk result (λ planned.
        IsMarked (map (λ v. v.items) lists.items)
        (map (λ v. v.items) planned.ran.answers.items) (map (λ v. v.items) planned.marks.items) (M.run_view planned.ran.closed.witness)) }
    ensures contents { IfOk result (λ planned.
        planned.ran.closed.contents.items ≡ contents_of (M.run_view planned.ran.closed.witness).log) }
    ensures few { IfOk result (λ planned. M.meaning.live (length planned.ran.closed.contents.items) ≤ (M.sizes chosen).records) }
    ensures cause { IfErr result (IsRunnersFault (X.faults runner.old) (X.faults runner.new)) }
    ensures kept { IfOk result (λ _. X.faults runner.new ≡ X.faults runner.old) }
{
    let callers = play_from(rt, alloc, runner, &chosen, passes, lists, races, plan)?;
    let Ok(parts) = parts_of(alloc, callers) else {
        return Err(PlannedFault::NoMemory);
    };
    let Parts {
        passes,
        lists,
        answers,
        marks,
    } = parts;
    match chosen.close(alloc, passes) {
        Ok(closed) => Ok(Planned {
            ran: Ran { answers, closed },
            lists,
            marks,
        }),
        Err(_) => Err(PlannedFault::NoMemory),
    }
}

// Callers of these passes and lists, once they have made all their turns by the plan.
fn play_from<'a, R: Wait + RandomSource + AllocGlobal, X: Runner, M: MapCalls>(
    rt: &R,
    alloc: Global,
    runner: &mut X,
    chosen: &'a M,
    passes: Vec<M::Pass>,
    lists: Vec<Vec<Call>>,
    races: u64,
    plan: Vec<u32>,
) -> Result<Vec<Caller<'a, M>>, PlannedFault>
where
    M::Pass: Drop,
    M::Going: Drop,
    M::Note: Drop,
    requires passes { AtEach passes.items (λ c pass. M.Belongs chosen.now pass × M.Idle pass × IsOpened c (M.pass_view pass)) }
    requires some { 1 ≤ length passes.items }
    requires lists { length lists.items ≡ length passes.items }
    requires keys { KeysFit (map (λ v. v.items) lists.items) }
    requires room { HaveRoom (views_of M.pass_view passes.items) (map (λ v. v.items) lists.items) }
    requires races { 1 ≤ races }
    requires plan { AtEach plan.items (λ k c. c < length passes.items) }
    ensures played { IfOk result (λ callers. (turns : List ℕ) × (last : Moment)
        × Plays M.meaning (M.sizes chosen.now) races plan.items (opened_at (views_of M.pass_view passes.items)
        (map (λ v. v.items) lists.items)) turns last
        × AllSeen (M.Belongs chosen.now) M.Idle (M.UnderWay chosen.now) (M.Learnable chosen.now) M.pass_view M.going_view chosen.now
        callers.items last.callers) }
    ensures calls { IfOk result (λ callers. calls_of callers.items ≡ lists.items) }
    ensures cause { IfErr result (IsRunnersFault (X.faults runner.old) (X.faults runner.new)) }
    ensures kept { IfOk result (λ _. X.faults runner.new ≡ X.faults runner.old) }
{
    let mut passes = passes;
    let note = first_note(chosen, &mut passes);
    let Ok(callers) = callers_of(alloc, passes, lists) else {
        return Err(PlannedFault::NoMemory);
    };
    let Ok(callers) = play(rt, alloc, runner, chosen, races, plan, callers, note) else {
        return Err(PlannedFault::Failed);
    };
    Ok(callers)
}
