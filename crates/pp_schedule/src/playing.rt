//! A run by a plan, by whatever runs futures.

ghost use Rattle.std.specs.Prelude.{◌≡◌, ℕ, ◌+◌, ◌-◌, ◌^◌, ◌<◌, ◌≤◌, true, false, Some, None, length, List, IfOk, IsSomeAnd};
ghost use Rattle.std.specs.Prelude.{vec_capacity, [], ◌∷◌};
ghost use Rattle.pp_outside.specs.Outside.{HasCause};
ghost use Rattle.pp_model.specs.Lists.{AtEach};
ghost use Rattle.pp_model.specs.Calls.{key_of};
ghost use Rattle.pp_schedule.specs.Opened.{opened_alone};
ghost use Rattle.pp_schedule.specs.Plays.{Moment, Plays, Answered};
ghost use Rattle.pp_schedule.specs.Seats.{AllSeen, AllMayGoOn, calls_of};

use crate::caller::{Caller, Marked};
use crate::runner::Runner;
use crate::schedule::Schedule;
use pp_model::lists::enter;
use pp_model::{Call, MapCalls};
use pp_outside::Failed;
use std::alloc::{AllocGlobal, Global};
use std::random::RandomSource;
use std::sync::Wait;

/// The callers make their calls by the plan, on this thread, where the runner gives what their schedule gives.
///
/// # Errors
///
/// `Failed` comes only where the runner's count of faults rose.
pub fn play<'a, R: Wait + RandomSource + AllocGlobal, X: Runner, M: MapCalls>(
    rt: &R,
    alloc: Global,
    runner: &mut X,
    map: &'a M,
    races: u64,
    plan: Vec<u32>,
    callers: Vec<Caller<'a, M>>,
    note: M::Note,
) -> Result<Vec<Caller<'a, M>>, Failed>
where
    M::Pass: Drop,
    M::Going: Drop,
    M::Note: Drop,
    requires races { 1 ≤ races }
    requires plan { AtEach plan.items (λ k c. c < length callers.items) }
    requires seen { (s : Moment)
        × AllSeen (M.Belongs map.now) M.Idle (M.UnderWay map.now) (M.Learnable map.now) M.pass_view
        M.going_view map.now callers.items s.callers
        × AllMayGoOn (M.Belongs map.now) M.Idle (M.UnderWay map.now) (M.Learnable map.now) M.pass_view
        M.going_view map.now note callers.items s.callers
        × (M.note_view note ≡ s.told) × (s.count ≡ 0) }
    ensures played { IfOk result (λ out. (s : Moment)
        → AllSeen (M.Belongs map.now) M.Idle (M.UnderWay map.now) (M.Learnable map.now) M.pass_view
        M.going_view map.now callers.entry.items s.callers
        → AllMayGoOn (M.Belongs map.now) M.Idle (M.UnderWay map.now) (M.Learnable map.now) M.pass_view
        M.going_view map.now note callers.entry.items s.callers
        → M.note_view note ≡ s.told → s.count ≡ 0
        → ((turns : List ℕ) × (u : Moment) × Plays M.meaning (M.sizes map.now) races plan.items s turns u
        × AllSeen (M.Belongs map.now) M.Idle (M.UnderWay map.now) (M.Learnable map.now) M.pass_view
        M.going_view map.now out.items u.callers × (calls_of out.items ≡ calls_of callers.entry.items))) }
    ensures cause { HasCause (X.faults runner.old) (X.faults runner.new) result }
{
    let schedule = Schedule::new(map, races, plan, callers, note);
    runner.run(rt, alloc, schedule)
}

/// One caller's calls by a plan, on a map that it has alone.
pub fn play_alone<'a, R: Wait + RandomSource + AllocGlobal, X: Runner, M: MapCalls>(
    rt: &R,
    alloc: Global,
    runner: &mut X,
    map: &'a M,
    pass: M::Pass,
    calls: Vec<Call>,
    answers: Vec<Marked>,
    plan: Vec<u32>,
    races: u64,
    empty: Vec<Caller<'a, M>>,
) -> Result<Vec<Caller<'a, M>>, Failed>
where
    M::Pass: Drop,
    M::Going: Drop,
    M::Note: Drop,
    requires belongs { M.Belongs map.now pass }
    requires idle { M.Idle pass }
    requires caller { (M.pass_view pass).caller ≡ 0 }
    requires races { 1 ≤ races }
    requires keys { AtEach calls.items (λ k call. key_of call ≤ 2 ^ 64 - 4) }
    requires room { length calls.items ≤ (M.pass_view pass).room }
    requires none { answers.items ≡ [] }
    requires space { length calls.items ≤ vec_capacity answers }
    requires plan { AtEach plan.items (λ k c. c ≡ 0) }
    requires empty { (empty.items ≡ []) × (1 ≤ vec_capacity empty) }
    ensures played { IfOk result (λ out. (turns : List ℕ) × (u : Moment)
        × Plays M.meaning (M.sizes map.now) races plan.items (opened_alone (M.pass_view pass) calls.items) turns u
        × AllSeen (M.Belongs map.now) M.Idle (M.UnderWay map.now) (M.Learnable map.now) M.pass_view
        M.going_view map.now out.items u.callers) }
{
    let mut pass = pass;
    let note = map.note(&mut pass);
    let caller = Caller::new(pass, calls, answers);
    let mut callers = empty;
    enter(&mut callers, caller);
    play(rt, alloc, runner, map, races, plan, callers, note)
}
