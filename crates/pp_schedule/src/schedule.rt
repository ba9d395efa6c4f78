//! Callers on one thread, by a plan of turns.

ghost use Rattle.std.specs.Prelude.{◌≡◌, ℕ, ◌+◌, ◌-◌, ◌^◌, ◌<◌, ◌≤◌, true, false, Some, None, IsSome, IsSomeAnd, IfSome};
ghost use Rattle.std.specs.Prelude.{IfNone, length, drop, slice_get, List, [], ◌∷◌};
ghost use Rattle.pp_model.specs.Lists.{AtEach};
ghost use Rattle.pp_schedule.specs.Calls.{capped};
ghost use Rattle.pp_schedule.specs.Plays.{Moment, Plays};
ghost use Rattle.pp_schedule.specs.Seats.{AllSeen, AllMayGoOn, HasNone, Chooses, calls_of};
ghost use Rattle.futures.specs.Task.{Covers, Keeps};

use crate::caller::Caller;
use futures::Future;
use futures::task::{Context, Poll};
use pp_model::MapCalls;

/// Callers with their calls, who make their turns by a plan: its callers in order, where one without calls left is passed
/// over, and then by rising callers, each until its calls are answered. Each poll makes one turn. The changes that take effect are
/// counted, and the calls are marked by how many there were.
pub struct Schedule<'a, M: MapCalls>
where
    M::Pass: Drop,
    M::Going: Drop,
    M::Note: Drop,
{
    map: &'a M,
    races: u64,
    plan: Vec<u32>,
    at: usize,
    callers: Option<Vec<Caller<'a, M>>>,
    note: Option<M::Note>,
    changes: u64,
}

impl<'a, M: MapCalls> Drop for Schedule<'a, M>
where
    M::Pass: Drop,
    M::Going: Drop,
    M::Note: Drop,
{
    fn drop(self) {
        let Schedule {
            map: _,
            races: _,
            plan: _,
            at: _,
            callers: _,
            note: _,
            changes: _,
        } = self;
    }
}

impl<'a, M: MapCalls> Schedule<'a, M>
where
    M::Pass: Drop,
    M::Going: Drop,
    M::Note: Drop,
{
    /// A schedule of these callers by this plan, with a note that each of them may learn.
    pub fn new(
        map: &'a M,
        races: u64,
        plan: Vec<u32>,
        callers: Vec<Caller<'a, M>>,
        note: M::Note,
    ) -> Schedule<'a, M>
        ensures map { result.map.now ≡ map.now }
        ensures parts { (result.races ≡ races) × (result.plan ≡ plan) × (result.at ≡ 0) × (result.callers ≡ Some callers.entry)
            × (result.note ≡ Some note) × (result.changes ≡ 0) }
    {
        Schedule {
            map,
            races,
            plan,
            at: 0,
            callers: Some(callers),
            note: Some(note),
            changes: 0,
        }
    }
}

// The next caller of the plan that has calls left; past the plan's end the least one.
fn choose<'a, M: MapCalls>(plan: &[u32], at: &mut usize, callers: &[Caller<'a, M>]) -> Option<usize>
where
    M::Pass: Drop,
    M::Going: Drop,
    requires known { AtEach plan.now (λ k c. c < length callers.now) }
    ensures chosen { Chooses (HasNone callers.now) (length callers.now) (drop at.old plan.now) result (drop at.new plan.now) }
{
    while *at < plan.len() {
        let caller = plan[*at] as usize;
        *at += 1;
        if callers[caller].has_more() {
            return Some(caller);
        }
    }
    for caller in 0..callers.len() {
        if callers[caller].has_more() {
            return Some(caller);
        }
    }
    None
}

/// Makes the next turn by the plan. False: no caller has a call going or left.
fn one_turn<'a, M: MapCalls>(
    map: &'a M,
    races: u64,
    plan: &[u32],
    at: &mut usize,
    callers: &mut Vec<Caller<'a, M>>,
    note: M::Note,
    changes: &mut u64,
    cx: &mut Context<'_>,
) -> (M::Note, bool)
where
    M::Pass: Drop,
    M::Going: Drop,
    requires known { AtEach plan.now (λ k c. c < length callers.old.items) }
    requires races { 1 ≤ races }
    requires seen { (s : Moment)
        × AllSeen (M.Belongs map.now) M.Idle (M.UnderWay map.now) (M.Learnable map.now) M.pass_view
        M.going_view map.now callers.old.items s.callers
        × AllMayGoOn (M.Belongs map.now) M.Idle (M.UnderWay map.now) (M.Learnable map.now) M.pass_view
        M.going_view map.now note callers.old.items s.callers }
    ensures kept { Keeps cx.old cx.new }
    ensures as_many { length callers.new.items ≡ length callers.old.items }
    ensures calls { calls_of callers.new.items ≡ calls_of callers.old.items }
    ensures on { result.1 ≡ true → (s : Moment)
        → AllSeen (M.Belongs map.now) M.Idle (M.UnderWay map.now) (M.Learnable map.now) M.pass_view
        M.going_view map.now callers.old.items s.callers
        → AllMayGoOn (M.Belongs map.now) M.Idle (M.UnderWay map.now) (M.Learnable map.now) M.pass_view
        M.going_view map.now note callers.old.items s.callers
        → M.note_view note ≡ s.told → changes.old ≡ capped s.count
        → ((t : Moment)
        × AllSeen (M.Belongs map.now) M.Idle (M.UnderWay map.now) (M.Learnable map.now) M.pass_view
        M.going_view map.now callers.new.items t.callers
        × AllMayGoOn (M.Belongs map.now) M.Idle (M.UnderWay map.now) (M.Learnable map.now) M.pass_view
        M.going_view map.now result.0 callers.new.items t.callers
        × (M.note_view result.0 ≡ t.told) × (changes.new ≡ capped t.count)
        × ((c : ℕ) × ((turns : List ℕ) → (u : Moment) → Plays M.meaning (M.sizes map.now) races (drop at.new plan.now) t turns u
        → Plays M.meaning (M.sizes map.now) races (drop at.old plan.now) s (c ∷ turns) u))) }
    ensures over { result.1 ≡ false → (callers.new.items ≡ callers.old.items) × ((s : Moment)
        → AllSeen (M.Belongs map.now) M.Idle (M.UnderWay map.now) (M.Learnable map.now) M.pass_view
        M.going_view map.now callers.old.items s.callers
        → Plays M.meaning (M.sizes map.now) races (drop at.old plan.now) s [] s) }
{
    let Some(chosen) = choose(plan, at, callers.as_slice()) else {
        return (note, false);
    };
    let (note, count) = callers[chosen].turn(map, races, note, *changes, cx);
    *changes = count;
    (note, true)
}

impl<'a, M: MapCalls> Future for Schedule<'a, M>
where
    M::Pass: Drop,
    M::Going: Drop,
    M::Note: Drop,
{
    type Output = Vec<Caller<'a, M>>;

    ghost can_poll = { λ f. (1 ≤ f.races) × IsSomeAnd f.callers (λ cs. AtEach f.plan.items (λ k c. c < length cs.items)
        × IsSomeAnd f.note (λ n. (s : Moment)
        × AllSeen (M.Belongs f.map.now) M.Idle (M.UnderWay f.map.now) (M.Learnable f.map.now) M.pass_view
        M.going_view f.map.now cs.items s.callers
        × AllMayGoOn (M.Belongs f.map.now) M.Idle (M.UnderWay f.map.now)
        (M.Learnable f.map.now) M.pass_view M.going_view f.map.now n cs.items s.callers
        × (M.note_view n ≡ s.told) × (f.changes ≡ capped s.count))) };

    ghost gives = { λ f out. IsSomeAnd f.callers (λ cs. IsSomeAnd f.note (λ n. (s : Moment)
        → AllSeen (M.Belongs f.map.now) M.Idle (M.UnderWay f.map.now) (M.Learnable f.map.now) M.pass_view
        M.going_view f.map.now cs.items s.callers
        → AllMayGoOn (M.Belongs f.map.now) M.Idle (M.UnderWay f.map.now)
        (M.Learnable f.map.now) M.pass_view M.going_view f.map.now n cs.items s.callers
        → M.note_view n ≡ s.told → f.changes ≡ capped s.count
        → ((turns : List ℕ) × (u : Moment)
        × Plays M.meaning (M.sizes f.map.now) f.races (drop f.at f.plan.items) s turns u
        × AllSeen (M.Belongs f.map.now) M.Idle (M.UnderWay f.map.now) (M.Learnable f.map.now) M.pass_view
        M.going_view f.map.now out.items u.callers × (calls_of out.items ≡ calls_of cs.items)))) };

    fn poll(&mut self, cx: &mut Context<'_>) -> Poll<Vec<Caller<'a, M>>> {
        let Some(callers) = &mut self.callers else {
            unreachable!()
        };
        let Some(note) = self.note.take() else {
            unreachable!()
        };
        let (note, more) = one_turn(
            self.map,
            self.races,
            self.plan.as_slice(),
            &mut self.at,
            callers,
            note,
            &mut self.changes,
            cx,
        );
        self.note = Some(note);
        if more {
            cx.yield_now()
        } else {
            Poll::Ready(self.callers.take().unwrap())
        }
    }
}
