//! A caller of a schedule: its calls, its answers, and its pass or the call that is going.

ghost use Rattle.std.specs.Prelude.{◌≡◌, ℕ, ◌+◌, ◌-◌, ◌^◌, ◌<◌, ◌≤◌, true, false, Some, None, IsSome, IsSomeAnd, IfSome};
ghost use Rattle.std.specs.Prelude.{length, drop, vec_capacity};
ghost use Rattle.pp_model.specs.Lists.{AtEach};
ghost use Rattle.pp_model.specs.Calls.{key_of};
ghost use Rattle.futures.specs.Task.{Covers, Keeps};
ghost use Rattle.futures.specs.Poll.{IfReady, OnPending};
ghost use Rattle.pp_model.specs.Pass.{PassView, GoingView};
ghost use Rattle.pp_model.specs.MapCalls.{AnswersCall, MakesTurn, Counted, Learns, Notes};
ghost use Rattle.pp_schedule.specs.Turns.{Ends};
ghost use Rattle.pp_schedule.specs.Calls.{IsCalling, CallerAt, Shows, Has, CanLearn, CallerTurn, Marks};
ghost use Rattle.pp_schedule.specs.Calls.{capped, all_capped, count_after, mark_after, answers_of, marks_of};
ghost use Rattle.pp_schedule.specs.Seats.{IsOver};

use crate::call_future::{CallFuture, Spoken};
use futures::Future;
use futures::task::{Context, Poll};
use pp_model::lists::enter;
use pp_model::{Answer, Call, MapCalls};

/// The future's pass learns the note, and the future makes one turn of its call.
pub fn poll_after<'a, M: MapCalls>(
    future: &mut CallFuture<'a, M>,
    note: M::Note,
    cx: &mut Context<'_>,
) -> Poll<Spoken<M::Pass>>
where
    M::Pass: Drop,
    M::Going: Drop,
    requires calling { (pass : PassView) × (going : GoingView) × (before : PassView)
        × IsCalling (M.Belongs future.old.map.now) (M.UnderWay future.old.map.now) M.pass_view
        M.going_view future.old.parts pass going before }
    requires learnable { IsSomeAnd future.old.parts (λ (at, going). M.Learnable future.old.map.now at note) }
    ensures map { future.new.map ≡ future.old.map }
    ensures kept { Keeps cx.old cx.new }
    ensures woken { OnPending result (cx.new.is_woken ≡ true) }
    ensures covers { OnPending result (Covers cx.new (λ _. ⊥)) }
    ensures on { OnPending result ((pass : PassView) → (going : GoingView) → (before : PassView)
        → IsCalling (M.Belongs future.old.map.now) (M.UnderWay future.old.map.now) M.pass_view
        M.going_view future.old.parts pass going before
        → ((ready : PassView) × (now : GoingView) × (left : PassView)
        × IsCalling (M.Belongs future.old.map.now) (M.UnderWay future.old.map.now) M.pass_view
        M.going_view future.new.parts left now before
        × Learns (M.note_view note) pass ready × MakesTurn M.meaning going now ready left
        × Counted M.meaning (M.sizes future.old.map.now) now before left)) }
    ensures done { IfReady result (λ s. M.Belongs future.old.map.now s.pass × M.Idle s.pass
        × ((pass : PassView) → (going : GoingView) → (before : PassView)
        → IsCalling (M.Belongs future.old.map.now) (M.UnderWay future.old.map.now) M.pass_view
        M.going_view future.old.parts pass going before
        → ((ready : PassView) × Learns (M.note_view note) pass ready × Ends M.meaning going ready (M.pass_view s.pass) s.answer
        × AnswersCall M.meaning (M.sizes future.old.map.now) going.call going.budget before (M.pass_view s.pass) s.answer))) }
{
    future.learn(note);
    future.poll(cx)
}

/// A note of the future's pass.
pub fn note_of<'a, M: MapCalls>(future: &mut CallFuture<'a, M>) -> M::Note
where
    M::Pass: Drop,
    M::Going: Drop,
    requires { IsSomeAnd future.old.parts (λ (at, going). M.Belongs future.old.map.now at) }
    ensures map { future.new.map ≡ future.old.map }
    ensures noted { (pass : PassView) → (going : GoingView) → (before : PassView)
        → IsCalling (M.Belongs future.old.map.now) (M.UnderWay future.old.map.now) M.pass_view
        M.going_view future.old.parts pass going before
        → (IsCalling (M.Belongs future.old.map.now) (M.UnderWay future.old.map.now) M.pass_view
        M.going_view future.new.parts pass going before
        × Notes pass (M.note_view result)) }
    ensures learnable { IsSomeAnd future.new.parts (λ (at, going). M.Learnable future.old.map.now at result) }
{
    future.note()
}

/// An answer, with its call's mark: how many changes had taken effect at the end of the turn in which the call took effect, or
/// else at the end of its first turn. The mark 2^64 - 1 stands for every greater number too.
#[derive(Clone, Copy, Debug, PartialEq, Eq)]
pub struct Marked {
    pub answer: Answer,
    pub mark: u64,
}

// The number of changes after a turn, from that before it.
fn count_turn(changes: u64, was: bool, now: bool) -> u64
    ensures { (n : ℕ) → changes ≡ capped n → result ≡ capped (count_after was now n) }
{
    if now && !was {
        changes.saturating_add(1)
    } else {
        changes
    }
}

// A call's mark after a turn that left so many changes; the call was going before it or not.
fn mark_turn(old: u64, on: bool, was: bool, now: bool, changes: u64) -> u64
    ensures { (n : ℕ) → (m : ℕ) → changes ≡ capped n → old ≡ capped m → result ≡ capped (mark_after on was now n m) }
{
    if on && !(now && !was) { old } else { changes }
}

/// A caller of a schedule: its calls, the number of those that were begun, its answers with their marks, and its idle pass or the
/// call that is going, with its mark.
pub struct Caller<'a, M: MapCalls>
where
    M::Pass: Drop,
    M::Going: Drop,
{
    /// Its calls, in their order.
    pub calls: Vec<Call>,
    /// How many of them were begun.
    pub next: usize,
    pub answers: Vec<Marked>,
    /// The mark of the call that is going.
    pub mark: u64,
    /// Its pass, where no call is going.
    pub pass: Option<M::Pass>,
    /// The call that is going.
    pub call: Option<CallFuture<'a, M>>,
}

impl<'a, M: MapCalls> Drop for Caller<'a, M>
where
    M::Pass: Drop,
    M::Going: Drop,
{
    fn drop(self) {
        let Caller {
            calls: _,
            next: _,
            answers: _,
            mark: _,
            pass: _,
            call: _,
        } = self;
    }
}

impl<'a, M: MapCalls> Caller<'a, M>
where
    M::Pass: Drop,
    M::Going: Drop,
{
    /// A caller that has begun none of its calls.
    pub fn new(pass: M::Pass, calls: Vec<Call>, answers: Vec<Marked>) -> Caller<'a, M>
        ensures parts { (result.pass ≡ Some pass) × (result.call ≡ None) × (result.next ≡ 0) × (result.calls ≡ calls)
            × (result.answers ≡ answers) × (result.mark ≡ 0) }
    {
        Caller {
            calls,
            next: 0,
            answers,
            mark: 0,
            pass: Some(pass),
            call: None,
        }
    }

    /// Its pass, where no call is going, its calls, and the answers so far with their marks.
    pub fn into_parts(self) -> (Option<M::Pass>, Vec<Call>, Vec<Marked>)
        ensures { (result.0 ≡ self.entry.pass) × (result.1 ≡ self.entry.calls) × (result.2 ≡ self.entry.answers) }
    {
        let Caller {
            calls,
            next: _,
            answers,
            mark: _,
            pass,
            call: _,
        } = self;
        (pass, calls, answers)
    }

    /// The answers so far, with their marks.
    pub fn answers(&self) -> &[Marked]
        ensures { result.now ≡ self.now.answers.items }
    {
        &self.answers
    }

    /// Whether a call is going or is left.
    pub fn has_more(&self) -> bool
        ensures some { result ≡ true → IsOver self.now → ⊥ }
        ensures none { result ≡ false → IsOver self.now }
    {
        self.call.is_some() || self.next < self.calls.len()
    }

    // The call that is going, or the next one, begun.
    fn present(&mut self, map: &'a M, races: u64) -> CallFuture<'a, M>
        requires shows { (v : CallerAt) × Shows (M.Belongs map.now) M.Idle (M.UnderWay map.now) M.pass_view M.going_view
            (λ f. f.parts) v self.old.pass self.old.call }
        requires maps { IfSome self.old.call (λ f. f.map.now ≡ map.now) }
        requires more { IsSome self.old.pass → self.old.next < length self.old.calls.items }
        requires keys { AtEach self.old.calls.items (λ k call. key_of call ≤ 2 ^ 64 - 4) }
        requires races { 1 ≤ races }
        requires room { IfSome self.old.pass (λ p. 1 ≤ (M.pass_view p).room) }
        ensures taken { (self.new.pass ≡ None) × (self.new.call ≡ None) }
        ensures calls { self.new.calls ≡ self.old.calls }
        ensures answers { self.new.answers ≡ self.old.answers }
        ensures mark { self.new.mark ≡ self.old.mark }
        ensures map { result.map.now ≡ map.now }
        ensures learnable { (note : M.Note) → CanLearn (M.Learnable map.now) (λ f. f.parts) self.old.pass self.old.call note
            → (v : CallerAt) → Shows (M.Belongs map.now) M.Idle (M.UnderWay map.now) M.pass_view M.going_view
            (λ f. f.parts) v self.old.pass self.old.call → IsSomeAnd result.parts (λ (at, going). M.Learnable map.now at note) }
        ensures has { (v : CallerAt) → Shows (M.Belongs map.now) M.Idle (M.UnderWay map.now) M.pass_view M.going_view
            (λ f. f.parts) v self.old.pass self.old.call → v.calls ≡ drop self.old.next self.old.calls.items
            → ((going : GoingView) × (before : PassView)
            × IsCalling (M.Belongs map.now) (M.UnderWay map.now) M.pass_view M.going_view result.parts v.pass going before
            × Has races v going before (drop self.new.next self.new.calls.items)) }
    {
        match self.call.take() {
            Some(future) => future,
            None => {
                let pass = self.pass.take().unwrap();
                let call = self.calls[self.next];
                self.next += 1;
                CallFuture::new(map, pass, call, races)
            }
        }
    }

    /// The caller's pass learns the note and makes one turn of the present call. Gives a note of what it has seen then, and the
    /// number of changes that took effect so far, from that before the turn.
    pub fn turn(
        &mut self,
        map: &'a M,
        races: u64,
        note: M::Note,
        changes: u64,
        cx: &mut Context<'_>,
    ) -> (M::Note, u64)
        requires shows { (v : CallerAt) × Shows (M.Belongs map.now) M.Idle (M.UnderWay map.now) M.pass_view M.going_view
            (λ f. f.parts) v self.old.pass self.old.call × (v.calls ≡ drop self.old.next self.old.calls.items) }
        requires maps { IfSome self.old.call (λ f. f.map.now ≡ map.now) }
        requires more { IsSome self.old.pass → self.old.next < length self.old.calls.items }
        requires keys { AtEach self.old.calls.items (λ k call. key_of call ≤ 2 ^ 64 - 4) }
        requires races { 1 ≤ races }
        requires room { IfSome self.old.pass (λ p. 1 ≤ (M.pass_view p).room) }
        requires space { length self.old.answers.items < vec_capacity self.old.answers }
        requires learnable { CanLearn (M.Learnable map.now) (λ f. f.parts) self.old.pass self.old.call note }
        ensures kept { Keeps cx.old cx.new }
        ensures calls { self.new.calls ≡ self.old.calls }
        ensures maps { IfSome self.new.call (λ f. f.map.now ≡ map.now) }
        ensures space { vec_capacity self.old.answers ≤ vec_capacity self.new.answers }
        ensures learnable { CanLearn (M.Learnable map.now) (λ f. f.parts) self.new.pass self.new.call result.0 }
        ensures shows { (v : CallerAt) → Shows (M.Belongs map.now) M.Idle (M.UnderWay map.now) M.pass_view M.going_view
            (λ f. f.parts) v self.old.pass self.old.call
            → v.calls ≡ drop self.old.next self.old.calls.items → v.answers ≡ answers_of self.old.answers.items
            → all_capped v.marks ≡ marks_of self.old.answers.items → capped v.mark ≡ self.old.mark
            → (n : ℕ) → changes ≡ capped n
            → ((w : CallerAt)
            × Shows (M.Belongs map.now) M.Idle (M.UnderWay map.now) M.pass_view M.going_view (λ f. f.parts) w self.new.pass self.new.call
            × (w.calls ≡ drop self.new.next self.new.calls.items) × (w.answers ≡ answers_of self.new.answers.items)
            × (all_capped w.marks ≡ marks_of self.new.answers.items) × (capped w.mark ≡ self.new.mark)
            × ((t : CallerTurn M.meaning (M.sizes map.now) races (M.note_view note) v w) × Notes w.pass (M.note_view result.0)
            × (m : ℕ) × (result.1 ≡ capped m) × Marks t.going t.now n m v w)) }
    {
        let on = self.call.is_some();
        let mut future = self.present(map, races);
        let was = future.struck();
        match poll_after(&mut future, note, cx) {
            Poll::Pending => {
                let now = future.struck();
                let changes = count_turn(changes, was, now);
                self.mark = mark_turn(self.mark, on, was, now, changes);
                let note = note_of(&mut future);
                self.call = Some(future);
                (note, changes)
            }
            Poll::Ready(spoken) => {
                let Spoken { mut pass, answer } = spoken;
                let now = answer.took_effect();
                let changes = count_turn(changes, was, now);
                self.mark = mark_turn(self.mark, on, was, now, changes);
                let note = map.note(&mut pass);
                self.pass = Some(pass);
                let mark = self.mark;
                enter(&mut self.answers, Marked { answer, mark });
                (note, changes)
            }
        }
    }
}
