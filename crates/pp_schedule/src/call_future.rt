//! One call as a future: each poll makes one turn.

ghost use Rattle.std.specs.Prelude.{◌≡◌, true, Some, IsSome, IsSomeAnd, IfSome};
ghost use Rattle.futures.specs.Task.{Covers, Keeps};
ghost use Rattle.futures.specs.Poll.{IfReady, OnPending};
ghost use Rattle.pp_model.specs.Pass.{PassView};
ghost use Rattle.pp_model.specs.MapCalls.{MayCall, Begun, AnswersCall, MakesTurn, WentOn, Counted, Notes, Learns};
ghost use Rattle.pp_schedule.specs.Turns.{Ends};

use futures::Future;
use futures::task::{Context, Poll};
use pp_model::{Answer, Call, MapCalls, Turned};

/// What a call that was polled to its end gives: its pass back, and its answer.
#[derive(Drop)]
pub struct Spoken<P> {
    pub pass: P,
    pub answer: Answer,
}

/// A call of a map, of which each poll makes one turn.
pub struct CallFuture<'a, M: MapCalls>
where
    M::Pass: Drop,
    M::Going: Drop,
{
    map: &'a M,
    parts: Option<(M::Pass, M::Going)>,
}

impl<'a, M: MapCalls> Drop for CallFuture<'a, M>
where
    M::Pass: Drop,
    M::Going: Drop,
{
    fn drop(self) {
        let CallFuture { map: _, parts: _ } = self;
    }
}

impl<'a, M: MapCalls> CallFuture<'a, M>
where
    M::Pass: Drop,
    M::Going: Drop,
{
    /// A future that makes this call with this pass.
    ///
    /// The pass is an idle one of this map with room for the call, the key is at most 2^64 - 4, and the budget of lost
    /// turns is at least 1.
    pub fn new(map: &'a M, pass: M::Pass, call: Call, races: u64) -> CallFuture<'a, M>
        requires belongs { M.Belongs map.now pass }
        requires idle { M.Idle pass }
        requires may { MayCall call races (M.pass_view pass) }
        ensures map { result.map.now ≡ map.now }
        ensures begun { IsSomeAnd result.parts (λ (at, going). M.Belongs map.now at
            × (M.pass_view at ≡ M.pass_view pass) × Begun call races (M.going_view at going)
            × M.UnderWay map.now at going (M.pass_view pass)) }
    {
        let mut pass = pass;
        let going = map.begin(&mut pass, call, races);
        CallFuture {
            map,
            parts: Some((pass, going)),
        }
    }

    /// Whether the call has taken effect: its change stands in the log.
    pub fn struck(&self) -> bool
        requires { IsSome self.now.parts }
        ensures { IsSomeAnd self.now.parts (λ (at, going). result ≡ (M.going_view at going).struck) }
    {
        let Some((_, going)) = &self.parts else {
            unreachable!()
        };
        self.map.struck(going)
    }

    /// A note of how much the call's pass has seen.
    pub fn note(&mut self) -> M::Note
        requires { IsSomeAnd self.old.parts (λ (at, going). M.Belongs self.old.map.now at) }
        ensures map { self.new.map ≡ self.old.map }
        ensures noted { IsSomeAnd self.old.parts (λ (was, begun). IsSomeAnd self.new.parts (λ (at, going).
            M.Belongs self.old.map.now at × (M.pass_view at ≡ M.pass_view was) × (going ≡ begun)
            × (M.going_view at going ≡ M.going_view was begun)
            × ((before : PassView) → M.UnderWay self.old.map.now was begun before → M.UnderWay self.old.map.now at going before)
            × Notes (M.pass_view at) (M.note_view result) × M.Learnable self.old.map.now at result)) }
    {
        let Some((pass, _)) = &mut self.parts else {
            unreachable!()
        };
        self.map.note(pass)
    }

    /// The call's pass has then seen all that the pass had seen that made the note.
    pub fn learn(&mut self, note: M::Note)
        requires { IsSomeAnd self.old.parts (λ (at, going). M.Belongs self.old.map.now at
            × M.Learnable self.old.map.now at note) }
        ensures map { self.new.map ≡ self.old.map }
        ensures learnt { IsSomeAnd self.old.parts (λ (was, begun). IsSomeAnd self.new.parts (λ (at, going).
            M.Belongs self.old.map.now at × (going ≡ begun) × (M.going_view at going ≡ M.going_view was begun)
            × ((before : PassView) → M.UnderWay self.old.map.now was begun before → M.UnderWay self.old.map.now at going before)
            × Learns (M.note_view note) (M.pass_view was) (M.pass_view at))) }
    {
        let Some((pass, _)) = &mut self.parts else {
            unreachable!()
        };
        self.map.learn(pass, note);
    }
}

impl<'a, M: MapCalls> Future for CallFuture<'a, M>
where
    M::Pass: Drop,
    M::Going: Drop,
{
    type Output = Spoken<M::Pass>;

    ghost can_poll = { λ f. IsSomeAnd f.parts (λ (pass, going). M.Belongs f.map.now pass
        × ((before : PassView) × M.UnderWay f.map.now pass going before)) };

    ghost gives = { λ f s. IsSomeAnd f.parts (λ (pass, going). M.Belongs f.map.now s.pass × M.Idle s.pass
        × ((before : PassView) → M.UnderWay f.map.now pass going before
        → AnswersCall M.meaning (M.sizes f.map.now) (M.going_view pass going).call (M.going_view pass going).budget
        before (M.pass_view s.pass) s.answer)) };

    fn poll(&mut self, cx: &mut Context<'_>) -> Poll<Spoken<M::Pass>>
        requires { IsSomeAnd self.old.parts (λ (pass, going). M.Belongs self.old.map.now pass
            × ((before : PassView) × M.UnderWay self.old.map.now pass going before)) }
        ensures value { IfReady result (λ s. IsSomeAnd self.old.parts (λ (pass, going).
            M.Belongs self.old.map.now s.pass × M.Idle s.pass
            × ((before : PassView) → M.UnderWay self.old.map.now pass going before
            → AnswersCall M.meaning (M.sizes self.old.map.now) (M.going_view pass going).call (M.going_view pass going).budget
            before (M.pass_view s.pass) s.answer))) }
        ensures again { OnPending result (IsSomeAnd self.new.parts (λ (pass, going). M.Belongs self.new.map.now pass
            × ((before : PassView) × M.UnderWay self.new.map.now pass going before))) }
        ensures same { OnPending result ((s : Spoken M.Pass) → (IsSomeAnd self.new.parts (λ (pass, going).
            M.Belongs self.new.map.now s.pass × M.Idle s.pass
            × ((before : PassView) → M.UnderWay self.new.map.now pass going before
            → AnswersCall M.meaning (M.sizes self.new.map.now) (M.going_view pass going).call (M.going_view pass going).budget
            before (M.pass_view s.pass) s.answer)))
            → (IsSomeAnd self.old.parts (λ (pass, going).
            M.Belongs self.old.map.now s.pass × M.Idle s.pass
            × ((before : PassView) → M.UnderWay self.old.map.now pass going before
            → AnswersCall M.meaning (M.sizes self.old.map.now) (M.going_view pass going).call (M.going_view pass going).budget
            before (M.pass_view s.pass) s.answer)))) }
        ensures registered { OnPending result (Covers cx.new (λ _. ⊥)) }
        ensures kept { Keeps cx.old cx.new }
        ensures map { self.new.map ≡ self.old.map }
        ensures woken { OnPending result (cx.new.is_woken ≡ true) }
        ensures on { OnPending result (IsSomeAnd self.old.parts (λ (was, begun). IsSomeAnd self.new.parts (λ (at, going).
            MakesTurn M.meaning (M.going_view was begun) (M.going_view at going) (M.pass_view was) (M.pass_view at)))) }
        ensures went_on { OnPending result (IsSomeAnd self.old.parts (λ (was, begun). IsSomeAnd self.new.parts (λ (at, going).
            WentOn (M.going_view was begun) (M.going_view at going)))) }
        ensures on_going { OnPending result (IsSomeAnd self.old.parts (λ (was, begun). IsSomeAnd self.new.parts (λ (at, going).
            (before : PassView) → M.UnderWay self.old.map.now was begun before → M.UnderWay self.old.map.now at going before
            × Counted M.meaning (M.sizes self.old.map.now) (M.going_view at going) before (M.pass_view at)))) }
        ensures done { IfReady result (λ s. IsSomeAnd self.old.parts (λ (was, begun).
            Ends M.meaning (M.going_view was begun) (M.pass_view was) (M.pass_view s.pass) s.answer)) }
    {
        let Some((pass, going)) = &mut self.parts else {
            unreachable!()
        };
        match self.map.turn(pass, going) {
            Turned::On => cx.yield_now(),
            Turned::Done(answer) => {
                let (pass, going) = self.parts.take().unwrap();
                self.map.finish(going);
                Poll::Ready(Spoken { pass, answer })
            }
        }
    }
}
