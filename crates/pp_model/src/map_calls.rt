//! The interface that all maps share.
//!
//! A caller has a pass of its own, and gives it to each call. A call is `begin` and then `turn` until it is done; `get`,
//! `insert`, `remove` and `cut` are that as one function. `note` and `learn` carry what one pass has seen to another. The clauses
//! speak of records that contracts alone see: what a pass has seen and done, how far a going call has come, how much a note
//! tells, and what a closed map shows of its run.

ghost use Rattle.std.specs.Prelude.{◌≡◌, ◌≢◌, ◌≤◌, true, false, map, length, IfOk, IfErr};
ghost use Rattle.pp_model.specs.declared.Call.TheVariants as Call;
ghost use Rattle.pp_model.specs.Lists.{AtEach, IsPrefix};
ghost use Rattle.pp_model.specs.Pass.{PassView, GoingView, NoteView, MapSizes, Meaning, RunView};
ghost use Rattle.pp_model.specs.MapCalls.{MayCall, AnswersCall, Begun, MakesTurn, WentOn, Counted, IfOn, IfDone, StandsIn};
ghost use Rattle.pp_model.specs.MapCalls.{took_effect, Notes, Learns};
ghost use Rattle.pp_model.specs.MapCalls.{IsClosing, get_answer, insert_answer, remove_answer, cut_answer};

use crate::{Call, Cut, InsertFault, Inserted, Lost, Pair, Turned};
use std::alloc::Global;

/// A map and its passes, handed back as they were where there was no memory to close it.
#[derive(Drop)]
pub struct CloseFault<M, P> {
    pub map: M,
    pub passes: Vec<P>,
}

/// What a closed map held. Contracts read the run that it closed from its witness.
#[derive(Drop)]
pub struct Closed<W> {
    contents: Vec<Pair>,
    free: Vec<u32>,
    witness: W,
}

impl<W> Closed<W> {
    /// What a map that was closed held, with what its map shows as a witness of its run.
    pub fn new(contents: Vec<Pair>, free: Vec<u32>, witness: W) -> Self
        ensures contents { result.contents ≡ contents }
        ensures free { result.free ≡ free }
        ensures witness { result.witness ≡ witness }
    {
        Closed {
            contents,
            free,
            witness,
        }
    }

    /// The pairs, by rising keys.
    pub fn contents(&self) -> &[Pair]
        ensures { result.now ≡ self.now.contents.items }
    {
        &self.contents
    }

    /// The numbers of the free records, rising.
    pub fn free(&self) -> &[u32]
        ensures { result.now ≡ self.now.free.items }
    {
        &self.free
    }
}

/// A map that callers use, each with a pass of its own.
///
/// Keys are at most 2^64 - 4. `races` is the budget of a call: how many of its turns may be lost to other callers before it
/// takes effect. Each call asks that the pass was made with this map, that no other call is going on it, that the budget is
/// at least 1, and that the pass has room for one more call.
///
/// Contracts see a going call by its pass and the call together, since where it started and which keys it has left are facts of
/// the steps that its pass made. The kind of its next turn, from 0 to 3, and the bounds of the keys that its walk has left are
/// whatever the map says: they count down to the call's end, and what a map read it says by its causes.
pub trait MapCalls: Sized {
    /// One caller's right to use the map.
    type Pass;
    /// A call that was begun and isn't answered.
    type Going;
    /// How much of the run a pass had seen, for another pass to learn. It may be let go unlearnt: a function over any map that
    /// does so asks for `M::Note: Drop`.
    type Note;
    /// What a closed map keeps of its run for contracts to see.
    type Witness;

    ghost meaning: { Meaning };

    ghost sizes: { Self → MapSizes };

    ghost pass_view: { Self.Pass → PassView };

    ghost going_view: { Self.Pass → Self.Going → GoingView };

    ghost note_view: { Self.Note → NoteView };

    ghost run_view: { Self.Witness → RunView };

    ghost Idle: { Self.Pass → Type 0 };

    ghost Belongs: { Self → Self.Pass → Type 0 };

    ghost UnderWay: { Self → Self.Pass → Self.Going → PassView → Type 0 };

    // the note was made by a pass of the map of this one
    ghost Learnable: { Self → Self.Pass → Self.Note → Type 0 };

    /// The value of a key. `None`: the key is absent.
    ///
    /// # Errors
    ///
    /// `Lost` exactly where the lost turns reached the budget; nothing changed.
    fn get(&self, pass: &mut Self::Pass, key: u64, races: u64) -> Result<Option<u128>, Lost>
        requires belongs { Belongs self.now pass.old }
        requires idle { Idle pass.old }
        requires may { MayCall (Call.Get key) races (pass_view pass.old) }
        ensures belongs { Belongs self.now pass.new }
        ensures idle { Idle pass.new }
        ensures answered { AnswersCall meaning (sizes self.now) (Call.Get key) races
            (pass_view pass.old) (pass_view pass.new) (get_answer result) };

    /// Adds a pair where the key is absent. `Held`: the key is there with this value, which stays.
    ///
    /// # Errors
    ///
    /// `Full`: no free record was found. `Lost` exactly where the lost turns reached the budget before the insert took
    /// effect. Either way nothing changed.
    fn insert(
        &self,
        pass: &mut Self::Pass,
        key: u64,
        value: u128,
        races: u64,
    ) -> Result<Inserted, InsertFault>
        requires belongs { Belongs self.now pass.old }
        requires idle { Idle pass.old }
        requires may { MayCall (Call.Insert key value) races (pass_view pass.old) }
        ensures belongs { Belongs self.now pass.new }
        ensures idle { Idle pass.new }
        ensures answered { AnswersCall meaning (sizes self.now) (Call.Insert key value) races
            (pass_view pass.old) (pass_view pass.new) (insert_answer result) };

    /// Takes the pair of a key away, and gives its value. `None`: the key is absent.
    ///
    /// # Errors
    ///
    /// `Lost` exactly where the lost turns reached the budget before the remove took effect; nothing changed.
    fn remove(&self, pass: &mut Self::Pass, key: u64, races: u64) -> Result<Option<u128>, Lost>
        requires belongs { Belongs self.now pass.old }
        requires idle { Idle pass.old }
        requires may { MayCall (Call.Remove key) races (pass_view pass.old) }
        ensures belongs { Belongs self.now pass.new }
        ensures idle { Idle pass.new }
        ensures answered { AnswersCall meaning (sizes self.now) (Call.Remove key) races
            (pass_view pass.old) (pass_view pass.new) (remove_answer result) };

    /// Takes the pair of a key away where it has this value. `Other`: the key is there with another value, which stays.
    ///
    /// # Errors
    ///
    /// `Lost` exactly where the lost turns reached the budget before the cut took effect; nothing changed.
    fn cut(&self, pass: &mut Self::Pass, key: u64, value: u128, races: u64) -> Result<Cut, Lost>
        requires belongs { Belongs self.now pass.old }
        requires idle { Idle pass.old }
        requires may { MayCall (Call.Cut key value) races (pass_view pass.old) }
        ensures belongs { Belongs self.now pass.new }
        ensures idle { Idle pass.new }
        ensures answered { AnswersCall meaning (sizes self.now) (Call.Cut key value) races
            (pass_view pass.old) (pass_view pass.new) (cut_answer value result) };

    /// Begins a call, which `turn` then makes. It makes no atomic step.
    fn begin(&self, pass: &mut Self::Pass, call: Call, races: u64) -> Self::Going
        requires belongs { Belongs self.now pass.old }
        requires idle { Idle pass.old }
        requires may { MayCall call races (pass_view pass.old) }
        ensures belongs { Belongs self.now pass.new }
        ensures same { pass_view pass.new ≡ pass_view pass.old }
        ensures begun { Begun call races (going_view pass.new result) }
        ensures going { UnderWay self.now pass.new result (pass_view pass.old) };

    /// Makes one turn of the call that is going on this pass. `Done` has its answer, and then the pass is idle. A turn that
    /// goes on was lost, narrowed the keys that its walk has left, or came to a later kind of turn.
    fn turn(&self, pass: &mut Self::Pass, going: &mut Self::Going) -> Turned
        requires belongs { Belongs self.now pass.old }
        requires going { (before : PassView) × UnderWay self.now pass.old going.old before }
        ensures belongs { Belongs self.now pass.new }
        ensures made { MakesTurn meaning (going_view pass.old going.old) (going_view pass.new going.new)
            (pass_view pass.old) (pass_view pass.new) }
        ensures on { IfOn result (WentOn (going_view pass.old going.old) (going_view pass.new going.new)) }
        ensures going { IfOn result ((before : PassView) → UnderWay self.now pass.old going.old before
            → UnderWay self.now pass.new going.new before) }
        ensures counted { IfOn result ((before : PassView) → UnderWay self.now pass.old going.old before
            → Counted meaning (sizes self.now) (going_view pass.new going.new) before (pass_view pass.new)) }
        ensures struck { IfDone result (λ answer. (going_view pass.new going.new).struck ≡ took_effect answer) }
        ensures idle { IfDone result (λ _. Idle pass.new) }
        ensures answered { IfDone result (λ answer. (before : PassView) → UnderWay self.now pass.old going.old before
            → AnswersCall meaning (sizes self.now) (going_view pass.old going.old).call (going_view pass.old going.old).budget
            before (pass_view pass.new) answer) };

    /// Lets a call go that was answered.
    fn finish(&self, going: Self::Going);

    /// Whether a going call has taken effect: its change stands in the log. It is the same with whichever pass the call is seen.
    fn struck(&self, going: &Self::Going) -> bool
        ensures { (pass : Self.Pass) → result ≡ (going_view pass going.now).struck };

    /// A note of how much the pass has seen. It may be made while a call is going.
    fn note(&self, pass: &mut Self::Pass) -> Self::Note
        requires belongs { Belongs self.now pass.old }
        ensures belongs { Belongs self.now pass.new }
        ensures same { pass_view pass.new ≡ pass_view pass.old }
        ensures idle { Idle pass.old → Idle pass.new }
        ensures going { (going : Self.Going) (before : PassView) → UnderWay self.now pass.old going before
            → UnderWay self.now pass.new going before }
        ensures same_going { (going : Self.Going) → going_view pass.new going ≡ going_view pass.old going }
        ensures noted { Notes (pass_view pass.new) (note_view result) }
        ensures learnable { Learnable self.now pass.new result };

    /// The pass has then seen at least as much as the pass had that made the note, and all that it had seen itself. Nothing else
    /// of it changes. It may learn while a call is going.
    fn learn(&self, pass: &mut Self::Pass, note: Self::Note)
        requires belongs { Belongs self.now pass.old }
        requires learnable { Learnable self.now pass.old note }
        ensures belongs { Belongs self.now pass.new }
        ensures idle { Idle pass.old → Idle pass.new }
        ensures going { (going : Self.Going) (before : PassView) → UnderWay self.now pass.old going before
            → UnderWay self.now pass.new going before }
        ensures same_going { (going : Self.Going) → going_view pass.new going ≡ going_view pass.old going }
        ensures learnt { Learns (note_view note) (pass_view pass.old) (pass_view pass.new) };

    /// Closes the map over all its passes, given by rising callers, all idle: what it held after the whole log of its run,
    /// and the numbers of its free records.
    ///
    /// # Errors
    ///
    /// There was no memory. The map and its passes come back as they were.
    fn close(
        self,
        alloc: Global,
        passes: Vec<Self::Pass>,
    ) -> Result<Closed<Self::Witness>, CloseFault<Self, Self::Pass>>
        requires all { length passes.items ≡ (sizes self).passes }
        requires each { AtEach passes.items (λ k p. Belongs self p × Idle p × ((pass_view p).caller ≡ k)) }
        ensures closed { IfOk result (λ c. IsClosing meaning (sizes self) (map pass_view passes.items)
            c.contents.items c.free.items (run_view c.witness)) }
        ensures back { IfErr result (λ e. (e.map ≡ self) × (e.passes.items ≡ passes.items)) };

    // the placed calls of each pass of the map stand in what the pass has seen
    ghost stands: { (map : Self) (pass : Self.Pass) → Belongs map pass → StandsIn (pass_view pass) };

    // a pass that has seen more may still learn a note
    ghost learns_later: { (map : Self) (pass later : Self.Pass) (note : Self.Note) → Belongs map pass → Belongs map later
        → IsPrefix (pass_view pass).seen (pass_view later).seen → Learnable map pass note → Learnable map later note };

    // what one pass may learn, each other pass of the map may learn
    ghost others_learn: { (map : Self) (pass other : Self.Pass) (note : Self.Note) → Belongs map pass → Belongs map other
        → (pass_view pass).caller ≢ (pass_view other).caller → Learnable map pass note → Learnable map other note };
}
