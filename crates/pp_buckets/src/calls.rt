//! A table as a map that callers share.

ghost use Rattle.std.specs.Prelude.{◌≡◌, IfOk, IfErr, length, map};
ghost use Rattle.pp_base.specs.Passes.{view, known};
ghost use Rattle.pp_calls.specs.PoolViews.{pass_view};
ghost use Rattle.pp_ends.specs.Ends.{map_sizes, note_in, pool_run};
ghost use Rattle.pp_list.specs.Begun.{call_of};
ghost use Rattle.pp_list.specs.Going.{going_of};
ghost use Rattle.pp_list.specs.Meant.{list_meaning};
ghost use Rattle.pp_model.specs.Calls.{key_of};
ghost use Rattle.pp_model.specs.Lists.{AtEach};
ghost use Rattle.pp_model.specs.MapCalls.{MayCall, AnswersCall, IsClosing};
ghost use Rattle.pp_turns.specs.Passes.{IsMember, IsResting};
ghost use Rattle.pp_buckets.specs.Tables.{IsCalling};

use crate::Buckets;
use pp_answers::answers::{of_cut, of_get, of_insert, of_remove};
use pp_base::Pass;
use pp_list::ending::set_going;
use pp_list::{ListGoing, ListOp};
use pp_model::{
    Answer, Call, CloseFault, Closed, Cut, InsertFault, Inserted, Lost, MapCalls, Turned,
};
use pp_pool::carried::Note;
use pp_pool::closing::{Witness, close};
use pp_pool::notes::{learn, note};
use pp_walk::ListShape;
use std::alloc::Global;

/// What a call does, and with which key.
fn parts_of(call: Call) -> (u64, ListOp)
    ensures key { result.0 ≡ key_of call }
    ensures call { call_of result.0 result.1 ≡ call }
{
    match call {
        Call::Get { key } => (key, ListOp::Get),
        Call::Insert { key, value } => (key, ListOp::Insert { value }),
        Call::Remove { key } => (key, ListOp::Remove),
        Call::Cut { key, value } => (key, ListOp::Cut { value }),
    }
}

/// Makes one call, turn by turn.
fn answer(table: &Buckets, pass: &mut Pass<ListShape>, call: Call, races: u64) -> Answer
    requires belongs { IsMember table.now.pool.table.shared.table_id table.now.pool.layout pass.old }
    requires idle { IsResting pass.old }
    requires may { MayCall call races (pass_view pass.old) }
    ensures belongs { IsMember table.now.pool.table.shared.table_id table.now.pool.layout pass.new }
    ensures idle { IsResting pass.new }
    ensures answered { AnswersCall list_meaning (map_sizes table.now.pool.layout) call races (pass_view pass.old) (pass_view pass.new)
        result }
{
    let mut going = table.begin(pass, call, races);
    loop {
        if let Turned::Done(answer) = table.turn(pass, &mut going) {
            return answer;
        }
    }
}

impl MapCalls for Buckets {
    type Pass = Pass<ListShape>;

    type Going = ListGoing;

    type Note = Note<ListShape>;

    type Witness = Witness<ListShape>;

    ghost meaning = { list_meaning };

    ghost sizes = { λ table. map_sizes table.pool.layout };

    ghost pass_view = { λ pass. pass_view pass };

    ghost going_view = { λ pass going. going_of (known pass.seat) going };

    ghost note_view = { λ note. note_in (view note.seat) };

    ghost run_view = { λ kept. pool_run (view kept.seat) kept.live.items };

    ghost Idle = { λ pass. IsResting pass };

    ghost Belongs = { λ table pass. IsMember table.pool.table.shared.table_id table.pool.layout pass };

    ghost UnderWay = { λ table pass going before. IsCalling table.pool.layout pass going before };

    ghost Learnable = { λ table pass note. note.seat.table_id ≡ table.pool.table.shared.table_id };

    fn begin(&self, pass: &mut Pass<ListShape>, call: Call, races: u64) -> ListGoing {
        let (key, op) = parts_of(call);
        set_going(pass, true);
        ListGoing::begin(self.bucket(key), key, op, races)
    }

    fn turn(&self, pass: &mut Pass<ListShape>, going: &mut ListGoing) -> Turned {
        going.turn(&self.pool, pass)
    }

    fn finish(&self, _going: ListGoing) {}

    fn struck(&self, going: &ListGoing) -> bool {
        going.struck()
    }

    fn note(&self, pass: &mut Pass<ListShape>) -> Note<ListShape> {
        note(&self.pool, pass)
    }

    fn learn(&self, pass: &mut Pass<ListShape>, note: Note<ListShape>) {
        learn(&self.pool, pass, note);
    }

    fn get(&self, pass: &mut Pass<ListShape>, key: u64, races: u64) -> Result<Option<u128>, Lost> {
        of_get(answer(self, pass, Call::Get { key }, races))
    }

    fn insert(
        &self,
        pass: &mut Pass<ListShape>,
        key: u64,
        value: u128,
        races: u64,
    ) -> Result<Inserted, InsertFault> {
        of_insert(answer(self, pass, Call::Insert { key, value }, races))
    }

    fn remove(
        &self,
        pass: &mut Pass<ListShape>,
        key: u64,
        races: u64,
    ) -> Result<Option<u128>, Lost> {
        of_remove(answer(self, pass, Call::Remove { key }, races))
    }

    fn cut(
        &self,
        pass: &mut Pass<ListShape>,
        key: u64,
        value: u128,
        races: u64,
    ) -> Result<Cut, Lost> {
        of_cut(answer(self, pass, Call::Cut { key, value }, races), value)
    }

    fn close(
        self,
        alloc: Global,
        passes: Vec<Pass<ListShape>>,
    ) -> Result<Closed<Witness<ListShape>>, CloseFault<Buckets, Pass<ListShape>>>
        requires all { length passes.items ≡ (map_sizes self.pool.layout).passes }
        requires each { AtEach passes.items (λ k p. IsMember self.pool.table.shared.table_id self.pool.layout p
            × IsResting p × ((pass_view p).caller ≡ k)) }
        ensures closed { IfOk result (λ c. IsClosing list_meaning (map_sizes self.pool.layout) (map (λ p. pass_view p) passes.items)
            c.contents.items c.free.items (pool_run (view c.witness.seat) c.witness.live.items)) }
        ensures back { IfErr result (λ e. (e.map ≡ self) × (e.passes.items ≡ passes.items)) }
    {
        let Buckets { pool } = self;
        match close(alloc, pool, passes) {
            Ok(closed) => Ok(closed),
            Err(CloseFault { map, passes }) => Err(CloseFault {
                map: Buckets { pool: map },
                passes,
            }),
        }
    }

    ghost stands = { λ table pass own. own.stands };

    ghost learns_later = { λ table pass later note own own_later more learnable. learnable };

    ghost others_learn = { λ table pass other note own own_other differ learnable. learnable };
}
