//! A tree as a map that callers share.

ghost use Rattle.std.specs.Prelude.{◌≡◌, IfOk, IfErr, length, map};
ghost use Rattle.pp_base.specs.Passes.{view, known};
ghost use Rattle.pp_calls.specs.PoolViews.{pass_view};
ghost use Rattle.pp_ends.specs.Ends.{map_sizes, note_in, pool_run};
ghost use Rattle.pp_model.specs.Lists.{AtEach};
ghost use Rattle.pp_model.specs.MapCalls.{MayCall, AnswersCall, IsClosing};
ghost use Rattle.pp_tree_calls.specs.Going.{going_of};
ghost use Rattle.pp_tree_turns.specs.Causes.{tree_meaning};
ghost use Rattle.pp_turns.specs.Passes.{IsMember, IsResting};
ghost use Rattle.pp_tree.specs.Trees.{IsCalling};

use crate::Tree;
use pp_answers::answers::{of_cut, of_get, of_insert, of_remove};
use pp_base::Pass;
use pp_edges::TreeShape;
use pp_model::{
    Answer, Call, CloseFault, Closed, Cut, InsertFault, Inserted, Lost, MapCalls, Turned,
};
use pp_pool::carried::Note;
use pp_pool::closing::{Witness, close};
use pp_pool::notes::{learn, note};
use pp_tree_calls::TreeGoing;
use pp_tree_calls::ending::set_going;
use std::alloc::Global;

/// Makes one call, turn by turn.
fn answer(tree: &Tree, pass: &mut Pass<TreeShape>, call: Call, races: u64) -> Answer
    requires belongs { IsMember tree.now.pool.table.shared.table_id tree.now.pool.layout pass.old }
    requires idle { IsResting pass.old }
    requires may { MayCall call races (pass_view pass.old) }
    ensures belongs { IsMember tree.now.pool.table.shared.table_id tree.now.pool.layout pass.new }
    ensures idle { IsResting pass.new }
    ensures answered { AnswersCall tree_meaning (map_sizes tree.now.pool.layout) call races (pass_view pass.old) (pass_view pass.new)
        result }
{
    let mut going = tree.begin(pass, call, races);
    loop {
        if let Turned::Done(answer) = tree.turn(pass, &mut going) {
            return answer;
        }
    }
}

impl MapCalls for Tree {
    type Pass = Pass<TreeShape>;

    type Going = TreeGoing;

    type Note = Note<TreeShape>;

    type Witness = Witness<TreeShape>;

    ghost meaning = { tree_meaning };

    ghost sizes = { λ tree. map_sizes tree.pool.layout };

    ghost pass_view = { λ pass. pass_view pass };

    ghost going_view = { λ pass going. going_of (known pass.seat) going };

    ghost note_view = { λ note. note_in (view note.seat) };

    ghost run_view = { λ kept. pool_run (view kept.seat) kept.live.items };

    ghost Idle = { λ pass. IsResting pass };

    ghost Belongs = { λ tree pass. IsMember tree.pool.table.shared.table_id tree.pool.layout pass };

    ghost UnderWay = { λ tree pass going before. IsCalling tree.pool.layout pass going before };

    ghost Learnable = { λ tree pass note. note.seat.table_id ≡ tree.pool.table.shared.table_id };

    fn begin(&self, pass: &mut Pass<TreeShape>, call: Call, races: u64) -> TreeGoing {
        set_going(pass, true);
        TreeGoing::begin(call, races)
    }

    fn turn(&self, pass: &mut Pass<TreeShape>, going: &mut TreeGoing) -> Turned {
        going.turn(&self.pool, pass)
    }

    fn finish(&self, _going: TreeGoing) {}

    fn struck(&self, going: &TreeGoing) -> bool {
        going.struck()
    }

    fn note(&self, pass: &mut Pass<TreeShape>) -> Note<TreeShape> {
        note(&self.pool, pass)
    }

    fn learn(&self, pass: &mut Pass<TreeShape>, note: Note<TreeShape>) {
        learn(&self.pool, pass, note);
    }

    fn get(&self, pass: &mut Pass<TreeShape>, key: u64, races: u64) -> Result<Option<u128>, Lost> {
        of_get(answer(self, pass, Call::Get { key }, races))
    }

    fn insert(
        &self,
        pass: &mut Pass<TreeShape>,
        key: u64,
        value: u128,
        races: u64,
    ) -> Result<Inserted, InsertFault> {
        of_insert(answer(self, pass, Call::Insert { key, value }, races))
    }

    fn remove(
        &self,
        pass: &mut Pass<TreeShape>,
        key: u64,
        races: u64,
    ) -> Result<Option<u128>, Lost> {
        of_remove(answer(self, pass, Call::Remove { key }, races))
    }

    fn cut(
        &self,
        pass: &mut Pass<TreeShape>,
        key: u64,
        value: u128,
        races: u64,
    ) -> Result<Cut, Lost> {
        of_cut(answer(self, pass, Call::Cut { key, value }, races), value)
    }

    fn close(
        self,
        alloc: Global,
        passes: Vec<Pass<TreeShape>>,
    ) -> Result<Closed<Witness<TreeShape>>, CloseFault<Tree, Pass<TreeShape>>>
        requires all { length passes.items ≡ (map_sizes self.pool.layout).passes }
        requires each { AtEach passes.items (λ k p. IsMember self.pool.table.shared.table_id self.pool.layout p
            × IsResting p × ((pass_view p).caller ≡ k)) }
        ensures closed { IfOk result (λ c. IsClosing tree_meaning (map_sizes self.pool.layout) (map (λ p. pass_view p) passes.items)
            c.contents.items c.free.items (pool_run (view c.witness.seat) c.witness.live.items)) }
        ensures back { IfErr result (λ e. (e.map ≡ self) × (e.passes.items ≡ passes.items)) }
    {
        let Tree { pool } = self;
        match close(alloc, pool, passes) {
            Ok(closed) => Ok(closed),
            Err(CloseFault { map, passes }) => Err(CloseFault {
                map: Tree { pool: map },
                passes,
            }),
        }
    }

    ghost stands = { λ tree pass own. own.stands };

    ghost learns_later = { λ tree pass later note own own_later more learnable. learnable };

    ghost others_learn = { λ tree pass other note own own_other differ learnable. learnable };
}
