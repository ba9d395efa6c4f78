//! A call on one list of a pool, from its begin to its answer.

ghost use Rattle.std.specs.Prelude.{◌≡◌, ℕ, List};
ghost use Rattle.pp_base.specs.Passes.{view, Fits, IsSame};
ghost use Rattle.pp_lists.specs.Turns.{ListView};
ghost use Rattle.pp_model.specs.MapCalls.{IfDone};
ghost use Rattle.pp_turns.specs.Passes.{IsResting};
ghost use Rattle.pp_list.specs.Begun.{call_of, BeginsOn};
ghost use Rattle.pp_list.specs.Going.{IsUnder};
ghost use Rattle.pp_list.specs.Lone.{LoneAt, LoneTurn};
ghost use Rattle.pp_list.specs.Turned.{ListTurned};

use crate::going::{ListGoing, ListOp, Next};
use crate::turns::{detach, mark, publish, unlink, walk_on};
use pp_base::{Pass, Pool};
use pp_model::{Call, Turned};
use pp_walk::ListShape;
use pp_walk::walk::Walk;

/// The call that does this with its key.
fn call_for(key: u64, op: ListOp) -> Call
    ensures { result ≡ call_of key op }
{
    match op {
        ListOp::Get => Call::Get { key },
        ListOp::Insert { value } => Call::Insert { key, value },
        ListOp::Remove => Call::Remove { key },
        ListOp::Cut { value } => Call::Cut { key, value },
    }
}

impl ListGoing {
    /// Begins a call on the list of this head, of which so many turns may be lost before it takes effect. It makes no step.
    pub fn begin(head: u32, key: u64, op: ListOp, races: u64) -> ListGoing
        ensures begins { BeginsOn head (call_of key op) races result }
    {
        let call = call_for(key, op);
        ListGoing {
            head,
            call,
            races,
            lost: 0,
            struck: false,
            next: Next::Walks(Walk::begin(head, call)),
            fresh: None,
        }
    }

    /// Makes the call's next turn. A pass that is alone on its pool loses none where no record that could be reached was removed as the
    /// call began, and none is after the call.
    pub fn turn(&mut self, pool: &Pool<ListShape>, pass: &mut Pass<ListShape>) -> Turned
        requires fits { Fits pool.now.table.shared.table_id pool.now.layout pass.old.seat }
        requires under { (from : ListView) × ((free : List ℕ)
            × IsUnder pool.now.layout pass.old.share self.old (view pass.old.seat) pass.old.purse from free) }
        ensures same { IsSame pass.old.seat pass.new.seat }
        ensures turned { ListTurned pool.now.layout pass.old.share self.old self.new (view pass.old.seat) (view pass.new.seat)
            pass.old.purse pass.new.purse result }
        ensures alone { LoneAt pool.now.layout self.old.next (view pass.old.seat)
            → LoneTurn pool.now.layout self.old self.new (view pass.new.seat) result }
        ensures resting { IfDone result (λ _. IsResting pass.new) }
    {
        match self.next {
            Next::Walks(walk) => walk_on(self, pool, pass, walk),
            Next::Detaches(found) => detach(self, pool, pass, found),
            Next::Marks(found) => mark(self, pool, pass, found),
            Next::Publishes(found) => publish(self, pool, pass, found),
            Next::Unlinks(marked) => unlink(self, pool, pass, marked),
            Next::Over => unreachable!(),
        }
    }

    /// How many of its turns were lost.
    pub fn lost(&self) -> u64
        ensures { result ≡ self.now.lost }
    {
        self.lost
    }

    /// Whether it has taken effect.
    pub fn struck(&self) -> bool
        ensures { result ≡ self.now.struck }
    {
        self.struck
    }
}
