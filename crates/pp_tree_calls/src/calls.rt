//! A call on a tree, from its begin to its answer.

ghost use Rattle.std.specs.Prelude.{◌≡◌, ℕ, List};
ghost use Rattle.pp_base.specs.Passes.{view, Fits, IsSame};
ghost use Rattle.pp_model.specs.MapCalls.{IfDone};
ghost use Rattle.pp_trees.specs.Edges.{TreeView};
ghost use Rattle.pp_turns.specs.Passes.{IsResting};
ghost use Rattle.pp_tree_calls.specs.Begun.{BeginsOn};
ghost use Rattle.pp_tree_calls.specs.Going.{IsUnder};
ghost use Rattle.pp_tree_calls.specs.Lone.{LoneAt, LoneTurn};
ghost use Rattle.pp_tree_calls.specs.Turned.{TreeTurned};

use crate::going::{Next, TreeGoing};
use crate::turns::{flag_on, publish_on, seek_on, splice_on, tag_on};
use pp_base::{Pass, Pool};
use pp_edges::TreeShape;
use pp_model::{Call, Turned};
use pp_seek::Seek;

impl TreeGoing {
    /// Begins a call on the tree, of which so many turns may be lost before it takes effect. It makes no step.
    pub fn begin(call: Call, races: u64) -> TreeGoing
        ensures begins { BeginsOn call races result }
    {
        TreeGoing {
            call,
            races,
            lost: 0,
            struck: false,
            taken: 0,
            next: Next::Seeks(Seek::begin(call)),
            records: None,
        }
    }

    /// Makes the call's next turn. A pass that is alone on its pool loses none where no record that could be reached was removed as
    /// the call began, and none is after the call.
    pub fn turn(&mut self, pool: &Pool<TreeShape>, pass: &mut Pass<TreeShape>) -> Turned
        requires fits { Fits pool.now.table.shared.table_id pool.now.layout pass.old.seat }
        requires under { (from : TreeView) × ((free : List ℕ)
            × IsUnder pool.now.layout pass.old.share self.old (view pass.old.seat) pass.old.purse from free) }
        ensures same { IsSame pass.old.seat pass.new.seat }
        ensures turned { TreeTurned pool.now.layout pass.old.share self.old self.new (view pass.old.seat) (view pass.new.seat)
            pass.old.purse pass.new.purse result }
        ensures alone { LoneAt pool.now.layout self.old (view pass.old.seat)
            → LoneTurn pool.now.layout self.old self.new (view pass.new.seat) result }
        ensures resting { IfDone result (λ _. IsResting pass.new) }
    {
        match self.next {
            Next::Seeks(seek) => seek_on(self, pool, pass, seek),
            Next::Publishes(sought) => publish_on(self, pool, pass, sought),
            Next::Flags(sought) => flag_on(self, pool, pass, sought),
            Next::Tags(sought, side) => tag_on(self, pool, pass, sought, side),
            Next::Splices(sought, side, sibling) => splice_on(
                self, pool, pass, sought, side, sibling,
            ),
            Next::Over => unreachable!(),
        }
    }

    /// How many of its turns were lost.
    pub fn lost(&self) -> u64
        ensures { result ≡ self.now.lost }
    {
        self.lost
    }

    /// Whether it has taken effect.
    pub fn struck(&self) -> bool
        ensures { result ≡ self.now.struck }
    {
        self.struck
    }
}
