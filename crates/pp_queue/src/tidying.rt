//! The end of a queue's calls: few records stay retired, and free ones go to shelves.

ghost use Rattle.std.specs.Prelude.{◌≡◌, ◌⊎◌, ◌*◌, ◌≤◌, min, length};
ghost use Rattle.pp_rule.specs.Causes.{FoundTaken};
ghost use Rattle.pp_rule.specs.Lists.{BeginsWith};
ghost use Rattle.pp_base.specs.Passes.{known, view, Fits, IsSame, IsAtRest};
ghost use Rattle.pp_shelf.specs.Runs.{steps_made};
ghost use Rattle.pp_queues.specs.Calls.{map_sizes};
ghost use Rattle.pp_queue.specs.Standing.{StaysUp};
ghost use Rattle.pp_queue.specs.Answers.{Idles, SameCounts, Tidies};

use crate::QueueShape;
use pp_base::{Pass, Pool};
use pp_reclaim::reclaim;
use pp_shelf::tidy;

/// Runs a reclaim pass where more records are retired than twice the number of hazard words.
fn reclaim_many(pool: &Pool<QueueShape>, pass: &mut Pass<QueueShape>)
    requires fits { Fits pool.now.table.shared.table_id pool.now.layout pass.old.seat }
    requires rest { IsAtRest (known pass.old.seat) pass.old.purse }
    ensures same { IsSame pass.old.seat pass.new.seat }
    ensures up { StaysUp (known pass.old.seat) (known pass.new.seat) }
    ensures idles { Idles pool.now.layout.passes (view pass.old.seat) (view pass.new.seat) }
    ensures few { length (known pass.new.seat).retired ≤ 2 * (9 * pool.now.layout.passes) }
    ensures free { BeginsWith pass.new.purse.free.items pass.old.purse.free.items }
    ensures counts { SameCounts pass.old.purse pass.new.purse }
    ensures rest { IsAtRest (known pass.new.seat) pass.new.purse }
    ensures walk { pass.new.walk ≡ pass.old.walk }
{
    let hazards = 9 * pool.layout.sizes().passes as usize;
    let many = pass.retired().len() > 2 * hazards;
    if many {
        reclaim(pool, pass);
    }
}

/// Ends a call: where many records are retired, it runs a reclaim pass, and then it puts free records on shelves until no
/// more are free than the pass was dealt, or each shelf was found taken.
pub fn finish(pool: &Pool<QueueShape>, pass: &mut Pass<QueueShape>)
    requires fits { Fits pool.now.table.shared.table_id pool.now.layout pass.old.seat }
    requires rest { IsAtRest (known pass.old.seat) pass.old.purse }
    ensures same { IsSame pass.old.seat pass.new.seat }
    ensures up { StaysUp (known pass.old.seat) (known pass.new.seat) }
    ensures idles { Idles pool.now.layout.passes (view pass.old.seat) (view pass.new.seat) }
    ensures tidies { Tidies pool.now.layout pass.old.share
        (view pass.old.seat) (view pass.new.seat) pass.old.purse pass.new.purse }
    ensures rest { IsAtRest (known pass.new.seat) pass.new.purse }
    ensures walk { pass.new.walk ≡ pass.old.walk }
{
    reclaim_many(pool, pass);
    tidy(pool, pass);
}
