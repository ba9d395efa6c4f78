//! Making the retired records of a pass free.

ghost use Rattle.std.specs.Prelude.{◌≡◌};
ghost use Rattle.pp_base.specs.Passes.{known, Fits, IsAtRest, IsSame};
ghost use Rattle.pp_reclaim.specs.Sweeps.{Reclaims};

use crate::scanning::scan;
use pp_base::{Pass, Pool};
use pp_rule::Shape;
use pp_unlink::flush;

/// Makes retired records free: it retires the chains in hand, the oldest first, and then reads all hazard words, first the
/// frontier words and then the walk words of all passes. The retired records that none of the words names are free
/// with the pass. No more stay retired than there are hazard words. Gives how many it freed.
///
/// No call is under way on the pass.
pub fn reclaim<S: Shape>(pool: &Pool<S>, pass: &mut Pass<S>) -> u32
    requires fits { Fits pool.now.table.shared.table_id pool.now.layout pass.old.seat }
    requires rest { IsAtRest (known pass.old.seat) pass.old.purse }
    ensures same { IsSame pass.old.seat pass.new.seat }
    ensures reclaims { Reclaims S.SIDES pool.now.layout result pass.old.seat pass.new.seat pass.old.purse pass.new.purse }
    ensures rest { IsAtRest (known pass.new.seat) pass.new.purse }
    ensures walk { pass.new.walk ≡ pass.old.walk }
{
    flush(pool, pass);
    scan(pool, pass)
}
