//! What a call that changes a map does to the purse of its pass: it finds free records before its change, and tidies at its end. The layers
//! above use `find_free` and `tidy`.
#![tactic(auto)]

ghost use Rattle.std.specs.Prelude.{◌≡◌, ◌≤◌, ◌↔◌, true, false, length};
ghost use Rattle.pp_base.specs.Passes.{known, view, Fits, IsAtRest, IsSame};
ghost use Rattle.pp_purse.specs.Purses.{TidiesPurse, ReclaimsMany, FindsFree, RanOut};

use pp_base::{Pass, Pool};
use pp_reclaim::reclaim;
use pp_rule::Shape;
use pp_shelf::collect;

/// Tidies the purse of a pass at the end of a call that may have changed its map: a reclaim pass is made where more than twice
/// as many numbers are retired as there are hazard words, and then free records beyond the share go to the shelves. It takes
/// no memory.
pub fn tidy<S: Shape>(pool: &Pool<S>, pass: &mut Pass<S>)
    requires fits { Fits pool.now.table.shared.table_id pool.now.layout pass.old.seat }
    requires rest { IsAtRest (known pass.old.seat) pass.old.purse }
    ensures same { IsSame pass.old.seat pass.new.seat }
    ensures tidies { TidiesPurse pool.now.layout pass.old.share (view pass.old.seat) (view pass.new.seat) pass.old.purse pass.new.purse }
    ensures rest { IsAtRest (known pass.new.seat) pass.new.purse }
    ensures walk { pass.new.walk ≡ pass.old.walk }
{
    reclaim_many(pool, pass);
    pp_shelf::tidy(pool, pass);
}

/// Makes a reclaim pass where more than twice as many numbers are retired as there are hazard words.
fn reclaim_many<S: Shape>(pool: &Pool<S>, pass: &mut Pass<S>)
    requires fits { Fits pool.now.table.shared.table_id pool.now.layout pass.old.seat }
    requires rest { IsAtRest (known pass.old.seat) pass.old.purse }
    ensures same { IsSame pass.old.seat pass.new.seat }
    ensures reclaims { ReclaimsMany pool.now.layout (view pass.old.seat) (view pass.new.seat) pass.old.purse pass.new.purse }
    ensures rest { IsAtRest (known pass.new.seat) pass.new.purse }
    ensures walk { pass.new.walk ≡ pass.old.walk }
{
    let many = 18 * pool.layout.sizes().passes as usize;
    if pass.retired().len() > many {
        reclaim(pool, pass);
    }
}

/// Finds so many free records for an insert: where the free list is shorter, by a reclaim pass, and then on the shelves, up to
/// enough of them or up to the first round in which all shelves are empty. Tells whether there are enough. It takes no memory.
pub fn find_free<S: Shape>(pool: &Pool<S>, pass: &mut Pass<S>, need: u32) -> bool
    requires fits { Fits pool.now.table.shared.table_id pool.now.layout pass.old.seat }
    requires rest { IsAtRest (known pass.old.seat) pass.old.purse }
    requires none_out { pass.old.purse.taken ≡ 0 }
    ensures same { IsSame pass.old.seat pass.new.seat }
    ensures finds { FindsFree pool.now.layout need (view pass.old.seat) (view pass.new.seat) pass.old.purse pass.new.purse }
    ensures told { (result ≡ true) ↔ (need ≤ length pass.new.purse.free.items) }
    ensures idle { need ≤ length pass.old.purse.free.items → view pass.new.seat ≡ view pass.old.seat }
    ensures out { result ≡ false → RanOut pool.now.layout need (view pass.old.seat) (view pass.new.seat) pass.old.purse pass.new.purse }
    ensures rest { IsAtRest (known pass.new.seat) pass.new.purse }
    ensures walk { pass.new.walk ≡ pass.old.walk }
{
    if need as usize <= pass.free().len() {
        return true;
    }
    reclaim(pool, pass);
    collect(pool, pass, need)
}
