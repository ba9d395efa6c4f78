//! The record of a put.

ghost use Rattle.std.specs.Prelude.{◌≡◌, IfSome, IfNone};
ghost use Rattle.pp_base.specs.Passes.{known, view, Fits, IsSame, IsAtRest};
ghost use Rattle.pp_pool.specs.Taken.{IsPrivate};
ghost use Rattle.pp_queue.specs.Calling.{HasRecord, SameLists};
ghost use Rattle.pp_queue.specs.Standing.{StaysUp};
ghost use Rattle.pp_queue.specs.Answers.{Idles, HasTaken, RanOut};

use crate::QueueShape;
use pp_base::{Pass, Pool, Side};
use pp_link::Link;
use pp_pool::fresh::{Fresh, set_link, set_value, take};
use pp_reclaim::reclaim;
use pp_shelf::collect;

/// Takes a free record. Where there is none, it runs a reclaim pass and looks on the shelves first. None says that it found
/// none there either.
pub fn take_record(pool: &Pool<QueueShape>, pass: &mut Pass<QueueShape>) -> Option<Fresh>
    requires fits { Fits pool.now.table.shared.table_id pool.now.layout pass.old.seat }
    requires rest { IsAtRest (known pass.old.seat) pass.old.purse }
    requires back { pass.old.purse.taken ≡ 0 }
    ensures same { IsSame pass.old.seat pass.new.seat }
    ensures up { StaysUp (known pass.old.seat) (known pass.new.seat) }
    ensures idles { Idles pool.now.layout.passes (view pass.old.seat) (view pass.new.seat) }
    ensures some { IfSome result (λ f. HasTaken f.number (known pass.new.seat) pass.old.purse pass.new.purse) }
    ensures none { IfNone result (RanOut pool.now.layout
        (view pass.old.seat) (view pass.new.seat) pass.old.purse pass.new.purse) }
    ensures rest { IsAtRest (known pass.new.seat) pass.new.purse }
    ensures walk { pass.new.walk ≡ pass.old.walk }
{
    match take(pass) {
        Some(fresh) => Some(fresh),
        None => {
            reclaim(pool, pass);
            collect(pool, pass, 1);
            take(pass)
        }
    }
}

/// Stores a value and a nil link in a private record.
pub fn fill(pool: &Pool<QueueShape>, pass: &mut Pass<QueueShape>, fresh: &Fresh, value: u128)
    requires fits { Fits pool.now.table.shared.table_id pool.now.layout pass.old.seat }
    requires private { IsPrivate (known pass.old.seat) pass.old.purse fresh.now.number }
    ensures same { IsSame pass.old.seat pass.new.seat }
    ensures up { StaysUp (known pass.old.seat) (known pass.new.seat) }
    ensures idles { Idles pool.now.layout.passes (view pass.old.seat) (view pass.new.seat) }
    ensures has { HasRecord (known pass.new.seat) pass.new.purse fresh.now.number value }
    ensures lists { SameLists (known pass.old.seat) (known pass.new.seat) }
    ensures walk { pass.new.walk ≡ pass.old.walk }
    ensures purse { pass.new.purse ≡ pass.old.purse }
{
    set_value(pool, pass, fresh, value);
    set_link(
        pool,
        pass,
        fresh,
        Side::Left,
        Link::pack(0, false, false, false, false),
    );
}
