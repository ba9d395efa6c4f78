//! The record of an insert.

ghost use Rattle.std.specs.Prelude.{◌≡◌, IfSome, IfNone};
ghost use Rattle.pp_base.specs.Passes.{known, view, Fits, IsSame, IsAtRest};
ghost use Rattle.pp_pool.specs.Taken.{IsPrivate};
ghost use Rattle.pp_walk.specs.Effects.{FillsAt};
ghost use Rattle.pp_list.specs.Purses.{HasOut, TakesOne, TakesNone, WritesAside};

use pp_base::{Pass, Pool, Side};
use pp_link::Link;
use pp_pool::fresh::{Fresh, set_key, set_link, set_value, take};
use pp_purse::find_free;
use pp_walk::ListShape;

/// The record that is out, or one that is taken now. Where no record is free, a reclaim pass is made, and then the shelves are
/// tried. None says that none was found.
pub fn take_record(
    pool: &Pool<ListShape>,
    pass: &mut Pass<ListShape>,
    fresh: Option<Fresh>,
) -> Option<Fresh>
    requires fits { Fits pool.now.table.shared.table_id pool.now.layout pass.old.seat }
    requires rest { IsAtRest (known pass.old.seat) pass.old.purse }
    requires out { HasOut (known pass.old.seat) pass.old.purse fresh }
    ensures same { IsSame pass.old.seat pass.new.seat }
    ensures some { IfSome result (λ f. TakesOne pool.now.layout fresh f (view pass.old.seat) (view pass.new.seat)
        pass.old.purse pass.new.purse) }
    ensures none { IfNone result (TakesNone pool.now.layout fresh (view pass.old.seat) (view pass.new.seat)
        pass.old.purse pass.new.purse) }
    ensures rest { IsAtRest (known pass.new.seat) pass.new.purse }
    ensures walk { pass.new.walk ≡ pass.old.walk }
{
    if let Some(fresh) = fresh {
        return Some(fresh);
    }
    if !find_free(pool, pass, 1) {
        return None;
    }
    take(pass)
}

/// Stores a pair and the link to the record behind in a private record.
pub fn fill(
    pool: &Pool<ListShape>,
    pass: &mut Pass<ListShape>,
    fresh: &Fresh,
    pair: (u64, u128),
    end: Link,
)
    requires fits { Fits pool.now.table.shared.table_id pool.now.layout pass.old.seat }
    requires private { IsPrivate (known pass.old.seat) pass.old.purse fresh.now.number }
    ensures same { IsSame pass.old.seat pass.new.seat }
    ensures fills { FillsAt (known pass.new.seat) pass.new.purse fresh.now.number pair.0 pair.1 end }
    ensures writes { WritesAside pool.now.layout (view pass.old.seat) (view pass.new.seat) }
    ensures walk { pass.new.walk ≡ pass.old.walk }
    ensures purse { pass.new.purse ≡ pass.old.purse }
{
    let (key, value) = pair;
    set_key(pool, pass, fresh, key);
    set_value(pool, pass, fresh, value);
    set_link(pool, pass, fresh, Side::Left, end);
    let nil = Link::pack(0, false, false, false, false);
    set_link(pool, pass, fresh, Side::Right, nil);
}
