//! The two records of an insert.

ghost use Rattle.std.specs.Prelude.{◌≡◌, IfSome, IfNone};
ghost use Rattle.pp_base.specs.Passes.{known, view, Fits, IsSame, IsAtRest};
ghost use Rattle.pp_tree_calls.specs.Purses.{HasOut, TakesTwo, TakesNone};

use pp_base::{Pass, Pool};
use pp_edges::TreeShape;
use pp_pool::fresh::{Fresh, take};
use pp_purse::find_free;

/// The two records that are out, or two that are taken now, the leaf's first. Where fewer than two are free, a reclaim pass is
/// made, and then the shelves are tried. None says that fewer than two were found.
pub fn take_records(
    pool: &Pool<TreeShape>,
    pass: &mut Pass<TreeShape>,
    records: Option<(Fresh, Fresh)>,
) -> Option<(Fresh, Fresh)>
    requires fits { Fits pool.now.table.shared.table_id pool.now.layout pass.old.seat }
    requires rest { IsAtRest (known pass.old.seat) pass.old.purse }
    requires out { HasOut (known pass.old.seat) pass.old.purse records }
    ensures same { IsSame pass.old.seat pass.new.seat }
    ensures some { IfSome result (λ f. TakesTwo pool.now.layout records f (view pass.old.seat) (view pass.new.seat)
        pass.old.purse pass.new.purse) }
    ensures none { IfNone result (TakesNone pool.now.layout records (view pass.old.seat) (view pass.new.seat)
        pass.old.purse pass.new.purse) }
    ensures rest { IsAtRest (known pass.new.seat) pass.new.purse }
{
    if let Some(both) = records {
        return Some(both);
    }
    if !find_free(pool, pass, 2) {
        return None;
    }
    let Some(leaf) = take(pass) else {
        unreachable!();
    };
    let Some(inner) = take(pass) else {
        unreachable!();
    };
    Some((leaf, inner))
}
