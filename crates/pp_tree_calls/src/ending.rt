//! The end of a call: its walk words are cleared, and a call that may have changed its tree tidies the purse of its pass.

ghost use Rattle.std.specs.Prelude.{◌≡◌, true, None};
ghost use Rattle.pp_base.specs.Passes.{known, view, Fits, IsSame, IsAtRest};
ghost use Rattle.pp_turns.specs.Passes.{IsResting};
ghost use Rattle.pp_turns.specs.Purses.{GaveBackOut};
ghost use Rattle.pp_tree_calls.specs.Purses.{HasOut, LooksAway, TidiesUp, Leaves, PutsAway, out_of};

use pp_base::{Pass, Pool};
use pp_edges::TreeShape;
use pp_model::Call;
use pp_pool::fresh::{Fresh, give_back};
use pp_purse::tidy;
use pp_seek::Seek;

/// Says whether a call is going on a pass.
pub fn set_going(pass: &mut Pass<TreeShape>, going: bool)
    ensures seat { pass.new.seat ≡ pass.old.seat }
    ensures walk { pass.new.walk ≡ pass.old.walk }
    ensures share { pass.new.share ≡ pass.old.share }
    ensures purse { pass.new.purse ≡ record pass.old.purse { going = going } }
{
    pass.purse.going = going;
}

/// Gives back the two records that are out, if there are any.
fn give(pass: &mut Pass<TreeShape>, records: Option<(Fresh, Fresh)>)
    requires out { HasOut (known pass.old.seat) pass.old.purse records }
    requires rest { IsAtRest (known pass.old.seat) pass.old.purse }
    ensures seat { pass.new.seat ≡ pass.old.seat }
    ensures walk { pass.new.walk ≡ pass.old.walk }
    ensures gave { GaveBackOut (out_of records) pass.old.purse pass.new.purse }
    ensures rest { IsAtRest (known pass.new.seat) pass.new.purse }
{
    if let Some((leaf, inner)) = records {
        give_back(pass, leaf);
        give_back(pass, inner);
    }
}

/// Ends a call that only looks: its walk words are cleared.
pub fn end_look(pool: &Pool<TreeShape>, pass: &mut Pass<TreeShape>, call: Call)
    requires fits { Fits pool.now.table.shared.table_id pool.now.layout pass.old.seat }
    requires rest { IsAtRest (known pass.old.seat) pass.old.purse }
    requires none { pass.old.purse.taken ≡ 0 }
    ensures same { IsSame pass.old.seat pass.new.seat }
    ensures looks { LooksAway (view pass.old.seat) (view pass.new.seat) pass.old.purse pass.new.purse }
    ensures resting { IsResting pass.new }
{
    Seek::again(call).done(pool, pass);
    set_going(pass, false);
}

/// Ends a call that may have changed its tree: its walk words are cleared, its records are given back if it still has them,
/// and the purse is tidied.
pub fn end_change(
    pool: &Pool<TreeShape>,
    pass: &mut Pass<TreeShape>,
    call: Call,
    records: Option<(Fresh, Fresh)>,
)
    requires fits { Fits pool.now.table.shared.table_id pool.now.layout pass.old.seat }
    requires rest { IsAtRest (known pass.old.seat) pass.old.purse }
    requires out { HasOut (known pass.old.seat) pass.old.purse records }
    ensures same { IsSame pass.old.seat pass.new.seat }
    ensures tidies { TidiesUp pool.now.layout pass.old.share records (view pass.old.seat) (view pass.new.seat)
        pass.old.purse pass.new.purse }
    ensures resting { IsResting pass.new }
{
    Seek::again(call).done(pool, pass);
    give(pass, records);
    tidy(pool, pass);
    set_going(pass, false);
}

/// Ends a call, by whether it only looked.
pub fn finish(
    pool: &Pool<TreeShape>,
    pass: &mut Pass<TreeShape>,
    looks: bool,
    call: Call,
    records: Option<(Fresh, Fresh)>,
)
    requires fits { Fits pool.now.table.shared.table_id pool.now.layout pass.old.seat }
    requires rest { IsAtRest (known pass.old.seat) pass.old.purse }
    requires out { HasOut (known pass.old.seat) pass.old.purse records }
    requires none { looks ≡ true → records ≡ None }
    ensures same { IsSame pass.old.seat pass.new.seat }
    ensures leaves { Leaves looks pool.now.layout pass.old.share records (view pass.old.seat) (view pass.new.seat)
        pass.old.purse pass.new.purse }
    ensures resting { IsResting pass.new }
{
    if looks {
        return end_look(pool, pass, call);
    }
    end_change(pool, pass, call, records);
}

/// Ends an insert that found too few records: its walk words are cleared, and what is free beyond the share goes to the shelves.
pub fn end_full(pool: &Pool<TreeShape>, pass: &mut Pass<TreeShape>, call: Call)
    requires fits { Fits pool.now.table.shared.table_id pool.now.layout pass.old.seat }
    requires rest { IsAtRest (known pass.old.seat) pass.old.purse }
    requires none { pass.old.purse.taken ≡ 0 }
    ensures same { IsSame pass.old.seat pass.new.seat }
    ensures puts { PutsAway pool.now.layout pass.old.share (view pass.old.seat) (view pass.new.seat) pass.old.purse pass.new.purse }
    ensures resting { IsResting pass.new }
{
    Seek::again(call).done(pool, pass);
    pp_shelf::tidy(pool, pass);
    set_going(pass, false);
}
