//! The end of a call: its walk words are cleared, and a call that may have changed its list tidies the purse of its pass.

ghost use Rattle.std.specs.Prelude.{◌≡◌, true};
ghost use Rattle.pp_base.specs.Passes.{known, view, Fits, IsSame, IsAtRest};
ghost use Rattle.pp_turns.specs.Passes.{IsResting};
ghost use Rattle.pp_walk.specs.Words.{AllEmpty};
ghost use Rattle.pp_turns.specs.Purses.{GaveBackOut};
ghost use Rattle.pp_list.specs.Purses.{HasOut, LooksAway, TidiesUp, Leaves, out_of};

use pp_base::{Pass, Pool};
use pp_pool::fresh::{Fresh, give_back};
use pp_purse::tidy;
use pp_walk::ListShape;
use pp_walk::words::rest;

/// Says whether a call is going on a pass.
pub fn set_going(pass: &mut Pass<ListShape>, going: bool)
    ensures seat { pass.new.seat ≡ pass.old.seat }
    ensures walk { pass.new.walk ≡ pass.old.walk }
    ensures share { pass.new.share ≡ pass.old.share }
    ensures purse { pass.new.purse ≡ record pass.old.purse { going = going } }
{
    pass.purse.going = going;
}

/// Gives back the record that is out, if there is one.
fn give(pass: &mut Pass<ListShape>, fresh: Option<Fresh>)
    requires out { HasOut (known pass.old.seat) pass.old.purse fresh }
    requires rest { IsAtRest (known pass.old.seat) pass.old.purse }
    ensures seat { pass.new.seat ≡ pass.old.seat }
    ensures walk { pass.new.walk ≡ pass.old.walk }
    ensures gave { GaveBackOut (out_of fresh) pass.old.purse pass.new.purse }
    ensures rest { IsAtRest (known pass.new.seat) pass.new.purse }
{
    if let Some(fresh) = fresh {
        give_back(pass, fresh);
    }
}

/// Ends a call that only looks: its walk words are cleared.
pub fn end_look(pool: &Pool<ListShape>, pass: &mut Pass<ListShape>)
    requires fits { Fits pool.now.table.shared.table_id pool.now.layout pass.old.seat }
    requires rest { IsAtRest (known pass.old.seat) pass.old.purse }
    requires none { pass.old.purse.taken ≡ 0 }
    ensures same { IsSame pass.old.seat pass.new.seat }
    ensures looks { LooksAway (view pass.old.seat) (view pass.new.seat) pass.old.purse pass.new.purse }
    ensures resting { IsResting pass.new }
{
    rest(pool, pass);
    set_going(pass, false);
}

/// Ends a call that may have changed its list: its walk words are cleared, its record is given back if it still has one, and
/// the purse is tidied.
pub fn end_change(pool: &Pool<ListShape>, pass: &mut Pass<ListShape>, fresh: Option<Fresh>)
    requires fits { Fits pool.now.table.shared.table_id pool.now.layout pass.old.seat }
    requires rest { IsAtRest (known pass.old.seat) pass.old.purse }
    requires out { HasOut (known pass.old.seat) pass.old.purse fresh }
    ensures same { IsSame pass.old.seat pass.new.seat }
    ensures tidies { TidiesUp pool.now.layout pass.old.share fresh (view pass.old.seat) (view pass.new.seat) pass.old.purse pass.new.purse }
    ensures resting { IsResting pass.new }
{
    rest(pool, pass);
    give(pass, fresh);
    tidy(pool, pass);
    set_going(pass, false);
}

/// Ends a call, by whether it only looked.
pub fn finish(pool: &Pool<ListShape>, pass: &mut Pass<ListShape>, looks: bool, fresh: Option<Fresh>)
    requires fits { Fits pool.now.table.shared.table_id pool.now.layout pass.old.seat }
    requires rest { IsAtRest (known pass.old.seat) pass.old.purse }
    requires out { HasOut (known pass.old.seat) pass.old.purse fresh }
    requires none { looks ≡ true → fresh ≡ None }
    ensures same { IsSame pass.old.seat pass.new.seat }
    ensures leaves { Leaves looks pool.now.layout pass.old.share fresh (view pass.old.seat) (view pass.new.seat)
        pass.old.purse pass.new.purse }
    ensures resting { IsResting pass.new }
{
    if looks {
        return end_look(pool, pass);
    }
    end_change(pool, pass, fresh);
}
