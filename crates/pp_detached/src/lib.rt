//! Letting a record go, told with it: what the pass detached can't be reached any more. The layers above use `clear_after` in the place of
//! `pp_hazard`'s `clear`, where an answer rests on what was detached.
#![tactic(auto)]

ghost use Rattle.std.specs.Prelude.{◌≡◌, ◌<◌};
ghost use Rattle.pp_rule.specs.Opening.{opening_words};
ghost use Rattle.pp_base.specs.Passes.{known, view, Fits, IsSame};
ghost use Rattle.pp_base.specs.Made.{ClearedWord};
ghost use Rattle.pp_detached.specs.Gone.{AreGone};

use pp_base::steps::{About, NOTHING, store_word};
use pp_base::{Pass, Pool};
use pp_rule::Shape;
use std::marker::Brand;

/// Stores 0 into a walk word: what was held in it is no longer held. At that step no record of a chain that the pass has in
/// hand can be reached from a head.
pub fn clear_after<S: Shape>(pool: &Pool<S>, pass: &mut Pass<S>, word: u8)
    requires fits { Fits pool.now.table.shared.table_id pool.now.layout pass.old.seat }
    requires word { word < 5 }
    ensures same { IsSame pass.old.seat pass.new.seat }
    ensures made { ClearedWord pool.now.layout S.forget word pass.old.seat pass.new.seat }
    ensures gone { AreGone S.SIDES pool.now.layout (opening_words S.SENTINELS S.first_head S.first_field pool.now.layout)
        (view pass.new.seat) }
    ensures purse { pass.new.purse ≡ pass.old.purse }
{
    let place = pool.layout.walk_word(pass.number, word);
    let about = About { word, ..NOTHING };
    store_word::<S, Brand>(pool, &mut pass.seat, place, 0, about);
    pass.walk[word as usize] = 0;
}
