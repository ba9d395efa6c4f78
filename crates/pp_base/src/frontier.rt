//! The steps at the frontier words of a pass that guard no chain.

ghost use Rattle.std.specs.Prelude.{◌≡◌, ◌<◌};
ghost use Rattle.pp_rule.specs.Steps.{IsUnused};
ghost use Rattle.pp_base.specs.Passes.{known, Fits, IsSame};
ghost use Rattle.pp_base.specs.Chains.{GuardedBy, Unguarded, with_guard};

use crate::pool::{Pass, Pool};
use crate::steps::{About, NOTHING, store_word};
use pp_rule::Shape;
use std::marker::Brand;

/// Stores a number into a frontier word that guards no chain: the record that a chain will lead to, which is to be detached.
pub fn guard<S: Shape>(pool: &Pool<S>, pass: &mut Pass<S>, word: u8, number: u32)
    requires fits { Fits pool.now.table.shared.table_id pool.now.layout pass.old.seat }
    requires word { word < 4 }
    requires unused { IsUnused word (known pass.old.seat) }
    ensures same { IsSame pass.old.seat pass.new.seat }
    ensures made { GuardedBy pool.now.layout word number pass.old.seat pass.new.seat }
    ensures walk { pass.new.walk ≡ pass.old.walk }
    ensures purse { pass.new.purse ≡ with_guard word number pass.old.purse }
{
    let place = pool.layout.frontier_word(pass.number, word);
    let about = About { word, ..NOTHING };
    store_word::<S, Brand>(pool, &mut pass.seat, place, number as u64, about);
    pass.purse.frontier[word as usize] = number;
}

/// Clears a frontier word that guards no chain, after the exchange that was to detach one found another word.
pub fn unguard<S: Shape>(pool: &Pool<S>, pass: &mut Pass<S>, word: u8)
    requires fits { Fits pool.now.table.shared.table_id pool.now.layout pass.old.seat }
    requires word { word < 4 }
    requires unused { IsUnused word (known pass.old.seat) }
    ensures same { IsSame pass.old.seat pass.new.seat }
    ensures made { Unguarded pool.now.layout word pass.old.seat pass.new.seat }
    ensures walk { pass.new.walk ≡ pass.old.walk }
    ensures purse { pass.new.purse ≡ with_guard word 0 pass.old.purse }
{
    let place = pool.layout.frontier_word(pass.number, word);
    let about = About { word, ..NOTHING };
    store_word::<S, Brand>(pool, &mut pass.seat, place, 0, about);
    pass.purse.frontier[word as usize] = 0;
}
