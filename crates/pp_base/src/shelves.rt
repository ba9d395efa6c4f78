//! The steps at the shelf words, over which free records pass from one pass to another.

ghost use Rattle.std.specs.Prelude.{◌≡◌, ◌≤◌, ◌*◌, ◌<◌, length, IfSome, IfNone};
ghost use Rattle.pp_base.specs.Passes.{Fits, IsSame};
ghost use Rattle.pp_base.specs.Shelves.{TriesShelf, GetsFromShelf, FindsNoneOn};

use crate::pool::{Pass, Pool};
use crate::steps::{NOTHING, exchange_word, swap_word};
use pp_model::lists::enter;
use pp_rule::Shape;
use std::marker::Brand;

/// Exchanges 0 at a shelf word for the last number of the free list. Where 0 stood there, that number stands on the shelf
/// and is no longer free with the pass; else nothing changes. Gives the word that was found.
pub fn shelve<S: Shape>(pool: &Pool<S>, pass: &mut Pass<S>, shelf: u32) -> u64
    requires fits { Fits pool.now.table.shared.table_id pool.now.layout pass.old.seat }
    requires shelf { shelf < 8 * pool.now.layout.passes }
    requires some { 0 < length pass.old.purse.free.items }
    ensures same { IsSame pass.old.seat pass.new.seat }
    ensures made { TriesShelf pool.now.layout shelf result pass.old.seat pass.new.seat pass.old.purse pass.new.purse }
    ensures walk { pass.new.walk ≡ pass.old.walk }
{
    let number = pass.purse.free[pass.purse.free.len() - 1];
    let place = pool.layout.shelf_word(shelf);
    let found = exchange_word::<S, Brand>(pool, &mut pass.seat, place, 0, number as u64, NOTHING);
    if found == 0 {
        pass.purse.free.pop();
    }
    found
}

/// Swaps 0 into a shelf word. Where a number stood there, it is free with the pass, the last one of its free list, and
/// nobody else can get it from this shelf; else nothing changes. Gives that number. It takes no memory.
pub fn unshelve<S: Shape>(pool: &Pool<S>, pass: &mut Pass<S>, shelf: u32) -> Option<u32>
    requires fits { Fits pool.now.table.shared.table_id pool.now.layout pass.old.seat }
    requires shelf { shelf < 8 * pool.now.layout.passes }
    ensures same { IsSame pass.old.seat pass.new.seat }
    ensures some { IfSome result (λ n. GetsFromShelf pool.now.layout shelf n pass.old.seat pass.new.seat pass.old.purse pass.new.purse) }
    ensures number { IfSome result (λ n. (1 ≤ n) × (n ≤ pool.now.layout.records)) }
    ensures none { IfNone result (FindsNoneOn pool.now.layout shelf pass.old.seat pass.new.seat pass.old.purse pass.new.purse) }
    ensures walk { pass.new.walk ≡ pass.old.walk }
{
    let place = pool.layout.shelf_word(shelf);
    let found = swap_word::<S, Brand>(pool, &mut pass.seat, place, 0, NOTHING);
    if found == 0 {
        return None;
    }
    let number = found as u32;
    enter(&mut pass.purse.free, number);
    Some(number)
}
