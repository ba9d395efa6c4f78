//! The row is opened, walked along and closed, as worked by hand.

ghost use Rattle.std.specs.Prelude.{◌≡◌, ◌+◌, ◌<◌, ◌≤◌};
ghost use Rattle.pp_rule.specs.Views.{slot};
ghost use Rattle.pp_base.specs.Passes.{known, owned_numbers, Fits, IsSame, IsIdle, IsAtRest};
ghost use Rattle.pp_base.specs.Sources.{IsReadable};
ghost use Rattle.pp_pool.specs.Taken.{IsPrivate, Took};
ghost use Rattle.pp_scenes.specs.Rows.{HoldsFirst, GrownBut};

use crate::staging::{SMALL, SMALLEST, end, open};
use pp_base::row::RowShape;
use pp_base::{Pass, Place, Pool, Side};
use pp_hazard::{Protect, clear, key, link, try_protect, value};
use pp_link::{Link, Sizes};
use pp_pool::{Fresh, give_back, set_key, set_link, set_value, take};
use std::process::Abort;

const LARGEST: Sizes = Sizes {
    passes: 64,
    records: 262_144,
    heads: 4096,
};

#[test]
fn a_pool_opens_and_closes(rt: HostRuntime) {
    let (pool, passes) = open::<RowShape>(&rt, rt.alloc(), SMALL);
    let free: [&[u32]; 2] = [&[4, 5, 6], &[7, 8]];
    for number in 0..2 {
        let pass = &passes[number];
        assert_eq!(rt; pass.number() as usize, number);
        assert_eq!(rt; pass.free(), free[number]);
        assert_eq!(rt; pass.share() as usize, free[number].len());
        assert_eq!(rt; pass.retired().len(), 0);
        assert_eq!(rt; pass.chains(), 0);
        assert!(rt; pass.idle());
    }
    let closed = end(&rt, rt.alloc(), pool, passes);
    assert_eq!(rt; closed.contents().len(), 0);
    assert_eq!(rt; closed.free(), [1, 2, 4, 5, 6, 7, 8].as_slice());
}

/// Takes a record, which has this number.
fn take_number(rt: &impl Abort, pass: &mut Pass<RowShape>, number: u32) -> Fresh
    ensures seat { pass.new.seat ≡ pass.old.seat }
    ensures walk { pass.new.walk ≡ pass.old.walk }
    ensures number { result.number ≡ number }
    ensures took { Took number pass.old.purse pass.new.purse }
    ensures private { IsPrivate (known pass.new.seat) pass.new.purse number }
{
    let Some(fresh) = take(pass) else {
        panic!(rt; "no free record");
    };
    assert_eq!(rt; fresh.number(), number);
    fresh
}

/// No record is free with the pass any more, and it isn't idle as long as those that were taken are out.
fn find_none_left(rt: &impl Abort, pass: &mut Pass<RowShape>)
    ensures seat { pass.new.seat ≡ pass.old.seat }
    ensures walk { pass.new.walk ≡ pass.old.walk }
    ensures purse { pass.new.purse ≡ pass.old.purse }
{
    assert!(rt; take(pass).is_none());
    assert_eq!(rt; pass.free().len(), 0);
    assert!(rt; !pass.idle());
}

/// Writes a record that was taken.
fn write(pool: &Pool<RowShape>, pass: &mut Pass<RowShape>, fresh: &Fresh)
    requires fits { Fits pool.now.table.shared.table_id pool.now.layout pass.old.seat }
    requires private { IsPrivate (known pass.old.seat) pass.old.purse fresh.now.number }
    ensures same { IsSame pass.old.seat pass.new.seat }
    ensures owned { owned_numbers (known pass.new.seat) ≡ owned_numbers (known pass.old.seat) }
    ensures walk { pass.new.walk ≡ pass.old.walk }
    ensures purse { pass.new.purse ≡ pass.old.purse }
{
    set_key(pool, pass, fresh, 70);
    set_value(pool, pass, fresh, 700);
    set_link(
        pool,
        pass,
        fresh,
        Side::Left,
        Link::pack(3, false, true, false, false),
    );
}

/// Takes the records that are free with the first pass, the last one first, writes one of them, and gives them back in that
/// order.
fn take_and_give_back(rt: &impl Abort, pool: &Pool<RowShape>, pass: &mut Pass<RowShape>)
    requires fits { Fits pool.now.table.shared.table_id pool.now.layout pass.old.seat }
    ensures same { IsSame pass.old.seat pass.new.seat }
    ensures idle { IsIdle pass.new.walk pass.new.purse }
{
    let six = take_number(rt, pass, 6);
    let five = take_number(rt, pass, 5);
    let four = take_number(rt, pass, 4);
    find_none_left(rt, pass);
    write(pool, pass, &five);
    give_back(pass, six);
    give_back(pass, five);
    give_back(pass, four);
    assert_eq!(rt; pass.free(), [6, 5, 4].as_slice());
    assert!(rt; pass.idle());
}

#[test]
fn records_are_taken_and_given_back(rt: HostRuntime) {
    let (pool, mut passes) = open(&rt, rt.alloc(), SMALL);
    take_and_give_back(&rt, &pool, &mut passes[0]);
    let closed = end(&rt, rt.alloc(), pool, passes);
    assert_eq!(rt; closed.contents().len(), 0);
    assert_eq!(rt; closed.free(), [1, 2, 4, 5, 6, 7, 8].as_slice());
}

/// Holds the record that a link leads to in the first walk word that is 0.
pub(crate) fn hold(
    rt: &impl Abort,
    pool: &Pool<RowShape>,
    pass: &mut Pass<RowShape>,
    source: Place,
    word: u8,
) -> Link
    requires fits { Fits pool.now.table.shared.table_id pool.now.layout pass.old.seat }
    requires readable { IsReadable 1 pool.now.layout (known pass.old.seat) source Side.Left }
    requires word { word < 5 }
    requires holds { HoldsFirst word (known pass.old.seat) }
    ensures same { IsSame pass.old.seat pass.new.seat }
    ensures holds { HoldsFirst (word + 1) (known pass.new.seat) }
    ensures number { (slot (known pass.new.seat) word).named ≡ result.number }
    ensures learnt { GrownBut word (known pass.old.seat) (known pass.new.seat) }
    ensures rest { IsAtRest (known pass.old.seat) pass.old.purse → IsAtRest (known pass.new.seat) pass.new.purse }
    ensures purse { pass.new.purse ≡ pass.old.purse }
{
    match try_protect(pool, pass, source, Side::Left, word) {
        Protect::Confirmed(link) => link,
        answer => panic!(rt; "{answer:?}"),
    }
}

/// Holds the three records of the row one after another, reads them, and lets them go.
fn walk_along(rt: &impl Abort, pool: &Pool<RowShape>, pass: &mut Pass<RowShape>)
    requires fits { Fits pool.now.table.shared.table_id pool.now.layout pass.old.seat }
    requires head { 1 ≤ pool.now.layout.heads }
    requires holds { HoldsFirst 0 (known pass.old.seat) }
    ensures same { IsSame pass.old.seat pass.new.seat }
    ensures idle { IsIdle pass.new.walk pass.new.purse }
{
    assert_eq!(rt; hold(rt, pool, pass, Place::Head(0), 0).word(), 16);
    assert_eq!(rt; hold(rt, pool, pass, Place::Walk(0), 1).word(), 33);
    assert_eq!(rt; hold(rt, pool, pass, Place::Walk(1), 2).word(), 49);
    let last = try_protect(pool, pass, Place::Walk(2), Side::Left, 3);
    let nil = Link::pack(0, false, false, false, false);
    assert_eq!(rt; last, Protect::Nil(nil));
    assert_eq!(rt; link(pool, pass, Place::Walk(0), Side::Left).word(), 33);
    assert_eq!(rt; key(pool, pass, 1), 2);
    assert_eq!(rt; value(pool, pass, 2), 30);
    clear(pool, pass, 0);
    clear(pool, pass, 1);
    assert!(rt; !pass.idle());
    clear(pool, pass, 2);
    assert!(rt; pass.idle());
}

#[test]
fn a_pass_walks_along_the_row(rt: HostRuntime) {
    let (pool, mut passes) = open(&rt, rt.alloc(), SMALL);
    walk_along(&rt, &pool, &mut passes[0]);
    let closed = end(&rt, rt.alloc(), pool, passes);
    assert_eq!(rt; closed.contents().len(), 0);
    assert_eq!(rt; closed.free(), [1, 2, 4, 5, 6, 7, 8].as_slice());
}

#[test]
fn pools_are_small_or_large(rt: HostRuntime) {
    for (sizes, dealt, free) in [(SMALLEST, 5, 7), (LARGEST, 262_141, 262_143)] {
        let (pool, passes) = open::<RowShape>(&rt, rt.alloc(), sizes);
        let mut count = 0usize;
        for pass in &passes {
            count = count.saturating_add(pass.free().len());
        }
        assert_eq!(rt; count, dealt);
        let closed = end(&rt, rt.alloc(), pool, passes);
        assert_eq!(rt; closed.free().len(), free);
    }
}
