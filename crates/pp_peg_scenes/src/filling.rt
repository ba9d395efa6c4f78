//! Pegs are put back with values of up to 128 bits, and read through a protection.

ghost use Rattle.std.specs.Prelude.{◌≡◌, ◌+◌, ◌<◌, ◌≤◌};
ghost use Rattle.pp_link.specs.Places.{head_place};
ghost use Rattle.pp_rule.specs.Views.{slot};
ghost use Rattle.pp_base.specs.Passes.{known, view, Fits, IsSame, IsIdle, IsAtRest};
ghost use Rattle.pp_base.specs.Sources.{IsReadable};
ghost use Rattle.pp_pool.specs.Taken.{IsPrivate};
ghost use Rattle.pp_scenes.specs.Rows.{HoldsFirst};
ghost use Rattle.pp_peg_scenes.specs.Puts.{HasPeg, PutBack};

use crate::peg_tests::{behind, pull_all};
use crate::pegs::PegShape;
use crate::staging::{SMALLEST, end, open};
use pp_base::steps::{About, NOTHING, exchange_word};
use pp_base::{Pass, Place, Pool, Side};
use pp_hazard::{Protect, clear, key, try_protect, value};
use pp_link::Link;
use pp_pool::{Fresh, published, set_key, set_link, set_value, take};
use std::marker::Brand;
use std::process::Abort;

/// Exchanges the head for a link to a peg that was written, where it leads to the peg behind that one. Gives the word that was
/// found.
fn put_back(pool: &Pool<PegShape>, pass: &mut Pass<PegShape>, fresh: &Fresh) -> u64
    requires fits { Fits pool.now.table.shared.table_id pool.now.layout pass.old.seat }
    requires head { 1 ≤ pool.now.layout.heads }
    requires some_is { 1 ≤ fresh.now.number }
    requires few { fresh.now.number ≤ 5 }
    requires peg { HasPeg fresh.now.number (known pass.old.seat) }
    requires private { IsPrivate (known pass.old.seat) pass.old.purse fresh.now.number }
    ensures same { IsSame pass.old.seat pass.new.seat }
    ensures put { PutBack fresh.now.number (head_place pool.now.layout 0) result (view pass.old.seat) (view pass.new.seat) }
    ensures walk { pass.new.walk ≡ pass.old.walk }
    ensures purse { pass.new.purse ≡ pass.old.purse }
{
    let number = fresh.number();
    let place = pool.layout.head_word(0);
    let first = 16 * behind(number) as u64;
    let about = About {
        number: number as u64,
        ..NOTHING
    };
    exchange_word::<PegShape, Brand>(
        pool,
        &mut pass.seat,
        place,
        first,
        16 * number as u64,
        about,
    )
}

/// Takes the free record that is this peg, writes it with a value, and puts it back before the others.
fn fill(rt: &impl Abort, pool: &Pool<PegShape>, pass: &mut Pass<PegShape>, peg: u32, content: u128)
    requires fits { Fits pool.now.table.shared.table_id pool.now.layout pass.old.seat }
    requires head { 1 ≤ pool.now.layout.heads }
    requires some_is { 1 ≤ peg }
    requires few { peg ≤ 5 }
    requires holds { HoldsFirst 0 (known pass.old.seat) }
    ensures same { IsSame pass.old.seat pass.new.seat }
    ensures holds { HoldsFirst 0 (known pass.new.seat) }
{
    let Some(fresh) = take(pass) else {
        panic!(rt; "no free record");
    };
    assert_eq!(rt; fresh.number(), peg);
    let next = behind(peg);
    set_key(pool, pass, &fresh, peg as u64);
    set_value(pool, pass, &fresh, content);
    let link = Link::pack(next, true, false, false, false);
    set_link(pool, pass, &fresh, Side::Left, link);
    let found = put_back(pool, pass, &fresh);
    assert!(rt; found == 16 * next as u64);
    published(pass, fresh);
}

/// Holds the peg that a link leads to, and reads it: it has this number, and this value.
fn read(
    rt: &impl Abort,
    pool: &Pool<PegShape>,
    pass: &mut Pass<PegShape>,
    source: Place,
    word: u8,
    peg: (u64, u128),
)
    requires fits { Fits pool.now.table.shared.table_id pool.now.layout pass.old.seat }
    requires readable { IsReadable 1 pool.now.layout (known pass.old.seat) source Side.Left }
    requires word { word < 5 }
    requires holds { HoldsFirst word (known pass.old.seat) }
    ensures same { IsSame pass.old.seat pass.new.seat }
    ensures holds { HoldsFirst (word + 1) (known pass.new.seat) }
{
    let Protect::Confirmed(_link) = try_protect(pool, pass, source, Side::Left, word) else {
        panic!(rt; "the peg is out");
    };
    let (number, content) = peg;
    assert_eq!(rt; key(pool, pass, word), number);
    assert_eq!(rt; value(pool, pass, word), content);
}

/// Puts three pegs back, the last one first, and reads all of them, each over the link of the one before it.
fn fill_and_read(rt: &impl Abort, pool: &Pool<PegShape>, pass: &mut Pass<PegShape>)
    requires fits { Fits pool.now.table.shared.table_id pool.now.layout pass.old.seat }
    requires rest { IsAtRest (known pass.old.seat) pass.old.purse }
    requires head { 1 ≤ pool.now.layout.heads }
    requires clear { (slot (known pass.old.seat) 0).named ≡ 0 }
    ensures same { IsSame pass.old.seat pass.new.seat }
    ensures idle { IsIdle pass.new.walk pass.new.purse }
{
    pull_all(rt, pool, pass);
    fill(rt, pool, pass, 5, u128::MAX);
    fill(rt, pool, pass, 4, 1 << 64);
    fill(rt, pool, pass, 3, (1 << 64) - 1);
    read(rt, pool, pass, Place::Head(0), 0, (3, (1 << 64) - 1));
    read(rt, pool, pass, Place::Walk(0), 1, (4, 1 << 64));
    read(rt, pool, pass, Place::Walk(1), 2, (5, u128::MAX));
    clear(pool, pass, 0);
    clear(pool, pass, 1);
    clear(pool, pass, 2);
    assert_eq!(rt; pass.free(), [6, 7, 8, 1, 2].as_slice());
    assert!(rt; pass.idle());
}

#[test]
fn values_of_128_bits_are_read_as_they_were_written(rt: HostRuntime) {
    let (pool, mut passes) = open(&rt, rt.alloc(), SMALLEST);
    fill_and_read(&rt, &pool, &mut passes[0]);
    let closed = end(&rt, rt.alloc(), pool, passes);
    assert_eq!(rt; closed.contents().len(), 3);
    assert_eq!(rt; closed.free(), [1, 2, 6, 7, 8].as_slice());
}
