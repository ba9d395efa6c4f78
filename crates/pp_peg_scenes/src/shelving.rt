//! Free records pass from one pass to another over shelves, as worked by hand.

ghost use Rattle.std.specs.Prelude.{◌≡◌, ◌≤◌};
ghost use Rattle.pp_rule.specs.Views.{slot};
ghost use Rattle.pp_base.specs.Passes.{known, Fits, IsSame, IsIdle, IsAtRest};

use crate::peg_tests::pull;
use crate::pegs::PegShape;
use crate::staging::{end, open};
use pp_base::{Pass, Pool};
use pp_link::Sizes;
use pp_pool::{give_back, set_key, take};
use pp_reclaim::reclaim;
use pp_shelf::{collect, put, take_any, tidy};
use std::process::Abort;

const FIVE_PEGS: Sizes = Sizes {
    passes: 2,
    records: 12,
    heads: 1,
};

/// Pulls out the five pegs and makes their records free: so many more are free than the share has.
fn pull_five(rt: &impl Abort, pool: &Pool<PegShape>, pass: &mut Pass<PegShape>)
    requires fits { Fits pool.now.table.shared.table_id pool.now.layout pass.old.seat }
    requires rest { IsAtRest (known pass.old.seat) pass.old.purse }
    requires head { 1 ≤ pool.now.layout.heads }
    requires clear { (slot (known pass.old.seat) 0).named ≡ 0 }
    ensures same { IsSame pass.old.seat pass.new.seat }
{
    for peg in 1..6 {
        pull(rt, pool, pass, peg);
    }
    assert_eq!(rt; reclaim(pool, pass), 5);
    assert_eq!(rt; pass.free(), [6, 7, 8, 9, 1, 2, 3, 4, 5].as_slice());
}

/// Puts the five last free numbers on shelves. No more are free then than the share has.
fn put_five(rt: &impl Abort, pool: &Pool<PegShape>, pass: &mut Pass<PegShape>)
    requires fits { Fits pool.now.table.shared.table_id pool.now.layout pass.old.seat }
    ensures same { IsSame pass.old.seat pass.new.seat }
    ensures idle { IsIdle pass.new.walk pass.new.purse }
{
    for _ in 0..5 {
        assert!(rt; put(pool, pass));
    }
    assert!(rt; !put(pool, pass));
    assert_eq!(rt; pass.free(), [6, 7, 8, 9].as_slice());
    assert!(rt; pass.idle());
}

/// Takes them from the shelves, the lowest one first, and finds no more.
fn take_five(rt: &impl Abort, pool: &Pool<PegShape>, pass: &mut Pass<PegShape>)
    requires fits { Fits pool.now.table.shared.table_id pool.now.layout pass.old.seat }
    ensures same { IsSame pass.old.seat pass.new.seat }
{
    for count in 0..5 {
        assert_eq!(rt; take_any(pool, pass), Some(5 - count));
    }
    assert!(rt; take_any(pool, pass).is_none());
    assert_eq!(rt; pass.free(), [10, 11, 12, 5, 4, 3, 2, 1].as_slice());
}

/// Takes the record that came last, writes it, and gives it back.
fn use_last(rt: &impl Abort, pool: &Pool<PegShape>, pass: &mut Pass<PegShape>)
    requires fits { Fits pool.now.table.shared.table_id pool.now.layout pass.old.seat }
    ensures same { IsSame pass.old.seat pass.new.seat }
{
    let Some(fresh) = take(pass) else {
        panic!(rt; "no free record");
    };
    assert_eq!(rt; fresh.number(), 1);
    set_key(pool, pass, &fresh, 70);
    give_back(pass, fresh);
}

/// Puts what is beyond the share on shelves, takes some of it and then more than there is, and puts all of it there again.
fn pass_on(rt: &impl Abort, pool: &Pool<PegShape>, pass: &mut Pass<PegShape>)
    requires fits { Fits pool.now.table.shared.table_id pool.now.layout pass.old.seat }
    ensures same { IsSame pass.old.seat pass.new.seat }
    ensures idle { IsIdle pass.new.walk pass.new.purse }
{
    tidy(pool, pass);
    assert_eq!(rt; pass.free(), [10, 11, 12].as_slice());
    assert!(rt; collect(pool, pass, 5));
    assert_eq!(rt; pass.free(), [10, 11, 12, 1, 2].as_slice());
    assert!(rt; !collect(pool, pass, 9));
    assert_eq!(rt; pass.free(), [10, 11, 12, 1, 2, 3, 4, 5].as_slice());
    tidy(pool, pass);
    assert!(rt; pass.idle());
}

/// Frees five records and gives them away.
fn give_five(rt: &impl Abort, pool: &Pool<PegShape>, pass: &mut Pass<PegShape>)
    requires fits { Fits pool.now.table.shared.table_id pool.now.layout pass.old.seat }
    requires rest { IsAtRest (known pass.old.seat) pass.old.purse }
    requires heads { 1 ≤ pool.now.layout.heads }
    requires clear { (slot (known pass.old.seat) 0).named ≡ 0 }
    ensures same { IsSame pass.old.seat pass.new.seat }
    ensures idle { IsIdle pass.new.walk pass.new.purse }
{
    pull_five(rt, pool, pass);
    put_five(rt, pool, pass);
}

/// Uses them, and gives them away again.
fn use_five(rt: &impl Abort, pool: &Pool<PegShape>, pass: &mut Pass<PegShape>)
    requires fits { Fits pool.now.table.shared.table_id pool.now.layout pass.old.seat }
    ensures same { IsSame pass.old.seat pass.new.seat }
    ensures idle { IsIdle pass.new.walk pass.new.purse }
{
    take_five(rt, pool, pass);
    use_last(rt, pool, pass);
    pass_on(rt, pool, pass);
}

#[test]
fn free_records_pass_over_shelves(rt: HostRuntime) {
    let (pool, mut passes) = open(&rt, rt.alloc(), FIVE_PEGS);
    give_five(&rt, &pool, &mut passes[0]);
    use_five(&rt, &pool, &mut passes[1]);
    let closed = end(&rt, rt.alloc(), pool, passes);
    assert_eq!(rt; closed.contents().len(), 0);
    assert_eq!(rt;
        closed.free(),
        [1, 2, 3, 4, 5, 6, 7, 8, 9, 10, 11, 12].as_slice()
    );
}
