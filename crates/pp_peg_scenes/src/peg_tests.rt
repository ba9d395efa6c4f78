//! Pegs are pulled out one after another, as worked by hand.

ghost use Rattle.std.specs.Prelude.{◌≡◌, ◌≤◌};
ghost use Rattle.pp_rule.specs.Views.{slot};
ghost use Rattle.pp_base.specs.Passes.{known, Fits, IsSame, IsIdle, IsAtRest};
ghost use Rattle.pp_peg_scenes.specs.Pegs.{next_peg};

use crate::pegs::PegShape;
use crate::staging::{SMALLEST, end, open};
use pp_base::{Pass, Place, Pool, Side};
use pp_hazard::{Protect, clear, link, try_protect};
use pp_link::Link;
use pp_reclaim::reclaim;
use pp_unlink::{Unlink, try_unlink};
use std::process::Abort;

/// The peg behind this one, or 0 behind the last one.
pub(crate) fn behind(peg: u32) -> u32
    requires { peg ≤ 5 }
    ensures { result ≡ next_peg peg }
{
    if peg < 5 { peg + 1 } else { 0 }
}

/// Pulls out the first peg that stands, which has this number: the pass holds it in its first walk word, learns its link, leads
/// the head past it, and lets it go.
pub(crate) fn pull(rt: &impl Abort, pool: &Pool<PegShape>, pass: &mut Pass<PegShape>, peg: u32)
    requires fits { Fits pool.now.table.shared.table_id pool.now.layout pass.old.seat }
    requires rest { IsAtRest (known pass.old.seat) pass.old.purse }
    requires some_is { 1 ≤ peg }
    requires few { peg ≤ 5 }
    requires head { 1 ≤ pool.now.layout.heads }
    requires clear { (slot (known pass.old.seat) 0).named ≡ 0 }
    ensures same { IsSame pass.old.seat pass.new.seat }
    ensures rest { IsAtRest (known pass.new.seat) pass.new.purse }
    ensures clear { (slot (known pass.new.seat) 0).named ≡ 0 }
{
    let at = Place::Head(0);
    let Protect::Confirmed(first) = try_protect(pool, pass, at, Side::Left, 0) else {
        panic!(rt; "the peg {peg} is out");
    };
    assert!(rt; first.word() == 16 * peg as u64);
    let next = behind(peg);
    let learnt = link(pool, pass, Place::Walk(0), Side::Left);
    assert!(rt; learnt.word() == 16 * next as u64 + 1);
    let past = Link::pack(next, false, false, false, false);
    let answer = try_unlink(pool, pass, at, Side::Left, first, past);
    assert_eq!(rt; answer, Unlink::Detached);
    clear(pool, pass, 0);
}

/// Pulls out the first four pegs, then the last one, and makes all five free.
pub(crate) fn pull_all(rt: &impl Abort, pool: &Pool<PegShape>, pass: &mut Pass<PegShape>)
    requires fits { Fits pool.now.table.shared.table_id pool.now.layout pass.old.seat }
    requires rest { IsAtRest (known pass.old.seat) pass.old.purse }
    requires head { 1 ≤ pool.now.layout.heads }
    requires clear { (slot (known pass.old.seat) 0).named ≡ 0 }
    ensures same { IsSame pass.old.seat pass.new.seat }
    ensures idle { IsIdle pass.new.walk pass.new.purse }
{
    for peg in 1..5 {
        pull(rt, pool, pass, peg);
        assert_eq!(rt; pass.chains(), peg);
    }
    assert_eq!(rt; pass.retired().len(), 0);
    pull(rt, pool, pass, 5);
    assert_eq!(rt; pass.chains(), 1);
    assert_eq!(rt; pass.retired(), [1, 2, 3, 4].as_slice());
    assert_eq!(rt; reclaim(pool, pass), 5);
    assert_eq!(rt; pass.free(), [6, 7, 8, 1, 2, 3, 4, 5].as_slice());
    assert_eq!(rt; pass.retired().len(), 0);
    assert_eq!(rt; pass.chains(), 0);
    assert!(rt; pass.idle());
}

#[test]
fn a_fifth_chain_flushes_the_first_four(rt: HostRuntime) {
    let (pool, mut passes) = open(&rt, rt.alloc(), SMALLEST);
    pull_all(&rt, &pool, &mut passes[0]);
    let closed = end(&rt, rt.alloc(), pool, passes);
    assert_eq!(rt; closed.contents().len(), 0);
    assert_eq!(rt; closed.free(), [1, 2, 3, 4, 5, 6, 7, 8].as_slice());
}
