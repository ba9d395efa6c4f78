//! Two passes find that two records of the row were removed. One detaches them, and reclaims each once no hazard word names it.

ghost use Rattle.std.specs.Prelude.{◌≡◌, ◌+◌, ◌*◌, ◌<◌, ◌≤◌, true, [], ◌∷◌, ◌++◌};
ghost use Rattle.pp_link.specs.Links.{word_of, target};
ghost use Rattle.pp_link.specs.Places.{head_place};
ghost use Rattle.pp_rule.specs.Views.{slot};
ghost use Rattle.pp_base.specs.Passes.{known, Fits, IsSame, IsIdle, IsAtRest};
ghost use Rattle.pp_base.specs.Sources.{IsReadable};
ghost use Rattle.pp_base.specs.Row.{has_flag, MayCut};
ghost use Rattle.pp_scenes.specs.Rows.{HoldsFirst, Knows, GrownBut};

use crate::staging::{SMALL, end, open};
use crate::tests::hold;
use pp_base::row::RowShape;
use pp_base::{Pass, Place, Pool, Side};
use pp_hazard::{Protect, clear, key, link, try_protect};
use pp_link::Link;
use pp_reclaim::reclaim;
use pp_unlink::{Unlink, try_unlink};
use std::process::Abort;

/// The link that leads to a record and has no bit: its word is 16 times the number.
fn to(number: u32) -> Link
    ensures { word_of result ≡ 16 * number }
{
    Link::pack(number, false, false, false, false)
}

/// Holds the record that a link leads to in a walk word, and loads the record's own link. The words of both links are these.
/// Where the second has FLAG, the pass has learnt it.
fn hold_and_load(
    rt: &impl Abort,
    pool: &Pool<RowShape>,
    pass: &mut Pass<RowShape>,
    source: Place,
    word: u8,
    words: (u64, u64),
)
    requires fits { Fits pool.now.table.shared.table_id pool.now.layout pass.old.seat }
    requires readable { IsReadable 1 pool.now.layout (known pass.old.seat) source Side.Left }
    requires word { word < 5 }
    requires holds { HoldsFirst word (known pass.old.seat) }
    requires rest { IsAtRest (known pass.old.seat) pass.old.purse }
    ensures same { IsSame pass.old.seat pass.new.seat }
    ensures holds { HoldsFirst (word + 1) (known pass.new.seat) }
    ensures knows { has_flag words.1 ≡ true → Knows word (target words.0) words.1 (known pass.new.seat) }
    ensures learnt { GrownBut word (known pass.old.seat) (known pass.new.seat) }
    ensures rest { IsAtRest (known pass.new.seat) pass.new.purse }
{
    let (held, loaded) = words;
    assert_eq!(rt; hold(rt, pool, pass, source, word).word(), held);
    assert_eq!(rt;
        link(pool, pass, Place::Walk(word), Side::Left).word(),
        loaded
    );
}

/// Holds the three records of the row one after another, and learns that the first two were removed.
fn learn_row(rt: &impl Abort, pool: &Pool<RowShape>, pass: &mut Pass<RowShape>)
    requires fits { Fits pool.now.table.shared.table_id pool.now.layout pass.old.seat }
    requires head { 1 ≤ pool.now.layout.heads }
    requires holds { HoldsFirst 0 (known pass.old.seat) }
    requires rest { IsAtRest (known pass.old.seat) pass.old.purse }
    ensures same { IsSame pass.old.seat pass.new.seat }
    ensures holds { HoldsFirst 3 (known pass.new.seat) }
    ensures may { MayCut pool.now.layout (known pass.new.seat).walk (head_place pool.now.layout 0) 16 48 }
    ensures rest { IsAtRest (known pass.new.seat) pass.new.purse }
{
    hold_and_load(rt, pool, pass, Place::Head(0), 0, (16, 33));
    hold_and_load(rt, pool, pass, Place::Walk(0), 1, (33, 49));
    hold_and_load(rt, pool, pass, Place::Walk(1), 2, (49, 0));
}

/// Leads the head past the first two records: they are a chain in hand.
fn detach(rt: &impl Abort, pool: &Pool<RowShape>, pass: &mut Pass<RowShape>)
    requires fits { Fits pool.now.table.shared.table_id pool.now.layout pass.old.seat }
    requires head { 1 ≤ pool.now.layout.heads }
    requires may { MayCut pool.now.layout (known pass.old.seat).walk (head_place pool.now.layout 0) 16 48 }
    requires rest { IsAtRest (known pass.old.seat) pass.old.purse }
    ensures same { IsSame pass.old.seat pass.new.seat }
    ensures rest { IsAtRest (known pass.new.seat) pass.new.purse }
{
    let answer = try_unlink(pool, pass, Place::Head(0), Side::Left, to(1), to(3));
    assert_eq!(rt; answer, Unlink::Detached);
    assert_eq!(rt; pass.chains(), 1);
}

/// Tries the same where it was done before: the pass holds what it held, and guards nothing.
fn come_too_late(rt: &impl Abort, pool: &Pool<RowShape>, pass: &mut Pass<RowShape>)
    requires fits { Fits pool.now.table.shared.table_id pool.now.layout pass.old.seat }
    requires head { 1 ≤ pool.now.layout.heads }
    requires may { MayCut pool.now.layout (known pass.old.seat).walk (head_place pool.now.layout 0) 16 48 }
    requires rest { IsAtRest (known pass.old.seat) pass.old.purse }
    ensures same { IsSame pass.old.seat pass.new.seat }
    ensures held { (known pass.new.seat).walk ≡ (known pass.old.seat).walk }
{
    let answer = try_unlink(pool, pass, Place::Head(0), Side::Left, to(1), to(3));
    assert_eq!(rt; answer, Unlink::Changed(to(3)));
    assert_eq!(rt; pass.chains(), 0);
    assert_eq!(rt; pass.purse.frontier, [0; 4]);
}

/// Lets the first and the third record go, and holds the second one still.
fn keep_the_second(pool: &Pool<RowShape>, pass: &mut Pass<RowShape>)
    requires fits { Fits pool.now.table.shared.table_id pool.now.layout pass.old.seat }
    requires holds { HoldsFirst 3 (known pass.old.seat) }
    ensures same { IsSame pass.old.seat pass.new.seat }
    ensures second { (slot (known pass.new.seat) 1).held ≡ true }
    ensures third { (slot (known pass.new.seat) 2).named ≡ 0 }
{
    clear(pool, pass, 0);
    clear(pool, pass, 2);
}

/// Lets all three go.
fn let_go(pool: &Pool<RowShape>, pass: &mut Pass<RowShape>)
    requires fits { Fits pool.now.table.shared.table_id pool.now.layout pass.old.seat }
    requires rest { IsAtRest (known pass.old.seat) pass.old.purse }
    ensures same { IsSame pass.old.seat pass.new.seat }
    ensures rest { IsAtRest (known pass.new.seat) pass.new.purse }
{
    clear(pool, pass, 0);
    clear(pool, pass, 1);
    clear(pool, pass, 2);
}

/// Reclaims one record: these are retired then, and these are free.
fn reclaim_one(
    rt: &impl Abort,
    pool: &Pool<RowShape>,
    pass: &mut Pass<RowShape>,
    retired: &[u32],
    free: &[u32],
)
    requires fits { Fits pool.now.table.shared.table_id pool.now.layout pass.old.seat }
    requires rest { IsAtRest (known pass.old.seat) pass.old.purse }
    ensures same { IsSame pass.old.seat pass.new.seat }
    ensures rest { IsAtRest (known pass.new.seat) pass.new.purse }
{
    assert_eq!(rt; reclaim(pool, pass), 1);
    assert_eq!(rt; pass.retired(), retired);
    assert_eq!(rt; pass.free(), free);
}

/// Reads the second record, which was detached since it was held: no record is protected over its link, and what it was
/// published with stands in it still.
fn read_the_second(rt: &impl Abort, pool: &Pool<RowShape>, pass: &mut Pass<RowShape>)
    requires fits { Fits pool.now.table.shared.table_id pool.now.layout pass.old.seat }
    requires second { (slot (known pass.old.seat) 1).held ≡ true }
    requires third { (slot (known pass.old.seat) 2).named ≡ 0 }
    ensures same { IsSame pass.old.seat pass.new.seat }
{
    let answer = try_protect(pool, pass, Place::Walk(1), Side::Left, 2);
    assert_eq!(rt; answer, Protect::Invalid);
    assert_eq!(rt; link(pool, pass, Place::Walk(1), Side::Left).word(), 53);
    assert_eq!(rt; key(pool, pass, 1), 2);
}

/// One pass detaches two records and reclaims one of them. The other pass holds the second one as long as it reads it.
fn detach_and_reclaim(
    rt: &impl Abort,
    pool: &Pool<RowShape>,
    first: &mut Pass<RowShape>,
    second: &mut Pass<RowShape>,
)
    requires fits { Fits pool.now.table.shared.table_id pool.now.layout first.old.seat }
    requires fits_too { Fits pool.now.table.shared.table_id pool.now.layout second.old.seat }
    requires head { 1 ≤ pool.now.layout.heads }
    requires holds { HoldsFirst 0 (known first.old.seat) }
    requires holds_too { HoldsFirst 0 (known second.old.seat) }
    requires rest { IsAtRest (known first.old.seat) first.old.purse }
    requires rest_too { IsAtRest (known second.old.seat) second.old.purse }
    ensures same { IsSame first.old.seat first.new.seat }
    ensures same_too { IsSame second.old.seat second.new.seat }
    ensures idle { IsIdle first.new.walk first.new.purse }
    ensures idle_too { IsIdle second.new.walk second.new.purse }
{
    learn_row(rt, pool, first);
    learn_row(rt, pool, second);
    detach(rt, pool, first);
    come_too_late(rt, pool, second);
    keep_the_second(pool, second);
    let_go(pool, first);
    reclaim_one(rt, pool, first, &[2], &[4, 5, 6, 1]);
    read_the_second(rt, pool, second);
    clear(pool, second, 1);
    reclaim_one(rt, pool, first, &[], &[4, 5, 6, 1, 2]);
    assert!(rt; first.idle());
    assert!(rt; second.idle());
}

/// The last pass of the list.
fn last_pass(rt: &impl Abort, passes: &mut Vec<Pass<RowShape>>) -> Pass<RowShape>
    ensures { passes.old.items ≡ passes.new.items ++ result ∷ [] }
{
    let Some(pass) = passes.pop() else {
        panic!(rt; "no pass");
    };
    pass
}

/// Appends a pass.
fn append(rt: &impl Abort, passes: &mut Vec<Pass<RowShape>>, pass: Pass<RowShape>)
    ensures { passes.new.items ≡ passes.old.items ++ pass ∷ [] }
{
    match passes.push(pass) {
        Ok(()) => {}
        Err(_refused) => panic!(rt; "no memory"),
    }
}

#[test]
fn two_passes_detach_and_reclaim(rt: HostRuntime) {
    let (pool, mut passes) = open(&rt, rt.alloc(), SMALL);
    let mut second = last_pass(&rt, &mut passes);
    let mut first = last_pass(&rt, &mut passes);
    detach_and_reclaim(&rt, &pool, &mut first, &mut second);
    append(&rt, &mut passes, first);
    append(&rt, &mut passes, second);
    let closed = end(&rt, rt.alloc(), pool, passes);
    assert_eq!(rt; closed.contents().len(), 0);
    assert_eq!(rt; closed.free(), [1, 2, 4, 5, 6, 7, 8].as_slice());
}
