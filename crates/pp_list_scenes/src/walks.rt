//! Walks alone, turn by turn: what they find, and which records they hold.

ghost use Rattle.std.specs.Prelude.{◌≡◌};
ghost use Rattle.pp_model.specs.Calls.{key_of};
ghost use Rattle.pp_list_scenes.specs.Staff.{IsReady, IsWalking};

use crate::staging::{
    RACES, add_all, begin, go_on, open_one, open_three, open_two, reclaim_so_many, remove,
};
use pp_base::{Pass, Place};
use pp_buckets::Buckets;
use pp_model::Call;
use pp_walk::{Found, ListShape, Turn, Walk};
use std::process::Abort;

/// A pass names these records in its walk words, and no others.
fn holds(rt: &impl Abort, pass: &Pass<ListShape>, held: &[u32]) {
    for number in held {
        assert!(rt; pass.walk.contains(number));
    }
    let mut named = 0usize;
    for number in pass.walk {
        if number != 0 {
            named = named.saturating_add(1);
        }
    }
    assert_eq!(rt; named, held.len());
}

/// Begins a walk of a call with this key.
fn set_out(table: &Buckets, pass: &mut Pass<ListShape>, key: u64, call: Call) -> Walk
    requires ready { IsReady table.now pass.old }
    requires key { key_of call ≡ key }
    ensures walking { IsWalking table.now pass.new result }
{
    Walk::begin(table.bucket(key), call)
}

/// Makes so many turns of a walk, each of which comes to a greater key.
fn walk_on(
    rt: &impl Abort,
    table: &Buckets,
    pass: &mut Pass<ListShape>,
    walk: &mut Walk,
    count: u32,
)
    requires walking { IsWalking table.now pass.old walk.old }
    ensures walking { IsWalking table.now pass.new walk.new }
{
    for _ in 0..count {
        assert_eq!(rt; walk.turn(table.pool(), pass), Turn::On);
    }
}

/// Makes a turn of a walk, which is lost. Then it holds nothing.
fn lose_turn(rt: &impl Abort, table: &Buckets, pass: &mut Pass<ListShape>, walk: &mut Walk)
    requires walking { IsWalking table.now pass.old walk.old }
    ensures walking { IsWalking table.now pass.new walk.new }
{
    assert_eq!(rt; walk.turn(table.pool(), pass), Turn::Lost);
    holds(rt, pass, &[]);
}

/// Makes the last turn of a walk. It holds these records then, and none once it is done.
fn arrive(
    rt: &impl Abort,
    table: &Buckets,
    pass: &mut Pass<ListShape>,
    walk: Walk,
    held: &[u32],
) -> Found
    requires walking { IsWalking table.now pass.old walk }
{
    let mut walk = walk;
    let Turn::At(found) = walk.turn(table.pool(), pass) else {
        panic!(rt; "it goes on");
    };
    holds(rt, pass, held);
    walk.done(table.pool(), pass);
    holds(rt, pass, &[]);
    found
}

/// A walk found so many removed records from the first one to the end.
fn gathered(rt: &impl Abort, found: Found, chain: u32, first: u32, end: u32) {
    assert_eq!(rt; found.chain, chain);
    assert_eq!(rt; found.first.number(), first);
    assert_eq!(rt; found.end.number(), end);
}

// That walk's first step is its only one.
#[test]
fn a_walk_of_an_empty_list_ends_at_its_first_turn(rt: HostRuntime) {
    let (table, mut pass) = open_one(&rt, rt.alloc(), 8);
    let walk = set_out(&table, &mut pass, 5, Call::Remove { key: 5 });
    let found = arrive(&rt, &table, &mut pass, walk, &[]);
    gathered(&rt, found, 0, 0, 0);
    assert_eq!(rt; found.anchor, Place::Head(0));
    assert_eq!(rt; (found.word, found.equal, found.marked), (0, false, false));
}

// The keys 10, 20 and 30 are the records 8, 7 and 6, and 20 is marked. A lookup of 20 ends there, and sees that it is removed. An
// insert of 25 gathers it.
#[test]
fn walks_meet_a_removed_record(rt: HostRuntime) {
    let (table, mut first, mut second) = open_two(&rt, rt.alloc(), 8);
    add_all(&rt, &table, &mut second, &[(10, 1), (20, 2), (30, 3)]);
    let mut going = begin(&table, &mut second, Call::Remove { key: 20 }, RACES);
    go_on(&rt, &table, &mut second, &mut going, 3, 0);
    let mut walk = set_out(&table, &mut first, 20, Call::Get { key: 20 });
    walk_on(&rt, &table, &mut first, &mut walk, 1);
    holds(&rt, &first, &[8]);
    let found = arrive(&rt, &table, &mut first, walk, &[8, 7]);
    gathered(&rt, found, 0, 7, 7);
    assert_eq!(rt; (found.equal, found.marked), (true, true));
}

// Two callers have marked 20 and 30, the records 14 and 13, of 10 to 40. The insert holds its anchor, the first record that it
// gathered, and where it stands.
#[test]
fn a_changing_walk_gathers_what_two_callers_marked(rt: HostRuntime) {
    let (table, mut first, mut second, mut third) = open_three(&rt, rt.alloc(), 15);
    add_all(
        &rt,
        &table,
        &mut third,
        &[(10, 1), (20, 1), (30, 1), (40, 1)],
    );
    let mut twenty = begin(&table, &mut first, Call::Remove { key: 20 }, RACES);
    go_on(&rt, &table, &mut first, &mut twenty, 3, 0);
    let mut thirty = begin(&table, &mut second, Call::Remove { key: 30 }, RACES);
    go_on(&rt, &table, &mut second, &mut thirty, 4, 0);
    let insert = Call::Insert { key: 35, value: 1 };
    let mut walk = set_out(&table, &mut third, 35, insert);
    walk_on(&rt, &table, &mut third, &mut walk, 1);
    holds(&rt, &third, &[15]);
    walk_on(&rt, &table, &mut third, &mut walk, 1);
    holds(&rt, &third, &[15, 14]);
    walk_on(&rt, &table, &mut third, &mut walk, 1);
    holds(&rt, &third, &[15, 14, 13]);
    let found = arrive(&rt, &table, &mut third, walk, &[15, 14, 12]);
    gathered(&rt, found, 2, 14, 12);
    assert_eq!(rt; (found.equal, found.marked), (false, false));
}

// The walk stands on 20, which is detached and invalidated then: it finds INVALID at the first load of its turn.
#[test]
fn a_changing_walk_begins_again_at_an_invalid_link(rt: HostRuntime) {
    let (table, mut first, mut second) = open_two(&rt, rt.alloc(), 8);
    add_all(&rt, &table, &mut second, &[(10, 1), (20, 2), (30, 3)]);
    let insert = Call::Insert { key: 35, value: 1 };
    let mut walk = set_out(&table, &mut first, 35, insert);
    walk_on(&rt, &table, &mut first, &mut walk, 2);
    holds(&rt, &first, &[7]);
    remove(&rt, &table, &mut second, 20, 2);
    reclaim_so_many(&rt, &table, &mut second, 0);
    lose_turn(&rt, &table, &mut first, &mut walk);
    walk_on(&rt, &table, &mut first, &mut walk, 2);
    let found = arrive(&rt, &table, &mut first, walk, &[6]);
    gathered(&rt, found, 0, 0, 0);
}

// The walk stands on 20, which is detached; 30 behind it is invalidated. So it finds INVALID at the load of the link of 30, which it
// has confirmed.
#[test]
fn a_changing_walk_begins_again_at_an_invalid_record(rt: HostRuntime) {
    let (table, mut first, mut second, mut third) = open_three(&rt, rt.alloc(), 15);
    add_all(
        &rt,
        &table,
        &mut third,
        &[(10, 1), (20, 2), (30, 3), (40, 4)],
    );
    let insert = Call::Insert { key: 35, value: 1 };
    let mut walk = set_out(&table, &mut first, 35, insert);
    walk_on(&rt, &table, &mut first, &mut walk, 2);
    remove(&rt, &table, &mut second, 20, 2);
    remove(&rt, &table, &mut third, 30, 3);
    reclaim_so_many(&rt, &table, &mut third, 0);
    lose_turn(&rt, &table, &mut first, &mut walk);
    walk_on(&rt, &table, &mut first, &mut walk, 1);
    let found = arrive(&rt, &table, &mut first, walk, &[15, 12]);
    gathered(&rt, found, 0, 12, 12);
}
