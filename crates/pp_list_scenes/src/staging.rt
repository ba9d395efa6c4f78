//! A table is opened, its callers' calls are made whole or by turns, their purses are emptied, and it is closed.

ghost use Rattle.std.specs.Prelude.{◌≡◌, ◌++◌, ◌∷◌, [], length};
ghost use Rattle.pp_link.specs.Places.{IsWithin};
ghost use Rattle.pp_model.specs.Lists.{AtEach};
ghost use Rattle.pp_model.specs.MapCalls.{MayCall};
ghost use Rattle.pp_base.specs.Passes.{known};
ghost use Rattle.pp_calls.specs.PoolViews.{pass_view};
ghost use Rattle.pp_buckets.specs.Tables.{table_sizes};
ghost use Rattle.pp_list_scenes.specs.Staff.{IsReady, AreReady, IsGoing};

use pp_base::Pass;
use pp_buckets::Buckets;
use pp_list::ListGoing;
use pp_map_scenes::staging::{answers, closes, ends, goes_on, held};
use pp_model::{Answer, Call, MapCalls, Reply};
use pp_reclaim::reclaim;
use pp_shelf::put;
use pp_unlink::flush;
use pp_walk::ListShape;
use std::alloc::Global;
use std::process::Abort;

/// So many lost turns a call may have, where a scene says no other number.
pub(crate) const RACES: u64 = 100;

/// The numbers of forty records.
pub(crate) const ALL: [u32; 40] = [
    1, 2, 3, 4, 5, 6, 7, 8, 9, 10, 11, 12, 13, 14, 15, 16, 17, 18, 19, 20, 21, 22, 23, 24, 25, 26,
    27, 28, 29, 30, 31, 32, 33, 34, 35, 36, 37, 38, 39, 40,
];

/// A list over so many records, and the passes of its callers.
fn open(
    rt: &impl Abort,
    alloc: Global,
    callers: u32,
    records: u32,
) -> (Buckets, Vec<Pass<ListShape>>)
    requires { IsWithin (table_sizes callers records 1) }
    ensures ready { AreReady result.0 result.1.items }
{
    let Ok(made) = Buckets::start(alloc, callers, records, 1) else {
        panic!(rt; "no memory");
    };
    made
}

/// Takes the last pass from a list.
fn take_last(rt: &impl Abort, passes: &mut Vec<Pass<ListShape>>) -> Pass<ListShape>
    ensures { passes.old.items ≡ passes.new.items ++ result ∷ [] }
{
    let Some(pass) = passes.pop() else {
        panic!(rt; "no pass");
    };
    pass
}

/// Takes the last pass from the list of a table's passes.
fn last_pass(rt: &impl Abort, table: &Buckets, passes: &mut Vec<Pass<ListShape>>) -> Pass<ListShape>
    requires ready { AreReady table.now passes.old.items }
    ensures ready { AreReady table.now passes.new.items }
    ensures last { IsReady table.now result }
{
    take_last(rt, passes)
}

/// A list over so many records, and the pass of its one caller.
pub(crate) fn open_one(rt: &impl Abort, alloc: Global, records: u32) -> (Buckets, Pass<ListShape>)
    requires { IsWithin (table_sizes 1 records 1) }
    ensures { IsReady result.0 result.1 }
{
    let (table, mut passes) = open(rt, alloc, 1, records);
    let pass = last_pass(rt, &table, &mut passes);
    (table, pass)
}

/// A list over so many records, and the passes of its two callers.
pub(crate) fn open_two(
    rt: &impl Abort,
    alloc: Global,
    records: u32,
) -> (Buckets, Pass<ListShape>, Pass<ListShape>)
    requires { IsWithin (table_sizes 2 records 1) }
    ensures first { IsReady result.0 result.1 }
    ensures second { IsReady result.0 result.2 }
{
    let (table, mut passes) = open(rt, alloc, 2, records);
    let second = last_pass(rt, &table, &mut passes);
    let first = last_pass(rt, &table, &mut passes);
    (table, first, second)
}

/// A list over so many records, and the passes of its three callers.
pub(crate) fn open_three(
    rt: &impl Abort,
    alloc: Global,
    records: u32,
) -> (Buckets, Pass<ListShape>, Pass<ListShape>, Pass<ListShape>)
    requires { IsWithin (table_sizes 3 records 1) }
    ensures first { IsReady result.0 result.1 }
    ensures second { IsReady result.0 result.2 }
    ensures third { IsReady result.0 result.3 }
{
    let (table, mut passes) = open(rt, alloc, 3, records);
    let third = last_pass(rt, &table, &mut passes);
    let second = last_pass(rt, &table, &mut passes);
    let first = last_pass(rt, &table, &mut passes);
    (table, first, second, third)
}

/// Makes a call, which is answered so.
pub(crate) fn make(
    rt: &impl Abort,
    table: &Buckets,
    pass: &mut Pass<ListShape>,
    call: Call,
    answer: Answer,
)
    requires ready { IsReady table.now pass.old }
    requires may { MayCall call 100 (pass_view pass.old) }
    ensures ready { IsReady table.now pass.new }
{
    assert!(rt; answers(table, pass, call, RACES, answer));
}

/// Adds a pair whose key is absent.
pub(crate) fn add(
    rt: &impl Abort,
    table: &Buckets,
    pass: &mut Pass<ListShape>,
    key: u32,
    value: u32,
)
    requires ready { IsReady table.now pass.old }
    ensures ready { IsReady table.now pass.new }
{
    let call = Call::Insert {
        key: u64::from(key),
        value: u128::from(value),
    };
    make(rt, table, pass, call, Answer::Said(Reply::Added));
}

/// Finds no free record for a pair.
pub(crate) fn find_full(rt: &impl Abort, table: &Buckets, pass: &mut Pass<ListShape>, key: u32)
    requires ready { IsReady table.now pass.old }
    ensures ready { IsReady table.now pass.new }
{
    let call = Call::Insert {
        key: u64::from(key),
        value: 0,
    };
    make(rt, table, pass, call, Answer::Full);
}

/// Takes the pair of a key away, which has this value.
pub(crate) fn remove(
    rt: &impl Abort,
    table: &Buckets,
    pass: &mut Pass<ListShape>,
    key: u32,
    value: u32,
)
    requires ready { IsReady table.now pass.old }
    ensures ready { IsReady table.now pass.new }
{
    let call = Call::Remove {
        key: u64::from(key),
    };
    let took = Reply::Took(u128::from(value));
    make(rt, table, pass, call, Answer::Said(took));
}

/// Adds these pairs, in this order.
pub(crate) fn add_all(
    rt: &impl Abort,
    table: &Buckets,
    pass: &mut Pass<ListShape>,
    pairs: &[(u32, u32)],
)
    requires ready { IsReady table.now pass.old }
    ensures ready { IsReady table.now pass.new }
{
    for pair in pairs {
        add(rt, table, pass, pair.0, pair.1);
    }
}

/// Takes these pairs away, in this order.
pub(crate) fn remove_all(
    rt: &impl Abort,
    table: &Buckets,
    pass: &mut Pass<ListShape>,
    pairs: &[(u32, u32)],
)
    requires ready { IsReady table.now pass.old }
    ensures ready { IsReady table.now pass.new }
{
    for pair in pairs {
        remove(rt, table, pass, pair.0, pair.1);
    }
}

/// Adds pairs with these keys, in this order, each with its key as its value.
pub(crate) fn add_keys(rt: &impl Abort, table: &Buckets, pass: &mut Pass<ListShape>, keys: &[u32])
    requires ready { IsReady table.now pass.old }
    ensures ready { IsReady table.now pass.new }
{
    for key in keys {
        add(rt, table, pass, *key, *key);
    }
}

/// Takes such pairs away, in this order.
pub(crate) fn remove_keys(
    rt: &impl Abort,
    table: &Buckets,
    pass: &mut Pass<ListShape>,
    keys: &[u32],
)
    requires ready { IsReady table.now pass.old }
    ensures ready { IsReady table.now pass.new }
{
    for key in keys {
        remove(rt, table, pass, *key, *key);
    }
}

/// Begins a call, of which so many turns may be lost.
pub(crate) fn begin(
    table: &Buckets,
    pass: &mut Pass<ListShape>,
    call: Call,
    races: u64,
) -> ListGoing
    requires ready { IsReady table.now pass.old }
    requires may { MayCall call races (pass_view pass.old) }
    ensures going { IsGoing table.now pass.new result }
{
    table.begin(pass, call, races)
}

/// Makes so many turns of a going call, none of which ends it. So many of its turns are lost then.
pub(crate) fn go_on(
    rt: &impl Abort,
    table: &Buckets,
    pass: &mut Pass<ListShape>,
    going: &mut ListGoing,
    count: u32,
    lost: u64,
)
    requires going { IsGoing table.now pass.old going.old }
    ensures going { IsGoing table.now pass.new going.new }
{
    assert!(rt; goes_on(table, pass, going, count));
    assert_eq!(rt; going.lost(), lost);
}

/// Makes the last turn of a going call, which is answered so. So many of its turns were lost.
pub(crate) fn end(
    rt: &impl Abort,
    table: &Buckets,
    pass: &mut Pass<ListShape>,
    mut going: ListGoing,
    lost: u64,
    answer: Reply,
)
    requires going { IsGoing table.now pass.old going }
    ensures ready { IsReady table.now pass.new }
{
    assert!(rt; ends(table, pass, &mut going, Answer::Said(answer)));
    assert_eq!(rt; going.lost(), lost);
    assert!(rt; pass.idle());
}

/// Makes the last turn of a going call, which gives up: so many of its turns were lost, as many as it may lose.
pub(crate) fn give_up(
    rt: &impl Abort,
    table: &Buckets,
    pass: &mut Pass<ListShape>,
    mut going: ListGoing,
    turns: u64,
)
    requires going { IsGoing table.now pass.old going }
    ensures ready { IsReady table.now pass.new }
{
    assert!(rt; ends(table, pass, &mut going, Answer::Lost { turns }));
    assert_eq!(rt; going.lost(), turns);
    assert!(rt; pass.idle());
}

/// Retires the chains in hand.
pub(crate) fn retire_chains(table: &Buckets, pass: &mut Pass<ListShape>)
    requires ready { IsReady table.now pass.old }
    ensures ready { IsReady table.now pass.new }
{
    flush(table.pool(), pass);
}

/// Makes a reclaim pass, which makes so many records free.
pub(crate) fn reclaim_so_many(
    rt: &impl Abort,
    table: &Buckets,
    pass: &mut Pass<ListShape>,
    count: u32,
)
    requires ready { IsReady table.now pass.old }
    ensures ready { IsReady table.now pass.new }
{
    assert_eq!(rt; reclaim(table.pool(), pass), count);
}

/// Puts the last free record on a shelf, if the pass has more than its share and a shelf is empty. Tells whether it did.
fn put_last(table: &Buckets, pass: &mut Pass<ListShape>) -> bool
    requires ready { IsReady table.now pass.old }
    ensures ready { IsReady table.now pass.new }
{
    put(table.pool(), pass)
}

/// Puts so many free records on shelves, one after another, and then no more.
pub(crate) fn put_so_many(rt: &impl Abort, table: &Buckets, pass: &mut Pass<ListShape>, count: u32)
    requires ready { IsReady table.now pass.old }
    ensures ready { IsReady table.now pass.new }
{
    for _ in 0..count {
        assert!(rt; put_last(table, pass));
    }
    assert!(rt; !put_last(table, pass));
}

/// A pass has so many chains in hand, and these records are retired and free with it.
pub(crate) fn find(
    rt: &impl Abort,
    pass: &Pass<ListShape>,
    chains: u32,
    retired: &[u32],
    free: &[u32],
) {
    assert_eq!(rt; pass.chains(), chains);
    assert_eq!(rt; pass.retired(), retired);
    assert_eq!(rt; pass.free(), free);
}

/// Closes the table over its passes: it held these pairs, and these records are free.
fn close(
    rt: &impl Abort,
    alloc: Global,
    table: Buckets,
    passes: Vec<Pass<ListShape>>,
    pairs: &[(u64, u128)],
    free: &[u32],
)
    requires all { length passes.items ≡ table.pool.layout.passes }
    requires ready { AreReady table passes.items }
    requires order { AtEach passes.items (λ k p. (known p.seat).number ≡ k) }
{
    let Some(closed) = closes(table, alloc, passes) else {
        panic!(rt; "no memory");
    };
    assert!(rt; held(&closed, pairs, free));
}

/// Closes the table over its one pass.
pub(crate) fn close_one(
    rt: &impl Abort,
    alloc: Global,
    table: Buckets,
    pass: Pass<ListShape>,
    pairs: &[(u64, u128)],
    free: &[u32],
)
    requires ready { IsReady table pass }
{
    assert_eq!(rt; table.pool().layout.sizes().passes, 1);
    assert_eq!(rt; pass.number(), 0);
    let Ok(passes) = Vec::from_array(alloc, [pass]) else {
        panic!(rt; "no memory");
    };
    close(rt, alloc, table, passes, pairs, free);
}

/// Closes the table over its two passes.
pub(crate) fn close_two(
    rt: &impl Abort,
    alloc: Global,
    table: Buckets,
    passes: (Pass<ListShape>, Pass<ListShape>),
    pairs: &[(u64, u128)],
    free: &[u32],
)
    requires first { IsReady table passes.0 }
    requires second { IsReady table passes.1 }
{
    let (first, second) = passes;
    assert_eq!(rt; table.pool().layout.sizes().passes, 2);
    assert_eq!(rt; first.number(), 0);
    assert_eq!(rt; second.number(), 1);
    let Ok(passes) = Vec::from_array(alloc, [first, second]) else {
        panic!(rt; "no memory");
    };
    close(rt, alloc, table, passes, pairs, free);
}

/// Closes the table over its three passes.
pub(crate) fn close_three(
    rt: &impl Abort,
    alloc: Global,
    table: Buckets,
    passes: (Pass<ListShape>, Pass<ListShape>, Pass<ListShape>),
    pairs: &[(u64, u128)],
    free: &[u32],
)
    requires first { IsReady table passes.0 }
    requires second { IsReady table passes.1 }
    requires third { IsReady table passes.2 }
{
    let (first, second, third) = passes;
    assert_eq!(rt; table.pool().layout.sizes().passes, 3);
    assert_eq!(rt; first.number(), 0);
    assert_eq!(rt; second.number(), 1);
    assert_eq!(rt; third.number(), 2);
    let Ok(passes) = Vec::from_array(alloc, [first, second, third]) else {
        panic!(rt; "no memory");
    };
    close(rt, alloc, table, passes, pairs, free);
}
