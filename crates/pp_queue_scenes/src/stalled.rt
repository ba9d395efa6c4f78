//! Callers that stop in the middle of a call, while others go on.

ghost use Rattle.std.specs.Prelude.{◌≡◌, ◌++◌, ◌∷◌, [], ℕ};
ghost use Rattle.pp_base.specs.Passes.{known, Fits};
ghost use Rattle.pp_queue.specs.Calling.{EmptyFrom, HasRecord, IsHeadWord};
ghost use Rattle.pp_queue.specs.Passes.{IsReady};
ghost use Rattle.pp_queue_scenes.specs.Staff.{AreReady};

use crate::staging::open;
use pp_base::hazards::clear;
use pp_base::{Pass, Pool};
use pp_model::{InsertFault, Lost};
use pp_queue::calling::stand_at;
use pp_queue::records::{fill, take_record};
use pp_queue::steps::{begin, link_behind, load_end, look};
use pp_queue::{Queue, QueueShape};
use pp_reclaim::reclaim;
use std::alloc::Global;
use std::process::Abort;

/// Takes the last pass from a list.
fn take_last(rt: &impl Abort, passes: &mut Vec<Pass<QueueShape>>) -> Pass<QueueShape>
    ensures { passes.old.items ≡ passes.new.items ++ result ∷ [] }
{
    let Some(pass) = passes.pop() else {
        panic!(rt; "no pass");
    };
    pass
}

/// A queue over eight records, and the passes of its two callers. The first record is the dummy, and the others are dealt as 2 to 5
/// and 6 to 8.
fn open_two(rt: &impl Abort, alloc: Global) -> (Queue, Pass<QueueShape>, Pass<QueueShape>)
    ensures first { IsReady result.0 result.1 }
    ensures second { IsReady result.0 result.2 }
{
    let (queue, mut passes) = open(rt, alloc, 2, 8);
    let second = take_last(rt, &mut passes);
    let first = take_last(rt, &mut passes);
    (queue, first, second)
}

/// A queue over eight records, and the passes of its three callers. The first record is the dummy, and the others are dealt as 2 to 4,
/// 5 and 6, and 7 and 8.
fn open_three(
    rt: &impl Abort,
    alloc: Global,
) -> (Queue, Pass<QueueShape>, Pass<QueueShape>, Pass<QueueShape>)
    ensures first { IsReady result.0 result.1 }
    ensures second { IsReady result.0 result.2 }
    ensures third { IsReady result.0 result.3 }
{
    let (queue, mut passes) = open(rt, alloc, 3, 8);
    let third = take_last(rt, &mut passes);
    let second = take_last(rt, &mut passes);
    let first = take_last(rt, &mut passes);
    (queue, first, second, third)
}

/// Links a record behind the last one, to which head 1 led. Head 1 stays as it is.
fn link_alone(
    rt: &impl Abort,
    pool: &Pool<QueueShape>,
    pass: &mut Pass<QueueShape>,
    number: u32,
    first: u64,
)
    requires fits { Fits pool.now.table.shared.table_id pool.now.layout pass.old.seat }
    requires two { pool.now.layout.heads ≡ 2 }
    requires record { (v : ℕ) × HasRecord (known pass.old.seat) pass.old.purse number v }
    requires first { IsHeadWord first }
    requires empty { EmptyFrom 0 (known pass.old.seat) }
{
    assert!(rt; stand_at(pool, pass, 1, first));
    let link = look(pool, pass, 0);
    assert_eq!(rt; link, 0);
    let new = 16 * number as u64;
    let found = link_behind(pool, pass, 0, number, new);
    assert_eq!(rt; found, 0);
}

/// A put makes its steps up to the one that links its record, and stops.
fn stop_a_put(rt: &impl Abort, queue: &Queue, pass: &mut Pass<QueueShape>, value: u128)
    requires ready { IsReady queue.now pass.old }
{
    let pool = &queue.pool;
    let Some(fresh) = take_record(pool, pass) else {
        panic!(rt; "no free record");
    };
    fill(pool, pass, &fresh, value);
    let first = load_end(pool, pass, 1);
    link_alone(rt, pool, pass, fresh.number(), first);
}

/// A take makes its steps up to the one by which it holds the dummy, and stops.
fn stop_a_take(rt: &impl Abort, queue: &Queue, pass: &mut Pass<QueueShape>)
    requires ready { IsReady queue.now pass.old }
    ensures fits { Fits queue.now.pool.table.shared.table_id queue.now.pool.layout pass.new.seat }
{
    let pool = &queue.pool;
    let first = begin(pool, pass);
    assert!(rt; stand_at(pool, pass, 0, first));
}

// The other put moves head 1 on in a turn that is lost, and then puts its value behind the first one.
#[test]
fn a_put_finds_head_1_lagging(rt: HostRuntime) {
    let (queue, mut first, mut second) = open_two(&rt, rt.alloc());
    stop_a_put(&rt, &queue, &mut first, 7);
    let lost = InsertFault::Lost { turns: 1 };
    assert_eq!(rt; queue.put(&mut second, 8, 1), Err(lost));
    assert_eq!(rt; queue.put(&mut second, 8, 1), Ok(()));
    assert_eq!(rt; queue.take(&mut second, 1), Ok(Some(7)));
    assert_eq!(rt; queue.take(&mut second, 1), Ok(Some(8)));
}

// A take whose dummy is the record to which head 1 leads moves head 1 on in a turn that is lost. It doesn't find the queue empty.
#[test]
fn a_take_moves_head_1_on(rt: HostRuntime) {
    let (queue, mut first, mut second) = open_two(&rt, rt.alloc());
    stop_a_put(&rt, &queue, &mut first, 7);
    assert_eq!(rt; queue.take(&mut second, 1), Err(Lost { turns: 1 }));
    assert_eq!(rt; queue.take(&mut second, 1), Ok(Some(7)));
    assert_eq!(rt; queue.take(&mut second, 1), Ok(None));
}

// The second caller puts two values in the records 6 and 5, and the third one takes both. It has detached the dummies 1 and 6. Of these
// the stopped take holds 1, which stays retired until its walk word is cleared.
#[test]
fn a_stalled_take_holds_the_dummy(rt: HostRuntime) {
    let (queue, mut first, mut second, mut third) = open_three(&rt, rt.alloc());
    stop_a_take(&rt, &queue, &mut first);
    assert_eq!(rt; queue.put(&mut second, 8, 1), Ok(()));
    assert_eq!(rt; queue.put(&mut second, 9, 1), Ok(()));
    assert_eq!(rt; queue.take(&mut third, 1), Ok(Some(8)));
    assert_eq!(rt; queue.take(&mut third, 1), Ok(Some(9)));
    assert_eq!(rt; queue.take(&mut third, 1), Ok(None));
    assert_eq!(rt; reclaim(&queue.pool, &mut third), 1);
    assert_eq!(rt; third.retired(), [1].as_slice());
    clear(&queue.pool, &mut first, 0);
    assert_eq!(rt; reclaim(&queue.pool, &mut third), 1);
    assert_eq!(rt; third.retired().len(), 0);
}
