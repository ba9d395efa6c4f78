//! A queue is opened, used by its callers and closed.

ghost use Rattle.std.specs.Prelude.{◌≡◌, ◌≤◌, ◌<◌, length};
ghost use Rattle.pp_link.specs.Places.{IsWithin};
ghost use Rattle.pp_queue.specs.Passes.{queue_sizes};
ghost use Rattle.pp_queue_scenes.specs.Staff.{AreReady};

use pp_base::Pass;
use pp_model::InsertFault;
use pp_queue::{Queue, QueueClosed, QueueShape};
use std::alloc::Global;
use std::process::Abort;

/// So many lost turns a call may have here.
const RACES: u64 = 8;

/// A queue over so many records, and the passes of its callers.
pub(crate) fn open(
    rt: &impl Abort,
    alloc: Global,
    callers: u32,
    records: u32,
) -> (Queue, Vec<Pass<QueueShape>>)
    requires { IsWithin (queue_sizes callers records) }
    ensures callers { result.0.pool.layout.passes ≡ callers }
    ensures ready { AreReady result.0 result.1.items }
{
    let Ok(made) = Queue::start(alloc, callers, records) else {
        panic!(rt; "no memory");
    };
    made
}

/// A caller puts these values, one after another.
pub(crate) fn put_all(
    rt: &impl Abort,
    queue: &Queue,
    passes: &mut Vec<Pass<QueueShape>>,
    caller: usize,
    values: &[u128],
)
    requires caller { caller < queue.now.pool.layout.passes }
    requires ready { AreReady queue.now passes.old.items }
    ensures ready { AreReady queue.now passes.new.items }
{
    for value in values {
        let pass = &mut passes[caller];
        assert!(rt; queue.put(pass, *value, RACES).is_ok());
    }
}

/// A caller takes these values, one after another.
pub(crate) fn take_all(
    rt: &impl Abort,
    queue: &Queue,
    passes: &mut Vec<Pass<QueueShape>>,
    caller: usize,
    values: &[u128],
)
    requires caller { caller < queue.now.pool.layout.passes }
    requires ready { AreReady queue.now passes.old.items }
    ensures ready { AreReady queue.now passes.new.items }
{
    for value in values {
        let pass = &mut passes[caller];
        assert_eq!(rt; queue.take(pass, RACES), Ok(Some(*value)));
    }
}

/// The first caller puts so many values, and the second one takes each before the next one is put.
pub(crate) fn hand_over(
    rt: &impl Abort,
    queue: &Queue,
    passes: &mut Vec<Pass<QueueShape>>,
    count: u32,
)
    requires callers { queue.now.pool.layout.passes ≡ 2 }
    requires ready { AreReady queue.now passes.old.items }
    ensures ready { AreReady queue.now passes.new.items }
{
    for number in 0..count {
        let value = u128::from(number);
        put_all(rt, queue, passes, 0, &[value]);
        take_all(rt, queue, passes, 1, &[value]);
    }
}

/// A caller finds the queue empty.
pub(crate) fn find_empty(
    rt: &impl Abort,
    queue: &Queue,
    passes: &mut Vec<Pass<QueueShape>>,
    caller: usize,
)
    requires caller { caller < queue.now.pool.layout.passes }
    requires ready { AreReady queue.now passes.old.items }
    ensures ready { AreReady queue.now passes.new.items }
{
    let pass = &mut passes[caller];
    assert_eq!(rt; queue.take(pass, RACES), Ok(None));
}

/// A caller finds no free record for a put.
pub(crate) fn find_full(
    rt: &impl Abort,
    queue: &Queue,
    passes: &mut Vec<Pass<QueueShape>>,
    caller: usize,
)
    requires caller { caller < queue.now.pool.layout.passes }
    requires ready { AreReady queue.now passes.old.items }
    ensures ready { AreReady queue.now passes.new.items }
{
    let pass = &mut passes[caller];
    assert_eq!(rt; queue.put(pass, 0, RACES), Err(InsertFault::Full));
}

/// Closes the queue over its passes.
pub(crate) fn end(
    rt: &impl Abort,
    alloc: Global,
    queue: Queue,
    passes: Vec<Pass<QueueShape>>,
) -> QueueClosed
    requires ready { AreReady queue passes.items }
{
    match queue.close(alloc, passes) {
        Ok(closed) => closed,
        Err(_fault) => panic!(rt; "no memory"),
    }
}
