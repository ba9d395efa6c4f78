//! How a queue is closed.

ghost use Rattle.std.specs.Prelude.{◌≡◌, ◌+◌, ◌≤◌, ◌++◌, IfOk, IfErr, length, map, vec_capacity};
ghost use Rattle.pp_model.specs.Lists.{AtEach};
ghost use Rattle.pp_base.specs.Passes.{known, view};
ghost use Rattle.pp_queue.specs.Passes.{IsReady, pass_seen};
ghost use Rattle.pp_queue.specs.Closings.{IsClosing, queue_run};

use crate::{Queue, QueueShape};
use pp_base::Pass;
use pp_model::lists::enter;
use pp_model::{CloseFault, Closed, Pair};
use pp_pool::closing::{Witness, close};
use std::alloc::Global;

/// What a queue held that was closed. Contracts read its run from it.
#[derive(Drop)]
pub struct QueueClosed {
    pub items: Vec<u128>,
    pub closed: Closed<Witness<QueueShape>>,
}

impl QueueClosed {
    /// The values that were left, the first one the next to be taken.
    pub fn items(&self) -> &[u128]
        ensures { result.now ≡ self.now.items.items }
    {
        &self.items
    }

    /// The numbers of the free records, rising.
    pub fn free(&self) -> &[u32]
        ensures { result.now ≡ self.now.closed.free.items }
    {
        self.closed.free()
    }
}

impl Queue {
    /// Closes the queue over all its passes, given by rising numbers of their callers and each between its calls. With n items
    /// there are n + 1 live records, and all others are free.
    ///
    /// # Errors
    ///
    /// There was no memory. The queue and its passes come back as they were.
    pub fn close(
        self,
        alloc: Global,
        passes: Vec<Pass<QueueShape>>,
    ) -> Result<QueueClosed, CloseFault<Queue, Pass<QueueShape>>>
        requires all { length passes.items ≡ self.pool.layout.passes }
        requires ready { AtEach passes.items (λ k p. IsReady self p) }
        requires numbered { AtEach passes.items (λ k p. (known p.seat).number ≡ k) }
        ensures closed { IfOk result (λ c. IsClosing self.pool.layout (map (λ p. pass_seen p) passes.items) c.items.items
            c.closed.free.items (queue_run (view c.closed.witness.seat) c.closed.witness.live.items)) }
        ensures back { IfErr result (λ e. (e.map.pool ≡ self.pool) × (e.passes.items ≡ passes.items)) }
    {
        let records = self.pool.layout.sizes().records as usize;
        let Ok(mut items) = Vec::with_capacity(alloc, records) else {
            return Err(CloseFault { map: self, passes });
        };
        let Queue { pool } = self;
        match close(alloc, pool, passes) {
            Ok(closed) => {
                enter_values(closed.contents(), &mut items);
                Ok(QueueClosed { items, closed })
            }
            Err(CloseFault { map, passes }) => Err(CloseFault {
                map: Queue { pool: map },
                passes,
            }),
        }
    }
}

/// Appends the values of these pairs.
fn enter_values(pairs: &[Pair], items: &mut Vec<u128>)
    requires { length items.old.items + length pairs.now ≤ vec_capacity items.old }
    ensures { items.new.items ≡ items.old.items ++ map (λ p. p.value) pairs.now }
{
    for pair in pairs {
        enter(items, pair.value);
    }
}
