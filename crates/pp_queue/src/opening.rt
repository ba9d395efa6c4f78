//! How a queue starts.

ghost use Rattle.std.specs.Prelude.{◌≡◌, IfOk, length};
ghost use Rattle.pp_link.specs.Places.{IsWithin};
ghost use Rattle.pp_model.specs.Lists.{AtEach};
ghost use Rattle.pp_queue.specs.Passes.{IsReady, IsNew, queue_sizes};

use crate::{Queue, QueueShape};
use pp_base::Pass;
use pp_link::Sizes;
use pp_model::NoMemory;
use pp_pool::opening::make_pool;
use std::alloc::Global;

/// How many heads the pool of a queue has.
const HEADS: u32 = 2;

impl Queue {
    /// An empty queue over so many records, and a pass for each caller, the one with the number 0 first. It takes all the
    /// memory that any later call but `close` needs.
    ///
    /// There are 1 to 64 passes and 8 to 262,144 records.
    ///
    /// # Errors
    ///
    /// There was no memory.
    pub fn start(
        alloc: Global,
        passes: u32,
        records: u32,
    ) -> Result<(Queue, Vec<Pass<QueueShape>>), NoMemory>
        requires { IsWithin (queue_sizes passes records) }
        ensures sizes { IfOk result (λ made. made.0.pool.layout ≡ queue_sizes passes records) }
        ensures count { IfOk result (λ made. length made.1.items ≡ passes) }
        ensures ready { IfOk result (λ made. AtEach made.1.items (λ k p. IsReady made.0 p)) }
        ensures fresh { IfOk result (λ made. AtEach made.1.items (λ k p. IsNew (queue_sizes passes records) k p)) }
    {
        let sizes = Sizes {
            passes,
            records,
            heads: HEADS,
        };
        let (pool, passes) = make_pool(alloc, sizes)?;
        Ok((Queue { pool }, passes))
    }
}
