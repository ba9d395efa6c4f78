//! The calls of a queue.

ghost use Rattle.std.specs.Prelude.{◌≡◌, ◌≤◌};
ghost use Rattle.pp_queues.specs.declared.calls.QueueCall.TheVariants as call;
ghost use Rattle.pp_queues.specs.Calls.{AnswersQueue, put_answer, take_answer};
ghost use Rattle.pp_queue.specs.Passes.{IsReady, pass_seen};

use crate::records::{fill, take_record};
use crate::tidying::finish;
use crate::trying::{link_record, take_value};
use crate::{Queue, QueueShape};
use pp_base::Pass;
use pp_model::{InsertFault, Lost};
use pp_pool::fresh::{give_back, published};

impl Queue {
    /// Puts a value behind the others. It takes no memory, and takes effect at one step, at which its record is linked.
    ///
    /// The pass is one of this queue, between its calls, and `races` is at least 1.
    ///
    /// # Errors
    ///
    /// - `Full`: there was no free record, neither with the pass, nor after a reclaim pass, nor on the shelves.
    /// - `Lost`: the call lost `races` turns to other callers.
    ///
    /// With either the queue is as without this call.
    pub fn put(
        &self,
        pass: &mut Pass<QueueShape>,
        value: u128,
        races: u64,
    ) -> Result<(), InsertFault>
        requires ready { IsReady self.now pass.old }
        requires races { 1 ≤ races }
        ensures ready { IsReady self.now pass.new }
        ensures answered { AnswersQueue self.now.pool.layout (call.Put value) races (pass_seen pass.old) (pass_seen pass.new)
            (put_answer result) }
    {
        let pool = &self.pool;
        let Some(fresh) = take_record(pool, pass) else {
            return Err(InsertFault::Full);
        };
        fill(pool, pass, &fresh, value);
        match link_record(pool, pass, fresh.number(), races) {
            Ok(()) => {
                published(pass, fresh);
                finish(pool, pass);
                Ok(())
            }
            Err(Lost { turns }) => {
                give_back(pass, fresh);
                finish(pool, pass);
                Err(InsertFault::Lost { turns })
            }
        }
    }

    /// Takes the first value. `None` says that the queue was empty at a moment in this call. It takes no memory, and takes
    /// effect at one step, at which the dummy is detached and the record behind it becomes the dummy.
    ///
    /// The pass is one of this queue, between its calls, and `races` is at least 1.
    ///
    /// # Errors
    ///
    /// The call lost `races` turns to other callers. The queue is as without this call.
    pub fn take(&self, pass: &mut Pass<QueueShape>, races: u64) -> Result<Option<u128>, Lost>
        requires ready { IsReady self.now pass.old }
        requires races { 1 ≤ races }
        ensures ready { IsReady self.now pass.new }
        ensures answered { AnswersQueue self.now.pool.layout call.Take races (pass_seen pass.old) (pass_seen pass.new)
            (take_answer result) }
    {
        let answer = take_value(&self.pool, pass, races);
        finish(&self.pool, pass);
        answer
    }
}
