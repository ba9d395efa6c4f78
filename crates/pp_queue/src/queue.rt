//! A queue.

ghost use Rattle.std.specs.Prelude.{◌≡◌};

use crate::QueueShape;
use pp_base::Pool;

/// A first-in first-out queue of values of 128 bits, after Michael and Scott ("Simple, Fast, and Practical Non-Blocking and
/// Blocking Concurrent Queue Algorithms", 1996), over a pool of records. Each of its callers has a pass, and all of them may
/// make their calls beside each other.
#[derive(Drop)]
pub struct Queue {
    pub pool: Pool<QueueShape>,
    ghost two: { pool.layout.heads ≡ 2 },
}
