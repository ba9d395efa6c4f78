//! The turns of a queue's calls put together, up to the answer.

ghost use Rattle.std.specs.Prelude.{◌≡◌, ℕ, ◌≤◌};
ghost use Rattle.pp_base.specs.Passes.{known, view, Fits, IsSame, IsAtRest};
ghost use Rattle.pp_unlink.specs.Invalidation.{SameFree};
ghost use Rattle.pp_queue.specs.Standing.{StaysUp};
ghost use Rattle.pp_queue.specs.Calling.{EmptyFrom, HasRecord, SameLists};
ghost use Rattle.pp_queue.specs.Answers.{TakeSays, PutSays, PutLeaves};

use crate::QueueShape;
use crate::calling::{TakeTurn, put_turn, take_turn};
use crate::steps::{begin, load_end};
use pp_base::{Pass, Pool};
use pp_model::Lost;

/// Takes the first value. None says that the queue was empty.
///
/// # Errors
///
/// As many turns were lost as may be.
pub fn take_value(
    pool: &Pool<QueueShape>,
    pass: &mut Pass<QueueShape>,
    races: u64,
) -> Result<Option<u128>, Lost>
    requires fits { Fits pool.now.table.shared.table_id pool.now.layout pass.old.seat }
    requires two { pool.now.layout.heads ≡ 2 }
    requires rest { IsAtRest (known pass.old.seat) pass.old.purse }
    requires empty { EmptyFrom 0 (known pass.old.seat) }
    requires races { 1 ≤ races }
    ensures same { IsSame pass.old.seat pass.new.seat }
    ensures up { StaysUp (known pass.old.seat) (known pass.new.seat) }
    ensures says { TakeSays pool.now.layout.passes races result (view pass.old.seat) (view pass.new.seat) }
    ensures empty { EmptyFrom 0 (known pass.new.seat) }
    ensures rest { IsAtRest (known pass.new.seat) pass.new.purse }
    ensures purse { SameFree pass.old.purse pass.new.purse }
{
    let mut first = begin(pool, pass);
    let mut turns = 0;
    'again: loop {
        match take_turn(pool, pass, first) {
            TakeTurn::Again => {}
            TakeTurn::Empty => return Ok(None),
            TakeTurn::Took(value) => return Ok(Some(value)),
        }
        turns += 1;
        let spent = turns == races;
        if spent {
            return Err(Lost { turns });
        }
        first = load_end(pool, pass, 0);
    }
}

/// Puts the value of a record that was taken and filled behind the others.
///
/// # Errors
///
/// As many turns were lost as may be. The record is still private to the pass.
pub fn link_record(
    pool: &Pool<QueueShape>,
    pass: &mut Pass<QueueShape>,
    number: u32,
    races: u64,
) -> Result<(), Lost>
    requires fits { Fits pool.now.table.shared.table_id pool.now.layout pass.old.seat }
    requires two { pool.now.layout.heads ≡ 2 }
    requires record { (v : ℕ) × HasRecord (known pass.old.seat) pass.old.purse number v }
    requires empty { EmptyFrom 0 (known pass.old.seat) }
    requires races { 1 ≤ races }
    ensures same { IsSame pass.old.seat pass.new.seat }
    ensures says { (v : ℕ) → HasRecord (known pass.old.seat) pass.old.purse number v
        → PutSays pool.now.layout races v result (view pass.old.seat) (view pass.new.seat) }
    ensures leaves { PutLeaves number result (known pass.new.seat) pass.new.purse }
    ensures empty { EmptyFrom 0 (known pass.new.seat) }
    ensures lists { SameLists (known pass.old.seat) (known pass.new.seat) }
    ensures purse { pass.new.purse ≡ pass.old.purse }
{
    let mut first = load_end(pool, pass, 1);
    let mut turns = 0;
    'again: loop {
        if put_turn(pool, pass, number, first) {
            return Ok(());
        }
        turns += 1;
        let over = turns == races;
        if over {
            return Err(Lost { turns });
        }
        first = load_end(pool, pass, 1);
    }
}
