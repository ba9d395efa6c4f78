//! The parts of a queue's calls.

ghost use Rattle.std.specs.Prelude.{◌≡◌, ◌≢◌, ◌+◌, ◌<◌, ◌≤◌, true, false, cond, nat_eq};
ghost use Rattle.pp_link.specs.Links.{target, invalid_bit};
ghost use Rattle.pp_link.specs.Places.{head_place, cell_place};
ghost use Rattle.pp_rule.specs.Views.{slot, value_of};
ghost use Rattle.pp_base.specs.Passes.{known, view, Fits, IsSame, IsAtRest};
ghost use Rattle.pp_unlink.specs.Invalidation.{SameFree};
ghost use Rattle.pp_queue.specs.Calling.{EmptyFrom, GoesOn, StandsAt, HoldsNext, IsHeadWord, MayRemove, TookOff, GoesFree};
ghost use Rattle.pp_queue.specs.Standing.{word_in, StaysUp};
ghost use Rattle.pp_queue.specs.Calling.{IsDone, TurnedTo, HasRecord, Struck, TakeRan, PutRan, SameLists};
ghost use Rattle.pp_queues.specs.Losses.{Tally, losing, striking, Ran};
ghost use Rattle.pp_pool.specs.Taken.{IsPrivate, IsPublished};
ghost use Rattle.pp_queues.specs.declared.calls.QueueCall.TheVariants as call;
ghost use Rattle.pp_queues.specs.declared.calls.QueueReply.TheVariants as said;
ghost use Rattle.std.specs.Prelude.{ℕ};

use crate::QueueShape;
use crate::steps::{advance, come, detach_dummy, link_behind, look, see, try_next};
use pp_base::frontier::{guard, unguard};
use pp_base::hazards::{announce, clear, confirm};
use pp_base::{Pass, Place, Pool, Side};
use pp_hazard::reading::value;
use pp_unlink::{flush_full, free_word};

/// Tries to hold the record to which a head led, in walk word 0. Where the head leads there still, the call stands there.
/// Else all walk words are empty again.
pub fn stand_at(pool: &Pool<QueueShape>, pass: &mut Pass<QueueShape>, head: u32, first: u64) -> bool
    requires fits { Fits pool.now.table.shared.table_id pool.now.layout pass.old.seat }
    requires two { pool.now.layout.heads ≡ 2 }
    requires head { head < 2 }
    requires first { IsHeadWord first }
    requires empty { EmptyFrom 0 (known pass.old.seat) }
    ensures same { IsSame pass.old.seat pass.new.seat }
    ensures on { GoesOn (view pass.old.seat) (view pass.new.seat) }
    ensures steps { (n : ℕ) → Ran pool.now.layout.passes (losing first n) (losing first (cond result n (n + 1)))
        (view pass.old.seat) (view pass.new.seat) }
    ensures up { StaysUp (known pass.old.seat) (known pass.new.seat) }
    ensures alone { pool.now.layout.passes ≡ 1 → first ≡ word_in (view pass.old.seat) (head_place pool.now.layout head)
        → result ≡ true }
    ensures there { pool.now.layout.passes ≡ 1 → result ≡ true
        → word_in (view pass.new.seat) (head_place pool.now.layout head) ≡ first }
    ensures stands { result ≡ true → StandsAt (nat_eq head 0) (target first) (known pass.new.seat) }
    ensures away { result ≡ false → EmptyFrom 0 (known pass.new.seat) }
    ensures purse { pass.new.purse ≡ pass.old.purse }
{
    announce(pool, pass, 0, (first / 16) as u32);
    let second = come(pool, pass, head, 0, first);
    if second != first {
        clear(pool, pass, 0);
        return false;
    }
    true
}

/// Tries to hold the record to which the link of the dummy leads, in walk word 1. Where the link has changed, that word is
/// empty again.
pub fn hold_next(pool: &Pool<QueueShape>, pass: &mut Pass<QueueShape>, link: u64) -> bool
    requires fits { Fits pool.now.table.shared.table_id pool.now.layout pass.old.seat }
    requires stands { StandsAt true (slot (known pass.old.seat) 0).named (known pass.old.seat) }
    requires link { (invalid_bit link ≡ 0) × (target link ≢ 0) × (link < 68719476736) }
    ensures same { IsSame pass.old.seat pass.new.seat }
    ensures on { GoesOn (view pass.old.seat) (view pass.new.seat) }
    ensures steps { (n : ℕ) → Ran pool.now.layout.passes (losing link n) (losing link (cond result n (n + 1)))
        (view pass.old.seat) (view pass.new.seat) }
    ensures up { StaysUp (known pass.old.seat) (known pass.new.seat) }
    ensures alone { pool.now.layout.passes ≡ 1
        → link ≡ word_in (view pass.old.seat) (cell_place pool.now.layout (slot (known pass.old.seat) 0).named 2) → result ≡ true }
    ensures holds { result ≡ true → HoldsNext (target link) (known pass.old.seat) (known pass.new.seat) }
    ensures away { result ≡ false → StandsAt true (slot (known pass.old.seat) 0).named (known pass.new.seat) }
    ensures purse { pass.new.purse ≡ pass.old.purse }
{
    announce(pool, pass, 1, (link / 16) as u32);
    let second = confirm(pool, pass, Place::Walk(0), Side::Left, 1, link);
    if second != link {
        clear(pool, pass, 1);
        return false;
    }
    true
}

/// Clears both walk words of a call.
pub fn let_go(pool: &Pool<QueueShape>, pass: &mut Pass<QueueShape>)
    requires fits { Fits pool.now.table.shared.table_id pool.now.layout pass.old.seat }
    requires others { EmptyFrom 2 (known pass.old.seat) }
    ensures same { IsSame pass.old.seat pass.new.seat }
    ensures on { GoesOn (view pass.old.seat) (view pass.new.seat) }
    ensures up { StaysUp (known pass.old.seat) (known pass.new.seat) }
    ensures steps { (t : Tally) → Ran pool.now.layout.passes t t (view pass.old.seat) (view pass.new.seat) }
    ensures empty { EmptyFrom 0 (known pass.new.seat) }
    ensures purse { pass.new.purse ≡ pass.old.purse }
{
    clear(pool, pass, 0);
    clear(pool, pass, 1);
}

/// Tries once to move head 0 on from the dummy to the record behind it. Where four chains are in hand, they are flushed first.
/// Where head 0 led to the dummy, the take takes effect, and the dummy is the newest chain in hand.
pub fn remove_dummy(
    pool: &Pool<QueueShape>,
    pass: &mut Pass<QueueShape>,
    first: u64,
    new: u64,
) -> bool
    requires fits { Fits pool.now.table.shared.table_id pool.now.layout pass.old.seat }
    requires rest { IsAtRest (known pass.old.seat) pass.old.purse }
    requires may { MayRemove pool.now.layout (known pass.old.seat) first new }
    requires small { (first < 68719476736) × (new < 68719476736) }
    ensures same { IsSame pass.old.seat pass.new.seat }
    ensures took { result ≡ true → TookOff (value_of (slot (known pass.old.seat) 1).value)
        (view pass.old.seat) (view pass.new.seat) }
    ensures missed { result ≡ false → GoesFree (view pass.old.seat) (view pass.new.seat) }
    ensures steps { (word n : ℕ) → Ran pool.now.layout.passes (losing word n) (cond result (striking word n) (losing
        word (n + 1)))
        (view pass.old.seat) (view pass.new.seat) }
    ensures up { StaysUp (known pass.old.seat) (known pass.new.seat) }
    ensures alone { pool.now.layout.passes ≡ 1 → (known pass.old.seat).own.going ≡ true → result ≡ true }
    ensures walk { (known pass.new.seat).walk ≡ (known pass.old.seat).walk }
    ensures rest { IsAtRest (known pass.new.seat) pass.new.purse }
    ensures purse { SameFree pass.old.purse pass.new.purse }
{
    flush_full(pool, pass);
    let word = free_word(&pass.purse.chains);
    guard(pool, pass, word, (new / 16) as u32);
    let found = detach_dummy(pool, pass, 1, word, first, new);
    if found == first {
        return true;
    }
    unguard(pool, pass, word);
    false
}

/// What one turn of a take came to.
#[derive(Clone, Copy, Debug, PartialEq, Eq)]
pub enum TakeTurn {
    /// The turn was lost: the take begins again.
    Again,
    /// The queue was empty.
    Empty,
    /// The value that was taken.
    Took(u128),
}

/// One turn of a take, from the word that was loaded from head 0.
pub fn take_turn(pool: &Pool<QueueShape>, pass: &mut Pass<QueueShape>, first: u64) -> TakeTurn
    requires fits { Fits pool.now.table.shared.table_id pool.now.layout pass.old.seat }
    requires two { pool.now.layout.heads ≡ 2 }
    requires rest { IsAtRest (known pass.old.seat) pass.old.purse }
    requires going { (known pass.old.seat).own.going ≡ true }
    requires first { IsHeadWord first }
    requires empty { EmptyFrom 0 (known pass.old.seat) }
    ensures same { IsSame pass.old.seat pass.new.seat }
    ensures turned { TurnedTo result (view pass.old.seat) (view pass.new.seat) }
    ensures up { StaysUp (known pass.old.seat) (known pass.new.seat) }
    ensures alone { pool.now.layout.passes ≡ 1 → (known pass.old.seat).own.behind ≡ false
        → first ≡ word_in (view pass.old.seat) (head_place pool.now.layout 0) → IsDone result }
    ensures steps { (n : ℕ) → TakeRan pool.now.layout.passes first n result (view pass.old.seat) (view pass.new.seat) }
    ensures empty { EmptyFrom 0 (known pass.new.seat) }
    ensures rest { IsAtRest (known pass.new.seat) pass.new.purse }
    ensures purse { SameFree pass.old.purse pass.new.purse }
{
    if !stand_at(pool, pass, 0, first) {
        return TakeTurn::Again;
    }
    let last = see(pool, pass);
    let link = try_next(pool, pass, 0);
    let empty = link == 0;
    if empty {
        clear(pool, pass, 0);
        return TakeTurn::Empty;
    }
    let invalid = link / 4 % 2 == 1;
    if invalid {
        clear(pool, pass, 0);
        return TakeTurn::Again;
    }
    if !hold_next(pool, pass, link) {
        clear(pool, pass, 0);
        return TakeTurn::Again;
    }
    let new = link / 16 * 16;
    if last == first {
        advance(pool, pass, first, new);
        let_go(pool, pass);
        return TakeTurn::Again;
    }
    if !remove_dummy(pool, pass, first, new) {
        let_go(pool, pass);
        return TakeTurn::Again;
    }
    let taken = value(pool, pass, 1);
    let_go(pool, pass);
    TakeTurn::Took(taken)
}

/// One turn of a put with a record that was taken, from the word that was loaded from head 1. Gives whether the put took effect.
pub fn put_turn(
    pool: &Pool<QueueShape>,
    pass: &mut Pass<QueueShape>,
    number: u32,
    first: u64,
) -> bool
    requires fits { Fits pool.now.table.shared.table_id pool.now.layout pass.old.seat }
    requires two { pool.now.layout.heads ≡ 2 }
    requires record { (v : ℕ) × HasRecord (known pass.old.seat) pass.old.purse number v }
    requires first { IsHeadWord first }
    requires empty { EmptyFrom 0 (known pass.old.seat) }
    ensures same { IsSame pass.old.seat pass.new.seat }
    ensures put { (v : ℕ) → HasRecord (known pass.old.seat) pass.old.purse number v → result ≡ true
        → Struck (call.Put v) said.Put (view pass.old.seat) (view pass.new.seat) }
    ensures alone { pool.now.layout.passes ≡ 1 → (known pass.old.seat).own.behind ≡ false
        → first ≡ word_in (view pass.old.seat) (head_place pool.now.layout 1)
        → (result ≡ true) × ((known pass.new.seat).own.behind ≡ false) }
    ensures again { result ≡ false → GoesOn (view pass.old.seat) (view pass.new.seat) }
    ensures steps { (n : ℕ) → PutRan pool.now.layout first n result (view pass.old.seat) (view pass.new.seat) }
    ensures published { result ≡ true → IsPublished (known pass.new.seat) pass.new.purse number }
    ensures private { result ≡ false → IsPrivate (known pass.new.seat) pass.new.purse number }
    ensures same_lists { SameLists (known pass.old.seat) (known pass.new.seat) }
    ensures empty { EmptyFrom 0 (known pass.new.seat) }
    ensures purse { pass.new.purse ≡ pass.old.purse }
{
    if !stand_at(pool, pass, 1, first) {
        return false;
    }
    let link = look(pool, pass, 0);
    let last = link == 0;
    if last {
        let new = 16 * number as u64;
        let found = link_behind(pool, pass, 0, number, new);
        let linked = found == 0;
        if linked {
            advance(pool, pass, first, new);
            clear(pool, pass, 0);
            return true;
        }
        clear(pool, pass, 0);
        return false;
    }
    let invalid = link / 4 % 2 == 1;
    if invalid {
        clear(pool, pass, 0);
        return false;
    }
    advance(pool, pass, first, link / 16 * 16);
    clear(pool, pass, 0);
    false
}
