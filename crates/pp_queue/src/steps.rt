//! The steps that a queue has beside those of every pool.

ghost use Rattle.std.specs.Prelude.{◌≡◌, ◌≢◌, ◌<◌, true, false, nat_eq, length};
ghost use Rattle.pp_link.specs.Links.{target, invalid_bit};
ghost use Rattle.pp_link.specs.Places.{head_place, cell_place};
ghost use Rattle.pp_rule.specs.Views.{slot};
ghost use Rattle.pp_base.specs.Passes.{known, view, Fits, IsSame};
ghost use Rattle.pp_base.specs.Chains.{MayTake as MayHave};
ghost use Rattle.pp_queues.specs.Turns.{Begins, Ends, Came, Saw, Looked, Tried, MayAdvance, Advanced, MayTake, Took};
ghost use Rattle.pp_queue.specs.Steps.{MayLinkAt, LinkedAt};

use crate::QueueShape;
use pp_base::hazards::locate;
use pp_base::steps::{About, NOTHING, exchange_word, load_word};
use pp_base::{InHand, Pass, Place, Pool, Side};
use std::marker::Brand;

/// Loads head 0: the first step of a take.
pub fn begin(pool: &Pool<QueueShape>, pass: &mut Pass<QueueShape>) -> u64
    requires fits { Fits pool.now.table.shared.table_id pool.now.layout pass.old.seat }
    requires two { pool.now.layout.heads ≡ 2 }
    ensures same { IsSame pass.old.seat pass.new.seat }
    ensures begins { Begins (head_place pool.now.layout 0) result (view pass.old.seat) (view pass.new.seat) }
    ensures walk { pass.new.walk ≡ pass.old.walk }
    ensures purse { pass.new.purse ≡ pass.old.purse }
{
    let place = pool.layout.head_word(0);
    load_word::<QueueShape, Brand>(pool, &mut pass.seat, place, NOTHING)
}

/// Loads a head: the first load of a put, and of each later turn.
pub fn load_end(pool: &Pool<QueueShape>, pass: &mut Pass<QueueShape>, head: u32) -> u64
    requires fits { Fits pool.now.table.shared.table_id pool.now.layout pass.old.seat }
    requires two { pool.now.layout.heads ≡ 2 }
    requires head { head < 2 }
    ensures same { IsSame pass.old.seat pass.new.seat }
    ensures ends { Ends (head_place pool.now.layout head) result (view pass.old.seat) (view pass.new.seat) }
    ensures walk { pass.new.walk ≡ pass.old.walk }
    ensures purse { pass.new.purse ≡ pass.old.purse }
{
    let place = pool.layout.head_word(head);
    load_word::<QueueShape, Brand>(pool, &mut pass.seat, place, NOTHING)
}

/// Loads a head again, whose first word leads to the record that is announced in a walk word. Where the head is as it was,
/// the call stands at that record.
pub fn come(
    pool: &Pool<QueueShape>,
    pass: &mut Pass<QueueShape>,
    head: u32,
    word: u8,
    first: u64,
) -> u64
    requires fits { Fits pool.now.table.shared.table_id pool.now.layout pass.old.seat }
    requires two { pool.now.layout.heads ≡ 2 }
    requires head { head < 2 }
    requires word { word < 5 }
    requires free { (slot (known pass.old.seat) word).held ≡ false }
    requires named { (slot (known pass.old.seat) word).named ≡ target first }
    requires valid { invalid_bit first ≡ 0 }
    requires record { target first ≢ 0 }
    ensures same { IsSame pass.old.seat pass.new.seat }
    ensures came { Came word (nat_eq head 0) first result (head_place pool.now.layout head)
        (view pass.old.seat) (view pass.new.seat) }
    ensures walk { pass.new.walk ≡ pass.old.walk }
    ensures purse { pass.new.purse ≡ pass.old.purse }
{
    let place = pool.layout.head_word(head);
    let about = About {
        word,
        at: Place::Head(head),
        number: first,
        ..NOTHING
    };
    load_word::<QueueShape, Brand>(pool, &mut pass.seat, place, about)
}

/// Loads head 1, for a take that stands at the dummy.
pub fn see(pool: &Pool<QueueShape>, pass: &mut Pass<QueueShape>) -> u64
    requires fits { Fits pool.now.table.shared.table_id pool.now.layout pass.old.seat }
    requires two { pool.now.layout.heads ≡ 2 }
    requires stands { (known pass.old.seat).own.at < 5 }
    requires front { (known pass.old.seat).own.front ≡ true }
    ensures same { IsSame pass.old.seat pass.new.seat }
    ensures saw { Saw (head_place pool.now.layout 1) result (view pass.old.seat) (view pass.new.seat) }
    ensures walk { pass.new.walk ≡ pass.old.walk }
    ensures purse { pass.new.purse ≡ pass.old.purse }
{
    let place = pool.layout.head_word(1);
    load_word::<QueueShape, Brand>(pool, &mut pass.seat, place, NOTHING)
}

/// Loads the link of the record where a put stands, in a walk word.
pub fn look(pool: &Pool<QueueShape>, pass: &mut Pass<QueueShape>, word: u8) -> u64
    requires fits { Fits pool.now.table.shared.table_id pool.now.layout pass.old.seat }
    requires two { pool.now.layout.heads ≡ 2 }
    requires word { word < 5 }
    requires at { (known pass.old.seat).own.at ≡ word }
    requires held { (slot (known pass.old.seat) word).held ≡ true }
    ensures same { IsSame pass.old.seat pass.new.seat }
    ensures looked { Looked (cell_place pool.now.layout (slot (known pass.old.seat) word).named 2) result (view pass.old.seat)
        (view pass.new.seat) }
    ensures walk { pass.new.walk ≡ pass.old.walk }
    ensures purse { pass.new.purse ≡ pass.old.purse }
{
    let place = locate(pool, pass, Place::Walk(word), Side::Left);
    load_word::<QueueShape, Brand>(pool, &mut pass.seat, place, NOTHING)
}

/// Loads the link of the record where a take stands, in a walk word. Nil settles that it is answered Empty.
pub fn try_next(pool: &Pool<QueueShape>, pass: &mut Pass<QueueShape>, word: u8) -> u64
    requires fits { Fits pool.now.table.shared.table_id pool.now.layout pass.old.seat }
    requires two { pool.now.layout.heads ≡ 2 }
    requires word { word < 5 }
    requires at { (known pass.old.seat).own.at ≡ word }
    requires held { (slot (known pass.old.seat) word).held ≡ true }
    requires front { (known pass.old.seat).own.front ≡ true }
    requires going { (known pass.old.seat).own.going ≡ true }
    ensures same { IsSame pass.old.seat pass.new.seat }
    ensures tried { Tried (cell_place pool.now.layout (slot (known pass.old.seat) word).named 2) result (view pass.old.seat)
        (view pass.new.seat) }
    ensures walk { pass.new.walk ≡ pass.old.walk }
    ensures purse { pass.new.purse ≡ pass.old.purse }
{
    let place = locate(pool, pass, Place::Walk(word), Side::Left);
    load_word::<QueueShape, Brand>(pool, &mut pass.seat, place, NOTHING)
}

/// Exchanges head 1, which leads to the record where the call stands, for the record to which that one leads.
pub fn advance(pool: &Pool<QueueShape>, pass: &mut Pass<QueueShape>, first: u64, new: u64) -> u64
    requires fits { Fits pool.now.table.shared.table_id pool.now.layout pass.old.seat }
    requires may { MayAdvance pool.now.layout (known pass.old.seat) (head_place pool.now.layout 1) first new }
    ensures same { IsSame pass.old.seat pass.new.seat }
    ensures advanced { Advanced (head_place pool.now.layout 1) first new result (view pass.old.seat) (view pass.new.seat) }
    ensures walk { pass.new.walk ≡ pass.old.walk }
    ensures purse { pass.new.purse ≡ pass.old.purse }
{
    let place = pool.layout.head_word(1);
    exchange_word::<QueueShape, Brand>(pool, &mut pass.seat, place, first, new, NOTHING)
}

/// Exchanges the nil link of the record where a put stands, in a walk word, for the put's record. Where it was nil, the put
/// takes effect.
pub fn link_behind(
    pool: &Pool<QueueShape>,
    pass: &mut Pass<QueueShape>,
    word: u8,
    number: u32,
    new: u64,
) -> u64
    requires fits { Fits pool.now.table.shared.table_id pool.now.layout pass.old.seat }
    requires word { word < 5 }
    requires held { (slot (known pass.old.seat) word).held ≡ true }
    requires may { MayLinkAt pool.now.layout (known pass.old.seat) pass.old.purse number
        (cell_place pool.now.layout (slot (known pass.old.seat) word).named 2) new }
    ensures same { IsSame pass.old.seat pass.new.seat }
    ensures linked { LinkedAt number (cell_place pool.now.layout (slot (known pass.old.seat) word).named 2) new result
        (view pass.old.seat) (view pass.new.seat) }
    ensures walk { pass.new.walk ≡ pass.old.walk }
    ensures purse { pass.new.purse ≡ pass.old.purse }
{
    let place = locate(pool, pass, Place::Walk(word), Side::Left);
    let about = About {
        number: number as u64,
        ..NOTHING
    };
    exchange_word::<QueueShape, Brand>(pool, &mut pass.seat, place, 0, new, about)
}

/// Exchanges head 0, which leads to the dummy where a take stands, for the record behind it, which the pass holds in another
/// walk word and names in a frontier word. Where head 0 led to the dummy, the take takes effect, and the dummy is a chain in
/// hand, the newest one.
pub fn detach_dummy(
    pool: &Pool<QueueShape>,
    pass: &mut Pass<QueueShape>,
    other: u8,
    guard: u8,
    first: u64,
    new: u64,
) -> u64
    requires fits { Fits pool.now.table.shared.table_id pool.now.layout pass.old.seat }
    requires may { MayTake pool.now.layout (known pass.old.seat) other guard (head_place pool.now.layout 0) first new }
    requires few { length (known pass.old.seat).chains < 4 }
    requires small { (first < 68719476736) × (new < 68719476736) }
    ensures same { IsSame pass.old.seat pass.new.seat }
    ensures took { Took other guard (head_place pool.now.layout 0) first new result (view pass.old.seat) (view pass.new.seat) }
    ensures walk { pass.new.walk ≡ pass.old.walk }
    ensures purse { MayHave (result ≡ first) (record { first = target first; guard = guard; frontier = target new })
        pass.old.purse pass.new.purse }
{
    let place = pool.layout.head_word(0);
    let about = About {
        word: guard,
        at: Place::Walk(other),
        ..NOTHING
    };
    let found = exchange_word::<QueueShape, Brand>(pool, &mut pass.seat, place, first, new, about);
    if found == first {
        let (dummy, frontier) = ((first / 16) as u32, (new / 16) as u32);
        pass.purse.take_in_hand(InHand {
            first: dummy,
            guard,
            frontier,
        });
    }
    found
}
