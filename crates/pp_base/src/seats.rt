//! The steps by which seats deal out passes, take them over, leave behind what they have seen, and learn it.

ghost use Rattle.std.specs.Prelude.{◌≡◌, true, []};
ghost use Rattle.pp_rule.specs.Steps.{IsAlone, kept_part, dealt_part, both_parts, spent_part, told_part, meeting_part, Learnt};
ghost use Rattle.pp_rule.specs.Opening.{dealt};
ghost use Rattle.pp_base.specs.Made.{HasRun};
ghost use Rattle.pp_base.specs.Passes.{view};
ghost use Rattle.pp_base.specs.Seats.{HasMore};

use crate::pool::Pool;
use crate::steps::{NOTHING, load_word};
use atomic_table::{Join, Seat, Split};
use pp_rule::Shape;
use pp_rule::views::SeatView;
use std::marker::{Brand, PhantomData};

struct Deals<S> {
    shape: PhantomData<S>,
}

impl<S: Shape> Split<SeatView<S::Entry, S::Said, S::Own>> for Deals<S> {
    ghost left = { kept_part };

    ghost right = { dealt_part };
}

struct Tells<S> {
    shape: PhantomData<S>,
}

impl<S: Shape> Split<SeatView<S::Entry, S::Said, S::Own>> for Tells<S> {
    ghost left = { λ v. v };

    ghost right = { told_part };
}

struct Meets<S> {
    shape: PhantomData<S>,
}

impl<S: Shape> Join<SeatView<S::Entry, S::Said, S::Own>> for Meets<S> {
    ghost both = { both_parts };

    ghost spent = { spent_part (dealt S.SENTINELS S.fresh (record { passes = 0; records = 0; heads = 0 }) 0) };
}

struct Learns<S> {
    shape: PhantomData<S>,
}

impl<S: Shape> Join<SeatView<S::Entry, S::Said, S::Own>> for Learns<S> {
    ghost both = { meeting_part };

    ghost spent = { spent_part (dealt S.SENTINELS S.fresh (record { passes = 0; records = 0; heads = 0 }) 0) };
}

/// A seat that stands for several passes gives its own pass a seat alone. The next one takes its place.
pub fn deal_seat<S: Shape>(
    pool: &Pool<S>,
    seat: &mut Seat<(), SeatView<S::Entry, S::Said, S::Own>>,
) -> Seat<(), SeatView<S::Entry, S::Said, S::Own>>
    requires table { seat.old.table_id ≡ pool.now.table.shared.table_id }
    requires more { HasMore (view seat.old) }
    ensures table { (seat.new.table_id ≡ seat.old.table_id) × (result.table_id ≡ seat.old.table_id) }
    ensures kept { seat.new.me ≡ (kept_part (view seat.old), seat.old.me.1) }
    ensures dealt { result.me ≡ (dealt_part (view seat.old), []) }
{
    pool.table.shared.split_seat::<Deals<S>>(seat)
}

/// A seat that is alone with its pass takes over the passes of another one.
pub fn join_seat<S: Shape>(
    pool: &Pool<S>,
    seat: &mut Seat<(), SeatView<S::Entry, S::Said, S::Own>>,
    other: Seat<(), SeatView<S::Entry, S::Said, S::Own>>,
)
    requires table { seat.old.table_id ≡ pool.now.table.shared.table_id }
    requires lone { IsAlone seat.old.me }
    requires other_table { other.table_id ≡ pool.now.table.shared.table_id }
    requires bare { other.me.1 ≡ [] }
    requires standing { (view other).standing ≡ true }
    ensures table { seat.new.table_id ≡ seat.old.table_id }
    ensures joined { seat.new.me ≡ (both_parts (view seat.old) (view other), []) }
{
    pool.table.shared.join_seat::<Meets<S>>(seat, other);
}

/// A seat leaves behind what it has seen, in a seat that stands for no pass.
pub fn tell_seat<S: Shape>(
    pool: &Pool<S>,
    seat: &mut Seat<(), SeatView<S::Entry, S::Said, S::Own>>,
) -> Seat<(), SeatView<S::Entry, S::Said, S::Own>>
    requires table { seat.old.table_id ≡ pool.now.table.shared.table_id }
    ensures table { (seat.new.table_id ≡ seat.old.table_id) × (result.table_id ≡ seat.old.table_id) }
    ensures id { seat.new.id ≡ seat.old.id }
    ensures same { seat.new.me ≡ seat.old.me }
    ensures told { result.me ≡ (told_part (view seat.old), []) }
{
    pool.table.shared.split_seat::<Tells<S>>(seat)
}

/// A seat that is alone with its pass takes over what another one remembers, and keeps both orders until it learns of them.
pub fn meet_seat<S: Shape>(
    pool: &Pool<S>,
    seat: &mut Seat<(), SeatView<S::Entry, S::Said, S::Own>>,
    other: Seat<(), SeatView<S::Entry, S::Said, S::Own>>,
)
    requires table { seat.old.table_id ≡ pool.now.table.shared.table_id }
    requires other_table { other.table_id ≡ pool.now.table.shared.table_id }
    requires bare { other.me.1 ≡ [] }
    requires lone { IsAlone seat.old.me }
    ensures table { seat.new.table_id ≡ seat.old.table_id }
    ensures met { seat.new.me ≡ (meeting_part (view seat.old) (view other), seat.old.me.1) }
{
    pool.table.shared.join_seat::<Learns<S>>(seat, other);
}

/// A seat sees all steps so far, by a load that is no step of the order: they begin with the orders that met.
pub fn learn_orders<S: Shape>(
    pool: &Pool<S>,
    seat: &mut Seat<(), SeatView<S::Entry, S::Said, S::Own>>,
)
    requires table { seat.old.table_id ≡ pool.now.table.shared.table_id }
    ensures table { seat.new.table_id ≡ seat.old.table_id }
    ensures slots { seat.new.me.1 ≡ seat.old.me.1 }
    ensures learnt { Learnt (view seat.old) (view seat.new) }
    ensures run { HasRun S.SIDES S.SENTINELS S.first_head S.first_field S.addition S.caller_of (view seat.new) }
{
    load_word::<S, Brand>(pool, seat, 0, NOTHING);
}
