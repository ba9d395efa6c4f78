//! One atomic step of a pass under the rule, and what it tells the proof.

ghost use Rattle.std.specs.Prelude.{◌≡◌, ℕ, ◌<◌, bit_or};
ghost use prog.Atomic.{either};
ghost use Rattle.std.specs.Prelude.{◌==◌};
ghost use Rattle.atomic_table.specs.Table.{Me};
ghost use Rattle.pp_link.specs.Places.{total};
ghost use Rattle.pp_base.specs.Made.{MayStep, HasRun};
ghost use Rattle.pp_base.specs.Passes.{view};

use crate::pool::Pool;
use crate::source::{Place, Side};
use atomic_table::{Play, Seat};
use pp_link::Field;
use pp_model::Call;
use pp_rule::Shape;
use pp_rule::views::SeatView;
use std::marker::{Brand, PhantomData};

/// What a step tells, for the proof alone: of the seat before it, the word that was found or stored, and the seat
/// after it. Each step passes `Brand` and picks what it tells.
pub trait StepNote<V> {
    ghost then: { Me Unit V → ℕ → Me Unit V → Type 0 };
}

impl<V> StepNote<V> for Brand {
    ghost then = { λ _ _ _. Unit {0} };
}

struct Told<S, N> {
    shape: PhantomData<S>,
    note: PhantomData<N>,
}

impl<S: Shape, N: StepNote<SeatView<S::Entry, S::Said, S::Own>>> Play<
    (),
    SeatView<S::Entry, S::Said, S::Own>,
> for Told<S, N> {
    ghost then = { λ _ m n m'. N.then m n m' × HasRun S.SIDES S.SENTINELS S.first_head S.first_field S.addition S.caller_of m'.0 };
}

/// What a step is about. The step doesn't read it: the proof does, where it picks what the step tells.
#[derive(Clone, Copy)]
pub struct About {
    /// A walk word or a frontier word.
    pub word: u8,
    pub field: Field,
    pub at: Place,
    pub side: Side,
    /// A link's word, or a record's number.
    pub number: u64,
    /// A call of a map.
    pub call: Call,
}

/// About nothing.
pub const NOTHING: About = About {
    word: 0,
    field: Field::Key,
    at: Place::Walk(0),
    side: Side::Left,
    number: 0,
    call: Call::Get { key: 0 },
};

/// Loads the word at a place.
pub fn load_word<S: Shape, N: StepNote<SeatView<S::Entry, S::Said, S::Own>>>(
    pool: &Pool<S>,
    seat: &mut Seat<(), SeatView<S::Entry, S::Said, S::Own>>,
    place: u32,
    _about: About,
) -> u64
    requires table { seat.old.table_id ≡ pool.now.table.shared.table_id }
    requires place { place < total pool.now.layout }
    requires allows { MayStep S.SIDES S.SENTINELS S.first_head S.first_field S.addition pool.now.layout seat.old place
        (λ n. n) (N.then seat.old.me) }
    ensures table { seat.new.table_id ≡ seat.old.table_id }
    ensures told { N.then seat.old.me result seat.new.me }
    ensures run { HasRun S.SIDES S.SENTINELS S.first_head S.first_field S.addition S.caller_of (view seat.new) }
{
    pool.table.shared.load::<Told<S, N>>(seat, place as usize)
}

/// Stores the new word at a place.
pub fn store_word<S: Shape, N: StepNote<SeatView<S::Entry, S::Said, S::Own>>>(
    pool: &Pool<S>,
    seat: &mut Seat<(), SeatView<S::Entry, S::Said, S::Own>>,
    place: u32,
    new: u64,
    _about: About,
)
    requires table { seat.old.table_id ≡ pool.now.table.shared.table_id }
    requires place { place < total pool.now.layout }
    requires allows { MayStep S.SIDES S.SENTINELS S.first_head S.first_field S.addition pool.now.layout seat.old place
        (λ _. new) (λ _. N.then seat.old.me new) }
    ensures table { seat.new.table_id ≡ seat.old.table_id }
    ensures told { N.then seat.old.me new seat.new.me }
    ensures run { HasRun S.SIDES S.SENTINELS S.first_head S.first_field S.addition S.caller_of (view seat.new) }
{
    pool.table
        .shared
        .store::<Told<S, N>>(seat, place as usize, new);
}

/// Stores the new word at a place where the first word stands there. Gives the word that was found.
pub fn exchange_word<S: Shape, N: StepNote<SeatView<S::Entry, S::Said, S::Own>>>(
    pool: &Pool<S>,
    seat: &mut Seat<(), SeatView<S::Entry, S::Said, S::Own>>,
    place: u32,
    first: u64,
    new: u64,
    _about: About,
) -> u64
    requires table { seat.old.table_id ≡ pool.now.table.shared.table_id }
    requires place { place < total pool.now.layout }
    requires allows { MayStep S.SIDES S.SENTINELS S.first_head S.first_field S.addition pool.now.layout seat.old place
        (λ n. either (n == first) new n) (N.then seat.old.me) }
    ensures table { seat.new.table_id ≡ seat.old.table_id }
    ensures told { N.then seat.old.me result seat.new.me }
    ensures run { HasRun S.SIDES S.SENTINELS S.first_head S.first_field S.addition S.caller_of (view seat.new) }
{
    pool.table
        .shared
        .compare_exchange::<Told<S, N>>(seat, place as usize, first, new)
}

/// Sets bits of the word at a place. Gives the word that was found.
pub fn set_bits<S: Shape, N: StepNote<SeatView<S::Entry, S::Said, S::Own>>>(
    pool: &Pool<S>,
    seat: &mut Seat<(), SeatView<S::Entry, S::Said, S::Own>>,
    place: u32,
    bits: u64,
    _about: About,
) -> u64
    requires table { seat.old.table_id ≡ pool.now.table.shared.table_id }
    requires place { place < total pool.now.layout }
    requires allows { MayStep S.SIDES S.SENTINELS S.first_head S.first_field S.addition pool.now.layout seat.old place
        (λ n. bit_or n bits) (N.then seat.old.me) }
    ensures table { seat.new.table_id ≡ seat.old.table_id }
    ensures told { N.then seat.old.me result seat.new.me }
    ensures run { HasRun S.SIDES S.SENTINELS S.first_head S.first_field S.addition S.caller_of (view seat.new) }
{
    pool.table
        .shared
        .fetch_or::<Told<S, N>>(seat, place as usize, bits)
}

/// Stores the new word at a place. Gives the word that was found.
pub fn swap_word<S: Shape, N: StepNote<SeatView<S::Entry, S::Said, S::Own>>>(
    pool: &Pool<S>,
    seat: &mut Seat<(), SeatView<S::Entry, S::Said, S::Own>>,
    place: u32,
    new: u64,
    _about: About,
) -> u64
    requires table { seat.old.table_id ≡ pool.now.table.shared.table_id }
    requires place { place < total pool.now.layout }
    requires allows { MayStep S.SIDES S.SENTINELS S.first_head S.first_field S.addition pool.now.layout seat.old place
        (λ _. new) (N.then seat.old.me) }
    ensures table { seat.new.table_id ≡ seat.old.table_id }
    ensures told { N.then seat.old.me result seat.new.me }
    ensures run { HasRun S.SIDES S.SENTINELS S.first_head S.first_field S.addition S.caller_of (view seat.new) }
{
    pool.table
        .shared
        .swap::<Told<S, N>>(seat, place as usize, new)
}
