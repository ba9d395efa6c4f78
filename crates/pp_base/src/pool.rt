//! A pool of records, and the passes that use it.

ghost use Rattle.std.specs.Prelude.{◌≡◌, ◌+◌, ◌<◌, ◌≤◌, ◌↔◌, true, length};
ghost use Rattle.pp_link.specs.Places.{total};
ghost use Rattle.pp_base.specs.Made.{HasRun};
ghost use Rattle.pp_base.specs.Passes.{Keeping, known, view, IsIdle};

use crate::purse::Purse;
use atomic_table::{Seat, Table};
use pp_link::{Layout, Sizes};
use pp_rule::views::SeatView;
use pp_rule::{PoolRule, Shape};
use std::alloc::Global;

/// A table of records under the rule of its structure.
#[derive(Drop)]
pub struct Pool<S: Shape> {
    pub table: Table<(), SeatView<S::Entry, S::Said, S::Own>, Sizes, PoolRule<S>, Global>,
    pub layout: Layout,
    ghost keyed: { table.shared.key ≡ layout },
    ghost wide: { table.shared.table_id.words ≡ total layout },
    ghost slotless: { table.shared.table_id.slots ≡ 0 },
}

/// One caller's right to use a pool.
#[derive(Drop)]
pub struct Pass<S: Shape> {
    /// What it makes its steps with.
    pub seat: Seat<(), SeatView<S::Entry, S::Said, S::Own>>,
    /// The number of its caller.
    pub number: u32,
    /// How many records it was dealt.
    pub share: u32,
    /// The number in each of its walk words.
    pub walk: [u32; 5],
    /// Its lists, and its frontier words.
    pub purse: Purse,
    ghost keeping: { Keeping S.SENTINELS S.SIDES seat number share walk purse },
    ghost run: { HasRun S.SIDES S.SENTINELS S.first_head S.first_field S.addition S.caller_of (view seat) },
}

impl<S: Shape> Pass<S> {
    /// The number of its caller.
    pub fn number(&self) -> u32
        ensures { result ≡ (known self.now.seat).number }
    {
        self.number
    }

    /// Its free records that were not taken, the last one the next to be taken.
    pub fn free(&self) -> &[u32]
        ensures { result.now ≡ self.now.purse.free.items }
    {
        &self.purse.free
    }

    /// Its retired records, the oldest first.
    pub fn retired(&self) -> &[u32]
        ensures { result.now ≡ (known self.now.seat).retired }
    {
        &self.purse.retired[..self.purse.retired.len() - self.purse.spent]
    }

    /// How many chains it has in hand.
    pub fn chains(&self) -> u32
        ensures { result ≡ length (known self.now.seat).chains }
    {
        self.purse.chains.len() as u32
    }

    /// Whether its walk words are 0, no call of a map is going on, and each record that was taken was published or given
    /// back.
    pub fn idle(&self) -> bool
        ensures { (result ≡ true) ↔ IsIdle self.now.walk self.now.purse }
    {
        let unnamed = self.walk == [0; 5];
        unnamed && !self.purse.going && self.purse.taken == 0
    }

    /// How many records it was dealt.
    pub fn share(&self) -> u32
        ensures { result ≡ self.now.share }
    {
        self.share
    }
}

fn is_send<T: Send>(_value: &T) {}

fn is_sync<T: Sync>(_value: &T) {}

/// A pass goes to another thread, and a pool is shared.
pub fn may_cross<S: Shape>(pool: &Pool<S>, pass: &Pass<S>) {
    is_send(pass);
    is_sync(pool);
}
