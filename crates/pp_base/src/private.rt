//! The step at a private record.

ghost use Rattle.std.specs.Prelude.{◌≡◌};
ghost use Rattle.pp_base.specs.Passes.{known, Fits, IsSame};
ghost use Rattle.pp_base.specs.Private.{IsOwned};
ghost use Rattle.pp_base.specs.Made.{WroteOwned};

use crate::pool::{Pass, Pool};
use crate::steps::{About, NOTHING, store_word};
use pp_link::Field;
use pp_rule::Shape;
use std::marker::Brand;

/// Stores a word in a field of a record that the pass owns.
pub fn write<S: Shape>(pool: &Pool<S>, pass: &mut Pass<S>, number: u32, field: Field, word: u64)
    requires fits { Fits pool.now.table.shared.table_id pool.now.layout pass.old.seat }
    requires owned { IsOwned (known pass.old.seat) number }
    ensures same { IsSame pass.old.seat pass.new.seat }
    ensures wrote { WroteOwned pool.now.layout number field word pass.old.seat pass.new.seat }
    ensures walk { pass.new.walk ≡ pass.old.walk }
    ensures purse { pass.new.purse ≡ pass.old.purse }
{
    let place = pool.layout.cell(number, field);
    let about = About {
        field,
        number: number as u64,
        ..NOTHING
    };
    store_word::<S, Brand>(pool, &mut pass.seat, place, word, about);
}
