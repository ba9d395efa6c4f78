//! The steps at the walk words of a pass, and the loads of links and of held records.

ghost use Rattle.std.specs.Prelude.{◌≡◌, ◌≢◌, ◌<◌, false, true};
ghost use Rattle.pp_link.specs.Links.{target, invalid_bit};
ghost use Rattle.pp_link.specs.Places.{total, field_number};
ghost use Rattle.pp_rule.specs.Views.{slot};
ghost use Rattle.pp_base.specs.Passes.{known, Fits, IsSame};
ghost use Rattle.pp_base.specs.Sources.{source_place, IsReadable};
ghost use Rattle.pp_base.specs.Made.{Announced, ClearedWord, ReadHeld, LoadedAt, ConfirmedAt};

use crate::pool::{Pass, Pool};
use crate::source::{Place, Side};
use crate::steps::{About, NOTHING, load_word, store_word};
use pp_link::Field;
use pp_rule::Shape;
use std::marker::Brand;

/// Where the link stands that a pass may load there.
pub fn locate<S: Shape>(pool: &Pool<S>, pass: &Pass<S>, at: Place, side: Side) -> u32
    requires fits { Fits pool.now.table.shared.table_id pool.now.layout pass.now.seat }
    requires readable { IsReadable S.SIDES pool.now.layout (known pass.now.seat) at side }
    ensures place { result ≡ source_place pool.now.layout (known pass.now.seat) at side }
    ensures low { result < total pool.now.layout }
{
    match at {
        Place::Head(head) => pool.layout.head_word(head),
        Place::Walk(word) => pool.layout.cell(pass.walk[word as usize], side.field()),
    }
}

/// Stores a number into a walk word in which nothing is held.
pub fn announce<S: Shape>(pool: &Pool<S>, pass: &mut Pass<S>, word: u8, number: u32)
    requires fits { Fits pool.now.table.shared.table_id pool.now.layout pass.old.seat }
    requires word { word < 5 }
    requires free { (slot (known pass.old.seat) word).held ≡ false }
    ensures same { IsSame pass.old.seat pass.new.seat }
    ensures made { Announced pool.now.layout word number pass.old.seat pass.new.seat }
    ensures purse { pass.new.purse ≡ pass.old.purse }
{
    let place = pool.layout.walk_word(pass.number, word);
    let about = About { word, ..NOTHING };
    store_word::<S, Brand>(pool, &mut pass.seat, place, number as u64, about);
    pass.walk[word as usize] = number;
}

/// Stores 0 into a walk word: what was held in it is no longer held.
pub fn clear<S: Shape>(pool: &Pool<S>, pass: &mut Pass<S>, word: u8)
    requires fits { Fits pool.now.table.shared.table_id pool.now.layout pass.old.seat }
    requires word { word < 5 }
    ensures same { IsSame pass.old.seat pass.new.seat }
    ensures made { ClearedWord pool.now.layout S.forget word pass.old.seat pass.new.seat }
    ensures purse { pass.new.purse ≡ pass.old.purse }
{
    let place = pool.layout.walk_word(pass.number, word);
    let about = About { word, ..NOTHING };
    store_word::<S, Brand>(pool, &mut pass.seat, place, 0, about);
    pass.walk[word as usize] = 0;
}

/// Loads the key or a half of the value of the record that is held in a walk word: what it was published with.
pub fn read<S: Shape>(pool: &Pool<S>, pass: &mut Pass<S>, word: u8, field: Field) -> u64
    requires fits { Fits pool.now.table.shared.table_id pool.now.layout pass.old.seat }
    requires word { word < 5 }
    requires held { (slot (known pass.old.seat) word).held ≡ true }
    requires field { (field_number field ≢ 2) × (field_number field ≢ 3) }
    ensures same { IsSame pass.old.seat pass.new.seat }
    ensures read { ReadHeld pool.now.layout word field result pass.old.seat pass.new.seat }
    ensures purse { pass.new.purse ≡ pass.old.purse }
{
    let place = pool.layout.cell(pass.walk[word as usize], field);
    let about = About {
        word,
        field,
        ..NOTHING
    };
    load_word::<S, Brand>(pool, &mut pass.seat, place, about)
}

/// Loads a link of a head or of a held record. Where it is a held record's and frozen, the pass has learnt it.
pub fn load_link<S: Shape>(pool: &Pool<S>, pass: &mut Pass<S>, at: Place, side: Side) -> u64
    requires fits { Fits pool.now.table.shared.table_id pool.now.layout pass.old.seat }
    requires readable { IsReadable S.SIDES pool.now.layout (known pass.old.seat) at side }
    ensures same { IsSame pass.old.seat pass.new.seat }
    ensures loaded { LoadedAt pool.now.layout S.frozen at side result pass.old.seat pass.new.seat }
    ensures purse { pass.new.purse ≡ pass.old.purse }
{
    let place = locate(pool, pass, at, side);
    let about = About {
        at,
        side,
        ..NOTHING
    };
    load_word::<S, Brand>(pool, &mut pass.seat, place, about)
}

/// Loads a link again, whose first word leads to the record that is announced in a walk word. Where the link is as it
/// was, the record is held. Another word is learnt as a first load learns it.
pub fn confirm<S: Shape>(
    pool: &Pool<S>,
    pass: &mut Pass<S>,
    at: Place,
    side: Side,
    word: u8,
    first: u64,
) -> u64
    requires fits { Fits pool.now.table.shared.table_id pool.now.layout pass.old.seat }
    requires readable { IsReadable S.SIDES pool.now.layout (known pass.old.seat) at side }
    requires word { word < 5 }
    requires free { (slot (known pass.old.seat) word).held ≡ false }
    requires named { (slot (known pass.old.seat) word).named ≡ target first }
    requires first { (invalid_bit first ≡ 0) × (target first ≢ 0) }
    ensures same { IsSame pass.old.seat pass.new.seat }
    ensures confirmed { ConfirmedAt pool.now.layout S.frozen at side word first result pass.old.seat pass.new.seat }
    ensures purse { pass.new.purse ≡ pass.old.purse }
{
    let place = locate(pool, pass, at, side);
    let about = About {
        word,
        at,
        side,
        number: first,
        ..NOTHING
    };
    load_word::<S, Brand>(pool, &mut pass.seat, place, about)
}
