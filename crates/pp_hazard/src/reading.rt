//! The loads of links and of held records.

ghost use Rattle.std.specs.Prelude.{◌≡◌, ◌<◌, ℕ, true};
ghost use Rattle.pp_link.specs.Links.{word_of};
ghost use Rattle.pp_link.specs.declared.layout.Field.TheVariants.{Key};
ghost use Rattle.pp_rule.specs.Views.{slot, value_of};
ghost use Rattle.pp_hazard.specs.Reading.{ReadValue};
ghost use Rattle.pp_base.specs.Passes.{known, Fits, IsSame};
ghost use Rattle.pp_base.specs.Sources.{IsReadable};
ghost use Rattle.pp_base.specs.Made.{ReadHeld, LoadedAt};

use pp_base::hazards::{load_link, read};
use pp_base::source::unpacked;
use pp_base::{Pass, Place, Pool, Side};
use pp_link::{Field, Link};
use pp_rule::Shape;

/// Loads a link of a head, or of a record that the pass holds: one step. Where it is a held record's and frozen, the
/// pass has learnt it.
pub fn link<S: Shape>(pool: &Pool<S>, pass: &mut Pass<S>, at: Place, side: Side) -> Link
    requires fits { Fits pool.now.table.shared.table_id pool.now.layout pass.old.seat }
    requires readable { IsReadable S.SIDES pool.now.layout (known pass.old.seat) at side }
    ensures same { IsSame pass.old.seat pass.new.seat }
    ensures loaded { LoadedAt pool.now.layout S.frozen at side (word_of result) pass.old.seat pass.new.seat }
    ensures purse { pass.new.purse ≡ pass.old.purse }
{
    unpacked(load_link(pool, pass, at, side))
}

/// Loads the key of the record that the pass holds in a walk word: one step. It is the key that the record was
/// published with.
pub fn key<S: Shape>(pool: &Pool<S>, pass: &mut Pass<S>, word: u8) -> u64
    requires fits { Fits pool.now.table.shared.table_id pool.now.layout pass.old.seat }
    requires word { word < 5 }
    requires held { (slot (known pass.old.seat) word).held ≡ true }
    ensures same { IsSame pass.old.seat pass.new.seat }
    ensures read { ReadHeld pool.now.layout word Key result pass.old.seat pass.new.seat }
    ensures key { result ≡ (slot (known pass.old.seat) word).key }
    ensures purse { pass.new.purse ≡ pass.old.purse }
{
    read(pool, pass, word, Field::Key)
}

/// Loads the value of the record that the pass holds in a walk word: two steps, the low half first. It is the value that the
/// record was published with.
pub fn value<S: Shape>(pool: &Pool<S>, pass: &mut Pass<S>, word: u8) -> u128
    requires fits { Fits pool.now.table.shared.table_id pool.now.layout pass.old.seat }
    requires word { word < 5 }
    requires held { (slot (known pass.old.seat) word).held ≡ true }
    ensures same { IsSame pass.old.seat pass.new.seat }
    ensures read { ReadValue pool.now.layout word result pass.old.seat pass.new.seat }
    ensures value { result ≡ value_of (slot (known pass.old.seat) word).value }
    ensures purse { pass.new.purse ≡ pass.old.purse }
{
    let low = read(pool, pass, word, Field::Value);
    let high = read(pool, pass, word, Field::High);
    u128::from(low) + 18446744073709551616 * u128::from(high)
}
