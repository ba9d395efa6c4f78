//! The value of a record.

ghost use Rattle.std.specs.Prelude.{◌≡◌, ◌<◌, true};
ghost use Rattle.pp_rule.specs.Views.{slot, value_of};
ghost use Rattle.pp_base.specs.Passes.{known, view, Fits, IsSame};
ghost use Rattle.pp_tree_calls.specs.Turned.{Idles};

use pp_base::{Pass, Pool};
use pp_edges::TreeShape;
use pp_hazard::value;

/// The value of the record that the pass holds in a walk word.
pub fn stored(pool: &Pool<TreeShape>, pass: &mut Pass<TreeShape>, word: u8) -> u128
    requires fits { Fits pool.now.table.shared.table_id pool.now.layout pass.old.seat }
    requires word { word < 5 }
    requires held { (slot (known pass.old.seat) word).held ≡ true }
    ensures same { IsSame pass.old.seat pass.new.seat }
    ensures idles { Idles pool.now.layout (view pass.old.seat) (view pass.new.seat) }
    ensures value { result ≡ value_of (slot (known pass.old.seat) word).value }
    ensures purse { pass.new.purse ≡ pass.old.purse }
{
    value(pool, pass, word)
}
