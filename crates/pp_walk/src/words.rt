//! The walk words of a pass: clearing those that have no role any more.

ghost use Rattle.std.specs.Prelude.{◌≡◌};
ghost use Rattle.pp_base.specs.Passes.{known, view, Fits, IsSame};
ghost use Rattle.pp_walk.specs.Trod.{Idles};
ghost use Rattle.pp_walk.specs.Words.{Cleared, AllEmpty, SameCallOf, SameRest};

use crate::ListShape;
use pp_base::hazards::clear;
use pp_base::{Pass, Pool};

/// Clears all walk words that are in use but these three, where 5 stands for none.
pub fn clear_but(pool: &Pool<ListShape>, pass: &mut Pass<ListShape>, a: u8, b: u8, c: u8)
    requires fits { Fits pool.now.table.shared.table_id pool.now.layout pass.old.seat }
    ensures same { IsSame pass.old.seat pass.new.seat }
    ensures cleared { Cleared a b c (known pass.old.seat) (known pass.new.seat) }
    ensures idles { Idles (view pass.old.seat) (view pass.new.seat) }
    ensures purse { pass.new.purse ≡ pass.old.purse }
{
    for word in 0..5u8 {
        // most words are empty at most turns: this is asked first
        if pass.walk[word as usize] != 0 {
            if word != a && word != b && word != c {
                clear(pool, pass, word);
            }
        }
    }
}

/// Clears all walk words that are in use.
pub fn rest(pool: &Pool<ListShape>, pass: &mut Pass<ListShape>)
    requires fits { Fits pool.now.table.shared.table_id pool.now.layout pass.old.seat }
    ensures same { IsSame pass.old.seat pass.new.seat }
    ensures empty { AllEmpty (known pass.new.seat) }
    ensures cleared { Cleared 5 5 5 (known pass.old.seat) (known pass.new.seat) }
    ensures call { SameCallOf (known pass.old.seat).own (known pass.new.seat).own }
    ensures going { (known pass.new.seat).own.going ≡ (known pass.old.seat).own.going }
    ensures rest { SameRest (known pass.old.seat) (known pass.new.seat) }
    ensures idles { Idles (view pass.old.seat) (view pass.new.seat) }
    ensures purse { pass.new.purse ≡ pass.old.purse }
{
    clear_but(pool, pass, 5, 5, 5);
}
