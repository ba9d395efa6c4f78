//! Letting go of what a seek holds no longer.

ghost use Rattle.std.specs.Prelude.{◌≡◌, ◌<◌, ◌↔◌, true};
ghost use Rattle.pp_base.specs.Passes.{known, view, Fits, IsSame};
ghost use Rattle.pp_seek.specs.Keeping.{IsOf, KeepsAt, KeepsOnly};

use pp_base::hazards::clear;
use pp_base::{Pass, Pool};
use pp_edges::TreeShape;

/// Up to three walk words, which may be the same.
#[derive(Clone, Copy, Debug, PartialEq, Eq)]
pub struct Words {
    pub first: u8,
    pub second: u8,
    pub third: u8,
}

impl Words {
    /// Whether a walk word is one of them.
    pub fn has(self, word: u8) -> bool
        ensures { (result ≡ true) ↔ IsOf self word }
    {
        word == self.first || word == self.second || word == self.third
    }
}

/// Clears a walk word that isn't 0, unless it is one of these.
fn keep_word(pool: &Pool<TreeShape>, pass: &mut Pass<TreeShape>, words: Words, word: u8)
    requires fits { Fits pool.now.table.shared.table_id pool.now.layout pass.old.seat }
    requires word { word < 5 }
    ensures same { IsSame pass.old.seat pass.new.seat }
    ensures keeps { KeepsAt words word (view pass.old.seat) (view pass.new.seat) }
    ensures purse { pass.new.purse ≡ pass.old.purse }
{
    if words.has(word) {
        return;
    }
    if pass.walk[word as usize] == 0 {
        return;
    }
    clear(pool, pass, word);
}

/// Clears each walk word that isn't 0, but these.
pub fn keep_only(pool: &Pool<TreeShape>, pass: &mut Pass<TreeShape>, words: Words)
    requires fits { Fits pool.now.table.shared.table_id pool.now.layout pass.old.seat }
    ensures same { IsSame pass.old.seat pass.new.seat }
    ensures keeps { KeepsOnly words 5 (view pass.old.seat) (view pass.new.seat) }
    ensures purse { pass.new.purse ≡ pass.old.purse }
{
    for word in 0..5 {
        keep_word(pool, pass, words, word);
    }
}

/// A walk word that is none of these.
pub fn other_than(words: Words) -> u8
    ensures low { result < 5 }
    ensures other { IsOf words result → ⊥ }
{
    if !words.has(0) {
        return 0;
    }
    if !words.has(1) {
        return 1;
    }
    if !words.has(2) {
        return 2;
    }
    3
}
