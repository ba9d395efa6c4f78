//! The steps that are a seek's own: the loads with which it begins, goes on and ends.

ghost use Rattle.std.specs.Prelude.{◌≡◌, ◌<◌, ◌+◌, true, false};
ghost use Rattle.pp_link.specs.Places.{head_place, cell_place};
ghost use Rattle.pp_model.specs.Calls.{key_of};
ghost use Rattle.pp_rule.specs.Views.{slot};
ghost use Rattle.pp_base.specs.Passes.{known, view, Fits, IsSame};
ghost use Rattle.pp_base.specs.Sources.{side_number};
ghost use Rattle.pp_trees.specs.Trees.{inf0};
ghost use Rattle.pp_trees.specs.Seeks.{Begins, LooksAgain, ComesToRoot, Looks, MayCome, PathEnds, ComesTo, EndsAt};
ghost use Rattle.pp_link.specs.Links.{tag_bit};

use pp_base::hazards::locate;
use pp_base::steps::{About, NOTHING, load_word};
use pp_base::{Pass, Place, Pool, Side};
use pp_edges::TreeShape;
use pp_model::Call;
use std::marker::Brand;

/// Loads the head: the first step of the call, which begins.
pub fn begin(pool: &Pool<TreeShape>, pass: &mut Pass<TreeShape>, call: Call) -> u64
    requires fits { Fits pool.now.table.shared.table_id pool.now.layout pass.old.seat }
    ensures same { IsSame pass.old.seat pass.new.seat }
    ensures begins { Begins (head_place pool.now.layout 0) call result (view pass.old.seat) (view pass.new.seat) }
    ensures walk { pass.new.walk ≡ pass.old.walk }
    ensures purse { pass.new.purse ≡ pass.old.purse }
{
    let place = pool.layout.head_word(0);
    let about = About { call, ..NOTHING };
    load_word::<TreeShape, Brand>(pool, &mut pass.seat, place, about)
}

/// Loads the head for a call that was begun.
pub fn look_again(pool: &Pool<TreeShape>, pass: &mut Pass<TreeShape>) -> u64
    requires fits { Fits pool.now.table.shared.table_id pool.now.layout pass.old.seat }
    ensures same { IsSame pass.old.seat pass.new.seat }
    ensures looks { LooksAgain (head_place pool.now.layout 0) result (view pass.old.seat) (view pass.new.seat) }
    ensures walk { pass.new.walk ≡ pass.old.walk }
    ensures purse { pass.new.purse ≡ pass.old.purse }
{
    let place = pool.layout.head_word(0);
    load_word::<TreeShape, Brand>(pool, &mut pass.seat, place, NOTHING)
}

/// Loads the head again, whose root is announced in a walk word: the call stands at the root.
pub fn come_to_root(pool: &Pool<TreeShape>, pass: &mut Pass<TreeShape>, word: u8) -> u64
    requires fits { Fits pool.now.table.shared.table_id pool.now.layout pass.old.seat }
    requires word { word < 5 }
    requires free { (slot (known pass.old.seat) word).held ≡ false }
    requires named { (slot (known pass.old.seat) word).named ≡ 1 }
    requires pair { key_of (known pass.old.seat).own.call < inf0 }
    ensures same { IsSame pass.old.seat pass.new.seat }
    ensures comes { ComesToRoot word (head_place pool.now.layout 0) result (view pass.old.seat) (view pass.new.seat) }
    ensures walk { pass.new.walk ≡ pass.old.walk }
    ensures purse { pass.new.purse ≡ pass.old.purse }
{
    let place = pool.layout.head_word(0);
    let about = About { word, ..NOTHING };
    load_word::<TreeShape, Brand>(pool, &mut pass.seat, place, about)
}

/// Loads an edge of the record where the call stands.
pub fn look(pool: &Pool<TreeShape>, pass: &mut Pass<TreeShape>, word: u8, side: Side) -> u64
    requires fits { Fits pool.now.table.shared.table_id pool.now.layout pass.old.seat }
    requires word { word < 5 }
    requires at { (known pass.old.seat).own.at ≡ word }
    requires held { (slot (known pass.old.seat) word).held ≡ true }
    ensures same { IsSame pass.old.seat pass.new.seat }
    ensures looks { Looks (side_number side) (cell_place pool.now.layout (slot (known pass.old.seat) word).named
        (2 + side_number side)) result
        (view pass.old.seat) (view pass.new.seat) }
    ensures walk { pass.new.walk ≡ pass.old.walk }
    ensures purse { pass.new.purse ≡ pass.old.purse }
{
    let place = locate(pool, pass, Place::Walk(word), side);
    let about = About { side, ..NOTHING };
    load_word::<TreeShape, Brand>(pool, &mut pass.seat, place, about)
}

/// Loads an edge to an internal record again, which is announced in the walk word `next`. Where the edge is as it was, the
/// call stands at that record.
pub fn come(
    pool: &Pool<TreeShape>,
    pass: &mut Pass<TreeShape>,
    word: u8,
    side: Side,
    next: u8,
    first: u64,
) -> u64
    requires fits { Fits pool.now.table.shared.table_id pool.now.layout pass.old.seat }
    requires word { word < 5 }
    requires at { (known pass.old.seat).own.at ≡ word }
    requires held { (slot (known pass.old.seat) word).held ≡ true }
    requires may { MayCome pool.now.layout (known pass.old.seat) next (side_number side)
        (cell_place pool.now.layout (slot (known pass.old.seat) word).named (2 + side_number side)) first 0 }
    requires ends { tag_bit first ≡ 1 → PathEnds (known pass.old.seat) }
    ensures same { IsSame pass.old.seat pass.new.seat }
    ensures comes { ComesTo next (side_number side) (cell_place pool.now.layout (slot (known pass.old.seat) word).named
        (2 + side_number side))
        first result (view pass.old.seat) (view pass.new.seat) }
    ensures walk { pass.new.walk ≡ pass.old.walk }
    ensures purse { pass.new.purse ≡ pass.old.purse }
{
    let place = locate(pool, pass, Place::Walk(word), side);
    let about = About {
        side,
        word: next,
        number: first,
        ..NOTHING
    };
    load_word::<TreeShape, Brand>(pool, &mut pass.seat, place, about)
}

/// Loads an edge to a leaf again, which is announced in the walk word `next`. Where the edge is as it was, the seek ends at
/// that leaf. A reply that changes nothing is settled by this step.
pub fn end(
    pool: &Pool<TreeShape>,
    pass: &mut Pass<TreeShape>,
    word: u8,
    side: Side,
    next: u8,
    first: u64,
) -> u64
    requires fits { Fits pool.now.table.shared.table_id pool.now.layout pass.old.seat }
    requires word { word < 5 }
    requires at { (known pass.old.seat).own.at ≡ word }
    requires held { (slot (known pass.old.seat) word).held ≡ true }
    requires may { MayCome pool.now.layout (known pass.old.seat) next (side_number side)
        (cell_place pool.now.layout (slot (known pass.old.seat) word).named (2 + side_number side)) first 1 }
    ensures same { IsSame pass.old.seat pass.new.seat }
    ensures ends { EndsAt next (side_number side) (cell_place pool.now.layout (slot (known pass.old.seat) word).named
        (2 + side_number side))
        first result (view pass.old.seat) (view pass.new.seat) }
    ensures walk { pass.new.walk ≡ pass.old.walk }
    ensures purse { pass.new.purse ≡ pass.old.purse }
{
    let place = locate(pool, pass, Place::Walk(word), side);
    let about = About {
        side,
        word: next,
        number: first,
        ..NOTHING
    };
    load_word::<TreeShape, Brand>(pool, &mut pass.seat, place, about)
}
