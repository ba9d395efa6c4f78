//! The parts of a turn of a seek.

ghost use Rattle.std.specs.Prelude.{◌≡◌, ◌<◌};
ghost use Rattle.pp_link.specs.Links.{word_of, leaf_bit};
ghost use Rattle.pp_model.specs.Calls.{key_of};
ghost use Rattle.pp_base.specs.Passes.{known, view, Fits, IsSame};
ghost use Rattle.pp_base.specs.Sources.{side_number};
ghost use Rattle.pp_trees.specs.Trees.{inf0, side};
ghost use Rattle.pp_seek.specs.Seeking.{words_of, AtHead, Enters, StandsIn, StandsBut, IsNear, Approaches, LookedDown, LookedAtHead, Backs};
ghost use Rattle.pp_seek.specs.Seeking.{CameOn, EndedAt, further_spot};
ghost use Rattle.pp_seek.specs.Keeping.{IsOf};
ghost use Rattle.pp_seek.specs.Lone.{LoneSpot, LoneNext, LoneNear, LoneDown};
ghost use Rattle.pp_trees.specs.Lone.{IsLone};

use crate::keeping::{Words, keep_only, other_than};
use crate::seek::{Above, Sought, Spot};
use crate::steps::{begin, come, come_to_root, end, look, look_again};
use pp_base::hazards::{announce, clear, read};
use pp_base::source::unpacked;
use pp_base::{Pass, Place, Pool, Side};
use pp_edges::TreeShape;
use pp_link::{Field, Link};
use pp_model::Call;

/// No walk word.
const NONE: Words = Words {
    first: 5,
    second: 5,
    third: 5,
};

/// What came of a step down from where a seek stands.
#[derive(Clone, Copy, Debug, PartialEq, Eq)]
pub enum Down {
    /// The edge had become another one: the seek stands where it stood.
    Moved,
    /// The seek stands at the head again.
    Broken,
    /// The seek stands there.
    Came(Spot),
    /// The seek ended.
    Ended(Sought),
}

/// An edge that was loaded once, and the walk word in which the record that it leads to is announced.
#[derive(Clone, Copy, Debug, PartialEq, Eq)]
pub struct Next {
    pub side: Side,
    pub link: Link,
    pub word: u8,
}

/// The side of a record with this key at which another key lies.
fn side_of(key: u64, here: u64) -> Side
    ensures { side_number result ≡ side key here }
{
    if key < here { Side::Left } else { Side::Right }
}

/// Comes from the head to the root. The first load of the call is its first step. A pass that is alone on its pool holds nothing
/// but what can be reached then, as before.
pub fn enter(pool: &Pool<TreeShape>, pass: &mut Pass<TreeShape>, call: Call, fresh: bool) -> Spot
    requires fits { Fits pool.now.table.shared.table_id pool.now.layout pass.old.seat }
    requires head { AtHead (known pass.old.seat) call fresh }
    ensures same { IsSame pass.old.seat pass.new.seat }
    ensures enters { Enters pool.now.layout call fresh result (view pass.old.seat) (view pass.new.seat) }
    ensures alone { IsLone pool.now.layout (view pass.old.seat) → LoneSpot pool.now.layout result (view pass.new.seat) }
    ensures purse { pass.new.purse ≡ pass.old.purse }
{
    look_at_head(pool, pass, call, fresh);
    announce(pool, pass, 0, 1);
    come_to_root(pool, pass, 0);
    let key = read(pool, pass, 0, Field::Key);
    Spot {
        word: 0,
        key,
        low: 0,
        high: key,
        above: None,
    }
}

/// Loads the head: the first load of a call begins it.
fn look_at_head(pool: &Pool<TreeShape>, pass: &mut Pass<TreeShape>, call: Call, fresh: bool)
    requires fits { Fits pool.now.table.shared.table_id pool.now.layout pass.old.seat }
    requires head { AtHead (known pass.old.seat) call fresh }
    ensures same { IsSame pass.old.seat pass.new.seat }
    ensures looked { LookedAtHead pool.now.layout call fresh (view pass.old.seat) (view pass.new.seat) }
    ensures purse { pass.new.purse ≡ pass.old.purse }
{
    if fresh {
        begin(pool, pass, call);
        return;
    }
    look_again(pool, pass);
}

/// Loads an edge of the record where a seek stands, and announces the record that it leads to. None comes where the edge has
/// INVALID: a pass that is alone on its pool never finds that, and the edge stays as it was loaded.
fn approach(
    pool: &Pool<TreeShape>,
    pass: &mut Pass<TreeShape>,
    spot: Spot,
    key: u64,
) -> Option<Next>
    requires fits { Fits pool.now.table.shared.table_id pool.now.layout pass.old.seat }
    requires stands { StandsIn (known pass.old.seat) spot }
    requires call { key_of (known pass.old.seat).own.call ≡ key }
    ensures same { IsSame pass.old.seat pass.new.seat }
    ensures approaches { Approaches pool.now.layout key spot (view pass.old.seat) (view pass.new.seat) result }
    ensures alone { LoneSpot pool.now.layout spot (view pass.old.seat) → LoneNear pool.now.layout spot (view pass.new.seat) result }
    ensures purse { pass.new.purse ≡ pass.old.purse }
{
    let side = side_of(key, spot.key);
    let first = look(pool, pass, spot.word, side);
    let link = unpacked(first);
    if link.invalid() {
        return None;
    }
    let word = other_than(spot.words());
    announce(pool, pass, word, link.number());
    Some(Next { side, link, word })
}

/// The key that a call speaks of.
pub fn key_of_call(call: Call) -> u64
    ensures { result ≡ key_of call }
{
    match call {
        Call::Get { key } => key,
        Call::Insert { key, .. } => key,
        Call::Remove { key } => key,
        Call::Cut { key, .. } => key,
    }
}

/// Goes back from an edge that had become another one, with this word: to the head, if it has INVALID.
fn lose(
    pool: &Pool<TreeShape>,
    pass: &mut Pass<TreeShape>,
    spot: Spot,
    next: Next,
    second: u64,
) -> Down
    requires fits { Fits pool.now.table.shared.table_id pool.now.layout pass.old.seat }
    requires stands { StandsBut next.word (known pass.old.seat) spot }
    requires word { next.word < 5 }
    requires other { IsOf (words_of spot) next.word → ⊥ }
    requires small { second < 68719476736 }
    ensures same { IsSame pass.old.seat pass.new.seat }
    ensures lost { Backs spot (view pass.old.seat) (view pass.new.seat) result }
    ensures purse { pass.new.purse ≡ pass.old.purse }
{
    clear(pool, pass, next.word);
    if unpacked(second).invalid() {
        keep_only(pool, pass, NONE);
        return Down::Broken;
    }
    Down::Moved
}

/// Makes a step down from where a seek stands. A pass that is alone on its pool comes to a further record or ends, where no
/// record that can be reached is removed.
pub fn go_down(pool: &Pool<TreeShape>, pass: &mut Pass<TreeShape>, spot: Spot, key: u64) -> Down
    requires fits { Fits pool.now.table.shared.table_id pool.now.layout pass.old.seat }
    requires stands { StandsIn (known pass.old.seat) spot }
    requires call { key_of (known pass.old.seat).own.call ≡ key }
    requires pair { key < inf0 }
    ensures same { IsSame pass.old.seat pass.new.seat }
    ensures looked { LookedDown pool.now.layout key spot (view pass.old.seat) (view pass.new.seat) result }
    ensures alone { LoneSpot pool.now.layout spot (view pass.old.seat) → LoneDown pool.now.layout (view pass.new.seat) result }
    ensures purse { pass.new.purse ≡ pass.old.purse }
{
    let Some(next) = approach(pool, pass, spot, key) else {
        keep_only(pool, pass, NONE);
        return Down::Broken;
    };
    if next.link.leaf() {
        return end_at(pool, pass, spot, key, next);
    }
    come_on(pool, pass, spot, key, next)
}

/// Tries to come to the internal record that is announced. A pass that is alone on its pool does: the edge is as it was, and the
/// record's key lies between the bounds, since the root's walks to it went the seek's way.
fn come_on(
    pool: &Pool<TreeShape>,
    pass: &mut Pass<TreeShape>,
    spot: Spot,
    key: u64,
    next: Next,
) -> Down
    requires fits { Fits pool.now.table.shared.table_id pool.now.layout pass.old.seat }
    requires near { IsNear (known pass.old.seat) key spot next }
    requires inner { leaf_bit (word_of next.link) ≡ 0 }
    requires pair { key < inf0 }
    ensures same { IsSame pass.old.seat pass.new.seat }
    ensures came { CameOn pool.now.layout spot next (view pass.old.seat) (view pass.new.seat) result }
    ensures alone { LoneNext pool.now.layout spot next (view pass.old.seat) → LoneDown pool.now.layout (view pass.new.seat) result }
    ensures purse { pass.new.purse ≡ pass.old.purse }
{
    let first = next.link.word();
    let second = come(pool, pass, spot.word, next.side, next.word, first);
    if second != first {
        return lose(pool, pass, spot, next, second);
    }
    let here = read(pool, pass, next.word, Field::Key);
    if here < spot.low || here >= spot.high {
        keep_only(pool, pass, NONE);
        return Down::Broken;
    }
    let on = further(spot, next, key, here);
    keep_only(pool, pass, on.words());
    Down::Came(on)
}

/// Where a seek stands that came to a record with this key.
fn further(spot: Spot, next: Next, key: u64, here: u64) -> Spot
    requires pair { key < inf0 }
    ensures { result ≡ further_spot spot next key here }
{
    let above = if next.link.tag() {
        spot.above
    } else {
        Some(Above {
            ancestor: spot.word,
            side: next.side,
            successor: next.link,
            top: next.word,
        })
    };
    let (low, high) = if key < here {
        (spot.low, here)
    } else {
        (here + 1, spot.high)
    };
    Spot {
        word: next.word,
        key: here,
        low,
        high,
        above,
    }
}

/// Tries to end at the leaf that is announced. A pass that is alone on its pool does, since the edge is as it was.
fn end_at(
    pool: &Pool<TreeShape>,
    pass: &mut Pass<TreeShape>,
    spot: Spot,
    key: u64,
    next: Next,
) -> Down
    requires fits { Fits pool.now.table.shared.table_id pool.now.layout pass.old.seat }
    requires near { IsNear (known pass.old.seat) key spot next }
    requires leaf { leaf_bit (word_of next.link) ≡ 1 }
    requires pair { key < inf0 }
    ensures same { IsSame pass.old.seat pass.new.seat }
    ensures ended { EndedAt pool.now.layout key spot next (view pass.old.seat) (view pass.new.seat) result }
    ensures alone { LoneNext pool.now.layout spot next (view pass.old.seat) → LoneDown pool.now.layout (view pass.new.seat) result }
    ensures purse { pass.new.purse ≡ pass.old.purse }
{
    let Some(above) = spot.above else {
        unreachable!();
    };
    let first = next.link.word();
    let second = end(pool, pass, spot.word, next.side, next.word, first);
    if second != first {
        return lose(pool, pass, spot, next, second);
    }
    let here = read(pool, pass, next.word, Field::Key);
    Down::Ended(Sought {
        ancestor: Place::Walk(above.ancestor),
        ancestor_side: above.side,
        successor: above.successor,
        parent: Place::Walk(spot.word),
        side: next.side,
        edge: next.link,
        word: next.word,
        equal: here == key,
    })
}
