//! The four steps with which calls change a tree: the exchange that publishes a pair, the one that flags the edge to a leaf
//! that goes, the or-step that tags the edge beside it, and the exchange that splices a tagged path out.
//!
//! That a leaf is removed by a flag on the edge to it, that a tag keeps the edge beside it, and that a whole tagged path is
//! taken out by one exchange at its ancestor is the way of Natarajan and Mittal ("Fast Concurrent Lock-Free Binary Search
//! Trees", 2014).

ghost use Rattle.std.specs.Prelude.{◌≡◌, ◌<◌, ◌+◌, ℕ};
ghost use Rattle.pp_link.specs.Links.{word_of};
ghost use Rattle.pp_base.specs.Passes.{known, view, Fits, IsSame, IsAtRest};
ghost use Rattle.pp_base.specs.Sources.{side_number, source_place, IsReadable};
ghost use Rattle.pp_base.specs.declared.source.Place.TheVariants.{Walk};
ghost use Rattle.pp_pool.specs.Taken.{IsPrivate, one_fewer_out};
ghost use Rattle.pp_trees.specs.Searches.{tree_chain};
ghost use Rattle.pp_trees.specs.Sentinels.{has_mark};
ghost use Rattle.pp_trees.specs.Edges.{MayTag, Tags};
ghost use Rattle.pp_unlink.specs.Invalidation.{SameFree};
ghost use Rattle.pp_unlink.specs.Unlinking.{Unlinks};
ghost use Rattle.pp_unlink.specs.declared.unlinking.Unlink.TheVariants.{Detached};
ghost use Rattle.pp_edges.specs.declared.edges.Published.TheVariants as published;
ghost use Rattle.pp_edges.specs.Edging.{MayPublishAt, PublishesAt, PublishedBy, MayFlagAt, FlagsAt, FlaggedBy};
ghost use Rattle.pp_edges.specs.Edging.{MaySpliceAt, HasPathInHand, plain_word};

use crate::TreeShape;
use pp_base::hazards::locate;
use pp_base::source::unpacked;
use pp_base::steps::{About, NOTHING, exchange_word, set_bits};
use pp_base::{Pass, Place, Pool, Side};
use pp_link::Link;
use pp_pool::{Fresh, published};
use pp_unlink::{Unlink, try_unlink};
use std::marker::Brand;

/// The bit of an edge that is FLAG.
const FLAG: u64 = 1;

/// The bit of an edge that is TAG.
const TAG: u64 = 2;

/// What came of one try to add a pair.
#[derive(Drop)]
pub enum Published {
    /// The pair is added, by this step.
    Done,
    /// The edge had become `found`, and nothing changed. The two records are still private.
    Changed {
        leaf: Fresh,
        inner: Fresh,
        found: Link,
    },
}

/// What came of one try to remove a pair.
#[derive(Clone, Copy, Debug, PartialEq, Eq)]
pub enum Flagged {
    /// The pair is removed, by this step.
    Done,
    /// The edge had become this one, and nothing changed.
    Changed(Link),
}

/// Tries once to add the pair of the pass's insert: to exchange the edge to a leaf, expected with LEAF alone, for one to an
/// internal record without bits, over the new leaf and the old one. The insert stands at the parent and hasn't taken
/// effect; its seek ended at this edge, at a held leaf with another key. Both private records are written: the leaf with
/// the pair and two nil links, the internal record with the greater of the two keys and links with LEAF to the two leaves,
/// the smaller key left.
///
/// Where the edge was as it is expected, the answer is Done: the insert took effect by this step, and both records are
/// spent. Else it is Changed with the edge that was found, and the two records back.
pub fn publish(
    pool: &Pool<TreeShape>,
    pass: &mut Pass<TreeShape>,
    parent: Place,
    side: Side,
    expected: Link,
    leaf: Fresh,
    inner: Fresh,
) -> Published
    requires fits { Fits pool.now.table.shared.table_id pool.now.layout pass.old.seat }
    requires readable { IsReadable 2 pool.now.layout (known pass.old.seat) parent side }
    requires leaf { IsPrivate (known pass.old.seat) pass.old.purse leaf.number }
    requires inner { IsPrivate (known pass.old.seat) pass.old.purse inner.number }
    requires may { MayPublishAt pool.now.layout (known pass.old.seat) leaf.number inner.number
        (source_place pool.now.layout (known pass.old.seat) parent side) (word_of expected) }
    ensures same { IsSame pass.old.seat pass.new.seat }
    ensures published { PublishedBy leaf.number inner.number (source_place pool.now.layout (known pass.old.seat) parent side)
        (word_of expected) (view pass.old.seat) (view pass.new.seat) result }
    ensures walk { pass.new.walk ≡ pass.old.walk }
    ensures spent { result ≡ published.Done → pass.new.purse ≡ one_fewer_out (one_fewer_out pass.old.purse) }
    ensures kept { (result ≡ published.Done → ⊥) → pass.new.purse ≡ pass.old.purse }
{
    let found = publish_pair(pool, pass, parent, side, expected, &leaf, &inner);
    if found != expected.word() {
        let found = unpacked(found);
        return Published::Changed { leaf, inner, found };
    }
    published(pass, leaf);
    published(pass, inner);
    Published::Done
}

/// Exchanges the edge to a leaf for one to an internal record over a new leaf. Gives the word that was found.
fn publish_pair(
    pool: &Pool<TreeShape>,
    pass: &mut Pass<TreeShape>,
    parent: Place,
    side: Side,
    expected: Link,
    leaf: &Fresh,
    inner: &Fresh,
) -> u64
    requires fits { Fits pool.now.table.shared.table_id pool.now.layout pass.old.seat }
    requires readable { IsReadable 2 pool.now.layout (known pass.old.seat) parent side }
    requires leaf { IsPrivate (known pass.old.seat) pass.old.purse leaf.now.number }
    requires inner { IsPrivate (known pass.old.seat) pass.old.purse inner.now.number }
    requires may { MayPublishAt pool.now.layout (known pass.old.seat) leaf.now.number inner.now.number
        (source_place pool.now.layout (known pass.old.seat) parent side) (word_of expected) }
    ensures same { IsSame pass.old.seat pass.new.seat }
    ensures publishes { PublishesAt leaf.now.number inner.now.number (source_place pool.now.layout
        (known pass.old.seat) parent side)
        (word_of expected) result (view pass.old.seat) (view pass.new.seat) }
    ensures walk { pass.new.walk ≡ pass.old.walk }
    ensures purse { pass.new.purse ≡ pass.old.purse }
{
    let place = locate(pool, pass, parent, side);
    let new = Link::pack(inner.number(), false, false, false, false);
    let about = About {
        number: leaf.number() as u64,
        ..NOTHING
    };
    exchange_word::<TreeShape, Brand>(
        pool,
        &mut pass.seat,
        place,
        expected.word(),
        new.word(),
        about,
    )
}

/// Tries once to remove the pair of a leaf: to set FLAG in the edge to it, expected with LEAF alone. The pass's call stands at
/// the parent and hasn't taken effect; its seek ended at this edge. It is a remove of the leaf's key, or a cut of that key
/// with the leaf's value. The leaf is held.
///
/// Where the edge was as it is expected, the answer is Done: the call took effect by this step. Else it is Changed with the
/// edge that was found.
pub fn flag(
    pool: &Pool<TreeShape>,
    pass: &mut Pass<TreeShape>,
    parent: Place,
    side: Side,
    leaf: Link,
) -> Flagged
    requires fits { Fits pool.now.table.shared.table_id pool.now.layout pass.old.seat }
    requires readable { IsReadable 2 pool.now.layout (known pass.old.seat) parent side }
    requires may { MayFlagAt pool.now.layout (known pass.old.seat) (source_place pool.now.layout
        (known pass.old.seat) parent side)
        (word_of leaf) }
    ensures same { IsSame pass.old.seat pass.new.seat }
    ensures flagged { FlaggedBy (source_place pool.now.layout (known pass.old.seat) parent side) (word_of leaf)
        (view pass.old.seat) (view pass.new.seat) result }
    ensures walk { pass.new.walk ≡ pass.old.walk }
    ensures purse { pass.new.purse ≡ pass.old.purse }
{
    let found = flag_edge(pool, pass, parent, side, leaf);
    if found == leaf.word() {
        return Flagged::Done;
    }
    Flagged::Changed(unpacked(found))
}

/// Exchanges the edge to a leaf for the same with FLAG. Gives the word that was found.
fn flag_edge(
    pool: &Pool<TreeShape>,
    pass: &mut Pass<TreeShape>,
    parent: Place,
    side: Side,
    leaf: Link,
) -> u64
    requires fits { Fits pool.now.table.shared.table_id pool.now.layout pass.old.seat }
    requires readable { IsReadable 2 pool.now.layout (known pass.old.seat) parent side }
    requires may { MayFlagAt pool.now.layout (known pass.old.seat) (source_place pool.now.layout
        (known pass.old.seat) parent side)
        (word_of leaf) }
    ensures same { IsSame pass.old.seat pass.new.seat }
    ensures flags { FlagsAt (source_place pool.now.layout (known pass.old.seat) parent side) (word_of leaf) result
        (view pass.old.seat) (view pass.new.seat) }
    ensures walk { pass.new.walk ≡ pass.old.walk }
    ensures purse { pass.new.purse ≡ pass.old.purse }
{
    let place = locate(pool, pass, parent, side);
    let expected = leaf.word();
    exchange_word::<TreeShape, Brand>(
        pool,
        &mut pass.seat,
        place,
        expected,
        expected + FLAG,
        NOTHING,
    )
}

/// Sets TAG in an edge of the parent, and gives the edge as it was. The pass's call stands at the parent, and it read FLAG
/// at the other edge or set it there, or it read TAG at this one. From then on the edge keeps its target, and it is the
/// last of the tagged path that the pass walked.
pub fn tag(pool: &Pool<TreeShape>, pass: &mut Pass<TreeShape>, parent: Place, side: Side) -> Link
    requires fits { Fits pool.now.table.shared.table_id pool.now.layout pass.old.seat }
    requires readable { IsReadable 2 pool.now.layout (known pass.old.seat) parent side }
    requires may { MayTag pool.now.layout (known pass.old.seat) (source_place pool.now.layout (known pass.old.seat) parent side)
        (side_number side) }
    ensures same { IsSame pass.old.seat pass.new.seat }
    ensures tagged { Tags (source_place pool.now.layout (known pass.old.seat) parent side) (side_number side) (word_of result)
        (view pass.old.seat) (view pass.new.seat) }
    ensures walk { pass.new.walk ≡ pass.old.walk }
    ensures purse { pass.new.purse ≡ pass.old.purse }
{
    unpacked(tag_edge(pool, pass, parent, side))
}

/// Sets TAG in an edge. Gives the word that was found.
fn tag_edge(pool: &Pool<TreeShape>, pass: &mut Pass<TreeShape>, parent: Place, side: Side) -> u64
    requires fits { Fits pool.now.table.shared.table_id pool.now.layout pass.old.seat }
    requires readable { IsReadable 2 pool.now.layout (known pass.old.seat) parent side }
    requires may { MayTag pool.now.layout (known pass.old.seat) (source_place pool.now.layout (known pass.old.seat) parent side)
        (side_number side) }
    ensures same { IsSame pass.old.seat pass.new.seat }
    ensures tags { Tags (source_place pool.now.layout (known pass.old.seat) parent side) (side_number side) result
        (view pass.old.seat) (view pass.new.seat) }
    ensures walk { pass.new.walk ≡ pass.old.walk }
    ensures purse { pass.new.purse ≡ pass.old.purse }
{
    let edge = locate(pool, pass, parent, side);
    let about = About { side, ..NOTHING };
    set_bits::<TreeShape, Brand>(pool, &mut pass.seat, edge, TAG, about)
}

/// Tries once to take a tagged path out of the tree: to exchange the ancestor's edge, expected to lead to the successor
/// without a bit, for the sibling's link without TAG. One walk of the pass from the root went over that edge and on over
/// tagged edges to the parent, whose edge at `sibling_side` is the last of them; `sibling` has its target, LEAF and FLAG.
///
/// Where four chains are in hand, they are flushed first. The sibling's number stands in a frontier word from before the
/// exchange until the chain is invalidated. Detached: the internal records from the successor to the parent and the flagged
/// leaves beside them are the newest chain in hand. Changed: the edge had become this one, the frontier word is 0 again, and
/// but for such a flush nothing changed.
pub fn splice(
    pool: &Pool<TreeShape>,
    pass: &mut Pass<TreeShape>,
    ancestor: Place,
    side: Side,
    successor: Link,
    parent: Place,
    sibling_side: Side,
    sibling: Link,
) -> Unlink
    requires fits { Fits pool.now.table.shared.table_id pool.now.layout pass.old.seat }
    requires rest { IsAtRest (known pass.old.seat) pass.old.purse }
    requires may { (word : ℕ) × (ancestor ≡ Walk word)
        × MaySpliceAt pool.now.layout (known pass.old.seat) word (word_of successor) parent sibling_side (word_of sibling) }
    ensures same { IsSame pass.old.seat pass.new.seat }
    ensures spliced { Unlinks 2 pool.now.layout has_mark tree_chain ancestor side (word_of successor)
        (plain_word (word_of sibling)) (view pass.old.seat) (view pass.new.seat) result }
    ensures in_hand { result ≡ Detached → HasPathInHand (known pass.old.seat).own.path (view pass.new.seat) }
    ensures rest { IsAtRest (known pass.new.seat) pass.new.purse }
    ensures walk { pass.new.walk ≡ pass.old.walk }
    ensures purse { SameFree pass.old.purse pass.new.purse }
{
    let (number, flag) = (sibling.number(), sibling.flag());
    let new = Link::pack(number, flag, false, false, sibling.leaf());
    try_unlink(pool, pass, ancestor, side, successor, new)
}
