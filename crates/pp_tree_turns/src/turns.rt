//! The turns of a call after its seek.

ghost use Rattle.std.specs.Prelude.{◌≡◌, ◌≢◌, true, None, Some};
ghost use Rattle.pp_base.specs.Passes.{known, view, Fits, IsSame, IsAtRest};
ghost use Rattle.pp_base.specs.Sources.{side_number};
ghost use Rattle.pp_unlink.specs.Invalidation.{SameFree};
ghost use Rattle.pp_link.specs.declared.link.Link.{Link};
ghost use Rattle.pp_trees.specs.Clean.{IsBare};
ghost use Rattle.pp_trees.specs.Lone.{words_of};
ghost use Rattle.pp_trees.specs.Trees.{across};
ghost use Rattle.pp_base.specs.declared.source.Side.{Side};
ghost use Rattle.pp_seek.specs.Lone.{LoneSought};
ghost use Rattle.pp_tree_turns.specs.Lone.{LoneFlagged, LoneTagged};
ghost use Rattle.pp_tree_turns.specs.Exchanging.{FlagsNext, FlaggedTo, TagsNext, TaggedTo, SplicesNext, SplicedTo};

use pp_base::{Pass, Pool, Side};
use pp_detached::clear_after;
use pp_edges::{Flagged, TreeShape, flag, splice, tag};
use pp_hazard::value;
use pp_link::Link;
use pp_seek::Sought;
use pp_unlink::Unlink;

/// The other side of a record.
pub fn other(side: Side) -> Side
    ensures { side_number result ≡ across (side_number side) }
{
    match side {
        Side::Left => Side::Right,
        Side::Right => Side::Left,
    }
}

/// Sets FLAG in the edge to the leaf at which the seek of a removal ended: the call takes effect, and the leaf's value is
/// read. None says that the edge had become another one: the turn is lost. A pass that is alone on its pool is never told so
/// where that edge stands, and leaves FLAG at this edge alone.
pub fn flag_turn(pool: &Pool<TreeShape>, pass: &mut Pass<TreeShape>, sought: Sought) -> Option<u128>
    requires fits { Fits pool.now.table.shared.table_id pool.now.layout pass.old.seat }
    requires may { FlagsNext (known pass.old.seat) sought }
    ensures same { IsSame pass.old.seat pass.new.seat }
    ensures flagged { FlaggedTo pool.now.layout (known pass.old.seat).own.call sought result
        (view pass.old.seat) (view pass.new.seat) }
    ensures alone { LoneSought pool.now.layout sought (view pass.old.seat) → (result ≢ None)
        × ((other : Side) → side_number other ≡ across (side_number sought.side)
        → LoneFlagged pool.now.layout sought other (view pass.new.seat)) }
    ensures purse { pass.new.purse ≡ pass.old.purse }
{
    match flag(pool, pass, sought.parent, sought.side, sought.edge) {
        Flagged::Done => Some(value(pool, pass, sought.word)),
        Flagged::Changed(_) => None,
    }
}

/// Sets TAG in the parent's edge at this side, beside which a leaf goes. Gives the edge as it was. None says that it has
/// INVALID: the turn is lost. A pass that is alone on its pool is never told so after its flag.
pub fn tag_turn(
    pool: &Pool<TreeShape>,
    pass: &mut Pass<TreeShape>,
    sought: Sought,
    side: Side,
) -> Option<Link>
    requires fits { Fits pool.now.table.shared.table_id pool.now.layout pass.old.seat }
    requires may { TagsNext (known pass.old.seat) sought side }
    ensures same { IsSame pass.old.seat pass.new.seat }
    ensures tagged { TaggedTo pool.now.layout sought side result (view pass.old.seat) (view pass.new.seat) }
    ensures alone { LoneFlagged pool.now.layout sought side (view pass.old.seat)
        → (sibling : Link) × ((result ≡ Some sibling) × LoneTagged pool.now.layout sought side sibling (view pass.new.seat)) }
    ensures purse { pass.new.purse ≡ pass.old.purse }
{
    let sibling = tag(pool, pass, sought.parent, side);
    if sibling.invalid() {
        return None;
    }
    Some(sibling)
}

/// Takes the tagged path out of the tree, up to the sibling, and lets go of the leaf of the seek. False says that the
/// ancestor's edge had become another one: the turn is lost. A pass that is alone on its pool is never told so, and leaves
/// no removed record that can be reached.
pub fn splice_turn(
    pool: &Pool<TreeShape>,
    pass: &mut Pass<TreeShape>,
    sought: Sought,
    side: Side,
    sibling: Link,
) -> bool
    requires fits { Fits pool.now.table.shared.table_id pool.now.layout pass.old.seat }
    requires rest { IsAtRest (known pass.old.seat) pass.old.purse }
    requires may { SplicesNext pool.now.layout (known pass.old.seat) sought side sibling }
    ensures same { IsSame pass.old.seat pass.new.seat }
    ensures spliced { SplicedTo pool.now.layout result (view pass.old.seat) (view pass.new.seat) }
    ensures alone { LoneTagged pool.now.layout sought side sibling (view pass.old.seat)
        → (result ≡ true) × IsBare pool.now.layout (words_of pool.now.layout (view pass.new.seat)) }
    ensures rest { IsAtRest (known pass.new.seat) pass.new.purse }
    ensures purse { SameFree pass.old.purse pass.new.purse }
{
    let (ancestor, from, successor) = (sought.ancestor, sought.ancestor_side, sought.successor);
    match splice(
        pool,
        pass,
        ancestor,
        from,
        successor,
        sought.parent,
        side,
        sibling,
    ) {
        Unlink::Detached => {
            clear_after(pool, pass, sought.word);
            true
        }
        Unlink::Changed(_) => false,
    }
}
