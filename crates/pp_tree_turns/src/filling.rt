//! The two records of an insert, written and published.

ghost use Rattle.std.specs.Prelude.{◌≡◌, ◌≢◌, ◌<◌, ℕ};
ghost use Rattle.pp_link.specs.Links.{word_of};
ghost use Rattle.pp_base.specs.Passes.{known, view, owned_numbers, Fits, IsSame, IsAtRest};
ghost use Rattle.pp_edges.specs.declared.edges.Published.TheVariants as published;
ghost use Rattle.pp_pool.specs.Taken.{IsPrivate, one_fewer_out};
ghost use Rattle.pp_seek.specs.Lone.{LoneSought};
ghost use Rattle.pp_trees.specs.Clean.{IsBare};
ghost use Rattle.pp_trees.specs.Lone.{words_of};
ghost use Rattle.pp_tree_turns.specs.Filling.{Filled, FilledOver, PublishesNext, PublishedTo};

use pp_base::{Pass, Pool, Side};
use pp_edges::{Published, TreeShape, publish};
use pp_link::Link;
use pp_pool::fresh::{Fresh, set_key, set_link, set_value};
use pp_seek::Sought;

/// Writes all fields of a private record.
fn fill(
    pool: &Pool<TreeShape>,
    pass: &mut Pass<TreeShape>,
    fresh: &Fresh,
    key: u64,
    value: u128,
    left: Link,
    right: Link,
)
    requires fits { Fits pool.now.table.shared.table_id pool.now.layout pass.old.seat }
    requires private { IsPrivate (known pass.old.seat) pass.old.purse fresh.now.number }
    ensures same { IsSame pass.old.seat pass.new.seat }
    ensures filled { Filled fresh.now.number key value (word_of left) (word_of right) (view pass.old.seat) (view pass.new.seat) }
    ensures purse { pass.new.purse ≡ pass.old.purse }
{
    set_key(pool, pass, fresh, key);
    set_value(pool, pass, fresh, value);
    set_link(pool, pass, fresh, Side::Left, left);
    set_link(pool, pass, fresh, Side::Right, right);
}

/// Writes the internal record over the new leaf with this number and the old one behind this edge.
fn fill_over(
    pool: &Pool<TreeShape>,
    pass: &mut Pass<TreeShape>,
    inner: &Fresh,
    number: u32,
    key: u64,
    here: u64,
    edge: Link,
)
    requires fits { Fits pool.now.table.shared.table_id pool.now.layout pass.old.seat }
    requires private { IsPrivate (known pass.old.seat) pass.old.purse inner.now.number }
    ensures same { IsSame pass.old.seat pass.new.seat }
    ensures filled { FilledOver inner.now.number number key here (word_of edge) (view pass.old.seat) (view pass.new.seat) }
    ensures purse { pass.new.purse ≡ pass.old.purse }
{
    let new = Link::pack(number, false, false, false, true);
    if key < here {
        fill(pool, pass, inner, here, 0, new, edge);
        return;
    }
    fill(pool, pass, inner, key, 0, edge, new);
}

/// Tries to add the pair of an insert at the edge where its seek ended: both private records are written, and the edge is
/// exchanged. Changed says that it had become another one: the turn is lost, and both records are back. A pass that is alone on its
/// pool is never told so where that edge stands there.
pub fn publish_turn(
    pool: &Pool<TreeShape>,
    pass: &mut Pass<TreeShape>,
    sought: Sought,
    key: u64,
    value: u128,
    leaf: Fresh,
    inner: Fresh,
) -> Published
    requires fits { Fits pool.now.table.shared.table_id pool.now.layout pass.old.seat }
    requires rest { IsAtRest (known pass.old.seat) pass.old.purse }
    requires leaf { IsPrivate (known pass.old.seat) pass.old.purse leaf.number }
    requires inner { IsPrivate (known pass.old.seat) pass.old.purse inner.number }
    requires apart { leaf.number ≢ inner.number }
    requires may { PublishesNext (known pass.old.seat) sought key value }
    ensures same { IsSame pass.old.seat pass.new.seat }
    ensures published { PublishedTo pool.now.layout leaf.number inner.number key value result
        (view pass.old.seat) (view pass.new.seat) }
    ensures alone { LoneSought pool.now.layout sought (view pass.old.seat)
        → (result ≡ published.Done) × IsBare pool.now.layout (words_of pool.now.layout (view pass.new.seat)) }
    ensures rest { IsAtRest (known pass.new.seat) pass.new.purse }
    ensures spent { result ≡ published.Done → pass.new.purse ≡ one_fewer_out (one_fewer_out pass.old.purse) }
    ensures kept { (result ≡ published.Done → ⊥) → pass.new.purse ≡ pass.old.purse }
{
    let here = pp_hazard::key(pool, pass, sought.word);
    let nil = Link::pack(0, false, false, false, false);
    fill(pool, pass, &leaf, key, value, nil, nil);
    fill_over(pool, pass, &inner, leaf.number(), key, here, sought.edge);
    publish(
        pool,
        pass,
        sought.parent,
        sought.side,
        sought.edge,
        leaf,
        inner,
    )
}
