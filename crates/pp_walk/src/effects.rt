//! The later turns of a call that changes the list: what a walk found is published behind, marked or detached.

ghost use Rattle.std.specs.Prelude.{◌≡◌, ◌≢◌, ◌<◌, true, false, [], IsSome};
ghost use Rattle.pp_link.specs.Links.{word_of, target};
ghost use Rattle.pp_model.specs.Calls.{Takes};
ghost use Rattle.pp_rule.specs.Views.{slot, value_of};
ghost use Rattle.pp_base.specs.Passes.{known, view, Fits, IsSame, IsAtRest};
ghost use Rattle.pp_base.specs.Sources.{source_place};
ghost use Rattle.pp_base.specs.declared.source.Side.TheVariants.{Left};
ghost use Rattle.pp_unlink.specs.Invalidation.{SameFree};
ghost use Rattle.pp_walk.specs.Steps.{LeadsTo};
ghost use Rattle.pp_walk.specs.Roles.{IsPlain};
ghost use Rattle.pp_walk.specs.Lone.{IsLone, IsStanding};
ghost use Rattle.pp_walk.specs.Effects.{MayFill, FillsAt, PublishesSo, MarksSo, MayDetachRun, DetachesSo};

use crate::{ListShape, steps};
use pp_base::source::unpacked;
use pp_base::{Pass, Place, Pool, Side};
use pp_hazard::reading::value;
use pp_link::Link;
use pp_model::Call;
use pp_unlink::{Unlink, try_unlink};

/// What a call took from a record.
#[derive(Clone, Copy, Debug, PartialEq, Eq)]
pub struct Taken {
    pub value: u128,
    /// Leads to the record behind it.
    pub next: Link,
}

/// Publishes a record of the pass behind the anchor that a walk found, before its end. Where the anchor's link doesn't lead to that
/// end any more, the answer is false. A pass that is alone on its pool is never told so where that link stands there.
pub fn publish_behind(
    pool: &Pool<ListShape>,
    pass: &mut Pass<ListShape>,
    anchor: Place,
    end: Link,
    number: u32,
    pair: (u64, u128),
) -> bool
    requires fits { Fits pool.now.table.shared.table_id pool.now.layout pass.old.seat }
    requires may { MayFill pool.now.layout (known pass.old.seat) anchor end pair.0 }
    requires filled { FillsAt (known pass.old.seat) pass.old.purse number pair.0 pair.1 end }
    ensures same { IsSame pass.old.seat pass.new.seat }
    ensures published { PublishesSo (source_place pool.now.layout (known pass.old.seat) anchor Left) number pair.0 pair.1 (word_of end)
        (view pass.old.seat) (view pass.new.seat) result }
    ensures alone { IsStanding pool.now.layout (source_place pool.now.layout (known pass.old.seat) anchor Left) (word_of end)
        (view pass.old.seat) → result ≡ true }
    ensures purse { pass.new.purse ≡ pass.old.purse }
{
    let new = Link::pack(number, false, false, false, false);
    let found = steps::publish(pool, pass, anchor, number, pair, end, new);
    found == end.word()
}

/// Marks the record that the pass holds in a walk word as removed, for a call that takes its pair. None says that it was removed
/// already. Else the call has taken effect, and gets the record's value and the link to the record behind it.
pub fn mark_end(
    pool: &Pool<ListShape>,
    pass: &mut Pass<ListShape>,
    word: u8,
    call: Call,
) -> Option<Taken>
    requires fits { Fits pool.now.table.shared.table_id pool.now.layout pass.old.seat }
    requires word { word < 5 }
    requires held { (slot (known pass.old.seat) word).held ≡ true }
    requires takes { Takes call (slot (known pass.old.seat) word).key (value_of (slot (known pass.old.seat) word).value) }
    requires leads { LeadsTo word (known pass.old.seat) }
    ensures same { IsSame pass.old.seat pass.new.seat }
    ensures marks { MarksSo pool.now.layout word call (view pass.old.seat) (view pass.new.seat) result }
    ensures alone { IsLone pool.now.layout (view pass.old.seat) → IsSome result }
    ensures purse { pass.new.purse ≡ pass.old.purse }
{
    let found = steps::mark(pool, pass, word, call);
    let link = unpacked(found);
    if link.flag() {
        return None;
    }
    let value = value(pool, pass, word);
    let next = Link::pack(link.number(), false, false, false, false);
    Some(Taken { value, next })
}

/// Detaches by one exchange what was gathered behind an anchor, up to this end. False says that the anchor's link doesn't lead to the
/// first gathered record any more, or not without bits. A pass that is alone on its pool is never told so where that link stands there.
pub fn detach_run(
    pool: &Pool<ListShape>,
    pass: &mut Pass<ListShape>,
    anchor: Place,
    first: Link,
    end: Link,
) -> bool
    requires fits { Fits pool.now.table.shared.table_id pool.now.layout pass.old.seat }
    requires rest { IsAtRest (known pass.old.seat) pass.old.purse }
    requires may { MayDetachRun pool.now.layout (known pass.old.seat) anchor first end }
    ensures same { IsSame pass.old.seat pass.new.seat }
    ensures detaches { DetachesSo pool.now.layout anchor (word_of first) (word_of end) (view pass.old.seat) (view pass.new.seat) result }
    ensures alone { IsStanding pool.now.layout (source_place pool.now.layout (known pass.old.seat) anchor Left) (word_of first)
        (view pass.old.seat) → result ≡ true }
    ensures rest { IsAtRest (known pass.new.seat) pass.new.purse }
    ensures walk { pass.new.walk ≡ pass.old.walk }
    ensures purse { SameFree pass.old.purse pass.new.purse }
{
    match try_unlink(pool, pass, anchor, Side::Left, first, end) {
        Unlink::Detached => true,
        Unlink::Changed(_) => false,
    }
}
