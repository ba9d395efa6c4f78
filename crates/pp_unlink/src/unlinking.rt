//! Detaching a chain of records by one exchange.

ghost use Rattle.std.specs.Prelude.{◌≡◌, ◌<◌, ℕ, length};
ghost use Rattle.pp_link.specs.Links.{word_of};
ghost use Rattle.pp_base.specs.Passes.{known, view, Fits, IsSame, IsAtRest};
ghost use Rattle.pp_base.specs.Sources.{source_place, IsReadable};
ghost use Rattle.pp_unlink.specs.Invalidation.{SameFree};
ghost use Rattle.pp_unlink.specs.Unlinking.{Unlinks, MayFlush, SameHeld, GuardsNone};

use crate::invalidating::flush;
use pp_base::chains::detach;
use pp_base::frontier::{guard, unguard};
use pp_base::source::unpacked;
use pp_base::{InHand, Pass, Place, Pool, Side};
use pp_link::Link;
use pp_rule::Shape;

/// What came of one try to detach a chain.
#[derive(Clone, Copy, Debug, PartialEq, Eq)]
pub enum Unlink {
    /// The chain is in hand of the pass.
    Detached,
    /// The link had become this one, and nothing is detached.
    Changed(Link),
}

/// Tries once to detach a chain of records: to exchange a link that leads to the first of them for one that leads past the
/// last one, to the frontier. The link is one of a head or of a held record, and the shape of the structure allows it
/// there: the pass has learnt that the links from the first record on are frozen up to the frontier.
///
/// Where four chains are in hand, they are flushed first. The frontier's number is stored in a frontier word that guards no
/// chain, and then the link is exchanged. Where it was as it is expected, the answer is Detached, and the chain is the newest
/// one in hand. Else the answer is Changed with the link that was found, and the frontier word is 0 again. That link is learnt
/// where it is frozen and a held record's.
///
/// That a run of removed records may be taken out by one exchange is Harris's ("A Pragmatic Implementation of Non-Blocking
/// Linked-Lists", 2001).
pub fn try_unlink<S: Shape>(
    pool: &Pool<S>,
    pass: &mut Pass<S>,
    at: Place,
    side: Side,
    first: Link,
    frontier: Link,
) -> Unlink
    requires fits { Fits pool.now.table.shared.table_id pool.now.layout pass.old.seat }
    requires rest { IsAtRest (known pass.old.seat) pass.old.purse }
    requires readable { IsReadable S.SIDES pool.now.layout (known pass.old.seat) at side }
    requires may { S.may_detach pool.now.layout (known pass.old.seat).walk (known pass.old.seat).own
        (source_place pool.now.layout (known pass.old.seat) at side) (word_of first) (word_of frontier) }
    ensures same { IsSame pass.old.seat pass.new.seat }
    ensures unlinks { Unlinks S.SIDES pool.now.layout S.frozen S.chain at side (word_of first) (word_of frontier)
        (view pass.old.seat) (view pass.new.seat) result }
    ensures rest { IsAtRest (known pass.new.seat) pass.new.purse }
    ensures walk { pass.new.walk ≡ pass.old.walk }
    ensures purse { SameFree pass.old.purse pass.new.purse }
{
    flush_full(pool, pass);
    let word = free_word(&pass.purse.chains);
    guard(pool, pass, word, frontier.number());
    let found = detach(pool, pass, at, side, word, first, frontier);
    if found == first.word() {
        return Unlink::Detached;
    }
    unguard(pool, pass, word);
    Unlink::Changed(unpacked(found))
}

/// Flushes the chains in hand where there are four.
pub fn flush_full<S: Shape>(pool: &Pool<S>, pass: &mut Pass<S>)
    requires fits { Fits pool.now.table.shared.table_id pool.now.layout pass.old.seat }
    requires rest { IsAtRest (known pass.old.seat) pass.old.purse }
    ensures same { IsSame pass.old.seat pass.new.seat }
    ensures flushed { MayFlush S.SIDES pool.now.layout (view pass.old.seat) (view pass.new.seat) }
    ensures held { SameHeld (known pass.old.seat) (known pass.new.seat) }
    ensures few { length (known pass.new.seat).chains < 4 }
    ensures rest { IsAtRest (known pass.new.seat) pass.new.purse }
    ensures walk { pass.new.walk ≡ pass.old.walk }
    ensures purse { SameFree pass.old.purse pass.new.purse }
{
    if pass.chains() == 4 {
        flush(pool, pass);
    }
}

/// The least frontier word that guards none of these chains, of which there are fewer than four.
pub fn free_word(chains: &[InHand]) -> u8
    requires { length chains.now < 4 }
    ensures low { result < 4 }
    ensures free { GuardsNone result chains.now }
    ensures least { (j : ℕ) → j < result → GuardsNone j chains.now → ⊥ }
{
    let mut word = 0;
    while chains.iter().any(|chain| chain.guard == word) {
        word += 1;
    }
    word
}
