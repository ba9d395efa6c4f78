//! Announcing a record, confirming it, and letting it go.

ghost use Rattle.std.specs.Prelude.{◌≡◌, ◌<◌, ℕ};
ghost use Rattle.pp_rule.specs.Views.{slot};
ghost use Rattle.pp_base.specs.Passes.{known, view, Fits, IsSame};
ghost use Rattle.pp_base.specs.Sources.{IsReadable};
ghost use Rattle.pp_base.specs.Made.{ClearedWord};
ghost use Rattle.pp_hazard.specs.Protection.{IsClear, SameBut, Answered, HasAfter};

use pp_base::hazards::{announce, confirm, load_link};
use pp_base::source::unpacked;
use pp_base::{Pass, Place, Pool, Side};
use pp_link::Link;
use pp_rule::Shape;

/// What came of one try to protect the record that a link leads to.
#[derive(Clone, Copy, Debug, PartialEq, Eq)]
pub enum Protect {
    /// The link was twice this one: the pass holds the record that it leads to.
    Confirmed(Link),
    /// The link leads to no record.
    Nil(Link),
    /// The link had become this one before the record was confirmed.
    Moved(Link),
    /// The link has INVALID: the record that it stands in was detached.
    Invalid,
}

/// Tries once to hold the record that a link leads to, in a walk word of the pass that is 0. The link is one of a
/// head, or of a record that the pass holds in another walk word.
///
/// The link is loaded: with INVALID the answer is Invalid, without a record Nil. Else the record's number is stored
/// in the walk word and the link is loaded again: with INVALID the answer is Invalid, if it isn't as it was Moved,
/// and else Confirmed. After Invalid, Nil and Moved the walk word is 0.
///
/// To announce a record and to look once more before it is used is Michael's way ("Hazard Pointers: Safe Memory
/// Reclamation for Lock-Free Objects", 2004). That a link may be trusted as long as it has no INVALID, though the
/// record that it stands in was detached, is in outline that of Jung, Lee, Kim and Kang ("Applying Hazard Pointers to
/// More Concurrent Data Structures", 2023).
pub fn try_protect<S: Shape>(
    pool: &Pool<S>,
    pass: &mut Pass<S>,
    source: Place,
    side: Side,
    word: u8,
) -> Protect
    requires fits { Fits pool.now.table.shared.table_id pool.now.layout pass.old.seat }
    requires readable { IsReadable S.SIDES pool.now.layout (known pass.old.seat) source side }
    requires word { word < 5 }
    requires clear { (slot (known pass.old.seat) word).named ≡ 0 }
    ensures same { IsSame pass.old.seat pass.new.seat }
    ensures answered { Answered pool.now.layout S.frozen S.forget source side word (view pass.old.seat) (view pass.new.seat) result }
    ensures word { HasAfter result (slot (known pass.new.seat) word) }
    ensures others { SameBut word (known pass.old.seat) (known pass.new.seat) }
    ensures purse { pass.new.purse ≡ pass.old.purse }
{
    let first = load_link(pool, pass, source, side);
    let link = unpacked(first);
    if link.invalid() {
        return Protect::Invalid;
    }
    if link.number() == 0 {
        return Protect::Nil(link);
    }
    announce(pool, pass, word, link.number());
    let second = confirm(pool, pass, source, side, word, first);
    if second == first {
        return Protect::Confirmed(link);
    }
    clear(pool, pass, word);
    let found = unpacked(second);
    if found.invalid() {
        return Protect::Invalid;
    }
    Protect::Moved(found)
}

/// Stores 0 in a walk word: one step. What the pass held in it is no longer held there.
pub fn clear<S: Shape>(pool: &Pool<S>, pass: &mut Pass<S>, word: u8)
    requires fits { Fits pool.now.table.shared.table_id pool.now.layout pass.old.seat }
    requires word { word < 5 }
    ensures same { IsSame pass.old.seat pass.new.seat }
    ensures made { ClearedWord pool.now.layout S.forget word pass.old.seat pass.new.seat }
    ensures word { IsClear (slot (known pass.new.seat) word) }
    ensures others { SameBut word (known pass.old.seat) (known pass.new.seat) }
    ensures purse { pass.new.purse ≡ pass.old.purse }
{
    pp_base::hazards::clear(pool, pass, word)
}
