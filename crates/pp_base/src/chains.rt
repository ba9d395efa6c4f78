//! The steps at the chains that a pass detached.

ghost use Rattle.std.specs.Prelude.{◌≡◌, ◌<◌, [], length, vec_capacity};
ghost use Rattle.pp_link.specs.Links.{word_of};
ghost use Rattle.pp_rule.specs.Lists.{IsIn};
ghost use Rattle.pp_rule.specs.Views.{guarding};
ghost use Rattle.pp_rule.specs.Steps.{IsUnused};
ghost use Rattle.pp_base.specs.Passes.{known, Fits, IsSame};
ghost use Rattle.pp_base.specs.Sources.{side_number, source_place, IsReadable};
ghost use Rattle.pp_base.specs.Chains.{chain_at, spent_numbers, SetAside, LetGo, InvalidatedAt, RetiredOldest};
ghost use Rattle.pp_base.specs.Chains.{DetachedAt, OrderedAt, MayTake};

use crate::hazards::locate;
use crate::pool::{Pass, Pool};
use crate::purse::InHand;
use crate::source::{Place, Side};
use crate::steps::{About, NOTHING, exchange_word, set_bits, store_word};
use pp_link::Link;
use pp_rule::Shape;
use std::marker::Brand;

/// The bit of a link that is INVALID.
const INVALID: u64 = 4;

/// Exchanges the first word of a link for the new one. Where the link was as it is expected, the records that the new word
/// leads past are a chain in hand, the newest one, which the frontier word guards. Gives the word that was found; one that is
/// not as expected is learnt as a load learns it.
pub fn detach<S: Shape>(
    pool: &Pool<S>,
    pass: &mut Pass<S>,
    at: Place,
    side: Side,
    word: u8,
    first: Link,
    new: Link,
) -> u64
    requires fits { Fits pool.now.table.shared.table_id pool.now.layout pass.old.seat }
    requires readable { IsReadable S.SIDES pool.now.layout (known pass.old.seat) at side }
    requires may { S.may_detach pool.now.layout (known pass.old.seat).walk (known pass.old.seat).own
        (source_place pool.now.layout (known pass.old.seat) at side) (word_of first) (word_of new) }
    requires word { word < 4 }
    requires named { guarding (known pass.old.seat) word ≡ new.number }
    requires unused { IsUnused word (known pass.old.seat) }
    requires few { length (known pass.old.seat).chains < 4 }
    ensures same { IsSame pass.old.seat pass.new.seat }
    ensures made { DetachedAt pool.now.layout S.frozen S.chain at side word (word_of first) (word_of new) result
        pass.old.seat pass.new.seat }
    ensures order { OrderedAt S.SIDES S.chain word (word_of first) (word_of new) result pass.old.seat }
    ensures walk { pass.new.walk ≡ pass.old.walk }
    ensures purse { MayTake (result ≡ word_of first) (record { first = first.number; guard = word; frontier = new.number })
        pass.old.purse pass.new.purse }
{
    let place = locate(pool, pass, at, side);
    let expected = first.word();
    let about = About {
        word,
        at,
        side,
        ..NOTHING
    };
    let found = exchange_word::<S, Brand>(pool, &mut pass.seat, place, expected, new.word(), about);
    if found == expected {
        let (first, frontier) = (first.number(), new.number());
        let guard = word;
        pass.purse.take_in_hand(InHand {
            first,
            guard,
            frontier,
        });
    }
    found
}

/// Sets INVALID in a link of a record of a chain in hand, which is named by its index, the oldest one the first. Gives
/// the word that was found.
pub fn invalidate<S: Shape>(
    pool: &Pool<S>,
    pass: &mut Pass<S>,
    chain: u8,
    number: u32,
    side: Side,
) -> u64
    requires fits { Fits pool.now.table.shared.table_id pool.now.layout pass.old.seat }
    requires chain { chain < length (known pass.old.seat).chains }
    requires member { IsIn number (chain_at (known pass.old.seat) chain).records }
    requires side { side_number side < S.SIDES }
    ensures same { IsSame pass.old.seat pass.new.seat }
    ensures made { InvalidatedAt pool.now.layout chain number side result pass.old.seat pass.new.seat }
    ensures walk { pass.new.walk ≡ pass.old.walk }
    ensures purse { pass.new.purse ≡ pass.old.purse }
{
    let place = pool.layout.cell(number, side.field());
    let about = About {
        word: chain,
        side,
        number: number as u64,
        ..NOTHING
    };
    set_bits::<S, Brand>(pool, &mut pass.seat, place, INVALID, about)
}

/// Puts a number of the oldest chain behind the retired ones. It makes no step, and takes no memory.
pub fn set_aside<S: Shape>(pass: &mut Pass<S>, number: u32)
    requires room { length pass.old.purse.retired.items < vec_capacity pass.old.purse.retired }
    ensures seat { pass.new.seat ≡ pass.old.seat }
    ensures walk { pass.new.walk ≡ pass.old.walk }
    ensures purse { SetAside number pass.old.purse pass.new.purse }
{
    pass.purse.retired.push(number).unwrap();
    pass.purse.spent += 1;
}

/// Clears the frontier word of the oldest chain, whose links all have INVALID: its records, which stand behind the
/// retired ones in their order, are retired.
pub fn retire<S: Shape>(pool: &Pool<S>, pass: &mut Pass<S>)
    requires fits { Fits pool.now.table.shared.table_id pool.now.layout pass.old.seat }
    requires some { 0 < length (known pass.old.seat).chains }
    requires invalid { (chain_at (known pass.old.seat) 0).valid ≡ [] }
    requires spent { spent_numbers (known pass.old.seat) pass.old.purse ≡ (chain_at (known pass.old.seat) 0).records }
    ensures same { IsSame pass.old.seat pass.new.seat }
    ensures made { RetiredOldest pool.now.layout pass.old.seat pass.new.seat }
    ensures walk { pass.new.walk ≡ pass.old.walk }
    ensures purse { LetGo (chain_at (known pass.old.seat) 0).guard pass.old.purse pass.new.purse }
{
    let word = pass.purse.chains[0].guard;
    let place = pool.layout.frontier_word(pass.number, word);
    let about = About { word, ..NOTHING };
    store_word::<S, Brand>(pool, &mut pass.seat, place, 0, about);
    pass.purse.chains.remove(0);
    pass.purse.frontier[word as usize] = 0;
    pass.purse.spent = 0;
}
