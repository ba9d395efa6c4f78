//! Setting INVALID in the links of detached chains, after which their records are retired.

ghost use Rattle.std.specs.Prelude.{◌≡◌, ◌+◌, ◌^◌, ◌<◌, ◌≤◌, length, vec_capacity};
ghost use Rattle.pp_link.specs.Links.{target};
ghost use Rattle.pp_base.specs.Sources.{side_number};
ghost use Rattle.pp_base.specs.Passes.{known, view, Fits, IsSame, IsAtRest};
ghost use Rattle.pp_unlink.specs.Invalidation.{Invalidated, LooksThrough, Flushed, SameFree, SetsAside, IsOldest, leads_on};

use pp_base::chains::{invalidate as invalidate_link, retire, set_aside};
use pp_base::source::unpacked;
use pp_base::{InHand, Pass, Pool, Purse, Side};
use pp_rule::Shape;

/// Sets INVALID in each link of the oldest chain in hand, from its first record on: each word that is found leads to nil, to
/// the record behind the chain, or to the next record. Then the chain's frontier word is cleared, and only from then
/// on its records are retired: they stand behind the retired ones, in the chain's order.
///
/// That who detaches a chain protects the record to which it leads until no link of it can be trusted any more is in
/// outline the way of Jung, Lee, Kim and Kang ("Applying Hazard Pointers to More Concurrent Data Structures", 2023).
pub fn invalidate<S: Shape>(pool: &Pool<S>, pass: &mut Pass<S>)
    requires fits { Fits pool.now.table.shared.table_id pool.now.layout pass.old.seat }
    requires rest { IsAtRest (known pass.old.seat) pass.old.purse }
    requires some { 0 < length (known pass.old.seat).chains }
    ensures same { IsSame pass.old.seat pass.new.seat }
    ensures made { Invalidated S.SIDES pool.now.layout (view pass.old.seat) (view pass.new.seat) }
    ensures rest { IsAtRest (known pass.new.seat) pass.new.purse }
    ensures walk { pass.new.walk ≡ pass.old.walk }
    ensures purse { SameFree pass.old.purse pass.new.purse }
{
    let chain = pass.purse.chains[0];
    invalidate_links(pool, pass, chain);
    retire(pool, pass);
}

/// Sets INVALID in each link of the oldest chain, and sets its records aside, in their order.
fn invalidate_links<S: Shape>(pool: &Pool<S>, pass: &mut Pass<S>, chain: InHand)
    requires fits { Fits pool.now.table.shared.table_id pool.now.layout pass.old.seat }
    requires rest { IsAtRest (known pass.old.seat) pass.old.purse }
    requires oldest { IsOldest (known pass.old.seat) chain }
    ensures made { LooksThrough S.SIDES pool.now.layout pass.old.seat pass.old.purse pass.new.seat pass.new.purse }
    ensures walk { pass.new.walk ≡ pass.old.walk }
{
    let before = listed(&pass.purse);
    set_aside(pass, chain.first);
    let sides = S::SIDES as usize;
    let mut link = 0;
    while link < sides * (listed(&pass.purse) - before) {
        let number = pass.purse.retired[before + link / sides];
        let found = invalidate_link(pool, pass, 0, number, side_at(link % sides));
        set_next_aside(pass, found, chain.frontier);
        link += 1;
    }
}

/// How many numbers stand in the list of the retired ones, with those that are set aside.
fn listed(purse: &Purse) -> usize
    ensures { result ≡ length purse.now.retired.items }
{
    purse.retired.len()
}

/// The side with this number.
fn side_at(number: usize) -> Side
    requires { number < 2 }
    ensures { side_number result ≡ number }
{
    if number == 0 { Side::Left } else { Side::Right }
}

/// Sets the record aside to which a link of a chain leads, unless that is nil or the chain's frontier.
fn set_next_aside<S: Shape>(pass: &mut Pass<S>, word: u64, frontier: u32)
    requires small { word < 2 ^ 36 }
    requires room { length pass.old.purse.retired.items + length (leads_on frontier (target word)) ≤ vec_capacity pass.old.purse.retired }
    ensures seat { pass.new.seat ≡ pass.old.seat }
    ensures aside { SetsAside (leads_on frontier (target word)) pass.old.purse pass.new.purse }
    ensures walk { pass.new.walk ≡ pass.old.walk }
{
    let next = unpacked(word).number();
    if next != 0 && next != frontier {
        set_aside(pass, next);
    }
}

/// Does so for all chains in hand, the oldest first.
pub fn flush<S: Shape>(pool: &Pool<S>, pass: &mut Pass<S>)
    requires fits { Fits pool.now.table.shared.table_id pool.now.layout pass.old.seat }
    requires rest { IsAtRest (known pass.old.seat) pass.old.purse }
    ensures same { IsSame pass.old.seat pass.new.seat }
    ensures flushed { Flushed S.SIDES pool.now.layout (length (known pass.old.seat).chains) (view pass.old.seat) (view pass.new.seat) }
    ensures rest { IsAtRest (known pass.new.seat) pass.new.purse }
    ensures walk { pass.new.walk ≡ pass.old.walk }
    ensures purse { SameFree pass.old.purse pass.new.purse }
{
    while pass.chains() > 0 {
        invalidate(pool, pass);
    }
}
