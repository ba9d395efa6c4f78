//! The free records of a pass, and those that it took from its free list.

ghost use Rattle.std.specs.Prelude.{◌≡◌, [], IfSome, IfNone};
ghost use Rattle.pp_link.specs.Links.{word_of};
ghost use Rattle.pp_base.specs.Passes.{known, owned_numbers, Fits, IsSame};
ghost use Rattle.pp_base.specs.Made.{WroteOwned};
ghost use Rattle.pp_pool.specs.Taken.{IsPrivate, IsPublished, WroteValue, Took, GaveBack, one_fewer_out, link_field};

use pp_base::private::write;
use pp_base::{Pass, Pool, Side};
use pp_link::{Field, Link};
use pp_rule::Shape;

/// A value's low half is below it.
const HALF: u128 = 18446744073709551616;

/// A record that was taken from the free list of a pass: private to it until it is published or given back. One that is
/// dropped stays out, so its pass is never idle again, and can't be closed.
#[derive(Drop)]
pub struct Fresh {
    number: u32,
}

impl Fresh {
    /// Its number.
    pub fn number(&self) -> u32
        ensures { result ≡ self.now.number }
    {
        self.number
    }
}

/// Takes the last number of the free list: its record is private to the pass from now on. None comes exactly where the
/// list is empty. It makes no step.
pub fn take<S: Shape>(pass: &mut Pass<S>) -> Option<Fresh>
    ensures seat { pass.new.seat ≡ pass.old.seat }
    ensures walk { pass.new.walk ≡ pass.old.walk }
    ensures some { IfSome result (λ f. Took f.number pass.old.purse pass.new.purse) }
    ensures private { IfSome result (λ f. IsPrivate (known pass.new.seat) pass.new.purse f.number) }
    ensures none { IfNone result ((pass.old.purse.free.items ≡ []) × (pass.new.purse ≡ pass.old.purse)) }
{
    if pass.purse.free.is_empty() {
        return None;
    }
    let number = pass.purse.free.pop().unwrap();
    pass.purse.taken = pass.purse.taken.saturating_add(1);
    Some(Fresh { number })
}

/// Gives a record back that is still private: its number is the last one of the free list. It makes no step, and takes no
/// memory.
pub fn give_back<S: Shape>(pass: &mut Pass<S>, fresh: Fresh)
    requires { IsPrivate (known pass.old.seat) pass.old.purse fresh.number }
    ensures seat { pass.new.seat ≡ pass.old.seat }
    ensures walk { pass.new.walk ≡ pass.old.walk }
    ensures purse { GaveBack fresh.number pass.old.purse pass.new.purse }
{
    let Fresh { number } = fresh;
    pass.purse.free.push(number).unwrap();
    pass.purse.taken -= 1;
}

/// Spends a record that a step of the pass has published since it was taken. It makes no step.
pub fn published<S: Shape>(pass: &mut Pass<S>, fresh: Fresh)
    requires { IsPublished (known pass.old.seat) pass.old.purse fresh.number }
    ensures seat { pass.new.seat ≡ pass.old.seat }
    ensures walk { pass.new.walk ≡ pass.old.walk }
    ensures purse { pass.new.purse ≡ one_fewer_out pass.old.purse }
{
    let Fresh { number: _ } = fresh;
    pass.purse.taken -= 1;
}

/// Stores the key of a private record.
pub fn set_key<S: Shape>(pool: &Pool<S>, pass: &mut Pass<S>, fresh: &Fresh, key: u64)
    requires fits { Fits pool.now.table.shared.table_id pool.now.layout pass.old.seat }
    requires private { IsPrivate (known pass.old.seat) pass.old.purse fresh.now.number }
    ensures same { IsSame pass.old.seat pass.new.seat }
    ensures wrote { WroteOwned pool.now.layout fresh.now.number Field.Key key pass.old.seat pass.new.seat }
    ensures owned { owned_numbers (known pass.new.seat) ≡ owned_numbers (known pass.old.seat) }
    ensures private { IsPrivate (known pass.new.seat) pass.new.purse fresh.now.number }
    ensures walk { pass.new.walk ≡ pass.old.walk }
    ensures purse { pass.new.purse ≡ pass.old.purse }
{
    write(pool, pass, fresh.number, Field::Key, key);
}

/// Stores the value of a private record, its low half first.
pub fn set_value<S: Shape>(pool: &Pool<S>, pass: &mut Pass<S>, fresh: &Fresh, value: u128)
    requires fits { Fits pool.now.table.shared.table_id pool.now.layout pass.old.seat }
    requires private { IsPrivate (known pass.old.seat) pass.old.purse fresh.now.number }
    ensures same { IsSame pass.old.seat pass.new.seat }
    ensures wrote { WroteValue pool.now.layout fresh.now.number value pass.old.seat pass.new.seat }
    ensures owned { owned_numbers (known pass.new.seat) ≡ owned_numbers (known pass.old.seat) }
    ensures private { IsPrivate (known pass.new.seat) pass.new.purse fresh.now.number }
    ensures walk { pass.new.walk ≡ pass.old.walk }
    ensures purse { pass.new.purse ≡ pass.old.purse }
{
    write(
        pool,
        pass,
        fresh.number,
        Field::Value,
        (value % HALF) as u64,
    );
    write(pool, pass, fresh.number, Field::High, (value / HALF) as u64);
}

/// Stores a link of a private record.
pub fn set_link<S: Shape>(pool: &Pool<S>, pass: &mut Pass<S>, fresh: &Fresh, side: Side, link: Link)
    requires fits { Fits pool.now.table.shared.table_id pool.now.layout pass.old.seat }
    requires private { IsPrivate (known pass.old.seat) pass.old.purse fresh.now.number }
    ensures same { IsSame pass.old.seat pass.new.seat }
    ensures wrote { WroteOwned pool.now.layout fresh.now.number (link_field side) (word_of link) pass.old.seat pass.new.seat }
    ensures owned { owned_numbers (known pass.new.seat) ≡ owned_numbers (known pass.old.seat) }
    ensures private { IsPrivate (known pass.new.seat) pass.new.purse fresh.now.number }
    ensures walk { pass.new.walk ≡ pass.old.walk }
    ensures purse { pass.new.purse ≡ pass.old.purse }
{
    write(pool, pass, fresh.number, side.field(), link.word());
}
