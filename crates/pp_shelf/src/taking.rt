//! Taking free records from shelves.

ghost use Rattle.std.specs.Prelude.{◌≡◌, ◌⊎◌, ◌≤◌, ◌<◌, ◌↔◌, max, true, length, IfSome, IfNone};
ghost use Rattle.pp_rule.specs.Lists.{BeginsWith};
ghost use Rattle.pp_base.specs.Passes.{known, view, Fits, IsSame};
ghost use Rattle.pp_shelf.specs.Shelves.{MovesFree, TakesFirst, TakesNone};
ghost use Rattle.pp_shelf.specs.Runs.{MadeAtShelves, Collects, FoundEmpty, map_sizes, steps_made};

use pp_base::shelves::unshelve;
use pp_base::{Pass, Pool};
use pp_rule::Shape;

/// Takes a free record from a shelf: 0 is swapped into the shelf words in rising order, up to the first that gave a number,
/// which is the last one of the free list then. Gives that number. It takes no memory.
///
/// None exactly where each shelf word was 0.
pub fn take_any<S: Shape>(pool: &Pool<S>, pass: &mut Pass<S>) -> Option<u32>
    requires fits { Fits pool.now.table.shared.table_id pool.now.layout pass.old.seat }
    ensures same { IsSame pass.old.seat pass.new.seat }
    ensures some { IfSome result (λ n. TakesFirst pool.now.layout n (view pass.old.seat) (view pass.new.seat)
        pass.old.purse pass.new.purse) }
    ensures number { IfSome result (λ n. (1 ≤ n) × (n ≤ pool.now.layout.records)) }
    ensures none { IfNone result (TakesNone pool.now.layout (view pass.old.seat) (view pass.new.seat)
        pass.old.purse pass.new.purse) }
    ensures shelves { MadeAtShelves pool.now.layout (view pass.old.seat) (view pass.new.seat) }
    ensures only { MovesFree (known pass.old.seat) (known pass.new.seat) pass.old.purse pass.new.purse }
    ensures walk { pass.new.walk ≡ pass.old.walk }
{
    for shelf in 0..8 * pool.layout.sizes().passes {
        if let Some(number) = unshelve(pool, pass, shelf) {
            return Some(number);
        }
    }
    None
}

/// Takes free records from shelves until the free list has enough of them, or until `take_any` finds none. Tells whether
/// there are enough.
pub fn collect<S: Shape>(pool: &Pool<S>, pass: &mut Pass<S>, enough: u32) -> bool
    requires fits { Fits pool.now.table.shared.table_id pool.now.layout pass.old.seat }
    ensures same { IsSame pass.old.seat pass.new.seat }
    ensures collects { Collects pool.now.layout enough (view pass.old.seat) (view pass.new.seat) pass.old.purse pass.new.purse }
    ensures told { (result ≡ true) ↔ (enough ≤ length pass.new.purse.free.items) }
    ensures ends { (enough ≤ length pass.new.purse.free.items)
        ⊎ FoundEmpty (map_sizes pool.now.layout) (steps_made (view pass.old.seat) (view pass.new.seat)) }
    ensures begins { BeginsWith pass.new.purse.free.items pass.old.purse.free.items }
    ensures most { length pass.new.purse.free.items ≤ max enough (length pass.old.purse.free.items) }
    ensures shelves { MadeAtShelves pool.now.layout (view pass.old.seat) (view pass.new.seat) }
    ensures only { MovesFree (known pass.old.seat) (known pass.new.seat) pass.old.purse pass.new.purse }
    ensures walk { pass.new.walk ≡ pass.old.walk }
{
    while pass.free().len() < enough as usize {
        if take_any(pool, pass).is_none() {
            return false;
        }
    }
    true
}
