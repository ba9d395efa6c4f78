//! Putting free records on shelves.

ghost use Rattle.std.specs.Prelude.{◌≡◌, ◌⊎◌, ◌≤◌, ◌<◌, min, true, false, length};
ghost use Rattle.pp_rule.specs.Lists.{BeginsWith};
ghost use Rattle.pp_rule.specs.Causes.{FoundTaken};
ghost use Rattle.pp_base.specs.Passes.{known, view, Fits, IsSame};
ghost use Rattle.pp_shelf.specs.Shelves.{MovesFree, PutsLast, PutsNone};
ghost use Rattle.pp_shelf.specs.Runs.{MadeAtShelves, Tidies, map_sizes, steps_made};

use pp_base::shelves::shelve;
use pp_base::{Pass, Pool};
use pp_rule::Shape;

/// Puts the last number of the free list on a shelf, where the list is longer than the share of the pass. The shelf words
/// are tried in rising order, each by one exchange of 0 for that number, up to the first that succeeds: then the number has
/// left the free list and stands there. It takes no memory.
///
/// False where the free list isn't longer than the share, and then no step was made; or where each shelf word was found to
/// be other than 0.
pub fn put<S: Shape>(pool: &Pool<S>, pass: &mut Pass<S>) -> bool
    requires fits { Fits pool.now.table.shared.table_id pool.now.layout pass.old.seat }
    ensures same { IsSame pass.old.seat pass.new.seat }
    ensures longer { result ≡ true → pass.old.share < length pass.old.purse.free.items }
    ensures last { result ≡ true → PutsLast pool.now.layout (view pass.old.seat) (view pass.new.seat)
        pass.old.purse pass.new.purse }
    ensures none { result ≡ false → PutsNone pool.now.layout pass.old.share (view pass.old.seat) (view pass.new.seat)
        pass.old.purse pass.new.purse }
    ensures shelves { MadeAtShelves pool.now.layout (view pass.old.seat) (view pass.new.seat) }
    ensures only { MovesFree (known pass.old.seat) (known pass.new.seat) pass.old.purse pass.new.purse }
    ensures walk { pass.new.walk ≡ pass.old.walk }
{
    if pass.free().len() <= pass.share() as usize {
        return false;
    }
    for shelf in 0..8 * pool.layout.sizes().passes {
        if shelve(pool, pass, shelf) == 0 {
            return true;
        }
    }
    false
}

/// Puts free records on shelves until `put` answers false: then the free list is no longer than the share of the pass, or
/// each shelf word was found to be other than 0. The list keeps its first numbers, as many as the share has.
pub fn tidy<S: Shape>(pool: &Pool<S>, pass: &mut Pass<S>)
    requires fits { Fits pool.now.table.shared.table_id pool.now.layout pass.old.seat }
    ensures same { IsSame pass.old.seat pass.new.seat }
    ensures tidies { Tidies pool.now.layout pass.old.share (view pass.old.seat) (view pass.new.seat)
        pass.old.purse pass.new.purse }
    ensures ends { (length pass.new.purse.free.items ≤ pass.old.share)
        ⊎ FoundTaken (map_sizes pool.now.layout) (steps_made (view pass.old.seat) (view pass.new.seat)) }
    ensures begins { BeginsWith pass.old.purse.free.items pass.new.purse.free.items }
    ensures share { min pass.old.share (length pass.old.purse.free.items) ≤ length pass.new.purse.free.items }
    ensures shelves { MadeAtShelves pool.now.layout (view pass.old.seat) (view pass.new.seat) }
    ensures only { MovesFree (known pass.old.seat) (known pass.new.seat) pass.old.purse pass.new.purse }
    ensures walk { pass.new.walk ≡ pass.old.walk }
{
    while put(pool, pass) {}
}
