//! A reclaim pass from its first load to its last one.

ghost use Rattle.std.specs.Prelude.{◌≡◌, ◌+◌, ◌*◌, ◌≤◌, length};
ghost use Rattle.pp_link.specs.Places.{frontier_place, walk_place};
ghost use Rattle.pp_base.specs.Passes.{known, Fits, IsAtRest, IsSame};
ghost use Rattle.pp_base.specs.Named.{scans_frontier, scans_walk};
ghost use Rattle.pp_reclaim.specs.Sweeps.{HasRead, HasReadMost, Swept};

use pp_base::scan::{scan_frontier, scan_last, scan_walk};
use pp_base::{Pass, Pool};
use pp_rule::Shape;

/// The most hazard words that a pool has: nine for each of 64 passes.
const MOST_WORDS: usize = 576;

/// Loads the frontier words of all passes, in rising place.
fn read_frontier_words<S: Shape>(pool: &Pool<S>, pass: &mut Pass<S>, words: &mut [u64])
    requires fits { Fits pool.now.table.shared.table_id pool.now.layout pass.old.seat }
    requires count { length words.old ≡ 4 * pool.now.layout.passes }
    requires most { length words.old ≤ MOST_WORDS }
    requires next { (known pass.old.seat).scan.read ≡ 0 }
    ensures read { HasRead scans_frontier (frontier_place pool.now.layout 0 0) words.new pass.old.seat pass.new.seat }
    ensures walk { pass.new.walk ≡ pass.old.walk }
    ensures purse { pass.new.purse ≡ pass.old.purse }
{
    for (i, word) in words.iter_mut().enumerate() {
        *word = scan_frontier(pool, pass, i as u32 / 4, (i % 4) as u8);
    }
}

/// Loads the walk words of all passes but the last one, in rising place.
fn read_walk_words<S: Shape>(pool: &Pool<S>, pass: &mut Pass<S>, words: &mut [u64])
    requires fits { Fits pool.now.table.shared.table_id pool.now.layout pass.old.seat }
    requires count { length words.old + 1 ≡ 5 * pool.now.layout.passes }
    requires most { length words.old ≤ MOST_WORDS }
    requires next { (known pass.old.seat).scan.read ≡ 4 * pool.now.layout.passes }
    ensures read { HasRead scans_walk (walk_place pool.now.layout 0 0) words.new pass.old.seat pass.new.seat }
    ensures walk { pass.new.walk ≡ pass.old.walk }
    ensures purse { pass.new.purse ≡ pass.old.purse }
{
    for (i, word) in words.iter_mut().enumerate() {
        *word = scan_walk(pool, pass, i as u32 / 5, (i % 5) as u8);
    }
}

/// Loads all hazard words but the last one: the frontier words first, then the walk words.
fn read_words<S: Shape>(pool: &Pool<S>, pass: &mut Pass<S>, words: &mut [u64])
    requires fits { Fits pool.now.table.shared.table_id pool.now.layout pass.old.seat }
    requires count { length words.old ≡ 9 * pool.now.layout.passes }
    requires next { (known pass.old.seat).scan.read ≡ 0 }
    ensures read { HasReadMost pool.now.layout words.new pass.old.seat pass.new.seat }
    ensures walk { pass.new.walk ≡ pass.old.walk }
    ensures purse { pass.new.purse ≡ pass.old.purse }
{
    let passes = pool.layout.sizes().passes as usize;
    let (fronts, walks) = words.split_at_mut(4 * passes);
    read_frontier_words(pool, pass, fronts);
    read_walk_words(pool, pass, &mut walks[..5 * passes - 1]);
}

/// Reads all hazard words: first the frontier words of all passes in rising place, then their walk words in rising place.
/// The retired records that none of them named are free with the pass after the last load, in the order in which they were
/// retired, and the others stay retired: no more than there are hazard words. Gives how many it freed.
///
/// A retired record can still be reached over a link without INVALID of a chain that a pass has in hand, and then the
/// frontier word of that chain names it. Who comes to it that way announces it in a walk word. So the frontier words are
/// read first: once none of them names the record, nobody comes to it any more, and who came before has it in a walk word.
pub(crate) fn scan<S: Shape>(pool: &Pool<S>, pass: &mut Pass<S>) -> u32
    requires fits { Fits pool.now.table.shared.table_id pool.now.layout pass.old.seat }
    requires next { (known pass.old.seat).scan.read ≡ 0 }
    requires flushed { pass.old.purse.spent ≡ 0 }
    ensures same { IsSame pass.old.seat pass.new.seat }
    ensures swept { Swept pool.now.layout result pass.old.seat pass.new.seat pass.old.purse pass.new.purse }
    ensures rest { IsAtRest (known pass.old.seat) pass.old.purse → IsAtRest (known pass.new.seat) pass.new.purse }
    ensures walk { pass.new.walk ≡ pass.old.walk }
{
    let count = 9 * pool.layout.sizes().passes as usize;
    let mut words = [0; MOST_WORDS];
    read_words(pool, pass, &mut words[..count]);
    let before = pass.free().len();
    scan_last(pool, pass, &mut words[..count]);
    (pass.free().len() - before) as u32
}
