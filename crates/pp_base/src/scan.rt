//! The loads of the hazard words by a reclaim pass: the frontier words of all passes first, then their walk words.

ghost use Rattle.std.specs.Prelude.{◌≡◌, ◌+◌, ◌-◌, ◌*◌, ◌<◌, ◌≤◌, ◌++◌, ◌∷◌, [], length, take, vec_capacity};
ghost use Rattle.std.specs.List.Sorted.{IsNonDecreasing, IsPermutation};
ghost use Rattle.pp_base.specs.Passes.{known, Fits, IsSame};
ghost use Rattle.pp_rule.specs.Lists.{without, without_all};
ghost use Rattle.pp_rule.specs.Steps.{still};
ghost use Rattle.pp_base.specs.Scans.{ScannedFrontier, ScannedWalk, ScannedLast, GotBack, is_named, chosen, rejected};

use crate::pool::{Pass, Pool};
use crate::steps::{NOTHING, load_word};
use pp_model::lists::enter;
use pp_rule::Shape;
use std::marker::Brand;

/// Loads the next hazard word of a reclaim pass, which is a frontier word of the pass with this number. The record that
/// it names is no longer left.
pub fn scan_frontier<S: Shape>(pool: &Pool<S>, pass: &mut Pass<S>, number: u32, word: u8) -> u64
    requires fits { Fits pool.now.table.shared.table_id pool.now.layout pass.old.seat }
    requires number { number < pool.now.layout.passes }
    requires word { word < 4 }
    requires next { (known pass.old.seat).scan.read ≡ 4 * number + word }
    ensures same { IsSame pass.old.seat pass.new.seat }
    ensures made { ScannedFrontier pool.now.layout number word result pass.old.seat pass.new.seat }
    ensures walk { pass.new.walk ≡ pass.old.walk }
    ensures purse { pass.new.purse ≡ pass.old.purse }
{
    let place = pool.layout.frontier_word(number, word);
    load_word::<S, Brand>(pool, &mut pass.seat, place, NOTHING)
}

/// Loads the next hazard word of a reclaim pass, which is a walk word of the pass with this number. The record that it
/// names is no longer left.
pub fn scan_walk<S: Shape>(pool: &Pool<S>, pass: &mut Pass<S>, number: u32, word: u8) -> u64
    requires fits { Fits pool.now.table.shared.table_id pool.now.layout pass.old.seat }
    requires number { number < pool.now.layout.passes }
    requires word { word < 5 }
    requires next { (known pass.old.seat).scan.read ≡ 4 * pool.now.layout.passes + 5 * number + word }
    ensures same { IsSame pass.old.seat pass.new.seat }
    ensures made { ScannedWalk pool.now.layout number word result pass.old.seat pass.new.seat }
    ensures walk { pass.new.walk ≡ pass.old.walk }
    ensures purse { pass.new.purse ≡ pass.old.purse }
{
    let place = pool.layout.walk_word(number, word);
    load_word::<S, Brand>(pool, &mut pass.seat, place, NOTHING)
}

/// Loads the last hazard word of a reclaim pass, which is the last walk word. The retired records that none of the words
/// names are free from here on; the others stay retired, in their order. `words` are the words that this reclaim pass
/// read before, in their order, and one more place for the last one. They are sorted here, so that each retired number is
/// looked up in few steps.
pub fn scan_last<S: Shape>(pool: &Pool<S>, pass: &mut Pass<S>, words: &mut [u64]) -> u64
    requires fits { Fits pool.now.table.shared.table_id pool.now.layout pass.old.seat }
    requires next { (known pass.old.seat).scan.read + 1 ≡ 9 * pool.now.layout.passes }
    requires place { 1 ≤ length words.old }
    requires words { still (known pass.old.seat) ≡ without_all (take (length words.old - 1) words.old) (known pass.old.seat).retired }
    requires flushed { pass.old.purse.spent ≡ 0 }
    ensures same { IsSame pass.old.seat pass.new.seat }
    ensures made { ScannedLast pool.now.layout result pass.old.seat pass.new.seat }
    ensures walk { pass.new.walk ≡ pass.old.walk }
    ensures purse { GotBack (without result (still (known pass.old.seat))) (known pass.new.seat).retired pass.old.purse pass.new.purse }
{
    let place = pool.layout.walk_word(pool.layout.sizes().passes - 1, 4);
    let found = load_word::<S, Brand>(pool, &mut pass.seat, place, NOTHING);
    sort_with_last(words, found);
    part(&mut pass.purse.retired, &mut pass.purse.free, words);
    found
}

/// Puts the last word in its place behind the others, and sorts them all.
fn sort_with_last(words: &mut [u64], last: u64)
    requires { 1 ≤ length words.old }
    ensures rise { IsNonDecreasing words.new }
    ensures same { IsPermutation (take (length words.old - 1) words.old ++ last ∷ []) words.new }
{
    let end = words.len() - 1;
    words[end] = last;
    words.sort_unstable();
}

/// Whether one of the words is the number. The words rise.
fn is_hazard(words: &[u64], number: u32) -> bool
    requires { IsNonDecreasing words.now }
    ensures { result ≡ is_named words.now number }
{
    words.binary_search(&(number as u64)).is_ok()
}

/// Leaves the retired numbers that a word names, and appends the others to the free ones. Both keep their order
/// and the memory that they have. The words rise.
pub fn part(retired: &mut Vec<u32>, free: &mut Vec<u32>, words: &[u64])
    requires rise { IsNonDecreasing words.now }
    requires room { length free.old.items + length retired.old.items ≤ vec_capacity free.old }
    ensures retired { retired.new.items ≡ chosen (is_named words.now) retired.old.items }
    ensures free { free.new.items ≡ free.old.items ++ rejected (is_named words.now) retired.old.items }
    ensures free_room { vec_capacity free.old ≤ vec_capacity free.new }
    ensures retired_room { vec_capacity retired.new ≡ vec_capacity retired.old }
{
    let count = retired.len();
    let mut kept = 0;
    for i in 0..count {
        let number = retired[i];
        if is_hazard(words, number) {
            retired[kept] = number;
            kept += 1;
        } else {
            enter(free, number);
        }
    }
    retired.truncate(kept);
}
