//! The pairs and the live records of a closed tree.

ghost use Rattle.std.specs.Prelude.{◌≡◌, ◌+◌, ◌*◌, ◌<◌, ◌≤◌, ◌^◌, ◌++◌, [], length, vec_capacity};
ghost use Rattle.pp_link.specs.Links.{link_of};
ghost use Rattle.pp_link.specs.Places.{IsNumber, total, field_number};
ghost use Rattle.pp_link.specs.Words.{cell_word};
ghost use Rattle.pp_rule.specs.Rule.{Base};
ghost use Rattle.pp_rule.specs.Views.{halves, value_of};
ghost use Rattle.pp_trees.specs.Searches.{TreeState, Trees};
ghost use Rattle.pp_trees.specs.Gathering.{closed, HoldsTree, IsGathered, own_pairs, pairs_in, with_leaf};

use crate::opening::INF0;
use pp_link::{Field, Layout, Link};
use pp_model::Pair;
use pp_model::lists::enter;

/// Appends the pairs and the live numbers of a closed tree. It takes no memory: both lists have room for all records.
pub fn gather(layout: &Layout, words: &[u64], contents: &mut Vec<Pair>, live: &mut Vec<u32>)
    requires rule { (g : TreeState) × Base 2 layout.now words.now g × Trees layout.now words.now g }
    requires none { (contents.old.items ≡ []) × (live.old.items ≡ []) }
    requires room { (layout.now.records ≤ vec_capacity contents.old) × (layout.now.records ≤ vec_capacity live.old) }
    ensures gathered { IsGathered (closed layout.now words.now) contents.new.items live.new.items }
{
    list_live(layout, words, contents, live);
    for number in live.iter() {
        enter_pair(layout, words, *number, contents);
    }
}

/// Lists the live records by rising keys. It goes through the tree from left to right. The stack has the records that it
/// left for their left sides, and it is empty at the end.
fn list_live(layout: &Layout, words: &[u64], stack: &mut Vec<Pair>, live: &mut Vec<u32>)
    requires tree { HoldsTree layout.now words.now }
    requires none { (stack.old.items ≡ []) × (live.old.items ≡ []) }
    requires room { (layout.now.records ≤ vec_capacity stack.old) × (layout.now.records ≤ vec_capacity live.old) }
    ensures none { stack.new.items ≡ [] }
    ensures room { layout.now.records ≤ vec_capacity stack.new }
    ensures gathered { IsGathered (closed layout.now words.now) (pairs_in
        (closed layout.now words.now) live.new.items) live.new.items }
{
    enter(stack, entry(1));
    let mut link = link_at(layout, words, 1, Field::Left);
    // All keys below this one were visited.
    let mut low = 0;
    // So many records on the stack lie over the last live leaf, and below them its walk turned left at this one last.
    let mut base = 0;
    let mut parting = 0;
    loop {
        if link.leaf() {
            if !link.flag() {
                enter_leaf(live, parting, link.number());
                base = stack.len();
            }
            let Some(next) = stack.pop() else {
                return;
            };
            let number = next.key as u32;
            if stack.len() < base {
                base = stack.len();
                parting = number;
            }
            low = word_at(layout, words, number, Field::Key);
            link = link_at(layout, words, number, Field::Right);
        } else {
            let number = link.number();
            enter(stack, entry(number));
            link = link_at(layout, words, number, Field::Left);
        }
    }
}

/// A record as it stands on the stack.
fn entry(number: u32) -> Pair
    ensures { result ≡ record { key = number; value = 0 } }
{
    Pair {
        key: number as u64,
        value: 0,
    }
}

/// Enters a live leaf, and before it the record at which its walk parts from that of the leaf before, if there is one.
fn enter_leaf(live: &mut Vec<u32>, parting: u32, leaf: u32)
    requires room { length (with_leaf live.old.items parting leaf) ≤ vec_capacity live.old }
    ensures items { live.new.items ≡ with_leaf live.old.items parting leaf }
    ensures room { vec_capacity live.old ≤ vec_capacity live.new }
{
    if parting != 0 {
        enter(live, parting);
    }
    enter(live, leaf);
}

/// Enters the pair of a live record, if it is a leaf and no sentinel.
fn enter_pair(layout: &Layout, words: &[u64], number: u32, contents: &mut Vec<Pair>)
    requires wide { length words.now ≡ total layout.now }
    requires number { IsNumber layout.now number }
    requires small { cell_word words.now layout.now number 2 < 2 ^ 36 }
    requires room { length contents.old.items < vec_capacity contents.old }
    ensures items { contents.new.items ≡ contents.old.items ++ own_pairs (closed layout.now words.now) number }
    ensures room { vec_capacity contents.old ≤ vec_capacity contents.new }
{
    let key = word_at(layout, words, number, Field::Key);
    if link_at(layout, words, number, Field::Left).number() == 0 && key < INF0 {
        let value = value_at(layout, words, number);
        enter(contents, Pair { key, value });
    }
}

/// The link of a record.
fn link_at(layout: &Layout, words: &[u64], number: u32, field: Field) -> Link
    requires wide { length words.now ≡ total layout.now }
    requires number { IsNumber layout.now number }
    requires small { cell_word words.now layout.now number (field_number field) < 2 ^ 36 }
    ensures { result ≡ link_of (cell_word words.now layout.now number (field_number field)) }
{
    let Some(link) = Link::of(word_at(layout, words, number, field)) else {
        unreachable!();
    };
    link
}

/// The value of a record, of its two words.
fn value_at(layout: &Layout, words: &[u64], number: u32) -> u128
    requires wide { length words.now ≡ total layout.now }
    requires number { IsNumber layout.now number }
    ensures { result ≡ value_of (halves (cell_word words.now layout.now number 1) (cell_word words.now layout.now number 4)) }
{
    let low = word_at(layout, words, number, Field::Value);
    let high = word_at(layout, words, number, Field::High);
    u128::from(low) + 18446744073709551616 * u128::from(high)
}

/// A word of a record.
fn word_at(layout: &Layout, words: &[u64], number: u32, field: Field) -> u64
    requires wide { length words.now ≡ total layout.now }
    requires number { IsNumber layout.now number }
    ensures { result ≡ cell_word words.now layout.now number (field_number field) }
{
    words[layout.cell(number, field) as usize]
}
