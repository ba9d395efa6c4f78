//! What a list adds to the rule of its pool.

ghost use Rattle.std.specs.Prelude.{◌≡◌, ◌+◌, ◌<◌, ◌≤◌, ◌++◌, map, length, vec_capacity};
ghost use Rattle.pp_link.specs.Links.{target};
ghost use Rattle.pp_link.specs.Places.{IsNumber, total, field_number};
ghost use Rattle.pp_link.specs.Words.{head_word, cell_word};
ghost use Rattle.pp_lists.specs.Lists.{ListState, Lists, list_frozen, list_forget, nobody, list_chain, MayUnlink, list_head, list_field};
ghost use Rattle.pp_lists.specs.Lists.{ListTells, ListTellsPass};
ghost use Rattle.pp_lists.specs.Contents.{ListGathered, list_count, live_of, pair_of};
ghost use Rattle.pp_lists.proofs.Laws.{list_sided, list_fits, list_heads_open, list_links_open, list_freezes, list_opened, list_alike};
ghost use Rattle.pp_lists.proofs.Laws.{list_clears, list_invalidates, list_is_chained, list_may_detach, list_kept_detached};
ghost use Rattle.pp_lists.proofs.Laws.{list_own_changes};
ghost use Rattle.pp_lists.proofs.Closing.{list_gathers, list_reached};
ghost use Rattle.pp_rule.specs.Rule.{Base};
ghost use Rattle.pp_rule.specs.Views.{halves, value_of};

use pp_link::{Field, Layout, Link};
use pp_lists::own::ListOwn;
use pp_model::lists::enter;
use pp_model::{Change, Pair, Placed};
use pp_rule::Shape;

/// The bit of a link that is FLAG.
const FLAG: u64 = 1;

/// The shape of lists: each head leads to the records of its bucket by rising keys. A record whose left link has FLAG is
/// removed. The contents are the keys and the values of the others.
pub struct ListShape {}

impl Shape for ListShape {
    type Entry = Change;

    type Said = Placed;

    type Own = ListOwn;

    const SENTINELS: u32 = 0;

    const NEED: u32 = 1;

    const SIDES: u8 = 1;

    ghost SENTINELS = { 0 };

    ghost NEED = { 1 };

    ghost SIDES = { 1 };

    ghost first_head = { list_head };

    ghost first_field = { list_field };

    ghost fresh = { nobody };

    ghost addition = { Lists };

    ghost frozen = { list_frozen };

    ghost forget = { list_forget };

    ghost chain = { list_chain };

    ghost may_detach = { MayUnlink };

    ghost gathered = { ListGathered };

    ghost live_count = { list_count };

    ghost tells = { ListTells };

    ghost tells_pass = { ListTellsPass };

    ghost caller_of = { λ change. change.caller };

    fn opening(number: u32, field: Field) -> u64
        ensures { result ≡ list_field number (field_number field) }
    {
        0
    }

    fn head(_head: u32) -> Link {
        Link::pack(0, false, false, false, false)
    }

    fn gather(layout: &Layout, words: &[u64], contents: &mut Vec<Pair>, live: &mut Vec<u32>) {
        let heads = layout.sizes().heads;
        for head in 0..heads {
            gather_list(layout, words, head, contents, live);
        }
        contents.sort_unstable_by_key(|pair| pair.key);
    }

    ghost sided = { list_sided };

    ghost fits = { list_fits };

    ghost heads_open = { list_heads_open };

    ghost links_open = { list_links_open };

    ghost freezes = { list_freezes };

    ghost opened = { list_opened };

    ghost alike = { list_alike };

    ghost clears = { list_clears };

    ghost invalidates = { list_invalidates };

    ghost chained = { list_is_chained };

    ghost detaches = { list_may_detach };

    ghost detached = { list_kept_detached };

    ghost reached = { list_reached };

    ghost own_changes = { list_own_changes };

    ghost gathers = { list_gathers };
}

/// Appends the pairs and the numbers of the records of one head's list that aren't removed.
fn gather_list(
    layout: &Layout,
    words: &[u64],
    head: u32,
    contents: &mut Vec<Pair>,
    live: &mut Vec<u32>,
)
    requires rule { (g : ListState) × Base 1 layout.now words.now g × Lists layout.now words.now g }
    requires head { head < layout.now.heads }
    requires live { live.old.items ≡ live_of layout.now words.now head }
    requires contents { contents.old.items ≡ map (pair_of layout.now words.now) live.old.items }
    requires room { (layout.now.records ≤ vec_capacity contents.old) × (layout.now.records ≤ vec_capacity live.old) }
    ensures live { live.new.items ≡ live_of layout.now words.now (head + 1) }
    ensures contents { contents.new.items ≡ map (pair_of layout.now words.now) live.new.items }
    ensures room { (vec_capacity contents.old ≤ vec_capacity contents.new) × (vec_capacity live.old ≤ vec_capacity live.new) }
{
    let mut number = led_to(words[layout.head_word(head) as usize]);
    for _ in 0..layout.sizes().records {
        if number == 0 {
            break;
        }
        let link = words[layout.cell(number, Field::Left) as usize];
        if link % 2 != FLAG {
            let key = words[layout.cell(number, Field::Key) as usize];
            let value = value_at(layout, words, number);
            enter(contents, Pair { key, value });
            enter(live, number);
        }
        number = led_to(link);
    }
}

/// The value of a record, of its two words.
fn value_at(layout: &Layout, words: &[u64], number: u32) -> u128
    requires number { IsNumber layout.now number }
    requires wide { length words.now ≡ total layout.now }
    ensures { result ≡ value_of (halves (cell_word words.now layout.now number 1) (cell_word words.now layout.now number 4)) }
{
    let low = words[layout.cell(number, Field::Value) as usize];
    let high = words[layout.cell(number, Field::High) as usize];
    u128::from(low) + 18446744073709551616 * u128::from(high)
}

/// The number of the record that a word of a link leads to.
fn led_to(word: u64) -> u32
    requires { word < 68719476736 }
    ensures { result ≡ target word }
{
    (word / 16) as u32
}
