//! A row of three records, of which a pass may detach the first two. No call takes effect in it: it tries the steps
//! that every pool has.

ghost use Rattle.std.specs.Prelude.{◌≡◌};
ghost use Rattle.pp_link.specs.Links.{word_of};
ghost use Rattle.pp_base.specs.Row.{row_head, row_link, row_field, has_flag, IsRow, row_chain, MayCut};
ghost use Rattle.pp_base.specs.Row.{RowGathered, row_count, RowTells, RowTellsPass};
ghost use Rattle.pp_base.specs.RowLaws.{row_sided, row_fits, row_heads_open, row_links_open, row_freezes, row_opened, row_alike};
ghost use Rattle.pp_base.specs.RowLaws.{row_clears, row_invalidates, row_chained, row_detaches, row_detached, row_gathers};
ghost use Rattle.pp_base.specs.RowLaws.{row_reached, row_own_changes};

use pp_link::{Field, Layout, Link};
use pp_model::Pair;
use pp_model::lists::enter;
use pp_rule::Shape;

/// The shape of a row of three records: the head 0 leads to the record 1, that to 2 and that to 3, where 1 and 2 are
/// marked as removed. Their keys are 1, 2 and 3, and their values 10, 20 and 30. A pass that has learnt the links of 1
/// and 2 may detach both; the record 3 stays.
pub struct RowShape {}

impl Shape for RowShape {
    type Entry = ();

    type Said = ();

    type Own = ();

    const SENTINELS: u32 = 3;

    const NEED: u32 = 1;

    const SIDES: u8 = 1;

    ghost SENTINELS = { 3 };

    ghost NEED = { 1 };

    ghost SIDES = { 1 };

    ghost first_head = { row_head };

    ghost first_field = { row_field };

    ghost fresh = { tt };

    ghost addition = { λ z words g. IsRow z words g };

    ghost frozen = { has_flag };

    ghost forget = { λ i own. own };

    ghost chain = { λ walk own guard first new. row_chain guard };

    ghost may_detach = { λ z walk own place first new. MayCut z walk place first new };

    ghost gathered = { λ z words contents live. RowGathered z words contents live };

    ghost live_count = { row_count };

    ghost tells = { λ z log pairs. RowTells z log pairs };

    ghost tells_pass = { λ z log p placed. RowTellsPass z log p placed };

    ghost caller_of = { λ change. 0 };

    fn opening(number: u32, field: Field) -> u64 {
        match field {
            Field::Key => number as u64,
            Field::Value => 10 * number as u64,
            Field::Left => opening_link(number).word(),
            Field::Right | Field::High => 0,
        }
    }

    fn head(head: u32) -> Link {
        let number = if head == 0 { 1 } else { 0 };
        Link::pack(number, false, false, false, false)
    }

    fn gather(_layout: &Layout, _words: &[u64], _contents: &mut Vec<Pair>, live: &mut Vec<u32>) {
        enter(live, 3);
    }

    ghost sided = { row_sided };

    ghost fits = { row_fits };

    ghost heads_open = { row_heads_open };

    ghost links_open = { row_links_open };

    ghost freezes = { row_freezes };

    ghost opened = { row_opened tt };

    ghost alike = { row_alike };

    ghost clears = { row_clears };

    ghost invalidates = { row_invalidates };

    ghost reached = { row_reached };

    ghost chained = { row_chained };

    ghost detaches = { row_detaches };

    ghost detached = { row_detached };

    ghost own_changes = { row_own_changes };

    ghost gathers = { row_gathers };
}

/// The left link with which a record opens.
fn opening_link(number: u32) -> Link
    ensures { word_of result ≡ row_link number }
{
    match number {
        1 => Link::pack(2, true, false, false, false),
        2 => Link::pack(3, true, false, false, false),
        _ => Link::pack(0, false, false, false, false),
    }
}
