//! Five pegs on one line. A pass may pull out the first one again and again, so it comes to have several chains in hand, each
//! with a frontier. No call takes effect: it tries the steps that every pool has.

ghost use Rattle.std.specs.Prelude.{◌≡◌, ◌<◌};
ghost use Rattle.pp_link.specs.Links.{target};
ghost use Rattle.pp_base.specs.Row.{has_flag};
ghost use Rattle.pp_base.specs.RowLaws.{row_sided, row_freezes};
ghost use Rattle.pp_peg_scenes.specs.Pegs.{peg_head, peg_field, ArePegs, peg_chain, MayPull};
ghost use Rattle.pp_peg_scenes.specs.Pegs.{PegGathered, peg_count, PegTells, PegTellsPass};
ghost use Rattle.pp_peg_scenes.specs.PegLaws.{peg_fits, peg_heads_open, peg_links_open, peg_opened, peg_alike};
ghost use Rattle.pp_peg_scenes.specs.PegLaws.{peg_clears, peg_invalidates, peg_reached, peg_chained, peg_detaches, peg_detached};
ghost use Rattle.pp_peg_scenes.specs.PegLaws.{peg_gathers, peg_own_changes};

use pp_base::source::unpacked;
use pp_link::{Field, Layout, Link};
use pp_model::Pair;
use pp_model::lists::enter;
use pp_rule::Shape;

/// The shape of five pegs, the records 1 to 5: the head 0 leads to the first one, and each is marked as removed and leads to
/// the next. Their keys are 1 to 5, and their values 0. A pass that has learnt the link of the first peg that stands may detach
/// it, and the head leads to the next one then. The contents are the numbers of the pegs that stand at the end.
pub struct PegShape {}

impl Shape for PegShape {
    type Entry = ();

    type Said = ();

    type Own = ();

    const SENTINELS: u32 = 5;

    const NEED: u32 = 1;

    const SIDES: u8 = 1;

    ghost SENTINELS = { 5 };

    ghost NEED = { 1 };

    ghost SIDES = { 1 };

    ghost first_head = { peg_head };

    ghost first_field = { peg_field };

    ghost fresh = { tt };

    ghost addition = { λ z words g. ArePegs z words g };

    ghost frozen = { has_flag };

    ghost forget = { λ i own. own };

    ghost chain = { λ walk own guard first new. peg_chain guard (target first) };

    ghost may_detach = { λ z walk own place first new. MayPull z walk place first new };

    ghost gathered = { λ z words contents live. PegGathered z words contents live };

    ghost live_count = { peg_count };

    ghost tells = { λ z log pairs. PegTells z log pairs };

    ghost tells_pass = { λ z log p placed. PegTellsPass z log p placed };

    ghost caller_of = { λ change. 0 };

    fn opening(number: u32, field: Field) -> u64 {
        match field {
            Field::Key => number as u64,
            Field::Value => 0,
            Field::Left => {
                let next = if number < 5 { number + 1 } else { 0 };
                Link::pack(next, true, false, false, false).word()
            }
            Field::Right | Field::High => 0,
        }
    }

    fn head(head: u32) -> Link {
        let number = if head == 0 { 1 } else { 0 };
        Link::pack(number, false, false, false, false)
    }

    fn gather(layout: &Layout, words: &[u64], contents: &mut Vec<Pair>, live: &mut Vec<u32>) {
        let first = unpacked(words[layout.head_word(0) as usize]).number();
        if first == 0 {
            return;
        }
        for number in first..6 {
            enter(contents, pair(number));
            enter(live, number);
        }
    }

    ghost sided = { row_sided };

    ghost fits = { peg_fits };

    ghost heads_open = { peg_heads_open };

    ghost links_open = { peg_links_open };

    ghost freezes = { row_freezes };

    ghost opened = { peg_opened tt };

    ghost alike = { peg_alike };

    ghost clears = { peg_clears };

    ghost invalidates = { peg_invalidates };

    ghost reached = { peg_reached };

    ghost chained = { peg_chained };

    ghost detaches = { peg_detaches };

    ghost detached = { peg_detached };

    ghost own_changes = { peg_own_changes };

    ghost gathers = { peg_gathers };
}

/// The key and the value of a peg.
fn pair(number: u32) -> Pair
    ensures { result ≡ record { key = number; value = 0 } }
{
    Pair {
        key: number as u64,
        value: 0,
    }
}
