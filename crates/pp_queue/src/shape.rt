//! What a queue adds to the rule of its pool.

ghost use Rattle.std.specs.Prelude.{◌≡◌, ◌<◌};
ghost use Rattle.pp_link.specs.Links.{target};
ghost use Rattle.pp_queues.specs.Queues.{Queues, queue_frozen, queue_forget, nobody, queue_chain, NeverDetaches};
ghost use Rattle.pp_queues.specs.Queues.{queue_head, queue_field};
ghost use Rattle.pp_queues.specs.Contents.{QueueGathered, queue_count, queue_caller, QueueTells, QueueTellsPass};
ghost use Rattle.pp_queues.proofs.Laws.{queue_sided, queue_fits, queue_heads_open, queue_links_open, queue_freezes};
ghost use Rattle.pp_queues.proofs.Laws.{queue_opened, queue_alike};
ghost use Rattle.pp_queues.proofs.Laws.{queue_clears, queue_invalidates, queue_is_chained, queue_may_detach};
ghost use Rattle.pp_queues.proofs.Laws.{queue_kept_detached, queue_own_changes};
ghost use Rattle.pp_queues.proofs.Laws.{queue_reached};
ghost use Rattle.pp_queues.proofs.Closing.{queue_gathers};

use pp_link::{Field, Layout, Link};
use pp_model::Pair;
use pp_model::lists::enter;
use pp_queues::calls::{QueueChange, QueuePlaced};
use pp_queues::own::QueueOwn;
use pp_rule::Shape;

/// The shape of a queue after Michael and Scott ("Simple, Fast, and Practical Non-Blocking and Blocking Concurrent Queue
/// Algorithms", 1996): head 0 leads to a dummy, and each record to the next one. Head 1 leads to the last record or to the
/// one before it. The contents are the values behind the dummy, each with its position from the front.
pub struct QueueShape {}

impl Shape for QueueShape {
    type Entry = QueueChange;

    type Said = QueuePlaced;

    type Own = QueueOwn;

    const SENTINELS: u32 = 1;

    const NEED: u32 = 1;

    const SIDES: u8 = 1;

    ghost SENTINELS = { 1 };

    ghost NEED = { 1 };

    ghost SIDES = { 1 };

    ghost first_head = { queue_head };

    ghost first_field = { queue_field };

    ghost fresh = { nobody };

    ghost addition = { Queues };

    ghost frozen = { queue_frozen };

    ghost forget = { queue_forget };

    ghost chain = { queue_chain };

    ghost may_detach = { NeverDetaches };

    ghost gathered = { QueueGathered };

    ghost live_count = { queue_count };

    ghost tells = { QueueTells };

    ghost tells_pass = { QueueTellsPass };

    ghost caller_of = { queue_caller };

    fn opening(_number: u32, _field: Field) -> u64 {
        0
    }

    fn head(_head: u32) -> Link {
        Link::pack(1, false, false, false, false)
    }

    fn gather(layout: &Layout, words: &[u64], contents: &mut Vec<Pair>, live: &mut Vec<u32>) {
        let dummy = led_to(words[layout.head_word(0) as usize]);
        enter(live, dummy);
        let mut number = led_to(words[layout.cell(dummy, Field::Left) as usize]);
        for _ in 1..layout.sizes().records {
            if number == 0 {
                break;
            }
            let low = words[layout.cell(number, Field::Value) as usize];
            let high = words[layout.cell(number, Field::High) as usize];
            let value = u128::from(low) + 18446744073709551616 * u128::from(high);
            let key = contents.len() as u64;
            enter(contents, Pair { key, value });
            enter(live, number);
            number = led_to(words[layout.cell(number, Field::Left) as usize]);
        }
    }

    ghost sided = { queue_sided };

    ghost fits = { queue_fits };

    ghost heads_open = { queue_heads_open };

    ghost links_open = { queue_links_open };

    ghost freezes = { queue_freezes };

    ghost opened = { queue_opened };

    ghost alike = { queue_alike };

    ghost clears = { queue_clears };

    ghost invalidates = { queue_invalidates };

    ghost chained = { queue_is_chained };

    ghost detaches = { queue_may_detach };

    ghost detached = { queue_kept_detached };

    ghost reached = { queue_reached };

    ghost own_changes = { queue_own_changes };

    ghost gathers = { queue_gathers };
}

/// The number of the record that a word of a link leads to.
fn led_to(word: u64) -> u32
    requires { word < 68719476736 }
    ensures { result ≡ target word }
{
    (word / 16) as u32
}
