//! Notes: what one pass has seen, for another pass of the same pool to learn.

ghost use Rattle.std.specs.Prelude.{◌≡◌};
ghost use Rattle.pp_base.specs.Passes.{view, Fits, IsSame};
ghost use Rattle.pp_pool.specs.Noted.{HasLearnt};

use crate::carried::Note;
use pp_base::seats::{learn_orders, meet_seat, tell_seat};
use pp_base::{Pass, Pool};
use pp_rule::Shape;

/// A note of what the pass has seen. It may be made while a call is going on, makes no step, and takes no memory.
pub fn note<S: Shape>(pool: &Pool<S>, pass: &mut Pass<S>) -> Note<S>
    requires fits { Fits pool.now.table.shared.table_id pool.now.layout pass.old.seat }
    ensures table { pass.new.seat.table_id ≡ pass.old.seat.table_id }
    ensures same { pass.new.seat.me ≡ pass.old.seat.me }
    ensures walk { pass.new.walk ≡ pass.old.walk }
    ensures purse { pass.new.purse ≡ pass.old.purse }
    ensures made { result.seat.table_id ≡ pool.now.table.shared.table_id }
    ensures order { (view result.seat).order ≡ (view pass.old.seat).order }
{
    Note {
        seat: tell_seat(pool, &mut pass.seat),
    }
}

/// The pass learns what the pass that made the note had seen. It may do so while a call is going on. It makes no step of its
/// own, and nothing else of it changes.
pub fn learn<S: Shape>(pool: &Pool<S>, pass: &mut Pass<S>, note: Note<S>)
    requires fits { Fits pool.now.table.shared.table_id pool.now.layout pass.old.seat }
    requires made { note.seat.table_id ≡ pool.now.table.shared.table_id }
    ensures same { IsSame pass.old.seat pass.new.seat }
    ensures learnt { HasLearnt note.seat pass.old.seat pass.new.seat }
    ensures walk { pass.new.walk ≡ pass.old.walk }
    ensures purse { pass.new.purse ≡ pass.old.purse }
{
    let Note { seat } = note;
    meet_seat(pool, &mut pass.seat, seat);
    learn_orders(pool, &mut pass.seat);
}
