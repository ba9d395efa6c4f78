//! Passes learn what others had seen, by notes.

ghost use Rattle.std.specs.Prelude.{◌≡◌, ◌<◌, length};
ghost use Rattle.pp_scenes.specs.Rows.{AreIdle};

use crate::staging::{end, open};
use pp_base::row::RowShape;
use pp_base::{Pass, Pool};
use pp_hazard::clear;
use pp_link::Sizes;
use pp_pool::{Note, learn, note};

const THREE: Sizes = Sizes {
    passes: 3,
    records: 8,
    heads: 1,
};

/// A note of what one of the passes has seen.
fn note_of(pool: &Pool<RowShape>, passes: &mut Vec<Pass<RowShape>>, pass: usize) -> Note<RowShape>
    requires passes { AreIdle pool.now.table.shared.table_id pool.now.layout passes.old.items }
    requires pass { pass < length passes.old.items }
    ensures passes { AreIdle pool.now.table.shared.table_id pool.now.layout passes.new.items }
    ensures count { length passes.new.items ≡ length passes.old.items }
    ensures made { result.seat.table_id ≡ pool.now.table.shared.table_id }
{
    note(pool, &mut passes[pass])
}

/// One of the passes learns a note.
fn learn_by(
    pool: &Pool<RowShape>,
    passes: &mut Vec<Pass<RowShape>>,
    pass: usize,
    noted: Note<RowShape>,
)
    requires passes { AreIdle pool.now.table.shared.table_id pool.now.layout passes.old.items }
    requires pass { pass < length passes.old.items }
    requires made { noted.seat.table_id ≡ pool.now.table.shared.table_id }
    ensures passes { AreIdle pool.now.table.shared.table_id pool.now.layout passes.new.items }
    ensures count { length passes.new.items ≡ length passes.old.items }
{
    learn(pool, &mut passes[pass], noted);
}

/// One of the passes makes a step, at a walk word that is 0 and stays so.
fn step_of(pool: &Pool<RowShape>, passes: &mut Vec<Pass<RowShape>>, pass: usize)
    requires passes { AreIdle pool.now.table.shared.table_id pool.now.layout passes.old.items }
    requires pass { pass < length passes.old.items }
    ensures passes { AreIdle pool.now.table.shared.table_id pool.now.layout passes.new.items }
    ensures count { length passes.new.items ≡ length passes.old.items }
{
    clear(pool, &mut passes[pass], 0);
}

#[test]
fn a_pass_learns_a_note_over_a_step_of_a_third(rt: HostRuntime) {
    let (pool, mut passes) = open(&rt, rt.alloc(), THREE);
    step_of(&pool, &mut passes, 0);
    let noted = note_of(&pool, &mut passes, 0);
    step_of(&pool, &mut passes, 2);
    learn_by(&pool, &mut passes, 1, noted);
    step_of(&pool, &mut passes, 1);
    let closed = end(&rt, rt.alloc(), pool, passes);
    assert_eq!(rt; closed.free(), [1, 2, 4, 5, 6, 7, 8].as_slice());
}

#[test]
fn notes_are_learnt_late_or_let_go(rt: HostRuntime) {
    let (pool, mut passes) = open(&rt, rt.alloc(), THREE);
    let _unread = note_of(&pool, &mut passes, 1);
    let early = note_of(&pool, &mut passes, 0);
    step_of(&pool, &mut passes, 0);
    step_of(&pool, &mut passes, 1);
    let forth = note_of(&pool, &mut passes, 0);
    learn_by(&pool, &mut passes, 1, forth);
    learn_by(&pool, &mut passes, 2, early);
    let back = note_of(&pool, &mut passes, 1);
    step_of(&pool, &mut passes, 1);
    learn_by(&pool, &mut passes, 0, back);
    let closed = end(&rt, rt.alloc(), pool, passes);
    assert_eq!(rt; closed.free(), [1, 2, 4, 5, 6, 7, 8].as_slice());
}
