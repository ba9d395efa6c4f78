//! The end of a pool: one seat takes over all passes, the table is ended, and its words are read out.

ghost use Rattle.std.specs.Prelude.{◌≡◌, ℕ, ◌+◌, ◌<◌, ◌≤◌, [], length, map, replicate, true, vec_capacity, IfOk, IfErr};
ghost use Rattle.atomic_table.specs.Table.{State, Seen};
ghost use Rattle.pp_link.specs.Places.{total};
ghost use Rattle.pp_model.specs.Lists.{AtEach};
ghost use Rattle.pp_rule.specs.declared.views.SeatView.{SeatView};
ghost use Rattle.pp_rule.specs.Lists.{times};
ghost use Rattle.pp_rule.specs.Opening.{opening_words};
ghost use Rattle.pp_rule.specs.Steps.{told_part};
ghost use Rattle.pp_rule.specs.Ties.{Holds};
ghost use Rattle.pp_rule.specs.Closing.{spare};
ghost use Rattle.pp_base.specs.Passes.{view, IsIdle};
ghost use Rattle.pp_pool.specs.Closed.{AreSeats, IsSeatOf, IsJoined, IsClosedPool};
ghost use Rattle.pp_pool.specs.Marks.{MarksSpare, marked};
ghost use Rattle.pp_pool.specs.Rooms.{IsRoomFor};

use atomic_table::Seat;
use pp_base::seats::{join_seat, tell_seat};
use pp_base::{Pass, Pool, Purse};
use pp_link::Layout;
use pp_model::lists::enter;
use pp_model::{CloseFault, Closed, Pair};
use pp_rule::Shape;
use pp_rule::views::SeatView;
use std::alloc::{AllocError, Global};

/// What a closed pool keeps of its run for contracts to see: a seat that stands for no pass, whose view has all steps, and the
/// numbers of the records that were live at the end.
#[derive(Drop)]
pub struct Witness<S: Shape> {
    pub seat: Seat<(), SeatView<S::Entry, S::Said, S::Own>>,
    pub live: Vec<u32>,
}

/// Closes a pool over all its passes, given by rising numbers: the contents of its closed words, the numbers of all records
/// that aren't live, rising, and a witness of the run as contracts read it.
/// The passes are idle, so no call is going on, and no record that was taken is out.
///
/// # Errors
///
/// There was no memory. The pool and its passes come back as they were: all memory is taken before a pass is joined.
pub fn close<S: Shape>(
    alloc: Global,
    pool: Pool<S>,
    passes: Vec<Pass<S>>,
) -> Result<Closed<Witness<S>>, CloseFault<Pool<S>, Pass<S>>>
    requires all { length passes.items ≡ pool.layout.passes }
    requires each { AtEach passes.items (λ k p. IsSeatOf pool.table.shared.table_id pool.layout k p.seat) }
    requires idle { AtEach passes.items (λ k p. IsIdle p.walk p.purse) }
    ensures closed { IfOk result (λ c. IsClosedPool (opening_words S.SENTINELS S.first_head S.first_field pool.layout)
        S.gathered S.live_count S.tells S.tells_pass S.caller_of pool.layout (map (λ p. p.seat) passes.items)
        c.contents.items c.free.items c.witness.live.items (view c.witness.seat)) }
    ensures back { IfErr result (λ e. (e.map ≡ pool) × (e.passes.items ≡ passes.items)) }
{
    let layout = pool.layout;
    let sizes = layout.sizes();
    let Ok(room) = take_room(alloc, &layout) else {
        return Err(CloseFault { map: pool, passes });
    };
    let Room {
        mut words,
        mut contents,
        mut live,
        mut free,
        mut marks,
    } = room;
    let seat = join_all(&pool, passes);
    let seat = end_table(pool, seat, &mut words);
    S::gather(&layout, &words, &mut contents, &mut live);
    enter_spare(&live, sizes.records, &mut marks, &mut free);
    Ok(Closed::new(contents, free, Witness { seat, live }))
}

/// The lists that closing fills, with room for all that comes, and a mark for each number.
struct Room {
    words: Vec<u64>,
    contents: Vec<Pair>,
    live: Vec<u32>,
    free: Vec<u32>,
    marks: Vec<bool>,
}

/// Takes all the memory that closing needs.
fn take_room(alloc: Global, layout: &Layout) -> Result<Room, AllocError>
    ensures { IfOk result (λ r. IsRoomFor layout.now r) }
{
    let records = layout.sizes().records as usize;
    let words = Vec::with_capacity(alloc, layout.total() as usize)?;
    let contents = Vec::with_capacity(alloc, records)?;
    let live = Vec::with_capacity(alloc, records)?;
    let free = Vec::with_capacity(alloc, records)?;
    let marks = vec![in alloc; true; records + 1]?;
    Ok(Room {
        words,
        contents,
        live,
        free,
        marks,
    })
}

/// One seat takes over all passes.
fn join_all<S: Shape>(
    pool: &Pool<S>,
    mut passes: Vec<Pass<S>>,
) -> Seat<(), SeatView<S::Entry, S::Said, S::Own>>
    requires some { 1 ≤ length passes.items }
    requires each { AreSeats pool.now.table.shared.table_id pool.now.layout (map (λ p. p.seat) passes.items) }
    ensures table { result.table_id ≡ pool.now.table.shared.table_id }
    ensures bare { result.me.1 ≡ [] }
    ensures joined { IsJoined (map (λ p. p.seat) passes.items) (view result) }
{
    let Some(last) = passes.pop() else {
        unreachable!();
    };
    let mut seat = into_seat(last);
    while let Some(pass) = passes.pop() {
        // The one that takes over has to be alone with its pass, so it is the popped one.
        let mut next = into_seat(pass);
        join_seat(pool, &mut next, seat);
        seat = next;
    }
    passes.destroy_empty();
    seat
}

/// The seat of a pass, whose lists are let go.
fn into_seat<S: Shape>(pass: Pass<S>) -> Seat<(), SeatView<S::Entry, S::Said, S::Own>>
    ensures { result ≡ pass.seat }
{
    let Pass {
        seat,
        number: _,
        share: _,
        walk: _,
        purse,
    } = pass;
    let Purse {
        free: _,
        retired: _,
        spent: _,
        chains: _,
        frontier: _,
        taken: _,
        going: _,
    } = purse;
    seat
}

/// Ends the table, and enters its words. What the seat had seen stays as a witness of the run.
fn end_table<S: Shape>(
    pool: Pool<S>,
    mut seat: Seat<(), SeatView<S::Entry, S::Said, S::Own>>,
    words: &mut Vec<u64>,
) -> Seat<(), SeatView<S::Entry, S::Said, S::Own>>
    requires table { seat.table_id ≡ pool.table.shared.table_id }
    requires none { words.old.items ≡ [] }
    requires room { total pool.layout ≤ vec_capacity words.old }
    ensures told { view result ≡ told_part (view seat) }
    ensures ended { (s : State Unit (SeatView S.Entry S.Said S.Own)) × Seen (Holds S.SIDES
        (opening_words S.SENTINELS S.first_head S.first_field) S.addition pool.layout) seat.id (view seat) s × (s.words ≡ words.new.items) }
{
    let witness = tell_seat(&pool, &mut seat);
    let Pool { table, layout: _ } = pool;
    let count = table.word_count();
    let closed = table.close_with(seat);
    for i in 0..count {
        enter(words, closed.word(i));
    }
    closed.free();
    witness
}

/// Enters the numbers that aren't live. Each number has a mark before.
fn enter_spare(live: &[u32], last: u32, marks: &mut [bool], free: &mut Vec<u32>)
    requires marked { marks.old ≡ replicate (last + 1) true }
    requires live { (n : ℕ) → last < n → times n live.now ≡ 0 }
    requires none { free.old.items ≡ [] }
    requires room { last ≤ vec_capacity free.old }
    ensures { free.new.items ≡ spare live.now 1 last }
{
    unmark(marks, live);
    enter_marked(marks, last, free);
}

/// Takes the marks of the live numbers away.
fn unmark(marks: &mut [bool], live: &[u32])
    requires marked { MarksSpare [] marks.old }
    requires within { (n : ℕ) → length marks.old ≤ n → times n live.now ≡ 0 }
    ensures marks { MarksSpare live.now marks.new }
    ensures count { length marks.new ≡ length marks.old }
{
    for number in live {
        marks[*number as usize] = false;
    }
}

/// Enters the numbers from 1 on that have a mark, up to the last one.
fn enter_marked(marks: &[bool], last: u32, free: &mut Vec<u32>)
    requires each { length marks.now ≡ last + 1 }
    requires none { free.old.items ≡ [] }
    requires room { last ≤ vec_capacity free.old }
    ensures { free.new.items ≡ marked marks.now 1 last }
{
    for i in 0..last {
        let number = i + 1;
        if marks[number as usize] {
            enter(free, number);
        }
    }
}
