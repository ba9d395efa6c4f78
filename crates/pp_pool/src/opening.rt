//! Opening a pool: its words, and a pass for each of its callers.

ghost use Rattle.std.specs.Prelude.{◌≡◌, ◌+◌, ◌*◌, ◌-◌, ◌<◌, ◌≤◌, ◌^◌, ◌++◌, [], length, replicate, vec_capacity, All, IfOk};
ghost use Rattle.pp_link.specs.Places.{IsWithin};
ghost use Rattle.pp_rule.specs.Opening.{words_from, fields_from, opening_words, share_of, start_of, numbers_from, dealt, first_view};
ghost use Rattle.pp_rule.specs.Steps.{alone};
ghost use Rattle.pp_pool.specs.PurseRooms.{IsRoom};
ghost use Rattle.pp_pool.specs.Opened.{IsNewPass, AreNewPasses};

use atomic_table::{Seat, Table};
use pp_base::seats::deal_seat;
use pp_base::{InHand, Pass, Pool, Purse};
use pp_link::{Field, Layout, Sizes};
use pp_model::NoMemory;
use pp_model::lists::enter;
use pp_rule::Shape;
use pp_rule::views::SeatView;
use std::alloc::Global;

/// Room for the lists of a pass.
#[derive(Drop)]
struct Room {
    free: Vec<u32>,
    retired: Vec<u32>,
    chains: Vec<InHand>,
}

/// Appends zeros where there is room for them.
fn add_zeros(words: &mut Vec<u64>, count: u32)
    requires { length words.old.items + count ≤ vec_capacity words.old }
    ensures words { words.new.items ≡ words.old.items ++ replicate count 0 }
    ensures room { vec_capacity words.old ≤ vec_capacity words.new }
{
    for _ in 0..count {
        enter(words, 0);
    }
}

/// Appends the words with which the heads open.
fn add_heads<S: Shape>(words: &mut Vec<u64>, count: u32)
    requires { length words.old.items + count ≤ vec_capacity words.old }
    ensures words { words.new.items ≡ words.old.items ++ words_from S.first_head 0 count }
    ensures room { vec_capacity words.old ≤ vec_capacity words.new }
{
    for head in 0..count {
        enter(words, S::head(head).word());
    }
}

/// Appends the fields of a sentinel.
fn add_sentinel<S: Shape>(words: &mut Vec<u64>, number: u32)
    requires sentinel { (1 ≤ number) × (number ≤ S.SENTINELS) }
    requires room { length words.old.items + 5 ≤ vec_capacity words.old }
    ensures words { words.new.items ≡ words.old.items ++ fields_from S.first_field number 1 }
    ensures room { vec_capacity words.old ≤ vec_capacity words.new }
{
    enter(words, S::opening(number, Field::Key));
    enter(words, S::opening(number, Field::Value));
    enter(words, S::opening(number, Field::Left));
    enter(words, S::opening(number, Field::Right));
    enter(words, S::opening(number, Field::High));
}

/// Appends the fields of the sentinels.
fn add_sentinels<S: Shape>(words: &mut Vec<u64>)
    requires { length words.old.items + 5 * S.SENTINELS ≤ vec_capacity words.old }
    ensures words { words.new.items ≡ words.old.items ++ fields_from S.first_field 1 S.SENTINELS }
    ensures room { vec_capacity words.old ≤ vec_capacity words.new }
{
    for before in 0..S::SENTINELS {
        add_sentinel::<S>(words, before + 1);
    }
}

/// The words with which the table of a pool opens.
fn make_words<S: Shape>(alloc: Global, sizes: Sizes) -> Result<Vec<u64>, NoMemory>
    requires within { IsWithin sizes }
    requires sentinels { S.SENTINELS ≤ sizes.records }
    ensures { IfOk result (λ words. words.items ≡ opening_words S.SENTINELS S.first_head S.first_field sizes) }
{
    let low = 1 + 17 * sizes.passes;
    let others = 5 * (sizes.records - S::SENTINELS);
    let total = low + sizes.heads + 5 * sizes.records;
    let Ok(mut words) = Vec::with_capacity(alloc, total as usize) else {
        return Err(NoMemory);
    };
    add_zeros(&mut words, low);
    add_heads::<S>(&mut words, sizes.heads);
    add_sentinels::<S>(&mut words);
    add_zeros(&mut words, others);
    Ok(words)
}

/// Room for the free and the retired numbers of a pass, each of which may be those of all records, and for the chains
/// that it may have in hand.
fn make_room(alloc: Global, records: u32) -> Result<Room, NoMemory>
    ensures { IfOk result (λ room. IsRoom records room) }
{
    let Ok(free) = Vec::with_capacity(alloc, records as usize) else {
        return Err(NoMemory);
    };
    let Ok(retired) = Vec::with_capacity(alloc, records as usize) else {
        return Err(NoMemory);
    };
    let Ok(chains) = Vec::with_capacity(alloc, 4) else {
        return Err(NoMemory);
    };
    Ok(Room {
        free,
        retired,
        chains,
    })
}

/// Room for the lists of each pass.
fn make_rooms(alloc: Global, sizes: Sizes) -> Result<Vec<Room>, NoMemory>
    ensures count { IfOk result (λ rooms. length rooms.items ≡ sizes.passes) }
    ensures rooms { IfOk result (λ rooms. All (IsRoom sizes.records) rooms.items) }
{
    let Ok(mut rooms) = Vec::with_capacity(alloc, sizes.passes as usize) else {
        return Err(NoMemory);
    };
    for _ in 0..sizes.passes {
        let room = make_room(alloc, sizes.records)?;
        enter(&mut rooms, room);
    }
    Ok(rooms)
}

/// How many records the pass of this number is given.
fn share_for<S: Shape>(sizes: Sizes, number: u32) -> u32
    requires within { IsWithin sizes }
    requires sentinels { S.SENTINELS ≤ sizes.records }
    ensures { result ≡ share_of S.SENTINELS sizes number }
{
    let records = sizes.records - S::SENTINELS;
    let share = records / sizes.passes;
    if number < records % sizes.passes {
        share + 1
    } else {
        share
    }
}

/// Lists the numbers of a share.
fn list_share(free: &mut Vec<u32>, first: u32, share: u32)
    requires none { free.old.items ≡ [] }
    requires room { share ≤ vec_capacity free.old }
    requires high { first + share < 2 ^ 32 }
    ensures numbers { free.new.items ≡ numbers_from first share }
    ensures room { vec_capacity free.old ≤ vec_capacity free.new }
{
    for count in 0..share {
        enter(free, first + count);
    }
}

/// The pass of this number, whose share begins with this record. Nothing was done with it yet.
fn make_pass<S: Shape>(
    seat: Seat<(), SeatView<S::Entry, S::Said, S::Own>>,
    room: Room,
    sizes: Sizes,
    number: u32,
    first: u32,
) -> Pass<S>
    requires within { IsWithin sizes }
    requires sentinels { S.SENTINELS ≤ sizes.records }
    requires number { number < sizes.passes }
    requires seat { seat.me ≡ (alone [] (dealt S.SENTINELS S.fresh sizes number), []) }
    requires room { IsRoom sizes.records room }
    requires first { first ≡ start_of S.SENTINELS sizes number }
    ensures seat { result.seat ≡ seat }
    ensures made { IsNewPass seat.table_id sizes number result }
{
    let Room {
        mut free,
        retired,
        chains,
    } = room;
    let share = share_for::<S>(sizes, number);
    list_share(&mut free, first, share);
    let purse = Purse {
        free,
        retired,
        spent: 0,
        chains,
        frontier: [0; 4],
        taken: 0,
        going: false,
    };
    Pass {
        seat,
        number,
        share,
        walk: [0; 5],
        purse,
    }
}

/// Makes a pass of each seat that the first one deals out, and one of that seat at last.
fn deal_passes<S: Shape>(
    pool: &Pool<S>,
    mut seat: Seat<(), SeatView<S::Entry, S::Said, S::Own>>,
    mut rooms: Vec<Room>,
    passes: &mut Vec<Pass<S>>,
)
    requires sentinels { S.SENTINELS ≤ pool.now.layout.records }
    requires table { seat.table_id ≡ pool.now.table.shared.table_id }
    requires first { seat.me ≡ (first_view S.SENTINELS S.fresh pool.now.layout, []) }
    requires rooms { All (IsRoom pool.now.layout.records) rooms.items }
    requires enough { length rooms.items ≡ pool.now.layout.passes }
    requires none { passes.old.items ≡ [] }
    requires room { pool.now.layout.passes ≤ vec_capacity passes.old }
    ensures count { length passes.new.items ≡ pool.now.layout.passes }
    ensures passes { AreNewPasses pool.now.table.shared.table_id pool.now.layout passes.new.items }
{
    let sizes = pool.layout.sizes();
    let last = sizes.passes - 1;
    let mut first = S::SENTINELS + 1;
    for number in 0..last {
        let dealt = deal_seat(pool, &mut seat);
        let pass = make_pass(dealt, rooms.pop().unwrap(), sizes, number, first);
        first += pass.share;
        enter(passes, pass);
    }
    enter(
        passes,
        make_pass(seat, rooms.pop().unwrap(), sizes, last, first),
    );
}

/// The table of a pool, and its first seat, which stands for all passes.
fn make_table<S: Shape>(
    alloc: Global,
    sizes: Sizes,
) -> Result<(Pool<S>, Seat<(), SeatView<S::Entry, S::Said, S::Own>>), NoMemory>
    requires within { IsWithin sizes }
    requires sentinels { S.SENTINELS ≤ sizes.records }
    ensures sizes { IfOk result (λ r. r.0.layout ≡ sizes) }
    ensures table { IfOk result (λ r. r.1.table_id ≡ r.0.table.shared.table_id) }
    ensures seat { IfOk result (λ r. r.1.me ≡ (first_view S.SENTINELS S.fresh sizes, [])) }
{
    let words = make_words::<S>(alloc, sizes)?;
    match Table::of_words(alloc, &words, &sizes) {
        Ok((table, seat)) => {
            let layout = Layout::new(sizes);
            Ok((Pool { table, layout }, seat))
        }
        Err(_) => Err(NoMemory),
    }
}

/// Makes a pool of this shape, and a pass for each of its callers, the pass of the caller 0 first. The sentinels have
/// the numbers from 1 on. The other records are dealt out in rising blocks, as equal as can be: each pass gets the
/// same number of them, and each of the first ones gets one of the rest.
///
/// It takes all the memory that any later call but closing needs. `NoMemory` where there is none; nothing is left
/// behind then.
pub fn make_pool<S: Shape>(alloc: Global, sizes: Sizes) -> Result<(Pool<S>, Vec<Pass<S>>), NoMemory>
    requires { IsWithin sizes }
    ensures sizes { IfOk result (λ made. made.0.layout ≡ sizes) }
    ensures count { IfOk result (λ made. length made.1.items ≡ sizes.passes) }
    ensures passes { IfOk result (λ made. AreNewPasses made.0.table.shared.table_id sizes made.1.items) }
{
    let rooms = make_rooms(alloc, sizes)?;
    let Ok(mut passes) = Vec::with_capacity(alloc, sizes.passes as usize) else {
        return Err(NoMemory);
    };
    let Ok((pool, seat)) = make_table(alloc, sizes) else {
        passes.destroy_empty();
        return Err(NoMemory);
    };
    deal_passes(&pool, seat, rooms, &mut passes);
    Ok((pool, passes))
}
