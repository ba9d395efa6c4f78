//! A reader that makes no turn while other callers remove records, those where it stands among them.

use crate::staging::{
    RACES, add_all, begin, close_three, close_two, end, find, go_on, make, open_three, open_two,
    reclaim_so_many, remove, remove_all, retire_chains,
};
use pp_model::{Call, Reply};

// Eight records are dealt as 1 to 4 and 5 to 8, and the last free one is taken first: the keys 10, 20 and 30 are the records 8, 7
// and 6. The reader stands on 20, which is detached and not yet invalidated: its link leads on.
#[test]
fn a_stalled_reader_walks_a_detached_record(rt: HostRuntime) {
    let (table, mut first, mut second) = open_two(&rt, rt.alloc(), 8);
    add_all(&rt, &table, &mut second, &[(10, 1), (20, 2), (30, 3)]);
    let mut going = begin(&table, &mut first, Call::Get { key: 30 }, RACES);
    go_on(&rt, &table, &mut first, &mut going, 2, 0);
    remove(&rt, &table, &mut second, 20, 2);
    find(&rt, &second, 1, &[], &[5]);
    end(&rt, &table, &mut first, going, 0, Reply::Value(3));
    find(&rt, &first, 0, &[], &[1, 2, 3, 4]);
    let passes = (first, second);
    close_two(
        &rt,
        rt.alloc(),
        table,
        passes,
        &[(10, 1), (30, 3)],
        &[1, 2, 3, 4, 5, 7],
    );
}

// Where the detached record was invalidated, the reader begins again.
#[test]
fn a_stalled_reader_begins_again_at_an_invalid_link(rt: HostRuntime) {
    let (table, mut first, mut second) = open_two(&rt, rt.alloc(), 8);
    add_all(&rt, &table, &mut second, &[(10, 1), (20, 2), (30, 3)]);
    let mut going = begin(&table, &mut first, Call::Get { key: 30 }, RACES);
    go_on(&rt, &table, &mut first, &mut going, 2, 0);
    remove(&rt, &table, &mut second, 20, 2);
    retire_chains(&table, &mut second);
    find(&rt, &second, 0, &[7], &[5]);
    go_on(&rt, &table, &mut first, &mut going, 1, 1);
    go_on(&rt, &table, &mut first, &mut going, 1, 1);
    end(&rt, &table, &mut first, going, 1, Reply::Value(3));
    let passes = (first, second);
    close_two(
        &rt,
        rt.alloc(),
        table,
        passes,
        &[(10, 1), (30, 3)],
        &[1, 2, 3, 4, 5, 7],
    );
}

// Of three removed records the reader holds the second one, which stays retired until it goes on.
#[test]
fn one_of_three_removed_records_is_held(rt: HostRuntime) {
    let (table, mut first, mut second) = open_two(&rt, rt.alloc(), 8);
    add_all(&rt, &table, &mut second, &[(10, 1), (20, 2), (30, 3)]);
    let mut going = begin(&table, &mut first, Call::Get { key: 30 }, RACES);
    go_on(&rt, &table, &mut first, &mut going, 2, 0);
    remove_all(&rt, &table, &mut second, &[(10, 1), (20, 2), (30, 3)]);
    find(&rt, &second, 3, &[], &[5]);
    reclaim_so_many(&rt, &table, &mut second, 2);
    find(&rt, &second, 0, &[7], &[5, 8, 6]);
    go_on(&rt, &table, &mut first, &mut going, 1, 1);
    end(&rt, &table, &mut first, going, 1, Reply::Absent);
    reclaim_so_many(&rt, &table, &mut second, 1);
    find(&rt, &second, 0, &[], &[5, 8, 6, 7]);
    let passes = (first, second);
    close_two(
        &rt,
        rt.alloc(),
        table,
        passes,
        &[],
        &[1, 2, 3, 4, 5, 6, 7, 8],
    );
}

// Fifteen records are dealt by fives: the keys 10, 20, 30 and 40 are the records 15, 14, 13 and 12. The second caller removes 20,
// whose link leads to 30, and then the third one removes 30: it leads on to 40.
#[test]
fn a_reader_walks_a_chain_that_two_callers_removed(rt: HostRuntime) {
    let (table, mut first, mut second, mut third) = open_three(&rt, rt.alloc(), 15);
    add_all(
        &rt,
        &table,
        &mut third,
        &[(10, 1), (20, 2), (30, 3), (40, 4)],
    );
    let mut going = begin(&table, &mut first, Call::Get { key: 40 }, RACES);
    go_on(&rt, &table, &mut first, &mut going, 2, 0);
    remove(&rt, &table, &mut second, 20, 2);
    remove(&rt, &table, &mut third, 30, 3);
    find(&rt, &second, 1, &[], &[6, 7, 8, 9, 10]);
    find(&rt, &third, 1, &[], &[11]);
    go_on(&rt, &table, &mut first, &mut going, 1, 0);
    end(&rt, &table, &mut first, going, 0, Reply::Value(4));
    let free = [1, 2, 3, 4, 5, 6, 7, 8, 9, 10, 11, 13, 14];
    let passes = (first, second, third);
    close_three(&rt, rt.alloc(), table, passes, &[(10, 1), (40, 4)], &free);
}

// The third caller has invalidated 30, and may not use it again, since the second caller's frontier word names it. The reader, on
// 20, holds 30 and finds INVALID in the link of 30 itself.
#[test]
fn a_reader_meets_an_invalid_record_behind_a_detached_one(rt: HostRuntime) {
    let (table, mut first, mut second, mut third) = open_three(&rt, rt.alloc(), 15);
    add_all(
        &rt,
        &table,
        &mut third,
        &[(10, 1), (20, 2), (30, 3), (40, 4)],
    );
    let mut going = begin(&table, &mut first, Call::Get { key: 40 }, RACES);
    go_on(&rt, &table, &mut first, &mut going, 2, 0);
    remove(&rt, &table, &mut second, 20, 2);
    remove(&rt, &table, &mut third, 30, 3);
    reclaim_so_many(&rt, &table, &mut third, 0);
    find(&rt, &third, 0, &[13], &[11]);
    go_on(&rt, &table, &mut first, &mut going, 1, 1);
    go_on(&rt, &table, &mut first, &mut going, 1, 1);
    end(&rt, &table, &mut first, going, 1, Reply::Value(4));
    retire_chains(&table, &mut second);
    find(&rt, &second, 0, &[14], &[6, 7, 8, 9, 10]);
    reclaim_so_many(&rt, &table, &mut third, 1);
    find(&rt, &third, 0, &[], &[11, 13]);
    let free = [1, 2, 3, 4, 5, 6, 7, 8, 9, 10, 11, 13, 14];
    let passes = (first, second, third);
    close_three(&rt, rt.alloc(), table, passes, &[(10, 1), (40, 4)], &free);
}
