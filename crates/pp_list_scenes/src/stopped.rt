//! A caller that stops anywhere, and what it keeps of another caller's records.

use crate::staging::{
    ALL, RACES, add_all, begin, close_two, end, go_on, open_two, reclaim_so_many, remove_all,
};
use pp_model::{Call, Reply};
use std::alloc::Global;
use std::process::Abort;

/// A reader of key 30 stops after so many turns. Another caller removes all three pairs and makes so many records free; these stay
/// retired. When the reader goes on, it makes so many turns before its last one, and all of them are lost.
fn stop_a_reader(
    rt: &impl Abort,
    alloc: Global,
    turns: u32,
    (freed, retired): (u32, &[u32]),
    later: u32,
) {
    let (table, mut first, mut second) = open_two(rt, alloc, 8);
    add_all(rt, &table, &mut second, &[(10, 1), (20, 2), (30, 3)]);
    let mut going = begin(&table, &mut first, Call::Get { key: 30 }, RACES);
    go_on(rt, &table, &mut first, &mut going, turns, 0);
    remove_all(rt, &table, &mut second, &[(10, 1), (20, 2), (30, 3)]);
    reclaim_so_many(rt, &table, &mut second, freed);
    assert_eq!(rt; second.retired(), retired);
    let lost = u64::from(later);
    go_on(rt, &table, &mut first, &mut going, later, lost);
    end(rt, &table, &mut first, going, lost, Reply::Absent);
    let passes = (first, second);
    close_two(rt, alloc, table, passes, &[], &[1, 2, 3, 4, 5, 6, 7, 8]);
}

// The keys 10, 20 and 30 are the records 8, 7 and 6.
#[test]
fn a_reader_stops_after_each_of_its_turns(rt: HostRuntime) {
    stop_a_reader(&rt, rt.alloc(), 0, (3, &[]), 0);
    stop_a_reader(&rt, rt.alloc(), 1, (2, &[8]), 1);
    stop_a_reader(&rt, rt.alloc(), 2, (2, &[7]), 1);
}

/// A remove of 30 stops after so many turns. Another caller removes the other keys and reclaims. These records stay retired. When
/// the remove goes on, it makes so many turns before its last one. So many turns were lost by then, and so many in all.
fn stop_a_remove(
    rt: &impl Abort,
    alloc: Global,
    (turns, later): (u32, u32),
    (freed, retired): (u32, &[u32]),
    (lost, in_all): (u64, u64),
) {
    let (table, mut first, mut second) = open_two(rt, alloc, 40);
    add_all(
        rt,
        &table,
        &mut second,
        &[(10, 1), (20, 2), (30, 3), (40, 4), (50, 5)],
    );
    let mut going = begin(&table, &mut first, Call::Remove { key: 30 }, RACES);
    go_on(rt, &table, &mut first, &mut going, turns, 0);
    remove_all(
        rt,
        &table,
        &mut second,
        &[(10, 1), (20, 2), (40, 4), (50, 5)],
    );
    reclaim_so_many(rt, &table, &mut second, freed);
    assert_eq!(rt; second.retired(), retired);
    assert!(rt; second.retired().len() <= 9);
    go_on(rt, &table, &mut first, &mut going, later, lost);
    end(rt, &table, &mut first, going, in_all, Reply::Took(3));
    close_two(rt, alloc, table, (first, second), &[], &ALL);
}

// Forty records are dealt by twenties: the keys 10 to 50 are the records 40 to 36. After its mark the remove holds 20 and 30. The
// other caller then detaches 30 with 40, by one exchange. Where it has detached 20, the remove's own exchange behind 20 finds
// another word.
#[test]
fn a_remove_stops_after_each_of_its_turns(rt: HostRuntime) {
    stop_a_remove(&rt, rt.alloc(), (0, 2), (4, &[]), (0, 0));
    stop_a_remove(&rt, rt.alloc(), (1, 3), (3, &[40]), (1, 1));
    stop_a_remove(&rt, rt.alloc(), (2, 3), (3, &[39]), (1, 1));
    stop_a_remove(&rt, rt.alloc(), (3, 1), (3, &[39]), (0, 1));
    stop_a_remove(&rt, rt.alloc(), (4, 0), (3, &[39, 38]), (0, 1));
}

// Forty records are dealt by twenties: the keys 10 to 100 are the records 40 to 31. The first caller has four chains in hand,
// whose frontier words name 20, 40, 60 and 80, and stands on 90. So five of the six records that the second one removed stay
// retired, until the first one's get has ended and its chains are retired.
#[test]
fn a_stopped_caller_keeps_its_frontiers_and_where_it_stands(rt: HostRuntime) {
    let (table, mut first, mut second) = open_two(&rt, rt.alloc(), 40);
    add_all(
        &rt,
        &table,
        &mut second,
        &[(10, 1), (20, 2), (30, 3), (40, 4), (50, 5)],
    );
    add_all(
        &rt,
        &table,
        &mut second,
        &[(60, 6), (70, 7), (80, 8), (90, 9), (100, 10)],
    );
    remove_all(
        &rt,
        &table,
        &mut first,
        &[(10, 1), (30, 3), (50, 5), (70, 7)],
    );
    let mut going = begin(&table, &mut first, Call::Get { key: 100 }, RACES);
    go_on(&rt, &table, &mut first, &mut going, 5, 0);
    remove_all(
        &rt,
        &table,
        &mut second,
        &[(20, 2), (40, 4), (60, 6), (80, 8)],
    );
    remove_all(&rt, &table, &mut second, &[(90, 9), (100, 10)]);
    reclaim_so_many(&rt, &table, &mut second, 1);
    assert_eq!(rt; second.retired(), [39, 37, 35, 33, 32].as_slice());
    go_on(&rt, &table, &mut first, &mut going, 1, 1);
    end(&rt, &table, &mut first, going, 1, Reply::Absent);
    reclaim_so_many(&rt, &table, &mut first, 4);
    reclaim_so_many(&rt, &table, &mut second, 5);
    close_two(&rt, rt.alloc(), table, (first, second), &[], &ALL);
}
