//! Callers that change a list beside each other.

use crate::staging::{
    RACES, add, add_all, begin, close_three, close_two, end, find, give_up, go_on, open_three,
    open_two, reclaim_so_many,
};
use pp_model::{Call, Reply};

// Eight records are dealt as 1 to 4 and 5 to 8. The insert of 15 has found its place between 10 and 20 when another caller adds
// 17 there. It may lose no turn, and gives its record back.
#[test]
fn an_insert_that_may_lose_no_turn_gives_up(rt: HostRuntime) {
    let (table, mut first, mut second) = open_two(&rt, rt.alloc(), 8);
    add_all(&rt, &table, &mut second, &[(10, 1), (20, 2)]);
    let call = Call::Insert { key: 15, value: 1 };
    let mut going = begin(&table, &mut first, call, 1);
    go_on(&rt, &table, &mut first, &mut going, 2, 0);
    add(&rt, &table, &mut second, 17, 3);
    give_up(&rt, &table, &mut first, going, 1);
    find(&rt, &first, 0, &[], &[1, 2, 3, 4]);
    let pairs = [(10, 1), (17, 3), (20, 2)];
    let passes = (first, second);
    close_two(&rt, rt.alloc(), table, passes, &pairs, &[1, 2, 3, 4, 5]);
}

// The same insert with a budget of two keeps its record over the lost turn, and publishes it in front of 17.
#[test]
fn an_insert_keeps_its_record_over_a_lost_turn(rt: HostRuntime) {
    let (table, mut first, mut second) = open_two(&rt, rt.alloc(), 8);
    add_all(&rt, &table, &mut second, &[(10, 1), (20, 2)]);
    let call = Call::Insert { key: 15, value: 1 };
    let mut going = begin(&table, &mut first, call, 2);
    go_on(&rt, &table, &mut first, &mut going, 2, 0);
    add(&rt, &table, &mut second, 17, 3);
    go_on(&rt, &table, &mut first, &mut going, 1, 1);
    find(&rt, &first, 0, &[], &[1, 2, 3]);
    go_on(&rt, &table, &mut first, &mut going, 2, 1);
    end(&rt, &table, &mut first, going, 1, Reply::Added);
    find(&rt, &first, 0, &[], &[1, 2, 3]);
    let pairs = [(10, 1), (15, 1), (17, 3), (20, 2)];
    let passes = (first, second);
    close_two(&rt, rt.alloc(), table, passes, &pairs, &[1, 2, 3, 5]);
}

// Fifteen records are dealt by fives: the keys 10, 20, 30 and 40 are the records 15, 14, 13 and 12. Two callers have marked 20
// and 30 and make no turn. The third one's insert of 35 detaches both records by one exchange, before it publishes. Their own exchanges
// find another word then.
#[test]
fn one_exchange_detaches_what_two_callers_marked(rt: HostRuntime) {
    let (table, mut first, mut second, mut third) = open_three(&rt, rt.alloc(), 15);
    add_all(
        &rt,
        &table,
        &mut third,
        &[(10, 1), (20, 1), (30, 1), (40, 1)],
    );
    let mut twenty = begin(&table, &mut first, Call::Remove { key: 20 }, RACES);
    go_on(&rt, &table, &mut first, &mut twenty, 3, 0);
    let mut thirty = begin(&table, &mut second, Call::Remove { key: 30 }, RACES);
    go_on(&rt, &table, &mut second, &mut thirty, 4, 0);
    let call = Call::Insert { key: 35, value: 1 };
    let mut insert = begin(&table, &mut third, call, RACES);
    go_on(&rt, &table, &mut third, &mut insert, 4, 0);
    find(&rt, &third, 0, &[], &[11]);
    go_on(&rt, &table, &mut third, &mut insert, 1, 0);
    find(&rt, &third, 1, &[], &[11]);
    end(&rt, &table, &mut third, insert, 0, Reply::Added);
    end(&rt, &table, &mut first, twenty, 1, Reply::Took(1));
    end(&rt, &table, &mut second, thirty, 1, Reply::Took(1));
    reclaim_so_many(&rt, &table, &mut third, 2);
    find(&rt, &third, 0, &[], &[14, 13]);
    let pairs = [(10, 1), (35, 1), (40, 1)];
    let free = [1, 2, 3, 4, 5, 6, 7, 8, 9, 10, 13, 14];
    let passes = (first, second, third);
    close_three(&rt, rt.alloc(), table, passes, &pairs, &free);
}
