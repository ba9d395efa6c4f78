//! What a caller has in hand: chains, retired and free records, and shelves over which records pass to others.

use crate::staging::{
    ALL, add, add_keys, close_one, close_two, find, find_full, open_one, open_two, put_so_many,
    reclaim_so_many, remove, remove_keys,
};

const TWENTY: [u32; 20] = [
    1, 2, 3, 4, 5, 6, 7, 8, 9, 10, 11, 12, 13, 14, 15, 16, 17, 18, 19, 20,
];

// Eight records: the keys 1 to 5 are the records 8 to 4. Each remove detaches a chain of one record, and the fifth one flushes the
// first four.
#[test]
fn a_fifth_chain_flushes_the_four_in_hand(rt: HostRuntime) {
    let (table, mut pass) = open_one(&rt, rt.alloc(), 8);
    add_keys(&rt, &table, &mut pass, &[1, 2, 3, 4]);
    remove(&rt, &table, &mut pass, 1, 1);
    find(&rt, &pass, 1, &[], &[1, 2, 3, 4]);
    remove(&rt, &table, &mut pass, 2, 2);
    find(&rt, &pass, 2, &[], &[1, 2, 3, 4]);
    remove(&rt, &table, &mut pass, 3, 3);
    find(&rt, &pass, 3, &[], &[1, 2, 3, 4]);
    remove(&rt, &table, &mut pass, 4, 4);
    find(&rt, &pass, 4, &[], &[1, 2, 3, 4]);
    add(&rt, &table, &mut pass, 5, 5);
    remove(&rt, &table, &mut pass, 5, 5);
    find(&rt, &pass, 1, &[8, 7, 6, 5], &[1, 2, 3]);
    close_one(&rt, rt.alloc(), table, pass, &[], &[1, 2, 3, 4, 5, 6, 7, 8]);
}

// Eight records are in the list. The record of key 1 is in hand after its remove, and the reclaim pass of the next insert makes it
// free.
#[test]
fn a_full_list_takes_a_pair_after_a_remove(rt: HostRuntime) {
    let (table, mut pass) = open_one(&rt, rt.alloc(), 8);
    add_keys(&rt, &table, &mut pass, &[1, 2, 3, 4, 5, 6, 7, 8]);
    find_full(&rt, &table, &mut pass, 9);
    find(&rt, &pass, 0, &[], &[]);
    remove(&rt, &table, &mut pass, 1, 1);
    find(&rt, &pass, 1, &[], &[]);
    add(&rt, &table, &mut pass, 9, 9);
    find(&rt, &pass, 0, &[], &[]);
    let rest = [
        (2, 2),
        (3, 3),
        (4, 4),
        (5, 5),
        (6, 6),
        (7, 7),
        (8, 8),
        (9, 9),
    ];
    close_one(&rt, rt.alloc(), table, pass, &rest, &[]);
}

// Eight records are dealt as 1 to 4 and 5 to 8. The first caller's are spent, the second one has freed them, and puts those beyond
// its share on shelves. There the first one finds a record.
#[test]
fn records_pass_over_shelves(rt: HostRuntime) {
    let (table, mut first, mut second) = open_two(&rt, rt.alloc(), 8);
    add_keys(&rt, &table, &mut first, &[1, 2, 3, 4]);
    remove_keys(&rt, &table, &mut second, &[1, 2, 3, 4]);
    find(&rt, &second, 4, &[], &[5, 6, 7, 8]);
    reclaim_so_many(&rt, &table, &mut second, 4);
    find(&rt, &second, 0, &[], &[5, 6, 7, 8, 4, 3, 2, 1]);
    put_so_many(&rt, &table, &mut second, 4);
    find(&rt, &second, 0, &[], &[5, 6, 7, 8]);
    add(&rt, &table, &mut first, 5, 5);
    find(&rt, &first, 0, &[], &[]);
    close_two(
        &rt,
        rt.alloc(),
        table,
        (first, second),
        &[(5, 5)],
        &[2, 3, 4, 5, 6, 7, 8],
    );
}

// Forty records are dealt by twenties, and two callers have sixteen shelf words. The second one has freed all records of the first
// one, and keeps four more than its share once each shelf has one.
#[test]
fn a_caller_finds_each_shelf_taken(rt: HostRuntime) {
    let (table, mut first, mut second) = open_two(&rt, rt.alloc(), 40);
    add_keys(&rt, &table, &mut first, &TWENTY);
    remove_keys(&rt, &table, &mut second, &TWENTY);
    reclaim_so_many(&rt, &table, &mut second, 20);
    put_so_many(&rt, &table, &mut second, 16);
    assert_eq!(rt; second.free().len(), 24);
    let passes = (first, second);
    close_two(&rt, rt.alloc(), table, passes, &[], &ALL);
}
