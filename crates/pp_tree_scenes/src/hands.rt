//! Four chains in hand, and a fifth.

use crate::staging::{
    ALL, add_all, close_two, find, open_two, reclaim_so_many, remove, remove_all,
};

const SHARE: [u32; 18] = [
    6, 7, 8, 9, 10, 11, 12, 13, 14, 15, 16, 17, 18, 19, 20, 21, 22, 23,
];

// Forty records are dealt as 6 to 23 and 24 to 40. The keys 10 to 50 have the leaves 40, 38, 36, 34 and 32, under the internal
// records 39, 37, 35, 33 and 31: 39 is over all of them, 37 over 10 and the others, and so on. Each removal takes the leaf's parent
// away with it, and the last one 39.
#[test]
fn a_fifth_chain_flushes_the_four_in_hand(rt: HostRuntime) {
    let (tree, mut first, mut second) = open_two(&rt, rt.alloc(), 40);
    add_all(
        &rt,
        &tree,
        &mut second,
        &[(10, 1), (20, 2), (30, 3), (40, 4), (50, 5)],
    );
    remove_all(
        &rt,
        &tree,
        &mut first,
        &[(10, 1), (20, 2), (30, 3), (40, 4)],
    );
    find(&rt, &first, 4, &[], &SHARE);
    remove(&rt, &tree, &mut first, 50, 5);
    let retired = [37, 40, 35, 38, 33, 36, 31, 34];
    find(&rt, &first, 1, &retired, &SHARE);
    reclaim_so_many(&rt, &tree, &mut first, 10);
    close_two(&rt, rt.alloc(), tree, (first, second), &[], &ALL);
}
