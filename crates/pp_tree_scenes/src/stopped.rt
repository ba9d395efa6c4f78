//! A remove that stops anywhere, and what it keeps of another caller's records.

use crate::staging::{
    ALL, RACES, add_all, begin, close_two, end, go_on, open_two, reclaim_so_many, remove_all,
};
use pp_model::{Call, Reply};
use std::alloc::Global;
use std::process::Abort;

/// A remove of 30 stops after so many turns. Another caller removes the other keys and reclaims. These records stay retired. When
/// the remove goes on, it makes so many turns before its last one, of which so many are lost.
fn stop_a_remove(
    rt: &impl Abort,
    alloc: Global,
    (turns, later): (u32, u32),
    (freed, retired): (u32, &[u32]),
    lost: u64,
) {
    let (tree, mut first, mut second) = open_two(rt, alloc, 40);
    add_all(
        rt,
        &tree,
        &mut second,
        &[(10, 1), (20, 2), (30, 3), (40, 4), (50, 5)],
    );
    let mut going = begin(&tree, &mut first, Call::Remove { key: 30 }, RACES);
    go_on(rt, &tree, &mut first, &mut going, turns, 0);
    remove_all(
        rt,
        &tree,
        &mut second,
        &[(10, 1), (20, 2), (40, 4), (50, 5)],
    );
    reclaim_so_many(rt, &tree, &mut second, freed);
    assert_eq!(rt; second.retired(), retired);
    assert!(rt; second.retired().len() <= 9);
    go_on(rt, &tree, &mut first, &mut going, later, lost);
    end(rt, &tree, &mut first, going, lost, Reply::Took(3));
    close_two(rt, alloc, tree, (first, second), &[], &ALL);
}

// Forty records are dealt as 6 to 23 and 24 to 40. The keys 10 to 50 have the leaves 40, 38, 36, 34 and 32, under the internal
// records 39, 37, 35, 33 and 31: from the root's left child the way of key 30 leads over 39, 37, 35 and 33. The remove of a key
// takes its leaf away with the leaf's parent.
#[test]
fn a_remove_stops_on_its_way(rt: HostRuntime) {
    stop_a_remove(&rt, rt.alloc(), (0, 6), (8, &[]), 0);
    stop_a_remove(&rt, rt.alloc(), (1, 5), (8, &[]), 0);
    stop_a_remove(&rt, rt.alloc(), (2, 4), (8, &[]), 0);
    stop_a_remove(&rt, rt.alloc(), (3, 3), (8, &[]), 0);
    stop_a_remove(&rt, rt.alloc(), (4, 7), (7, &[37]), 1);
    stop_a_remove(&rt, rt.alloc(), (5, 7), (6, &[37, 35]), 1);
    stop_a_remove(&rt, rt.alloc(), (6, 7), (6, &[35, 33]), 1);
}

// After its seek it holds the ancestor 35, the parent 33 and the leaf 36. Once it has set FLAG, it has taken effect. Once it has
// tagged the edge from 33 to 31, the remove of 40 takes 33 and 36 away with its own records.
#[test]
fn a_remove_stops_before_its_flag_its_tag_and_its_splice(rt: HostRuntime) {
    stop_a_remove(&rt, rt.alloc(), (7, 7), (6, &[35, 33]), 1);
    stop_a_remove(&rt, rt.alloc(), (8, 6), (6, &[35, 33]), 1);
    stop_a_remove(&rt, rt.alloc(), (9, 3), (7, &[35, 33, 36]), 1);
}
