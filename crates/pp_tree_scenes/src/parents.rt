//! Removals that meet at one parent, and what is closed after a removal that left its leaf attached.

use crate::staging::{
    RACES, add_all, begin, close_two, end, find, go_on, make, open_two, reclaim_so_many, remove,
};
use pp_model::{Answer, Call, Reply};

// Twenty records are dealt as 6 to 13 and 14 to 20. Key 30 has the leaf 20 and key 40 the leaf 18, both under the internal record 17,
// which stands under 19. The removal of 30 takes effect as it sets FLAG, and takes 17 and 20 away as it splices.
#[test]
fn a_removal_goes_step_by_step(rt: HostRuntime) {
    let (tree, mut first, mut second) = open_two(&rt, rt.alloc(), 20);
    add_all(&rt, &tree, &mut second, &[(30, 3), (40, 4)]);
    let three = Answer::Said(Reply::Value(3));
    let absent = Answer::Said(Reply::Absent);
    let four = Answer::Said(Reply::Value(4));
    let mut going = begin(&tree, &mut first, Call::Remove { key: 30 }, RACES);
    go_on(&rt, &tree, &mut first, &mut going, 5, 0);
    make(&rt, &tree, &mut second, Call::Get { key: 30 }, three);
    go_on(&rt, &tree, &mut first, &mut going, 1, 0);
    make(&rt, &tree, &mut second, Call::Get { key: 30 }, absent);
    go_on(&rt, &tree, &mut first, &mut going, 1, 0);
    make(&rt, &tree, &mut second, Call::Get { key: 40 }, four);
    end(&rt, &tree, &mut first, going, 0, Reply::Took(3));
    find(&rt, &first, 1, &[], &[6, 7, 8, 9, 10, 11, 12, 13]);
    let free = [6, 7, 8, 9, 10, 11, 12, 13, 14, 15, 16, 17, 20];
    close_two(&rt, rt.alloc(), tree, (first, second), &[(40, 4)], &free);
}

// Both edges of 17 have FLAG. The first caller's splice leaves the leaf of 40 with its FLAG under 19. The second one sets its tag in
// 17, which is detached by then, so its splice is lost. It comes to its leaf again, and takes 19 away with it.
#[test]
fn flags_stand_on_both_leaves_of_one_parent(rt: HostRuntime) {
    let (tree, mut first, mut second) = open_two(&rt, rt.alloc(), 20);
    add_all(&rt, &tree, &mut second, &[(30, 3), (40, 4)]);
    let mut thirty = begin(&tree, &mut first, Call::Remove { key: 30 }, RACES);
    go_on(&rt, &tree, &mut first, &mut thirty, 6, 0);
    let mut forty = begin(&tree, &mut second, Call::Remove { key: 40 }, RACES);
    go_on(&rt, &tree, &mut second, &mut forty, 6, 0);
    go_on(&rt, &tree, &mut first, &mut thirty, 1, 0);
    end(&rt, &tree, &mut first, thirty, 0, Reply::Took(3));
    go_on(&rt, &tree, &mut second, &mut forty, 1, 0);
    go_on(&rt, &tree, &mut second, &mut forty, 1, 1);
    go_on(&rt, &tree, &mut second, &mut forty, 5, 1);
    end(&rt, &tree, &mut second, forty, 1, Reply::Took(4));
    find(&rt, &second, 1, &[], &[14, 15, 16]);
    let free = [6, 7, 8, 9, 10, 11, 12, 13, 14, 15, 16, 17, 18, 19, 20];
    close_two(&rt, rt.alloc(), tree, (first, second), &[], &free);
}

// As before, but 17 is invalidated before the second caller comes to set its tag: the turn is lost by INVALID. That caller holds 17,
// 18 and 19, so of what the first one retired 20 alone is free.
#[test]
fn a_tag_finds_its_parent_invalid(rt: HostRuntime) {
    let (tree, mut first, mut second) = open_two(&rt, rt.alloc(), 20);
    add_all(&rt, &tree, &mut second, &[(30, 3), (40, 4)]);
    let mut forty = begin(&tree, &mut second, Call::Remove { key: 40 }, RACES);
    go_on(&rt, &tree, &mut second, &mut forty, 6, 0);
    remove(&rt, &tree, &mut first, 30, 3);
    reclaim_so_many(&rt, &tree, &mut first, 1);
    find(&rt, &first, 0, &[17], &[6, 7, 8, 9, 10, 11, 12, 13, 20]);
    go_on(&rt, &tree, &mut second, &mut forty, 1, 1);
    go_on(&rt, &tree, &mut second, &mut forty, 5, 1);
    end(&rt, &tree, &mut second, forty, 1, Reply::Took(4));
    let free = [6, 7, 8, 9, 10, 11, 12, 13, 14, 15, 16, 17, 18, 19, 20];
    close_two(&rt, rt.alloc(), tree, (first, second), &[], &free);
}

// Key 40 has the leaf 20, 30 the leaf 18 and 20 the leaf 16, under the internal records 19, 17 and 15. The removal of 30 may lose one
// turn. It has set FLAG and TAG at 15 when the second caller takes 17 away, its ancestor, with the leaf of 40. So its splice is lost,
// and it says what it took. The closed tree still has 15, with the flagged edge to 18 and the tagged one to 16; of its two internal
// records 19 is live, at which the walks to key 20 and to the least sentinel part.
#[test]
fn a_tree_is_closed_with_a_flag_and_a_tag(rt: HostRuntime) {
    let (tree, mut first, mut second) = open_two(&rt, rt.alloc(), 20);
    add_all(&rt, &tree, &mut second, &[(40, 4), (30, 3), (20, 2)]);
    let mut going = begin(&tree, &mut first, Call::Remove { key: 30 }, 1);
    go_on(&rt, &tree, &mut first, &mut going, 8, 0);
    remove(&rt, &tree, &mut second, 40, 4);
    end(&rt, &tree, &mut first, going, 1, Reply::Took(3));
    find(&rt, &first, 0, &[], &[6, 7, 8, 9, 10, 11, 12, 13]);
    find(&rt, &second, 1, &[], &[14]);
    let free = [6, 7, 8, 9, 10, 11, 12, 13, 14, 15, 17, 18, 20];
    close_two(&rt, rt.alloc(), tree, (first, second), &[(20, 2)], &free);
}
