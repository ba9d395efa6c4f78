//! An insert that loses the turn in which it publishes.

use crate::staging::{RACES, add, begin, close_two, end, find, give_up, go_on, open_two};
use pp_model::{Call, Reply};

// Twenty records are dealt as 6 to 13 and 14 to 20: key 30 has the leaf 20 under the internal record 19. The first caller's seek for
// 25 ends at that leaf. Then the second one adds 27 there, with the records 18 and 17. The first caller has taken its records 13 and
// 12 when it finds the edge changed, and keeps them.
#[test]
fn an_insert_keeps_its_records_over_a_lost_turn(rt: HostRuntime) {
    let (tree, mut first, mut second) = open_two(&rt, rt.alloc(), 20);
    add(&rt, &tree, &mut second, 30, 3);
    let call = Call::Insert { key: 25, value: 2 };
    let mut going = begin(&tree, &mut first, call, RACES);
    go_on(&rt, &tree, &mut first, &mut going, 4, 0);
    find(&rt, &first, 0, &[], &[6, 7, 8, 9, 10, 11, 12, 13]);
    add(&rt, &tree, &mut second, 27, 1);
    go_on(&rt, &tree, &mut first, &mut going, 1, 1);
    find(&rt, &first, 0, &[], &[6, 7, 8, 9, 10, 11]);
    go_on(&rt, &tree, &mut first, &mut going, 5, 1);
    end(&rt, &tree, &mut first, going, 1, Reply::Added);
    find(&rt, &first, 0, &[], &[6, 7, 8, 9, 10, 11]);
    let pairs = [(25, 2), (27, 1), (30, 3)];
    let free = [6, 7, 8, 9, 10, 11, 14, 15, 16];
    close_two(&rt, rt.alloc(), tree, (first, second), &pairs, &free);
}

// With one turn to lose it gives up, and its records are free again.
#[test]
fn an_insert_gives_up_at_its_first_lost_turn(rt: HostRuntime) {
    let (tree, mut first, mut second) = open_two(&rt, rt.alloc(), 20);
    add(&rt, &tree, &mut second, 30, 3);
    let mut going = begin(&tree, &mut first, Call::Insert { key: 25, value: 2 }, 1);
    go_on(&rt, &tree, &mut first, &mut going, 4, 0);
    add(&rt, &tree, &mut second, 27, 1);
    give_up(&rt, &tree, &mut first, going, 1);
    assert_eq!(&rt; first.free().len(), 8);
    let pairs = [(27, 1), (30, 3)];
    let free = [6, 7, 8, 9, 10, 11, 12, 13, 14, 15, 16];
    close_two(&rt, rt.alloc(), tree, (first, second), &pairs, &free);
}
