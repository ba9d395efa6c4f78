//! Puts and takes of two callers, as worked by hand.

use crate::staging::{end, find_empty, find_full, hand_over, open, put_all, take_all};

const GREATEST: u128 = 340_282_366_920_938_463_463_374_607_431_768_211_455;

// Eight records: the first is the dummy, and the others are dealt as 2 to 5 and 6 to 8.
#[test]
fn items_come_out_first_in_first_out(rt: HostRuntime) {
    let (queue, mut passes) = open(&rt, rt.alloc(), 2, 8);
    find_empty(&rt, &queue, &mut passes, 0);
    put_all(&rt, &queue, &mut passes, 0, &[5, GREATEST]);
    put_all(&rt, &queue, &mut passes, 1, &[7]);
    take_all(&rt, &queue, &mut passes, 1, &[5, GREATEST]);
    put_all(&rt, &queue, &mut passes, 0, &[0]);
    take_all(&rt, &queue, &mut passes, 0, &[7]);
    let closed = end(&rt, rt.alloc(), queue, passes);
    assert_eq!(rt; closed.items(), [0].as_slice());
    assert_eq!(rt; closed.free(), [1, 2, 4, 5, 6, 7].as_slice());
}

// The first caller has records for four items. Those of the second one don't help it, since they stand on no shelf.
#[test]
fn a_caller_runs_out_of_records(rt: HostRuntime) {
    let (queue, mut passes) = open(&rt, rt.alloc(), 2, 8);
    put_all(&rt, &queue, &mut passes, 0, &[1, 2, 3, 4]);
    find_full(&rt, &queue, &mut passes, 0);
    take_all(&rt, &queue, &mut passes, 0, &[1]);
    put_all(&rt, &queue, &mut passes, 0, &[6]);
    put_all(&rt, &queue, &mut passes, 1, &[7]);
    let closed = end(&rt, rt.alloc(), queue, passes);
    assert_eq!(rt; closed.items(), [2, 3, 4, 6, 7].as_slice());
    assert_eq!(rt; closed.free(), [6, 7].as_slice());
}

// The first caller puts, and the second one takes. What the second one frees is more than its share, and goes over shelves to the
// first one, whose own records are spent.
#[test]
fn records_pass_over_shelves(rt: HostRuntime) {
    let (queue, mut passes) = open(&rt, rt.alloc(), 2, 100);
    hand_over(&rt, &queue, &mut passes, 400);
    put_all(&rt, &queue, &mut passes, 0, &[400, 401]);
    let closed = end(&rt, rt.alloc(), queue, passes);
    assert_eq!(rt; closed.items(), [400, 401].as_slice());
    assert_eq!(rt; closed.free().len(), 97);
}
