//! A hash table of several buckets, and whole calls with the greatest value.

ghost use Rattle.pp_list_scenes.specs.Staff.{IsReady};

use crate::staging::{RACES, close_one, open_one};
use pp_base::Pass;
use pp_buckets::Buckets;
use pp_model::{Cut, Inserted, MapCalls};
use pp_walk::ListShape;
use std::process::Abort;

const GREATEST: u128 = 340_282_366_920_938_463_463_374_607_431_768_211_455;

#[test]
fn keys_are_spread_over_the_buckets(rt: HostRuntime) {
    let Ok((table, passes)) = Buckets::start(rt.alloc(), 1, 8, 64) else {
        panic!(rt; "no memory");
    };
    for (key, bucket) in [(0, 0), (1, 57), (2, 50), (3, 44)] {
        assert_eq!(rt; table.bucket(key), bucket);
    }
    assert_eq!(rt; passes.len(), 1);
}

/// Adds a pair, finds it, and takes it away.
fn add_and_take(rt: &impl Abort, table: &Buckets, pass: &mut Pass<ListShape>)
    requires ready { IsReady table.now pass.old }
    ensures ready { IsReady table.now pass.new }
{
    assert_eq!(rt; table.insert(pass, 7, GREATEST, RACES), Ok(Inserted::Added));
    assert_eq!(rt;
        table.insert(pass, 7, 1, RACES),
        Ok(Inserted::Held(GREATEST))
    );
    assert_eq!(rt; table.get(pass, 7, RACES), Ok(Some(GREATEST)));
    assert_eq!(rt; table.remove(pass, 7, RACES), Ok(Some(GREATEST)));
}

/// Adds a pair, and takes it away by its value.
fn add_and_cut(rt: &impl Abort, table: &Buckets, pass: &mut Pass<ListShape>)
    requires ready { IsReady table.now pass.old }
    ensures ready { IsReady table.now pass.new }
{
    assert_eq!(rt; table.insert(pass, 7, GREATEST, RACES), Ok(Inserted::Added));
    assert_eq!(rt; table.cut(pass, 7, 1, RACES), Ok(Cut::Other(GREATEST)));
    assert_eq!(rt; table.cut(pass, 7, GREATEST, RACES), Ok(Cut::Took));
    assert_eq!(rt; table.cut(pass, 7, 1, RACES), Ok(Cut::Absent));
}

#[test]
fn calls_are_made_whole_with_the_greatest_value(rt: HostRuntime) {
    let (table, mut pass) = open_one(&rt, rt.alloc(), 8);
    add_and_take(&rt, &table, &mut pass);
    add_and_cut(&rt, &table, &mut pass);
    close_one(&rt, rt.alloc(), table, pass, &[], &[1, 2, 3, 4, 5, 6, 7, 8]);
}
