//! Scenes over the plain map, for the parts of scenes.

use crate::staging::{answers, closes, ends, goes_on, held};
use pp_model::{Answer, Call, MapCalls, PlainMap, Reply};

#[test]
fn a_plain_map_is_used_by_turns(rt: HostRuntime) {
    let Ok((map, mut pass)) = PlainMap::start(rt.alloc(), 8, 3) else {
        panic!(rt; "no memory");
    };
    let insert = Call::Insert { key: 7, value: 70 };
    let added = Answer::Said(Reply::Added);
    assert!(rt; answers(&map, &mut pass, insert, 100, added));
    let mut going = map.begin(&mut pass, Call::Get { key: 7 }, 1);
    assert!(rt; goes_on(&map, &mut pass, &mut going, 0));
    let value = Answer::Said(Reply::Value(70));
    assert!(rt; ends(&map, &mut pass, &mut going, value));
    map.finish(going);
    let Ok(passes) = Vec::from_array(rt.alloc(), [pass]) else {
        panic!(rt; "no memory");
    };
    let Some(closed) = closes(map, rt.alloc(), passes) else {
        panic!(rt; "no memory");
    };
    assert!(rt; held(&closed, &[(7, 70)], &[2, 3, 4, 5, 6, 7, 8]));
    assert!(rt; !held(&closed, &[(7, 71)], &[2, 3, 4, 5, 6, 7, 8]));
    assert!(rt; !held(&closed, &[(7, 70)], &[2, 3, 4, 5, 6, 7]));
}
