//! Calls of the plain map, whole and by turns, to its closing.

use pp_model::calling::answer_all;
use pp_model::laws::linearization_is_legal;
use pp_model::{Answer, Call, Cut, InsertFault, Inserted, MapCalls, Pair, PlainMap, Reply, Turned};
use std::test::Fail;

#[test]
fn answers_calls_in_turn(rt: HostRuntime) -> Result<(), Fail> {
    let alloc = rt.alloc();
    let Ok((map, mut pass)) = PlainMap::start(alloc, 8, 5) else {
        panic!(rt; "no memory");
    };
    let calls = [
        Call::Insert { key: 7, value: 70 },
        Call::Get { key: 7 },
        Call::Insert { key: 7, value: 71 },
        Call::Remove { key: 7 },
        Call::Get { key: 7 },
    ];
    let mut answers = Vec::with_capacity(alloc, 5)?;
    answer_all(&map, &mut pass, &calls, 1, &mut answers);
    let wanted = [
        Answer::Said(Reply::Added),
        Answer::Said(Reply::Value(70)),
        Answer::Said(Reply::Held(70)),
        Answer::Said(Reply::Took(70)),
        Answer::Said(Reply::Absent),
    ];
    assert_eq!(rt; answers.as_slice(), wanted.as_slice());
    linearization_is_legal();
    Ok(())
}

#[test]
fn cuts_where_the_value_is_the_one_asked_for(rt: HostRuntime) -> Result<(), Fail> {
    let alloc = rt.alloc();
    let Ok((map, mut pass)) = PlainMap::start(alloc, 2, 5) else {
        panic!(rt; "no memory");
    };
    let most = u128::MAX;
    assert_eq!(rt; map.insert(&mut pass, 7, most, 1), Ok(Inserted::Added));
    assert_eq!(rt; map.cut(&mut pass, 7, 1, 1), Ok(Cut::Other(most)));
    let before = map.note(&mut pass);
    let mut going = map.begin(
        &mut pass,
        Call::Cut {
            key: 7,
            value: most,
        },
        1,
    );
    map.learn(&mut pass, before);
    assert!(rt; !map.struck(&going));
    assert_eq!(rt;
        map.turn(&mut pass, &mut going),
        Turned::Done(Answer::Said(Reply::Took(most)))
    );
    assert!(rt; map.struck(&going));
    assert_eq!(rt; going.lost(), 0);
    map.finish(going);
    assert_eq!(rt; map.cut(&mut pass, 7, most, 1), Ok(Cut::Absent));
    Ok(())
}

#[test]
fn fills_and_closes(rt: HostRuntime) -> Result<(), Fail> {
    let alloc = rt.alloc();
    let Ok((map, mut pass)) = PlainMap::start(alloc, 2, 5) else {
        panic!(rt; "no memory");
    };
    assert_eq!(rt; map.insert(&mut pass, 4, 40, 1), Ok(Inserted::Added));
    assert_eq!(rt; map.insert(&mut pass, 3, 30, 1), Ok(Inserted::Added));
    assert_eq!(rt; map.insert(&mut pass, 5, 50, 1), Err(InsertFault::Full));
    assert_eq!(rt; map.remove(&mut pass, 4, 1), Ok(Some(40)));
    assert_eq!(rt; map.get(&mut pass, 3, 1), Ok(Some(30)));
    let passes = vec![in alloc; pass]?;
    let Ok(closed) = map.close(alloc, passes) else {
        panic!(rt; "no memory");
    };
    assert_eq!(rt; closed.contents(), [Pair { key: 3, value: 30 }].as_slice());
    assert_eq!(rt; closed.free(), [2].as_slice());
    Ok(())
}
