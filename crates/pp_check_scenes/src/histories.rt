//! A certificate's text, as worked by hand.

use pp_check::{Verdict, check};
use pp_model::{Call, Change, Placed, Reply};
use pp_places::certificate_of;
use std::test::Fail;

const TEXT: &[u8] = b"certificate 1\nchange 1 1 insert 40 4\nchange 1 2 cut 40 4\n\
    said 0 1 get 40 value 4\nsaid 1 1 insert 40 4 added\nsaid 1 2 cut 40 4 took 4\nend\n";

// A get that was answered by a value that another caller took afterwards.
#[test]
fn a_history_is_written(rt: HostRuntime) -> Result<(), Fail> {
    let alloc = rt.alloc();
    let insert = Call::Insert { key: 40, value: 4 };
    let cut = Call::Cut { key: 40, value: 4 };
    let log = vec![in alloc;
        Change {
            caller: 1,
            number: 1,
            call: insert,
        },
        Change {
            caller: 1,
            number: 2,
            call: cut,
        },
    ]?;
    let first = vec![in alloc;
        Placed {
            call: Call::Get { key: 40 },
            reply: Reply::Value(4),
            place: 1,
        },
    ]?;
    let second = vec![in alloc;
        Placed {
            call: insert,
            reply: Reply::Added,
            place: 1,
        },
        Placed {
            call: cut,
            reply: Reply::Took(4),
            place: 2,
        },
    ]?;
    let lists = vec![in alloc; first, second]?;
    let Ok(text) = certificate_of(alloc, &log, &lists) else {
        panic!(rt; "no memory");
    };
    assert_eq!(rt; text.as_slice(), TEXT);
    let Ok(verdict) = check(alloc, TEXT) else {
        panic!(rt; "no memory");
    };
    assert_eq!(rt; verdict, Verdict::Yes);
    Ok(())
}
