//! The generator's first states and calls.

ghost use Rattle.std.specs.Prelude.{◌≡◌, ◌^◌, ◌<◌};
ghost use Rattle.pp_trace.specs.MadeTrace.{draw};

use pp_model::Call;
use pp_trace::{Make, Trace};
use std::test::Fail;

/// The next state of the generator, by its definition.
fn draw_next(state: u64) -> u64
    requires { state < 2 ^ 31 }
    ensures value { result ≡ draw state }
    ensures range { result < 2 ^ 31 }
{
    (state * 1103515245 + 12345) % (1 << 31)
}

#[test]
fn the_first_calls_of_seed_one(rt: HostRuntime) -> Result<(), Fail> {
    let first = draw_next(1);
    let second = draw_next(first);
    let third = draw_next(second);
    let fourth = draw_next(third);
    assert_eq!(rt;
        [first, second, third, fourth],
        [1103527590, 377401575, 662824084, 1147902781]
    );

    let Ok(alone) = Trace::made(rt.alloc(), Make { seed: 1, lines: 2 }, 1) else {
        assert!(rt; false, "no memory");
        return Ok(());
    };
    let Ok(together) = Trace::made(rt.alloc(), Make { seed: 1, lines: 2 }, 64) else {
        assert!(rt; false, "no memory");
        return Ok(());
    };
    assert_eq!(rt; (alone.callers(), together.callers()), (1, 64));
    let remove = |key: u64| Call::Remove { key };
    let insert = |key: u64| Call::Insert {
        key,
        value: 1147902781,
    };
    let list = [remove(1662), insert(1131)];
    assert_eq!(rt; alone.into_lists()[0].as_slice(), list.as_slice());
    let lists = together.into_lists();
    let first = [remove(106368)].to_vec(rt.alloc())?;
    let second = [insert(72385)].to_vec(rt.alloc())?;
    assert_eq!(rt; &lists[..2], [first, second].as_slice());
    assert!(rt; lists[2..].iter().all(|list| list.is_empty()));
    Ok(())
}
