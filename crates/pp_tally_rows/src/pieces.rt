//! Pieces and claims, worked by hand.

use pp_model::Call;
use pp_pieces::claims::all_claims_of;
use pp_pieces::pieces::count_pieces;
use std::test::Fail;

#[test]
fn sizes_around_one_piece_and_two(rt: HostRuntime) -> Result<(), Fail> {
    for (bytes, pieces) in [
        (0, 0),
        (1, 1),
        (4095, 1),
        (4096, 1),
        (4097, 2),
        (8192, 2),
        (8193, 3),
        (16_777_216, 4096),
    ] {
        assert_eq!(rt; count_pieces(bytes), pieces);
    }
    Ok(())
}

#[test]
fn callers_begin_apart_and_go_round(rt: HostRuntime) -> Result<(), Fail> {
    let lists = all_claims_of(rt.alloc(), 2, 3)?;
    let insert = |key: u64, value: u128| Call::Insert { key, value };
    assert_eq!(rt;
        lists.as_slice(),
        [
            [insert(0, 0), insert(1, 0), insert(2, 0)].to_vec(rt.alloc())?,
            [insert(1, 1), insert(2, 1), insert(0, 1)].to_vec(rt.alloc())?,
        ]
        .as_slice()
    );
    Ok(())
}
