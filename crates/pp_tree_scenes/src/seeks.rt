//! Seeks: what they come to, where they begin again, and what they end at.

ghost use Rattle.pp_tree_scenes.specs.Staff.{IsReady, IsSeeking};

use crate::staging::{
    RACES, add, add_all, begin, end, go_on, open_three, open_two, reclaim_so_many, remove,
};
use pp_base::Pass;
use pp_edges::TreeShape;
use pp_model::{Call, Reply};
use pp_seek::{Seek, SeekTurn, Sought};
use pp_tree::Tree;
use std::process::Abort;

/// Begins a seek of a get with this key.
fn set_out(tree: &Tree, pass: &Pass<TreeShape>, key: u32) -> Seek
    requires ready { IsReady tree.now pass.now }
    ensures seeking { IsSeeking tree.now pass.now result }
{
    Seek::begin(Call::Get {
        key: u64::from(key),
    })
}

/// Makes so many turns of a seek, each of which comes to a further internal record.
fn seek_on(rt: &impl Abort, tree: &Tree, pass: &mut Pass<TreeShape>, seek: &mut Seek, count: u32)
    requires seeking { IsSeeking tree.now pass.old seek.old }
    ensures seeking { IsSeeking tree.now pass.new seek.new }
{
    for _ in 0..count {
        assert_eq!(rt; seek.turn(tree.pool(), pass), SeekTurn::On);
    }
}

/// Makes the last turn of a seek.
fn arrive(rt: &impl Abort, tree: &Tree, pass: &mut Pass<TreeShape>, seek: Seek) -> Sought
    requires seeking { IsSeeking tree.now pass.old seek }
{
    let mut seek = seek;
    let SeekTurn::At(sought) = seek.turn(tree.pool(), pass) else {
        panic!(rt; "it goes on");
    };
    seek.done(tree.pool(), pass);
    sought
}

/// A pass seeks the first of these, a key, and comes to so many internal records. The words of the last edge without TAG on its way and
/// of the edge to the leaf are these.
fn seek_key(
    rt: &impl Abort,
    tree: &Tree,
    pass: &mut Pass<TreeShape>,
    way: (u32, u32),
    words: (u64, u64),
)
    requires ready { IsReady tree.now pass.old }
{
    let (key, count) = way;
    let mut seek = set_out(tree, pass, key);
    seek_on(rt, tree, pass, &mut seek, count);
    let sought = arrive(rt, tree, pass, seek);
    assert_eq!(rt; (sought.successor.word(), sought.edge.word()), words);
}

// Twenty-three records are dealt by sixes: key 30 has the leaf 11 under the internal record 10. Its removal has set FLAG in the edge
// to 11 and TAG in the other one. The edge from the root's left child, record 2, to 10 has no bit. Once 10 is gone, the last edge
// without TAG is that from the root to record 2, which never has a bit.
#[test]
fn the_edge_from_the_root_has_no_bit(rt: HostRuntime) {
    let (tree, mut first, mut second, mut third) = open_three(&rt, rt.alloc(), 23);
    add(&rt, &tree, &mut first, 30, 3);
    let mut going = begin(&tree, &mut first, Call::Remove { key: 30 }, RACES);
    go_on(&rt, &tree, &mut first, &mut going, 6, 0);
    seek_key(&rt, &tree, &mut second, (30, 3), (160, 185));
    end(&rt, &tree, &mut first, going, 0, Reply::Took(3));
    seek_key(&rt, &tree, &mut third, (30, 2), (32, 56));
}

// Forty records are dealt as 6 to 23 and 24 to 40. Key 30 has the leaf 40, 20 the leaf 38 and 10 the leaf 36. The internal record 37
// with key 30 is over 35 with key 20. The reader of 25 stands on 37, which is detached with 40; the insert of 35 puts the record 33
// with key 35 under 35, for the place of 37 is free for it. So the reader comes to 35 and then to a key that isn't below 30.
#[test]
fn a_seek_comes_to_a_key_outside_its_bounds(rt: HostRuntime) {
    let (tree, mut first, mut second) = open_two(&rt, rt.alloc(), 40);
    add_all(&rt, &tree, &mut second, &[(30, 3), (20, 2), (10, 1)]);
    let mut going = begin(&tree, &mut first, Call::Get { key: 25 }, RACES);
    go_on(&rt, &tree, &mut first, &mut going, 4, 0);
    remove(&rt, &tree, &mut second, 30, 3);
    add(&rt, &tree, &mut second, 35, 5);
    go_on(&rt, &tree, &mut first, &mut going, 1, 0);
    go_on(&rt, &tree, &mut first, &mut going, 1, 1);
    go_on(&rt, &tree, &mut first, &mut going, 5, 1);
    end(&rt, &tree, &mut first, going, 1, Reply::Absent);
    assert_eq!(&rt; second.chains(), 1);
}

// The reader of 10 stands on 37, which is detached with 40 and invalidated: its edge to an internal record has INVALID.
#[test]
fn a_seek_finds_an_edge_to_a_record_invalid(rt: HostRuntime) {
    let (tree, mut first, mut second) = open_two(&rt, rt.alloc(), 40);
    add_all(&rt, &tree, &mut second, &[(30, 3), (20, 2), (10, 1)]);
    let mut going = begin(&tree, &mut first, Call::Get { key: 10 }, RACES);
    go_on(&rt, &tree, &mut first, &mut going, 4, 0);
    remove(&rt, &tree, &mut second, 30, 3);
    reclaim_so_many(&rt, &tree, &mut second, 1);
    assert_eq!(&rt; second.retired(), [37].as_slice());
    go_on(&rt, &tree, &mut first, &mut going, 1, 1);
    go_on(&rt, &tree, &mut first, &mut going, 4, 1);
    end(&rt, &tree, &mut first, going, 1, Reply::Value(1));
}

// It stands on 35, which is detached with 38 and invalidated: its edge to the leaf of 10 has INVALID.
#[test]
fn a_seek_finds_an_edge_to_a_leaf_invalid(rt: HostRuntime) {
    let (tree, mut first, mut second) = open_two(&rt, rt.alloc(), 40);
    add_all(&rt, &tree, &mut second, &[(30, 3), (20, 2), (10, 1)]);
    let mut going = begin(&tree, &mut first, Call::Get { key: 10 }, RACES);
    go_on(&rt, &tree, &mut first, &mut going, 5, 0);
    remove(&rt, &tree, &mut second, 20, 2);
    reclaim_so_many(&rt, &tree, &mut second, 1);
    assert_eq!(&rt; second.retired(), [35].as_slice());
    go_on(&rt, &tree, &mut first, &mut going, 1, 1);
    go_on(&rt, &tree, &mut first, &mut going, 4, 1);
    end(&rt, &tree, &mut first, going, 1, Reply::Value(1));
}
