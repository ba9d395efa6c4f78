//! A tree is opened, its callers' calls are made whole or by turns, their purses are emptied, and it is closed.

ghost use Rattle.std.specs.Prelude.{◌≡◌, ◌++◌, ◌∷◌, [], length};
ghost use Rattle.pp_link.specs.Places.{IsWithin};
ghost use Rattle.pp_model.specs.Lists.{AtEach};
ghost use Rattle.pp_model.specs.MapCalls.{MayCall};
ghost use Rattle.pp_base.specs.Passes.{known};
ghost use Rattle.pp_calls.specs.PoolViews.{pass_view};
ghost use Rattle.pp_tree.specs.Trees.{tree_sizes};
ghost use Rattle.pp_tree_scenes.specs.Staff.{IsReady, AreReady, IsGoing};

use pp_base::Pass;
use pp_edges::TreeShape;
use pp_map_scenes::staging::{answers, closes, ends, goes_on, held};
use pp_model::{Answer, Call, MapCalls, Reply};
use pp_reclaim::reclaim;
use pp_tree::{Tree, TreeGoing};
use std::alloc::Global;
use std::process::Abort;

/// So many lost turns a call may have, where a scene says no other number.
pub(crate) const RACES: u64 = 100;

/// The numbers of forty records that are no sentinels.
pub(crate) const ALL: [u32; 35] = [
    6, 7, 8, 9, 10, 11, 12, 13, 14, 15, 16, 17, 18, 19, 20, 21, 22, 23, 24, 25, 26, 27, 28, 29, 30,
    31, 32, 33, 34, 35, 36, 37, 38, 39, 40,
];

/// A tree over so many records, and the passes of its callers.
fn open(rt: &impl Abort, alloc: Global, callers: u32, records: u32) -> (Tree, Vec<Pass<TreeShape>>)
    requires { IsWithin (tree_sizes callers records) }
    ensures ready { AreReady result.0 result.1.items }
{
    let Ok(made) = Tree::start(alloc, callers, records) else {
        panic!(rt; "no memory");
    };
    made
}

/// Takes the last pass from a list.
fn take_last(rt: &impl Abort, passes: &mut Vec<Pass<TreeShape>>) -> Pass<TreeShape>
    ensures { passes.old.items ≡ passes.new.items ++ result ∷ [] }
{
    let Some(pass) = passes.pop() else {
        panic!(rt; "no pass");
    };
    pass
}

/// Takes the last pass from the list of a tree's passes.
fn last_pass(rt: &impl Abort, tree: &Tree, passes: &mut Vec<Pass<TreeShape>>) -> Pass<TreeShape>
    requires ready { AreReady tree.now passes.old.items }
    ensures ready { AreReady tree.now passes.new.items }
    ensures last { IsReady tree.now result }
{
    take_last(rt, passes)
}

/// A tree over so many records, and the pass of its one caller.
pub(crate) fn open_one(rt: &impl Abort, alloc: Global, records: u32) -> (Tree, Pass<TreeShape>)
    requires { IsWithin (tree_sizes 1 records) }
    ensures { IsReady result.0 result.1 }
{
    let (tree, mut passes) = open(rt, alloc, 1, records);
    let pass = last_pass(rt, &tree, &mut passes);
    (tree, pass)
}

/// A tree over so many records, and the passes of its two callers.
pub(crate) fn open_two(
    rt: &impl Abort,
    alloc: Global,
    records: u32,
) -> (Tree, Pass<TreeShape>, Pass<TreeShape>)
    requires { IsWithin (tree_sizes 2 records) }
    ensures first { IsReady result.0 result.1 }
    ensures second { IsReady result.0 result.2 }
{
    let (tree, mut passes) = open(rt, alloc, 2, records);
    let second = last_pass(rt, &tree, &mut passes);
    let first = last_pass(rt, &tree, &mut passes);
    (tree, first, second)
}

/// A tree over so many records, and the passes of its three callers.
pub(crate) fn open_three(
    rt: &impl Abort,
    alloc: Global,
    records: u32,
) -> (Tree, Pass<TreeShape>, Pass<TreeShape>, Pass<TreeShape>)
    requires { IsWithin (tree_sizes 3 records) }
    ensures first { IsReady result.0 result.1 }
    ensures second { IsReady result.0 result.2 }
    ensures third { IsReady result.0 result.3 }
{
    let (tree, mut passes) = open(rt, alloc, 3, records);
    let third = last_pass(rt, &tree, &mut passes);
    let second = last_pass(rt, &tree, &mut passes);
    let first = last_pass(rt, &tree, &mut passes);
    (tree, first, second, third)
}

/// Makes a call, which is answered so.
pub(crate) fn make(
    rt: &impl Abort,
    tree: &Tree,
    pass: &mut Pass<TreeShape>,
    call: Call,
    answer: Answer,
)
    requires ready { IsReady tree.now pass.old }
    requires may { MayCall call 100 (pass_view pass.old) }
    ensures ready { IsReady tree.now pass.new }
{
    assert!(rt; answers(tree, pass, call, RACES, answer));
}

/// Adds a pair whose key is absent.
pub(crate) fn add(rt: &impl Abort, tree: &Tree, pass: &mut Pass<TreeShape>, key: u32, value: u32)
    requires ready { IsReady tree.now pass.old }
    ensures ready { IsReady tree.now pass.new }
{
    let call = Call::Insert {
        key: u64::from(key),
        value: u128::from(value),
    };
    make(rt, tree, pass, call, Answer::Said(Reply::Added));
}

/// Finds no free record for a pair.
pub(crate) fn find_full(rt: &impl Abort, tree: &Tree, pass: &mut Pass<TreeShape>, key: u32)
    requires ready { IsReady tree.now pass.old }
    ensures ready { IsReady tree.now pass.new }
{
    let call = Call::Insert {
        key: u64::from(key),
        value: 0,
    };
    make(rt, tree, pass, call, Answer::Full);
}

/// Takes the pair of a key away, which has this value.
pub(crate) fn remove(rt: &impl Abort, tree: &Tree, pass: &mut Pass<TreeShape>, key: u32, value: u32)
    requires ready { IsReady tree.now pass.old }
    ensures ready { IsReady tree.now pass.new }
{
    let call = Call::Remove {
        key: u64::from(key),
    };
    let took = Reply::Took(u128::from(value));
    make(rt, tree, pass, call, Answer::Said(took));
}

/// Adds these pairs, in this order.
pub(crate) fn add_all(
    rt: &impl Abort,
    tree: &Tree,
    pass: &mut Pass<TreeShape>,
    pairs: &[(u32, u32)],
)
    requires ready { IsReady tree.now pass.old }
    ensures ready { IsReady tree.now pass.new }
{
    for pair in pairs {
        add(rt, tree, pass, pair.0, pair.1);
    }
}

/// Takes these pairs away, in this order.
pub(crate) fn remove_all(
    rt: &impl Abort,
    tree: &Tree,
    pass: &mut Pass<TreeShape>,
    pairs: &[(u32, u32)],
)
    requires ready { IsReady tree.now pass.old }
    ensures ready { IsReady tree.now pass.new }
{
    for pair in pairs {
        remove(rt, tree, pass, pair.0, pair.1);
    }
}

/// Begins a call, of which so many turns may be lost.
pub(crate) fn begin(tree: &Tree, pass: &mut Pass<TreeShape>, call: Call, races: u64) -> TreeGoing
    requires ready { IsReady tree.now pass.old }
    requires may { MayCall call races (pass_view pass.old) }
    ensures going { IsGoing tree.now pass.new result }
{
    tree.begin(pass, call, races)
}

/// Makes so many turns of a going call, none of which ends it. So many of its turns are lost then.
pub(crate) fn go_on(
    rt: &impl Abort,
    tree: &Tree,
    pass: &mut Pass<TreeShape>,
    going: &mut TreeGoing,
    count: u32,
    lost: u64,
)
    requires going { IsGoing tree.now pass.old going.old }
    ensures going { IsGoing tree.now pass.new going.new }
{
    assert!(rt; goes_on(tree, pass, going, count));
    assert_eq!(rt; going.lost(), lost);
}

/// Makes the last turn of a going call, which is answered so. So many of its turns were lost.
pub(crate) fn end(
    rt: &impl Abort,
    tree: &Tree,
    pass: &mut Pass<TreeShape>,
    mut going: TreeGoing,
    lost: u64,
    answer: Reply,
)
    requires going { IsGoing tree.now pass.old going }
    ensures ready { IsReady tree.now pass.new }
{
    assert!(rt; ends(tree, pass, &mut going, Answer::Said(answer)));
    assert_eq!(rt; going.lost(), lost);
    assert!(rt; pass.idle());
}

/// Makes the last turn of a going call, which gives up: so many of its turns were lost, as many as it may lose.
pub(crate) fn give_up(
    rt: &impl Abort,
    tree: &Tree,
    pass: &mut Pass<TreeShape>,
    mut going: TreeGoing,
    turns: u64,
)
    requires going { IsGoing tree.now pass.old going }
    ensures ready { IsReady tree.now pass.new }
{
    assert!(rt; ends(tree, pass, &mut going, Answer::Lost { turns }));
    assert_eq!(rt; going.lost(), turns);
    assert!(rt; pass.idle());
}

/// Makes a reclaim pass, which makes so many records free.
pub(crate) fn reclaim_so_many(rt: &impl Abort, tree: &Tree, pass: &mut Pass<TreeShape>, count: u32)
    requires ready { IsReady tree.now pass.old }
    ensures ready { IsReady tree.now pass.new }
{
    assert_eq!(rt; reclaim(tree.pool(), pass), count);
}

/// A pass has so many chains in hand, and these records are retired and free with it.
pub(crate) fn find(
    rt: &impl Abort,
    pass: &Pass<TreeShape>,
    chains: u32,
    retired: &[u32],
    free: &[u32],
) {
    assert_eq!(rt; pass.chains(), chains);
    assert_eq!(rt; pass.retired(), retired);
    assert_eq!(rt; pass.free(), free);
}

/// Closes the tree over its passes: it held these pairs, and these records are free.
fn close(
    rt: &impl Abort,
    alloc: Global,
    tree: Tree,
    passes: Vec<Pass<TreeShape>>,
    pairs: &[(u64, u128)],
    free: &[u32],
)
    requires all { length passes.items ≡ tree.pool.layout.passes }
    requires ready { AreReady tree passes.items }
    requires order { AtEach passes.items (λ k p. (known p.seat).number ≡ k) }
{
    let Some(closed) = closes(tree, alloc, passes) else {
        panic!(rt; "no memory");
    };
    assert!(rt; held(&closed, pairs, free));
}

/// Closes the tree over its one pass.
pub(crate) fn close_one(
    rt: &impl Abort,
    alloc: Global,
    tree: Tree,
    pass: Pass<TreeShape>,
    pairs: &[(u64, u128)],
    free: &[u32],
)
    requires ready { IsReady tree pass }
{
    assert_eq!(rt; tree.pool().layout.sizes().passes, 1);
    assert_eq!(rt; pass.number(), 0);
    let Ok(passes) = Vec::from_array(alloc, [pass]) else {
        panic!(rt; "no memory");
    };
    close(rt, alloc, tree, passes, pairs, free);
}

/// Closes the tree over its two passes.
pub(crate) fn close_two(
    rt: &impl Abort,
    alloc: Global,
    tree: Tree,
    passes: (Pass<TreeShape>, Pass<TreeShape>),
    pairs: &[(u64, u128)],
    free: &[u32],
)
    requires first { IsReady tree passes.0 }
    requires second { IsReady tree passes.1 }
{
    let (first, second) = passes;
    assert_eq!(rt; tree.pool().layout.sizes().passes, 2);
    assert_eq!(rt; first.number(), 0);
    assert_eq!(rt; second.number(), 1);
    let Ok(passes) = Vec::from_array(alloc, [first, second]) else {
        panic!(rt; "no memory");
    };
    close(rt, alloc, tree, passes, pairs, free);
}

/// Closes the tree over its three passes.
pub(crate) fn close_three(
    rt: &impl Abort,
    alloc: Global,
    tree: Tree,
    passes: (Pass<TreeShape>, Pass<TreeShape>, Pass<TreeShape>),
    pairs: &[(u64, u128)],
    free: &[u32],
)
    requires first { IsReady tree passes.0 }
    requires second { IsReady tree passes.1 }
    requires third { IsReady tree passes.2 }
{
    let (first, second, third) = passes;
    assert_eq!(rt; tree.pool().layout.sizes().passes, 3);
    assert_eq!(rt; first.number(), 0);
    assert_eq!(rt; second.number(), 1);
    assert_eq!(rt; third.number(), 2);
    let Ok(passes) = Vec::from_array(alloc, [first, second, third]) else {
        panic!(rt; "no memory");
    };
    close(rt, alloc, tree, passes, pairs, free);
}
