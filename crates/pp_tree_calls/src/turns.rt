//! The turns of a call, one function for each kind. None is lost of a pass that is alone on its pool, where nothing was left to help
//! with as the call began: its seek meets no flagged edge, and each of its exchanges finds the word that it expects (`alone`).

ghost use Rattle.std.specs.Prelude.{◌≡◌, ◌<◌, ℕ, List, None, Some};
ghost use Rattle.pp_base.specs.Passes.{known, view, Fits, IsSame, IsAtRest};
ghost use Rattle.pp_model.specs.MapCalls.{IfDone};
ghost use Rattle.pp_seek.specs.Lone.{LoneSought};
ghost use Rattle.pp_trees.specs.Edges.{TreeView};
ghost use Rattle.pp_turns.specs.Passes.{IsResting};
ghost use Rattle.pp_tree_calls.specs.Going.{IsUnder};
ghost use Rattle.pp_tree_calls.specs.Lone.{LoneAt, LoneTurn};
ghost use Rattle.pp_tree_calls.specs.Purses.{PutsAway};
ghost use Rattle.pp_tree_calls.specs.Turned.{TreeTurned};

use crate::ending::end_full;
use crate::going::{Next, TreeGoing};
use crate::parts::{arrive, end, lose, lose_again};
use crate::records::take_records;
use pp_base::{Pass, Pool, Side};
use pp_edges::{Published, TreeShape};
use pp_link::Link;
use pp_model::{Answer, Call, Reply, Turned};
use pp_pool::fresh::Fresh;
use pp_seek::{Seek, SeekTurn, Sought};
use pp_tree_turns::{flag_turn, other, publish_turn, splice_turn, tag_turn};

/// Makes a turn of a call's seek.
pub fn seek_on(
    going: &mut TreeGoing,
    pool: &Pool<TreeShape>,
    pass: &mut Pass<TreeShape>,
    seek: Seek,
) -> Turned
    requires fits { Fits pool.now.table.shared.table_id pool.now.layout pass.old.seat }
    requires at { going.old.next ≡ Next.Seeks seek }
    requires under { (from : TreeView) × ((free : List ℕ)
        × IsUnder pool.now.layout pass.old.share going.old (view pass.old.seat) pass.old.purse from free) }
    ensures same { IsSame pass.old.seat pass.new.seat }
    ensures turned { TreeTurned pool.now.layout pass.old.share going.old going.new (view pass.old.seat) (view pass.new.seat)
        pass.old.purse pass.new.purse result }
    ensures alone { LoneAt pool.now.layout going.old (view pass.old.seat)
        → LoneTurn pool.now.layout going.old going.new (view pass.new.seat) result }
    ensures resting { IfDone result (λ _. IsResting pass.new) }
{
    let mut seek = seek;
    match seek.turn(pool, pass) {
        SeekTurn::On => {
            going.next = Next::Seeks(seek);
            Turned::On
        }
        SeekTurn::Lost => lose(going, pool, pass, seek),
        SeekTurn::At(sought) => arrive(going, pool, pass, sought),
    }
}

/// Sets FLAG at the leaf of a removal.
pub fn flag_on(
    going: &mut TreeGoing,
    pool: &Pool<TreeShape>,
    pass: &mut Pass<TreeShape>,
    sought: Sought,
) -> Turned
    requires fits { Fits pool.now.table.shared.table_id pool.now.layout pass.old.seat }
    requires at { going.old.next ≡ Next.Flags sought }
    requires under { (from : TreeView) × ((free : List ℕ)
        × IsUnder pool.now.layout pass.old.share going.old (view pass.old.seat) pass.old.purse from free) }
    ensures same { IsSame pass.old.seat pass.new.seat }
    ensures turned { TreeTurned pool.now.layout pass.old.share going.old going.new (view pass.old.seat) (view pass.new.seat)
        pass.old.purse pass.new.purse result }
    ensures alone { LoneAt pool.now.layout going.old (view pass.old.seat)
        → LoneTurn pool.now.layout going.old going.new (view pass.new.seat) result }
    ensures resting { IfDone result (λ _. IsResting pass.new) }
{
    match flag_turn(pool, pass, sought) {
        Some(value) => {
            going.struck = true;
            going.taken = value;
            going.next = Next::Tags(sought, other(sought.side));
            Turned::On
        }
        None => lose_again(going, pool, pass),
    }
}

/// Sets TAG beside a leaf that goes.
pub fn tag_on(
    going: &mut TreeGoing,
    pool: &Pool<TreeShape>,
    pass: &mut Pass<TreeShape>,
    sought: Sought,
    side: Side,
) -> Turned
    requires fits { Fits pool.now.table.shared.table_id pool.now.layout pass.old.seat }
    requires at { going.old.next ≡ Next.Tags sought side }
    requires under { (from : TreeView) × ((free : List ℕ)
        × IsUnder pool.now.layout pass.old.share going.old (view pass.old.seat) pass.old.purse from free) }
    ensures same { IsSame pass.old.seat pass.new.seat }
    ensures turned { TreeTurned pool.now.layout pass.old.share going.old going.new (view pass.old.seat) (view pass.new.seat)
        pass.old.purse pass.new.purse result }
    ensures alone { LoneAt pool.now.layout going.old (view pass.old.seat)
        → LoneTurn pool.now.layout going.old going.new (view pass.new.seat) result }
    ensures resting { IfDone result (λ _. IsResting pass.new) }
{
    match tag_turn(pool, pass, sought, side) {
        Some(sibling) => {
            going.next = Next::Splices(sought, side, sibling);
            Turned::On
        }
        None => lose_again(going, pool, pass),
    }
}

/// Splices out the path that the seek found. A removal that has taken effect ends by it.
pub fn splice_on(
    going: &mut TreeGoing,
    pool: &Pool<TreeShape>,
    pass: &mut Pass<TreeShape>,
    sought: Sought,
    side: Side,
    sibling: Link,
) -> Turned
    requires fits { Fits pool.now.table.shared.table_id pool.now.layout pass.old.seat }
    requires at { going.old.next ≡ Next.Splices sought side sibling }
    requires under { (from : TreeView) × ((free : List ℕ)
        × IsUnder pool.now.layout pass.old.share going.old (view pass.old.seat) pass.old.purse from free) }
    ensures same { IsSame pass.old.seat pass.new.seat }
    ensures turned { TreeTurned pool.now.layout pass.old.share going.old going.new (view pass.old.seat) (view pass.new.seat)
        pass.old.purse pass.new.purse result }
    ensures alone { LoneAt pool.now.layout going.old (view pass.old.seat)
        → LoneTurn pool.now.layout going.old going.new (view pass.new.seat) result }
    ensures resting { IfDone result (λ _. IsResting pass.new) }
{
    if !splice_turn(pool, pass, sought, side, sibling) {
        return lose_again(going, pool, pass);
    }
    if going.struck {
        let value = going.taken;
        return end(going, pool, pass, Answer::Said(Reply::Took(value)));
    }
    lose_again(going, pool, pass)
}

/// The key and the value of an insert.
fn pair_of(call: Call) -> (u64, u128)
    ensures pair { (k v : ℕ) → call ≡ Call.Insert k v → (result.0 ≡ k) × (result.1 ≡ v) }
{
    match call {
        Call::Insert { key, value } => (key, value),
        Call::Get { key } => (key, 0),
        Call::Remove { key } => (key, 0),
        Call::Cut { key, value } => (key, value),
    }
}

/// Answers an insert for which no two records were found.
fn full(going: &mut TreeGoing, pool: &Pool<TreeShape>, pass: &mut Pass<TreeShape>) -> Turned
    requires fits { Fits pool.now.table.shared.table_id pool.now.layout pass.old.seat }
    requires rest { IsAtRest (known pass.old.seat) pass.old.purse }
    requires none { pass.old.purse.taken ≡ 0 }
    ensures same { IsSame pass.old.seat pass.new.seat }
    ensures over { going.new ≡ record going.old { next = Next.Over } }
    ensures done { result ≡ Turned.Done Answer.Full }
    ensures puts { PutsAway pool.now.layout pass.old.share (view pass.old.seat) (view pass.new.seat) pass.old.purse pass.new.purse }
    ensures resting { IsResting pass.new }
{
    going.next = Next::Over;
    end_full(pool, pass, going.call);
    Turned::Done(Answer::Full)
}

/// Publishes the two records of an insert, the leaf's first, at the edge where its seek ended. Where the edge had become another
/// one, the call keeps them.
fn put_in(
    going: &mut TreeGoing,
    pool: &Pool<TreeShape>,
    pass: &mut Pass<TreeShape>,
    sought: Sought,
    records: (Fresh, Fresh),
) -> Turned
    requires fits { Fits pool.now.table.shared.table_id pool.now.layout pass.old.seat }
    requires at { going.old.next ≡ Next.Publishes sought }
    requires bare { going.old.records ≡ None }
    requires under { (from : TreeView) × ((free : List ℕ)
        × IsUnder pool.now.layout pass.old.share (record going.old { records = Some records }) (view pass.old.seat) pass.old.purse
        from free) }
    ensures same { IsSame pass.old.seat pass.new.seat }
    ensures turned { TreeTurned pool.now.layout pass.old.share (record going.old { records = Some records }) going.new
        (view pass.old.seat) (view pass.new.seat) pass.old.purse pass.new.purse result }
    ensures alone { LoneSought pool.now.layout sought (view pass.old.seat)
        → LoneTurn pool.now.layout going.old going.new (view pass.new.seat) result }
    ensures resting { IfDone result (λ _. IsResting pass.new) }
{
    let (key, value) = pair_of(going.call);
    let (leaf, inner) = records;
    match publish_turn(pool, pass, sought, key, value, leaf, inner) {
        Published::Done => {
            going.struck = true;
            end(going, pool, pass, Answer::Said(Reply::Added))
        }
        Published::Changed {
            leaf,
            inner,
            found: _,
        } => {
            going.records = Some((leaf, inner));
            lose_again(going, pool, pass)
        }
    }
}

/// Publishes the two records of an insert, which are taken in its first such turn. Where they aren't found, the insert is answered.
pub fn publish_on(
    going: &mut TreeGoing,
    pool: &Pool<TreeShape>,
    pass: &mut Pass<TreeShape>,
    sought: Sought,
) -> Turned
    requires fits { Fits pool.now.table.shared.table_id pool.now.layout pass.old.seat }
    requires at { going.old.next ≡ Next.Publishes sought }
    requires under { (from : TreeView) × ((free : List ℕ)
        × IsUnder pool.now.layout pass.old.share going.old (view pass.old.seat) pass.old.purse from free) }
    ensures same { IsSame pass.old.seat pass.new.seat }
    ensures turned { TreeTurned pool.now.layout pass.old.share going.old going.new (view pass.old.seat) (view pass.new.seat)
        pass.old.purse pass.new.purse result }
    ensures alone { LoneAt pool.now.layout going.old (view pass.old.seat)
        → LoneTurn pool.now.layout going.old going.new (view pass.new.seat) result }
    ensures resting { IfDone result (λ _. IsResting pass.new) }
{
    let had = going.records.take();
    match take_records(pool, pass, had) {
        Some(records) => put_in(going, pool, pass, sought, records),
        None => full(going, pool, pass),
    }
}
