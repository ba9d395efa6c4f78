//! The last parts of a call's turns. A pass that is alone on its pool loses no turn here, and has nothing to help with (`alone`).

ghost use Rattle.std.specs.Prelude.{◌≡◌, ◌<◌, ◌≤◌, ◌^◌, true, false, ℕ, None};
ghost use Rattle.pp_base.specs.Passes.{known, view, Fits, IsSame, IsAtRest};
ghost use Rattle.pp_model.specs.Calls.{key_of, Takes};
ghost use Rattle.pp_model.specs.MapCalls.{IfDone};
ghost use Rattle.pp_rule.specs.Views.{slot, value_of};
ghost use Rattle.pp_link.specs.Links.{word_of, flag_bit};
ghost use Rattle.pp_seek.specs.Lone.{LoneSought};
ghost use Rattle.pp_seek.specs.Seeking.{Seeks as IsSeek};
ghost use Rattle.pp_trees.specs.Clean.{IsBare};
ghost use Rattle.pp_trees.specs.Lone.{words_of};
ghost use Rattle.pp_trees.specs.Trees.{inf0};
ghost use Rattle.pp_turns.specs.Passes.{IsResting};
ghost use Rattle.pp_tree_calls.specs.Answers.{Ends};
ghost use Rattle.pp_turns.specs.Answers.{is_look};
ghost use Rattle.pp_tree_calls.specs.Going.{upper_at, Goes};
ghost use Rattle.pp_tree_calls.specs.Lone.{LoneTurn};
ghost use Rattle.pp_tree_calls.specs.Purses.{HasOut};
ghost use Rattle.pp_tree_calls.specs.Turned.{Part, HasLost, HasMissed, HasArrived, HasEnded};

use crate::ending::finish;
use crate::going::{Next, TreeGoing};
use crate::stored::stored;
use pp_base::{Pass, Pool};
use pp_edges::TreeShape;
use pp_model::{Answer, Call, Reply, Turned};
use pp_seek::{Seek, Sought};
use pp_tree_turns::other;

/// Whether the call only looks.
fn looks(call: Call) -> bool
    ensures { result ≡ is_look call }
{
    match call {
        Call::Get { key: _ } => true,
        Call::Insert { key: _, value: _ } => false,
        Call::Remove { key: _ } => false,
        Call::Cut { key: _, value: _ } => false,
    }
}

/// Ends a call with this answer. A pass that is alone on its pool leaves no removed record that can be reached, if there was none.
pub fn end(
    going: &mut TreeGoing,
    pool: &Pool<TreeShape>,
    pass: &mut Pass<TreeShape>,
    answer: Answer,
) -> Turned
    requires fits { Fits pool.now.table.shared.table_id pool.now.layout pass.old.seat }
    requires rest { IsAtRest (known pass.old.seat) pass.old.purse }
    requires out { HasOut (known pass.old.seat) pass.old.purse going.old.records }
    requires none { is_look going.old.call ≡ true → going.old.records ≡ None }
    ensures same { IsSame pass.old.seat pass.new.seat }
    ensures over { going.new ≡ record going.old { next = Next.Over; records = None } }
    ensures done { result ≡ Turned.Done answer }
    ensures ended { Ends pool.now.layout pass.old.share going.old.races going.old.call going.old.records answer
        (view pass.old.seat) (view pass.new.seat) pass.old.purse pass.new.purse }
    ensures alone { pool.now.layout.passes ≡ 1 → IsBare pool.now.layout (words_of pool.now.layout (view pass.old.seat))
        → IsBare pool.now.layout (words_of pool.now.layout (view pass.new.seat)) }
    ensures resting { IsResting pass.new }
{
    let looks = looks(going.call);
    let records = going.records.take();
    going.next = Next::Over;
    finish(pool, pass, looks, going.call, records);
    Turned::Done(answer)
}

/// Counts a turn of a call that was lost, whose seek goes on so. A call that has lost as many turns as it may gives up, or
/// says what it took if it has taken effect.
pub fn lose(
    going: &mut TreeGoing,
    pool: &Pool<TreeShape>,
    pass: &mut Pass<TreeShape>,
    seek: Seek,
) -> Turned
    requires fits { Fits pool.now.table.shared.table_id pool.now.layout pass.old.seat }
    requires rest { IsAtRest (known pass.old.seat) pass.old.purse }
    requires out { HasOut (known pass.old.seat) pass.old.purse going.old.records }
    requires none { is_look going.old.call ≡ true → going.old.records ≡ None }
    requires unstruck { is_look going.old.call ≡ true → going.old.struck ≡ false }
    requires pair { key_of going.old.call < inf0 }
    requires below { going.old.lost < going.old.races }
    requires goes { Goes going.old (known pass.old.seat) }
    requires seek { (seek.call ≡ going.old.call) × (IsSeek (known pass.old.seat) seek × (seek.fresh ≡ false)) }
    requires high { upper_at seek.spot ≤ 2 ^ 64 }
    ensures same { IsSame pass.old.seat pass.new.seat }
    ensures part { Part pool.now.layout pass.old.share (HasLost pool.now.layout pass.old.share going.old seek (view pass.old.seat)
        pass.old.purse) going.old going.new (view pass.old.seat) (view pass.new.seat) pass.new.purse result }
    ensures resting { IfDone result (λ _. IsResting pass.new) }
{
    going.lost += 1;
    if going.lost == going.races {
        if going.struck {
            let value = going.taken;
            return end(going, pool, pass, Answer::Said(Reply::Took(value)));
        }
        let turns = going.lost;
        return end(going, pool, pass, Answer::Lost { turns });
    }
    going.next = Next::Seeks(seek);
    Turned::On
}

/// Counts a turn of a call that was lost, which lets go of all that it holds and seeks again.
pub fn lose_again(
    going: &mut TreeGoing,
    pool: &Pool<TreeShape>,
    pass: &mut Pass<TreeShape>,
) -> Turned
    requires fits { Fits pool.now.table.shared.table_id pool.now.layout pass.old.seat }
    requires rest { IsAtRest (known pass.old.seat) pass.old.purse }
    requires out { HasOut (known pass.old.seat) pass.old.purse going.old.records }
    requires none { is_look going.old.call ≡ true → going.old.records ≡ None }
    requires unstruck { is_look going.old.call ≡ true → going.old.struck ≡ false }
    requires pair { key_of going.old.call < inf0 }
    requires below { going.old.lost < going.old.races }
    requires goes { Goes going.old (known pass.old.seat) }
    ensures same { IsSame pass.old.seat pass.new.seat }
    ensures part { Part pool.now.layout pass.old.share (HasMissed pool.now.layout pass.old.share going.old (view pass.old.seat)
        pass.old.purse) going.old going.new (view pass.old.seat) (view pass.new.seat) pass.new.purse result }
    ensures resting { IfDone result (λ _. IsResting pass.new) }
{
    let seek = Seek::again(going.call);
    seek.done(pool, pass);
    lose(going, pool, pass, seek)
}

/// What a removal does next whose seek ended at the leaf of its key: it sets FLAG, or where the edge has TAG it helps.
fn open_removal(
    going: &mut TreeGoing,
    pool: &Pool<TreeShape>,
    pass: &mut Pass<TreeShape>,
    sought: Sought,
) -> Turned
    requires fits { Fits pool.now.table.shared.table_id pool.now.layout pass.old.seat }
    requires ready { HasEnded pool.now.layout going.old (known pass.old.seat) pass.old.purse sought }
    requires equal { sought.equal ≡ true }
    requires plain { flag_bit (word_of sought.edge) ≡ 0 }
    requires takes { Takes going.old.call (key_of going.old.call) (value_of (slot (known pass.old.seat) sought.word).value) }
    requires unstruck { going.old.struck ≡ false }
    ensures same { IsSame pass.old.seat pass.new.seat }
    ensures part { Part pool.now.layout pass.old.share (HasArrived pool.now.layout pass.old.share going.old sought (view pass.old.seat)
        pass.old.purse) going.old going.new (view pass.old.seat) (view pass.new.seat) pass.new.purse result }
    ensures alone { LoneSought pool.now.layout sought (view pass.old.seat)
        → LoneTurn pool.now.layout going.old going.new (view pass.new.seat) result }
    ensures resting { IfDone result (λ _. IsResting pass.new) }
{
    if sought.edge.tag() {
        going.next = Next::Tags(sought, sought.side);
        return Turned::On;
    }
    going.next = Next::Flags(sought);
    Turned::On
}

/// Comes on from the end of a get's seek: it is answered.
fn arrive_get(
    going: &mut TreeGoing,
    pool: &Pool<TreeShape>,
    pass: &mut Pass<TreeShape>,
    sought: Sought,
) -> Turned
    requires fits { Fits pool.now.table.shared.table_id pool.now.layout pass.old.seat }
    requires ready { HasEnded pool.now.layout going.old (known pass.old.seat) pass.old.purse sought }
    requires gets { is_look going.old.call ≡ true }
    ensures same { IsSame pass.old.seat pass.new.seat }
    ensures part { Part pool.now.layout pass.old.share (HasArrived pool.now.layout pass.old.share going.old sought (view pass.old.seat)
        pass.old.purse) going.old going.new (view pass.old.seat) (view pass.new.seat) pass.new.purse result }
    ensures alone { LoneSought pool.now.layout sought (view pass.old.seat)
        → LoneTurn pool.now.layout going.old going.new (view pass.new.seat) result }
    ensures resting { IfDone result (λ _. IsResting pass.new) }
{
    if !sought.equal {
        return end(going, pool, pass, Answer::Said(Reply::Absent));
    }
    if sought.edge.flag() {
        return end(going, pool, pass, Answer::Said(Reply::Absent));
    }
    let value = stored(pool, pass, sought.word);
    end(going, pool, pass, Answer::Said(Reply::Value(value)))
}

/// Comes on from the end of an insert's seek: where the key is there, it is answered; where the edge has a bit it helps, and
/// else its records are to be published.
fn arrive_insert(
    going: &mut TreeGoing,
    pool: &Pool<TreeShape>,
    pass: &mut Pass<TreeShape>,
    sought: Sought,
) -> Turned
    requires fits { Fits pool.now.table.shared.table_id pool.now.layout pass.old.seat }
    requires ready { HasEnded pool.now.layout going.old (known pass.old.seat) pass.old.purse sought }
    requires inserts { (k v : ℕ) × (going.old.call ≡ Call.Insert k v) }
    requires unstruck { going.old.struck ≡ false }
    ensures same { IsSame pass.old.seat pass.new.seat }
    ensures part { Part pool.now.layout pass.old.share (HasArrived pool.now.layout pass.old.share going.old sought (view pass.old.seat)
        pass.old.purse) going.old going.new (view pass.old.seat) (view pass.new.seat) pass.new.purse result }
    ensures alone { LoneSought pool.now.layout sought (view pass.old.seat)
        → LoneTurn pool.now.layout going.old going.new (view pass.new.seat) result }
    ensures resting { IfDone result (λ _. IsResting pass.new) }
{
    if sought.edge.flag() {
        going.next = Next::Tags(sought, other(sought.side));
        return Turned::On;
    }
    if sought.equal {
        let value = stored(pool, pass, sought.word);
        return end(going, pool, pass, Answer::Said(Reply::Held(value)));
    }
    if sought.edge.tag() {
        going.next = Next::Tags(sought, sought.side);
        return Turned::On;
    }
    going.next = Next::Publishes(sought);
    Turned::On
}

/// Comes on from the end of a remove's seek.
fn arrive_remove(
    going: &mut TreeGoing,
    pool: &Pool<TreeShape>,
    pass: &mut Pass<TreeShape>,
    sought: Sought,
) -> Turned
    requires fits { Fits pool.now.table.shared.table_id pool.now.layout pass.old.seat }
    requires ready { HasEnded pool.now.layout going.old (known pass.old.seat) pass.old.purse sought }
    requires removes { (k : ℕ) × (going.old.call ≡ Call.Remove k) }
    requires unstruck { going.old.struck ≡ false }
    ensures same { IsSame pass.old.seat pass.new.seat }
    ensures part { Part pool.now.layout pass.old.share (HasArrived pool.now.layout pass.old.share going.old sought (view pass.old.seat)
        pass.old.purse) going.old going.new (view pass.old.seat) (view pass.new.seat) pass.new.purse result }
    ensures alone { LoneSought pool.now.layout sought (view pass.old.seat)
        → LoneTurn pool.now.layout going.old going.new (view pass.new.seat) result }
    ensures resting { IfDone result (λ _. IsResting pass.new) }
{
    if !sought.equal {
        return end(going, pool, pass, Answer::Said(Reply::Absent));
    }
    if sought.edge.flag() {
        return end(going, pool, pass, Answer::Said(Reply::Absent));
    }
    open_removal(going, pool, pass, sought)
}

/// Comes on from the end of a cut's seek, which takes the pair only with this value.
fn arrive_cut(
    going: &mut TreeGoing,
    pool: &Pool<TreeShape>,
    pass: &mut Pass<TreeShape>,
    sought: Sought,
    wanted: u128,
) -> Turned
    requires fits { Fits pool.now.table.shared.table_id pool.now.layout pass.old.seat }
    requires ready { HasEnded pool.now.layout going.old (known pass.old.seat) pass.old.purse sought }
    requires cuts { (k : ℕ) × (going.old.call ≡ Call.Cut k wanted) }
    requires unstruck { going.old.struck ≡ false }
    ensures same { IsSame pass.old.seat pass.new.seat }
    ensures part { Part pool.now.layout pass.old.share (HasArrived pool.now.layout pass.old.share going.old sought (view pass.old.seat)
        pass.old.purse) going.old going.new (view pass.old.seat) (view pass.new.seat) pass.new.purse result }
    ensures alone { LoneSought pool.now.layout sought (view pass.old.seat)
        → LoneTurn pool.now.layout going.old going.new (view pass.new.seat) result }
    ensures resting { IfDone result (λ _. IsResting pass.new) }
{
    if !sought.equal {
        return end(going, pool, pass, Answer::Said(Reply::Absent));
    }
    if sought.edge.flag() {
        return end(going, pool, pass, Answer::Said(Reply::Absent));
    }
    let value = stored(pool, pass, sought.word);
    if value != wanted {
        return end(going, pool, pass, Answer::Said(Reply::Other(value)));
    }
    open_removal(going, pool, pass, sought)
}

/// Comes on from the end of the seek of a removal that has taken effect: where the leaf is no longer there with FLAG, it says
/// what it took.
fn arrive_after(
    going: &mut TreeGoing,
    pool: &Pool<TreeShape>,
    pass: &mut Pass<TreeShape>,
    sought: Sought,
) -> Turned
    requires fits { Fits pool.now.table.shared.table_id pool.now.layout pass.old.seat }
    requires ready { HasEnded pool.now.layout going.old (known pass.old.seat) pass.old.purse sought }
    requires struck { going.old.struck ≡ true }
    ensures same { IsSame pass.old.seat pass.new.seat }
    ensures part { Part pool.now.layout pass.old.share (HasArrived pool.now.layout pass.old.share going.old sought (view pass.old.seat)
        pass.old.purse) going.old going.new (view pass.old.seat) (view pass.new.seat) pass.new.purse result }
    ensures resting { IfDone result (λ _. IsResting pass.new) }
{
    let value = going.taken;
    if !sought.equal {
        return end(going, pool, pass, Answer::Said(Reply::Took(value)));
    }
    if !sought.edge.flag() {
        return end(going, pool, pass, Answer::Said(Reply::Took(value)));
    }
    going.next = Next::Tags(sought, other(sought.side));
    Turned::On
}

/// Comes on from the end of a call's seek.
pub fn arrive(
    going: &mut TreeGoing,
    pool: &Pool<TreeShape>,
    pass: &mut Pass<TreeShape>,
    sought: Sought,
) -> Turned
    requires fits { Fits pool.now.table.shared.table_id pool.now.layout pass.old.seat }
    requires ready { HasEnded pool.now.layout going.old (known pass.old.seat) pass.old.purse sought }
    ensures same { IsSame pass.old.seat pass.new.seat }
    ensures part { Part pool.now.layout pass.old.share (HasArrived pool.now.layout pass.old.share going.old sought (view pass.old.seat)
        pass.old.purse) going.old going.new (view pass.old.seat) (view pass.new.seat) pass.new.purse result }
    ensures alone { going.old.struck ≡ false → LoneSought pool.now.layout sought (view pass.old.seat)
        → LoneTurn pool.now.layout going.old going.new (view pass.new.seat) result }
    ensures resting { IfDone result (λ _. IsResting pass.new) }
{
    if going.struck {
        return arrive_after(going, pool, pass, sought);
    }
    match going.call {
        Call::Get { key: _ } => arrive_get(going, pool, pass, sought),
        Call::Insert { key: _, value: _ } => arrive_insert(going, pool, pass, sought),
        Call::Remove { key: _ } => arrive_remove(going, pool, pass, sought),
        Call::Cut { key: _, value } => arrive_cut(going, pool, pass, sought, value),
    }
}
