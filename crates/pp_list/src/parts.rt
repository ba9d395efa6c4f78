//! The last parts of a call's turns.

ghost use Rattle.std.specs.Prelude.{◌≡◌, ◌+◌, ◌<◌, true, false, ℕ};
ghost use Rattle.pp_base.specs.Passes.{known, view, Fits, IsSame, IsAtRest};
ghost use Rattle.pp_lists.specs.Walks.{bucket};
ghost use Rattle.pp_model.specs.Calls.{key_of};
ghost use Rattle.pp_model.specs.MapCalls.{IfDone};
ghost use Rattle.pp_turns.specs.Passes.{IsResting};
ghost use Rattle.pp_walk.specs.Roles.{is_look, IsWalk};
ghost use Rattle.pp_list.specs.Answers.{Ends};
ghost use Rattle.pp_lists.specs.Clean.{IsBare};
ghost use Rattle.pp_walk.specs.Lone.{words_of};
ghost use Rattle.pp_list.specs.Going.{HoldsFirst};
ghost use Rattle.pp_walk.specs.Bare.{LoneEnd};
ghost use Rattle.pp_list.specs.Lone.{LoneTurn};
ghost use Rattle.pp_list.specs.Purses.{HasOut};
ghost use Rattle.pp_list.specs.Turned.{Part, HasLost, HasArrived, HasEnded};

use crate::ending::finish;
use crate::going::{ListGoing, Next};
use crate::stored::stored;
use pp_base::{Pass, Pool};
use pp_model::{Answer, Call, Reply, Turned};
use pp_walk::ListShape;
use pp_walk::walk::{Found, Walk};
use pp_walk::words::rest;

/// Whether the call only looks.
fn looks(call: Call) -> bool
    ensures { result ≡ is_look call }
{
    match call {
        Call::Get { key: _ } => true,
        Call::Insert { key: _, value: _ } => false,
        Call::Remove { key: _ } => false,
        Call::Cut { key: _, value: _ } => false,
    }
}

/// Ends a call with this answer.
pub fn end(
    going: &mut ListGoing,
    pool: &Pool<ListShape>,
    pass: &mut Pass<ListShape>,
    answer: Answer,
) -> Turned
    requires fits { Fits pool.now.table.shared.table_id pool.now.layout pass.old.seat }
    requires rest { IsAtRest (known pass.old.seat) pass.old.purse }
    requires out { HasOut (known pass.old.seat) pass.old.purse going.old.fresh }
    requires none { is_look going.old.call ≡ true → going.old.fresh ≡ None }
    ensures same { IsSame pass.old.seat pass.new.seat }
    ensures over { going.new ≡ record going.old { next = Next.Over; fresh = None } }
    ensures done { result ≡ Turned.Done answer }
    ensures ended { Ends pool.now.layout pass.old.share going.old.races going.old.call going.old.fresh answer
        (view pass.old.seat) (view pass.new.seat) pass.old.purse pass.new.purse }
    ensures alone { pool.now.layout.passes ≡ 1 → IsBare pool.now.layout (words_of pool.now.layout (view pass.old.seat))
        → IsBare pool.now.layout (words_of pool.now.layout (view pass.new.seat)) }
    ensures resting { IsResting pass.new }
{
    let looks = looks(going.call);
    let fresh = going.fresh.take();
    going.next = Next::Over;
    finish(pool, pass, looks, fresh);
    Turned::Done(answer)
}

/// Counts a turn of a call that was lost, whose walk goes on so. A call that has lost as many turns as it may gives up.
pub fn lose(
    going: &mut ListGoing,
    pool: &Pool<ListShape>,
    pass: &mut Pass<ListShape>,
    walk: Walk,
) -> Turned
    requires fits { Fits pool.now.table.shared.table_id pool.now.layout pass.old.seat }
    requires rest { IsAtRest (known pass.old.seat) pass.old.purse }
    requires out { HasOut (known pass.old.seat) pass.old.purse going.old.fresh }
    requires none { is_look going.old.call ≡ true → going.old.fresh ≡ None }
    requires below { going.old.lost < going.old.races }
    requires unstruck { going.old.struck ≡ false }
    requires home { (going.old.head < pool.now.layout.heads) × (going.old.head ≡ bucket pool.now.layout.heads (key_of going.old.call)) }
    requires walk { (walk.call ≡ going.old.call) × IsWalk pool.now.layout (known pass.old.seat) walk × (walk.fresh ≡ false) }
    ensures same { IsSame pass.old.seat pass.new.seat }
    ensures part { Part pool.now.layout pass.old.share (HasLost pool.now.layout pass.old.share going.old (view pass.old.seat)
        pass.old.purse)
        going.old going.new (view pass.old.seat) (view pass.new.seat) pass.new.purse result }
    ensures early { going.new.struck ≡ false }
    ensures resting { IfDone result (λ _. IsResting pass.new) }
{
    going.lost += 1;
    if going.lost == going.races {
        let turns = going.lost;
        return end(going, pool, pass, Answer::Lost { turns });
    }
    going.next = Next::Walks(walk);
    Turned::On
}

/// Begins the walk of a call again whose turn was lost behind its walk.
pub fn begin_again(
    going: &mut ListGoing,
    pool: &Pool<ListShape>,
    pass: &mut Pass<ListShape>,
) -> Turned
    requires fits { Fits pool.now.table.shared.table_id pool.now.layout pass.old.seat }
    requires rest { IsAtRest (known pass.old.seat) pass.old.purse }
    requires out { HasOut (known pass.old.seat) pass.old.purse going.old.fresh }
    requires changing { is_look going.old.call ≡ false }
    requires below { going.old.lost < going.old.races }
    requires unstruck { going.old.struck ≡ false }
    requires home { (going.old.head < pool.now.layout.heads) × (going.old.head ≡ bucket pool.now.layout.heads (key_of going.old.call)) }
    requires own { ((known pass.old.seat).own.going ≡ true) × ((known pass.old.seat).own.call ≡ going.old.call)
        × HoldsFirst (known pass.old.seat) }
    ensures same { IsSame pass.old.seat pass.new.seat }
    ensures part { Part pool.now.layout pass.old.share (HasLost pool.now.layout pass.old.share going.old (view pass.old.seat)
        pass.old.purse)
        going.old going.new (view pass.old.seat) (view pass.new.seat) pass.new.purse result }
    ensures early { going.new.struck ≡ false }
    ensures resting { IfDone result (λ _. IsResting pass.new) }
{
    rest(pool, pass);
    let walk = Walk::again(going.head, going.call);
    lose(going, pool, pass, walk)
}

/// Comes on from the end of a get's walk: it is answered.
fn arrive_get(
    going: &mut ListGoing,
    pool: &Pool<ListShape>,
    pass: &mut Pass<ListShape>,
    found: Found,
) -> Turned
    requires fits { Fits pool.now.table.shared.table_id pool.now.layout pass.old.seat }
    requires ready { HasEnded pool.now.layout going.old (known pass.old.seat) pass.old.purse found }
    requires gets { is_look going.old.call ≡ true }
    ensures same { IsSame pass.old.seat pass.new.seat }
    ensures part { Part pool.now.layout pass.old.share (HasArrived pool.now.layout pass.old.share going.old found (view pass.old.seat)
        pass.old.purse) going.old going.new (view pass.old.seat) (view pass.new.seat) pass.new.purse result }
    ensures early { going.new.struck ≡ false }
    ensures alone { LoneEnd pool.now.layout found (view pass.old.seat)
        → LoneTurn pool.now.layout going.old going.new (view pass.new.seat) result }
    ensures resting { IfDone result (λ _. IsResting pass.new) }
{
    if !found.equal {
        return end(going, pool, pass, Answer::Said(Reply::Absent));
    }
    if found.marked {
        return end(going, pool, pass, Answer::Said(Reply::Absent));
    }
    let value = stored(pool, pass, found.word);
    end(going, pool, pass, Answer::Said(Reply::Value(value)))
}

/// Comes on from the end of an insert's walk: where the key is there, it is answered, else its record is to be published.
fn arrive_insert(
    going: &mut ListGoing,
    pool: &Pool<ListShape>,
    pass: &mut Pass<ListShape>,
    found: Found,
) -> Turned
    requires fits { Fits pool.now.table.shared.table_id pool.now.layout pass.old.seat }
    requires ready { HasEnded pool.now.layout going.old (known pass.old.seat) pass.old.purse found }
    requires inserts { (k v : ℕ) × (going.old.call ≡ Call.Insert k v) }
    ensures same { IsSame pass.old.seat pass.new.seat }
    ensures part { Part pool.now.layout pass.old.share (HasArrived pool.now.layout pass.old.share going.old found (view pass.old.seat)
        pass.old.purse) going.old going.new (view pass.old.seat) (view pass.new.seat) pass.new.purse result }
    ensures early { going.new.struck ≡ false }
    ensures alone { LoneEnd pool.now.layout found (view pass.old.seat)
        → LoneTurn pool.now.layout going.old going.new (view pass.new.seat) result }
    ensures resting { IfDone result (λ _. IsResting pass.new) }
{
    if found.equal {
        let value = stored(pool, pass, found.word);
        return end(going, pool, pass, Answer::Said(Reply::Held(value)));
    }
    if found.chain != 0 {
        going.next = Next::Detaches(found);
    } else {
        going.next = Next::Publishes(found);
    }
    Turned::On
}

/// Comes on from the end of a remove's walk: where the key isn't there, it is answered, else its record is to be marked.
fn arrive_remove(
    going: &mut ListGoing,
    pool: &Pool<ListShape>,
    pass: &mut Pass<ListShape>,
    found: Found,
) -> Turned
    requires fits { Fits pool.now.table.shared.table_id pool.now.layout pass.old.seat }
    requires ready { HasEnded pool.now.layout going.old (known pass.old.seat) pass.old.purse found }
    requires removes { (k : ℕ) × (going.old.call ≡ Call.Remove k) }
    ensures same { IsSame pass.old.seat pass.new.seat }
    ensures part { Part pool.now.layout pass.old.share (HasArrived pool.now.layout pass.old.share going.old found (view pass.old.seat)
        pass.old.purse) going.old going.new (view pass.old.seat) (view pass.new.seat) pass.new.purse result }
    ensures early { going.new.struck ≡ false }
    ensures alone { LoneEnd pool.now.layout found (view pass.old.seat)
        → LoneTurn pool.now.layout going.old going.new (view pass.new.seat) result }
    ensures resting { IfDone result (λ _. IsResting pass.new) }
{
    if !found.equal {
        return end(going, pool, pass, Answer::Said(Reply::Absent));
    }
    going.next = Next::Marks(found);
    Turned::On
}

/// Comes on from the end of a cut's walk: where the key isn't there with this value, it is answered, else its record is to be
/// marked.
fn arrive_cut(
    going: &mut ListGoing,
    pool: &Pool<ListShape>,
    pass: &mut Pass<ListShape>,
    found: Found,
    wanted: u128,
) -> Turned
    requires fits { Fits pool.now.table.shared.table_id pool.now.layout pass.old.seat }
    requires ready { HasEnded pool.now.layout going.old (known pass.old.seat) pass.old.purse found }
    requires cuts { (k : ℕ) × (going.old.call ≡ Call.Cut k wanted) }
    ensures same { IsSame pass.old.seat pass.new.seat }
    ensures part { Part pool.now.layout pass.old.share (HasArrived pool.now.layout pass.old.share going.old found (view pass.old.seat)
        pass.old.purse) going.old going.new (view pass.old.seat) (view pass.new.seat) pass.new.purse result }
    ensures early { going.new.struck ≡ false }
    ensures alone { LoneEnd pool.now.layout found (view pass.old.seat)
        → LoneTurn pool.now.layout going.old going.new (view pass.new.seat) result }
    ensures resting { IfDone result (λ _. IsResting pass.new) }
{
    if !found.equal {
        return end(going, pool, pass, Answer::Said(Reply::Absent));
    }
    let value = stored(pool, pass, found.word);
    if value != wanted {
        return end(going, pool, pass, Answer::Said(Reply::Other(value)));
    }
    going.next = Next::Marks(found);
    Turned::On
}

/// Comes on from the end of a call's walk.
pub fn arrive(
    going: &mut ListGoing,
    pool: &Pool<ListShape>,
    pass: &mut Pass<ListShape>,
    found: Found,
) -> Turned
    requires fits { Fits pool.now.table.shared.table_id pool.now.layout pass.old.seat }
    requires ready { HasEnded pool.now.layout going.old (known pass.old.seat) pass.old.purse found }
    ensures same { IsSame pass.old.seat pass.new.seat }
    ensures part { Part pool.now.layout pass.old.share (HasArrived pool.now.layout pass.old.share going.old found (view pass.old.seat)
        pass.old.purse) going.old going.new (view pass.old.seat) (view pass.new.seat) pass.new.purse result }
    ensures early { going.new.struck ≡ false }
    ensures alone { LoneEnd pool.now.layout found (view pass.old.seat)
        → LoneTurn pool.now.layout going.old going.new (view pass.new.seat) result }
    ensures resting { IfDone result (λ _. IsResting pass.new) }
{
    match going.call {
        Call::Get { key: _ } => arrive_get(going, pool, pass, found),
        Call::Insert { key: _, value: _ } => arrive_insert(going, pool, pass, found),
        Call::Remove { key: _ } => arrive_remove(going, pool, pass, found),
        Call::Cut { key: _, value } => arrive_cut(going, pool, pass, found, value),
    }
}
