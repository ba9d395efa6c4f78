//! The turns of a call, one function for each kind.

ghost use Rattle.std.specs.Prelude.{◌≡◌, ◌<◌, ◌≤◌, ℕ, false, List, length};
ghost use Rattle.pp_base.specs.Passes.{known, view, Fits, IsSame, IsAtRest};
ghost use Rattle.pp_lists.specs.Clean.{IsBare};
ghost use Rattle.pp_lists.specs.Turns.{ListView};
ghost use Rattle.pp_lists.specs.Walks.{bucket};
ghost use Rattle.pp_model.specs.Calls.{key_of};
ghost use Rattle.pp_shelf.specs.Runs.{steps_made};
ghost use Rattle.pp_walk.specs.Effects.{MayFill};
ghost use Rattle.pp_walk.specs.Lone.{words_of};
ghost use Rattle.pp_model.specs.MapCalls.{IfDone};
ghost use Rattle.pp_turns.specs.Passes.{IsResting};
ghost use Rattle.pp_list.specs.Detaching.{TriesToDetach};
ghost use Rattle.pp_list.specs.Going.{IsUnder, MayUnlink, HoldsFirst, Inserts};
ghost use Rattle.pp_walk.specs.Bare.{LoneEnd};
ghost use Rattle.pp_list.specs.Lone.{LoneMarked, LoneAt, LoneTurn};
ghost use Rattle.pp_list.specs.Purses.{HasOut, LooksAway};
ghost use Rattle.pp_list.specs.Turned.{ListTurned, Part, HasRecord};

use crate::ending::end_look;
use crate::going::{ListGoing, Marked, Next};
use crate::parts::{arrive, begin_again, end, lose};
use crate::records::{fill, take_record};
use pp_base::{Pass, Pool};
use pp_detached::clear_after;
use pp_model::{Answer, Call, Reply, Turned};
use pp_pool::fresh::{Fresh, published};
use pp_walk::ListShape;
use pp_walk::effects::{detach_run, mark_end, publish_behind};
use pp_walk::walk::{Found, Turn, Walk};

/// Makes a turn of a call's walk.
pub fn walk_on(
    going: &mut ListGoing,
    pool: &Pool<ListShape>,
    pass: &mut Pass<ListShape>,
    walk: Walk,
) -> Turned
    requires fits { Fits pool.now.table.shared.table_id pool.now.layout pass.old.seat }
    requires at { going.old.next ≡ Next.Walks walk }
    requires under { (from : ListView) × ((free : List ℕ)
        × IsUnder pool.now.layout pass.old.share going.old (view pass.old.seat) pass.old.purse from free) }
    ensures same { IsSame pass.old.seat pass.new.seat }
    ensures turned { ListTurned pool.now.layout pass.old.share going.old going.new (view pass.old.seat) (view pass.new.seat)
        pass.old.purse pass.new.purse result }
    ensures alone { LoneAt pool.now.layout going.old.next (view pass.old.seat)
        → LoneTurn pool.now.layout going.old going.new (view pass.new.seat) result }
    ensures resting { IfDone result (λ _. IsResting pass.new) }
{
    let mut walk = walk;
    match walk.turn(pool, pass) {
        Turn::On => {
            going.next = Next::Walks(walk);
            Turned::On
        }
        Turn::Lost => lose(going, pool, pass, walk),
        Turn::At(found) => arrive(going, pool, pass, found),
    }
}

/// Detaches for an insert what its walk gathered.
pub fn detach(
    going: &mut ListGoing,
    pool: &Pool<ListShape>,
    pass: &mut Pass<ListShape>,
    found: Found,
) -> Turned
    requires fits { Fits pool.now.table.shared.table_id pool.now.layout pass.old.seat }
    requires at { going.old.next ≡ Next.Detaches found }
    requires under { (from : ListView) × ((free : List ℕ)
        × IsUnder pool.now.layout pass.old.share going.old (view pass.old.seat) pass.old.purse from free) }
    ensures same { IsSame pass.old.seat pass.new.seat }
    ensures turned { ListTurned pool.now.layout pass.old.share going.old going.new (view pass.old.seat) (view pass.new.seat)
        pass.old.purse pass.new.purse result }
    ensures alone { LoneAt pool.now.layout going.old.next (view pass.old.seat)
        → LoneTurn pool.now.layout going.old going.new (view pass.new.seat) result }
    ensures resting { IfDone result (λ _. IsResting pass.new) }
{
    if detach_run(pool, pass, found.anchor, found.first, found.end) {
        going.next = Next::Publishes(found);
        return Turned::On;
    }
    begin_again(going, pool, pass)
}

/// Marks the record where the walk of a remove or of a cut ended.
pub fn mark(
    going: &mut ListGoing,
    pool: &Pool<ListShape>,
    pass: &mut Pass<ListShape>,
    found: Found,
) -> Turned
    requires fits { Fits pool.now.table.shared.table_id pool.now.layout pass.old.seat }
    requires at { going.old.next ≡ Next.Marks found }
    requires under { (from : ListView) × ((free : List ℕ)
        × IsUnder pool.now.layout pass.old.share going.old (view pass.old.seat) pass.old.purse from free) }
    ensures same { IsSame pass.old.seat pass.new.seat }
    ensures turned { ListTurned pool.now.layout pass.old.share going.old going.new (view pass.old.seat) (view pass.new.seat)
        pass.old.purse pass.new.purse result }
    ensures alone { LoneAt pool.now.layout going.old.next (view pass.old.seat)
        → LoneTurn pool.now.layout going.old going.new (view pass.new.seat) result }
    ensures resting { IfDone result (λ _. IsResting pass.new) }
{
    let Some(taken) = mark_end(pool, pass, found.word, going.call) else {
        return begin_again(going, pool, pass);
    };
    going.struck = true;
    going.next = Next::Unlinks(Marked {
        anchor: found.anchor,
        first: found.first,
        next: taken.next,
        word: found.word,
        value: taken.value,
    });
    Turned::On
}

/// Tries to detach the record that a remove or a cut marked, with what its walk gathered before. It gives how many turns were lost
/// by that: one where the anchor's link was another one.
fn try_detach(pool: &Pool<ListShape>, pass: &mut Pass<ListShape>, marked: Marked) -> u64
    requires fits { Fits pool.now.table.shared.table_id pool.now.layout pass.old.seat }
    requires rest { IsAtRest (known pass.old.seat) pass.old.purse }
    requires may { (n : ℕ) × MayUnlink pool.now.layout (known pass.old.seat) marked n }
    ensures same { IsSame pass.old.seat pass.new.seat }
    ensures few { result ≤ 1 }
    ensures tries { TriesToDetach pool.now.layout result (view pass.old.seat) (view pass.new.seat) pass.old.purse pass.new.purse }
    ensures alone { LoneMarked pool.now.layout marked (view pass.old.seat)
        → (result ≡ 0) × IsBare pool.now.layout (words_of pool.now.layout (view pass.new.seat)) }
    ensures rest { IsAtRest (known pass.new.seat) pass.new.purse }
{
    if !detach_run(pool, pass, marked.anchor, marked.first, marked.next) {
        return 1;
    }
    clear_after(pool, pass, marked.word);
    0
}

/// Answers a remove or a cut that has marked its record, whether that can be detached now or is left to later walks.
pub fn unlink(
    going: &mut ListGoing,
    pool: &Pool<ListShape>,
    pass: &mut Pass<ListShape>,
    marked: Marked,
) -> Turned
    requires fits { Fits pool.now.table.shared.table_id pool.now.layout pass.old.seat }
    requires at { going.old.next ≡ Next.Unlinks marked }
    requires under { (from : ListView) × ((free : List ℕ)
        × IsUnder pool.now.layout pass.old.share going.old (view pass.old.seat) pass.old.purse from free) }
    ensures same { IsSame pass.old.seat pass.new.seat }
    ensures turned { ListTurned pool.now.layout pass.old.share going.old going.new (view pass.old.seat) (view pass.new.seat)
        pass.old.purse pass.new.purse result }
    ensures alone { LoneAt pool.now.layout going.old.next (view pass.old.seat)
        → LoneTurn pool.now.layout going.old going.new (view pass.new.seat) result }
    ensures resting { IfDone result (λ _. IsResting pass.new) }
{
    going.lost += try_detach(pool, pass, marked);
    end(going, pool, pass, Answer::Said(Reply::Took(marked.value)))
}

/// The key and the value of an insert.
fn pair_of(call: Call) -> (u64, u128)
    ensures pair { (k v : ℕ) → call ≡ Call.Insert k v → (result.0 ≡ k) × (result.1 ≡ v) }
{
    match call {
        Call::Insert { key, value } => (key, value),
        Call::Get { key } => (key, 0),
        Call::Remove { key } => (key, 0),
        Call::Cut { key, value } => (key, value),
    }
}

/// Answers an insert for which no record was found.
fn full(going: &mut ListGoing, pool: &Pool<ListShape>, pass: &mut Pass<ListShape>) -> Turned
    requires fits { Fits pool.now.table.shared.table_id pool.now.layout pass.old.seat }
    requires rest { IsAtRest (known pass.old.seat) pass.old.purse }
    requires none { pass.old.purse.taken ≡ 0 }
    ensures same { IsSame pass.old.seat pass.new.seat }
    ensures over { going.new ≡ record going.old { next = Next.Over } }
    ensures done { result ≡ Turned.Done Answer.Full }
    ensures looks { LooksAway (view pass.old.seat) (view pass.new.seat) pass.old.purse pass.new.purse }
    ensures resting { IsResting pass.new }
{
    going.next = Next::Over;
    end_look(pool, pass);
    Turned::Done(Answer::Full)
}

/// Publishes the record of an insert between the anchor and the end of its walk.
fn put_in(
    going: &mut ListGoing,
    pool: &Pool<ListShape>,
    pass: &mut Pass<ListShape>,
    found: Found,
    fresh: Fresh,
) -> Turned
    requires fits { Fits pool.now.table.shared.table_id pool.now.layout pass.old.seat }
    requires rest { IsAtRest (known pass.old.seat) pass.old.purse }
    requires below { going.old.lost < going.old.races }
    requires unstruck { going.old.struck ≡ false }
    requires home { (going.old.head < pool.now.layout.heads) × (going.old.head ≡ bucket pool.now.layout.heads (key_of going.old.call)) }
    requires may { MayFill pool.now.layout (known pass.old.seat) found.anchor found.end (key_of going.old.call)
        × HoldsFirst (known pass.old.seat) }
    requires has { HasOut (known pass.old.seat) pass.old.purse (Some fresh) }
    requires inserts { Inserts going.old.call (view pass.old.seat) }
    ensures same { IsSame pass.old.seat pass.new.seat }
    ensures part { Part pool.now.layout pass.old.share (HasRecord pool.now.layout pass.old.share going.old fresh (view pass.old.seat)
        pass.old.purse) going.old going.new (view pass.old.seat) (view pass.new.seat) pass.new.purse result }
    ensures some_made { 0 < length (steps_made (view pass.old.seat) (view pass.new.seat)) }
    ensures alone { LoneEnd pool.now.layout found (view pass.old.seat)
        → LoneTurn pool.now.layout going.old going.new (view pass.new.seat) result }
    ensures resting { IfDone result (λ _. IsResting pass.new) }
{
    let pair = pair_of(going.call);
    fill(pool, pass, &fresh, pair, found.end);
    if publish_behind(pool, pass, found.anchor, found.end, fresh.number(), pair) {
        published(pass, fresh);
        going.struck = true;
        going.fresh = None;
        return end(going, pool, pass, Answer::Said(Reply::Added));
    }
    going.fresh = Some(fresh);
    begin_again(going, pool, pass)
}

/// Publishes the record of an insert, which is taken in its first such turn. Where none is found, the insert is answered.
pub fn publish(
    going: &mut ListGoing,
    pool: &Pool<ListShape>,
    pass: &mut Pass<ListShape>,
    found: Found,
) -> Turned
    requires fits { Fits pool.now.table.shared.table_id pool.now.layout pass.old.seat }
    requires at { going.old.next ≡ Next.Publishes found }
    requires under { (from : ListView) × ((free : List ℕ)
        × IsUnder pool.now.layout pass.old.share going.old (view pass.old.seat) pass.old.purse from free) }
    ensures same { IsSame pass.old.seat pass.new.seat }
    ensures turned { ListTurned pool.now.layout pass.old.share going.old going.new (view pass.old.seat) (view pass.new.seat)
        pass.old.purse pass.new.purse result }
    ensures alone { LoneAt pool.now.layout going.old.next (view pass.old.seat)
        → LoneTurn pool.now.layout going.old going.new (view pass.new.seat) result }
    ensures resting { IfDone result (λ _. IsResting pass.new) }
{
    let had = going.fresh.take();
    match take_record(pool, pass, had) {
        Some(fresh) => put_in(going, pool, pass, found, fresh),
        None => full(going, pool, pass),
    }
}
