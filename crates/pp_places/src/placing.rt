//! The places of a caller's calls in a log.

ghost use Rattle.std.specs.Prelude.{◌≡◌, ◌^◌, ◌<◌, ◌≤◌, ℕ, List, ◌∷◌, map, length, false, IfOk, OnOk, IsTrue, ◌↔◌};
ghost use Rattle.pp_model.specs.declared.Call.{Call};
ghost use Rattle.pp_model.specs.declared.Answer.{Answer};
ghost use Rattle.pp_model.specs.declared.Placed.{Placed};
ghost use Rattle.pp_model.specs.Calls.{changes, reply};
ghost use Rattle.pp_model.specs.History.{Sound, after};
ghost use Rattle.pp_model.specs.Pass.{RunView};
ghost use Rattle.pp_check.specs.Indexes.{IsIndex};
ghost use Rattle.pp_schedule.specs.Calls.{capped, all_capped};
ghost use Rattle.pp_schedule.specs.Marks.{MarkedAs, MarkPlaces};
ghost use Rattle.pp_places.specs.Places.{IsPlaced, AreAsLong, PlacesOn};

use pp_check::index::{Touch, key_of, reply_to, value_at};
use pp_model::{Answer, Call, Change, NoMemory, Placed, Reply};
use pp_running::jobs::append;
use std::alloc::Global;

/// The lists of placed calls of these callers.
pub fn lists_of(
    alloc: Global,
    log: &[Change],
    index: &[Touch],
    lists: &[Vec<Call>],
    answers: &[Vec<Answer>],
    marks: &[Vec<u64>],
) -> Result<Vec<Vec<Placed>>, NoMemory>
    requires index { IsIndex log.now index.now }
    requires sound { Sound log.now }
    requires short { length log.now < 2 ^ 63 }
    requires lengths { AreAsLong (map (λ v. v.items) lists.now) (map (λ v. v.items) answers.now) (map (λ v. v.items) marks.now) }
    ensures { (run : RunView) → IsPlaced (map (λ v. v.items) lists.now) (map (λ v. v.items) answers.now) (map (λ v. v.items) marks.now) run
        → run.log ≡ log.now → IfOk result (λ out. map (λ v. v.items) out.items ≡ map (λ r. r.mine) run.callers) }
{
    let mut out = Vec::new(alloc);
    for caller in 0..lists.len() {
        let list = list_of(
            alloc,
            log,
            index,
            &lists[caller],
            &answers[caller],
            &marks[caller],
        )?;
        append(&mut out, list)?;
    }
    Ok(out)
}

// The list of one caller.
fn list_of(
    alloc: Global,
    log: &[Change],
    index: &[Touch],
    calls: &[Call],
    answers: &[Answer],
    marks: &[u64],
) -> Result<Vec<Placed>, NoMemory>
    requires index { IsIndex log.now index.now }
    requires sound { Sound log.now }
    requires short { length log.now < 2 ^ 63 }
    requires answers { length answers.now ≡ length calls.now }
    requires marks { length marks.now ≡ length calls.now }
    ensures { (exact : List ℕ) → (mine : List Placed) → MarkedAs log.now calls.now answers.now exact mine
        → marks.now ≡ all_capped exact → IfOk result (λ list. list.items ≡ mine) }
{
    let mut list = Vec::new(alloc);
    for at in 0..calls.len() {
        place_call(&mut list, log, index, calls[at], &answers[at], marks[at])?;
    }
    Ok(list)
}

// Appends one call with its place, where it was answered by a reply.
fn place_call(
    list: &mut Vec<Placed>,
    log: &[Change],
    index: &[Touch],
    call: Call,
    answer: &Answer,
    mark: u64,
) -> Result<(), NoMemory>
    requires index { IsIndex log.now index.now }
    requires sound { Sound log.now }
    requires short { length log.now < 2 ^ 63 }
    ensures { (mine : List Placed) → (calls : List Call) → (answers : List Answer) → (exact : List ℕ) → (m : ℕ) → mark ≡ capped m
        → PlacesOn log.now mine (call ∷ calls) (answer.now ∷ answers) (m ∷ exact) list.old.items
        → OnOk result (PlacesOn log.now mine calls answers exact list.new.items) }
{
    let Answer::Said(reply) = answer else {
        return Ok(());
    };
    let place = place_of(log, index, &call, reply, mark);
    let reply = *reply;
    append(list, Placed { call, reply, place })
}

// A call's place: where it changed the map its mark, and else the least one from its mark on at which its reply is right.
fn place_of(log: &[Change], index: &[Touch], call: &Call, reply: &Reply, mark: u64) -> u64
    requires index { IsIndex log.now index.now }
    requires sound { Sound log.now }
    requires short { length log.now < 2 ^ 63 }
    ensures { (m : ℕ) → (s : Placed) → mark ≡ capped m → MarkPlaces log.now call.now reply.now m s → result ≡ s.place }
{
    if reply.changes() {
        mark
    } else {
        least_right(log, index, call, reply, mark)
    }
}

// Whether a reply to a call is right at a place.
fn is_right(log: &[Change], index: &[Touch], call: &Call, given: &Reply, place: usize) -> bool
    requires index { IsIndex log.now index.now }
    requires sound { Sound log.now }
    requires within { place ≤ length log.now }
    ensures { IsTrue result ↔ (reply (after log.now place) call.now ≡ given.now) }
{
    let found = value_at(log, index, key_of(call), place);
    reply_to(call, found) == *given
}

// The least place from a mark on at which a reply is right; the end of the log where there is none before it.
fn least_right(log: &[Change], index: &[Touch], call: &Call, reply: &Reply, mark: u64) -> u64
    requires index { IsIndex log.now index.now }
    requires sound { Sound log.now }
    ensures { (s : Placed) → changes reply.now ≡ false → MarkPlaces log.now call.now reply.now mark s → result ≡ s.place }
{
    let key = key_of(call);
    let mut stale = true;
    for place in (mark as usize)..log.len() {
        if stale && is_right(log, index, call, reply, place) {
            return place as u64;
        }
        stale = key_of(&log[place].call) == key;
    }
    log.len() as u64
}
