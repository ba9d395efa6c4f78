//! The log of a run, from the marks of the calls that changed the map: each is its change's place.

ghost use Rattle.std.specs.Prelude.{◌≡◌, ◌+◌, ◌-◌, ◌^◌, ◌<◌, ◌≤◌, ℕ, List, ◌∷◌, map, length, IfOk, OnOk};
ghost use Rattle.pp_model.specs.declared.Call.{Call};
ghost use Rattle.pp_model.specs.declared.Answer.{Answer};
ghost use Rattle.pp_model.specs.declared.Change.{Change};
ghost use Rattle.pp_model.specs.declared.Placed.{Placed};
ghost use Rattle.pp_model.specs.History.{Stands};
ghost use Rattle.pp_model.specs.Pass.{RunView};
ghost use Rattle.pp_schedule.specs.Calls.{capped, all_capped};
ghost use Rattle.pp_schedule.specs.Marks.{MarkedAs};
ghost use Rattle.pp_places.specs.Places.{IsPlaced, AreAsLong, HasEntered, EntersOn, earlier, IsEntry};

use pp_model::{Answer, Call, Change, NoMemory};
use pp_running::jobs::append;
use std::alloc::Global;

/// The log of the changes of these callers.
pub fn log_of(
    alloc: Global,
    lists: &[Vec<Call>],
    answers: &[Vec<Answer>],
    marks: &[Vec<u64>],
) -> Result<Vec<Change>, NoMemory>
    requires callers { length lists.now ≤ 64 }
    requires lengths { AreAsLong (map (λ v. v.items) lists.now) (map (λ v. v.items) answers.now) (map (λ v. v.items) marks.now) }
    ensures { (run : RunView) → IsPlaced (map (λ v. v.items) lists.now) (map (λ v. v.items) answers.now) (map (λ v. v.items) marks.now) run
        → IfOk result (λ log. log.items ≡ run.log) }
{
    let mut log = Vec::new(alloc);
    for caller in 0..lists.len() {
        enter_caller(
            &mut log,
            caller as u32,
            &lists[caller],
            &answers[caller],
            &marks[caller],
        )?;
    }
    Ok(log)
}

// Enters the changes of one caller.
fn enter_caller(
    log: &mut Vec<Change>,
    caller: u32,
    calls: &[Call],
    answers: &[Answer],
    marks: &[u64],
) -> Result<(), NoMemory>
    requires answers { length answers.now ≡ length calls.now }
    requires marks { length marks.now ≡ length calls.now }
    ensures { (whole : List Change) → (exact : List ℕ) → (mine : List Placed) → MarkedAs whole calls.now answers.now exact mine
        → marks.now ≡ all_capped exact → Stands whole caller mine → HasEntered whole (earlier caller) log.old.items
        → OnOk result (HasEntered whole (earlier (caller + 1)) log.new.items) }
{
    let mut number = 0u64;
    for at in 0..calls.len() {
        number = enter_call(log, caller, number, calls[at], &answers[at], marks[at])?;
    }
    Ok(())
}

// Enters the change of one call, where it changed the map. Gives the number of its placed calls, from that before it.
fn enter_call(
    log: &mut Vec<Change>,
    caller: u32,
    number: u64,
    call: Call,
    answer: &Answer,
    mark: u64,
) -> Result<u64, NoMemory>
    requires { number < 2 ^ 64 - 1 }
    ensures few { IfOk result (λ now. now ≤ number + 1) }
    ensures entered { (whole : List Change) → (mine : List Placed) → (calls : List Call) → (answers : List Answer) → (exact : List ℕ)
        → (m : ℕ) → mark ≡ capped m → Stands whole caller mine
        → EntersOn whole caller mine (call ∷ calls) (answer.now ∷ answers) (m ∷ exact) number log.old.items
        → IfOk result (λ now. EntersOn whole caller mine calls answers exact now log.new.items) }
{
    let Answer::Said(reply) = answer else {
        return Ok(number);
    };
    let number = number + 1;
    if !reply.changes() {
        return Ok(number);
    }
    let change = Change {
        caller,
        number,
        call,
    };
    enter_change(log, mark, change)?;
    Ok(number)
}

// Enters a change at its place, from 1.
fn enter_change(log: &mut Vec<Change>, place: u64, change: Change) -> Result<(), NoMemory>
    ensures { OnOk result (1 ≤ place → IsEntry log.old.items place change log.new.items) }
{
    for _filled in log.len()..place as usize {
        append(log, change)?;
    }
    if place > 0 {
        log[(place - 1) as usize] = change;
    }
    Ok(())
}
