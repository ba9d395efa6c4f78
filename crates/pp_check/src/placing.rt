//! Whether a caller's list of placed calls stands in a log.

ghost use Rattle.std.specs.Prelude.{◌≡◌, length, MatchOption, MatchBool, IsTrue, ◌↔◌};
ghost use Rattle.pp_model.specs.History.{Sound, Fits, FitsAsChange, FitsUnchanged, Follows, Stands};
ghost use Rattle.pp_check.specs.Histories.{IsAmiss, InPlaceTo, IsMisplacedAt, LeavesOut, ListsAll, IsChangeAt};
ghost use Rattle.pp_check.specs.Indexes.{IsIndex};

use crate::index::{Touch, key_of, reply_to, value_at};
use pp_model::{Change, Placed};

/// The first number at which a caller's list doesn't stand in a sound log, if there is one: that of its first call that isn't in
/// place, or else one more than its calls are, where a change of the caller is left out.
pub fn first_misplaced(log: &[Change], index: &[Touch], caller: u32, list: &[Placed]) -> Option<u64>
    requires index { IsIndex log.now index.now }
    requires sound { Sound log.now }
    ensures { MatchOption result (Stands log.now caller list.now) (IsMisplacedAt log.now caller list.now) }
{
    if let Some(number) = first_amiss(log, index, caller, list) {
        return Some(number);
    }
    if leaves_out(log, caller, list) {
        return Some(list.len() as u64 + 1);
    }
    None
}

/// The number of the first call that isn't in place: that doesn't fit the log, or doesn't follow the call before it.
fn first_amiss(log: &[Change], index: &[Touch], caller: u32, list: &[Placed]) -> Option<u64>
    requires index { IsIndex log.now index.now }
    requires sound { Sound log.now }
    ensures { MatchOption result (InPlaceTo log.now caller list.now (length list.now)) (IsAmiss log.now caller list.now) }
{
    for (position, placed) in list.iter().enumerate() {
        let number = position as u64 + 1;
        if !fits(log, index, caller, number, placed) {
            return Some(number);
        }
        if position > 0 && !follows(&list[position - 1], placed) {
            return Some(number);
        }
    }
    None
}

/// Whether a placed call fits a sound log, as a caller's call of this number.
fn fits(log: &[Change], index: &[Touch], caller: u32, number: u64, placed: &Placed) -> bool
    requires index { IsIndex log.now index.now }
    requires sound { Sound log.now }
    ensures { IsTrue result ↔ Fits log.now caller number placed.now }
{
    if placed.reply.changes() {
        fits_as_change(log, index, caller, number, placed)
    } else {
        fits_unchanged(log, index, placed)
    }
}

fn fits_as_change(
    log: &[Change],
    index: &[Touch],
    caller: u32,
    number: u64,
    placed: &Placed,
) -> bool
    requires index { IsIndex log.now index.now }
    requires sound { Sound log.now }
    ensures { IsTrue result ↔ FitsAsChange log.now caller number placed.now }
{
    if placed.place == 0 || placed.place > log.len() as u64 {
        return false;
    }
    let before = (placed.place - 1) as usize;
    let change = Change {
        caller,
        number,
        call: placed.call,
    };
    if log[before] != change {
        return false;
    }
    let found = value_at(log, index, key_of(&placed.call), before);
    reply_to(&placed.call, found) == placed.reply
}

fn fits_unchanged(log: &[Change], index: &[Touch], placed: &Placed) -> bool
    requires index { IsIndex log.now index.now }
    requires sound { Sound log.now }
    ensures { IsTrue result ↔ FitsUnchanged log.now placed.now }
{
    if placed.place > log.len() as u64 {
        return false;
    }
    let found = value_at(log, index, key_of(&placed.call), placed.place as usize);
    reply_to(&placed.call, found) == placed.reply
}

/// Whether a placed call comes after another: at no lower place, and above it where it is a change.
fn follows(before: &Placed, placed: &Placed) -> bool
    ensures { IsTrue result ↔ Follows before.now placed.now }
{
    if placed.reply.changes() {
        before.place < placed.place
    } else {
        before.place <= placed.place
    }
}

/// Whether the log has a change of the caller that its list, whose calls are all in place, has not.
fn leaves_out(log: &[Change], caller: u32, list: &[Placed]) -> bool
    requires { InPlaceTo log.now caller list.now (length list.now) }
    ensures { MatchBool result (LeavesOut log.now caller list.now) (ListsAll log.now caller list.now) }
{
    for (at, change) in log.iter().enumerate() {
        if change.caller == caller && !has_change(list, change.number, at as u64 + 1) {
            return true;
        }
    }
    false
}

/// Whether the call of this number of a list is a change at this place.
fn has_change(list: &[Placed], number: u64, place: u64) -> bool
    ensures { IsTrue result ↔ IsChangeAt list.now number place }
{
    if number == 0 || number > list.len() as u64 {
        return false;
    }
    let placed = &list[(number - 1) as usize];
    placed.reply.changes() && placed.place == place
}
