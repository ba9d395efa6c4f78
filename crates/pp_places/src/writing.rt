//! The text of a certificate.

ghost use Rattle.std.specs.Prelude.{◌≡◌, ◌≤◌, ◌++◌, map, length, IfOk, OnOk};
ghost use Rattle.std.specs.List.{flat_map};
ghost use Rattle.pp_certificate.specs.Printed.{certificate_text, change_line, said_line, said_text};
ghost use Rattle.pp_model.specs.Lists.{AtEach};
ghost use Rattle.pp_places.specs.Held.{AreHeld, IsLogHeld, IsListHeld};

use crate::text::{of_change, of_said};
use pp_model::{Change, NoMemory, Placed};
use std::alloc::Global;

/// The text of the certificate of a log and its callers' lists.
///
/// # Errors
///
/// There was no memory.
pub fn certificate_of(
    alloc: Global,
    log: &[Change],
    lists: &[Vec<Placed>],
) -> Result<Vec<u8>, NoMemory>
    requires { length lists.now ≤ 64 }
    ensures text { IfOk result (λ text. text.items ≡ certificate_text log.now (map (λ v. v.items) lists.now)) }
    ensures held { IfOk result (λ text. AreHeld log.now (map (λ v. v.items) lists.now)) }
{
    let mut text = Vec::new(alloc);
    push_text(&mut text, "certificate 1\n")?;
    push_log(&mut text, log)?;
    push_lists(&mut text, lists)?;
    push_text(&mut text, "end\n")?;
    Ok(text)
}

fn push_text(text: &mut Vec<u8>, more: &str) -> Result<(), NoMemory>
    ensures { OnOk result (text.new.items ≡ text.old.items ++ more.now) }
{
    match text.extend_from_slice(more.as_bytes()) {
        Ok(()) => Ok(()),
        Err(_) => Err(NoMemory),
    }
}

fn push_log(text: &mut Vec<u8>, log: &[Change]) -> Result<(), NoMemory>
    ensures text { OnOk result (text.new.items ≡ text.old.items ++ flat_map change_line log.now) }
    ensures held { OnOk result (IsLogHeld log.now) }
{
    for at in 0..log.len() {
        let line = of_change(&log[at]);
        push_text(text, line.as_str())?;
    }
    Ok(())
}

fn push_lists(text: &mut Vec<u8>, lists: &[Vec<Placed>]) -> Result<(), NoMemory>
    requires { length lists.now ≤ 64 }
    ensures text { OnOk result (text.new.items ≡ text.old.items ++ said_text 0 (map (λ v. v.items) lists.now)) }
    ensures held { OnOk result (AtEach (map (λ v. v.items) lists.now) (λ c mine. IsListHeld mine)) }
{
    for caller in 0..lists.len() {
        push_list(text, caller as u32, &lists[caller])?;
    }
    Ok(())
}

fn push_list(text: &mut Vec<u8>, caller: u32, list: &[Placed]) -> Result<(), NoMemory>
    ensures text { OnOk result (text.new.items ≡ text.old.items ++ flat_map (said_line caller) list.now) }
    ensures held { OnOk result (IsListHeld list.now) }
{
    for at in 0..list.len() {
        let line = of_said(caller, &list[at]);
        push_text(text, line.as_str())?;
    }
    Ok(())
}
