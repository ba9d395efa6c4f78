//! The calls by which callers claim pieces.

ghost use Rattle.std.specs.Prelude.{◌≡◌, ◌<◌, ◌≤◌, [], ◌∷◌, ◌++◌, map, IfOk, OnOk};
ghost use Rattle.pp_pieces.specs.Claims.{claim, claims, all_claims};

use pp_model::{Call, NoMemory};
use std::alloc::Global;

/// The claim that a caller makes after so many others: it begins at its part of the pieces, and goes round.
fn claim_at(callers: u32, pieces: u32, caller: u32, turn: u32) -> Call
    requires callers { (1 ≤ callers) × (callers ≤ 64) }
    requires caller { caller < callers }
    requires few { pieces ≤ 4096 }
    requires turn { turn < pieces }
    ensures { result ≡ claim callers pieces caller turn }
{
    let first = caller * pieces / callers;
    Call::Insert {
        key: u64::from((first + turn) % pieces),
        value: u128::from(caller),
    }
}

/// Appends an item.
fn append<T: Drop>(list: &mut Vec<T>, item: T) -> Result<(), NoMemory>
    ensures { OnOk result (list.new.items ≡ list.old.items ++ item ∷ []) }
{
    match list.push(item) {
        Ok(()) => Ok(()),
        Err(_) => Err(NoMemory),
    }
}

/// The claims of a caller, one for each piece.
///
/// # Errors
///
/// There was no memory.
pub fn claims_of(
    alloc: Global,
    callers: u32,
    pieces: u32,
    caller: u32,
) -> Result<Vec<Call>, NoMemory>
    requires callers { (1 ≤ callers) × (callers ≤ 64) }
    requires caller { caller < callers }
    requires few { pieces ≤ 4096 }
    ensures { IfOk result (λ calls. calls.items ≡ claims callers pieces caller) }
{
    let Ok(mut calls) = Vec::with_capacity(alloc, pieces as usize) else {
        return Err(NoMemory);
    };
    for turn in 0..pieces {
        append(&mut calls, claim_at(callers, pieces, caller, turn))?;
    }
    Ok(calls)
}

/// The claims of all callers, each of which claims every piece.
///
/// # Errors
///
/// There was no memory.
pub fn all_claims_of(alloc: Global, callers: u32, pieces: u32) -> Result<Vec<Vec<Call>>, NoMemory>
    requires callers { (1 ≤ callers) × (callers ≤ 64) }
    requires few { pieces ≤ 4096 }
    ensures { IfOk result (λ lists. map (λ v. v.items) lists.items ≡ all_claims callers pieces) }
{
    let Ok(mut lists) = Vec::with_capacity(alloc, callers as usize) else {
        return Err(NoMemory);
    };
    for caller in 0..callers {
        let calls = claims_of(alloc, callers, pieces, caller)?;
        append(&mut lists, calls)?;
    }
    Ok(lists)
}
