//! What each caller has to count: the pieces that it owns.

ghost use Rattle.std.specs.Prelude.{◌≡◌, ◌<◌, ◌≤◌, [], ◌∷◌, ◌++◌, All, map, length, replicate, IfOk};
ghost use Rattle.pp_model.specs.Lists.{AtEach};
ghost use Rattle.pp_callers.specs.Jobs.{AtBoth};
ghost use Rattle.pp_pieces.specs.Claims.{claims, all_claims};
ghost use Rattle.pp_pieces.specs.Counts.{CountedIn, owned};
ghost use Rattle.pp_claims.specs.Shares.{MayCount};

use pp_model::{Answer, Call, NoMemory};
use pp_pieces::claims::claims_of;
use pp_pieces::counting::count_owned;
use pp_running::jobs::append;
use std::alloc::Global;
use std::thread::{Threads, for_each_mut};

/// A caller's claims with their answers, and a count for each of the 256 byte values.
#[derive(Drop)]
pub struct Share<'a> {
    pub calls: Vec<Call>,
    pub answers: &'a [Answer],
    pub counts: Vec<u32>,
}

/// A table in which nothing is counted.
///
/// # Errors
///
/// There was no memory.
pub fn empty_counts(alloc: Global) -> Result<Vec<u32>, NoMemory>
    ensures { IfOk result (λ counts. counts.items ≡ replicate 256 0) }
{
    match Vec::from_elem(alloc, 0u32, 256) {
        Ok(counts) => Ok(counts),
        Err(_) => Err(NoMemory),
    }
}

/// One caller's share, with its claims made again, and nothing counted.
fn share_of<'a>(
    alloc: Global,
    callers: u32,
    pieces: u32,
    caller: u32,
    answers: &'a [Answer],
) -> Result<Share<'a>, NoMemory>
    requires callers { (1 ≤ callers) × (callers ≤ 64) }
    requires caller { caller < callers }
    requires few { pieces ≤ 4096 }
    ensures calls { IfOk result (λ share. share.calls.items ≡ claims callers pieces caller) }
    ensures answers { IfOk result (λ share. share.answers.now ≡ answers.now) }
    ensures empty { IfOk result (λ share. share.counts.items ≡ replicate 256 0) }
{
    let calls = claims_of(alloc, callers, pieces, caller)?;
    let counts = empty_counts(alloc)?;
    Ok(Share {
        calls,
        answers,
        counts,
    })
}

/// Each caller's share, with nothing counted.
///
/// # Errors
///
/// There was no memory.
pub fn shares_of<'a>(
    alloc: Global,
    callers: u32,
    pieces: u32,
    answers: &'a [Vec<Answer>],
) -> Result<Vec<Share<'a>>, NoMemory>
    requires callers { (1 ≤ callers) × (callers ≤ 64) }
    requires few { pieces ≤ 4096 }
    requires each { length answers.now ≡ callers }
    ensures calls { IfOk result (λ shares. map (λ s. s.calls.items) shares.items ≡ all_claims callers pieces) }
    ensures answers { IfOk result (λ shares. map (λ s. s.answers.now) shares.items ≡ map (λ v. v.items) answers.now) }
    ensures empty { IfOk result (λ shares. All (λ s. s.counts.items ≡ replicate 256 0) shares.items) }
{
    let Ok(mut shares) = Vec::with_capacity(alloc, callers as usize) else {
        return Err(NoMemory);
    };
    for caller in 0..callers {
        let given = answers[caller as usize].as_slice();
        let share = share_of(alloc, callers, pieces, caller, given)?;
        append(&mut shares, share)?;
    }
    Ok(shares)
}

/// The counts of all shares.
///
/// # Errors
///
/// There was no memory.
pub fn counts_of(alloc: Global, shares: Vec<Share<'_>>) -> Result<Vec<Vec<u32>>, NoMemory>
    ensures { IfOk result (λ counts. counts.items ≡ map (λ s. s.counts) shares.entry.items) }
{
    let Ok(mut counts) = Vec::with_capacity(alloc, shares.len()) else {
        return Err(NoMemory);
    };
    for share in shares {
        let Share {
            calls: _,
            answers: _,
            counts: counted,
        } = share;
        append(&mut counts, counted)?;
    }
    Ok(counts)
}

/// Counts the bytes of the pieces that each caller owns, each caller's in a thread of its own.
pub fn count_shares<R: Threads + Sync>(rt: &R, bytes: &[u8], shares: &mut [Share<'_>])
    requires short { length bytes.now ≤ 16777216 }
    requires may { AtEach shares.old (λ c share. MayCount bytes.now share) }
    ensures { AtBoth shares.old shares.new (λ was share. (share.calls.items ≡ was.calls.items) × (share.answers.now ≡ was.answers.now)
        × CountedIn was.counts.items share.counts.items bytes.now (owned was.calls.items was.answers.now)) }
{
    let count = |_: usize, share: &mut Share<'_>|
        requires { (length bytes.now ≤ 16777216) × MayCount bytes.now share.now }
        ensures { (share.exit.now.calls.items ≡ share.entry.now.calls.items)
            × (share.exit.now.answers.now ≡ share.entry.now.answers.now)
            × CountedIn share.entry.now.counts.items share.exit.now.counts.items bytes.entry.now
            (owned share.entry.now.calls.items share.entry.now.answers.now) }
    { count_share(bytes, share) };
    for_each_mut(rt, shares, 64, &count);
}

/// Counts the bytes of the pieces that a caller owns.
fn count_share(bytes: &[u8], share: &mut Share<'_>)
    requires short { length bytes.now ≤ 16777216 }
    requires may { MayCount bytes.now share.old }
    ensures calls { share.new.calls.items ≡ share.old.calls.items }
    ensures answers { share.new.answers.now ≡ share.old.answers.now }
    ensures counted { CountedIn share.old.counts.items share.new.counts.items bytes.now
        (owned share.old.calls.items share.old.answers.now) }
{
    let Share {
        calls,
        answers,
        counts,
    } = share;
    count_owned(counts.as_mut_slice(), bytes, calls.as_slice(), answers);
}
