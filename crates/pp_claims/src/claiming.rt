//! Claims on a map: each caller claims every piece of an input, and counts those that it owns.

ghost use Rattle.std.specs.Prelude.{◌≡◌, ◌≤◌, map, length, replicate, IfOk};
ghost use Rattle.pp_model.specs.History.{contents_of};
ghost use Rattle.pp_model.specs.Lists.{AtEach};
ghost use Rattle.pp_pieces.specs.Claims.{all_claims};
ghost use Rattle.pp_pieces.specs.Counts.{Counted};
ghost use Rattle.pp_pieces.specs.Pieces.{pieces_of};
ghost use Rattle.pp_running.specs.Jobs.{views_of};
ghost use Rattle.pp_running.specs.Run.{IsRunOf, IsOpened};
ghost use Rattle.pp_claims.specs.Claimed.{AreOwned, AreCounted};

use crate::rest::count_rest;
use crate::shares::{count_shares, counts_of, shares_of};
use crate::totals::total_of;
use pp_model::{Answer, Closed, MapCalls, NoMemory};
use pp_outside::Gate;
use pp_pieces::claims::all_claims_of;
use pp_pieces::pieces::count_pieces;
use pp_running::run_on;
use std::alloc::Global;
use std::thread::Threads;

/// What claims came to: the callers' answers, each caller's counts of the pieces that it owns, the counts of the pieces left over, the
/// sum of all counts, and the closed map.
#[derive(Drop)]
pub struct Claimed<W> {
    pub answers: Vec<Vec<Answer>>,
    pub counts: Vec<Vec<u32>>,
    pub rest: Vec<u32>,
    pub total: Vec<u32>,
    pub closed: Closed<W>,
}

/// Each caller's counts, and those of the pieces left over.
#[derive(Drop)]
pub struct Counts {
    pub counts: Vec<Vec<u32>>,
    pub rest: Vec<u32>,
}

/// Lets so many callers claim the pieces of an input on a map that has just started with these passes, closes the map, and counts the
/// pieces by their owners, those left over last.
///
/// # Errors
///
/// There was no memory.
pub fn claim_on<R: Threads + Sync, M: MapCalls + Sync + Drop, G: Gate + Sync>(
    rt: &R,
    alloc: Global,
    chosen: M,
    passes: Vec<M::Pass>,
    callers: u32,
    bytes: &[u8],
    races: u64,
    gate: &G,
) -> Result<Claimed<M::Witness>, NoMemory>
where
    M::Pass: Send + Drop,
    M::Witness: Drop,
    requires passes { AtEach passes.items (λ c pass. M.Belongs chosen pass × M.Idle pass × IsOpened c (M.pass_view pass)) }
    requires all { length passes.items ≡ (M.sizes chosen).passes }
    requires callers { (1 ≤ callers) × (callers ≤ 64) }
    requires count { length passes.items ≡ callers }
    requires short { length bytes.now ≤ 16777216 }
    requires room { AtEach passes.items (λ c pass. pieces_of (length bytes.now) ≤ (M.pass_view pass).room) }
    requires races { 1 ≤ races }
    ensures ran { IfOk result (λ got. IsRunOf M.meaning (M.sizes chosen) races (views_of M.pass_view passes.items)
        (all_claims callers (pieces_of (length bytes.now))) (map (λ v. v.items) got.answers.items) (M.run_view got.closed.witness)) }
    ensures owned { IfOk result (λ got. AreOwned (pieces_of (length bytes.now)) (all_claims callers (pieces_of (length bytes.now)))
        (map (λ v. v.items) got.answers.items) (contents_of (M.run_view got.closed.witness).log)) }
    ensures counted { IfOk result (λ got. AreCounted bytes.now (pieces_of (length bytes.now))
        (all_claims callers (pieces_of (length bytes.now))) (map (λ v. v.items) got.answers.items) (map (λ v. v.items) got.counts.items)
        got.rest.items) }
    ensures total { IfOk result (λ got. Counted (replicate 256 0) got.total.items bytes.now) }
{
    let pieces = count_pieces(bytes.len());
    let lists = all_claims_of(alloc, callers, pieces)?;
    let ran = run_on(rt, alloc, chosen, passes, lists, races, gate)?;
    let counted = count_claims(rt, alloc, callers, bytes, &ran.answers)?;
    let total = total_of(alloc, &counted.counts, &counted.rest)?;
    Ok(Claimed {
        answers: ran.answers,
        counts: counted.counts,
        rest: counted.rest,
        total,
        closed: ran.closed,
    })
}

/// Counts the pieces of an input as the claims of so many callers were answered: each caller's own in its thread, and last those left
/// over.
///
/// # Errors
///
/// There was no memory.
pub fn count_claims<R: Threads + Sync>(
    rt: &R,
    alloc: Global,
    callers: u32,
    bytes: &[u8],
    answers: &[Vec<Answer>],
) -> Result<Counts, NoMemory>
    requires callers { (1 ≤ callers) × (callers ≤ 64) }
    requires short { length bytes.now ≤ 16777216 }
    requires each { length answers.now ≡ callers }
    requires answered { AtEach answers.now (λ c got. length got.items ≡ pieces_of (length bytes.now)) }
    ensures { IfOk result (λ all. AreCounted bytes.now (pieces_of (length bytes.now)) (all_claims callers (pieces_of (length bytes.now)))
        (map (λ v. v.items) answers.now) (map (λ v. v.items) all.counts.items) all.rest.items) }
{
    let pieces = count_pieces(bytes.len());
    let mut shares = shares_of(alloc, callers, pieces, answers)?;
    count_shares(rt, bytes, shares.as_mut_slice());
    let rest = count_rest(alloc, bytes, pieces, &shares)?;
    let counts = counts_of(alloc, shares)?;
    Ok(Counts { counts, rest })
}
