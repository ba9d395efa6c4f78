//! A tally on a map of whichever kind, up to its last write.

ghost use Rattle.std.specs.Prelude.{◌≡◌, ◌≤◌, ℕ, List, map, length, [], None, Some};
ghost use Rattle.pp_devices.specs.Devices.{Device, device, world};
ghost use Rattle.pp_devices.specs.declared.ways.Way.TheVariants as Way;
ghost use Rattle.pp_model.specs.Lists.{AtEach};
ghost use Rattle.pp_model.specs.MapCalls.{IsClean};
ghost use Rattle.pp_pieces.specs.Pieces.{pieces_of};
ghost use Rattle.pp_programs.specs.Causes.{Says};
ghost use Rattle.pp_replay.specs.Parts.{IsChosen};
ghost use Rattle.pp_replay.specs.Replay.{share_of, sizes_of};
ghost use Rattle.pp_replay.specs.View.{shown_run};
ghost use Rattle.pp_running.specs.Run.{IsOpened};
ghost use Rattle.pp_words.specs.Words.{InRange};
ghost use Rattle.pp_tally.specs.Tally.{Cause, WasRead, tally_view};

use crate::printing::finish;
use pp_claims::claiming::{Counts, claim_on};
use pp_devices::Way;
use pp_model::{Answer, Closed, MapCalls};
use pp_outside::{Gate, Sink};
use pp_pieces::pieces::count_pieces;
use pp_words::Settings;
use std::alloc::Global;
use std::thread::Threads;

/// What a tally came to: the way in which it ended, the closed map where there was one, the answers to the callers' claims, and the
/// counts.
#[derive(Drop)]
pub struct Shown<W> {
    pub way: Way,
    pub closed: Option<Closed<W>>,
    pub answers: Vec<Vec<Answer>>,
    pub counted: Counts,
}

/// Lets the callers claim the pieces of an input on a map that has just started with these passes, and prints the counts.
pub fn run_shown<R: Threads + Sync, M: MapCalls + Sync + Drop, K: Sink, G: Gate + Sync>(
    rt: &R,
    alloc: Global,
    chosen: M,
    passes: Vec<M::Pass>,
    settings: Settings,
    bytes: &[u8],
    sink: &mut K,
    gate: &G,
) -> Shown<M::Witness>
where
    M::Pass: Send + Drop,
    M::Witness: Drop,
    requires within { InRange settings }
    requires short { length bytes.now ≤ 16777216 }
    requires chosen { IsChosen M.meaning (M.sizes chosen) settings }
    requires count { length passes.items ≡ settings.callers }
    requires passes { AtEach passes.items (λ c pass. M.Belongs chosen pass × M.Idle pass × IsOpened c (M.pass_view pass)) }
    requires shares { AtEach passes.items (λ c pass. (M.pass_view pass).share ≡ share_of settings.map (sizes_of settings) c) }
    requires clean { AtEach passes.items (λ c pass. IsClean M.meaning (M.sizes chosen) (M.pass_view pass)) }
    requires room { AtEach passes.items (λ c pass. pieces_of (length bytes.now) ≤ (M.pass_view pass).room) }
    ensures { (words : List (List ℕ)) → (before : Device) → (after : Device) → Says words settings → WasRead before after bytes.now
        → Cause result.way words (world before (device (K.written sink.old) (K.faults sink.old)))
        (world after (device (K.written sink.new) (K.faults sink.new)))
        (tally_view (map (λ v. v.items) result.answers.items) (map (λ v. v.items) result.counted.counts.items) result.counted.rest.items
        (shown_run M.run_view result.closed)) }
{
    let Ok(claimed) = claim_on(
        rt,
        alloc,
        chosen,
        passes,
        settings.callers,
        bytes,
        settings.races,
        gate,
    ) else {
        return without_closing(alloc);
    };
    let way = finish(
        alloc,
        sink,
        bytes.len(),
        count_pieces(bytes.len()),
        &claimed.total,
    );
    Shown {
        way,
        closed: Some(claimed.closed),
        answers: claimed.answers,
        counted: Counts {
            counts: claimed.counts,
            rest: claimed.rest,
        },
    }
}

/// There was no memory for the claims or for counting.
fn without_closing<W: Drop>(alloc: Global) -> Shown<W>
    ensures { (result.way ≡ Way.NoMemory) × (result.closed ≡ None) × (result.answers.items ≡ []) × (result.counted.counts.items ≡ [])
        × (result.counted.rest.items ≡ []) }
{
    Shown {
        way: Way::NoMemory,
        closed: None,
        answers: Vec::new(alloc),
        counted: no_counts(alloc),
    }
}

/// Nothing was counted.
pub fn no_counts(alloc: Global) -> Counts
    ensures { (result.counts.items ≡ []) × (result.rest.items ≡ []) }
{
    Counts {
        counts: Vec::new(alloc),
        rest: Vec::new(alloc),
    }
}
