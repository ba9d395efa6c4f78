//! A run of a map of whichever kind, up to its last write.

ghost use Rattle.std.specs.Prelude.{◌≡◌, ℕ, List, map, length, [], None, Some};
ghost use Rattle.pp_devices.specs.Devices.{Device, device, world};
ghost use Rattle.pp_devices.specs.declared.ways.Way.TheVariants as Way;
ghost use Rattle.pp_model.specs.Lists.{AtEach};
ghost use Rattle.pp_model.specs.MapCalls.{IsClean};
ghost use Rattle.pp_replay.specs.Parts.{IsChosen};
ghost use Rattle.pp_replay.specs.Replay.{Cause, HasCalls, share_of, sizes_of};
ghost use Rattle.pp_replay.specs.View.{shown_run};
ghost use Rattle.pp_running.specs.Jobs.{AreCalls, HaveRoom, views_of};
ghost use Rattle.pp_running.specs.Run.{IsOpened};
ghost use Rattle.pp_words.specs.Words.{settings_of, InRange};

use crate::printing::finish;
use pp_devices::Way;
use pp_model::{Answer, Call, Closed, MapCalls};
use pp_outside::{Gate, Sink};
use pp_running::run_on;
use pp_words::Settings;
use std::alloc::Global;
use std::thread::Threads;

/// What a run came to: the way in which it ended, the closed map where there was one, and the callers' answers.
#[derive(Drop)]
pub struct Shown<W> {
    pub way: Way,
    pub closed: Option<Closed<W>>,
    pub answers: Vec<Vec<Answer>>,
}

/// Makes the calls of these lists on a map that has just started with these passes, closes it, and prints the answers and
/// the contents.
pub fn run_shown<R: Threads + Sync, M: MapCalls + Sync + Drop, K: Sink, G: Gate + Sync>(
    rt: &R,
    alloc: Global,
    chosen: M,
    passes: Vec<M::Pass>,
    settings: Settings,
    lists: Vec<Vec<Call>>,
    sink: &mut K,
    gate: &G,
) -> Shown<M::Witness>
where
    M::Pass: Send + Drop,
    M::Witness: Drop,
    requires within { InRange settings }
    requires calls { AreCalls settings.callers (map (λ v. v.items) lists.items) }
    requires chosen { IsChosen M.meaning (M.sizes chosen) settings }
    requires count { length passes.items ≡ settings.callers }
    requires passes { AtEach passes.items (λ c pass. M.Belongs chosen pass × M.Idle pass × IsOpened c (M.pass_view pass)) }
    requires shares { AtEach passes.items (λ c pass. (M.pass_view pass).share ≡ share_of settings.map (sizes_of settings) c) }
    requires clean { AtEach passes.items (λ c pass. IsClean M.meaning (M.sizes chosen) (M.pass_view pass)) }
    requires room { HaveRoom (views_of M.pass_view passes.items) (map (λ v. v.items) lists.items) }
    ensures { (words : List (List ℕ)) → (before : Device) → (after : Device) → settings_of words ≡ Some settings
        → HasCalls settings.make settings.callers before after (map (λ v. v.items) lists.items) → Cause result.way words
        (world before (device (K.written sink.old) (K.faults sink.old))) (world after (device (K.written sink.new) (K.faults sink.new)))
        (map (λ v. v.items) result.answers.items) (shown_run M.run_view result.closed) }
{
    let Ok(ran) = run_on(rt, alloc, chosen, passes, lists, settings.races, gate) else {
        return without_closing(alloc);
    };
    let way = finish(
        alloc,
        sink,
        settings.make,
        &ran.answers,
        ran.closed.contents(),
    );
    Shown {
        way,
        closed: Some(ran.closed),
        answers: ran.answers,
    }
}

/// There was no memory for a run.
pub fn without_closing<W: Drop>(alloc: Global) -> Shown<W>
    ensures { (result.way ≡ Way.NoMemory) × (result.closed ≡ None) × (result.answers.items ≡ []) }
{
    Shown {
        way: Way::NoMemory,
        closed: None,
        answers: Vec::new(alloc),
    }
}
