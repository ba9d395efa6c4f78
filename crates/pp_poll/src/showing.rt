//! A run by a plan of a map of whichever kind, up to its last write.

ghost use Rattle.std.specs.Prelude.{◌≡◌, ◌<◌, ℕ, List, map, length, [], None, Some};
ghost use Rattle.pp_devices.specs.Devices.{Device, device, world};
ghost use Rattle.pp_model.specs.Lists.{AtEach};
ghost use Rattle.pp_model.specs.MapCalls.{IsClean};
ghost use Rattle.pp_replay.specs.Replay.{share_of, sizes_of};
ghost use Rattle.pp_replay.specs.View.{shown_run};
ghost use Rattle.pp_running.specs.Jobs.{AreCalls, HaveRoom, views_of};
ghost use Rattle.pp_running.specs.Run.{IsOpened};
ghost use Rattle.pp_words.specs.Words.{settings_of, InRange};
ghost use Rattle.pp_poll.specs.Parts.{IsChosenToPoll, fault_way};
ghost use Rattle.pp_poll.specs.Polled.{Cause, HasInput};

use crate::input::Input;
use crate::printing::show;
use crate::ways::PolledWay;
use pp_devices::Way;
use pp_model::{Answer, Closed, MapCalls};
use pp_outside::Sink;
use pp_planned::{PlannedFault, run_by_plan};
use pp_schedule::Runner;
use pp_words::Settings;
use std::alloc::{AllocGlobal, Global};
use std::random::RandomSource;
use std::sync::Wait;

/// What a run came to: the way in which it ended, the closed map where there was one, and the callers' answers.
#[derive(Drop)]
pub struct Shown<W> {
    pub way: PolledWay,
    pub closed: Option<Closed<W>>,
    pub answers: Vec<Vec<Answer>>,
}

/// Makes the calls of this input by its plan on a map that has just started with these passes, closes it, and prints the answers and
/// the contents, or with places the certificate.
pub fn run_shown<R: Wait + RandomSource + AllocGlobal, X: Runner, M: MapCalls + Drop, K: Sink>(
    rt: &R,
    alloc: Global,
    runner: &mut X,
    chosen: M,
    passes: Vec<M::Pass>,
    places: bool,
    settings: Settings,
    input: Input,
    sink: &mut K,
) -> Shown<M::Witness>
where
    M::Pass: Drop,
    M::Going: Drop,
    M::Note: Drop,
    M::Witness: Drop,
    requires within { InRange settings }
    requires calls { AreCalls settings.callers (map (λ v. v.items) input.lists.items) }
    requires plan { AtEach input.plan.items (λ k c. c < settings.callers) }
    requires chosen { IsChosenToPoll M.meaning (M.sizes chosen) settings }
    requires count { length passes.items ≡ settings.callers }
    requires passes { AtEach passes.items (λ c pass. M.Belongs chosen pass × M.Idle pass × IsOpened c (M.pass_view pass)) }
    requires shares { AtEach passes.items (λ c pass. (M.pass_view pass).share ≡ share_of settings.map (sizes_of settings) c) }
    requires clean { AtEach passes.items (λ c pass. IsClean M.meaning (M.sizes chosen) (M.pass_view pass)) }
    requires room { HaveRoom (views_of M.pass_view passes.items) (map (λ v. v.items) input.lists.items) }
    ensures { (words : List (List ℕ)) → (before : Device) → (after : Device) → settings_of words ≡ Some settings
        → HasInput settings.make settings.callers before after (map (λ v. v.items) input.lists.items) input.plan.items
        → Cause result.way places words
        (world before (device (K.written sink.old) (K.faults sink.old))) (world after (device (K.written sink.new) (K.faults sink.new)))
        (X.faults runner.old) (X.faults runner.new) (map (λ v. v.items) result.answers.items) (shown_run M.run_view result.closed) }
{
    let Input { lists, plan } = input;
    let planned = match run_by_plan(
        rt,
        alloc,
        runner,
        chosen,
        passes,
        lists,
        settings.races,
        plan,
    ) {
        Ok(planned) => planned,
        Err(fault) => return without_closing(alloc, way_of(fault)),
    };
    let way = show(
        alloc,
        sink,
        places,
        settings.make,
        &planned.lists,
        &planned.ran.answers,
        &planned.marks,
        planned.ran.closed.contents(),
    );
    Shown {
        way: PolledWay::Ended(way),
        closed: Some(planned.ran.closed),
        answers: planned.ran.answers,
    }
}

/// The way of a replay whose run by a plan gave nothing.
fn way_of(fault: PlannedFault) -> PolledWay
    ensures { result ≡ fault_way fault }
{
    match fault {
        PlannedFault::Failed => PolledWay::NotRun,
        PlannedFault::NoMemory => PolledWay::Ended(Way::NoMemory),
    }
}

/// There was no run.
pub fn without_closing<W: Drop>(alloc: Global, way: PolledWay) -> Shown<W>
    ensures { (result.way ≡ way) × (result.closed ≡ None) × (result.answers.items ≡ []) }
{
    Shown {
        way,
        closed: None,
        answers: Vec::new(alloc),
    }
}
