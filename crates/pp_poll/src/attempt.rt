//! A replay by a plan up to its last write: words, calls and plan, the run and its text.

ghost use Rattle.std.specs.Prelude.{◌≡◌, ◌<◌, ◌≤◌, ℕ, List, map, length, [], Some, true, string_bytes};
ghost use Rattle.pp_words.specs.declared.Kind.TheVariants as Kind;
ghost use Rattle.pp_words.specs.Words.{settings_of, InRange};
ghost use Rattle.pp_replay.specs.declared.ending.Kept.TheVariants as Kept;
ghost use Rattle.pp_running.specs.Jobs.{AreCalls};
ghost use Rattle.pp_replay.specs.View.{kept_run};
ghost use Rattle.pp_devices.specs.Devices.{Device, device, world};
ghost use Rattle.pp_replay.specs.Parts.{IsTable};
ghost use Rattle.pp_model.specs.Lists.{AtEach};
ghost use Rattle.pp_poll.specs.Polled.{Cause, HasInput};
ghost use Rattle.pp_poll.specs.Certificates.{asks_places, setting_words};

use crate::input::{Input, take_input};
use crate::showing::run_shown;
use crate::ways::PolledWay;
use pp_buckets::Buckets;
use pp_devices::Way;
use pp_model::{Answer, PlainMap};
use pp_outside::{Sink, Source};
use pp_replay::Kept;
use pp_replay::ending::{kept_plain, kept_table, kept_tree};
use pp_schedule::Runner;
use pp_tree::Tree;
use pp_words::words::settings;
use pp_words::{Kind, Settings, WordsFault};
use std::alloc::{AllocGlobal, Global};
use std::random::RandomSource;
use std::sync::Wait;

/// What a replay came to: the way in which it ended, the closed map where there was one, and the callers' answers.
#[derive(Drop)]
pub struct Attempt {
    pub way: PolledWay,
    pub kept: Kept,
    pub answers: Vec<Vec<Answer>>,
}

/// Makes a replay. The causes of its way are those of the ending. Where the first word is `places`, the others say the settings.
pub fn make_attempt<R: Wait + RandomSource + AllocGlobal, X: Runner, S: Source, K: Sink>(
    rt: &R,
    alloc: Global,
    words: &[String],
    runner: &mut X,
    source: &mut S,
    sink: &mut K,
) -> Attempt
    ensures { Cause result.way (asks_places (map string_bytes words.now)) (setting_words (map string_bytes words.now))
        (world (device (S.left source.old) (S.faults source.old)) (device (K.written sink.old) (K.faults sink.old)))
        (world (device (S.left source.new) (S.faults source.new)) (device (K.written sink.new) (K.faults sink.new)))
        (X.faults runner.old) (X.faults runner.new) (map (λ v. v.items) result.answers.items) (kept_run result.kept) }
{
    if asks_places(words) {
        attempt_with(rt, alloc, true, &words[1..], runner, source, sink)
    } else {
        attempt_with(rt, alloc, false, words, runner, source, sink)
    }
}

/// Whether the first word asks for the certificate.
fn asks_places(words: &[String]) -> bool
    ensures asks { result ≡ asks_places (map string_bytes words.now) }
    ensures some { result ≡ true → 1 ≤ length words.now }
{
    !words.is_empty() && words[0].as_str() == "places"
}

/// Makes a replay with these words for settings.
fn attempt_with<R: Wait + RandomSource + AllocGlobal, X: Runner, S: Source, K: Sink>(
    rt: &R,
    alloc: Global,
    places: bool,
    words: &[String],
    runner: &mut X,
    source: &mut S,
    sink: &mut K,
) -> Attempt
    ensures { Cause result.way places (map string_bytes words.now)
        (world (device (S.left source.old) (S.faults source.old)) (device (K.written sink.old) (K.faults sink.old)))
        (world (device (S.left source.new) (S.faults source.new)) (device (K.written sink.new) (K.faults sink.new)))
        (X.faults runner.old) (X.faults runner.new) (map (λ v. v.items) result.answers.items) (kept_run result.kept) }
{
    match settings(alloc, words) {
        Ok(settings) => attempt_under(rt, alloc, runner, places, settings, source, sink),
        Err(WordsFault::BadWords) => without_run(alloc, PolledWay::Ended(Way::BadWords)),
        Err(WordsFault::NoMemory) => without_run(alloc, PolledWay::Ended(Way::NoMemory)),
    }
}

fn without_run(alloc: Global, way: PolledWay) -> Attempt
    ensures { (result.way ≡ way) × (result.kept ≡ Kept.Nothing) × (result.answers.items ≡ []) }
{
    Attempt {
        way,
        kept: Kept::Nothing,
        answers: Vec::new(alloc),
    }
}

fn attempt_under<R: Wait + RandomSource + AllocGlobal, X: Runner, S: Source, K: Sink>(
    rt: &R,
    alloc: Global,
    runner: &mut X,
    places: bool,
    settings: Settings,
    source: &mut S,
    sink: &mut K,
) -> Attempt
    requires { InRange settings }
    ensures { (words : List (List ℕ)) → settings_of words ≡ Some settings → Cause result.way places words
        (world (device (S.left source.old) (S.faults source.old)) (device (K.written sink.old) (K.faults sink.old)))
        (world (device (S.left source.new) (S.faults source.new)) (device (K.written sink.new) (K.faults sink.new)))
        (X.faults runner.old) (X.faults runner.new) (map (λ v. v.items) result.answers.items) (kept_run result.kept) }
{
    match take_input(alloc, settings.make, settings.callers, source) {
        Ok(input) => run_chosen(rt, alloc, runner, places, settings, input, sink),
        Err(way) => without_run(alloc, way),
    }
}

/// Runs the map that the settings choose.
fn run_chosen<R: Wait + RandomSource + AllocGlobal, X: Runner, K: Sink>(
    rt: &R,
    alloc: Global,
    runner: &mut X,
    places: bool,
    settings: Settings,
    input: Input,
    sink: &mut K,
) -> Attempt
    requires within { InRange settings }
    requires calls { AreCalls settings.callers (map (λ v. v.items) input.lists.items) }
    requires plan { AtEach input.plan.items (λ k c. c < settings.callers) }
    ensures { (words : List (List ℕ)) → (before : Device) → (after : Device) → settings_of words ≡ Some settings
        → HasInput settings.make settings.callers before after (map (λ v. v.items) input.lists.items) input.plan.items
        → Cause result.way places words
        (world before (device (K.written sink.old) (K.faults sink.old))) (world after (device (K.written sink.new) (K.faults sink.new)))
        (X.faults runner.old) (X.faults runner.new) (map (λ v. v.items) result.answers.items) (kept_run result.kept) }
{
    match settings.map {
        Kind::Plain => run_plain(rt, alloc, runner, places, settings, input, sink),
        Kind::List => run_table(rt, alloc, runner, places, settings, 1, input, sink),
        Kind::Hash => run_table(
            rt,
            alloc,
            runner,
            places,
            settings,
            settings.buckets,
            input,
            sink,
        ),
        Kind::Tree => run_tree(rt, alloc, runner, places, settings, input, sink),
    }
}

fn run_plain<R: Wait + RandomSource + AllocGlobal, X: Runner, K: Sink>(
    rt: &R,
    alloc: Global,
    runner: &mut X,
    places: bool,
    settings: Settings,
    input: Input,
    sink: &mut K,
) -> Attempt
    requires within { InRange settings }
    requires plain { settings.map ≡ Kind.Plain }
    requires calls { AreCalls settings.callers (map (λ v. v.items) input.lists.items) }
    requires plan { AtEach input.plan.items (λ k c. c < settings.callers) }
    ensures { (words : List (List ℕ)) → (before : Device) → (after : Device) → settings_of words ≡ Some settings
        → HasInput settings.make settings.callers before after (map (λ v. v.items) input.lists.items) input.plan.items
        → Cause result.way places words
        (world before (device (K.written sink.old) (K.faults sink.old))) (world after (device (K.written sink.new) (K.faults sink.new)))
        (X.faults runner.old) (X.faults runner.new) (map (λ v. v.items) result.answers.items) (kept_run result.kept) }
{
    let calls = input.lists[0].len() as u32;
    let Ok((chosen, pass)) = PlainMap::start(alloc, settings.records, calls) else {
        return without_run(alloc, PolledWay::Ended(Way::NoMemory));
    };
    let Ok(passes) = Vec::from_array(alloc, [pass]) else {
        return without_run(alloc, PolledWay::Ended(Way::NoMemory));
    };
    let shown = run_shown(
        rt, alloc, runner, chosen, passes, places, settings, input, sink,
    );
    Attempt {
        way: shown.way,
        kept: kept_plain(shown.closed),
        answers: shown.answers,
    }
}

/// Runs a list or a hash table: a table of so many buckets.
fn run_table<R: Wait + RandomSource + AllocGlobal, X: Runner, K: Sink>(
    rt: &R,
    alloc: Global,
    runner: &mut X,
    places: bool,
    settings: Settings,
    buckets: u32,
    input: Input,
    sink: &mut K,
) -> Attempt
    requires within { InRange settings }
    requires table { IsTable settings buckets }
    requires calls { AreCalls settings.callers (map (λ v. v.items) input.lists.items) }
    requires plan { AtEach input.plan.items (λ k c. c < settings.callers) }
    ensures { (words : List (List ℕ)) → (before : Device) → (after : Device) → settings_of words ≡ Some settings
        → HasInput settings.make settings.callers before after (map (λ v. v.items) input.lists.items) input.plan.items
        → Cause result.way places words
        (world before (device (K.written sink.old) (K.faults sink.old))) (world after (device (K.written sink.new) (K.faults sink.new)))
        (X.faults runner.old) (X.faults runner.new) (map (λ v. v.items) result.answers.items) (kept_run result.kept) }
{
    let Ok((chosen, passes)) = Buckets::start(alloc, settings.callers, settings.records, buckets)
    else {
        return without_run(alloc, PolledWay::Ended(Way::NoMemory));
    };
    let shown = run_shown(
        rt, alloc, runner, chosen, passes, places, settings, input, sink,
    );
    Attempt {
        way: shown.way,
        kept: kept_table(shown.closed),
        answers: shown.answers,
    }
}

fn run_tree<R: Wait + RandomSource + AllocGlobal, X: Runner, K: Sink>(
    rt: &R,
    alloc: Global,
    runner: &mut X,
    places: bool,
    settings: Settings,
    input: Input,
    sink: &mut K,
) -> Attempt
    requires within { InRange settings }
    requires tree { settings.map ≡ Kind.Tree }
    requires calls { AreCalls settings.callers (map (λ v. v.items) input.lists.items) }
    requires plan { AtEach input.plan.items (λ k c. c < settings.callers) }
    ensures { (words : List (List ℕ)) → (before : Device) → (after : Device) → settings_of words ≡ Some settings
        → HasInput settings.make settings.callers before after (map (λ v. v.items) input.lists.items) input.plan.items
        → Cause result.way places words
        (world before (device (K.written sink.old) (K.faults sink.old))) (world after (device (K.written sink.new) (K.faults sink.new)))
        (X.faults runner.old) (X.faults runner.new) (map (λ v. v.items) result.answers.items) (kept_run result.kept) }
{
    let Ok((chosen, passes)) = Tree::start(alloc, settings.callers, settings.records) else {
        return without_run(alloc, PolledWay::Ended(Way::NoMemory));
    };
    let shown = run_shown(
        rt, alloc, runner, chosen, passes, places, settings, input, sink,
    );
    Attempt {
        way: shown.way,
        kept: kept_tree(shown.closed),
        answers: shown.answers,
    }
}
