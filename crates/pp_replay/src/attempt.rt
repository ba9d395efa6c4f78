//! A replay up to its last write: words, calls, the run and its text.

ghost use Rattle.std.specs.Prelude.{◌≡◌, ℕ, List, map, [], Some, string_bytes};
ghost use Rattle.pp_words.specs.declared.Kind.TheVariants as Kind;
ghost use Rattle.pp_words.specs.Words.{settings_of, InRange};
ghost use Rattle.pp_replay.specs.declared.ending.Kept.TheVariants as Kept;
ghost use Rattle.pp_running.specs.Jobs.{AreCalls};
ghost use Rattle.pp_replay.specs.View.{kept_run};
ghost use Rattle.pp_devices.specs.Devices.{Device, device, world};
ghost use Rattle.pp_replay.specs.Parts.{IsTable};
ghost use Rattle.pp_replay.specs.Replay.{Cause, HasCalls};

use crate::Kept;
use crate::calls::take_calls;
use crate::ending::{kept_plain, kept_table, kept_tree};
use crate::showing::run_shown;
use pp_buckets::Buckets;
use pp_devices::Way;
use pp_model::{Answer, Call, PlainMap};
use pp_outside::{Gate, Sink, Source};
use pp_tree::Tree;
use pp_words::words::settings;
use pp_words::{Kind, Settings, WordsFault};
use std::alloc::Global;
use std::thread::Threads;

/// What a replay came to: the way in which it ended, the closed map where there was one, and the callers' answers.
#[derive(Drop)]
pub struct Attempt {
    pub way: Way,
    pub kept: Kept,
    pub answers: Vec<Vec<Answer>>,
}

/// Makes a replay. The causes of its way are those of the ending.
pub fn make_attempt<R: Threads + Sync, S: Source, K: Sink, G: Gate + Sync>(
    rt: &R,
    alloc: Global,
    words: &[String],
    source: &mut S,
    sink: &mut K,
    gate: &G,
) -> Attempt
    ensures { Cause result.way (map string_bytes words.now)
        (world (device (S.left source.old) (S.faults source.old)) (device (K.written sink.old) (K.faults sink.old)))
        (world (device (S.left source.new) (S.faults source.new)) (device (K.written sink.new) (K.faults sink.new)))
        (map (λ v. v.items) result.answers.items) (kept_run result.kept) }
{
    match settings(alloc, words) {
        Ok(settings) => attempt_under(rt, alloc, settings, source, sink, gate),
        Err(WordsFault::BadWords) => without_run(alloc, Way::BadWords),
        Err(WordsFault::NoMemory) => without_run(alloc, Way::NoMemory),
    }
}

fn without_run(alloc: Global, way: Way) -> Attempt
    ensures { (result.way ≡ way) × (result.kept ≡ Kept.Nothing) × (result.answers.items ≡ []) }
{
    Attempt {
        way,
        kept: Kept::Nothing,
        answers: Vec::new(alloc),
    }
}

fn attempt_under<R: Threads + Sync, S: Source, K: Sink, G: Gate + Sync>(
    rt: &R,
    alloc: Global,
    settings: Settings,
    source: &mut S,
    sink: &mut K,
    gate: &G,
) -> Attempt
    requires { InRange settings }
    ensures { (words : List (List ℕ)) → settings_of words ≡ Some settings → Cause result.way words
        (world (device (S.left source.old) (S.faults source.old)) (device (K.written sink.old) (K.faults sink.old)))
        (world (device (S.left source.new) (S.faults source.new)) (device (K.written sink.new) (K.faults sink.new)))
        (map (λ v. v.items) result.answers.items) (kept_run result.kept) }
{
    match take_calls(alloc, settings.make, settings.callers, source) {
        Ok(lists) => run_chosen(rt, alloc, settings, lists, sink, gate),
        Err(way) => without_run(alloc, way),
    }
}

/// Runs the map that the settings choose.
fn run_chosen<R: Threads + Sync, K: Sink, G: Gate + Sync>(
    rt: &R,
    alloc: Global,
    settings: Settings,
    lists: Vec<Vec<Call>>,
    sink: &mut K,
    gate: &G,
) -> Attempt
    requires within { InRange settings }
    requires calls { AreCalls settings.callers (map (λ v. v.items) lists.items) }
    ensures { (words : List (List ℕ)) → (before : Device) → (after : Device) → settings_of words ≡ Some settings
        → HasCalls settings.make settings.callers before after (map (λ v. v.items) lists.items) → Cause result.way words
        (world before (device (K.written sink.old) (K.faults sink.old))) (world after (device (K.written sink.new) (K.faults sink.new)))
        (map (λ v. v.items) result.answers.items) (kept_run result.kept) }
{
    match settings.map {
        Kind::Plain => run_plain(rt, alloc, settings, lists, sink, gate),
        Kind::List => run_table(rt, alloc, settings, 1, lists, sink, gate),
        Kind::Hash => run_table(rt, alloc, settings, settings.buckets, lists, sink, gate),
        Kind::Tree => run_tree(rt, alloc, settings, lists, sink, gate),
    }
}

fn run_plain<R: Threads + Sync, K: Sink, G: Gate + Sync>(
    rt: &R,
    alloc: Global,
    settings: Settings,
    lists: Vec<Vec<Call>>,
    sink: &mut K,
    gate: &G,
) -> Attempt
    requires within { InRange settings }
    requires plain { settings.map ≡ Kind.Plain }
    requires calls { AreCalls settings.callers (map (λ v. v.items) lists.items) }
    ensures { (words : List (List ℕ)) → (before : Device) → (after : Device) → settings_of words ≡ Some settings
        → HasCalls settings.make settings.callers before after (map (λ v. v.items) lists.items) → Cause result.way words
        (world before (device (K.written sink.old) (K.faults sink.old))) (world after (device (K.written sink.new) (K.faults sink.new)))
        (map (λ v. v.items) result.answers.items) (kept_run result.kept) }
{
    let calls = lists[0].len() as u32;
    let Ok((chosen, pass)) = PlainMap::start(alloc, settings.records, calls) else {
        return without_run(alloc, Way::NoMemory);
    };
    let Ok(passes) = Vec::from_array(alloc, [pass]) else {
        return without_run(alloc, Way::NoMemory);
    };
    let shown = run_shown(rt, alloc, chosen, passes, settings, lists, sink, gate);
    Attempt {
        way: shown.way,
        kept: kept_plain(shown.closed),
        answers: shown.answers,
    }
}

/// Runs a list or a hash table: a table of so many buckets.
fn run_table<R: Threads + Sync, K: Sink, G: Gate + Sync>(
    rt: &R,
    alloc: Global,
    settings: Settings,
    buckets: u32,
    lists: Vec<Vec<Call>>,
    sink: &mut K,
    gate: &G,
) -> Attempt
    requires within { InRange settings }
    requires table { IsTable settings buckets }
    requires calls { AreCalls settings.callers (map (λ v. v.items) lists.items) }
    ensures { (words : List (List ℕ)) → (before : Device) → (after : Device) → settings_of words ≡ Some settings
        → HasCalls settings.make settings.callers before after (map (λ v. v.items) lists.items) → Cause result.way words
        (world before (device (K.written sink.old) (K.faults sink.old))) (world after (device (K.written sink.new) (K.faults sink.new)))
        (map (λ v. v.items) result.answers.items) (kept_run result.kept) }
{
    let Ok((chosen, passes)) = Buckets::start(alloc, settings.callers, settings.records, buckets)
    else {
        return without_run(alloc, Way::NoMemory);
    };
    let shown = run_shown(rt, alloc, chosen, passes, settings, lists, sink, gate);
    Attempt {
        way: shown.way,
        kept: kept_table(shown.closed),
        answers: shown.answers,
    }
}

fn run_tree<R: Threads + Sync, K: Sink, G: Gate + Sync>(
    rt: &R,
    alloc: Global,
    settings: Settings,
    lists: Vec<Vec<Call>>,
    sink: &mut K,
    gate: &G,
) -> Attempt
    requires within { InRange settings }
    requires tree { settings.map ≡ Kind.Tree }
    requires calls { AreCalls settings.callers (map (λ v. v.items) lists.items) }
    ensures { (words : List (List ℕ)) → (before : Device) → (after : Device) → settings_of words ≡ Some settings
        → HasCalls settings.make settings.callers before after (map (λ v. v.items) lists.items) → Cause result.way words
        (world before (device (K.written sink.old) (K.faults sink.old))) (world after (device (K.written sink.new) (K.faults sink.new)))
        (map (λ v. v.items) result.answers.items) (kept_run result.kept) }
{
    let Ok((chosen, passes)) = Tree::start(alloc, settings.callers, settings.records) else {
        return without_run(alloc, Way::NoMemory);
    };
    let shown = run_shown(rt, alloc, chosen, passes, settings, lists, sink, gate);
    Attempt {
        way: shown.way,
        kept: kept_tree(shown.closed),
        answers: shown.answers,
    }
}
