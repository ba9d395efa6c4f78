//! A tally up to its last write: words, bytes, the claims and the counts.

ghost use Rattle.std.specs.Prelude.{◌≡◌, ◌≤◌, ℕ, List, map, [], length, None, Some, IfOk, IfErr, string_bytes};
ghost use Rattle.pp_words.specs.declared.Kind.TheVariants as Kind;
ghost use Rattle.pp_words.specs.Words.{settings_of, InRange};
ghost use Rattle.pp_programs.specs.Causes.{Says};
ghost use Rattle.pp_replay.specs.declared.ending.Kept.TheVariants as Kept;
ghost use Rattle.pp_replay.specs.Parts.{IsTable};
ghost use Rattle.pp_replay.specs.View.{kept_run};
ghost use Rattle.pp_devices.specs.Devices.{Device, device, world};
ghost use Rattle.pp_tally.specs.Parts.{HasNoBytes};
ghost use Rattle.pp_tally.specs.Tally.{Cause, WasRead, tally_view};

use crate::showing::{no_counts, run_shown};
use pp_buckets::Buckets;
use pp_claims::claiming::Counts;
use pp_devices::Way;
use pp_model::{Answer, PlainMap};
use pp_outside::{Gate, ReadFault, Sink, Source, read_all};
use pp_pieces::pieces::count_pieces;
use pp_replay::Kept;
use pp_replay::ending::{kept_plain, kept_table, kept_tree};
use pp_tree::Tree;
use pp_words::words::settings;
use pp_words::{Kind, Settings, WordsFault};
use std::alloc::Global;
use std::thread::Threads;

/// An input has at most this many bytes.
const LONGEST: u32 = 16_777_216;

/// What a tally came to: the way in which it ended, the closed map where there was one, the answers to the callers' claims, and the
/// counts.
#[derive(Drop)]
pub struct Attempt {
    pub way: Way,
    pub kept: Kept,
    pub answers: Vec<Vec<Answer>>,
    pub counted: Counts,
}

/// Makes a tally. The causes of its way are those of the ending.
pub fn make_attempt<R: Threads + Sync, S: Source, K: Sink, G: Gate + Sync>(
    rt: &R,
    alloc: Global,
    words: &[String],
    source: &mut S,
    sink: &mut K,
    gate: &G,
) -> Attempt
    ensures { Cause result.way (map string_bytes words.now)
        (world (device (S.left source.old) (S.faults source.old)) (device (K.written sink.old) (K.faults sink.old)))
        (world (device (S.left source.new) (S.faults source.new)) (device (K.written sink.new) (K.faults sink.new)))
        (tally_view (map (λ v. v.items) result.answers.items) (map (λ v. v.items) result.counted.counts.items) result.counted.rest.items
        (kept_run result.kept)) }
{
    match settings(alloc, words) {
        Ok(settings) => attempt_under(rt, alloc, settings, source, sink, gate),
        Err(WordsFault::BadWords) => without_run(alloc, Way::BadWords),
        Err(WordsFault::NoMemory) => without_run(alloc, Way::NoMemory),
    }
}

fn without_run(alloc: Global, way: Way) -> Attempt
    ensures { (result.way ≡ way) × (result.kept ≡ Kept.Nothing) × (result.answers.items ≡ []) × (result.counted.counts.items ≡ [])
        × (result.counted.rest.items ≡ []) }
{
    Attempt {
        way,
        kept: Kept::Nothing,
        answers: Vec::new(alloc),
        counted: no_counts(alloc),
    }
}

fn attempt_under<R: Threads + Sync, S: Source, K: Sink, G: Gate + Sync>(
    rt: &R,
    alloc: Global,
    settings: Settings,
    source: &mut S,
    sink: &mut K,
    gate: &G,
) -> Attempt
    requires { InRange settings }
    ensures { (words : List (List ℕ)) → settings_of words ≡ Some settings → Cause result.way words
        (world (device (S.left source.old) (S.faults source.old)) (device (K.written sink.old) (K.faults sink.old)))
        (world (device (S.left source.new) (S.faults source.new)) (device (K.written sink.new) (K.faults sink.new)))
        (tally_view (map (λ v. v.items) result.answers.items) (map (λ v. v.items) result.counted.counts.items) result.counted.rest.items
        (kept_run result.kept)) }
{
    if settings.make.is_some() {
        return without_run(alloc, Way::BadWords);
    }
    match read_bytes(alloc, source) {
        Ok(bytes) => run_chosen(rt, alloc, settings, &bytes, sink, gate),
        Err(way) => without_run(alloc, way),
    }
}

/// The bytes of the source.
///
/// # Errors
///
/// The way in which the tally ends without them.
fn read_bytes<S: Source>(alloc: Global, source: &mut S) -> Result<Vec<u8>, Way>
    ensures bytes { IfOk result (λ bytes. WasRead (device (S.left source.old) (S.faults source.old))
        (device (S.left source.new) (S.faults source.new)) bytes.items) }
    ensures none { IfErr result (λ way. HasNoBytes way (device (S.left source.old) (S.faults source.old))
        (device (S.left source.new) (S.faults source.new))) }
{
    match read_all(alloc, source, LONGEST) {
        Ok(bytes) => Ok(bytes),
        Err(ReadFault::Failed) => Err(Way::Unread),
        Err(ReadFault::TooLong) => Err(Way::TooLong),
        Err(ReadFault::NoMemory) => Err(Way::NoMemory),
    }
}

/// Runs the map that the settings choose.
fn run_chosen<R: Threads + Sync, K: Sink, G: Gate + Sync>(
    rt: &R,
    alloc: Global,
    settings: Settings,
    bytes: &[u8],
    sink: &mut K,
    gate: &G,
) -> Attempt
    requires within { InRange settings }
    requires short { length bytes.now ≤ 16777216 }
    ensures { (words : List (List ℕ)) → (before : Device) → (after : Device) → Says words settings → WasRead before after bytes.now
        → Cause result.way words (world before (device (K.written sink.old) (K.faults sink.old)))
        (world after (device (K.written sink.new) (K.faults sink.new)))
        (tally_view (map (λ v. v.items) result.answers.items) (map (λ v. v.items) result.counted.counts.items) result.counted.rest.items
        (kept_run result.kept)) }
{
    match settings.map {
        Kind::Plain => run_plain(rt, alloc, settings, bytes, sink, gate),
        Kind::List => run_table(rt, alloc, settings, 1, bytes, sink, gate),
        Kind::Hash => run_table(rt, alloc, settings, settings.buckets, bytes, sink, gate),
        Kind::Tree => run_tree(rt, alloc, settings, bytes, sink, gate),
    }
}

fn run_plain<R: Threads + Sync, K: Sink, G: Gate + Sync>(
    rt: &R,
    alloc: Global,
    settings: Settings,
    bytes: &[u8],
    sink: &mut K,
    gate: &G,
) -> Attempt
    requires within { InRange settings }
    requires plain { settings.map ≡ Kind.Plain }
    requires short { length bytes.now ≤ 16777216 }
    ensures { (words : List (List ℕ)) → (before : Device) → (after : Device) → Says words settings → WasRead before after bytes.now
        → Cause result.way words (world before (device (K.written sink.old) (K.faults sink.old)))
        (world after (device (K.written sink.new) (K.faults sink.new)))
        (tally_view (map (λ v. v.items) result.answers.items) (map (λ v. v.items) result.counted.counts.items) result.counted.rest.items
        (kept_run result.kept)) }
{
    let pieces = count_pieces(bytes.len());
    let Ok((chosen, pass)) = PlainMap::start(alloc, settings.records, pieces) else {
        return without_run(alloc, Way::NoMemory);
    };
    let Ok(passes) = Vec::from_array(alloc, [pass]) else {
        return without_run(alloc, Way::NoMemory);
    };
    let shown = run_shown(rt, alloc, chosen, passes, settings, bytes, sink, gate);
    Attempt {
        way: shown.way,
        kept: kept_plain(shown.closed),
        answers: shown.answers,
        counted: shown.counted,
    }
}

/// Runs a list or a hash table: a table of so many buckets.
fn run_table<R: Threads + Sync, K: Sink, G: Gate + Sync>(
    rt: &R,
    alloc: Global,
    settings: Settings,
    buckets: u32,
    bytes: &[u8],
    sink: &mut K,
    gate: &G,
) -> Attempt
    requires within { InRange settings }
    requires table { IsTable settings buckets }
    requires short { length bytes.now ≤ 16777216 }
    ensures { (words : List (List ℕ)) → (before : Device) → (after : Device) → Says words settings → WasRead before after bytes.now
        → Cause result.way words (world before (device (K.written sink.old) (K.faults sink.old)))
        (world after (device (K.written sink.new) (K.faults sink.new)))
        (tally_view (map (λ v. v.items) result.answers.items) (map (λ v. v.items) result.counted.counts.items) result.counted.rest.items
        (kept_run result.kept)) }
{
    let Ok((chosen, passes)) = Buckets::start(alloc, settings.callers, settings.records, buckets)
    else {
        return without_run(alloc, Way::NoMemory);
    };
    let shown = run_shown(rt, alloc, chosen, passes, settings, bytes, sink, gate);
    Attempt {
        way: shown.way,
        kept: kept_table(shown.closed),
        answers: shown.answers,
        counted: shown.counted,
    }
}

fn run_tree<R: Threads + Sync, K: Sink, G: Gate + Sync>(
    rt: &R,
    alloc: Global,
    settings: Settings,
    bytes: &[u8],
    sink: &mut K,
    gate: &G,
) -> Attempt
    requires within { InRange settings }
    requires tree { settings.map ≡ Kind.Tree }
    requires short { length bytes.now ≤ 16777216 }
    ensures { (words : List (List ℕ)) → (before : Device) → (after : Device) → Says words settings → WasRead before after bytes.now
        → Cause result.way words (world before (device (K.written sink.old) (K.faults sink.old)))
        (world after (device (K.written sink.new) (K.faults sink.new)))
        (tally_view (map (λ v. v.items) result.answers.items) (map (λ v. v.items) result.counted.counts.items) result.counted.rest.items
        (kept_run result.kept)) }
{
    let Ok((chosen, passes)) = Tree::start(alloc, settings.callers, settings.records) else {
        return without_run(alloc, Way::NoMemory);
    };
    let shown = run_shown(rt, alloc, chosen, passes, settings, bytes, sink, gate);
    Attempt {
        way: shown.way,
        kept: kept_tree(shown.closed),
        answers: shown.answers,
        counted: shown.counted,
    }
}
