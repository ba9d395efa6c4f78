//! The settings that the values of options say.

ghost use Rattle.std.specs.Prelude.{◌≡◌, ◌≤◌, IfSome};
ghost use Rattle.clap.specs.Words.{found_of, first_value};
ghost use Rattle.pp_words.specs.Words.{InRange, MakeFits, kind_of, number_within, number_or, callers_of, made_by, make_of, settings_by};
ghost use Rattle.pp_words.specs.Words.{text_of};

use crate::{Kind, Settings};
use clap::ArgMatches;
use pp_trace::{Make, Number, read_number};

/// The numbers that an option takes, and the one that it has where it is left out.
struct Limits {
    low: u64,
    high: u64,
    default: u64,
}

const PLAIN_CALLERS: Limits = Limits {
    low: 1,
    high: 1,
    default: 1,
};

const CALLERS: Limits = Limits {
    low: 1,
    high: 64,
    default: 4,
};

const RECORDS: Limits = Limits {
    low: 8,
    high: 262_144,
    default: 65_536,
};

const BUCKETS: Limits = Limits {
    low: 1,
    high: 4_096,
    default: 64,
};

const RACES: Limits = Limits {
    low: 1,
    high: 1_099_511_627_776,
    default: 1_099_511_627_776,
};

const LAST_SEED: u64 = 2_147_483_647;

const MOST_LINES: u64 = 1_000_000;

/// The settings that the values of the options say, if they say some.
pub(crate) fn settings_from(matches: &ArgMatches) -> Option<Settings>
    ensures settings { result ≡ settings_by (first_value (found_of matches.now)) }
    ensures in_range { IfSome result InRange }
{
    let map = kind(matches.get_str("map")?)?;
    let callers = callers(map, matches.get_str("callers"))?;
    let records = number_or(&RECORDS, matches.get_str("records"))?;
    let buckets = number_or(&BUCKETS, matches.get_str("buckets"))?;
    let races = number_or(&RACES, matches.get_str("races"))?;
    let make = make(matches.get_str("make"))?;
    Some(Settings {
        map,
        callers,
        records: records as u32,
        buckets: buckets as u32,
        races,
        make,
    })
}

fn kind(text: &str) -> Option<Kind>
    ensures { result ≡ kind_of text.now }
{
    match text {
        "plain" => Some(Kind::Plain),
        "list" => Some(Kind::List),
        "hash" => Some(Kind::Hash),
        "tree" => Some(Kind::Tree),
        _ => None,
    }
}

fn callers(map: Kind, text: Option<&str>) -> Option<u32>
    ensures { result ≡ callers_of map (text_of text.entry) }
{
    let callers = match map {
        Kind::Plain => number_or(&PLAIN_CALLERS, text)?,
        _ => number_or(&CALLERS, text)?,
    };
    Some(callers as u32)
}

/// The number of an option, if it lies in its limits.
fn number_or(limits: &Limits, text: Option<&str>) -> Option<u64>
    requires { (limits.now.low ≤ limits.now.default) × (limits.now.default ≤ limits.now.high) }
    ensures number { result ≡ number_or limits.now.default limits.now.low limits.now.high (text_of text.entry) }
    ensures within { IfSome result (λ n. (limits.now.low ≤ n) × (n ≤ limits.now.high)) }
{
    match text {
        None => Some(limits.default),
        Some(text) => number_within(limits.low, limits.high, text),
    }
}

fn make(text: Option<&str>) -> Option<Option<Make>>
    ensures make { result ≡ make_of (text_of text.entry) }
    ensures fits { IfSome result MakeFits }
{
    match text {
        None => Some(None),
        Some(text) => Some(Some(made_by(text)?)),
    }
}

/// The made trace that SEED,LINES asks for.
fn made_by(text: &str) -> Option<Make>
    ensures make { result ≡ made_by text.now }
    ensures fits { IfSome result (λ m. MakeFits (Some m)) }
{
    let (seed, lines) = text.split_once(',')?;
    let seed = number_within(0, LAST_SEED, seed)?;
    let lines = number_within(0, MOST_LINES, lines)?;
    Some(Make {
        seed: seed as u32,
        lines: lines as u32,
    })
}

/// The number that the text writes in base ten, if it lies from `low` to `high`.
fn number_within(low: u64, high: u64, text: &str) -> Option<u64>
    ensures number { result ≡ number_within low high text.now }
    ensures within { IfSome result (λ n. (low ≤ n) × (n ≤ high)) }
{
    let bytes = text.as_bytes();
    let Number::Is(number) = read_number(bytes, 0, bytes.len()) else {
        return None;
    };
    let number = u64::try_from(number).ok()?;
    (low <= number && number <= high).then_some(number)
}
