//! The options that words give, cut by `clap`.

ghost use Rattle.std.specs.Prelude.{◌≡◌, ℕ, List, map, [], Some, None, Err, false, IfOk, codes, string_bytes};
ghost use Rattle.std.specs.List.{list_any};
ghost use Rattle.clap.specs.Words.{Rule, App, app_of, rule_of, found_of, first_value, fault_of, rows_of, matches_of};
ghost use Rattle.pp_words.specs.Command.{option_rule, start_app, replay_app};
ghost use Rattle.pp_words.specs.Words.{HasOptions, is_refused, options_of};

use crate::WordsFault;
use clap::error::ErrorKind;
use clap::{Arg, ArgAction, ArgMatches, Command};
use std::alloc::{AllocError, Global};

/// The values of the options that the words give. `BadWords` comes exactly where a word belongs to no option,
/// or an option is unknown or stands twice.
pub(crate) fn read_options<'a>(
    alloc: Global,
    words: &'a [String],
) -> Result<ArgMatches<'a>, WordsFault>
    ensures given { IfOk result (λ m. HasOptions (map string_bytes words.entry.now) (first_value (found_of m))) }
    ensures refused { result ≡ Err WordsFault.BadWords → options_of (map string_bytes words.entry.now) ≡ None }
{
    if any_refused(words) {
        return Err(WordsFault::BadWords);
    }
    parse(alloc, words)
}

fn any_refused(words: &[String]) -> bool
    ensures { result ≡ list_any (λ word. is_refused (string_bytes word)) words.now }
{
    words.iter().any(|word| is_refused(word.as_str()))
}

/// Whether the word is `--`, or begins with one hyphen alone. The parser would take some of these words.
fn is_refused(word: &str) -> bool
    ensures { result ≡ is_refused word.now }
{
    let bytes = word.as_bytes();
    bytes.starts_with(b"-") && (word == "--" || !bytes.starts_with(b"--"))
}

/// Has `clap` parse the words.
fn parse<'a>(alloc: Global, words: &'a [String]) -> Result<ArgMatches<'a>, WordsFault>
    ensures taken { IfOk result (λ m. fault_of replay_app (map string_bytes words.entry.now) ≡ []) }
    ensures matches { IfOk result (λ m. rows_of (found_of m) ≡ matches_of replay_app (map string_bytes words.entry.now)) }
    ensures refused { result ≡ Err WordsFault.BadWords → fault_of replay_app (map string_bytes words.entry.now) ≡ [] → ⊥ }
{
    let Ok(ready) = command(alloc) else {
        return Err(WordsFault::NoMemory);
    };
    match ready.try_get_matches_from(words) {
        Ok(matches) => Ok(matches),
        Err(error) => {
            if error.kind() == ErrorKind::OutOfMemory {
                Err(WordsFault::NoMemory)
            } else {
                Err(WordsFault::BadWords)
            }
        }
    }
}

/// The command of a replay.
fn command<'a>(alloc: Global) -> Result<Command<'a>, AllocError>
    ensures { IfOk result (λ c. app_of c ≡ replay_app) }
{
    let command = start(alloc)
        .arg(option(alloc, "map"))?
        .arg(option(alloc, "callers"))?
        .arg(option(alloc, "records"))?
        .arg(option(alloc, "buckets"))?
        .arg(option(alloc, "races"))?
        .arg(option(alloc, "make"))?;
    Ok(command)
}

/// The command before it has options.
fn start<'a>(alloc: Global) -> Command<'a>
    ensures { app_of result ≡ start_app }
{
    Command::new(alloc, "replay")
        .no_binary_name(true)
        .disable_help_flag(true)
}

/// An option that takes one value.
fn option<'a>(alloc: Global, name: &'a str) -> Arg<'a>
    ensures rule { rule_of result ≡ option_rule name.entry.now }
    ensures local { result.global ≡ false }
{
    Arg::new(alloc, name).long(name).action(ArgAction::Set)
}
