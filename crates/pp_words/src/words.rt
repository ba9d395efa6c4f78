//! Settings read from words.

ghost use Rattle.std.specs.Prelude.{◌≡◌, map, Some, None, Err, IfOk, string_bytes};
ghost use Rattle.pp_words.specs.Words.{InRange, settings_of};

use crate::command::read_options;
use crate::values::settings_from;
use crate::{Settings, WordsFault};
use std::alloc::Global;

/// The settings that the words say, which don't contain the program's name.
///
/// Each option is `--NAME=VALUE`, or `--NAME` and then VALUE as the next word. The names are `map`, `callers`,
/// `records`, `buckets`, `races` and `make`; `map` must be given, and none may be given twice. The value of
/// `map` is `plain`, `list`, `hash` or `tree`, that of `make` is SEED,LINES, and the others are numbers.
///
/// # Errors
///
/// `BadWords` exactly where the words are no settings; `NoMemory` where the parser's memory is refused.
pub fn settings(alloc: Global, words: &[String]) -> Result<Settings, WordsFault>
    ensures settings { IfOk result (λ s. settings_of (map string_bytes words.entry.now) ≡ Some s) }
    ensures in_range { IfOk result InRange }
    ensures bad_words { result ≡ Err WordsFault.BadWords → settings_of (map string_bytes words.entry.now) ≡ None }
{
    let matches = read_options(alloc, words)?;
    settings_from(&matches).ok_or(WordsFault::BadWords)
}
