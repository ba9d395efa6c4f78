//! The two forms of a trace, and the line that names the second.

ghost use Rattle.std.specs.Prelude.{◌≡◌, ◌≤◌, length};
ghost use Rattle.std.specs.List.{between};
ghost use Rattle.pp_trace.specs.Grammar.{greatest_value, is_skipped, names_second};
ghost use Rattle.pp_trace.specs.Lines.{fields_of};
ghost use Rattle.pp_trace.specs.Opening.{IsOpening};

use crate::scanning::{Span, next_field, next_line};

/// The form of a trace. The second has the word `cut` beside those of the first, and greater values.
#[derive(Clone, Copy, Debug, PartialEq, Eq)]
pub(crate) enum Form {
    First,
    Second,
}

impl Form {
    /// The greatest value that a call of this form has.
    pub(crate) fn greatest_value(self) -> u128
        ensures { result ≡ greatest_value self }
    {
        match self {
            Form::First => 18446744073709551615,
            Form::Second => 340282366920938463463374607431768211455,
        }
    }
}

/// What stands before the calls of a trace: so many lines, up to the place `from`, of which none says a call.
#[derive(Clone, Copy, Debug, PartialEq, Eq)]
pub(crate) struct Opening {
    pub form: Form,
    pub lines: u32,
    pub from: usize,
}

/// Passes over the lines at the front of a trace that are skipped, and over the line that names the second form.
pub(crate) fn read_opening(bytes: &[u8]) -> Opening
    requires { length bytes.now ≤ 16777216 }
    ensures { IsOpening bytes.now result }
{
    let mut lines = 0;
    let mut from = 0;
    while let Some(line) = next_line(bytes, from) {
        if names_second_form(bytes, line) {
            return Opening {
                form: Form::Second,
                lines: lines + 1,
                from: line.next,
            };
        }
        if !is_skipped(bytes, line) {
            break;
        }
        lines += 1;
        from = line.next;
    }
    Opening {
        form: Form::First,
        lines,
        from,
    }
}

/// Whether a line has no fields, or its first one begins with `#`.
fn is_skipped(bytes: &[u8], line: Span) -> bool
    requires order { line.start ≤ line.end }
    requires within { line.end ≤ length bytes.now }
    ensures { result ≡ is_skipped (fields_of (between line.start line.end bytes.now)) }
{
    match next_field(bytes, line.start, line.end) {
        Some(first) => bytes[first.start] == b'#',
        None => true,
    }
}

/// Whether a line has exactly the two fields `trace` and `2`.
fn names_second_form(bytes: &[u8], line: Span) -> bool
    requires order { line.start ≤ line.end }
    requires within { line.end ≤ length bytes.now }
    ensures { result ≡ names_second (fields_of (between line.start line.end bytes.now)) }
{
    let Some(first) = next_field(bytes, line.start, line.end) else {
        return false;
    };
    let Some(second) = next_field(bytes, first.next, line.end) else {
        return false;
    };
    if next_field(bytes, second.next, line.end).is_some() {
        return false;
    }
    &bytes[first.start..first.end] == b"trace".as_slice()
        && &bytes[second.start..second.end] == b"2".as_slice()
}
