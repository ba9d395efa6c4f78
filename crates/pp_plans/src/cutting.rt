//! Where an input is cut into a trace and a plan.

ghost use Rattle.std.specs.Prelude.{◌≡◌, ◌≤◌, length, take, drop};
ghost use Rattle.std.specs.List.{between};
ghost use Rattle.pp_trace.specs.Lines.{fields_of};
ghost use Rattle.pp_plans.specs.Parts.{names_plan, parts_of};

use pp_trace::{Span, next_field, next_line};

/// Where an input is cut: its trace stands before one place, and the lines of its plan from another one on.
#[derive(Clone, Copy, Debug, PartialEq, Eq)]
pub struct Parts {
    pub trace_end: usize,
    pub plan_start: usize,
    /// How many lines of the input stand before the plan.
    pub lines: u32,
}

/// Cuts an input of at most 16,777,216 bytes at its first line whose only field is `schedule`: before it stands the trace, and
/// behind it the plan. Without such a line all of it is the trace.
pub fn part(bytes: &[u8]) -> Parts
    requires { length bytes.now ≤ 16777216 }
    ensures within { (result.trace_end ≤ length bytes.now) × (result.plan_start ≤ length bytes.now) }
    ensures few { result.lines ≤ length bytes.now }
    ensures parts { parts_of bytes.now ≡ record {
      trace = take result.trace_end bytes.now;
      plan = drop result.plan_start bytes.now;
      lines = result.lines;
    } }
{
    let mut lines = 0u32;
    let mut from = 0usize;
    while let Some(line) = next_line(bytes, from) {
        lines += 1;
        if names_plan(bytes, line) {
            return Parts {
                trace_end: from,
                plan_start: line.next,
                lines,
            };
        }
        from = line.next;
    }
    Parts {
        trace_end: bytes.len(),
        plan_start: bytes.len(),
        lines,
    }
}

/// Whether a line has `schedule` as its only field.
fn names_plan(bytes: &[u8], line: Span) -> bool
    requires order { line.start ≤ line.end }
    requires within { line.end ≤ length bytes.now }
    ensures { result ≡ names_plan (fields_of (between line.start line.end bytes.now)) }
{
    let Some(field) = next_field(bytes, line.start, line.end) else {
        return false;
    };
    if next_field(bytes, field.next, line.end).is_some() {
        return false;
    }
    &bytes[field.start..field.end] == b"schedule".as_slice()
}
