//! The grammar of a plan.

ghost use Rattle.std.specs.Prelude.{◌≡◌, ◌+◌, ◌<◌, ◌≤◌, ◌++◌, length, replicate, IfSome, IfOk, IfErr, OnOk};
ghost use Rattle.std.specs.List.{between};
ghost use Rattle.pp_trace.specs.Grammar.{number_below};
ghost use Rattle.pp_trace.specs.Lines.{fields_of};
ghost use Rattle.pp_plans.specs.Plans.{reading, turns_in, IsPlan, PlanCause};

use pp_trace::{Number, Span, next_field, next_line, read_number};
use std::alloc::{AllocError, Global};

/// A line gives a caller at most this many turns.
const MOST_TURNS: u128 = 1_000_000;

/// Why a line of a plan is bad: the first of these that holds of it.
#[derive(Clone, Copy, Debug, PartialEq, Eq)]
pub enum PlanWhy {
    /// It hasn't two fields.
    Fields,
    /// The first field is no number, or none of a caller.
    Caller,
    /// The second field is no number from 1 to 1,000,000.
    Turns,
}

/// Why a plan was refused.
#[derive(Clone, Copy, Debug, PartialEq, Eq)]
pub enum PlanFault {
    /// This line of the input is bad, and it is the first one that is.
    BadLine { line: u32, why: PlanWhy },
    /// There was no memory for the plan.
    NoMemory,
}

/// What a line of a plan says.
#[derive(Clone, Copy, Debug, PartialEq, Eq)]
pub(crate) enum Reading {
    /// It is skipped.
    Nothing,
    /// The caller makes so many turns.
    Gives { caller: u32, turns: u32 },
    /// It is bad.
    Bad(PlanWhy),
}

fn read_line(bytes: &[u8], line: Span, callers: u32) -> Reading
    requires order { line.start ≤ line.end }
    requires within { line.end ≤ length bytes.now }
    ensures { result ≡ reading callers (fields_of (between line.start line.end bytes.now)) }
{
    let Some(first) = next_field(bytes, line.start, line.end) else {
        return Reading::Nothing;
    };
    if bytes[first.start] == b'#' {
        return Reading::Nothing;
    }
    let Some(second) = next_field(bytes, first.next, line.end) else {
        return Reading::Bad(PlanWhy::Fields);
    };
    if next_field(bytes, second.next, line.end).is_some() {
        return Reading::Bad(PlanWhy::Fields);
    }
    let Some(caller) = read_caller(bytes, first, callers) else {
        return Reading::Bad(PlanWhy::Caller);
    };
    match read_turns(bytes, second) {
        Some(turns) => Reading::Gives { caller, turns },
        None => Reading::Bad(PlanWhy::Turns),
    }
}

/// The number of a caller that a field writes, if it is one.
fn read_caller(bytes: &[u8], field: Span, callers: u32) -> Option<u32>
    requires order { field.start ≤ field.end }
    requires within { field.end ≤ length bytes.now }
    ensures number { result ≡ number_below callers (between field.start field.end bytes.now) }
{
    match read_number(bytes, field.start, field.end) {
        Number::Is(number) if number < u128::from(callers) => Some(number as u32),
        _ => None,
    }
}

/// The number of turns that a field writes, if it is one that a line may give.
fn read_turns(bytes: &[u8], field: Span) -> Option<u32>
    requires order { field.start ≤ field.end }
    requires within { field.end ≤ length bytes.now }
    ensures number { result ≡ turns_in (between field.start field.end bytes.now) }
{
    match read_number(bytes, field.start, field.end) {
        Number::Is(number) if 0 < number && number <= MOST_TURNS => Some(number as u32),
        _ => None,
    }
}

/// Adds so many turns of a caller at the end of a plan.
fn enter_turns(plan: &mut Vec<u32>, caller: u32, turns: u32) -> Result<(), AllocError>
    ensures { OnOk result (plan.new.items ≡ plan.old.items ++ replicate turns caller) }
{
    for _ in 0..turns {
        plan.push(caller)?;
    }
    Ok(())
}

impl From<AllocError> for PlanFault {
    ghost use Rattle.pp_plans.specs.declared.parsing.PlanFault.TheVariants.{NoMemory};

    ghost from_gives = { λ _ fault. fault ≡ NoMemory };

    fn from(_error: AllocError) -> PlanFault {
        PlanFault::NoMemory
    }
}

/// Reads a plan of at most 16,777,216 bytes for 1 to 64 callers: in each line a caller's number, and how many turns it makes. So
/// many lines of the input stand before it, which count too where a bad line is told.
///
/// It gives the callers in the order of their turns.
///
/// # Errors
///
/// - `BadLine` exactly where a line is bad: the first one, by the first of its causes.
/// - `NoMemory`: there was no memory for the plan.
pub fn parse_plan(
    alloc: Global,
    bytes: &[u8],
    before: u32,
    callers: u32,
) -> Result<Vec<u32>, PlanFault>
    requires short { length bytes.now ≤ 16777216 }
    requires few { before ≤ 16777216 }
    ensures plan { IfOk result (λ plan. IsPlan bytes.now callers plan.items) }
    ensures fault { IfErr result (PlanCause bytes.now before callers) }
{
    let mut plan = Vec::new(alloc);
    let mut line = before;
    let mut from = 0usize;
    while let Some(span) = next_line(bytes, from) {
        line += 1;
        match read_line(bytes, span, callers) {
            Reading::Nothing => {}
            Reading::Gives { caller, turns } => enter_turns(&mut plan, caller, turns)?,
            Reading::Bad(why) => return Err(PlanFault::BadLine { line, why }),
        }
        from = span.next;
    }
    Ok(plan)
}
