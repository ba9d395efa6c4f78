//! The calls and the plan of a replay: read from the source, or the calls made.

ghost use Rattle.std.specs.Prelude.{◌≡◌, ◌≤◌, map, length, Some, None, IfOk, IfErr};
ghost use Rattle.pp_devices.specs.Devices.{device};
ghost use Rattle.pp_plans.specs.Parts.{parts_of};
ghost use Rattle.pp_plans.specs.Plans.{IsPlan};
ghost use Rattle.pp_trace.specs.TraceLists.{IsTrace};
ghost use Rattle.pp_words.specs.Words.{MakeFits};
ghost use Rattle.pp_poll.specs.Polled.{HasInput, WasReadWithPlan};
ghost use Rattle.pp_poll.specs.Parts.{HasNoInput, HasBadInput};

use crate::ways::PolledWay;
use pp_devices::Way;
use pp_model::Call;
use pp_outside::{ReadFault, Source, read_all};
use pp_plans::{PlanFault, parse_plan, part};
use pp_trace::{Make, Trace, TraceFault, parse};
use std::alloc::Global;

/// An input has at most this many bytes.
const LONGEST: u32 = 16_777_216;

/// The calls of each caller, and the callers in the order of their turns.
#[derive(Drop)]
pub struct Input {
    pub lists: Vec<Vec<Call>>,
    pub plan: Vec<u32>,
}

/// The calls of each caller and the plan: those of the made trace and none, where one is asked for, and else those that the source
/// says.
///
/// # Errors
///
/// The way in which the replay ends without them.
pub fn take_input<S: Source>(
    alloc: Global,
    make: Option<Make>,
    callers: u32,
    source: &mut S,
) -> Result<Input, PolledWay>
    requires callers { (1 ≤ callers) × (callers ≤ 64) }
    requires make { MakeFits make }
    ensures input { IfOk result (λ input. HasInput make callers (device (S.left source.old) (S.faults source.old))
        (device (S.left source.new) (S.faults source.new)) (map (λ v. v.items) input.lists.items) input.plan.items) }
    ensures none { IfErr result (λ way. HasNoInput way make callers (device (S.left source.old) (S.faults source.old))
        (device (S.left source.new) (S.faults source.new))) }
{
    let Some(make) = make else {
        return read_input(alloc, callers, source);
    };
    match Trace::made(alloc, make, callers) {
        Ok(trace) => Ok(Input {
            lists: trace.into_lists(),
            plan: Vec::new(alloc),
        }),
        Err(_) => Err(PolledWay::Ended(Way::NoMemory)),
    }
}

fn read_input<S: Source>(alloc: Global, callers: u32, source: &mut S) -> Result<Input, PolledWay>
    requires callers { (1 ≤ callers) × (callers ≤ 64) }
    ensures input { IfOk result (λ input. WasReadWithPlan callers (device (S.left source.old) (S.faults source.old))
        (device (S.left source.new) (S.faults source.new)) (map (λ v. v.items) input.lists.items) input.plan.items) }
    ensures none { IfErr result (λ way. HasNoInput way None callers (device (S.left source.old) (S.faults source.old))
        (device (S.left source.new) (S.faults source.new))) }
{
    match read_all(alloc, source, LONGEST) {
        Ok(bytes) => parse_input(alloc, &bytes, callers),
        Err(ReadFault::Failed) => Err(PolledWay::Ended(Way::Unread)),
        Err(ReadFault::TooLong) => Err(PolledWay::Ended(Way::TooLong)),
        Err(ReadFault::NoMemory) => Err(PolledWay::Ended(Way::NoMemory)),
    }
}

fn parse_input(alloc: Global, bytes: &[u8], callers: u32) -> Result<Input, PolledWay>
    requires callers { (1 ≤ callers) × (callers ≤ 64) }
    requires short { length bytes.now ≤ 16777216 }
    ensures trace { IfOk result (λ input. IsTrace (parts_of bytes.now).trace callers (map (λ v. v.items) input.lists.items)) }
    ensures plan { IfOk result (λ input. IsPlan (parts_of bytes.now).plan callers input.plan.items) }
    ensures none { IfErr result (HasBadInput bytes.now callers) }
{
    let parts = part(bytes);
    let lists = match parse(alloc, &bytes[..parts.trace_end], callers) {
        Ok(trace) => trace.into_lists(),
        Err(TraceFault::BadLine { line, why }) => {
            return Err(PolledWay::Ended(Way::BadLine { line, why }));
        }
        Err(TraceFault::NoMemory) => return Err(PolledWay::Ended(Way::NoMemory)),
    };
    match parse_plan(alloc, &bytes[parts.plan_start..], parts.lines, callers) {
        Ok(plan) => Ok(Input { lists, plan }),
        Err(PlanFault::BadLine { line, why }) => Err(PolledWay::BadPlan { line, why }),
        Err(PlanFault::NoMemory) => Err(PolledWay::Ended(Way::NoMemory)),
    }
}
