//! The line that tells how a replay by a plan ended.

ghost use Rattle.std.specs.Prelude.{◌≡◌, ◌≤◌, length};
ghost use Rattle.pp_devices.specs.Told.{IsTold};
ghost use Rattle.pp_poll.specs.PolledWays.{line_of, plan_line, plan_why, failure_line};

use crate::ways::PolledWay;
use arrayvec::ArrayString;
use itoa::Buffer;
use pp_devices::{tell, tell_line};
use pp_outside::Sink;
use pp_plans::PlanWhy;

// No line is longer than this.
const LINE: usize = 96;

/// Writes the line of a way, up to the first write that fails, which ends its writing. Each write offers all that is left of the
/// line. It takes no memory.
pub fn tell_way<E: Sink>(errs: &mut E, way: PolledWay)
    ensures { IsTold E.written E.faults E.Writes errs.old errs.new (line_of way) }
{
    match way {
        PolledWay::Ended(way) => tell(errs, way),
        PolledWay::BadPlan { line, why } => tell_plan(errs, line, why),
        PolledWay::NotRun => tell_failure(errs),
    }
}

fn tell_plan<E: Sink>(errs: &mut E, number: u32, why: PlanWhy)
    ensures { IsTold E.written E.faults E.Writes errs.old errs.new (plan_line number why) }
{
    let line = plan_text(number, why);
    tell_line(errs, line.as_str().as_bytes());
}

fn tell_failure<E: Sink>(errs: &mut E)
    ensures { IsTold E.written E.faults E.Writes errs.old errs.new failure_line }
{
    tell_line(errs, "runner: failed\n".as_bytes());
}

fn plan_text(number: u32, why: PlanWhy) -> ArrayString<LINE>
    ensures { result.bytes ≡ plan_line number why }
{
    let mut line = ArrayString::new();
    line.push_str("schedule: line ");
    line.push_str(Buffer::new().format(number));
    line.push_str(": ");
    line.push_str(why_word(why));
    line.push_str("\n");
    line
}

fn why_word(why: PlanWhy) -> &'static str
    ensures word { result.now ≡ plan_why why }
    ensures short { length result.now ≤ 6 }
{
    match why {
        PlanWhy::Fields => "fields",
        PlanWhy::Caller => "caller",
        PlanWhy::Turns => "turns",
    }
}
