//! How a replay by a plan ends.

ghost use Rattle.std.specs.Prelude.{◌≡◌};
ghost use Rattle.pp_poll.specs.PolledWays.{status_of};

use pp_devices::Way;
use pp_plans::PlanWhy;

/// The way in which a replay by a plan ended.
#[derive(Clone, Copy, Debug, PartialEq, Eq)]
pub enum PolledWay {
    /// As any replay ends.
    Ended(Way),
    /// This line of the input is a bad line of the plan, the first one.
    BadPlan { line: u32, why: PlanWhy },
    /// What was to run the calls failed.
    NotRun,
}

impl PolledWay {
    /// The exit status that tells the way.
    pub fn status(self) -> u8
        ensures { result ≡ status_of self }
    {
        match self {
            PolledWay::Ended(way) => way.status(),
            PolledWay::BadPlan { .. } => 9,
            PolledWay::NotRun => 13,
        }
    }
}
