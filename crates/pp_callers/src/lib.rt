//! Callers that make their calls side by side, each with a pass of its own, in threads. The layers above make a `Job` for each caller and
//! `run` them all.
#![tactic(auto)]

ghost use Rattle.std.specs.Prelude.{◌≡◌, ◌≤◌, vec_capacity};
ghost use Rattle.pp_model.specs.Lists.{AtEach};
ghost use Rattle.pp_model.specs.MapCalls.{MayCall, AnswersCall, AnswersCalls};
ghost use Rattle.pp_callers.specs.Jobs.{MayMake, AtBoth};

use pp_model::calling::answer_one;
use pp_model::lists::enter;
use pp_model::{Answer, Call, MapCalls};
use pp_outside::Gate;
use std::thread::{Threads, for_each_mut};

/// What one caller has to do, and its answers. The answers have room for one a call.
#[derive(Drop)]
pub struct Job<P, C, A> {
    /// The caller's number.
    pub caller: u32,
    /// Its pass.
    pub pass: P,
    /// Its calls, in order.
    pub calls: Vec<C>,
    /// One answer for each call that was made.
    pub answers: Vec<A>,
}

/// Runs the jobs in threads, on halves of the slice. Each job makes its calls in order, each between `before` and
/// `after` of the gate, with so many lost turns as its budget, and enters their answers.
///
/// The passes are idle passes of this map; the keys are at most 2^64 - 4; the budget is at least 1; the answers are
/// empty, and pass and answers have room for the calls.
pub fn run<R: Threads + Sync, M: MapCalls + Sync, G: Gate + Sync>(
    rt: &R,
    map: &M,
    jobs: &mut [Job<M::Pass, Call, Answer>],
    races: u64,
    gate: &G,
)
where
    M::Pass: Send,
    requires races { 1 ≤ races }
    requires ready { AtEach jobs.old (λ k job. M.Belongs map.now job.pass × M.Idle job.pass
        × MayMake (M.pass_view job.pass) job.calls.items job.answers.items (vec_capacity job.answers)) }
    ensures ran { AtBoth jobs.old jobs.new (λ was job. M.Belongs map.now job.pass × M.Idle job.pass
        × (job.caller ≡ was.caller) × (job.calls.items ≡ was.calls.items)
        × AnswersCalls M.meaning (M.sizes map.now) races (M.pass_view was.pass) was.calls.items job.answers.items (M.pass_view job.pass)) }
{
    let make = |_: usize, job: &mut Job<M::Pass, Call, Answer>|
        requires { (1 ≤ races) × M.Belongs map.now job.now.pass × M.Idle job.now.pass
            × MayMake (M.pass_view job.now.pass) job.now.calls.items job.now.answers.items (vec_capacity job.now.answers) }
        ensures { M.Belongs map.entry.now job.exit.now.pass × M.Idle job.exit.now.pass
            × (job.exit.now.caller ≡ job.entry.now.caller) × (job.exit.now.calls.items ≡ job.entry.now.calls.items)
            × AnswersCalls M.meaning (M.sizes map.entry.now) races (M.pass_view job.entry.now.pass) job.entry.now.calls.items
            job.exit.now.answers.items (M.pass_view job.exit.now.pass) }
    { run_one(map, job, races, gate) };
    for_each_mut(rt, jobs, 64, &make);
}

fn run_one<M: MapCalls, G: Gate>(
    map: &M,
    job: &mut Job<M::Pass, Call, Answer>,
    races: u64,
    gate: &G,
)
    requires belongs { M.Belongs map.now job.old.pass }
    requires idle { M.Idle job.old.pass }
    requires may { MayMake (M.pass_view job.old.pass) job.old.calls.items job.old.answers.items (vec_capacity job.old.answers) }
    requires races { 1 ≤ races }
    ensures belongs { M.Belongs map.now job.new.pass }
    ensures idle { M.Idle job.new.pass }
    ensures same { (job.new.caller ≡ job.old.caller) × (job.new.calls.items ≡ job.old.calls.items) }
    ensures answered { AnswersCalls M.meaning (M.sizes map.now) races (M.pass_view job.old.pass) job.old.calls.items
        job.new.answers.items (M.pass_view job.new.pass) }
{
    let Job {
        caller,
        pass,
        calls,
        answers,
    } = job;
    make_calls(map, *caller, pass, calls.as_slice(), races, gate, answers);
}

fn make_calls<M: MapCalls, G: Gate>(
    map: &M,
    caller: u32,
    pass: &mut M::Pass,
    calls: &[Call],
    races: u64,
    gate: &G,
    answers: &mut Vec<Answer>,
)
    requires belongs { M.Belongs map.now pass.old }
    requires idle { M.Idle pass.old }
    requires may { MayMake (M.pass_view pass.old) calls.now answers.old.items (vec_capacity answers.old) }
    requires races { 1 ≤ races }
    ensures belongs { M.Belongs map.now pass.new }
    ensures idle { M.Idle pass.new }
    ensures answered { AnswersCalls M.meaning (M.sizes map.now) races (M.pass_view pass.old) calls.now answers.new.items
        (M.pass_view pass.new) }
{
    let mut number: u32 = 1;
    for call in calls {
        let answer = make_call(map, caller, number, pass, *call, races, gate);
        enter(answers, answer);
        number = number.saturating_add(1);
    }
}

/// Makes one call, the caller's of this number, between `before` and `after` of the gate.
fn make_call<M: MapCalls, G: Gate>(
    map: &M,
    caller: u32,
    number: u32,
    pass: &mut M::Pass,
    call: Call,
    races: u64,
    gate: &G,
) -> Answer
    requires belongs { M.Belongs map.now pass.old }
    requires idle { M.Idle pass.old }
    requires may { MayCall call races (M.pass_view pass.old) }
    ensures belongs { M.Belongs map.now pass.new }
    ensures idle { M.Idle pass.new }
    ensures answered { AnswersCall M.meaning (M.sizes map.now) call races
        (M.pass_view pass.old) (M.pass_view pass.new) result }
{
    gate.before(caller, number);
    let answer = answer_one(map, pass, call, races);
    gate.after(caller, number);
    answer
}
