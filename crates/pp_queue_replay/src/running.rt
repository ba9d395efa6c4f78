//! A run: the callers' calls on a queue, in threads, and its closing.

ghost use Rattle.std.specs.Prelude.{◌≡◌, ◌≤◌, ◌∷◌, [], map, length, vec_capacity, IfOk};
ghost use Rattle.pp_callers.specs.Jobs.{AtBoth};
ghost use Rattle.pp_model.specs.Lists.{AtEach};
ghost use Rattle.pp_base.specs.Passes.{view};
ghost use Rattle.pp_queues.specs.Calls.{AnswersQueue};
ghost use Rattle.pp_queue.specs.Closings.{queue_run};
ghost use Rattle.pp_queue.specs.Passes.{IsReady, pass_seen};
ghost use Rattle.pp_queue_replay.specs.Jobs.{MayMake, HasMade};
ghost use Rattle.pp_queue_replay.specs.Runs.{AnswersCalls, IsOpened, IsRunOf};

use pp_base::Pass;
use pp_callers::Job;
use pp_model::lists::enter;
use pp_model::{InsertFault, Lost, NoMemory};
use pp_outside::Gate;
use pp_queue::{Queue, QueueClosed, QueueShape};
use pp_queues::calls::{QueueAnswer, QueueCall, QueueReply};
use pp_running::jobs::{jobs_of, parts_of};
use std::alloc::Global;
use std::thread::{Threads, for_each_mut};

/// What one caller has to do on a queue, and its answers.
pub type QueueJob = Job<Pass<QueueShape>, QueueCall, QueueAnswer>;

/// What a run gave: the callers' answers, and the closed queue.
#[derive(Drop)]
pub struct Ran {
    pub answers: Vec<Vec<QueueAnswer>>,
    pub closed: QueueClosed,
}

/// Makes the calls of these lists on a queue with these passes, one a list, and closes it.
///
/// # Errors
///
/// There was no memory for the answers or for closing.
pub fn run_on<R: Threads + Sync, G: Gate + Sync>(
    rt: &R,
    alloc: Global,
    queue: Queue,
    passes: Vec<Pass<QueueShape>>,
    lists: Vec<Vec<QueueCall>>,
    races: u64,
    gate: &G,
) -> Result<Ran, NoMemory>
    requires passes { AtEach passes.items (λ c pass. IsReady queue pass × IsOpened c (pass_seen pass)) }
    requires all { length passes.items ≡ queue.pool.layout.passes }
    requires lists { length lists.items ≡ length passes.items }
    requires races { 1 ≤ races }
    ensures ran { IfOk result (λ ran. IsRunOf queue.pool.layout races (map pass_seen passes.items)
        (map (λ v. v.items) lists.items) (map (λ v. v.items) ran.answers.items) ran.closed.items.items
        (queue_run (view ran.closed.closed.witness.seat) ran.closed.closed.witness.live.items)) }
{
    let mut jobs = jobs_of(alloc, passes, lists)?;
    run(rt, &queue, jobs.as_mut_slice(), races, gate);
    let (passes, answers) = parts_of(alloc, jobs)?;
    match queue.close(alloc, passes) {
        Ok(closed) => Ok(Ran { answers, closed }),
        Err(_) => Err(NoMemory),
    }
}

/// Runs the jobs in threads, on halves of the slice. Each job makes its calls in order, each between `before` and `after` of the
/// gate, with so many lost turns as its budget, and enters their answers.
pub fn run<R: Threads + Sync, G: Gate + Sync>(
    rt: &R,
    queue: &Queue,
    jobs: &mut [QueueJob],
    races: u64,
    gate: &G,
)
    requires races { 1 ≤ races }
    requires ready { AtEach jobs.old (λ k job. MayMake queue.now job (vec_capacity job.answers)) }
    ensures ran { AtBoth jobs.old jobs.new (λ was job. HasMade queue.now races was job) }
{
    let make = |_: usize, job: &mut QueueJob|
        requires { (1 ≤ races) × MayMake queue.now job.now (vec_capacity job.now.answers) }
        ensures { HasMade queue.entry.now races job.entry.now job.exit.now }
    { run_one(queue, job, races, gate) };
    for_each_mut(rt, jobs, 64, &make);
}

fn run_one<G: Gate>(queue: &Queue, job: &mut QueueJob, races: u64, gate: &G)
    requires may { MayMake queue.now job.old (vec_capacity job.old.answers) }
    requires races { 1 ≤ races }
    ensures made { HasMade queue.now races job.old job.new }
{
    let Job {
        caller,
        pass,
        calls,
        answers,
    } = job;
    make_calls(queue, *caller, pass, calls.as_slice(), races, gate, answers);
}

fn make_calls<G: Gate>(
    queue: &Queue,
    caller: u32,
    pass: &mut Pass<QueueShape>,
    calls: &[QueueCall],
    races: u64,
    gate: &G,
    answers: &mut Vec<QueueAnswer>,
)
    requires ready { IsReady queue.now pass.old }
    requires none { answers.old.items ≡ [] }
    requires fits { length calls.now ≤ vec_capacity answers.old }
    requires races { 1 ≤ races }
    ensures ready { IsReady queue.now pass.new }
    ensures answered { AnswersCalls queue.now.pool.layout races (pass_seen pass.old) calls.now answers.new.items (pass_seen pass.new) }
{
    let mut number: u32 = 1;
    for call in calls {
        gate.before(caller, number);
        let answer = make_call(queue, pass, *call, races);
        gate.after(caller, number);
        enter(answers, answer);
        number = number.saturating_add(1);
    }
}

/// Makes one call.
fn make_call(queue: &Queue, pass: &mut Pass<QueueShape>, call: QueueCall, races: u64) -> QueueAnswer
    requires ready { IsReady queue.now pass.old }
    requires races { 1 ≤ races }
    ensures ready { IsReady queue.now pass.new }
    ensures answered { AnswersQueue queue.now.pool.layout call races (pass_seen pass.old) (pass_seen pass.new) result }
{
    match call {
        QueueCall::Put { value } => match queue.put(pass, value, races) {
            Ok(()) => QueueAnswer::Said(QueueReply::Put),
            Err(InsertFault::Full) => QueueAnswer::Full,
            Err(InsertFault::Lost { turns }) => QueueAnswer::Lost { turns },
        },
        QueueCall::Take => match queue.take(pass, races) {
            Ok(Some(value)) => QueueAnswer::Said(QueueReply::Took(value)),
            Ok(None) => QueueAnswer::Said(QueueReply::Empty),
            Err(Lost { turns }) => QueueAnswer::Lost { turns },
        },
    }
}
