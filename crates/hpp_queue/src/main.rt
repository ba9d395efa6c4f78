//! Replays a trace of a queue's calls, from standard input to standard output: the program of `pp_queue_replay`.
#![tactic(auto)]

use pp_outside::{NoGate, StdSink, StdSource};
use pp_programs::words;
use pp_queue_replay::queue_replay;
use std::process::ExitCode;

fn main(rt: HostRuntime) -> ExitCode {
    let mut errs = StdSink::new(rt.stderr());
    let words = match words(&rt, &mut errs) {
        Ok(words) => words,
        Err(status) => return ExitCode::from(status),
    };
    let mut source = StdSource::new(rt.stdin());
    let mut sink = StdSink::new(rt.stdout());
    let ending = queue_replay(
        &rt,
        rt.alloc(),
        &words,
        &mut source,
        &mut sink,
        &mut errs,
        &NoGate,
    );
    ExitCode::from(ending.status)
}
