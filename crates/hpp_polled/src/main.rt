//! Replays a trace of map calls on one thread, turn by turn in the order of the plan behind it, from standard input to standard output: the
//! program of `pp_poll`.
#![tactic(auto)]

use pp_outside::{StdSink, StdSource};
use pp_poll::{BlockOn, polled};
use pp_programs::words;
use std::process::ExitCode;

fn main(rt: HostRuntime) -> ExitCode {
    let mut errs = StdSink::new(rt.stderr());
    let words = match words(&rt, &mut errs) {
        Ok(words) => words,
        Err(status) => return ExitCode::from(status),
    };
    let mut source = StdSource::new(rt.stdin());
    let mut sink = StdSink::new(rt.stdout());
    let ending = polled(
        &rt,
        rt.alloc(),
        &words,
        &mut BlockOn::new(),
        &mut source,
        &mut sink,
        &mut errs,
    );
    ExitCode::from(ending.status)
}
