//! Counts how often each byte value stands on standard input, by callers that claim its pieces, and writes the counts to standard output:
//! the program of `pp_tally`.
#![tactic(auto)]

use pp_outside::{NoGate, StdSink, StdSource};
use pp_programs::words;
use pp_tally::tally;
use std::process::ExitCode;

fn main(rt: HostRuntime) -> ExitCode {
    let mut errs = StdSink::new(rt.stderr());
    let words = match words(&rt, &mut errs) {
        Ok(words) => words,
        Err(status) => return ExitCode::from(status),
    };
    let mut source = StdSource::new(rt.stdin());
    let mut sink = StdSink::new(rt.stdout());
    let tallied = tally(
        &rt,
        rt.alloc(),
        &words,
        &mut source,
        &mut sink,
        &mut errs,
        &NoGate,
    );
    ExitCode::from(tallied.status)
}
