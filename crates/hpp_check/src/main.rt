//! Checks a certificate of a map's history, from standard input to standard output: the program of `pp_check`.
#![tactic(auto)]

use pp_check::judge;
use pp_outside::{StdSink, StdSource};
use std::process::ExitCode;

fn main(rt: HostRuntime) -> ExitCode {
    let mut source = StdSource::new(rt.stdin());
    let mut sink = StdSink::new(rt.stdout());
    let mut errs = StdSink::new(rt.stderr());
    let judged = judge(rt.alloc(), &mut source, &mut sink, &mut errs);
    ExitCode::from(judged.status)
}
