//! Traces made from a seed.

ghost use Rattle.std.specs.Prelude.{◌≡◌, ℕ, ◌+◌, ◌*◌, ◌/◌, ◌%◌, ◌^◌, ◌<◌, ◌≤◌, List, [], map, replicate, IfOk};
ghost use Rattle.pp_trace.specs.MadeTrace.{draw, made_call, drawn_call, made, IsMade};
ghost use Rattle.pp_model.specs.Lists.{upto};

use crate::{Make, Trace};
use pp_model::{Call, NoMemory};
use std::alloc::{AllocError, Global};

fn draw_next(state: u64) -> u64
    requires { state < 2 ^ 31 }
    ensures value { result ≡ draw state }
    ensures range { result < 2 ^ 31 }
{
    (state * 1103515245 + 12345) % (1 << 31)
}

fn call_of(kind: u64, key: u64, value: u64) -> Call
    ensures { result ≡ made_call kind key value }
{
    match kind {
        0 | 1 => Call::Insert {
            key,
            value: u128::from(value),
        },
        2 => Call::Remove { key },
        _ => Call::Get { key },
    }
}

fn drawn(callers: u32, caller: u32, first: u64, second: u64) -> Call
    requires { callers ≤ 64 }
    ensures { result ≡ drawn_call callers caller first second }
{
    let key = u64::from(callers) * ((second >> 16) % 4096) + u64::from(caller);
    call_of((first >> 16) % 4, key, second)
}

// Room for every call is taken at once, so that no list grows and is copied.
fn with_room(alloc: Global, callers: u32, room: usize) -> Result<Trace, AllocError>
    requires { callers ≤ 64 }
    ensures { IfOk result (λ trace. trace ≡ replicate callers []) }
{
    let mut lists = Vec::with_capacity(alloc, callers as usize)?;
    for _ in 0..callers {
        lists.push(Vec::with_capacity(alloc, room)?)?;
    }
    Ok(Trace::new(lists))
}

// The lines in their order, each put behind the list of the caller whose turn it is.
fn make_lists(alloc: Global, make: Make, callers: u32) -> Result<Trace, AllocError>
    requires callers { (1 ≤ callers) × (callers ≤ 64) }
    requires seed { make.seed ≤ 2147483647 }
    ensures { IfOk result (λ trace. trace ≡ map (made make.seed make.lines callers) (upto 0 callers)) }
{
    let mut trace = with_room(alloc, callers, (make.lines / callers) as usize + 1)?;
    let mut state = u64::from(make.seed);
    for line in 0..make.lines {
        let caller = line % callers;
        let first = draw_next(state);
        state = draw_next(first);
        trace.push(caller, drawn(callers, caller, first, state))?;
    }
    Ok(trace)
}

impl Trace {
    /// The trace that a seed makes: a list for each of this many callers, who take turns.
    ///
    /// There are 1 to 64 callers, the seed is at most 2147483647, and there are at most 1000000 lines.
    ///
    /// # Errors
    ///
    /// `NoMemory` comes only where there was no memory.
    pub fn made(alloc: Global, make: Make, callers: u32) -> Result<Trace, NoMemory>
        requires callers { (1 ≤ callers) × (callers ≤ 64) }
        requires limits { (make.seed ≤ 2147483647) × (make.lines ≤ 1000000) }
        ensures { IfOk result (IsMade make.seed make.lines callers) }
    {
        match make_lists(alloc, make, callers) {
            Ok(trace) => Ok(trace),
            Err(_) => Err(NoMemory),
        }
    }
}
