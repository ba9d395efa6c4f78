//! Traces of map calls: their grammar, made traces, and the printed text of a run. The layers above `parse` bytes or make a `Trace`, give
//! its lists to callers, and print by `Printer`; grammars of their own read by `next_line`, `next_field` and `read_number`.
#![tactic(auto)]

mod counting;
mod forms;
mod lists;
mod made;
mod parsing;
mod printing;
mod scanning;
mod text;

pub use lists::Trace;
pub use parsing::parse;
pub use printing::Printer;
pub use scanning::{Number, Span, next_field, next_line, read_number};

/// Why a line of a trace is bad, by the first of these that holds.
#[derive(Clone, Copy, Debug, PartialEq, Eq)]
pub enum Why {
    /// The first field is no number, or not below the number of callers.
    Caller,
    /// There is no second field, or it is no call's word in the trace's form.
    Word,
    /// There are more or fewer fields than the call has.
    Fields,
    /// The key is no number, or above 18446744073709551612.
    Key,
    /// The value is no number, or above 18446744073709551615, or in the second form above 2^128 - 1.
    Value,
}

/// Why a trace has no lists.
#[derive(Clone, Copy, Debug, PartialEq, Eq)]
pub enum TraceFault {
    /// This is the first bad line, counted from 1, and its cause.
    BadLine { line: u32, why: Why },
    /// There was no memory.
    NoMemory,
}

/// A made trace: the seed, at most 2147483647, and the number of lines, at most 1000000.
#[derive(Clone, Copy, Debug, PartialEq, Eq)]
pub struct Make {
    pub seed: u32,
    pub lines: u32,
}

/// How many answers of each kind a run gave.
#[derive(Clone, Copy, Debug, PartialEq, Eq)]
pub struct Counts {
    pub added: u32,
    pub held: u32,
    pub value: u32,
    pub absent: u32,
    pub took: u32,
    pub full: u32,
    pub lost: u32,
}
