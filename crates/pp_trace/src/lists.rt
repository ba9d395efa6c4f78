//! The lists of a trace, one for each caller.

ghost use Rattle.std.specs.Prelude.{◌≡◌, ◌<◌, ◌≤◌, List, [], map, length, replicate, Some, slice_get, IfOk, OnOk};
ghost use Rattle.pp_model.specs.declared.Call.{Call};
ghost use Rattle.pp_trace.specs.TraceLists.{with_call};

use pp_model::Call;
use std::alloc::{AllocError, Global};
use std::marker::Model;

/// A trace: for each caller, from 0 on, the list of its calls. It has at most 64 callers.
#[derive(Drop)]
pub struct Trace {
    lists: Vec<Vec<Call>>,
}

impl Model for Trace {
    ghost Value = { List (List Call) };

    ghost view = { λ t. map (λ calls. calls.items) t.lists.items };

    ghost invariant = { λ t. length t.lists.items ≤ 64 };
}

impl Trace {
    /// A trace without calls. It has at most 64 callers.
    pub(crate) fn empty(alloc: Global, callers: u32) -> Result<Trace, AllocError>
        requires { callers ≤ 64 }
        ensures { IfOk result (λ trace. trace ≡ replicate callers []) }
    {
        let mut lists = Vec::with_capacity(alloc, callers as usize)?;
        for _ in 0..callers {
            lists.push(Vec::new(alloc))?;
        }
        Ok(Trace { lists })
    }

    /// Adds a call at the end of one caller's list.
    pub(crate) fn push(&mut self, caller: u32, call: Call) -> Result<(), AllocError>
        requires { caller < length self.old }
        ensures { OnOk result (self.new ≡ with_call self.old caller call) }
    {
        self.lists[caller as usize].push(call)?;
        Ok(())
    }

    pub(crate) fn new(lists: Vec<Vec<Call>>) -> Trace
        requires { length lists.items ≤ 64 }
        ensures { result ≡ map (λ calls. calls.items) lists.items }
    {
        Trace { lists }
    }

    /// The number of callers.
    pub fn callers(&self) -> u32
        ensures { result ≡ length self.now }
    {
        self.lists.len() as u32
    }

    /// The calls of one caller, in their order. The caller is below the number of callers.
    pub fn lines(&self, caller: u32) -> &[Call]
        requires { caller < length self.now }
        ensures { slice_get self.now caller ≡ Some result.now }
    {
        &self.lists[caller as usize]
    }

    /// The lists by caller. It takes no memory.
    pub fn into_lists(self) -> Vec<Vec<Call>>
        ensures { map (λ calls. calls.items) result.items ≡ self }
    {
        self.lists
    }
}
