//! What runs a future to its end.

ghost use Rattle.std.specs.Prelude.{ℕ, IfOk, IfErr};
ghost use Rattle.pp_outside.specs.Outside.{HasCause};

use futures::Future;
use futures::executor::block_on;
use pp_outside::Failed;
use std::alloc::{AllocGlobal, Global};
use std::random::RandomSource;
use std::sync::Wait;

/// What runs a future on the calling thread. `faults` is a count that never falls.
pub trait Runner {
    ghost faults: { Self → ℕ };

    /// Polls the future until it is ready, and gives its output.
    ///
    /// # Errors
    ///
    /// `Failed` comes only where `faults` rose in this call.
    fn run<R: Wait + RandomSource + AllocGlobal, F: Future>(
        &mut self,
        rt: &R,
        alloc: Global,
        future: F,
    ) -> Result<F::Output, Failed>
        requires { F.can_poll future }
        ensures gives { IfOk result (F.gives future) }
        ensures cause { HasCause (faults self.old) (faults self.new) result };
}

/// `block_on`, with a count of the times that it gave no output.
#[derive(Drop)]
pub struct BlockOn {
    faults: u64,
}

impl BlockOn {
    /// One that hasn't failed yet.
    pub fn new() -> BlockOn
        ensures { result.faults ≡ 0 }
    {
        BlockOn { faults: 0 }
    }
}

ghost use Rattle.std.specs.Prelude.{◌≡◌};

impl Runner for BlockOn {
    ghost faults = { λ b. b.faults };

    fn run<R: Wait + RandomSource + AllocGlobal, F: Future>(
        &mut self,
        rt: &R,
        _alloc: Global,
        future: F,
    ) -> Result<F::Output, Failed> {
        match block_on(rt, future) {
            Ok(output) => Ok(output),
            Err(_) => {
                self.faults = self.faults.saturating_add(1);
                Err(Failed)
            }
        }
    }
}

/// A runner that fails at each call.
#[derive(Drop)]
pub struct NoRunner {
    faults: u64,
}

impl NoRunner {
    /// One that hasn't been called yet.
    pub fn new() -> NoRunner
        ensures { result.faults ≡ 0 }
    {
        NoRunner { faults: 0 }
    }
}

impl Runner for NoRunner {
    ghost faults = { λ n. n.faults };

    fn run<R: Wait + RandomSource + AllocGlobal, F: Future>(
        &mut self,
        _rt: &R,
        _alloc: Global,
        future: F,
    ) -> Result<F::Output, Failed>
        requires { F.can_poll future }
        ensures never { IfOk result (λ _. ⊥) }
        ensures gives { IfOk result (F.gives future) }
        ensures cause { HasCause self.old.faults self.new.faults result }
    {
        let _ = future;
        self.faults = self.faults.saturating_add(1);
        Err(Failed)
    }
}
