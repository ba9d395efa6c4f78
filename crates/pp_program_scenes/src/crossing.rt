//! Callers that can only end if they run beside each other.

use pp_outside::Gate;
use std::sync::atomic::{AtomicU64, Ordering};

/// A gate at which the first call of caller 0 waits for the first one of caller 1, and the second one of caller 1 for the first one
/// of caller 0.
#[derive(Drop)]
pub struct Crossing {
    answered: (AtomicU64, AtomicU64),
    overdue: AtomicU64,
}

impl Crossing {
    /// A gate that no call has come to.
    pub fn new() -> Crossing {
        Crossing {
            answered: (AtomicU64::new(0), AtomicU64::new(0)),
            overdue: AtomicU64::new(0),
        }
    }

    /// Whether a wait ended by its limit.
    pub fn is_overdue(&self) -> bool {
        self.overdue.load(Ordering::SeqCst) > 0
    }

    fn wait_for(&self, answered: &AtomicU64) {
        for _ in 0..100_000_000u32 {
            if answered.load(Ordering::SeqCst) > 0 {
                return;
            }
        }
        self.overdue.store(1, Ordering::SeqCst);
    }
}

impl Gate for Crossing {
    fn before(&self, caller: u32, number: u32) {
        match (caller, number) {
            (0, 1) => self.wait_for(&self.answered.1),
            (1, 2) => self.wait_for(&self.answered.0),
            _ => {}
        }
    }

    fn after(&self, caller: u32, number: u32) {
        match (caller, number) {
            (0, 1) => self.answered.0.store(1, Ordering::SeqCst),
            (1, 1) => self.answered.1.store(1, Ordering::SeqCst),
            _ => {}
        }
    }
}
