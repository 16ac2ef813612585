//! Gates for tests: they set the order in which workers run batches.
#![tactic(auto)]

use io_edges::{Gate, Go};
use std::sync::atomic::Ordering::SeqCst;
use std::sync::atomic::{AtomicBool, AtomicU64};
use std::thread;

/// A gate that holds batch 0 until batch 1 has finished.
#[derive(Drop)]
pub struct SecondFirst {
    first_is_done: AtomicBool,
    second_is_done: AtomicBool,
    last_turn: AtomicU64,
}

impl SecondFirst {
    /// Before any batch.
    pub fn new() -> Self {
        SecondFirst {
            first_is_done: AtomicBool::new(false),
            second_is_done: AtomicBool::new(false),
            last_turn: AtomicU64::new(0),
        }
    }

    /// Whether both batches have finished, before the last turn that there is.
    pub fn is_through(&self) -> bool {
        let turn = self.last_turn.load(SeqCst);
        self.first_is_done.load(SeqCst) && self.second_is_done.load(SeqCst) && turn < 1_048_576
    }
}

impl Gate for SecondFirst {
    fn enter(&self, batch: u32, turn: u32) -> Go {
        self.last_turn.store(u64::from(turn), SeqCst);
        if batch == 0 && !self.second_is_done.load(SeqCst) {
            thread::yield_now();
            Go::Hold
        } else {
            Go::Run
        }
    }

    fn finished(&self, batch: u32) {
        if batch == 0 {
            self.first_is_done.store(true, SeqCst);
        } else {
            self.second_is_done.store(true, SeqCst);
        }
    }
}
