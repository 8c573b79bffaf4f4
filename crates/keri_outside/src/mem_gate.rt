//! Gates where readers meet.

use crate::Gate;
use std::sync::atomic::{AtomicU64, Ordering};
use std::thread;

/// A gate where the first readers meet before their first message. Each of them notes that it came, waits for the others,
/// for a number of turns at most, and notes whether all came. Readers that run one after another, or in turn, don't meet.
#[derive(Drop)]
pub struct MemGate {
    /// A bit for each reader that is to come, by its number.
    awaited: u64,
    /// The turns that a reader waits at most.
    turns: u32,
    /// A bit for each of them that came.
    came: AtomicU64,
    /// A bit for each of them that saw all others come.
    met: AtomicU64,
}

impl MemGate {
    /// A gate where the readers below this number meet. Each waits for this many turns at most, in each of which it lets
    /// other threads run. The gate holds nobody up where fewer than two are to meet, and no reader from number 64 on.
    pub fn new(readers: u16, turns: u32) -> MemGate {
        let awaited = match readers {
            0 | 1 => 0,
            2..=63 => (1 << readers) - 1,
            _ => u64::MAX,
        };
        MemGate {
            awaited,
            turns,
            came: AtomicU64::new(0),
            met: AtomicU64::new(0),
        }
    }

    /// Whether each of the readers saw all others come.
    pub fn all_met(&self) -> bool {
        self.met.load(Ordering::SeqCst) == self.awaited
    }

    // The bit of a reader that is to come, and 0 for any other.
    fn bit_of(&self, reader: u16) -> u64 {
        match reader {
            0..=63 => self.awaited & (1 << reader),
            _ => 0,
        }
    }

    // Waits for all readers, and answers whether they came.
    fn waits(&self) -> bool {
        for _ in 0..self.turns {
            if self.came.load(Ordering::SeqCst) == self.awaited {
                return true;
            }
            thread::yield_now();
        }
        false
    }
}

impl Gate for MemGate {
    fn before(&self, reader: u16, message: u64) {
        let bit = self.bit_of(reader);
        if message != 0 || bit == 0 {
            return;
        }
        self.came.fetch_or(bit, Ordering::SeqCst);
        if self.waits() {
            self.met.fetch_or(bit, Ordering::SeqCst);
        }
    }

    fn after(&self, _reader: u16, _message: u64) {}
}
