//! A gate that holds a worker until others arrive.
//!
//! It stops holding the worker after 2^32 checks, so that each test ends.

use coniks_threads::Gate;
use std::sync::atomic::{AtomicU64, Ordering};

/// A gate that holds the first job until a number of arrivals, its own included, and records whether they came.
#[derive(Drop)]
pub struct Meeting {
    wanted: u64,
    came: AtomicU64,
    stored: AtomicU64,
    met: AtomicU64,
}

impl Meeting {
    /// Returns a gate that waits for this number of arrivals.
    pub fn of(wanted: u64) -> Meeting {
        Meeting {
            wanted,
            came: AtomicU64::new(0),
            stored: AtomicU64::new(0),
            met: AtomicU64::new(0),
        }
    }

    /// Counts an arrival, of a job or of a thread that does none.
    pub fn come(&self) {
        self.came.fetch_add(1, Ordering::SeqCst);
    }

    /// Returns whether all arrivals came while the first job was blocked.
    pub fn met(&self) -> bool {
        self.met.load(Ordering::SeqCst) == 1
    }
}

impl Gate for Meeting {
    fn enter(&self, _job: usize) {
        self.come();
        if self.stored.fetch_add(1, Ordering::SeqCst) > 0 {
            return;
        }
        for _ in 0..1u64 << 32 {
            if self.came.load(Ordering::SeqCst) >= self.wanted {
                self.met.store(1, Ordering::SeqCst);
                return;
            }
        }
    }
}
