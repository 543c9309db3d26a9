//! What builds epochs.

use coniks_threads::Parallelism;
use std::thread::Threads;

/// What builds epochs: the value that starts worker threads, the number of workers, and the split depth.
#[derive(Drop)]
pub struct Builders<'r, T: Threads + Sync> {
    pub rt: &'r T,
    pub parallelism: Parallelism,
}
