//! How an epoch's tree is built.

use coniks_threads::{Gate, Parallelism};
use std::thread::Threads;

/// The way in which an epoch's tree is built: the worker threads and the split depth, and the gate before each job.
///
/// No result depends on it.
#[derive(Drop)]
pub struct Build<'a, G: Gate + Sync, R: Threads + Sync> {
    pub rt: &'a R,
    pub parallelism: Parallelism,
    pub gate: &'a G,
}
