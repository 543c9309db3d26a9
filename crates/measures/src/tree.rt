//! What an epoch costs: pseudo-random indices are registered in batches.
//!
//! Printed are the numbers of nodes and hashes, and those of a rotation of the nonce, which rehashes the tree.
//!
//! Without numbers 1,000 indices are registered in batches of 64. The numbers INDICES and BATCH set both. Seconds and
//! resident memory are then printed too. With the numbers WORKERS and DEPTH after them one more batch, a rotation of the
//! nonce, and searches of authentication paths are also timed. The batch and the rotation are timed with one worker and
//! with WORKERS workers at the split depth DEPTH.

mod counting;
mod measure;
mod plan;
mod registering;
mod timing;

use crate::tree::measure::print_cost;
use crate::tree::plan::plan_of;
use crate::tree::registering::Registry;
use crate::tree::timing::{print_builds, print_lookups, print_rotations};
use anyhow::Result;
use std::rt::{Clock, Files};
use std::thread::Threads;
use std::time::Instant;

/// Executes the plan of these numbers, and prints what it costs.
pub fn print<R: Threads + Sync + Clock + Files + Print + AllocGlobal>(
    rt: &R,
    numbers: &[String],
) -> Result<()> {
    let plan = plan_of(numbers)?;
    let start = Instant::now(rt)?;
    let mut registry = Registry::new(rt.alloc());
    registry.register_all(&plan)?;
    let counts = registry.counts(rt.alloc())?;
    println!(rt; "indices: {}", plan.indices)?;
    println!(rt; "batches: {}", plan.batches())?;
    println!(rt; "{counts}")?;
    println!(rt; "{}", registry.rotation()?)?;
    if plan.is_measured {
        print_cost(rt, start.elapsed(rt)?)?;
    }
    if let Some(parallelism) = plan.parallelism {
        print_builds(rt, &registry, &plan, parallelism)?;
        print_lookups(rt, &registry)?;
        print_rotations(rt, &registry, parallelism)?;
    }
    Ok(())
}
