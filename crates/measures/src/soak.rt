//! A directory under load: epochs are committed while watchers look at the board and readers look names up.
//!
//! Without numbers 20 epochs of 16 names are committed with 3 workers, beside 4 watchers and 2 readers with 50 lookups
//! each in each epoch. The numbers EPOCHS, BATCH, WORKERS, WATCHERS, READERS and LOOKUPS set these. The number of looks
//! and the time are then printed too.
//!
//! Wrong results are counted. They are installs that are refused, heads that are not in the chain or are older than an
//! earlier one, and lookups whose proof is not accepted for what their epoch binds.

mod names;
mod plan;
mod provider;
mod reading;
mod rounds;

use crate::soak::plan::plan_of;
use crate::soak::rounds::commit_rounds;
use anyhow::Result;
use std::rt::Clock;
use std::thread::Threads;
use std::time::Instant;

/// Executes the plan of these numbers, and prints the counts.
pub fn print<R: Threads + Sync + Clock + Print + AllocGlobal>(
    rt: &R,
    numbers: &[String],
) -> Result<()> {
    let plan = plan_of(numbers)?;
    let start = Instant::now(rt)?;
    let counts = commit_rounds(rt, rt.alloc(), &plan)?;
    println!(rt; "installs: {}", counts.installs)?;
    println!(rt; "lookups: {}", counts.lookups)?;
    println!(rt; "wrong: {}", counts.wrong)?;
    if plan.is_measured {
        println!(rt; "looks: {}", counts.looks)?;
        println!(rt; "seconds: {}", start.elapsed(rt)?.as_secs())?;
    }
    Ok(())
}
