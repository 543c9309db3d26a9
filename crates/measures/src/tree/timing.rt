//! The times of one more batch, of a rotation of the nonce, and of searches of authentication paths.

use crate::tree::plan::Plan;
use crate::tree::registering::{Registry, index_of};
use anyhow::Result;
use coniks_proof::Index;
use coniks_threads::Parallelism;
use coniks_tree::Change;
use std::fmt;
use std::rt::Clock;
use std::thread::Threads;
use std::time::{Duration, Instant};

/// The number of times that one worker and several workers build a batch, in turn.
const REPEATS: usize = 51;

/// The number of times that one worker and several workers rotate the nonce, in turn.
const ROTATIONS: usize = 7;

/// The number of paths of a round, and the number of rounds.
const LOOKUPS: u64 = 10_000;

const ROUNDS: usize = 11;

/// A time in microseconds and their tenths.
#[derive(Clone, Copy, Drop)]
struct Micros(Duration);

impl fmt::Display for Micros {
    fn fmt<W: fmt::Write>(&self, f: &mut fmt::Formatter<W>) -> fmt::Result {
        let tenths = self.0.as_nanos() / 100;
        write!(f, "{}.{} us", tenths / 10, tenths % 10)
    }
}

/// Returns how long these workers take to build the part of the changes.
fn build_time<R: Threads + Sync + Clock>(
    rt: &R,
    registry: &Registry,
    changes: &[Change],
    parallelism: Parallelism,
) -> Result<Duration> {
    let start = Instant::now(rt)?;
    let part = registry.part(rt, changes, parallelism)?;
    let time = start.elapsed(rt)?;
    drop(part);
    Ok(time)
}

/// Prints the least and the median of the times of these workers.
fn print_times<R: Print>(
    rt: &R,
    what: &str,
    parallelism: Parallelism,
    mut times: Vec<Duration>,
) -> Result<()> {
    times.sort_unstable();
    let (Some(least), Some(median)) = (times.first(), times.get(times.len() / 2)) else {
        return Ok(());
    };
    let (workers, depth) = (parallelism.workers(), parallelism.depth());
    let (least, median) = (Micros(*least), Micros(*median));
    println!(rt; "{what}, workers {workers}, depth {depth}: {least} least, {median} median")?;
    Ok(())
}

/// Prints the times of work that is done in turn by one worker without a split and by several.
fn print_in_turn<F: Fn(Parallelism) -> Result<Duration>, R: Print + AllocGlobal>(
    rt: &R,
    what: &str,
    repeats: usize,
    parallelism: Parallelism,
    time: &F,
) -> Result<()>
    requires { F.IsAlwaysCallable time.now }
{
    let one = Parallelism::alone();
    let mut alone = Vec::with_capacity(rt.alloc(), repeats)?;
    let mut together = Vec::with_capacity(rt.alloc(), repeats)?;
    for _ in 0..repeats {
        alone.push(time(one)?)?;
        together.push(time(parallelism)?)?;
    }
    print_times(rt, what, one, alone)?;
    print_times(rt, what, parallelism, together)?;
    Ok(())
}

/// Prints the times of one more batch.
pub fn print_builds<R: Threads + Sync + Clock + Print + AllocGlobal>(
    rt: &R,
    registry: &Registry,
    plan: &Plan,
    parallelism: Parallelism,
) -> Result<()> {
    let to = plan.indices.saturating_add(plan.batch);
    let changes = registry.changes(plan.indices, to)?;
    print_in_turn(
        rt,
        "batch",
        REPEATS,
        parallelism,
        &|by: Parallelism| build_time(rt, registry, &changes, by),
    )
}

/// Returns how long these workers take to list all entries and build them under another nonce.
fn rotation_time<R: Threads + Sync + Clock>(
    rt: &R,
    registry: &Registry,
    parallelism: Parallelism,
) -> Result<Duration> {
    let start = Instant::now(rt)?;
    let entries = registry.entries()?;
    let part = registry.rotated(rt, &entries, parallelism)?;
    let time = start.elapsed(rt)?;
    drop(part);
    Ok(time)
}

/// Prints the times of a rotation.
pub fn print_rotations<R: Threads + Sync + Clock + Print + AllocGlobal>(
    rt: &R,
    registry: &Registry,
    parallelism: Parallelism,
) -> Result<()> {
    print_in_turn(
        rt,
        "rotation",
        ROTATIONS,
        parallelism,
        &|by: Parallelism| rotation_time(rt, registry, by),
    )
}

/// Returns how long the authentication paths to these indices take, one after another.
fn lookup_time<R: Clock>(rt: &R, registry: &Registry, indices: &[Index]) -> Result<Duration> {
    let start = Instant::now(rt)?;
    for index in indices {
        drop(registry.path(index)?);
    }
    Ok(start.elapsed(rt)?)
}

/// Prints how long one thread takes for the authentication paths to the first names, whose indices are in no order.
pub fn print_lookups<R: Clock + Print + AllocGlobal>(rt: &R, registry: &Registry) -> Result<()> {
    let mut indices = Vec::new(rt.alloc());
    for number in 0..LOOKUPS {
        indices.push(index_of(number))?;
    }
    let mut times = Vec::with_capacity(rt.alloc(), ROUNDS)?;
    for _ in 0..ROUNDS {
        times.push(lookup_time(rt, registry, &indices)?)?;
    }
    times.sort_unstable();
    if let (Some(least), Some(median)) = (times.first(), times.get(times.len() / 2)) {
        let (least, median) = (Micros(*least), Micros(*median));
        println!(rt; "{LOOKUPS} paths: {least} least, {median} median")?;
    }
    Ok(())
}
