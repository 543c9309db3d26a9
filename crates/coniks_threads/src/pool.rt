//! A pool of workers that does all jobs, each once.

ghost use Rattle.std.specs.Prelude.{◌≡◌, ℕ, ◌≤◌, ◌<◌, [], true, false, length, IfOk, OnOk};
ghost use Rattle.coniks_threads.specs.Pools.{AllFresh, AllFinished, drawers_of};
ghost use Rattle.coniks_threads.specs.Places.{AllFrom, StandsAt};
ghost use Rattle.coniks_threads.specs.Drawers.{drawing, HasFirst};
ghost use Rattle.coniks_threads.specs.Limits.{most_drawers, most_numbers};

use crate::claims::{Claims, Drawer};
use crate::gate::Gate;
use crate::places::{place, room, unwrapped};
use crate::work::Work;
use crate::worker::{Worker, run_workers};
use coniks_tree::{OutOfMemory, Part};
use std::alloc::{AllocError, Global};
use std::cmp::min;
use std::thread::Threads;

/// Returns a pool of as many workers as possible. The worker with the first drawer is the last one.
fn make_workers(
    alloc: Global,
    claims: &Claims,
    mut first: Drawer,
    workers: usize,
) -> Result<Vec<Worker>, AllocError>
    requires { (1 ≤ workers) × (workers ≤ most_drawers) × (first ≡ drawing claims.now.table claims.now.limit [] false true 0) }
    ensures fresh { IfOk result (λ v. (0 < length v.items) × AllFresh claims.now claims.now.limit v.items) }
    ensures few { IfOk result (λ v. length v.items ≤ workers) }
    ensures first { IfOk result (λ v. HasFirst (drawers_of v.items) (length v.items)) }
{
    let mut pool = Vec::with_capacity(alloc, workers)?;
    for _hired in 1..workers {
        let Ok(drawer) = first.split(claims) else {
            break;
        };
        pool.push(Worker {
            drawer,
            done: Vec::new(alloc),
            failed: false,
        })?;
    }
    pool.push(Worker {
        drawer: first,
        done: Vec::new(alloc),
        failed: false,
    })?;
    Ok(pool)
}

/// Stores the parts of all workers at their positions and ends the claims, unless an allocation failed in a worker.
fn collect<W: Work>(
    alloc: Global,
    claims: Claims,
    mut pool: Vec<Worker>,
    placed: &mut [Option<Part>],
    work: &W,
) -> Result<(), AllocError>
    requires parts { AllFinished claims (W.part work.now) pool.items }
    requires first { (0 < length pool.items) × HasFirst (drawers_of pool.items) (length pool.items) }
    requires len { (length placed.old ≡ claims.limit) × (claims.limit ≤ most_numbers) }
    ensures len { length placed.new ≡ length placed.old }
    ensures stand { OnOk result ((j : ℕ) → j < claims.limit → StandsAt (W.part work.now) placed.new j) }
{
    let mut drawers = Vec::with_capacity(alloc, pool.len())?;
    while let Some(worker) = pool.pop() {
        let Worker {
            drawer,
            done,
            failed,
        } = worker;
        if failed {
            return Err(AllocError);
        }
        place(placed, done, work);
        drawers.push(drawer)?;
    }
    claims.close(drawers);
    Ok(())
}

/// Does one job after another, on the caller's thread alone.
pub(crate) fn alone<W: Work, G: Gate>(
    alloc: Global,
    work: &W,
    gate: &G,
) -> Result<Vec<Part>, OutOfMemory>
    ensures { IfOk result (λ v. AllFrom (W.part work.now) 0 v.items × (length v.items ≡ W.count work.now)) }
{
    let count = work.jobs();
    let mut parts = Vec::with_capacity(alloc, count)?;
    for job in 0..count {
        gate.enter(job);
        let part = work.run(job)?;
        let Ok(()) = parts.push(part) else {
            return Err(OutOfMemory);
        };
    }
    Ok(parts)
}

/// Returns the parts of all jobs, in the order of their numbers, made by at most this number of workers.
///
/// There are at most as many workers as jobs. There are fewer if the claims, a drawer or the pool cannot be allocated, or
/// a thread cannot be started. A single worker draws nothing.
pub(crate) fn all_parts<W: Work + Sync, G: Gate + Sync, R: Threads + Sync>(
    rt: &R,
    alloc: Global,
    workers: usize,
    work: &W,
    gate: &G,
) -> Result<Vec<Part>, OutOfMemory>
    requires workers { (1 ≤ workers) × (workers ≤ most_drawers) }
    requires count { W.count work.now ≤ most_numbers }
    ensures { IfOk result (λ v. AllFrom (W.part work.now) 0 v.items × (length v.items ≡ W.count work.now)) }
{
    let count = work.jobs();
    let workers = min(workers, count);
    if workers <= 1 {
        return Ok(alone(alloc, work, gate)?);
    }
    let Ok((claims, first)) = Claims::new(alloc, count) else {
        return Ok(alone(alloc, work, gate)?);
    };
    let Ok(mut pool) = make_workers(alloc, &claims, first, workers) else {
        return Ok(alone(alloc, work, gate)?);
    };
    let mut placed = room(alloc, count)?;
    run_workers(rt, &claims, work, gate, pool.as_mut_slice());
    collect(alloc, claims, pool, placed.as_mut_slice(), work)?;
    Ok(unwrapped(alloc, placed.as_mut_slice(), work)?)
}
