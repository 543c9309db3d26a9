//! Workers, each of which draws jobs and does them.

ghost use Rattle.std.specs.Prelude.{◌≡◌, ◌<◌, ◌≤◌, length};
ghost use Rattle.std.specs.Thread.{IsSync};
ghost use Rattle.coniks_threads.specs.Pools.{IsFreshWorker, Worked, AllFresh, AllWorked};

use crate::claims::{Claims, Drawer};
use crate::gate::Gate;
use crate::work::Work;
use coniks_tree::Part;
use std::thread;
use std::thread::Threads;

/// A worker's drawer, the parts of the jobs that it did, and whether an allocation failed.
#[derive(Drop)]
pub(crate) struct Worker {
    pub(crate) drawer: Drawer,
    pub(crate) done: Vec<(usize, Part)>,
    pub(crate) failed: bool,
}

/// Draws jobs and does them until none is left, or an allocation fails.
fn run_worker<W: Work, G: Gate>(worker: &mut Worker, claims: &Claims, work: &W, gate: &G)
    requires { IsFreshWorker claims.now (W.count work.now) worker.old }
    ensures { Worked (W.part work.now) worker.old worker.new }
{
    while let Some(job) = worker.drawer.draw(claims) {
        gate.enter(job);
        let Ok(part) = work.run(job) else {
            worker.failed = true;
            return;
        };
        let Ok(()) = worker.done.push((job, part)) else {
            worker.failed = true;
            return;
        };
    }
}

/// Runs all workers at once, each on a thread of its own except the last, which runs on the caller's thread.
///
/// There are at most as many workers as jobs. The caller starts one thread after another. If a thread cannot be started,
/// its worker runs later, on the caller's thread.
#[cycle(pool)]
pub(crate) fn run_workers<W: Work + Sync, G: Gate + Sync, R: Threads + Sync>(
    rt: &R,
    claims: &Claims,
    work: &W,
    gate: &G,
    pool: &mut [Worker],
)
    requires some { 0 < length pool.old }
    requires few { length pool.old ≤ W.count work.now }
    requires fresh { AllFresh claims.now (W.count work.now) pool.old }
    ensures len { length pool.new ≡ length pool.old }
    ensures all { AllWorked (W.part work.now) pool.old pool.new }
{
    if pool.len() == 1 {
        run_worker(&mut pool[0], claims, work, gate);
        return;
    }
    run_apart(rt, claims, work, gate, pool);
}

/// Runs the first worker on a thread of its own, and the others meanwhile.
#[cycle(pool)]
fn run_apart<W: Work + Sync, G: Gate + Sync, R: Threads + Sync>(
    rt: &R,
    claims: &Claims,
    work: &W,
    gate: &G,
    pool: &mut [Worker],
)
    requires some { 1 < length pool.old }
    requires few { length pool.old ≤ W.count work.now }
    requires fresh { AllFresh claims.now (W.count work.now) pool.old }
    ensures len { length pool.new ≡ length pool.old }
    ensures all { AllWorked (W.part work.now) pool.old pool.new }
{
    let (first, others) = pool.split_at_mut(1);
    let first = &mut first[0];
    let mut apart = ||
        requires { IsFreshWorker claims.now (W.count work.now) first.now }
        ensures { Worked (W.part work.entry.now) first.entry.now first.exit.now }
    { run_worker(first, claims, work, gate) };
    let mut here = ||
        requires { IsSync R.row × IsSync W.row × IsSync G.row × (0 < length others.now)
            × (length others.now < W.count work.now) × AllFresh claims.now (W.count work.now) others.now }
        ensures { (length others.exit.now ≡ length others.entry.now) × AllWorked (W.part work.entry.now) others.entry.now others.exit.now }
    { run_workers(rt, claims, work, gate, others) };
    thread::join_mut(rt, &mut apart, &mut here);
}
