//! The number of workers of a build, and its split depth.

ghost use Rattle.coniks_threads.specs.Parallel.{AreWithinLimits};

use crate::building::MAX_WORKERS;
use crate::jobs::MAX_DEPTH;
use thiserror::Error;

/// A number of workers and a split depth, both within their limits.
///
/// The workers are 1 to `MAX_WORKERS` threads. The split depth, the length in bits of the prefixes that are built apart, is
/// 0 to `MAX_DEPTH`. No result depends on either.
#[derive(Clone, Copy, Debug)]
pub struct Parallelism {
    workers: usize,
    depth: usize,
    pub ghost within: { AreWithinLimits workers depth },
}

/// A number of workers and a split depth as a caller wants them, within their limits or not.
#[derive(Clone, Copy, Debug)]
pub struct Wanted {
    pub workers: usize,
    pub depth: usize,
}

impl Parallelism {
    ghost use Rattle.std.specs.Prelude.{◌≡◌, ◌<◌, ◌≤◌, IfErr, IfOk, OnOk};
    ghost use Rattle.coniks_threads.specs.Parallel.{AreWithinLimits, AreWorkers, IsParallelismFault};

    /// Returns these numbers of workers and of bits, if both are within their limits.
    ///
    /// # Errors
    ///
    /// If both apply, the first in this order is returned.
    ///
    /// - `Workers` if `workers` is not 1 to `MAX_WORKERS`.
    /// - `Depth` if `depth` is more than `MAX_DEPTH`.
    pub fn new(wanted: Wanted) -> Result<Parallelism, ParallelismFault>
        ensures workers { IfOk result (λ p. p.workers ≡ wanted.workers) }
        ensures depth { IfOk result (λ p. p.depth ≡ wanted.depth) }
        ensures within { OnOk result (AreWithinLimits wanted.workers wanted.depth) }
        ensures refused { IfErr result (IsParallelismFault wanted.workers wanted.depth) }
    {
        let Wanted { workers, depth } = wanted;
        if workers == 0 || workers > MAX_WORKERS {
            return Err(ParallelismFault::Workers);
        }
        if depth > MAX_DEPTH {
            return Err(ParallelismFault::Depth);
        }
        Ok(Parallelism { workers, depth })
    }

    /// Returns the numbers within the limits that are nearest to these.
    pub fn nearest(wanted: Wanted) -> Parallelism
        ensures within { AreWorkers wanted.workers → result.workers ≡ wanted.workers }
        ensures one { wanted.workers ≡ 0 → result.workers ≡ 1 }
        ensures most { MAX_WORKERS < wanted.workers → result.workers ≡ MAX_WORKERS }
        ensures shallow { wanted.depth ≤ MAX_DEPTH → result.depth ≡ wanted.depth }
        ensures deepest { MAX_DEPTH < wanted.depth → result.depth ≡ MAX_DEPTH }
    {
        Parallelism {
            workers: wanted.workers.clamp(1, MAX_WORKERS),
            depth: wanted.depth.min(MAX_DEPTH),
        }
    }

    /// Returns the parallelism of a build by the caller's thread alone.
    pub fn alone() -> Parallelism
        ensures workers { result.workers ≡ 1 }
        ensures depth { result.depth ≡ 0 }
    {
        Parallelism {
            workers: 1,
            depth: 0,
        }
    }

    /// Returns the number of workers, 1 to `MAX_WORKERS`.
    pub fn workers(self) -> usize
        ensures same { result ≡ self.workers }
        ensures within { AreWorkers result }
    {
        self.workers
    }

    /// Returns the split depth, 0 to `MAX_DEPTH`.
    pub fn depth(self) -> usize
        ensures same { result ≡ self.depth }
        ensures within { result ≤ MAX_DEPTH }
    {
        self.depth
    }
}

/// The error of a number that is not within its limits. If several apply, the first in declaration order is returned.
#[derive(Clone, Copy, Debug, Drop, PartialEq, Eq, Error)]
pub enum ParallelismFault {
    #[error("the number of workers isn't 1 to {}", MAX_WORKERS)]
    Workers,
    #[error("the depth is more than {}", MAX_DEPTH)]
    Depth,
}
