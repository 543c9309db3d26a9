//! The jobs of a batch.

ghost use Rattle.std.specs.Prelude.{◌≡◌, ◌<◌, ◌≤◌, ◌+◌, ◌-◌, ◌++◌, ◌^◌, [], length, All, IfOk, OnOk};
ghost use Rattle.coniks_proof.specs.Changes.{AreInOrder};
ghost use Rattle.coniks_threads.specs.Limits.{most_numbers};
ghost use Rattle.coniks_tree.specs.Parts.{entries_in};
ghost use Rattle.coniks_threads.specs.Jobs.{jobs_below, Cover, AreJobsRising, LieWithin, TakeTheirs};

use coniks_proof::Prefix;
use coniks_tree::{Change, OutOfMemory, sides};
use std::alloc::{AllocError, Global};
use std::cmp::min;

/// The largest split depth, in bits.
pub const MAX_DEPTH: usize = 12;

/// A job of a worker: it builds the part of one prefix, for the changes at positions `from` to `to`, `to` excluded.
///
/// A job has at least one change.
#[derive(Drop)]
pub struct Job {
    pub prefix: Prefix,
    pub from: usize,
    pub to: usize,
}

/// Adds the jobs of the changes under a prefix, which begin at this position among all changes.
fn split_below(
    jobs: &mut Vec<Job>,
    depth: usize,
    prefix: Prefix,
    from: usize,
    changes: &[Change],
) -> Result<(), AllocError>
    requires depth { (length prefix ≤ depth) × (depth ≤ MAX_DEPTH) }
    requires room { from + length changes.now < 2 ^ 64 }
    ensures { OnOk result (jobs.new.items ≡ jobs.old.items ++ jobs_below (depth - length prefix) prefix from (entries_in changes.now)) }
{
    if changes.is_empty() {
        return Ok(());
    }
    let level = prefix.len();
    if level == depth {
        let to = from + changes.len();
        jobs.push(Job { prefix, from, to })?;
        return Ok(());
    }
    let (left, right) = sides(changes, level);
    split_below(jobs, depth, prefix.child(false), from, left)?;
    Ok(split_below(jobs, depth, prefix.child(true), from + left.len(), right)?)
}

/// Returns the jobs of the changes, at most as many as the claims take.
pub(crate) fn all_jobs(
    alloc: Global,
    changes: &[Change],
    depth: usize,
) -> Result<Vec<Job>, AllocError>
    requires { depth ≤ MAX_DEPTH }
    ensures jobs { IfOk result (λ jobs. jobs.items ≡ jobs_below depth [] 0 (entries_in changes.now)) }
    ensures few { IfOk result (λ jobs. (length jobs.items ≤ 2 ^ depth) × (length jobs.items ≤ most_numbers)) }
    ensures some { IfOk result (λ jobs. 0 < length changes.now → 0 < length jobs.items) }
    ensures within { IfOk result (λ jobs. LieWithin (length changes.now) jobs.items) }
{
    let mut jobs = Vec::with_capacity(alloc, min(changes.len(), 1 << depth))?;
    split_below(&mut jobs, depth, Prefix::root(), 0, changes)?;
    Ok(jobs)
}

/// Splits changes, which are in increasing order of index, into jobs.
///
/// There is one job for each prefix of this depth, 0 to `MAX_DEPTH` bits, that begins a change's index. The jobs are in
/// increasing order, each with its range of the changes. The ranges follow one another and contain every change. There
/// are at most `2^depth` jobs: none for no changes, and one at depth 0 if there is a change. No change is copied.
///
/// # Errors
///
/// `OutOfMemory` if an allocation fails.
pub fn split(alloc: Global, changes: &[Change], depth: usize) -> Result<Vec<Job>, OutOfMemory>
    requires { depth ≤ MAX_DEPTH }
    ensures cover { IfOk result (λ jobs. Cover 0 (length changes.now) jobs.items) }
    ensures long { IfOk result (λ jobs. All (λ job. length job.prefix ≡ depth) jobs.items) }
    ensures rising { IfOk result (λ jobs. AreJobsRising jobs.items) }
    ensures few { IfOk result (λ jobs. length jobs.items ≤ 2 ^ depth) }
    ensures theirs { IfOk result (λ jobs. AreInOrder 0 (entries_in changes.now) → TakeTheirs (entries_in changes.now) jobs.items) }
{
    Ok(all_jobs(alloc, changes, depth)?)
}
