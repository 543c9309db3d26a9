//! The part of a whole batch.

ghost use Rattle.std.specs.Prelude.{◌≡◌, ◌<◌, ◌≤◌, ◌+◌, ◌*◌, List, [], length, IfOk, IfSome, None};
ghost use Rattle.coniks_proof.specs.Changes.{overwritten, AreApart, AreInOrder};
ghost use Rattle.coniks_proof.specs.Hashing.{hashing};
ghost use Rattle.coniks_tree.specs.Trees.{table_of};
ghost use Rattle.coniks_tree.specs.Table.{Extends, Numbered};
ghost use Rattle.coniks_tree.specs.Counts.{new_nodes};
ghost use Rattle.coniks_tree.specs.Parts.{Stands, Fits, KeepsNone, Placed, AllPlaced, node_count, entries_in};
ghost use Rattle.coniks_tree.specs.declared.table.Record.{Record};
ghost use Rattle.coniks_threads.specs.Grown.{IsOldMap, unchanged};

use crate::gate::Gate;
use crate::growing::{Growing, Old};
use crate::jobs::{MAX_DEPTH, all_jobs};
use crate::parallelism::{Parallelism, Wanted};
use crate::pool::all_parts;
use crate::upwards::join_upwards;
use coniks_proof::{Hash32, Nonce, Prefix};
use coniks_tree::{Change, OutOfMemory, Part, Root, Tree};
use std::alloc::Global;
use std::cmp::min;
use std::thread::Threads;

/// The largest number of workers of one build.
pub const MAX_WORKERS: usize = 64;

/// The base-2 logarithm of the largest number of jobs for each worker, with few changes.
const ENOUGH_JOBS: u32 = 5;

/// The number of changes for each worker from which the number of jobs is doubled.
const MANY_CHANGES: usize = 4096;

/// Returns the split depth in use for this number of workers and of changes.
///
/// It is at most the depth that was requested. It is also at most the one that gives each worker 32 jobs, or 64 jobs if
/// there are `MANY_CHANGES` for each.
pub(crate) fn cut_for(parallelism: Parallelism, changes: usize) -> usize
    ensures { result ≤ parallelism.depth }
{
    let workers = parallelism.workers();
    let depth = parallelism.depth();
    let enough = (workers.ilog2() + ENOUGH_JOBS) as usize;
    if changes / workers >= MANY_CHANGES {
        min(depth, enough + 1)
    } else {
        min(depth, enough)
    }
}

/// Returns the part for no changes.
fn unchanged_part(root: Option<Root>) -> Part
    ensures { result ≡ unchanged root }
{
    match root {
        Some(root) => Part::Kept(root),
        None => Part::Nothing,
    }
}

/// Builds the part of the empty prefix for an epoch, with several worker threads.
///
/// The part is the map of the old root, or the empty map if there is none, overwritten by the changes. The part and the
/// number of its new nodes (`new`) are the same for every number of workers and every split depth. Without an old root
/// the part keeps no node of the tree. The call only reads the tree.
///
/// `workers` is 1 to `MAX_WORKERS`. The split depth `depth`, the length in bits of the prefixes that are built apart, is
/// 0 to `MAX_DEPTH`. The prefixes are shorter if about 32 jobs for each worker are reached before, or about 64 if each has
/// at least 4096 changes. The changes are in increasing order of index, and each index occurs once.
///
/// The caller's thread is one of the workers. There are never more workers than jobs, so a single job starts no thread.
/// If a thread cannot be started, or a drawer or the claims cannot be allocated, there are fewer workers.
///
/// For b changes, b at least 1, the part has at most `512 * b + 1` new nodes. Without changes it is the old root, kept,
/// or nothing.
///
/// # Errors
///
/// `OutOfMemory` if an allocation fails, in a job of any worker or in the call itself.
pub fn build<H: Hash32 + Sync, G: Gate + Sync, R: Threads + Sync>(
    rt: &R,
    alloc: Global,
    h: &H,
    nonce: &Nonce,
    tree: &Tree,
    root: Option<Root>,
    changes: &[Change],
    depth: usize,
    workers: usize,
    gate: &G,
) -> Result<Part, OutOfMemory>
    requires root { IfSome root (λ r. r.0 < length tree.now.nodes) }
    requires depth { depth ≤ MAX_DEPTH }
    requires workers { (1 ≤ workers) × (workers ≤ MAX_WORKERS) }
    ensures fits { IfOk result (λ part. Fits (length tree.now.nodes) 0 part) }
    ensures same { IfOk result (λ part. length changes.now ≡ 0 → part ≡ unchanged root) }
    ensures count { IfOk result (λ part. 0 < length changes.now → node_count part ≤ 512 * length changes.now + 1) }
    ensures placed { IfOk result (λ part. (all : List Record) → Extends tree.now.records all → AllPlaced all changes.now → Placed all part) }
    ensures keeps { IfOk result (λ part. root ≡ None → KeepsNone part) }
    ensures new { IfOk result (λ part. 0 < length changes.now → (entries : List Numbered)
        → IsOldMap (hashing (H.digest_of h.now) nonce.now.0) (table_of tree.now) root entries
        → AreInOrder 0 (entries_in changes.now)
        → AreApart 0 (overwritten entries (entries_in changes.now))
        → node_count part ≡ new_nodes 0 entries (entries_in changes.now)) }
    ensures stands { IfOk result (λ part. (entries : List Numbered)
        → IsOldMap (hashing (H.digest_of h.now) nonce.now.0) (table_of tree.now) root entries
        → AreInOrder 0 (entries_in changes.now)
        → AreApart 0 (overwritten entries (entries_in changes.now))
        → Stands (hashing (H.digest_of h.now) nonce.now.0) (table_of tree.now) part [] (overwritten entries (entries_in changes.now))) }
{
    if changes.is_empty() {
        return Ok(unchanged_part(root));
    }
    let depth = cut_for(
        Parallelism::nearest(Wanted { workers, depth }),
        changes.len(),
    );
    let jobs = all_jobs(alloc, changes, depth)?;
    let old = Old {
        tree,
        h,
        nonce,
        root,
    };
    let growing = Growing {
        old: &old,
        changes,
        jobs: &jobs,
    };
    let mut parts = all_parts(rt, alloc, workers, &growing, gate)?;
    Ok(join_upwards(&old, depth, &Prefix::root(), changes, &mut parts)?)
}
