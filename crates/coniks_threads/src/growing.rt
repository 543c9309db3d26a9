//! The work of the jobs: each grows the part of its prefix.

ghost use Rattle.std.specs.Prelude.{◌≡◌, ◌<◌, ◌≤◌, List, length, slice_get, IfOk, IfSome, None, Some, false};
ghost use Rattle.std.proofs.Props.{props};
ghost use Rattle.coniks_proof.specs.Entries.{under};
ghost use Rattle.coniks_proof.specs.Hashing.{Hashing, hashing};
ghost use Rattle.coniks_tree.specs.Trees.{table_of};
ghost use Rattle.coniks_tree.specs.Table.{Extends, Numbered};
ghost use Rattle.coniks_tree.specs.Parts.{entries_in, is_made, node_count, Fits, KeepsNone, Placed, Stands};
ghost use Rattle.coniks_tree.specs.declared.table.Record.{Record};
ghost use Rattle.coniks_threads.specs.Grown.{IsNewPart, IsOldMap};
ghost use Rattle.coniks_threads.specs.Jobs.{in_range, LieWithin};

use crate::jobs::Job;
use crate::work::Work;
use coniks_proof::{Hash32, Nonce, Prefix};
use coniks_tree::{Change, OutOfMemory, Part, Root, Tree};

/// Proves that a prefix has at most 256 bits.
fn short(prefix: &Prefix)
    ensures { length prefix.now ≤ 256 }
{
    let _length = prefix.len();
}

/// Returns the part that the old root shows under a prefix, or nothing if there is no root.
pub(crate) fn old_part(tree: &Tree, root: Option<Root>, prefix: &Prefix) -> Part
    requires { IfSome root (λ r. r.0 < length tree.now.nodes) }
    ensures unmade { is_made result ≡ false }
    ensures fits { Fits (length tree.now.nodes) (length prefix.now) result }
    ensures count { node_count result ≤ 1 }
    ensures placed { (all : List Record) → Extends tree.now.records all → Placed all result }
    ensures keeps { root ≡ None → KeepsNone result }
    ensures stands { (by : Hashing) (old : List Numbered)
        → IsOldMap by (table_of tree.now) root old
        → Stands by (table_of tree.now) result prefix.now (under prefix.now old) }
{
    short(prefix);
    match root {
        Some(root) => tree.part_at(root, prefix),
        None => Part::Nothing,
    }
}

/// An old root of a tree, if there is one, and the hash and nonce of the new nodes.
#[derive(Clone, Copy)]
pub(crate) struct Old<'a, H> {
    pub(crate) tree: &'a Tree,
    pub(crate) h: &'a H,
    pub(crate) nonce: &'a Nonce,
    pub(crate) root: Option<Root>,
}

/// Returns the part that the old root shows under a prefix, overwritten by changes of indices under it.
pub(crate) fn grown_part<H: Hash32>(
    old: &Old<'_, H>,
    prefix: &Prefix,
    changes: &[Change],
) -> Result<Part, OutOfMemory>
    requires { IfSome old.now.root (λ r. r.0 < length old.now.tree.now.nodes) }
    ensures { IfOk result (λ part. IsNewPart (hashing (H.digest_of old.now.h.now) old.now.nonce.now.0)
        (table_of old.now.tree.now) old.now.root prefix.now (entries_in changes.now) part) }
{
    let part = old_part(old.tree, old.root, prefix);
    Ok(old.tree.grow(old.h, old.nonce, part, prefix, changes)?)
}

/// Returns the job of this number.
fn job_at(jobs: &[Job], number: usize) -> &Job
    requires { number < length jobs.now }
    ensures { slice_get jobs.now number ≡ Some result.now }
{
    &jobs[number]
}

/// The jobs, and the values that they need.
#[derive(Drop)]
pub(crate) struct Growing<'a, H> {
    pub(crate) old: &'a Old<'a, H>,
    pub(crate) changes: &'a [Change],
    pub(crate) jobs: &'a [Job],
    pub(crate) ghost known: { IfSome old.now.root (λ r. r.0 < length old.now.tree.now.nodes) } by { Prim.hlevel props },
    pub(crate) ghost within: { LieWithin (length changes.now) jobs.now },
}

impl<'a, H: Hash32> Work for Growing<'a, H> {
    ghost use Rattle.std.specs.Prelude.{◌≡◌, length, slice_get, Some};
    ghost use Rattle.coniks_tree.specs.Parts.{entries_in};
    ghost use Rattle.coniks_threads.specs.Grown.{IsNewPart};
    ghost use Rattle.coniks_threads.specs.Jobs.{in_range};
    ghost use Rattle.coniks_threads.specs.declared.jobs.Job.{Job};

    ghost count = { λ w. length w.jobs.now };

    ghost part = { λ w number part. (job : Job) × (slice_get w.jobs.now number ≡ Some job)
        × IsNewPart (hashing (H.digest_of w.old.now.h.now) w.old.now.nonce.now.0) (table_of w.old.now.tree.now)
        w.old.now.root job.prefix (entries_in (in_range job w.changes.now)) part };

    fn jobs(&self) -> usize {
        self.jobs.len()
    }

    fn run(&self, number: usize) -> Result<Part, OutOfMemory> {
        let job = job_at(self.jobs, number);
        let changes = &self.changes[job.from..job.to];
        Ok(grown_part(self.old, &job.prefix, changes)?)
    }
}
