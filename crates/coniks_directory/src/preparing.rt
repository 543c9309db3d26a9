//! The update of a batch.

ghost use Rattle.std.specs.Prelude.{◌≡◌, ◌<◌, ◌-◌, All, IfErr, IfOk, IfSome, List, None, OnOk, false, length, map};
ghost use Rattle.std.specs.BTreeMap.{values};
ghost use Rattle.coniks_proof.specs.Batches.{Operation, bound_by, first_fault};
ghost use Rattle.coniks_proof.specs.Octets.{Octets};
ghost use Rattle.coniks_proof.specs.Registry.{Registry};
ghost use Rattle.coniks_tree.specs.Trees.{table_of};
ghost use Rattle.coniks_tree.specs.Parts.{Fits};
ghost use Rattle.coniks_directory.specs.Batches.{operations};
ghost use Rattle.coniks_directory.specs.Built.{IsBuilt, IsUpdateBy};
ghost use Rattle.coniks_directory.specs.History.{latest_registry, nonce_after, nonce_bytes, version_after};
ghost use Rattle.coniks_directory.specs.Holders.{ShowsLatest};
ghost use Rattle.coniks_directory.specs.Judged.{ArePendingRecords, AreCommitted, IsJudgedFault};
ghost use Rattle.coniks_directory.specs.State.{Whole, history_of, state_of};

use crate::batch::{BatchFault, Op};
use crate::build::Build;
use crate::changes::changes_of;
use crate::growth::growth_of;
use crate::judge::judged;
use crate::pending::PendingRecords;
use crate::source::IndexSource;
use crate::state::DirectoryState;
use crate::update::Prepared;
use coniks_proof::{Hash32, Nonce};
use coniks_threads::Gate;
use coniks_tree::{OutOfMemory, Part, Root};
use std::alloc::Global;
use std::thread::Threads;

/// The origin of an update: the hash, the source of the names' indices, and the directory's state.
#[derive(Drop)]
pub(crate) struct Origin<'a, H: Hash32, X: IndexSource> {
    pub(crate) alloc: Global,
    pub(crate) h: &'a H,
    pub(crate) source: &'a X,
    pub(crate) stored: &'a DirectoryState,
}

/// Returns the version of an epoch's entry after one of this version, with an optional new nonce.
fn version_after(new_nonce: Option<Nonce>, latest: u8) -> u8
    ensures { result ≡ version_after (nonce_bytes new_nonce) latest }
{
    match new_nonce {
        Some(_) => 2,
        None => latest,
    }
}

/// Returns the nonce of an epoch after one under this nonce, with an optional new one.
fn nonce_after(new_nonce: Option<Nonce>, latest: Nonce) -> Nonce
    ensures { result.0 ≡ nonce_after (nonce_bytes new_nonce) latest.0 }
{
    match new_nonce {
        Some(nonce) => nonce,
        None => latest,
    }
}

/// What an epoch's tree is built on: the root before it, if there is one, and its nonce.
///
/// If it is built anew, nothing of the root is retained.
#[derive(Clone, Copy)]
pub(crate) struct Ground {
    pub(crate) root: Option<Root>,
    pub(crate) is_anew: bool,
    pub(crate) nonce: Nonce,
}

/// Returns the part of the checked operations.
///
/// It is the map under the root, or the empty map if there is none, overwritten by their changes.
pub(crate) fn part_of<H: Hash32 + Sync, X: IndexSource, G: Gate + Sync, R: Threads + Sync>(
    build: &Build<'_, G, R>,
    origin: &Origin<'_, H, X>,
    pending: &PendingRecords,
    ground: &Ground,
) -> Result<Part, OutOfMemory>
    requires numbered { All (λ n. n < length pending.now.records.items) (values pending.now.numbers) }
    requires root { IfSome ground.now.root (λ r. r.0 < length origin.now.stored.now.tree.nodes) }
    ensures { IfOk result (λ part. (index_of : Octets → Octets) (latest : Octets) (registry : Registry) (ops : List Operation)
        → (ground.now.is_anew ≡ false → latest ≡ ground.now.nonce.0)
        → ShowsLatest (H.digest_of origin.now.h.now) index_of latest (table_of origin.now.stored.now.tree) ground.now.root registry
        → ArePendingRecords (H.digest_of origin.now.h.now) index_of (map bound_by ops) pending.now.records.items pending.now.numbers
        → AreCommitted (H.digest_of origin.now.h.now) pending.now.records.items → first_fault index_of registry ops ≡ None
        → IsBuilt (H.digest_of origin.now.h.now) index_of ground.now.nonce.0
        (table_of origin.now.stored.now.tree) ground.now.root registry ops ground.now.is_anew part pending.now.records.items) }
{
    let Origin { alloc, stored, .. } = *origin;
    let changes = changes_of(alloc, stored.tree.records(), pending)?;
    let growth = growth_of(alloc, &stored.tree, ground.root, ground.is_anew, changes)?;
    Ok(coniks_threads::build(
        build.rt,
        alloc,
        origin.h,
        &ground.nonce,
        &stored.tree,
        growth.root,
        &growth.changes,
        build.parallelism.depth(),
        build.parallelism.workers(),
        build.gate,
    )?)
}

/// Returns the update of a part that was built of the records, or `OutOfMemory` if no memory could hold the part's nodes.
pub(crate) fn update_of(
    stored: &DirectoryState,
    version: u8,
    nonce: Nonce,
    part: Part,
    pending: PendingRecords,
) -> Result<Prepared, OutOfMemory>
    requires fits { Fits (length stored.now.tree.nodes) 0 part }
    ensures base { IfOk result (λ p. p.base ≡ length (state_of stored.now).epochs) }
    ensures version { IfOk result (λ p. p.version ≡ version) }
    ensures nonce { IfOk result (λ p. p.nonce ≡ nonce) }
    ensures part { IfOk result (λ p. p.part ≡ part) }
    ensures records { IfOk result (λ p. p.records ≡ pending.records) }
{
    let new_nodes = stored.tree.new_nodes(&part);
    if new_nodes == usize::MAX {
        return Err(OutOfMemory);
    }
    let PendingRecords { records, .. } = pending;
    Ok(Prepared {
        base: stored.count(),
        version,
        nonce,
        part,
        records,
        new_nodes,
    })
}

/// Returns the records of a batch's operations, with their commitments after all are checked.
///
/// # Errors
///
/// The position of the first operation that has an error, and its first error, or `OutOfMemory` if an allocation fails.
fn checked<H: Hash32 + Sync, X: IndexSource, G: Gate + Sync, R: Threads + Sync>(
    build: &Build<'_, G, R>,
    origin: &Origin<'_, H, X>,
    root: Option<Root>,
    ops: Vec<Op>,
) -> Result<PendingRecords, BatchFault>
    requires root { IfSome root (λ r. r.0 < length origin.now.stored.now.tree.nodes) }
    ensures pending { IfOk result (λ pending. ArePendingRecords (H.digest_of origin.now.h.now)
        (X.index_of origin.now.source.now) (map bound_by (operations ops.items)) pending.records.items pending.numbers) }
    ensures committed { IfOk result (λ pending. AreCommitted (H.digest_of origin.now.h.now) pending.records.items) }
    ensures faultless { OnOk result ((nonce : Octets) (registry : Registry)
        → ShowsLatest (H.digest_of origin.now.h.now) (X.index_of origin.now.source.now) nonce (table_of origin.now.stored.now.tree) root registry
        → first_fault (X.index_of origin.now.source.now) registry (operations ops.items) ≡ None) }
    ensures fault { IfErr result (λ fault. (nonce : Octets) (registry : Registry)
        → ShowsLatest (H.digest_of origin.now.h.now) (X.index_of origin.now.source.now) nonce (table_of origin.now.stored.now.tree) root registry
        → IsJudgedFault (X.index_of origin.now.source.now) registry (operations ops.items) fault) }
{
    let mut pending = judged(origin.alloc, origin.source, &origin.stored.tree, root, ops)?;
    pending.commit_records(build, origin.h);
    Ok(pending)
}

/// Prepares the update of a batch, with a new nonce or under the latest one.
///
/// The batch is checked before any node is made. Its length is within its limit.
pub(crate) fn update_on<H: Hash32 + Sync, X: IndexSource, G: Gate + Sync, R: Threads + Sync>(
    build: &Build<'_, G, R>,
    origin: &Origin<'_, H, X>,
    new_nonce: Option<Nonce>,
    ops: Vec<Op>,
) -> Result<Prepared, BatchFault>
    requires whole { Whole (H.digest_of origin.now.h.now) (X.index_of origin.now.source.now) (state_of origin.now.stored.now) }
    ensures update { IfOk result (IsUpdateBy (H.digest_of origin.now.h.now)
        (X.index_of origin.now.source.now) (state_of origin.now.stored.now) (nonce_bytes new_nonce) ops.items) }
    ensures faultless { OnOk result
        (first_fault (X.index_of origin.now.source.now) (latest_registry (history_of (state_of origin.now.stored.now))) (operations ops.items) ≡ None) }
    ensures fault { IfErr result (IsJudgedFault (X.index_of origin.now.source.now)
        (latest_registry (history_of (state_of origin.now.stored.now))) (operations ops.items)) }
{
    let stored = origin.stored;
    let root = stored.latest_root();
    let version = version_after(new_nonce, stored.latest_version());
    let nonce = nonce_after(new_nonce, stored.latest_nonce());
    let pending = checked(build, origin, root, ops)?;
    let ground = Ground {
        root,
        is_anew: new_nonce.is_some(),
        nonce,
    };
    let Ok(part) = part_of(build, origin, &pending, &ground) else {
        return Err(BatchFault::OutOfMemory);
    };
    match update_of(stored, version, nonce, part, pending) {
        Ok(update) => Ok(update),
        Err(_) => Err(BatchFault::OutOfMemory),
    }
}
