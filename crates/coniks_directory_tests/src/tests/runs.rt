//! Calls of a directory as steps of a run, each proved from public contracts alone, and the directory theorem for them.

ghost use Rattle.std.specs.Prelude.{◌≡◌, ◌<◌, ◌-◌, ◌^◌, ◌++◌, [], ◌∷◌, ℕ, List, Option, None, IfErr, IfOk, OnErr, OnOk, length, option_map, true};
ghost use Rattle.coniks_directory.specs.Batches.{operations};
ghost use Rattle.coniks_directory.specs.History.{root_at, shown_at};
ghost use Rattle.coniks_directory.specs.Installs.{IsNextEntry};
ghost use Rattle.coniks_directory.specs.Lookups.{IsAcceptedAt};
ghost use Rattle.coniks_directory.specs.Runs.{Batch, IsPreparedOf, Run, Start, defined, restoring};
ghost use Rattle.coniks_directory.specs.State.{State};
ghost use Rattle.coniks_directory.specs.Directories.{registry};
ghost use Rattle.coniks_directory.specs.Supplied.{AgreeOn, supplied_index};
ghost use Rattle.coniks_directory.specs.SuppliedBatches.{IsSuppliedUpdate, index_in, indexed};
ghost use Rattle.coniks_directory.specs.Updates.{Grows, IsUpdateOf, registry_after};
ghost use Rattle.coniks_proof.specs.Batches.{Operation};
ghost use Rattle.coniks_proof.specs.Octets.{Octets};

use crate::tests::clerk::{A, B, Clerk, Letters, Provider, Written, ops_of, with_clerk};
use coniks_base_tests::{NEW_NONCE, digest};
use coniks_chain::{Entry, Sign};
use coniks_directory::OpKind::{Change, Register};
use coniks_directory::laws::{
    directories_grow, directory_theorem, supplied_updates_stay, updates_stay,
};
use coniks_directory::{
    BatchFault, CommitFault, Directory, IndexSource, InstallFault, LookupFault, Op, OpFault,
    OwnedBatch, Prepared, RestoreFault, Restoring, SuppliedBatchFault, SuppliedIndices,
    SupplyFault, SupplyIndex,
};
use coniks_proof::{Digest, Hash32, Index, Nonce, Proof, Sha256Hash};
use coniks_threads::{Open, Parallelism, Wanted};
use std::process::Abort;
use std::thread::Threads;

/// Returns whether a signer's counts are low enough for another call.
pub fn may_sign<S: Sign>(signer: &S) -> bool
    ensures { result ≡ true → (S.made_of signer.now < 2 ^ 64 - 1) × (S.refused_of signer.now < 2 ^ 64 - 1) }
{
    signer.made() < u64::MAX && signer.refused() < u64::MAX
}

/// Prepares a batch at depth 1, under a new nonce if there is one. Any run can install the update later.
pub fn prepare_next<H: Hash32 + Sync, X: IndexSource, R: Threads + Sync>(
    rt: &R,
    directory: &Directory<H, X>,
    nonce: Option<Nonce>,
    ops: &[Op],
    workers: usize,
) -> Result<Prepared, BatchFault>
    ensures prepared { IfOk result (IsPreparedOf (H.digest_of directory.now.hash) (X.index_of directory.now.index)
        directory.now.state (option_map (λ (n : Nonce). n.0) nonce) (operations ops.now) 1 workers) }
    ensures update { IfOk result (IsUpdateOf (H.digest_of directory.now.hash) (X.index_of directory.now.index) directory.now.state) }
{
    updates_stay();
    match nonce {
        Some(nonce) => directory.prepare_with(rt, nonce, ops, 1, workers, &Open),
        None => directory.prepare(rt, ops, 1, workers, &Open),
    }
}

/// Calls `install`, which adds one batch to a run, whatever was called after the update was prepared.
#[tactic(auto, using(crate::proofs::RunSteps::handed_back))]
pub fn install_next<H: Hash32, X: IndexSource, S: Sign>(
    provider: &mut Provider<'_, H, X, S>,
    update: Prepared,
    t: u64,
) -> Result<Entry, (InstallFault, Prepared)>
    requires update { IsUpdateOf (H.digest_of provider.old.directory.hash) (X.index_of provider.old.directory.index) provider.old.directory.state update }
    requires countable { (S.made_of provider.old.signer < 2 ^ 64 - 1) × (S.refused_of provider.old.signer < 2 ^ 64 - 1) }
    ensures run { OnOk result ((then : Octets → Octets) (start : Start) (batches : List Batch)
        (earlier : State) (new_nonce : Option Octets) (ops : List Operation) (depth workers : ℕ)
        → Run (H.digest_of provider.old.directory.hash) (X.index_of provider.old.directory.index) start batches provider.old.directory.state
        → IsPreparedOf (H.digest_of provider.old.directory.hash) then earlier new_nonce ops depth workers update
        → AgreeOn then (X.index_of provider.old.directory.index) (registry_after earlier update)
        → Grows earlier provider.old.directory.state
        → Run (H.digest_of provider.new.directory.hash) (X.index_of provider.new.directory.index) start
        (batches ++ record { t = t; new_nonce = new_nonce; ops = ops } ∷ []) provider.new.directory.state) }
    ensures table { provider.new.board.now.table ≡ provider.old.board.now.table }
    ensures same { (provider.new.directory.hash ≡ provider.old.directory.hash) × (provider.new.directory.index ≡ provider.old.directory.index) }
    ensures grows { Grows provider.old.directory.state provider.new.directory.state }
    ensures unchanged { OnErr result ((provider.new.directory ≡ provider.old.directory) × (provider.new.publisher ≡ provider.old.publisher)) }
    ensures back { IfErr result (λ r. r.1 ≡ update) }
{
    provider.directory.install(
        update,
        t,
        &mut provider.signer,
        &mut provider.publisher,
        provider.board,
    )
}

/// Calls `prepare_owned`. Any run can install the update later.
pub fn prepare_owned_next<H: Hash32 + Sync, X: IndexSource, R: Threads + Sync>(
    rt: &R,
    directory: &Directory<H, X>,
    batch: OwnedBatch,
    parallelism: Parallelism,
) -> Result<Prepared, SuppliedBatchFault>
    requires { length batch.ops.items ≡ length batch.indices.items }
    ensures prepared { IfOk result
        (IsPreparedOf (H.digest_of directory.now.hash)
        (index_in (X.index_of directory.now.index) (registry directory.now) (indexed batch.ops.items batch.indices.items))
        directory.now.state (option_map (λ (n : Nonce). n.0) batch.nonce) (operations batch.ops.items)
        parallelism.depth parallelism.workers) }
    ensures installable { IfOk result (λ p. IsSuppliedUpdate (H.digest_of directory.now.hash) (X.index_of directory.now.index) directory.now.state p
        (index_in (X.index_of directory.now.index) (registry directory.now) (indexed batch.ops.items batch.indices.items))) }
{
    directory.prepare_owned(rt, batch, parallelism, &Open)
}

/// Calls `install_supplied`, which adds one batch to a run, by the indices that the directory holds afterwards.
pub fn install_supplied_next<H: Hash32>(
    directory: &mut Directory<H, SuppliedIndices>,
    update: Prepared,
    entry: Entry,
) -> Result<(), (InstallFault, Prepared)>
    requires { IsNextEntry H.digest_of directory.old update entry }
    ensures run { OnOk result ((index : Octets → Octets) (start : Start)
        (batches : List Batch) (new_nonce : Option Octets) (ops : List Operation) (depth workers : ℕ)
        → Run (H.digest_of directory.old.hash) (supplied_index directory.old.index) start batches directory.old.state
        → IsSuppliedUpdate (H.digest_of directory.old.hash) (supplied_index directory.old.index) directory.old.state update index
        → IsPreparedOf (H.digest_of directory.old.hash) index directory.old.state new_nonce ops depth workers update
        → Run (H.digest_of directory.new.hash) (supplied_index directory.new.index) start
        (batches ++ record { t = entry.body.t; new_nonce = new_nonce; ops = ops } ∷ []) directory.new.state) }
    ensures still { IfErr result (λ r. IsNextEntry H.digest_of directory.new r.1 entry) }
{
    directories_grow();
    supplied_updates_stay();
    directory.install_supplied(update, entry)
}

/// Calls `supply`. A run remains one, by the indices that the directory holds afterwards.
pub fn supply_next<H: Hash32, X: SupplyIndex>(
    directory: &mut Directory<H, X>,
    name: &[u8],
    index: Index,
) -> Result<(), SupplyFault>
    ensures run { (start : Start) (batches : List Batch)
        → Run (H.digest_of directory.old.hash) (X.index_of directory.old.index) start batches directory.old.state
        → Run (H.digest_of directory.new.hash) (X.index_of directory.new.index) start batches directory.new.state }
    ensures chain { directory.new.state.chain ≡ directory.old.state.chain }
    ensures hash { directory.new.hash ≡ directory.old.hash }
{
    directory.supply(name, index)
}

/// Calls `commit` at depth 1, which adds one batch to a run.
pub fn commit_next<H: Hash32 + Sync, X: IndexSource, S: Sign, R: Threads + Sync>(
    rt: &R,
    provider: &mut Provider<'_, H, X, S>,
    ops: &[Op],
    workers: usize,
    t: u64,
) -> Result<Entry, CommitFault>
    requires countable { (S.made_of provider.old.signer < 2 ^ 64 - 1) × (S.refused_of provider.old.signer < 2 ^ 64 - 1) }
    ensures run { OnOk result ((start : Start) (batches : List Batch)
        → Run (H.digest_of provider.old.directory.hash) (X.index_of provider.old.directory.index) start batches provider.old.directory.state
        → Run (H.digest_of provider.new.directory.hash) (X.index_of provider.new.directory.index) start
        (batches ++ record { t = t; new_nonce = None; ops = operations ops.now } ∷ []) provider.new.directory.state) }
    ensures table { provider.new.board.now.table ≡ provider.old.board.now.table }
{
    provider.directory.commit(
        rt,
        ops,
        1,
        workers,
        &Open,
        t,
        &mut provider.signer,
        &mut provider.publisher,
        provider.board,
    )
}

/// Calls `finish`, with which the run of a restored directory begins.
pub fn finish_first<H: Hash32 + Sync + Drop, X: IndexSource + Drop, R: Threads + Sync>(
    rt: &R,
    begun: Restoring<H, X>,
    parallelism: Parallelism,
) -> Result<Directory<H, X>, RestoreFault>
    ensures { IfOk result (λ directory. Run (H.digest_of directory.hash) (X.index_of directory.index) (restoring begun.entry begun.ops) [] directory.state) }
{
    begun.finish(rt, parallelism, &Open)
}

/// Calls `root_at`. After a run, the root is that of the directory that the run's batches define.
fn root_of<H: Hash32, X: IndexSource>(directory: &Directory<H, X>, t: u64) -> Option<Digest>
    ensures { (start : Start) (batches : List Batch)
        → Run (H.digest_of directory.now.hash) (X.index_of directory.now.index) start batches directory.now.state
        → option_map (λ root. root.0) result ≡ option_map
        (root_at (H.digest_of directory.now.hash) (X.index_of directory.now.index)) (shown_at (defined start batches) t) }
{
    directory_theorem();
    directory.root_at(t)
}

/// Calls `lookup`. After a run, the proof is accepted for the directory that the run's batches define.
fn path_of<H: Hash32, X: IndexSource>(
    directory: &Directory<H, X>,
    t: u64,
    name: &[u8],
) -> Result<Proof, LookupFault>
    ensures { (start : Start) (batches : List Batch)
        → Run (H.digest_of directory.now.hash) (X.index_of directory.now.index) start batches directory.now.state
        → IfOk result (IsAcceptedAt (H.digest_of directory.now.hash) (X.index_of directory.now.index) (defined start batches) t name.now) }
{
    directory_theorem();
    directory.lookup(t, name)
}

const C: Written = (Register, b'c', b'k');

/// The roots of epochs 3, 4 and 5: `a`, `b` and `c` are registered, `b` is changed, the nonce is rotated.
const ROOTS: [&str; 3] = [
    "9f0f0e3455b88ce5747710c5195756230f5f5a6810b4f76899e2d7d1293fd6ac",
    "3561a57a963e7a5b825887fc338f85e89b699fc6361bcb0f383fa49ae4b04042",
    "cb7706ab8b0971df8477b71cdcbbb3c780e9f4247df8ba2c3dbca124ab3a7120",
];

/// Restores the last epoch from bindings that come in two calls, in another order, with a refused call and one of no binding
/// beside them.
fn restore<R: Threads + Sync + Abort>(rt: &R, clerk: &Clerk) {
    let entry = *clerk.directory.chain().last().expect(rt, "an entry");
    let begun = Restoring::new(clerk.alloc, Sha256Hash, Letters, entry);
    let mut begun = begun.expect(rt, "a restore");
    let fault = OpFault::NameUnknown;
    let unknown = BatchFault::At { position: 1, fault };
    let last: [Written; 2] = [(Register, b'b', b'l'), A];
    for (written, refused) in [
        (&[][..], None),
        (&[C][..], None),
        (&[A, (Change, b'd', b'k')][..], Some(unknown)),
        (&last[..], None),
    ] {
        let ops = ops_of(clerk.alloc, written).expect(rt, "operations");
        assert!(rt; begun.add(&ops).err() == refused);
    }
    let again = finish_first(
        rt,
        begun,
        Parallelism::nearest(Wanted {
            workers: 2,
            depth: 1,
        }),
    );
    let again = again.expect(rt, "a directory");
    assert!(rt; again.chain() == [entry].as_slice());
    assert!(rt; root_of(&again, 5) == root_of(&clerk.directory, 5));
}

/// Commits a batch, prepares and installs another, rotates the nonce, and restores the last epoch.
fn run_and_restore<R: Threads + Sync + Abort>(rt: &R, clerk: &mut Clerk) {
    assert!(rt; clerk.commit(rt, 3, &[A, B, C]).is_ok());
    for (t, nonce, written) in [
        (4, None, &[(Change, b'b', b'l')][..]),
        (5, Some(NEW_NONCE), &[][..]),
    ] {
        let ops = ops_of(clerk.alloc, written).expect(rt, "operations");
        let update = prepare_next(rt, &clerk.directory, nonce, &ops, 2);
        assert!(rt; clerk.install(update.expect(rt, "an update"), t).is_ok());
    }
    for (t, root) in (3..6u64).zip(ROOTS) {
        assert!(rt; root_of(&clerk.directory, t) == Some(digest(root)));
    }
    let path = path_of(&clerk.directory, 4, b"b").ok().expect(rt, "a path");
    assert!(rt; path.siblings.as_slice().len() == 1);
    restore(rt, clerk);
}

/// A run of three batches has the roots that another program computed, and its last epoch can be restored.
#[test]
fn steps_of_a_run(rt: HostRuntime) {
    with_clerk(&rt, 4, |clerk| run_and_restore(&rt, clerk));
}
