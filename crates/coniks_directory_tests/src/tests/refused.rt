//! Calls that run out of memory. `faults/run` makes each allocation fail in turn. If one fails before the tested call,
//! that step is repeated. The call has the result that it has with ample memory, or returns its own `OutOfMemory`, and
//! the same call then succeeds. Each test prints whether its call was refused.

ghost use Rattle.std.specs.Prelude.{◌≡◌, length};
ghost use Rattle.coniks_directory_tests.specs.Letters.{index_of_letter};
ghost use Rattle.coniks_directory.specs.Supplied.{supplied_index};
ghost use Rattle.coniks_directory.specs.SuppliedBatches.{IsSuppliedUpdate};
ghost use Rattle.coniks_directory.specs.Installs.{IsNextEntry};
ghost use Rattle.coniks_directory.specs.Updates.{IsUpdate, IsUpdateOf};
ghost use Rattle.coniks_proof.specs.Octets.{Octets};

mod restore;

use crate::tests::answers::{Reported, requested};
use crate::tests::clerk::{A, B, Clerk, Letters, Written, ops_of, with_clerk};
use crate::tests::runs::{install_supplied_next, prepare_next, prepare_owned_next, supply_next};
use coniks_base_tests::{NEW_NONCE, NONCE, POLICY, digest};
use coniks_chain::{Entry, Signature};
use coniks_directory::OpKind::{Change, Register};
use coniks_directory::{
    BatchFault, CommitFault, Directory, IndexSource, InstallFault, LookupAtFault, LookupFault, Op,
    OwnedBatch, Prepared, SuppliedBatchFault, SuppliedIndices, SupplyFault,
};
use coniks_proof::{Hash32, Head, Index, Nonce, Sha256Hash};
use coniks_threads::{Parallelism, Publisher};
use std::alloc::Global;
use std::process::Abort;
use std::thread::Threads;

const FIRST: [Written; 2] = [A, B];

/// A change on each side of the root, so that there are two jobs at depth 1.
const SECOND: [Written; 2] = [(Change, b'b', b'l'), (Register, b'c', b'k')];

/// Two new names and a change between them.
const MIXED: [Written; 3] = [
    (Register, b'd', b'k'),
    (Change, b'b', b'l'),
    (Register, b'c', b'k'),
];

/// The links of the first entry, and of the second one after `SECOND`, after `SECOND` under a new nonce, and after
/// `MIXED`.
const FIRST_LINK: &str = "9efd9e7911a2ebeef55ec07b8784e4a86ec0ffd7569f4d6aefdbc195087a1298";

const SECOND_LINK: &str = "d60b4104456202ba0c3ab12eeb8dad9fc6cc779a45b12326cf7595b703401fa9";

const ROTATED_LINK: &str = "f295deabe71fa4bf85bbc828f13551fadd8814fe82896768389299394b472d52";

const MIXED_LINK: &str = "a7b5bd21f961c2e087a6322529435f19eab6b2d4fc2dffa91274140414493b38";

/// Returns the operations of a batch, and makes them again if an allocation fails.
fn batch(rt: &impl Abort, alloc: Global, written: &[Written]) -> Vec<Op> {
    match ops_of(alloc, written) {
        Ok(ops) => ops,
        Err(_) => ops_of(alloc, written).expect(rt, "memory"),
    }
}

/// Prepares a batch at depth 1, under a new nonce if there is one, and prepares it again if an allocation fails.
/// Returns the update, and whether one failed.
fn prepare_at_last<R: Threads + Sync + Abort>(
    rt: &R,
    clerk: &Clerk,
    new_nonce: Option<Nonce>,
    ops: &[Op],
    workers: usize,
) -> (Prepared, bool)
    ensures { IsUpdateOf (⟦<Sha256Hash as Hash32>⟧.digest_of clerk.now.directory.hash) index_of_letter clerk.now.directory.state result.0 }
{
    match prepare_next(rt, &clerk.directory, new_nonce, ops, workers) {
        Ok(update) => (update, false),
        Err(fault) => {
            assert!(rt; fault == BatchFault::OutOfMemory, "{fault}");
            let again = prepare_next(rt, &clerk.directory, new_nonce, ops, workers);
            (again.expect(rt, "an update"), true)
        }
    }
}

/// Installs an update, and installs the returned one again if an allocation fails. Returns whether one failed.
fn install_at_last(rt: &impl Abort, clerk: &mut Clerk, update: Prepared, t: u64) -> bool
    requires { IsUpdateOf (⟦<Sha256Hash as Hash32>⟧.digest_of clerk.old.directory.hash) index_of_letter clerk.old.directory.state update }
{
    let Err((fault, update)) = clerk.install(update, t) else {
        return false;
    };
    assert!(rt; fault == InstallFault::OutOfMemory, "{fault}");
    assert!(rt; clerk.install(update, t).is_ok());
    true
}

/// Asserts that the last head has this epoch and this link.
fn ends_with(rt: &impl Abort, publisher: &Publisher, epoch: u64, link: &str) {
    let link = digest(link);
    assert!(rt; publisher.last() == Some(Head { epoch, link }));
}

/// Prepares and installs the first batch. Returns whether an allocation fails while it is installed.
fn first_epoch<R: Threads + Sync + Abort>(rt: &R, clerk: &mut Clerk) -> bool {
    let ops = batch(rt, clerk.alloc, &FIRST);
    let (update, _) = prepare_at_last(rt, clerk, None, &ops, 1);
    let refused = install_at_last(rt, clerk, update, 1);
    ends_with(rt, &clerk.publisher, 1, FIRST_LINK);
    refused
}

/// Prepares the second batch, under a new nonce if there is one, and installs it. Returns whether an allocation fails
/// while it is prepared.
fn second_epoch<R: Threads + Sync + Abort>(
    rt: &R,
    clerk: &mut Clerk,
    new_nonce: Option<Nonce>,
    workers: usize,
) -> bool {
    first_epoch(rt, clerk);
    let ops = batch(rt, clerk.alloc, &SECOND);
    let (update, refused) = prepare_at_last(rt, clerk, new_nonce, &ops, workers);
    assert!(rt; update.new_nodes() == 5);
    install_at_last(rt, clerk, update, 2);
    let link = if new_nonce.is_some() {
        ROTATED_LINK
    } else {
        SECOND_LINK
    };
    ends_with(rt, &clerk.publisher, 2, link);
    refused
}

/// Prints whether an allocation of the call failed.
fn write(rt: &impl Print, is_refused: bool) {
    let _ = println!(rt; "{}", if is_refused { "refused" } else { "answered" });
}

/// Runs steps with the clerk of a new directory, and prints whether an allocation of the call failed.
fn tell<F: FnOnce(&mut Clerk) -> bool, R: Abort + AllocGlobal + Print>(rt: &R, steps: F)
    requires { F.IsAlwaysCallable steps }
{
    write(rt, with_clerk(rt, 4, steps));
}

/// `Directory::install` returns `OutOfMemory` if an allocation for nodes, records, epochs or entries fails.
mod install {
    use super::{first_epoch, tell};

    #[test]
    fn refused_in_turn(rt: HostRuntime) {
        tell(&rt, |clerk| first_epoch(&rt, clerk));
    }
}

/// If one worker builds the epoch, each failed allocation of `Directory::prepare` fails the call.
mod prepare {
    use super::{second_epoch, tell};

    #[test]
    fn refused_in_turn(rt: HostRuntime) {
        tell(&rt, |clerk| second_epoch(&rt, clerk, None, 1));
    }
}

/// With three workers, a failed allocation in a job fails the call. One that only costs a worker changes no result.
#[test]
fn prepare_by_three(rt: HostRuntime) {
    tell(&rt, |clerk| second_epoch(&rt, clerk, None, 3));
}

/// If one worker rehashes the whole tree under a new nonce, each failed allocation fails the call.
#[test]
fn rotate_by_one(rt: HostRuntime) {
    tell(&rt, |clerk| second_epoch(&rt, clerk, Some(NEW_NONCE), 1));
}

/// If three workers rehash the tree, each failed allocation fails the call or only costs a worker.
#[test]
fn rotate_by_three(rt: HostRuntime) {
    tell(&rt, |clerk| second_epoch(&rt, clerk, Some(NEW_NONCE), 3));
}

/// The error of a commit if an allocation fails while it prepares. `IN_INSTALL` is the error while it installs.
const IN_PREPARE: CommitFault = CommitFault::Batch(BatchFault::OutOfMemory);

const IN_INSTALL: CommitFault = CommitFault::Install(InstallFault::OutOfMemory);

/// Commits the first batch with one worker, and commits it again if an allocation fails. Returns the error.
fn commit_at_last<R: Threads + Sync + Abort>(rt: &R, clerk: &mut Clerk) -> Option<CommitFault> {
    let ops = batch(rt, clerk.alloc, &FIRST);
    let refused = clerk.commit_ops(rt, 1, &ops, 1).err();
    if let Some(fault) = refused {
        assert!(rt; fault == IN_PREPARE || fault == IN_INSTALL, "{fault}");
        assert!(rt; clerk.commit_ops(rt, 1, &ops, 1).is_ok());
    }
    ends_with(rt, &clerk.publisher, 1, FIRST_LINK);
    refused
}

/// A commit returns `IN_PREPARE` if an allocation for the update fails, and the next commit succeeds.
#[test]
fn commit_in_prepare(rt: HostRuntime) {
    tell(&rt, |clerk| commit_at_last(&rt, clerk) == Some(IN_PREPARE));
}

/// A commit returns `IN_INSTALL` if an allocation for the directory fails, and the next commit succeeds.
#[test]
fn commit_in_install(rt: HostRuntime) {
    tell(&rt, |clerk| commit_at_last(&rt, clerk) == Some(IN_INSTALL));
}

/// Looks up a key, a key of an older epoch and an absent name, each again if an allocation fails. Returns whether one
/// failed.
fn look_up_three<R: Threads + Sync + Abort>(rt: &R, clerk: &mut Clerk) -> bool {
    second_epoch(rt, clerk, None, 1);
    let mut refused = false;
    for (t, name, want) in [
        (2, "b", Reported::Key(1, b'l')),
        (1, "b", Reported::Key(1, b'k')),
        (2, "d", Reported::Absent(2)),
    ] {
        let reported = requested(&clerk.directory, t, name);
        if reported != want {
            assert!(rt;
                reported == Reported::Missed(LookupFault::OutOfMemory),
                "{reported:?}"
            );
            assert!(rt; requested(&clerk.directory, t, name) == want);
            refused = true;
        }
    }
    refused
}

/// `Directory::lookup` returns `OutOfMemory` if an allocation fails.
mod lookup {
    use super::{look_up_three, tell};

    #[test]
    fn refused_in_turn(rt: HostRuntime) {
        tell(&rt, |clerk| look_up_three(&rt, clerk));
    }
}

/// Looks up a name at its index, and looks it up again if an allocation fails. Returns whether one failed.
fn look_up_at<R: Threads + Sync + Abort>(rt: &R, clerk: &mut Clerk) -> bool {
    second_epoch(rt, clerk, None, 1);
    let index = Letters.index(b"b");
    let Some(fault) = clerk.directory.signed_lookup_at(2, b"b", index).err() else {
        return false;
    };
    assert!(rt; fault == LookupAtFault::OutOfMemory);
    assert!(rt; clerk.directory.signed_lookup_at(2, b"b", index).is_ok());
    true
}

#[test]
fn signed_lookup_at(rt: HostRuntime) {
    tell(&rt, |clerk| look_up_at(&rt, clerk));
}

/// If an allocation fails in `supply`, the index is not stored, and can be supplied again.
#[test]
fn supply(rt: HostRuntime) {
    let alloc = rt.alloc();
    let source = SuppliedIndices::new(alloc);
    let mut directory = Directory::open(alloc, Sha256Hash, source, NONCE, POLICY);
    let index = Letters.index(b"b");
    let supplied = supply_next(&mut directory, b"b", index);
    let is_refused = supplied == Err(SupplyFault::OutOfMemory);
    assert!(rt; is_refused || supplied.is_ok());
    assert!(rt; directory.source().has(b"b") != is_refused);
    if is_refused {
        assert!(rt; supply_next(&mut directory, b"b", index).is_ok());
    }
    assert!(rt; directory.source().index(b"b") == index);
    write(&rt, is_refused);
}

/// Prepares a batch with its indices, and prepares it again if an allocation fails. Returns the update, and whether one
/// failed.
fn prepare_owned_at_last<R: Threads + Sync + Abort>(
    rt: &R,
    alloc: Global,
    directory: &Directory<Sha256Hash, SuppliedIndices>,
    written: &[Written],
    indices: &[Index],
) -> (Prepared, bool)
    ensures { (index : Octets → Octets)
        × IsSuppliedUpdate (⟦<Sha256Hash as Hash32>⟧.digest_of directory.now.hash) (supplied_index directory.now.index) directory.now.state result.0 index
        × IsUpdate (⟦<Sha256Hash as Hash32>⟧.digest_of directory.now.hash) index directory.now.state result.0 }
{
    let batch = owned_batch(rt, alloc, written, indices);
    match prepare_owned_next(rt, directory, batch, Parallelism::alone()) {
        Ok(update) => (update, false),
        Err(fault) => {
            let memory = SuppliedBatchFault::Batch(BatchFault::OutOfMemory);
            assert!(rt; fault == memory, "{fault}");
            let batch = owned_batch(rt, alloc, written, indices);
            let again = prepare_owned_next(rt, directory, batch, Parallelism::alone());
            (again.expect(rt, "an update"), true)
        }
    }
}

/// Returns a batch with these indices.
fn owned_batch<R: Abort>(
    rt: &R,
    alloc: Global,
    written: &[Written],
    indices: &[Index],
) -> OwnedBatch
    ensures { length result.ops.items ≡ length result.indices.items }
{
    let ops = batch(rt, alloc, written);
    let indices = match Vec::from_slice(alloc, indices) {
        Ok(copied) => copied,
        Err(_) => Vec::from_slice(alloc, indices).expect(rt, "memory"),
    };
    assert!(rt; ops.len() == indices.len());
    OwnedBatch {
        nonce: None,
        ops,
        indices,
    }
}

/// Returns the signed entry of an update.
fn next_entry(
    directory: &Directory<Sha256Hash, SuppliedIndices>,
    update: &Prepared,
    t: u64,
) -> Entry
    requires { (index : Octets → Octets)
        × IsSuppliedUpdate (⟦<Sha256Hash as Hash32>⟧.digest_of directory.now.hash) (supplied_index directory.now.index) directory.now.state update.now index
        × IsUpdate (⟦<Sha256Hash as Hash32>⟧.digest_of directory.now.hash) index directory.now.state update.now }
    ensures { IsNextEntry ⟦<Sha256Hash as Hash32>⟧.digest_of directory.now update.now result }
{
    let body = directory.next_body(update, t);
    Entry {
        body,
        signature: Signature([0x55; 64]),
    }
}

/// Installs an update with its indices, and installs it again if an allocation fails. Returns whether one failed. The
/// indices of the batch's first names can be supplied by then.
fn install_supplied_at_last(
    rt: &impl Abort,
    directory: &mut Directory<Sha256Hash, SuppliedIndices>,
    update: Prepared,
    t: u64,
) -> bool
    requires { (index : Octets → Octets)
        × IsSuppliedUpdate (⟦<Sha256Hash as Hash32>⟧.digest_of directory.old.hash) (supplied_index directory.old.index) directory.old.state update index
        × IsUpdate (⟦<Sha256Hash as Hash32>⟧.digest_of directory.old.hash) index directory.old.state update }
{
    let entry = next_entry(directory, &update, t);
    let installed = install_supplied_next(directory, update, entry);
    let Err((fault, update)) = installed else {
        return false;
    };
    assert!(rt; fault == InstallFault::OutOfMemory, "{fault}");
    let installed = install_supplied_next(directory, update, entry);
    assert!(rt; installed.is_ok());
    true
}

/// Asserts that the latest epoch has this number, and its entry this link.
fn latest_is<X: IndexSource>(
    rt: &impl Abort,
    directory: &Directory<Sha256Hash, X>,
    epoch: u64,
    link: &str,
) {
    assert!(rt; directory.latest_epoch() == epoch);
    assert!(rt; directory.latest_link() == digest(link));
}

/// Prepares and installs two batches with their indices. Returns whether an allocation fails while the second is
/// prepared, and whether one fails during its install.
fn supplied_epochs<R: Threads + Sync + Abort>(rt: &R, alloc: Global) -> (bool, bool) {
    let source = SuppliedIndices::new(alloc);
    let mut directory = Directory::open(alloc, Sha256Hash, source, NONCE, POLICY);
    let [a, b, c, d] = [b"a", b"b", b"c", b"d"].map(|name| Letters.index(name));
    let (first, _) = prepare_owned_at_last(rt, alloc, &directory, &FIRST, &[a, b]);
    install_supplied_at_last(rt, &mut directory, first, 1);
    latest_is(rt, &directory, 1, FIRST_LINK);
    let second = prepare_owned_at_last(rt, alloc, &directory, &MIXED, &[d, b, c]);
    let (second, in_prepare) = second;
    assert!(rt; second.new_nodes() == 7);
    let in_install = install_supplied_at_last(rt, &mut directory, second, 2);
    latest_is(rt, &directory, 2, MIXED_LINK);
    assert!(rt; directory.source().count() == 4);
    (in_prepare, in_install)
}

/// If a batch is out of memory, it can be prepared again.
#[test]
fn prepare_owned(rt: HostRuntime) {
    let (is_refused, _) = supplied_epochs(&rt, rt.alloc());
    write(&rt, is_refused);
}

/// If an install is out of memory, it returns the update, which can be installed again whichever indices are supplied.
#[test]
fn install_supplied(rt: HostRuntime) {
    let (_, is_refused) = supplied_epochs(&rt, rt.alloc());
    write(&rt, is_refused);
}
