//! The state of a directory that is restored from a snapshot.

ghost use Rattle.std.specs.Prelude.{◌≡◌, ◌≢◌, ◌+◌, ◌++◌, [], None, List, IfErr, IfOk, OnOk, length, true, false};
ghost use Rattle.coniks_chain.specs.Evidence.{IsWellFormed};
ghost use Rattle.coniks_proof.specs.Batches.{Operation, after};
ghost use Rattle.coniks_proof.specs.Octets.{Octets};
ghost use Rattle.coniks_proof.specs.Registry.{root_of};
ghost use Rattle.coniks_tree.specs.Parts.{Fits, Placed};
ghost use Rattle.coniks_directory.specs.Installed.{IsFirst};
ghost use Rattle.coniks_directory.specs.Nodes.{epoch_nodes};
ghost use Rattle.coniks_directory.specs.Restored.{IsEntryFault, IsRestorable, IsRestoreFault, IsRestoring, Restores, registrations, stated_before};
ghost use Rattle.coniks_directory.specs.State.{IsDirectory, IsLinked, Whole, opened, state_of};
ghost use Rattle.coniks_directory.specs.Updates.{IsUpdate, nodes_added, registry_after};

use crate::build::Build;
use crate::install::{SignedEntry, enter, make_room};
use crate::pending::PendingRecords;
use crate::preparing::{Ground, Origin, part_of, update_of};
use crate::source::IndexSource;
use crate::state::DirectoryState;
use crate::update::Prepared;
use coniks_chain::{AuditorState, Entry, is_well_formed, link};
use coniks_proof::{Digest, Hash32};
use coniks_threads::Gate;
use coniks_tree::OutOfMemory;
use std::alloc::Global;
use std::thread::Threads;
use thiserror::Error;

/// The error of a restore. If several apply, the first in declaration order is returned.
#[derive(Clone, Copy, Debug, Drop, PartialEq, Eq, Error)]
pub enum RestoreFault {
    #[error("the entry's epoch isn't later than the one before it")]
    NotLater,
    #[error("the entry's version is neither 1 nor 2")]
    Version,
    #[error("the epoch before the entry's is 0, and its previous link isn't 32 zero bytes")]
    Malformed,
    #[error("the root of the bindings isn't the entry's")]
    RootDiffers,
    #[error("out of memory")]
    OutOfMemory,
}

/// Checks that a good chain can have an entry, whatever is before it.
pub(crate) fn check_entry(entry: &Entry) -> Result<(), RestoreFault>
    ensures formed { OnOk result (IsWellFormed entry.now.body) }
    ensures refused { IfErr result (IsEntryFault entry.now) }
{
    let body = &entry.body;
    if body.t <= body.t_prev {
        return Err(RestoreFault::NotLater);
    }
    if body.version != 1 && body.version != 2 {
        return Err(RestoreFault::Version);
    }
    if !is_well_formed(body) {
        return Err(RestoreFault::Malformed);
    }
    Ok(())
}

/// Returns what an entry says of the one before it.
fn stated_before(entry: &Entry) -> AuditorState
    ensures { result ≡ stated_before entry.now }
{
    AuditorState {
        t: entry.body.t_prev,
        link: entry.body.previous,
        version: entry.body.version,
        nonce: entry.body.nonce,
    }
}

/// Returns the update of all bindings on the state of `open`, with the version and the nonce of the entry.
fn first_update<H: Hash32 + Sync, X: IndexSource, G: Gate + Sync, R: Threads + Sync>(
    build: &Build<'_, G, R>,
    origin: &Origin<'_, H, X>,
    entry: &Entry,
    mut pending: PendingRecords,
) -> Result<Prepared, OutOfMemory>
    requires restoring { IsRestoring (H.digest_of origin.now.h.now) (X.index_of origin.now.source.now)
        entry.now (state_of origin.now.stored.now) pending.records.items pending.numbers }
    ensures update { IfOk result (IsUpdate (H.digest_of origin.now.h.now) (X.index_of origin.now.source.now) (state_of origin.now.stored.now)) }
    ensures version { IfOk result (λ p. p.version ≡ entry.now.body.version) }
    ensures nonce { IfOk result (λ p. p.nonce ≡ entry.now.body.nonce) }
    ensures registry { IfOk result (λ p. registry_after (state_of origin.now.stored.now) p ≡ after [] (registrations pending.records.items)) }
    ensures nodes { IfOk result (λ p. nodes_added p ≡ epoch_nodes (X.index_of origin.now.source.now) [] None (registrations pending.records.items)) }
{
    let nonce = entry.body.nonce;
    pending.commit_records(build, origin.h);
    let ground = Ground {
        root: None,
        is_anew: false,
        nonce,
    };
    let part = part_of(build, origin, &pending, &ground)?;
    let update = update_of(origin.stored, entry.body.version, nonce, part, pending)?;
    Ok(update)
}

/// Returns whether the tree that an update leaves has this root.
fn has_root<H: Hash32>(stored: &DirectoryState, h: &H, update: &Prepared, root: &Digest) -> bool
    requires { Fits (length stored.now.tree.nodes) 0 update.now.part }
    ensures same { result ≡ true → (index_of : Octets → Octets) → IsUpdate (H.digest_of h.now) index_of (state_of stored.now) update.now
        → root.now.0 ≡ root_of (H.digest_of h.now) index_of update.now.nonce.0 (registry_after (state_of stored.now) update.now) }
    ensures other { result ≡ false → (index_of : Octets → Octets) → IsUpdate (H.digest_of h.now) index_of (state_of stored.now) update.now
        → root.now.0 ≢ root_of (H.digest_of h.now) index_of update.now.nonce.0 (registry_after (state_of stored.now) update.now) }
{
    stored.tree.part_hash(h, &update.nonce, &update.part).0 == root.0
}

/// Attaches an update to the state of `open`, and adds this entry, which follows what it says of the one before it.
fn enter_first<H: Hash32>(
    stored: &mut DirectoryState,
    h: &H,
    update: Prepared,
    entry: Entry,
) -> Result<(), OutOfMemory>
    requires fits { Fits (length stored.old.tree.nodes) 0 update.part }
    requires placed { Placed (stored.old.tree.records ++ update.records.items) update.part }
    ensures linked { OnOk result (IsLinked (H.digest_of h.now) stored.new) }
    ensures nodes { OnOk result (length stored.new.tree.nodes ≡ length stored.old.tree.nodes + nodes_added update) }
    ensures restored { OnOk result ((index_of : Octets → Octets) (ops : List Operation) → state_of stored.old ≡ opened entry.body.nonce.0 entry.body.policy
        → IsUpdate (H.digest_of h.now) index_of (state_of stored.old) update → IsFirst (H.digest_of h.now) index_of (state_of stored.old) update ops entry
        → Whole (H.digest_of h.now) index_of (state_of stored.new) × Restores entry ops (state_of stored.new)) }
{
    make_room(stored, &update)?;
    let t = entry.body.t;
    stored.before = Some(stated_before(&entry));
    let link = link(h, &entry);
    enter(stored, h, update, t, SignedEntry { entry, link });
    Ok(())
}

/// A restore so far: the entry, the state of `open` under its nonce and policy, and the records of the bindings.
#[derive(Drop)]
pub(crate) struct Begun {
    pub(crate) entry: Entry,
    pub(crate) stored: DirectoryState,
    pub(crate) pending: PendingRecords,
}

/// Returns the state of a directory whose only epoch is that of the entry, with these bindings.
pub(crate) fn restored<H: Hash32 + Sync, X: IndexSource, G: Gate + Sync, R: Threads + Sync>(
    build: &Build<'_, G, R>,
    alloc: Global,
    h: &H,
    source: &X,
    begun: Begun,
) -> Result<DirectoryState, RestoreFault>
    requires { IsRestoring (H.digest_of h.now) (X.index_of source.now) begun.entry (state_of begun.stored)
        begun.pending.records.items begun.pending.numbers }
    ensures retained { IfOk result (λ later. IsDirectory (H.digest_of h.now) (X.index_of source.now) later) }
    ensures restored { IfOk result (λ later. Restores begun.entry (registrations begun.pending.records.items) (state_of later)) }
    ensures nodes { IfOk result (λ later. length (state_of later).nodes
        ≡ epoch_nodes (X.index_of source.now) [] None (registrations begun.pending.records.items)) }
    ensures accepted { OnOk result (IsRestorable (H.digest_of h.now) (X.index_of source.now)
        begun.entry (registrations begun.pending.records.items)) }
    ensures refused { IfErr result (IsRestoreFault (H.digest_of h.now) (X.index_of source.now)
        begun.entry (registrations begun.pending.records.items)) }
{
    let Begun {
        entry,
        mut stored,
        pending,
    } = begun;
    let origin = Origin {
        alloc,
        h,
        source,
        stored: &stored,
    };
    let Ok(update) = first_update(build, &origin, &entry, pending) else {
        return Err(RestoreFault::OutOfMemory);
    };
    if !has_root(&stored, h, &update, &entry.body.root) {
        return Err(RestoreFault::RootDiffers);
    }
    match enter_first(&mut stored, h, update, entry) {
        Ok(()) => Ok(stored),
        Err(_) => Err(RestoreFault::OutOfMemory),
    }
}
