//! A directory whose indices are supplied: lookups, batches and installs that come with the indices of names.

ghost use Rattle.std.specs.Prelude.{◌≡◌, ◌++◌, ◌∷◌, [], List, Some, IfErr, IfOk, OnErr, OnOk, length, true, false};
ghost use Rattle.coniks_chain.specs.Entries.{link_preimage};
ghost use Rattle.coniks_proof.specs.Registry.{has_name};
ghost use Rattle.coniks_directory.specs.Batches.{operations};
ghost use Rattle.coniks_directory.specs.Directories.{FindsAt, ShowsAt, entry, history, index_with, registry};
ghost use Rattle.coniks_directory.specs.Supplied.{IsMissedAt, MaySupply};
ghost use Rattle.coniks_directory.specs.Updates.{IsUpdateOf};

use crate::batch::{BatchFault, Op, check_length};
use crate::build::Build;
use crate::directory::Directory;
use crate::install::{SignedEntry, check_next, enter, make_room};
use crate::judge::judged;
use crate::lengths::is_name;
use crate::linked::LinkedEntry;
use crate::lookup::{LookupAtFault, SignedProof};
use crate::preparing::{Origin, update_on};
use crate::source::IndexSource;
use crate::supplied::{SuppliedIndices, SupplyFault, SupplyIndex};
use crate::supplied_batch::{BatchIndices, OwnedBatch, SuppliedBatchFault, earlier_of, supply_all};
use crate::update::{InstallFault, Prepared};
use coniks_chain::{Entry, link};
use coniks_proof::{Digest, Hash32, Index, Nonce, Sha256Hash};
use coniks_threads::{Gate, Parallelism};
use std::alloc::AllocError;
use std::thread::Threads;

impl<H: Hash32, X: IndexSource> Directory<H, X> {
    ghost use Rattle.coniks_directory.specs.Supplied.{HasOtherIndex};

    /// Returns whether the name is registered with an index other than this one.
    pub fn has_other_index(&self, name: &[u8], index: &Index) -> bool
        ensures yes { result ≡ true → HasOtherIndex (X.index_of self.now.index) (registry self.now) name.now index.now.0 }
        ensures no { result ≡ false → has_name (registry self.now) name.now ≡ true → X.index_of self.now.index name.now ≡ index.now.0 }
    {
        let own = self.source.index(name);
        own.0 != index.0 && self.is_registered_at(&own, name)
    }

    /// Looks up a name at an index that comes with the call, and stores nothing.
    ///
    /// Returns the epoch's entry and the index with the proof, which is the one that `lookup` returns if the source gives
    /// the name this index. The call waits for no other thread.
    ///
    /// # Errors
    ///
    /// If several apply, the first in this order is returned.
    ///
    /// - `UnknownEpoch` if no epoch was installed under exactly this number.
    /// - `NameLength` if the name is empty or longer than `MAX_NAME` bytes.
    /// - `OtherIndex` if the name is registered with another index.
    /// - `OutOfMemory` if an allocation fails.
    pub fn signed_lookup_at(
        &self,
        t: u64,
        name: &[u8],
        supplied: Index,
    ) -> Result<SignedProof, LookupAtFault>
        ensures entry { IfOk result (λ it. entry self.now t ≡ Some it.entry) }
        ensures index { IfOk result (λ it. it.index ≡ supplied) }
        ensures may { OnOk result (MaySupply (X.index_of self.now.index) (registry self.now) name.now supplied.0) }
        ensures ok { IfOk result (λ it. FindsAt H.digest_of X.index_of self.now t name.now supplied.0 it.proof) }
        ensures accepted { IfOk result (λ it. ShowsAt H.digest_of X.index_of self.now t name.now supplied.0 it.proof) }
        ensures missed { IfErr result (IsMissedAt (X.index_of self.now.index) (history self.now) (registry self.now) t name.now supplied.0) }
    {
        let Some((epoch, signed)) = self.stored.installed(t) else {
            return Err(LookupAtFault::UnknownEpoch);
        };
        if !is_name(name) {
            return Err(LookupAtFault::NameLength);
        }
        if self.has_other_index(name, &supplied) {
            return Err(LookupAtFault::OtherIndex);
        }
        match self.stored.tree.path(epoch.root, &supplied) {
            Ok(proof) => Ok(SignedProof {
                entry: signed,
                index: supplied,
                proof,
            }),
            Err(_) => Err(LookupAtFault::OutOfMemory),
        }
    }
}

impl<H: Hash32, X: SupplyIndex> Directory<H, X> {
    ghost use Rattle.coniks_directory.specs.Supplied.{AgreeOn, IsSupplied, IsSupplyFault};
    ghost use Rattle.coniks_directory.specs.Updates.{registry_after};

    /// Supplies the index of a name, which the name has from then on.
    ///
    /// A registered name keeps its index and can be supplied it again. All that is installed is unchanged. A prepared
    /// update can still be installed, unless it binds the name and was prepared under another index of it.
    ///
    /// # Errors
    ///
    /// If several apply, the first in this order is returned. After an error nothing has changed.
    ///
    /// - `NameLength` if the name is empty or longer than `MAX_NAME` bytes.
    /// - `OtherIndex` if the name is registered with another index.
    /// - `OutOfMemory` if an allocation fails.
    pub fn supply(&mut self, name: &[u8], index: Index) -> Result<(), SupplyFault>
        ensures supplied { OnOk result (IsSupplied (X.index_of self.old.index) name.now index.0 (X.index_of self.new.index)) }
        ensures may { OnOk result (MaySupply (X.index_of self.old.index) (registry self.old) name.now index.0) }
        ensures agree { AgreeOn (X.index_of self.old.index) (X.index_of self.new.index) (registry self.old) }
        ensures updates { OnOk result ((update : Prepared)
            → (has_name (registry_after self.old.state update) name.now ≡ true → X.index_of self.old.index name.now ≡ index.0)
            → IsUpdateOf (H.digest_of self.old.hash) (X.index_of self.old.index) self.old.state update
            → IsUpdateOf (H.digest_of self.new.hash) (X.index_of self.new.index) self.new.state update) }
        ensures state { self.new.state ≡ self.old.state }
        ensures hash { self.new.hash ≡ self.old.hash }
        ensures refused { IfErr result (IsSupplyFault (X.index_of self.old.index) (registry self.old) name.now index.0) }
        ensures unchanged { OnErr result (self.new ≡ self.old) }
    {
        if !is_name(name) {
            return Err(SupplyFault::NameLength);
        }
        if self.has_other_index(name, &index) {
            return Err(SupplyFault::OtherIndex);
        }
        let Ok(()) = self.source.supply(name, index) else {
            return Err(SupplyFault::OutOfMemory);
        };
        Ok(())
    }
}

impl<H: Hash32> Directory<H, SuppliedIndices> {
    ghost use Rattle.coniks_directory.specs.Installs.{IsNextEntry};
    ghost use Rattle.coniks_directory.specs.Supplying.{InstallsSupplied};

    /// Supplies the indices of an update's names, and installs the update with its entry, which has this link.
    #[tactic(auto, using(crate::proofs::FreshLemmas::growth))]
    fn install_next(
        &mut self,
        update: Prepared,
        entry: Entry,
        link: Digest,
    ) -> Result<(), (InstallFault, Prepared)>
        requires next { IsNextEntry H.digest_of self.old update entry }
        requires link { link.0 ≡ H.digest_of self.old.hash (link_preimage entry) }
        ensures { InstallsSupplied H.digest_of self.old self.new update entry result }
    {
        let t = entry.body.t;
        if let Err(fault) = check_next(&self.stored, update.base, t) {
            return Err((fault, update));
        }
        if make_room(&mut self.stored, &update).is_err() {
            return Err((InstallFault::OutOfMemory, update));
        }
        if supply_all(&mut self.source, &update.records).is_err() {
            return Err((InstallFault::OutOfMemory, update));
        }
        enter(
            &mut self.stored,
            &self.h,
            update,
            t,
            SignedEntry { entry, link },
        );
        Ok(())
    }

    /// Supplies the indices of an update's names, and installs the update with its entry, which was signed elsewhere.
    ///
    /// The update contains the indices. A name is registered from then on, and keeps its index. The call does not verify
    /// the signature, and publishes no head.
    ///
    /// The update was prepared from this directory, and the entry's body is the one that `next_body` returns. Unless an
    /// epoch was installed since then, the source still gives each registered name the index that it had.
    ///
    /// # Errors
    ///
    /// If several apply, the first in this order is returned, with the update. After an error nothing is installed.
    ///
    /// - `Stale` if an epoch was installed after the update was prepared.
    /// - `EpochNotLater` if the entry's epoch is not later than the latest one, or is 0 before the first.
    /// - `OutOfMemory` if an allocation fails. The indices of the update's first names may then be supplied, and the same
    ///   update can be installed again.
    pub fn install_supplied(
        &mut self,
        update: Prepared,
        entry: Entry,
    ) -> Result<(), (InstallFault, Prepared)>
        requires { IsNextEntry H.digest_of self.old update entry }
        ensures { InstallsSupplied H.digest_of self.old self.new update entry result }
    {
        let link = link(&self.h, &entry);
        self.install_next(update, entry, link)
    }
}

impl Directory<Sha256Hash, SuppliedIndices> {
    ghost use Rattle.coniks_directory.specs.Installs.{IsNextEntry};
    ghost use Rattle.coniks_directory.specs.Supplying.{InstallsSupplied};

    /// Installs an update as `install_supplied` does, with an entry whose link was computed before. Hashes no entry.
    ///
    /// # Errors
    ///
    /// The errors of `install_supplied`, in the same order.
    pub fn install_linked(
        &mut self,
        update: Prepared,
        entry: LinkedEntry,
    ) -> Result<(), (InstallFault, Prepared)>
        requires { IsNextEntry ⟦<Sha256Hash as Hash32>⟧.digest_of self.old update entry }
        ensures { InstallsSupplied ⟦<Sha256Hash as Hash32>⟧.digest_of self.old self.new update entry result }
    {
        let link = entry.link();
        self.install_next(update, entry.entry(), link)
    }
}

impl<H: Hash32, X: IndexSource> Directory<H, X> {
    ghost use Rattle.std.specs.Prelude.{not, ◌&&◌};
    ghost use Rattle.std.specs.Str.{bytes_eq};
    ghost use Rattle.coniks_directory.specs.State.{Whole};
    ghost use Rattle.coniks_directory.specs.Supplied.{Supplied};
    ghost use Rattle.coniks_directory.specs.SuppliedBatches.{IsEarliest, IsFresh, given_index, indexed, other_from};

    /// Adds the index that comes with an operation, unless its name is registered or an earlier operation has the name.
    ///
    /// Returns whether the name is registered with another index.
    fn add_fresh(
        &self,
        fresh: &mut SuppliedIndices,
        name: &[u8],
        index: Index,
    ) -> Result<bool, AllocError>
        ensures fresh { OnOk result ((named : List Supplied) → IsFresh (registry self.now) fresh.old named
            → IsFresh (registry self.now) fresh.new (named ++ (name.now, index.0) ∷ [])) }
        ensures other { IfOk result (λ is_other. is_other ≡ has_name (registry self.now)
            name.now && not (bytes_eq (X.index_of self.now.index name.now) index.0)) }
    {
        let own = self.source.index(name);
        if self.is_registered_at(&own, name) {
            return Ok(own.0 != index.0);
        }
        fresh.supply_first(name, index)?;
        Ok(false)
    }

    /// Returns the indices that a batch is checked by, and the position of the first operation with another index, if
    /// any.
    ///
    /// Such an operation has a name that is registered with an index other than its own. A registered name keeps its
    /// index, and another name has the one that comes with it. If the batch has a name twice, its first index counts.
    fn indices_with(
        &self,
        ops: &[Op],
        indices: &[Index],
    ) -> Result<(BatchIndices<'_, X>, Option<usize>), AllocError>
        requires { length ops.now ≡ length indices.now }
        ensures indices { IfOk result (λ it. given_index it.0.fresh (X.index_of it.0.source.now)
            ≡ index_with X.index_of self.now ops.now indices.now) }
        ensures other { IfOk result (λ it. it.1 ≡ other_from (X.index_of self.now.index) (registry self.now) 0 (indexed ops.now indices.now)) }
    {
        let mut fresh = SuppliedIndices::new(self.alloc);
        let mut other = None;
        for place in 0..ops.len() {
            let index = indices[place];
            let is_other = self.add_fresh(&mut fresh, ops[place].name.as_slice(), index)?;
            other = other.or(is_other.then_some(place));
        }
        let indices = BatchIndices {
            source: &self.source,
            fresh,
        };
        Ok((indices, other))
    }

    /// Returns the error of a batch if this position is the first with another index.
    ///
    /// It is the first error of the operations, unless that index comes before it.
    fn fault_or_other(
        &self,
        indices: &BatchIndices<'_, X>,
        ops: Vec<Op>,
        place: usize,
    ) -> SuppliedBatchFault
        requires { Whole (H.digest_of self.now.hash) (given_index indices.now.fresh (X.index_of indices.now.source.now)) self.now.state }
        ensures { IsEarliest (given_index indices.now.fresh (X.index_of indices.now.source.now)) (registry self.now) (operations ops.items) place result }
    {
        let root = self.stored.latest_root();
        let Err(fault) = judged(self.alloc, indices, &self.stored.tree, root, ops) else {
            return SuppliedBatchFault::OtherIndex { position: place };
        };
        match fault {
            BatchFault::At { position, fault } => earlier_of(position, fault, place),
            other => SuppliedBatchFault::Batch(other),
        }
    }
}

impl<H: Hash32 + Sync, X: IndexSource> Directory<H, X> {
    ghost use Rattle.coniks_directory.specs.Supplying.{IsSuppliedResult};

    /// Prepares a batch whose operations come with the indices of their names, as `prepare` and `prepare_with` do.
    ///
    /// Nothing is stored. `install_supplied` supplies the indices, so a batch that is refused or never installed leaves
    /// none. A new name is registered at the index that comes with its operation, whatever index the source has for it.
    /// There are as many indices as operations.
    ///
    /// The records of the update take the names and the keys of the operations, so that the call copies no key, and a name
    /// only until it returns.
    ///
    /// # Errors
    ///
    /// - `Batch` with the errors of `prepare` but `Workers` and `Depth`, in the same order. `OutOfMemory` can also replace
    ///   `OtherIndex`.
    /// - `OtherIndex` if a name is registered with another index; it contains the position of the first such operation.
    ///   An earlier operation's error comes first. So does an error of this operation that comes before `IndexClash`.
    pub fn prepare_owned<G: Gate + Sync, R: Threads + Sync>(
        &self,
        rt: &R,
        batch: OwnedBatch,
        parallelism: Parallelism,
        gate: &G,
    ) -> Result<Prepared, SuppliedBatchFault>
        requires { length batch.ops.items ≡ length batch.indices.items }
        ensures { IsSuppliedResult H.digest_of X.index_of self.now batch.nonce batch.ops.items batch.indices.items parallelism result }
    {
        let OwnedBatch {
            nonce,
            ops,
            indices,
        } = batch;
        let build = Build {
            rt,
            parallelism,
            gate,
        };
        self.prepared_with(&build, nonce, ops, &indices)
    }

    /// Prepares the update of operations that come with the indices of their names.
    fn prepared_with<G: Gate + Sync, R: Threads + Sync>(
        &self,
        build: &Build<'_, G, R>,
        nonce: Option<Nonce>,
        ops: Vec<Op>,
        supplied: &[Index],
    ) -> Result<Prepared, SuppliedBatchFault>
        requires { length ops.items ≡ length supplied.now }
        ensures { IsSuppliedResult H.digest_of X.index_of self.now nonce ops.items supplied.now build.now.parallelism result }
    {
        let stored = &self.stored;
        if let Err(fault) = check_length(&ops) {
            return Err(SuppliedBatchFault::Batch(fault));
        }
        let Ok((indices, other)) = self.indices_with(&ops, supplied) else {
            return Err(SuppliedBatchFault::Batch(BatchFault::OutOfMemory));
        };
        if let Some(position) = other {
            return Err(self.fault_or_other(&indices, ops, position));
        }
        let origin = Origin {
            alloc: self.alloc,
            h: &self.h,
            source: &indices,
            stored,
        };
        match update_on(build, &origin, nonce, ops) {
            Ok(update) => Ok(update),
            Err(fault) => Err(SuppliedBatchFault::Batch(fault)),
        }
    }
}
