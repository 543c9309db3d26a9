//! A directory that is restored from a snapshot: the latest entry, and the bindings at its epoch.

ghost use Rattle.std.specs.Prelude.{◌≡◌, ◌<◌, ◌++◌, [], ℕ, Bool, Err, IfErr, IfOk, None, OnErr, OnOk, length, map, take, true};
ghost use Rattle.coniks_chain.specs.Entries.{body_bytes};
ghost use Rattle.coniks_chain.specs.Evidence.{IsWellFormed};
ghost use Rattle.coniks_proof.specs.Batches.{bound_by, fault_from};
ghost use Rattle.coniks_proof.specs.Octets.{Octets};
ghost use Rattle.coniks_directory.specs.Batches.{operations};
ghost use Rattle.coniks_directory.specs.Directories.{HasGoodChain};
ghost use Rattle.coniks_directory.specs.Judged.{IsJudgedFaultAfter};
ghost use Rattle.coniks_directory.specs.Nodes.{epoch_nodes};
ghost use Rattle.coniks_directory.specs.Supplied.{AgreeOn, supplied_index};
ghost use Rattle.coniks_directory.specs.SuppliedBatches.{binding_index, indices_by, put_indices};
ghost use Rattle.coniks_directory.specs.declared.batch.BatchFault.TheVariants.{At};
ghost use Rattle.coniks_directory.specs.declared.batch.OpFault.{OpFault};
ghost use Rattle.coniks_directory.specs.Restored.{IsEntryFault, IsRestorable, IsRestoreFault, Restores};

use crate::batch::{BatchFault, Op};
use crate::build::Build;
use crate::directory::Directory;
use crate::judge::judge_copies;
use crate::pending::PendingRecords;
use crate::restoring::{Begun, RestoreFault, check_entry, restored};
use crate::source::IndexSource;
use crate::state::DirectoryState;
use crate::supplied::SuppliedIndices;
use crate::supplied_batch::OwnedBindings;
use crate::supplied_bindings::{judge_bindings, supply_since};
use coniks_chain::Entry;
use coniks_proof::Hash32;
use coniks_threads::{Gate, Parallelism};
use std::alloc::Global;
use std::marker::Model;
use std::thread::Threads;

/// A directory that is being restored: an entry, and the bindings at its epoch so far.
///
/// Contracts see it as its hash, its index source, the entry and the bindings, each as an operation that registers it.
#[derive(Drop)]
pub struct Restoring<H: Hash32, X: IndexSource> {
    alloc: Global,
    h: H,
    source: X,
    entry: Entry,
    stored: DirectoryState,
    pending: PendingRecords,
}

impl<H: Hash32, X: IndexSource> Model for Restoring<H, X> {
    ghost use Rattle.coniks_directory.specs.Restored.{IsRestoring, RestoringView, registrations};
    ghost use Rattle.coniks_directory.specs.State.{state_of};

    ghost Value = { RestoringView H X };

    ghost view = { λ r. record { hash = r.h; index = r.source; entry = r.entry; ops = registrations r.pending.records.items } };

    ghost invariant = { λ r. IsRestoring (H.digest_of r.h) (X.index_of r.source) r.entry (state_of r.stored) r.pending.records.items r.pending.numbers };
}

impl<H: Hash32 + Drop, X: IndexSource + Drop> Restoring<H, X> {
    /// Begins to restore a directory whose only epoch is that of an entry. There are no bindings yet.
    ///
    /// # Errors
    ///
    /// If several apply, the first in this order is returned.
    ///
    /// - `NotLater` if the entry's epoch is not later than the one before it.
    /// - `Version` if its version is neither 1 nor 2.
    /// - `Malformed` if the epoch before it is 0 and its link is not 32 zero bytes. No chain has such an entry.
    /// - `OutOfMemory` if an allocation fails.
    pub fn new(alloc: Global, h: H, source: X, entry: Entry) -> Result<Self, RestoreFault>
        ensures begun { IfOk result (λ r. r ≡ record { hash = h; index = source; entry = entry; ops = [] }) }
        ensures formed { OnOk result (IsWellFormed entry.body) }
        ensures refused { IfErr result (IsEntryFault entry) }
    {
        check_entry(&entry)?;
        let Ok(pending) = PendingRecords::new(alloc, 0) else {
            return Err(RestoreFault::OutOfMemory);
        };
        let stored = DirectoryState::new(alloc, entry.body.nonce, entry.body.policy);
        Ok(Restoring {
            alloc,
            h,
            source,
            entry,
            stored,
            pending,
        })
    }
}

impl<H: Hash32, X: IndexSource> Restoring<H, X> {
    /// Adds bindings to those so far, each a `Register` operation.
    ///
    /// # Errors
    ///
    /// `At` with the position and the error of the first binding that has one, or `OutOfMemory` if an allocation fails.
    /// After an error the bindings are those before the call.
    pub fn add(&mut self, bindings: &[Op]) -> Result<(), BatchFault>
        ensures added { OnOk result (self.new ≡ record self.old { ops = self.old.ops ++ operations bindings.now }) }
        ensures accepted { OnOk result (fault_from (X.index_of self.old.index) [] (map bound_by self.old.ops) 0 (operations bindings.now) ≡ None) }
        ensures refused { IfErr result (IsJudgedFaultAfter (X.index_of self.old.index) [] (map bound_by self.old.ops) (operations bindings.now)) }
        ensures unchanged { OnErr result (self.new ≡ self.old) }
    {
        let (alloc, tree) = (self.alloc, &self.stored.tree);
        judge_copies(alloc, &self.source, tree, &mut self.pending, bindings)?;
        Ok(())
    }
}

impl<H: Hash32, X: IndexSource> Restoring<H, X> {
    /// Returns the number of bindings so far.
    pub fn count(&self) -> usize
        ensures { result ≡ length self.now.ops }
    {
        self.pending.records.len()
    }
}

impl<H: Hash32> Restoring<H, SuppliedIndices> {
    /// Adds bindings that come with the indices of their names, as `add` does.
    ///
    /// A new name has the index that comes with it, whatever index the source has for it. There are as many indices as
    /// bindings.
    ///
    /// The restore takes the names and the keys of the bindings. The call copies no key.
    ///
    /// # Errors
    ///
    /// The errors of `add`. After an error the bindings are those before the call. After `OutOfMemory` the indices of the
    /// first bindings may be stored, and no others. The call can be made again with the same bindings and indices.
    pub fn add_supplied(&mut self, batch: OwnedBindings) -> Result<(), BatchFault>
        requires { length batch.bindings.items ≡ length batch.indices.items }
        ensures added { OnOk result (self.new.ops ≡ self.old.ops ++ operations batch.bindings.items) }
        ensures accepted { OnOk result (fault_from (binding_index (supplied_index self.old.index) (map bound_by self.old.ops) batch)
            [] (map bound_by self.old.ops) 0 (operations batch.bindings.items) ≡ None) }
        ensures indices { OnOk result (self.new.index ≡ put_indices self.old.index
            (indices_by (binding_index (supplied_index self.old.index) (map bound_by self.old.ops) batch) (operations batch.bindings.items))) }
        ensures hash { self.new.hash ≡ self.old.hash }
        ensures entry { self.new.entry ≡ self.old.entry }
        ensures refused { IfErr result (IsJudgedFaultAfter (binding_index (supplied_index self.old.index) (map bound_by self.old.ops) batch)
            [] (map bound_by self.old.ops) (operations batch.bindings.items)) }
        ensures unchanged { OnErr result (self.new.ops ≡ self.old.ops) }
        ensures retained { OnErr result (AgreeOn (supplied_index self.old.index) (supplied_index self.new.index) (map bound_by self.old.ops)) }
        ensures stored { OnErr result ((n : ℕ) × (self.new.index ≡ put_indices self.old.index
            (take n (indices_by (binding_index (supplied_index self.old.index) (map bound_by self.old.ops) batch) (operations batch.bindings.items))))) }
        ensures whole { (position : ℕ) (fault : OpFault) → result ≡ Err (At position fault) → self.new ≡ self.old }
    {
        let earlier = self.pending.count();
        judge_bindings(
            self.alloc,
            &self.source,
            &self.stored.tree,
            &mut self.pending,
            batch,
        )?;
        let Ok(()) = supply_since(&mut self.source, &mut self.pending, earlier) else {
            return Err(BatchFault::OutOfMemory);
        };
        Ok(())
    }
}

impl<H: Hash32 + Sync + Drop, X: IndexSource + Drop> Restoring<H, X> {
    /// Returns the directory.
    ///
    /// The bindings are those of the directory that had the entry, in any order. The tree is built as that of an update
    /// is. The entry is retained as it is, with its signature, and nothing is signed. Before an `install` the entry's head,
    /// with `latest_link`, is published on the board.
    ///
    /// # Errors
    ///
    /// `OutOfMemory` can replace `RootDiffers`. After an error the bindings are gone: begin again to restore.
    ///
    /// - `RootDiffers` if the root of the bindings is not the entry's.
    /// - `OutOfMemory` if an allocation fails.
    pub fn finish<G: Gate + Sync, R: Threads + Sync>(
        self,
        rt: &R,
        parallelism: Parallelism,
        gate: &G,
    ) -> Result<Directory<H, X>, RestoreFault>
        ensures restored { IfOk result (λ d. Restores self.entry self.ops d.state) }
        ensures nodes { IfOk result (λ d. length d.state.nodes ≡ epoch_nodes (X.index_of self.index) [] None self.ops) }
        ensures hash { IfOk result (λ d. d.hash ≡ self.hash) }
        ensures index { IfOk result (λ d. d.index ≡ self.index) }
        ensures accepted { OnOk result (IsRestorable (H.digest_of self.hash) (X.index_of self.index) self.entry self.ops) }
        ensures good { IfOk result (λ d. (verdict : Octets → Octets → Bool)
            → verdict (body_bytes self.entry.body) self.entry.signature.0 ≡ true → HasGoodChain H.digest_of verdict d) }
        ensures refused { IfErr result (IsRestoreFault (H.digest_of self.hash) (X.index_of self.index) self.entry self.ops) }
    {
        let build = Build {
            rt,
            parallelism,
            gate,
        };
        let Restoring {
            alloc,
            h,
            source,
            entry,
            stored,
            pending,
        } = self;
        let begun = Begun {
            entry,
            stored,
            pending,
        };
        let stored = restored(&build, alloc, &h, &source, begun)?;
        Ok(Directory {
            alloc,
            h,
            source,
            stored,
        })
    }
}
