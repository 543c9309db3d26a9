//! The directory.

ghost use Rattle.std.specs.Prelude.{◌≡◌, ◌++◌, ◌∷◌, [], List, None, Some, IfErr, IfOk, OnErr, OnOk, length, option_map};
ghost use Rattle.coniks_proof.specs.Octets.{Octets};
ghost use Rattle.coniks_proof.specs.Registry.{has_name};
ghost use Rattle.coniks_directory.specs.Batches.{IsAccepted, IsBatchFault, operations};
ghost use Rattle.coniks_directory.specs.Chain.{IsChainOf};
ghost use Rattle.coniks_directory.specs.Directories.{IsAlike, NextBodyBy, entry, history, registry, root_of_epoch};
ghost use Rattle.coniks_directory.specs.History.{AllHaveOwnIndices, AreRising, AreUnder, nonce_bytes, numbers_of};
ghost use Rattle.coniks_directory.specs.Lookups.{IsAcceptedAt, IsAcceptedUnder, IsFound, IsMissed};
ghost use Rattle.coniks_directory.specs.Updates.{HasRefused, IsUpdate, IsUpdateOf};

mod restoring;
mod supplying;

use crate::batch::{BatchFault, EpochBatch, Op, check_length, copies_of, parallelism_of};
use crate::bindings::{BindingsFault, IndexedBinding, bindings_of};
use crate::build::Build;
use crate::conflicts::{holder_at, is_of};
use crate::install::{SignedEntry, enter, head_of, make_body, may_install, put_head, signed};
use crate::lengths::is_length;
use crate::lookup::{LookupFault, SignedProof};
use crate::preparing::{Origin, update_on};
use crate::source::IndexSource;
use crate::state::DirectoryState;
use crate::update::{CommitFault, InstallFault, Prepared, in_install, in_prepare};
use coniks_chain::{Body, Entry, Sign, link};
use coniks_proof::{Digest, Hash32, Index, MAX_NAME, Nonce, Proof};
use coniks_threads::{Board, Gate, Publisher, Wanted};
pub use restoring::Restoring;
use std::alloc::Global;
use std::marker::Model;
use std::thread::Threads;

/// Names bound to keys, epoch by epoch.
///
/// Contracts see a directory as its hash, its index source and its state. The state contains the nonce of `open` or of the
/// entry that was restored, the policy, what the chain's first entry follows, the nodes and records of the tree that all
/// epochs share, the epochs and the chain. The history is the list of the epochs with their registries.
#[derive(Drop)]
pub struct Directory<H: Hash32, X: IndexSource> {
    alloc: Global,
    h: H,
    source: X,
    stored: DirectoryState,
}

impl<H: Hash32, X: IndexSource> Model for Directory<H, X> {
    ghost use Rattle.coniks_directory.specs.State.{IsDirectory, View, state_of};

    ghost Value = { View H X };

    ghost view = { λ d. record { hash = d.h; index = d.source; state = state_of d.stored } };

    ghost invariant = { λ d. IsDirectory (H.digest_of d.h) (X.index_of d.source) d.stored };
}

impl<H: Hash32, X: IndexSource> Directory<H, X> {
    ghost use Rattle.coniks_chain.specs.Chain.{before_at, epoch_before, link_before};
    ghost use Rattle.coniks_chain.specs.Entries.{link_preimage};
    ghost use Rattle.coniks_directory.specs.History.{latest_epoch};
    ghost use Rattle.coniks_directory.specs.State.{opened};

    /// Opens a directory without epochs and names.
    ///
    /// Its trees are hashed under this nonce until an update rotates it. Its entries contain this policy. Allocates
    /// nothing.
    pub fn open(alloc: Global, h: H, source: X, nonce: Nonce, policy: [u8; 32]) -> Self
        ensures { result ≡ record { hash = h; index = source; state = opened nonce.0 policy } }
    {
        Directory {
            alloc,
            h,
            source,
            stored: DirectoryState::new(alloc, nonce, policy),
        }
    }

    /// Returns the number of nodes that the tree holds.
    pub fn nodes(&self) -> usize
        ensures { result ≡ length self.now.state.nodes }
    {
        self.stored.tree.nodes()
    }

    /// Returns the signed tree roots (STRs), one entry for each epoch, which an auditor verifies.
    pub fn chain(&self) -> &[Entry]
        ensures value { result.now ≡ self.now.state.chain }
        ensures of_history { IsChainOf (H.digest_of self.now.hash) (X.index_of self.now.index) self.now.state.policy self.now.state.before (history self.now) self.now.state.chain }
        ensures rising { AreRising (epoch_before self.now.state.before) (numbers_of (history self.now)) }
        ensures under { AreUnder 1 self.now.state.nonce (history self.now) }
        ensures names { AllHaveOwnIndices (X.index_of self.now.index) (history self.now) }
    {
        &self.stored.chain
    }

    /// Proves that the chain is that of the epochs.
    pub fn known(&self)
        ensures { IsChainOf (H.digest_of self.now.hash) (X.index_of self.now.index) self.now.state.policy self.now.state.before (history self.now) self.now.state.chain }
    {
        let _chain = self.chain();
    }

    /// Returns the number of the latest epoch, or 0 before the first.
    pub fn latest_epoch(&self) -> u64
        ensures { result ≡ latest_epoch (history self.now) }
    {
        self.stored.latest()
    }

    /// Returns the link of the latest entry, or 32 zero bytes before the first.
    pub fn latest_link(&self) -> Digest
        ensures link { result.0 ≡ link_before (before_at (H.digest_of self.now.hash) self.now.state.before self.now.state.chain (length self.now.state.chain)) }
        ensures of_last { (earlier : List Entry) (entry : Entry) → self.now.state.chain ≡ earlier ++ entry ∷ [] → result.0 ≡ H.digest_of self.now.hash (link_preimage entry) }
    {
        self.stored.link
    }

    /// Returns the root of an epoch, if one was installed under exactly this number.
    pub fn root_at(&self, t: u64) -> Option<Digest>
        ensures { option_map (λ (r : Digest). r.0) result ≡ root_of_epoch H.digest_of X.index_of self.now t }
    {
        match self.stored.installed(t) {
            Some((epoch, _)) => Some(self.stored.tree.node_hash(epoch.root)),
            None => None,
        }
    }

    /// Returns the presence or absence proof for a name in the tree of an epoch (CONIKS, section 3.1).
    ///
    /// The proof is the authentication path to the name's index. The call waits for no other thread. After an error the
    /// directory is unchanged, and the same call can be made again.
    ///
    /// # Errors
    ///
    /// If several apply, the first in this order is returned.
    ///
    /// - `UnknownEpoch` if no epoch was installed under exactly this number.
    /// - `NameLength` if the name is empty or longer than `MAX_NAME` bytes.
    /// - `OutOfMemory` if an allocation fails.
    pub fn lookup(&self, t: u64, name: &[u8]) -> Result<Proof, LookupFault>
        ensures ok { IfOk result (IsFound (H.digest_of self.now.hash) (X.index_of self.now.index) (history self.now) t name.now) }
        ensures accepted { IfOk result (IsAcceptedAt (H.digest_of self.now.hash) (X.index_of self.now.index) (history self.now) t name.now) }
        ensures missed { IfErr result (IsMissed (history self.now) t name.now) }
    {
        Ok(self.signed_lookup(t, name)?.proof)
    }

    /// Looks up a name as `lookup` does, and returns the epoch's entry and the name's index with the proof.
    ///
    /// The entry contains the root and the nonce. `coniks_proof::check` accepts the proof under that root and nonce and
    /// at that index. The call waits for no other thread.
    ///
    /// # Errors
    ///
    /// The errors of `lookup`, in the same order.
    pub fn signed_lookup(&self, t: u64, name: &[u8]) -> Result<SignedProof, LookupFault>
        ensures entry { IfOk result (λ it. entry self.now t ≡ Some it.entry) }
        ensures index { IfOk result (λ it. it.index.0 ≡ X.index_of self.now.index name.now) }
        ensures ok { IfOk result (λ it. IsFound (H.digest_of self.now.hash) (X.index_of self.now.index) (history self.now) t name.now it.proof) }
        ensures accepted { IfOk result (λ it. IsAcceptedAt (H.digest_of self.now.hash) (X.index_of self.now.index) (history self.now) t name.now it.proof) }
        ensures checks { IfOk result (IsAcceptedUnder (H.digest_of self.now.hash) (X.index_of self.now.index) (history self.now) t name.now) }
        ensures missed { IfErr result (IsMissed (history self.now) t name.now) }
    {
        let Some((epoch, entry)) = self.stored.installed(t) else {
            return Err(LookupFault::UnknownEpoch);
        };
        if !is_length(name, MAX_NAME) {
            return Err(LookupFault::NameLength);
        }
        let index = self.source.index(name);
        match self.stored.tree.path(epoch.root, &index) {
            Ok(proof) => Ok(SignedProof {
                entry,
                index,
                proof,
            }),
            Err(_) => Err(LookupFault::OutOfMemory),
        }
    }
}

impl<H: Hash32, X: IndexSource> Directory<H, X> {
    ghost use Rattle.coniks_directory.specs.Bindings.{ArePageAt, IsUnlisted};
    ghost use Rattle.coniks_directory.specs.Supplied.{AgreeOn};
    ghost use Rattle.coniks_directory.specs.Updates.{registry_after, shown_after};

    /// Returns a page of the bindings of an epoch: at most `most` of them, in increasing order of index.
    ///
    /// They are the first bindings whose indices are greater than `after`, or the first of all. All pages of an epoch,
    /// each after the last index of the one before, are what `Restoring` restores the epoch from. The call reads the nodes
    /// on the way to `after` and those above the page's leaves, and copies no name or key. It waits for no other thread.
    ///
    /// # Errors
    ///
    /// If both apply, the first in this order is returned.
    ///
    /// - `UnknownEpoch` if no epoch was installed under exactly this number.
    /// - `OutOfMemory` if an allocation fails.
    pub fn bindings(
        &self,
        t: u64,
        after: Option<Index>,
        most: usize,
    ) -> Result<Vec<IndexedBinding<'_>>, BindingsFault>
        ensures page { IfOk result (λ page. ArePageAt (H.digest_of self.now.hash) (X.index_of self.now.index) (history self.now) t after most page.items) }
        ensures refused { IfErr result (IsUnlisted (history self.now) t) }
    {
        let Some((epoch, _)) = self.stored.installed(t) else {
            return Err(BindingsFault::UnknownEpoch);
        };
        let Ok(page) = self.stored.tree.page(epoch.root, after, most) else {
            return Err(BindingsFault::OutOfMemory);
        };
        match bindings_of(self.alloc, &self.stored.tree, &page) {
            Ok(bindings) => Ok(bindings),
            Err(_) => Err(BindingsFault::OutOfMemory),
        }
    }

    /// Returns the source of indices.
    pub fn source(&self) -> &X
        ensures { result.now ≡ self.now.index }
    {
        &self.source
    }

    /// Returns whether the name is registered at the latest epoch.
    pub fn is_registered(&self, name: &[u8]) -> bool
        ensures { result ≡ has_name (registry self.now) name.now }
    {
        let index = self.source.index(name);
        self.is_registered_at(&index, name)
    }

    /// Returns whether the name, which has this index, is registered at the latest epoch.
    fn is_registered_at(&self, index: &Index, name: &[u8]) -> bool
        requires { index.now.0 ≡ X.index_of self.now.index name.now }
        ensures { result ≡ has_name (registry self.now) name.now }
    {
        let root = self.stored.latest_root();
        is_of(holder_at(&self.stored.tree, root, index), name)
    }

    /// Returns whether the name is registered after an install of the update.
    pub fn is_registered_after(&self, update: &Prepared, name: &[u8]) -> bool
        ensures { result ≡ has_name (registry_after self.now.state update.now) name.now }
    {
        let index = self.source.index(name);
        self.is_registered_at(&index, name) || update.binds(name)
    }

    /// Returns the body that an install of the update under the number `t` asks the signer to sign.
    ///
    /// The update was prepared from the directory as it is.
    pub fn next_body(&self, update: &Prepared, t: u64) -> Body
        requires { (index : Octets → Octets) × IsUpdate (H.digest_of self.now.hash) index self.now.state update.now }
        ensures { (index : Octets → Octets) → AgreeOn (X.index_of self.now.index) index (registry self.now)
            → IsUpdate (H.digest_of self.now.hash) index self.now.state update.now
            → result ≡ NextBodyBy H.digest_of self.now index (shown_after self.now.state update.now t) }
    {
        make_body(&self.stored, &self.h, update, t)
    }
}

impl<H: Hash32, X: IndexSource> Directory<H, X> {
    ghost use Rattle.coniks_directory.specs.Installs.{AddsUpdate, HasSigned, IsInstallResult, IsReady, Keeps, update_body};
    ghost use Rattle.coniks_directory.specs.Updates.{LeavesSigner, refusals};

    /// Installs an update under a later epoch, and returns the epoch's entry.
    ///
    /// Attaches the update's tree, asks the signer to sign its entry, stores the entry in the chain and publishes the
    /// head. All memory is allocated before the signer is called, and nothing can fail after that. The call waits for no
    /// other thread.
    ///
    /// The update was prepared from this directory. The publisher is the board's, and has published exactly the heads of
    /// this directory's chain. The signer's counts are below 2^64 - 1.
    ///
    /// # Errors
    ///
    /// If several apply, the first in this order is returned, with the update. An error changes neither the directory nor
    /// the board.
    ///
    /// - `Stale` if an epoch was installed after the update was prepared.
    /// - `EpochNotLater` if `t` is not later than the latest epoch, or is 0 before the first.
    /// - `BoardFull` if the board has no room for another head.
    /// - `OutOfMemory` if an allocation fails.
    /// - `SignerRefused` if the signer returns no signature.
    #[tactic(auto, using(crate::proofs::FreshLemmas::growth))]
    pub fn install<S: Sign>(
        &mut self,
        update: Prepared,
        t: u64,
        signer: &mut S,
        publisher: &mut Publisher,
        board: &Board,
    ) -> Result<Entry, (InstallFault, Prepared)>
        requires update { IsUpdateOf (H.digest_of self.old.hash) (X.index_of self.old.index) self.old.state update }
        requires ready { IsReady H.digest_of S.made_of S.refused_of self.old signer.old publisher.old board.now }

        // An entry.
        ensures installed { IfOk result (AddsUpdate H.digest_of X.index_of self.old self.new update t) }
        ensures signed { IfOk result (HasSigned S.made_of S.refused_of S.last_of S.signs S.verdict_of signer.old signer.new) }

        // An entry or an error.
        ensures outcome { IsInstallResult self.old.state update t (length publisher.old.heads) board.now.capacity result }
        ensures same { IsAlike self.new self.old }
        ensures retained { Keeps H.digest_of S.verdict_of self.old self.new signer.old signer.new publisher.old publisher.new }

        // An error.
        ensures unchanged { OnErr result ((self.new ≡ self.old) × (publisher.new ≡ publisher.old)) }
        ensures unsigned { IfErr result (λ r. HasRefused S.made_of S.refused_of S.last_of signer.old signer.new (refusals r.0)) }
        ensures unrequested { IfErr result (λ r. LeavesSigner S.signs (update_body H.digest_of X.index_of self.old update t) signer.old signer.new r.0) }
    {
        if let Err(fault) = may_install(&self.stored, update.base, t, publisher, board) {
            return Err((fault, update));
        }
        match signed(&mut self.stored, &self.h, &update, t, signer) {
            Ok(entry) => {
                let link = link(&self.h, &entry);
                enter(
                    &mut self.stored,
                    &self.h,
                    update,
                    t,
                    SignedEntry { entry, link },
                );
                put_head(publisher, board, head_of(&entry, link));
                Ok(entry)
            }
            Err(fault) => Err((fault, update)),
        }
    }
}

impl<H: Hash32 + Sync, X: IndexSource> Directory<H, X> {
    ghost use Rattle.coniks_directory.specs.Built.{IsUpdateBy};
    ghost use Rattle.coniks_directory.specs.Installs.{AddsBatch, HasSigned, IsCommitResult, IsReady, Keeps, batch_body};
    ghost use Rattle.coniks_directory.specs.Updates.{CommitLeavesSigner, commit_refusals};

    /// Checks a batch and prepares its update, which `install` installs.
    ///
    /// The epoch's tree has new nodes on the changed paths, and shares all others with the epochs before. The call only
    /// reads the directory, so other threads can look up names meanwhile. It can wait, because it joins its worker
    /// threads.
    ///
    /// `workers` is 1 to `coniks_threads::MAX_WORKERS`. The split depth `depth`, the length in bits of the prefixes that are
    /// built apart, is 0 to `coniks_threads::MAX_DEPTH`. The update is the same for every choice of them. The epoch keeps
    /// the latest epoch's nonce and the version of its entry. The first epoch has the nonce of `open` and version 1.
    ///
    /// # Errors
    ///
    /// If several apply, the first in this order is returned. `OutOfMemory` can also replace `At`. After an error nothing
    /// of the batch is retained, and the same call can be made again.
    ///
    /// - `Workers` if `workers` is not 1 to `coniks_threads::MAX_WORKERS`.
    /// - `Depth` if `depth` is more than `coniks_threads::MAX_DEPTH`.
    /// - `BatchTooLong` if the batch has more than `MAX_OPERATIONS` operations.
    /// - `At` if an operation has an error; it contains the position of the first such operation and its first error.
    /// - `OutOfMemory` if an allocation fails.
    pub fn prepare<G: Gate + Sync, R: Threads + Sync>(
        &self,
        rt: &R,
        ops: &[Op],
        depth: usize,
        workers: usize,
        gate: &G,
    ) -> Result<Prepared, BatchFault>
        ensures update { IfOk result (IsUpdateBy (H.digest_of self.now.hash) (X.index_of self.now.index) self.now.state None ops.now) }
        ensures accepted { OnOk result (IsAccepted (X.index_of self.now.index) (registry self.now) (operations ops.now) depth workers) }
        ensures refused { IfErr result (IsBatchFault (X.index_of self.now.index) (registry self.now) (operations ops.now) depth workers) }
    {
        let build = Build {
            rt,
            parallelism: parallelism_of(Wanted { workers, depth })?,
            gate,
        };
        self.prepared_from(&build, None, ops)
    }

    /// Prepares an update as `prepare` does, with the epoch's tree rehashed under a new nonce.
    ///
    /// Every node of the tree is new, and none is shared with the epochs before, even if the nonce equals the latest one.
    /// The same worker threads build it. Commitments do not contain the nonce and are reused. The epoch's entry and all
    /// later ones have version 2.
    ///
    /// # Errors
    ///
    /// The errors of `prepare`, with the same limits and in the same order.
    pub fn prepare_with<G: Gate + Sync, R: Threads + Sync>(
        &self,
        rt: &R,
        nonce: Nonce,
        ops: &[Op],
        depth: usize,
        workers: usize,
        gate: &G,
    ) -> Result<Prepared, BatchFault>
        ensures update { IfOk result (IsUpdateBy (H.digest_of self.now.hash) (X.index_of self.now.index) self.now.state (Some nonce.0) ops.now) }
        ensures accepted { OnOk result (IsAccepted (X.index_of self.now.index) (registry self.now) (operations ops.now) depth workers) }
        ensures refused { IfErr result (IsBatchFault (X.index_of self.now.index) (registry self.now) (operations ops.now) depth workers) }
    {
        let build = Build {
            rt,
            parallelism: parallelism_of(Wanted { workers, depth })?,
            gate,
        };
        self.prepared_from(&build, Some(nonce), ops)
    }

    /// Prepares the update of a batch, under a new nonce or under the latest one, of copies of its operations.
    fn prepared_from<G: Gate + Sync, R: Threads + Sync>(
        &self,
        build: &Build<'_, G, R>,
        nonce: Option<Nonce>,
        ops: &[Op],
    ) -> Result<Prepared, BatchFault>
        ensures update { IfOk result (IsUpdateBy (H.digest_of self.now.hash) (X.index_of self.now.index) self.now.state (nonce_bytes nonce) ops.now) }
        ensures accepted { OnOk result (IsAccepted (X.index_of self.now.index) (registry self.now) (operations ops.now) build.now.parallelism.depth build.now.parallelism.workers) }
        ensures refused { IfErr result (IsBatchFault (X.index_of self.now.index) (registry self.now) (operations ops.now) build.now.parallelism.depth build.now.parallelism.workers) }
    {
        check_length(ops)?;
        match copies_of(self.alloc, ops) {
            Ok(copies) => self.prepared(build, nonce, copies),
            Err(_) => Err(BatchFault::OutOfMemory),
        }
    }

    /// Prepares the update of a batch, under a new nonce or under the latest one.
    fn prepared<G: Gate + Sync, R: Threads + Sync>(
        &self,
        build: &Build<'_, G, R>,
        nonce: Option<Nonce>,
        ops: Vec<Op>,
    ) -> Result<Prepared, BatchFault>
        ensures update { IfOk result (IsUpdateBy (H.digest_of self.now.hash) (X.index_of self.now.index) self.now.state (nonce_bytes nonce) ops.items) }
        ensures accepted { OnOk result (IsAccepted (X.index_of self.now.index) (registry self.now) (operations ops.items) build.now.parallelism.depth build.now.parallelism.workers) }
        ensures refused { IfErr result (IsBatchFault (X.index_of self.now.index) (registry self.now) (operations ops.items) build.now.parallelism.depth build.now.parallelism.workers) }
    {
        check_length(&ops)?;
        let origin = Origin {
            alloc: self.alloc,
            h: &self.h,
            source: &self.source,
            stored: &self.stored,
        };
        Ok(update_on(build, &origin, nonce, ops)?)
    }

    /// Prepares a batch and installs its update.
    ///
    /// The call is `prepare`, then `install`. It can wait, as `prepare` can. It has the preconditions of `install` on
    /// signer, publisher and board.
    ///
    /// # Errors
    ///
    /// After an error the update is dropped, and the directory and the board are unchanged.
    ///
    /// - `Batch` with the error of `prepare`.
    /// - `Install` with the error of `install`.
    #[tactic(auto, using(crate::proofs::CommitLemmas::commits))]
    pub fn commit<S: Sign, G: Gate + Sync, R: Threads + Sync>(
        &mut self,
        rt: &R,
        ops: &[Op],
        depth: usize,
        workers: usize,
        gate: &G,
        t: u64,
        signer: &mut S,
        publisher: &mut Publisher,
        board: &Board,
    ) -> Result<Entry, CommitFault>
        requires { IsReady H.digest_of S.made_of S.refused_of self.old signer.old publisher.old board.now }

        // An entry.
        ensures installed { IfOk result (AddsBatch H.digest_of X.index_of self.old self.new None ops.now t) }
        ensures signed { IfOk result (HasSigned S.made_of S.refused_of S.last_of S.signs S.verdict_of signer.old signer.new) }

        // An entry or an error.
        ensures outcome { IsCommitResult X.index_of self.old ops.now depth workers t (length publisher.old.heads) board.now.capacity result }
        ensures same { IsAlike self.new self.old }
        ensures retained { Keeps H.digest_of S.verdict_of self.old self.new signer.old signer.new publisher.old publisher.new }

        // An error.
        ensures unchanged { OnErr result ((self.new ≡ self.old) × (publisher.new ≡ publisher.old)) }
        ensures unsigned { IfErr result (λ fault. HasRefused S.made_of S.refused_of S.last_of signer.old signer.new (commit_refusals fault)) }
        ensures unrequested { IfErr result (CommitLeavesSigner S.signs (batch_body H.digest_of X.index_of self.old None ops.now t) signer.old signer.new) }
    {
        let update = in_prepare(self.prepare(rt, ops, depth, workers, gate))?;
        match self.install(update, t, signer, publisher, board) {
            Ok(entry) => Ok(entry),
            Err((fault, _)) => Err(in_install(fault)),
        }
    }

    /// Prepares a batch and installs its update, as `commit` does, with an optional new nonce, and copies no name and no key.
    ///
    /// If there is a nonce, the update is that of `prepare_with`, else that of `prepare`. Its records take the names and the
    /// keys of the operations.
    ///
    /// # Errors
    ///
    /// The errors of `commit`, in the same cases.
    #[tactic(auto, using(crate::proofs::CommitLemmas::commits))]
    pub fn commit_owned<S: Sign, G: Gate + Sync, R: Threads + Sync>(
        &mut self,
        build: &Build<'_, G, R>,
        batch: EpochBatch,
        signer: &mut S,
        publisher: &mut Publisher,
        board: &Board,
    ) -> Result<Entry, CommitFault>
        requires { IsReady H.digest_of S.made_of S.refused_of self.old signer.old publisher.old board.now }

        // An entry.
        ensures installed { IfOk result (AddsBatch H.digest_of X.index_of self.old self.new batch.nonce batch.ops.items batch.epoch) }
        ensures signed { IfOk result (HasSigned S.made_of S.refused_of S.last_of S.signs S.verdict_of signer.old signer.new) }

        // An entry or an error.
        ensures outcome { IsCommitResult X.index_of self.old batch.ops.items build.now.parallelism.depth build.now.parallelism.workers batch.epoch
            (length publisher.old.heads) board.now.capacity result }
        ensures same { IsAlike self.new self.old }
        ensures retained { Keeps H.digest_of S.verdict_of self.old self.new signer.old signer.new publisher.old publisher.new }

        // An error.
        ensures unchanged { OnErr result ((self.new ≡ self.old) × (publisher.new ≡ publisher.old)) }
        ensures unsigned { IfErr result (λ fault. HasRefused S.made_of S.refused_of S.last_of signer.old signer.new (commit_refusals fault)) }
        ensures unrequested { IfErr result (CommitLeavesSigner S.signs (batch_body H.digest_of X.index_of self.old batch.nonce batch.ops.items batch.epoch) signer.old signer.new) }
    {
        let EpochBatch { epoch, nonce, ops } = batch;
        let update = in_prepare(self.prepared(build, nonce, ops))?;
        match self.install(update, epoch, signer, publisher, board) {
            Ok(entry) => Ok(entry),
            Err((fault, _)) => Err(in_install(fault)),
        }
    }
}
