//! What the lines have opened or restore.

ghost use Rattle.std.specs.Prelude.{◌≡◌, ◌≢◌, ◌≤◌, IfOk, OnOk, false, length, true};
ghost use Rattle.coniks_directory.specs.SuppliedBatches.{indexed};
ghost use Rattle.coniks_proof.specs.declared.values.TheConstants.{MAX_OPERATIONS};
ghost use Rattle.coniks_programs.specs.Turns.{Takes};
ghost use Rattle.coniks_provider.specs.Answers.{provider_outcome_of};
ghost use Rattle.coniks_provider.specs.Replays.{names_in, pending_in};
ghost use Rattle.coniks_provider.specs.Stores.{batch_line_of};
ghost use Rattle.coniks_provider.specs.Turns.{bindings_with, install_with, is_logged, latest_outcome, nothing, prepare_with, provider_lookup_with, provider_open_with, restore_with, restored_turn, restoring_with, withdraw_turn};

use crate::batch::{Operations, ReadBatch};
use crate::reply::Reply;
use crate::restoring::{Beginning, Restore};
use crate::service::Service;
use crate::stage::{Stage, take_restore};
use coniks_chain::{BODY_BYTES, Entry};
use coniks_programs::builders::Builders;
use coniks_programs::refusal::Refusal;
use std::alloc::{AllocError, Global};
use std::marker::Model;
use std::thread::Threads;

/// What the lines have made. Contracts see it as the state of the run.
#[derive(Drop)]
pub(crate) struct Store {
    alloc: Global,
    stage: Stage,
}

impl Model for Store {
    ghost use Rattle.coniks_provider.specs.Turns.{ProviderState};

    ghost Value = { ProviderState };

    ghost use Rattle.coniks_provider.specs.Stores.{IsServingIf, provider_state_of};

    ghost view = { λ s. provider_state_of s.stage };

    ghost invariant = { λ s. IsServingIf s.stage };
}

impl Store {
    /// Returns a store in which nothing is open.
    pub(crate) fn new(alloc: Global) -> Store
        ensures { result ≡ nothing }
    {
        Store {
            alloc,
            stage: Stage::Nothing,
        }
    }

    /// Returns whether nothing is open and no restore has begun.
    fn is_free(&self) -> bool
        ensures on { result ≡ true → self.now ≡ nothing }
        ensures off { result ≡ false → self.now ≢ nothing }
    {
        match &self.stage {
            Stage::Nothing => true,
            Stage::Restoring(_) | Stage::Open(_) => false,
        }
    }

    /// Opens a directory, once.
    pub(crate) fn open_with(&mut self, is_logged: bool, nonce: [u8; 32], policy: [u8; 32]) -> Reply
        ensures reply { provider_outcome_of result ≡ (provider_open_with self.old is_logged nonce policy).outcome }
        ensures state { self.new ≡ (provider_open_with self.old is_logged nonce policy).state }
    {
        if !self.is_free() {
            return Reply::Refused(Refusal::AlreadyOpen);
        }
        self.stage = Stage::Open(Service::open(self.alloc, is_logged, nonce, policy));
        Reply::Opened
    }

    /// Prepares the update of a batch that was read.
    pub(crate) fn prepare<T: Threads + Sync>(
        &mut self,
        builders: &Builders<'_, T>,
        line: ReadBatch,
    ) -> Result<Reply, AllocError>
        ensures reply { IfOk result (λ reply. provider_outcome_of reply ≡ (prepare_with self.old (batch_line_of line)).outcome) }
        ensures state { OnOk result (self.new ≡ (prepare_with self.old (batch_line_of line)).state) }
    {
        let Stage::Open(service) = &mut self.stage else {
            return Ok(Reply::Refused(Refusal::NotOpen));
        };
        service.prepare(builders, line)
    }

    /// Installs the pending update with a signature that was read.
    pub(crate) fn install(
        &mut self,
        signature: [u8; 64],
        link: &Option<Option<[u8; 32]>>,
    ) -> Result<Reply, AllocError>
        ensures reply { IfOk result (λ reply. provider_outcome_of reply ≡ (install_with self.old signature link.now).outcome) }
        ensures state { OnOk result (self.new ≡ (install_with self.old signature link.now).state) }
    {
        let Stage::Open(service) = &mut self.stage else {
            return Ok(Reply::Refused(Refusal::NotOpen));
        };
        service.install(signature, link)
    }

    /// Returns whether the rules of a log hold.
    pub(crate) fn is_logged(&self) -> bool
        ensures { result ≡ is_logged self.now }
    {
        match &self.stage {
            Stage::Open(service) => service.is_logged(),
            Stage::Nothing | Stage::Restoring(_) => false,
        }
    }

    /// Returns the number of names of an open directory.
    pub(crate) fn names(&self) -> usize
        ensures { result ≡ names_in self.now }
    {
        match &self.stage {
            Stage::Open(service) => service.names(),
            Stage::Nothing | Stage::Restoring(_) => 0,
        }
    }

    /// Returns the body of the pending update, if one is.
    pub(crate) fn pending_body(&self) -> Option<[u8; BODY_BYTES]>
        ensures { result ≡ pending_in self.now }
    {
        match &self.stage {
            Stage::Open(service) => service.pending_body(),
            Stage::Nothing | Stage::Restoring(_) => None,
        }
    }

    /// Drops the pending update.
    pub(crate) fn withdraw(&mut self) -> Reply
        ensures { Takes (withdraw_turn self.old) (provider_outcome_of result) self.new }
    {
        match &mut self.stage {
            Stage::Open(service) => service.withdraw(),
            Stage::Nothing | Stage::Restoring(_) => Reply::Refused(Refusal::NotOpen),
        }
    }

    /// Looks a name up at an epoch and an index.
    pub(crate) fn look_up(
        &self,
        epoch: u64,
        name: &str,
        index: [u8; 32],
    ) -> Result<Reply, AllocError>
        ensures { IfOk result (λ reply. provider_outcome_of reply ≡ provider_lookup_with self.now epoch name.now index) }
    {
        match &self.stage {
            Stage::Open(service) => service.look_up(self.alloc, epoch, name, index),
            Stage::Nothing | Stage::Restoring(_) => Ok(Reply::Refused(Refusal::NotOpen)),
        }
    }

    /// Returns the state at the latest epoch.
    pub(crate) fn latest(&self) -> Reply
        ensures { provider_outcome_of result ≡ latest_outcome self.now }
    {
        match &self.stage {
            Stage::Open(service) => service.latest(),
            Stage::Nothing | Stage::Restoring(_) => Reply::Refused(Refusal::NotOpen),
        }
    }

    /// Returns a page of the bindings of an epoch.
    pub(crate) fn bindings(
        &self,
        epoch: u64,
        after: Option<[u8; 32]>,
        most: usize,
    ) -> Result<Reply, AllocError>
        requires { most ≤ MAX_OPERATIONS }
        ensures { IfOk result (λ reply. provider_outcome_of reply ≡ bindings_with self.now epoch after most) }
    {
        match &self.stage {
            Stage::Open(service) => service.bindings(self.alloc, epoch, after, most),
            Stage::Nothing | Stage::Restoring(_) => Ok(Reply::Refused(Refusal::NotOpen)),
        }
    }

    /// Begins to restore the directory of an entry, once.
    pub(crate) fn restore(&mut self, is_logged: bool, entry: Entry) -> Result<Reply, AllocError>
        ensures reply { IfOk result (λ reply. provider_outcome_of reply ≡ (restore_with self.old is_logged entry).outcome) }
        ensures state { OnOk result (self.new ≡ (restore_with self.old is_logged entry).state) }
    {
        if !self.is_free() {
            return Ok(Reply::Refused(Refusal::AlreadyOpen));
        }
        match Restore::begin(self.alloc, is_logged, entry)? {
            Beginning::Begun(restore) => {
                self.stage = Stage::Restoring(restore);
                Ok(Reply::Restore)
            }
            Beginning::Refused(reply) => Ok(reply),
        }
    }

    /// Adds bindings that were read to the restore that has begun.
    pub(crate) fn restore_more(&mut self, read: Operations) -> Result<Reply, AllocError>
        ensures reply { IfOk result (λ reply. provider_outcome_of reply ≡
            (restoring_with self.old (indexed read.ops.items read.indices.items)).outcome) }
        ensures state { OnOk result (self.new ≡ (restoring_with self.old (indexed read.ops.items read.indices.items)).state) }
    {
        let Stage::Restoring(restore) = &mut self.stage else {
            return Ok(Reply::NotRestoring);
        };
        restore.add(read)
    }

    /// Opens the directory that is restored.
    ///
    /// If its root is not the entry's, nothing is open, and no restore has begun.
    pub(crate) fn end_restore<T: Threads + Sync>(
        &mut self,
        builders: &Builders<'_, T>,
    ) -> Result<Reply, AllocError>
        ensures reply { IfOk result (λ reply. provider_outcome_of reply ≡ (restored_turn self.old).outcome) }
        ensures state { OnOk result (self.new ≡ (restored_turn self.old).state) }
    {
        let Some(restore) = take_restore(&mut self.stage) else {
            return Ok(Reply::NotRestoring);
        };
        let (stage, reply) = restore.finish(builders)?;
        self.stage = stage;
        Ok(reply)
    }
}
