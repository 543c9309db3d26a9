//! The directory that a script opens, the signer of its entries, and the board of its heads.

ghost use Rattle.std.specs.Prelude.{◌≡◌, ◌⊎◌, ◌++◌, ◌∷◌, [], List, Option, None, Some, IfErr, IfOk, OnErr, OnOk, option_map};
ghost use Rattle.coniks_proof.specs.Sha256.{sha256};
ghost use Rattle.coniks_chain.specs.Entries.{link_preimage};
ghost use Rattle.coniks_directory.specs.Batches.{fault_is, operations};
ghost use Rattle.coniks_directory.specs.declared.batch.BatchFault.TheVariants.{OutOfMemory};
ghost use Rattle.coniks_threads.specs.Boards.{BoardEnd};
ghost use Rattle.coniks_programs.specs.declared.fault.RunFault.TheVariants.{NoBoard};
ghost use Rattle.coniks_tool.specs.Demo.{demo_index};
ghost use Rattle.coniks_tool.specs.Limits.{most_epochs};
ghost use Rattle.coniks_programs.specs.Refusals.{Refusal as Why, already_open, not_open, refusal_of};
ghost use Rattle.coniks_tool.specs.Refusals.{IsRefusedBy, lookup_refused_as, refusal};
ghost use Rattle.coniks_tool.specs.ScriptReplies.{because, outcome_of};
ghost use Rattle.coniks_tool.specs.Script.{batch_with, lookup_with, open_with, Installs};
ghost use Rattle.coniks_tool.specs.Stores.{batch_of, opened_of, IsServed};

use crate::demo::index::DemoIndex;
use crate::demo::seal::DemoSeal;
use crate::run::batch::Batch;
use crate::run::reply::Reply;
use coniks_chain::Entry;
use coniks_directory::{Build, CommitFault, Directory, EpochBatch, InstallFault, LookupFault};
use coniks_programs::builders::Builders;
use coniks_programs::fault::RunFault;
use coniks_programs::members::nonce_of;
use coniks_programs::refusal::{Refusal, batch_refusal};
use coniks_proof::{Digest, Nonce, Sha256Hash};
use coniks_threads::{Board, Open, Publisher};
use std::alloc::{AllocError, Global};
use std::marker::Model;
use std::thread::Threads;

/// The number of heads that the board of a run takes, which limits the number of its epochs.
pub const BOARD_HEADS: usize = 1024;

/// An open directory, and the signer of its entries.
#[derive(Drop)]
pub struct Service {
    directory: Directory<Sha256Hash, DemoIndex>,
    signer: DemoSeal,
}

impl Service {
    /// Returns a directory without epochs, whose indices and signatures are those of a key.
    fn open(alloc: Global, key: [u8; 32], nonce: [u8; 32], policy: [u8; 32]) -> Service
        ensures state { opened_of result ≡ record { key = key; nonce = nonce; policy = policy; history = [] } }
        ensures served { (published : BoardEnd) → published.heads ≡ [] → IsServed published result }
    {
        let index = DemoIndex::new(key);
        Service {
            directory: Directory::open(alloc, Sha256Hash, index, Nonce(nonce), policy),
            signer: DemoSeal::new(key),
        }
    }

    /// Commits a batch, under a new nonce if it has one, and publishes the head of its entry.
    fn commit<T: Threads + Sync>(
        &mut self,
        builders: &Builders<'_, T>,
        batch: Batch,
        publisher: &mut Publisher,
        board: &Board,
    ) -> Result<Entry, CommitFault>
        requires table { publisher.old.table ≡ board.now.table }
        requires capacity { board.now.capacity ≡ most_epochs }
        requires served { IsServed publisher.old self.old }
        ensures table { publisher.new.table ≡ publisher.old.table }
        ensures served { IsServed publisher.new self.new }
        ensures ok { IfOk result (λ entry. Installs (opened_of self.old) (batch_of batch) entry (opened_of self.new)) }
        ensures added { IfOk result (λ entry. self.new.directory.state.chain ≡ self.old.directory.state.chain ++ entry ∷ []) }
        ensures refused { IfErr result
            (IsRefusedBy (refusal (demo_index (opened_of self.old).key) (opened_of self.old).history batch.epoch (operations batch.ops.items))) }
        ensures unchanged { OnErr result (opened_of self.new ≡ opened_of self.old) }
    {
        let build = Build {
            rt: builders.rt,
            parallelism: builders.parallelism,
            gate: &Open,
        };
        let batch = EpochBatch {
            epoch: batch.epoch,
            nonce: nonce_of(batch.new_nonce),
            ops: batch.ops,
        };
        let signer = &mut self.signer;
        let committed = self
            .directory
            .commit_owned(&build, batch, signer, publisher, board);
        self.directory.known();
        committed
    }

    /// Returns the link of the latest entry.
    fn latest_link(&self) -> Digest
        ensures { (earlier : List Entry) (entry : Entry) → self.now.directory.state.chain ≡ earlier ++ entry ∷ [] → result.0 ≡ sha256 (link_preimage entry) }
    {
        self.directory.latest_link()
    }

    /// Looks a name up at an epoch.
    fn look_up(&self, alloc: Global, epoch: u64, name: &str) -> Result<Reply, AllocError>
        requires { (published : BoardEnd) × IsServed published self.now }
        ensures { IfOk result (λ reply. outcome_of reply ≡ lookup_with (Some (opened_of self.now)) epoch name.now) }
    {
        let found = match self.directory.signed_lookup(epoch, name.as_bytes()) {
            Ok(found) => found,
            Err(fault) => return Ok(Reply::Refused(lookup_refusal(fault)?)),
        };
        self.directory.known();
        let name = String::from_str(alloc, name)?;
        Ok(Reply::LookedUp { name, found })
    }
}

/// Returns why a lookup finds nothing.
fn lookup_refusal(fault: LookupFault) -> Result<Refusal, AllocError>
    ensures refusal { IfOk result (λ why. lookup_refused_as fault ≡ Some (refusal_of why)) }
    ensures memory { OnErr result (fault ≡ LookupFault.OutOfMemory) }
{
    match fault {
        LookupFault::UnknownEpoch => Ok(Refusal::UnknownEpoch),
        LookupFault::NameLength => Ok(Refusal::NameLength),
        LookupFault::OutOfMemory => Err(AllocError),
    }
}

/// Returns why an update is not installed.
fn install_refusal(fault: InstallFault) -> Result<Refusal, AllocError>
    requires { (why : Option Why) × IsRefusedBy why (CommitFault.Install fault) }
    ensures refusal { (why : Option Why) → IsRefusedBy why (CommitFault.Install fault) → IfOk result (λ reported. why ≡ Some (refusal_of reported)) }
    ensures memory { OnErr result (fault ≡ InstallFault.OutOfMemory) }
{
    match fault {
        InstallFault::EpochNotLater { latest } => Ok(Refusal::EpochNotLater { latest }),
        InstallFault::BoardFull => Ok(Refusal::BoardFull),
        InstallFault::OutOfMemory => Err(AllocError),
        InstallFault::Stale { .. } | InstallFault::SignerRefused => unreachable!(),
    }
}

/// Returns why a batch is not committed.
fn commit_refusal(fault: CommitFault) -> Result<Refusal, AllocError>
    requires { (why : Option Why) × IsRefusedBy why fault }
    ensures refusal { (why : Option Why) → IsRefusedBy why fault → IfOk result (λ reported. why ≡ Some (refusal_of reported)) }
    ensures memory { OnErr result ((fault ≡ CommitFault.Batch OutOfMemory) ⊎ (fault ≡ CommitFault.Install InstallFault.OutOfMemory)) }
{
    match fault {
        CommitFault::Batch(fault) => batch_refusal(fault),
        CommitFault::Install(fault) => install_refusal(fault),
    }
}

/// The directory of a run, after a line has opened it, and the board for its heads.
///
/// Contracts see it as the state of the run.
#[derive(Drop)]
pub struct Store {
    alloc: Global,
    board: Board,
    publisher: Publisher,
    opened: Option<Service>,
}

impl Model for Store {
    ghost use Rattle.coniks_tool.specs.Script.{ScriptState};

    ghost Value = { ScriptState };

    ghost use Rattle.coniks_tool.specs.Stores.{IsRetained, script_state_of};

    ghost view = { λ s. script_state_of s.opened };

    ghost invariant = { λ s. IsRetained s.board s.publisher s.opened };
}

impl Store {
    /// Returns a store with an empty board, in which nothing is open.
    ///
    /// # Errors
    ///
    /// `NoBoard` if the board cannot be allocated.
    pub fn new(alloc: Global) -> Result<Store, RunFault>
        ensures ok { IfOk result (λ store. store ≡ None) }
        ensures err { IfErr result (λ fault. fault ≡ NoBoard) }
    {
        let Ok((board, publisher)) = Board::new(alloc, BOARD_HEADS) else {
            return Err(RunFault::NoBoard);
        };
        Ok(Store {
            alloc,
            board,
            publisher,
            opened: None,
        })
    }

    /// Opens a directory, or returns `AlreadyOpen` if one is open.
    pub fn open_with(&mut self, key: [u8; 32], nonce: [u8; 32], policy: [u8; 32]) -> Reply
        ensures reply { outcome_of result ≡ (open_with self.old key nonce policy).outcome }
        ensures state { self.new ≡ (open_with self.old key nonce policy).state }
    {
        if self.opened.is_some() {
            return Reply::Refused(Refusal::AlreadyOpen);
        }
        self.opened = Some(Service::open(self.alloc, key, nonce, policy));
        Reply::Opened
    }

    /// Installs a batch that was read, and returns the reply.
    ///
    /// # Errors
    ///
    /// `AllocError` if an allocation fails.
    pub fn install<T: Threads + Sync>(
        &mut self,
        builders: &Builders<'_, T>,
        batch: Batch,
    ) -> Result<Reply, AllocError>
        ensures reply { IfOk result (λ reply. outcome_of reply ≡ (batch_with self.old (batch_of batch)).outcome) }
        ensures state { OnOk result (self.new ≡ (batch_with self.old (batch_of batch)).state) }
    {
        let Some(mut service) = self.opened.take() else {
            return Ok(Reply::Refused(Refusal::NotOpen));
        };
        let committed = service.commit(builders, batch, &mut self.publisher, &self.board);
        let link = service.latest_link();
        self.opened = Some(service);
        let entry = match committed {
            Ok(entry) => entry,
            Err(fault) => return Ok(Reply::Refused(commit_refusal(fault)?)),
        };
        Ok(Reply::Installed { entry, link })
    }

    /// Looks up a name at an epoch, and returns the reply.
    ///
    /// # Errors
    ///
    /// `AllocError` if an allocation fails.
    pub fn look_up(&self, epoch: u64, name: &str) -> Result<Reply, AllocError>
        ensures { IfOk result (λ reply. outcome_of reply ≡ lookup_with self.now epoch name.now) }
    {
        match &self.opened {
            Some(service) => service.look_up(self.alloc, epoch, name),
            None => Ok(Reply::Refused(Refusal::NotOpen)),
        }
    }
}
