//! The directory that a line opens, and the pending update.

ghost use Rattle.std.specs.Prelude.{◌≡◌, ◌≤◌, [], length, None, Some, IfOk, OnErr, OnOk, option_map};
ghost use Rattle.coniks_proof.specs.declared.values.TheConstants.{MAX_OPERATIONS};
ghost use Rattle.coniks_directory.specs.declared.batch.BatchFault.TheVariants.{OutOfMemory};
ghost use Rattle.coniks_programs.specs.Turns.{Takes};
ghost use Rattle.coniks_provider.specs.Answers.{provider_outcome_of};
ghost use Rattle.coniks_provider.specs.Stores.{IsServing, IsSuppliedRefusable, batch_line_of, lookup_refused_as, page_refused_as, provided_of, supplied_refused_as};
ghost use Rattle.coniks_provider.specs.Turns.{bindings_with, index_of_bytes, install_on, latest_outcome, line_refusal, may_replace, nothing_yet, pending_body, prepare_on, provider_lookup_with, provider_number_refusal, serving, withdraw_on};

use crate::batch::ReadBatch;
use crate::claims::{agrees, is_named};
use crate::latest::Latest;
use crate::page::page_object;
use crate::reply::Reply;
use coniks_chain::{BODY_BYTES, Body, Entry, Signature};
use coniks_directory::{
    BindingsFault, Directory, InstallFault, LinkedEntry, LookupAtFault, Prepared,
    SuppliedBatchFault, SuppliedIndices,
};
use coniks_programs::builders::Builders;
use coniks_programs::refusal::{Refusal, batch_refusal};
use coniks_proof::{Index, Nonce, Sha256Hash};
use coniks_threads::Open;
use std::alloc::{AllocError, Global};
use std::thread::Threads;

/// Returns the reply to a batch that is not accepted.
fn supplied_refusal(fault: SuppliedBatchFault) -> Result<Reply, AllocError>
    requires { IsSuppliedRefusable fault }
    ensures reply { IfOk result (λ reply. supplied_refused_as fault ≡ Some (provider_outcome_of reply)) }
    ensures memory { OnErr result (fault ≡ SuppliedBatchFault.Batch OutOfMemory) }
{
    match fault {
        SuppliedBatchFault::Batch(fault) => Ok(Reply::Refused(batch_refusal(fault)?)),
        SuppliedBatchFault::OtherIndex { position } => Ok(Reply::OtherIndex(position)),
    }
}

/// Returns the reply to a lookup that finds nothing.
fn lookup_refusal(fault: LookupAtFault) -> Result<Reply, AllocError>
    ensures reply { IfOk result (λ reply. lookup_refused_as fault ≡ Some (provider_outcome_of reply)) }
    ensures memory { OnErr result (fault ≡ LookupAtFault.OutOfMemory) }
{
    match fault {
        LookupAtFault::UnknownEpoch => Ok(Reply::Refused(Refusal::UnknownEpoch)),
        LookupAtFault::NameLength => Ok(Reply::Refused(Refusal::NameLength)),
        LookupAtFault::OtherIndex => Ok(Reply::BadIndex),
        LookupAtFault::OutOfMemory => Err(AllocError),
    }
}

/// Returns the reply to a page that is not listed.
fn page_refusal(fault: BindingsFault) -> Result<Reply, AllocError>
    ensures reply { IfOk result (λ reply. page_refused_as fault ≡ Some (provider_outcome_of reply)) }
    ensures memory { OnErr result (fault ≡ BindingsFault.OutOfMemory) }
{
    match fault {
        BindingsFault::UnknownEpoch => Ok(Reply::Refused(Refusal::UnknownEpoch)),
        BindingsFault::OutOfMemory => Err(AllocError),
    }
}

/// Returns the index of these bytes, if there are any.
fn index_of(bytes: Option<[u8; 32]>) -> Option<Index>
    ensures { result ≡ option_map index_of_bytes bytes }
{
    match bytes {
        Some(bytes) => Some(Index(bytes)),
        None => None,
    }
}

/// An update that can be installed, and the body to sign.
#[derive(Drop)]
pub(crate) struct Pending {
    pub(crate) update: Prepared,
    pub(crate) body: Body,
}

/// An open directory, and the pending update.
#[derive(Drop)]
pub(crate) struct Service {
    /// Whether the rules of a log hold.
    is_logged: bool,
    directory: Directory<Sha256Hash, SuppliedIndices>,
    pending: Option<Pending>,
}

impl Service {
    /// Returns a directory without epochs.
    pub(crate) fn open(alloc: Global, is_logged: bool, nonce: [u8; 32], policy: [u8; 32]) -> Service
        ensures state { provided_of result ≡ nothing_yet is_logged nonce policy }
        ensures served { IsServing result }
    {
        let indices = SuppliedIndices::new(alloc);
        Service {
            is_logged,
            directory: Directory::open(alloc, Sha256Hash, indices, Nonce(nonce), policy),
            pending: None,
        }
    }

    /// Returns a restored directory, in which no update is pending.
    pub(crate) fn of(is_logged: bool, directory: Directory<Sha256Hash, SuppliedIndices>) -> Service
        ensures logged { result.is_logged ≡ is_logged }
        ensures directory { result.directory ≡ directory }
        ensures pending { result.pending ≡ None }
    {
        Service {
            is_logged,
            directory,
            pending: None,
        }
    }

    /// Returns whether the rules of a log hold.
    pub(crate) fn is_logged(&self) -> bool
        ensures { result ≡ (provided_of self.now).logged }
    {
        self.is_logged
    }

    /// Prepares the update of a batch, in place of the pending one.
    pub(crate) fn prepare<T: Threads + Sync>(
        &mut self,
        builders: &Builders<'_, T>,
        line: ReadBatch,
    ) -> Result<Reply, AllocError>
        requires { IsServing self.old }
        ensures served { IsServing self.new }
        ensures reply { IfOk result (λ reply. provider_outcome_of reply ≡
            (prepare_on (provided_of self.old) (batch_line_of line) (line_refusal (provided_of self.old) (batch_line_of line))).outcome) }
        ensures state { OnOk result (serving (provided_of self.new) ≡
            (prepare_on (provided_of self.old) (batch_line_of line) (line_refusal (provided_of self.old) (batch_line_of line))).state) }
    {
        if !self.may_replace(&line) {
            return Ok(Reply::NotAbandoned);
        }
        let ReadBatch {
            epoch,
            batch,
            body: stated,
            ..
        } = line;
        let (rt, parallelism) = (builders.rt, builders.parallelism);
        let update = match self.directory.prepare_owned(rt, batch, parallelism, &Open) {
            Ok(update) => update,
            Err(fault) => return supplied_refusal(fault),
        };
        if let Some(refused) = self.number_refusal(epoch) {
            return Ok(refused);
        }
        let body = self.directory.next_body(&update, epoch);
        if !agrees(&stated, &body.bytes()) {
            return Ok(Reply::ReplayDiffers);
        }
        let nodes = update.new_nodes();
        self.pending = Some(Pending { update, body });
        Ok(Reply::Prepared { body, nodes })
    }

    /// Returns whether a line may replace the pending update: if the rules of a log hold, only one that abandons it by name.
    fn may_replace(&self, line: &ReadBatch) -> bool
        ensures { result ≡ may_replace (provided_of self.now) (batch_line_of line.now).claims }
    {
        !self.is_logged || is_named(&line.abandons, &self.pending_body())
    }

    /// Returns the body of the pending update, if one is.
    pub(crate) fn pending_body(&self) -> Option<[u8; BODY_BYTES]>
        ensures { result ≡ pending_body (provided_of self.now) }
    {
        match &self.pending {
            Some(pending) => Some(pending.body.bytes()),
            None => None,
        }
    }

    /// Returns the number of registered names.
    pub(crate) fn names(&self) -> usize
        ensures { result ≡ length (provided_of self.now).indices }
    {
        self.directory.source().count()
    }

    /// Returns why no update is prepared under a number, if any.
    fn number_refusal(&self, epoch: u64) -> Option<Reply>
        ensures { option_map provider_outcome_of result ≡ provider_number_refusal (provided_of self.now) epoch }
    {
        let latest = self.directory.latest_epoch();
        if epoch <= latest {
            return Some(Reply::Refused(Refusal::EpochNotLater { latest }));
        }
        None
    }

    /// Installs the pending update with a signature, unless its link is another one than the line names.
    pub(crate) fn install(
        &mut self,
        signature: [u8; 64],
        stated: &Option<Option<[u8; 32]>>,
    ) -> Result<Reply, AllocError>
        requires { IsServing self.old }
        ensures served { IsServing self.new }
        ensures reply { IfOk result (λ reply. provider_outcome_of reply ≡
            (install_on (provided_of self.old) signature stated.now (provided_of self.old).pending).outcome) }
        ensures state { OnOk result (serving (provided_of self.new) ≡
            (install_on (provided_of self.old) signature stated.now (provided_of self.old).pending).state) }
    {
        let Some(Pending { update, body }) = self.pending.take() else {
            return Ok(Reply::NotPrepared);
        };
        let entry = Entry {
            body,
            signature: Signature(signature),
        };
        let linked = LinkedEntry::new(entry);
        let link = linked.link();
        if !agrees(stated, &link.0) {
            let pending = Pending { update, body };
            self.pending = Some(pending);
            return Ok(Reply::ReplayDiffers);
        }
        match self.directory.install_linked(update, linked) {
            Ok(()) => {}
            Err((InstallFault::OutOfMemory, _)) => return Err(AllocError),
            Err(_) => unreachable!(),
        }
        Ok(Reply::Installed { entry, link })
    }

    /// Drops the pending update.
    pub(crate) fn withdraw(&mut self) -> Reply
        requires { IsServing self.old }
        ensures served { IsServing self.new }
        ensures turn { Takes (withdraw_on (provided_of self.old) (provided_of self.old).pending) (provider_outcome_of result) (serving (provided_of self.new)) }
    {
        match self.pending.take() {
            Some(_) => Reply::Withdrawn,
            None => Reply::NotPrepared,
        }
    }

    /// Looks a name up at an epoch and an index.
    pub(crate) fn look_up(
        &self,
        alloc: Global,
        epoch: u64,
        name: &str,
        index: [u8; 32],
    ) -> Result<Reply, AllocError>
        ensures { IfOk result (λ reply. provider_outcome_of reply ≡ provider_lookup_with (serving (provided_of self.now)) epoch name.now index) }
    {
        let found = match self
            .directory
            .signed_lookup_at(epoch, name.as_bytes(), Index(index))
        {
            Ok(found) => found,
            Err(fault) => return lookup_refusal(fault),
        };
        let name = String::from_str(alloc, name)?;
        Ok(Reply::LookedUp { name, found })
    }

    /// Returns a page of at most `most` bindings of an epoch, those after an index or the first of all.
    pub(crate) fn bindings(
        &self,
        alloc: Global,
        epoch: u64,
        after: Option<[u8; 32]>,
        most: usize,
    ) -> Result<Reply, AllocError>
        requires { most ≤ MAX_OPERATIONS }
        ensures { IfOk result (λ reply. provider_outcome_of reply ≡ bindings_with (serving (provided_of self.now)) epoch after most) }
    {
        let mut page = match self.directory.bindings(epoch, index_of(after), most + 1) {
            Ok(found) => found,
            Err(fault) => return page_refusal(fault),
        };
        let more = page.len() > most;
        page.truncate(most);
        Ok(Reply::Bindings(page_object(alloc, epoch, &page, more)?))
    }

    /// Returns the state at the latest epoch.
    pub(crate) fn latest(&self) -> Reply
        ensures { provider_outcome_of result ≡ latest_outcome (serving (provided_of self.now)) }
    {
        Reply::Latest(Latest {
            epoch: self.directory.latest_epoch(),
            link: self.directory.latest_link(),
            names: self.directory.source().count(),
            nodes: self.directory.nodes(),
        })
    }
}
