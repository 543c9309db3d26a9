//! A restore that has begun, from a `restore` line to the `restored` line that opens the directory.

ghost use Rattle.std.specs.Prelude.{◌≡◌, [], ◌∷◌, None, Some, IfOk, OnErr, OnOk, length};
ghost use Rattle.coniks_directory.specs.SuppliedBatches.{indexed};
ghost use Rattle.coniks_provider.specs.Answers.{provider_outcome_of};
ghost use Rattle.coniks_provider.specs.Stores.{IsServingIf, begun_turn, provider_state_of, restore_of, restore_refused_as};
ghost use Rattle.coniks_provider.specs.Turns.{end_restore, entry_refusal, restore_from, restoring, restoring_on, restoring_refusal};

use crate::batch::Operations;
use crate::reply::Reply;
use crate::service::Service;
use crate::stage::Stage;
use coniks_chain::Entry;
use coniks_directory::{OwnedBindings, RestoreFault, Restoring, SuppliedIndices};
use coniks_programs::builders::Builders;
use coniks_programs::refusal::{Refusal, batch_refusal};
use coniks_proof::{MAX_OPERATIONS, Sha256Hash};
use coniks_threads::Open;
use std::alloc::{AllocError, Global};
use std::thread::Threads;

/// Returns the reply to an entry or to bindings that are not restored.
fn restore_refusal(fault: RestoreFault) -> Result<Reply, AllocError>
    ensures reply { IfOk result (λ reply. restore_refused_as fault ≡ Some (provider_outcome_of reply)) }
    ensures memory { OnErr result (fault ≡ RestoreFault.OutOfMemory) }
{
    match fault {
        RestoreFault::NotLater => Ok(Reply::NotLater),
        RestoreFault::Version => Ok(Reply::Version),
        RestoreFault::Malformed => Ok(Reply::Malformed),
        RestoreFault::RootDiffers => Ok(Reply::RootDiffers),
        RestoreFault::OutOfMemory => Err(AllocError),
    }
}

/// A directory that is being restored.
#[derive(Drop)]
pub(crate) struct Restore {
    /// Whether the rules of a log will hold.
    is_logged: bool,
    restoring: Restoring<Sha256Hash, SuppliedIndices>,
}

/// The outcome of an entry that a restore is to begin from.
#[derive(Drop)]
pub(crate) enum Beginning {
    /// The restore has begun.
    Begun(Restore),
    /// The entry is refused.
    Refused(Reply),
}

impl Restore {
    /// Begins to restore the directory of an entry, or returns the refusal of the entry.
    pub(crate) fn begin(
        alloc: Global,
        is_logged: bool,
        entry: Entry,
    ) -> Result<Beginning, AllocError>
        ensures begun { IfOk result (λ begun. begun_turn begun ≡ restore_from is_logged entry (entry_refusal entry)) }
        ensures memory { OnErr result (entry_refusal entry ≡ None) }
    {
        let indices = SuppliedIndices::new(alloc);
        match Restoring::new(alloc, Sha256Hash, indices, entry) {
            Ok(restoring) => Ok(Beginning::Begun(Restore {
                is_logged,
                restoring,
            })),
            Err(fault) => Ok(Beginning::Refused(restore_refusal(fault)?)),
        }
    }

    /// Adds the bindings of a line to those so far, or none of them if one has an error.
    pub(crate) fn add(&mut self, read: Operations) -> Result<Reply, AllocError>
        ensures reply { IfOk result (λ reply. provider_outcome_of reply ≡
            (restoring_on (restore_of self.old) (indexed read.ops.items read.indices.items)
            (restoring_refusal (restore_of self.old) (indexed read.ops.items read.indices.items))).outcome) }
        ensures state { OnOk result (restoring (restore_of self.new) ≡
            (restoring_on (restore_of self.old) (indexed read.ops.items read.indices.items)
            (restoring_refusal (restore_of self.old) (indexed read.ops.items read.indices.items))).state) }
    {
        if read.ops.len() > MAX_OPERATIONS {
            return Ok(Reply::Refused(Refusal::BatchTooLong));
        }
        let bindings = OwnedBindings {
            bindings: read.ops,
            indices: read.indices,
        };
        match self.restoring.add_supplied(bindings) {
            Ok(()) => Ok(Reply::Restoring {
                names: self.restoring.count(),
            }),
            Err(fault) => Ok(Reply::Refused(batch_refusal(fault)?)),
        }
    }

    /// Opens the directory.
    ///
    /// If the root of the bindings is not the entry's, nothing is open.
    pub(crate) fn finish<T: Threads + Sync>(
        self,
        builders: &Builders<'_, T>,
    ) -> Result<(Stage, Reply), AllocError>
        ensures served { IfOk result (λ it. IsServingIf it.0) }
        ensures reply { IfOk result (λ it. provider_outcome_of it.1 ≡ (end_restore (restore_of self)).outcome) }
        ensures state { IfOk result (λ it. provider_state_of it.0 ≡ (end_restore (restore_of self)).state) }
    {
        match self
            .restoring
            .finish(builders.rt, builders.parallelism, &Open)
        {
            Ok(directory) => {
                let reply = Reply::Restored {
                    entry: only_entry(directory.chain()),
                    link: directory.latest_link(),
                };
                Ok((Stage::Open(Service::of(self.is_logged, directory)), reply))
            }
            Err(fault) => Ok((Stage::Nothing, restore_refusal(fault)?)),
        }
    }
}

/// Returns the entry of a chain that has one.
fn only_entry(chain: &[Entry]) -> Entry
    requires { length chain.now ≡ 1 }
    ensures { chain.now ≡ result ∷ [] }
{
    let [entry] = chain else { unreachable!() };
    *entry
}
