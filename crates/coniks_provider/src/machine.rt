//! The machine of `provider`, and its engine.

ghost use Rattle.std.specs.Prelude.{◌≡◌, ◌<◌, ◌≤◌, ◌+◌, ◌++◌, ◌^◌, IfOk, IfSome, None, OnOk, codes, if◌then◌else◌, option_map};
ghost use Rattle.coniks_proof.specs.declared.values.TheConstants.{MAX_OPERATIONS};
ghost use Rattle.coniks_programs.specs.EntryLines.{entry_in};
ghost use Rattle.serde_json.specs.View.{view};
ghost use Rattle.coniks_lines.specs.Runs.{IsRunOf, streams};
ghost use Rattle.coniks_programs.specs.Faults.{FailsOn};
ghost use Rattle.coniks_programs.specs.Members.{array_in, digits_in, if_there, number_in, text_in};
ghost use Rattle.coniks_programs.specs.Turns.{Takes};
ghost use Rattle.coniks_provider.specs.Answers.{provider_outcome_of};
ghost use Rattle.coniks_provider.specs.Claims.{claim_in, log_in};
ghost use Rattle.coniks_provider.specs.Stored.{stored_line};
ghost use Rattle.coniks_provider.specs.Turns.{claims_in, bindings_outcome, install_turn, is_logged, most_in, nothing, prepare_turn, provider_answer, provider_command_turn, provider_lookup_outcome, provider_open_turn, restore_turn, restoring_turn};

use crate::batch::ReadBatch;
use crate::claims::{claim_in, log_in};
use crate::operations::{Elements, read_operations};
use crate::reply::Reply;
use crate::store::Store;
use crate::stored::{Stored, put_store, stored_line};
use coniks_directory::OwnedBatch;
use coniks_lines::{ByteIn, ByteOut, LineMachine, run_lines};
use coniks_programs::builders::Builders;
use coniks_programs::entries::read_entry;
use coniks_programs::fault::{RunFault, of_run};
use coniks_programs::members::{
    array, bytes_of_digits, digits32, digits32_if_there, nonce_of, number, read_object, text,
};
use coniks_programs::operations::ReadList;
use coniks_programs::printing::Member;
use coniks_programs::refusal::Refusal;
use coniks_proof::MAX_OPERATIONS;
use coniks_threads::Parallelism;
use serde_json::Value;
use std::alloc::{AllocError, Global};
use std::thread::Threads;

/// A machine that answers the lines of a provider, with what builds its epochs.
#[derive(Drop)]
pub(crate) struct Providing<'r, T: Threads + Sync> {
    alloc: Global,
    builders: Builders<'r, T>,
    pub(crate) store: Store,
}

/// The 64 bytes of the member `signature`, in 128 hexadecimal digits of either case.
fn signature_in(object: &Value) -> Option<[u8; 64]>
    ensures { result ≡ digits_in 64 (codes "signature") (view object.now) }
{
    let digits = text(object, "signature")?;
    bytes_of_digits(digits)
}

/// The number of the member `most`, from 1 to `MAX_OPERATIONS`.
fn most_in(object: &Value) -> Option<usize>
    ensures value { result ≡ most_in (view object.now) }
    ensures few { IfSome result (λ most. most ≤ MAX_OPERATIONS) }
{
    let most = number(object, "most")?;
    if most == 0 || most > MAX_OPERATIONS as u64 {
        return None;
    }
    Some(most as usize)
}

impl<'r, T: Threads + Sync> Providing<'r, T> {
    /// Returns a machine that has opened nothing.
    pub(crate) fn new(alloc: Global, builders: Builders<'r, T>) -> Self
        ensures { result.store ≡ nothing }
    {
        Providing {
            alloc,
            builders,
            store: Store::new(alloc),
        }
    }

    /// Opens a directory under the line's nonce and policy digest.
    fn open(&mut self, object: &Value) -> Reply
        ensures { Takes (provider_open_turn self.old.store (digits_in 32 (codes "nonce") (view object.now))
            (digits_in 32 (codes "policy") (view object.now)) (log_in (view object.now))) (provider_outcome_of result) self.new.store }
    {
        let Some(nonce) = digits32(object, "nonce") else {
            return Reply::Refused(Refusal::BadMember(Member::Nonce));
        };
        let Some(policy) = digits32(object, "policy") else {
            return Reply::Refused(Refusal::BadMember(Member::Policy));
        };
        let Some(is_logged) = log_in(object) else {
            return Reply::Refused(Refusal::BadMember(Member::Log));
        };
        self.store.open_with(is_logged, nonce, policy)
    }

    /// Prepares the update of the line's batch.
    fn prepare(&mut self, object: &Value) -> Result<Reply, AllocError>
        ensures { IfOk result (λ reply. Takes (prepare_turn self.old.store (number_in (codes "epoch") (view object.now))
            (if_there (codes "nonce") (view object.now) (digits_in 32 (codes "nonce") (view object.now))) (array_in (codes "ops") (view object.now)) (claims_in (view object.now)))
            (provider_outcome_of reply) self.new.store) }
    {
        let Some(epoch) = number(object, "epoch") else {
            return Ok(Reply::Refused(Refusal::BadMember(Member::Epoch)));
        };
        let Some(new_nonce) = digits32_if_there(object, "nonce") else {
            return Ok(Reply::Refused(Refusal::BadMember(Member::Nonce)));
        };
        let Some(elements) = array(object, "ops") else {
            return Ok(Reply::Refused(Refusal::BadMember(Member::Ops)));
        };
        match read_operations(self.alloc, Elements::Operations, elements)? {
            ReadList::Whole(read) => {
                let line = ReadBatch {
                    epoch,
                    batch: OwnedBatch {
                        nonce: nonce_of(new_nonce),
                        ops: read.ops,
                        indices: read.indices,
                    },
                    body: claim_in(object, "body"),
                    abandons: claim_in(object, "abandons"),
                };
                self.store.prepare(&self.builders, line)
            }
            ReadList::BadElement(place) => {
                Ok(Reply::Refused(Refusal::BadElement(Member::Ops, place)))
            }
        }
    }

    /// Installs the pending update under the line's signature.
    fn install(&mut self, object: &Value) -> Result<Reply, AllocError>
        ensures { IfOk result (λ reply. Takes (install_turn self.old.store (digits_in 64 (codes "signature") (view object.now))
            (claim_in 32 (codes "link") (view object.now))) (provider_outcome_of reply) self.new.store) }
    {
        match signature_in(object) {
            Some(signature) => self.store.install(signature, &claim_in(object, "link")),
            None => Ok(Reply::Refused(Refusal::BadMember(Member::Signature))),
        }
    }

    /// Looks up the line's name at the line's epoch.
    fn lookup(&self, object: &Value) -> Result<Reply, AllocError>
        ensures { IfOk result (λ reply. provider_outcome_of reply ≡ provider_lookup_outcome self.now.store
            (number_in (codes "epoch") (view object.now)) (text_in (codes "name") (view object.now)) (digits_in 32 (codes "index") (view object.now))) }
    {
        let Some(epoch) = number(object, "epoch") else {
            return Ok(Reply::Refused(Refusal::BadMember(Member::Epoch)));
        };
        let Some(name) = text(object, "name") else {
            return Ok(Reply::Refused(Refusal::BadMember(Member::Name)));
        };
        let Some(index) = digits32(object, "index") else {
            return Ok(Reply::Refused(Refusal::BadMember(Member::Index)));
        };
        self.store.look_up(epoch, name, index)
    }

    /// Returns a page of the bindings of the line's epoch.
    fn bindings(&self, object: &Value) -> Result<Reply, AllocError>
        ensures { IfOk result (λ reply. provider_outcome_of reply ≡ bindings_outcome self.now.store (number_in (codes "epoch") (view object.now))
            (if_there (codes "after") (view object.now) (digits_in 32 (codes "after") (view object.now))) (most_in (view object.now))) }
    {
        let Some(epoch) = number(object, "epoch") else {
            return Ok(Reply::Refused(Refusal::BadMember(Member::Epoch)));
        };
        let Some(after) = digits32_if_there(object, "after") else {
            return Ok(Reply::Refused(Refusal::BadMember(Member::After)));
        };
        let Some(most) = most_in(object) else {
            return Ok(Reply::Refused(Refusal::BadMember(Member::Most)));
        };
        self.store.bindings(epoch, after, most)
    }

    /// Begins a restore from the line's entry.
    fn restore(&mut self, object: &Value) -> Result<Reply, AllocError>
        ensures { IfOk result (λ reply. Takes (restore_turn self.old.store (entry_in (view object.now)) (log_in (view object.now)))
            (provider_outcome_of reply) self.new.store) }
    {
        let Some(entry) = read_entry(object) else {
            return Ok(Reply::Refused(Refusal::BadMember(Member::Entry)));
        };
        match log_in(object) {
            Some(is_logged) => self.store.restore(is_logged, entry),
            None => Ok(Reply::Refused(Refusal::BadMember(Member::Log))),
        }
    }

    /// Adds the line's bindings to the restore.
    fn restoring(&mut self, object: &Value) -> Result<Reply, AllocError>
        ensures { IfOk result (λ reply. Takes (restoring_turn self.old.store (array_in (codes "bindings") (view object.now)))
            (provider_outcome_of reply) self.new.store) }
    {
        let Some(elements) = array(object, "bindings") else {
            return Ok(Reply::Refused(Refusal::BadMember(Member::Bindings)));
        };
        match read_operations(self.alloc, Elements::Bindings, elements)? {
            ReadList::Whole(read) => self.store.restore_more(read),
            ReadList::BadElement(place) => {
                Ok(Reply::Refused(Refusal::BadElement(Member::Bindings, place)))
            }
        }
    }

    /// Returns the line that the log stores for a line with this reply, if it stores one.
    fn to_store<'l>(
        &self,
        reply: &Reply,
        object: &Value,
        line: &'l [u8],
    ) -> Result<Option<Stored<'l>>, AllocError>
        ensures { IfOk result (λ stored. option_map (λ (s : Stored). s.lead.items ++ s.rest.now) stored
            ≡ (if is_logged self.now.store then stored_line (provider_outcome_of reply.now) (view object.now) line.now else None)) }
    {
        if !self.store.is_logged() {
            return Ok(None);
        }
        stored_line(self.alloc, reply, object, line)
    }

    /// Executes the command of an object.
    pub(crate) fn command(&mut self, object: &Value) -> Result<Reply, AllocError>
        ensures { IfOk result (λ reply. Takes (provider_command_turn self.old.store (view object.now) (text_in (codes "cmd") (view object.now)))
            (provider_outcome_of reply) self.new.store) }
    {
        let Some(name) = text(object, "cmd") else {
            return Ok(Reply::Refused(Refusal::NoCommand));
        };
        if name == "open" {
            return Ok(self.open(object));
        }
        if name == "prepare" {
            return self.prepare(object);
        }
        if name == "install" {
            return self.install(object);
        }
        if name == "withdraw" {
            return Ok(self.store.withdraw());
        }
        if name == "lookup" {
            return self.lookup(object);
        }
        if name == "latest" {
            return Ok(self.store.latest());
        }
        if name == "bindings" {
            return self.bindings(object);
        }
        if name == "restore" {
            return self.restore(object);
        }
        if name == "restoring" {
            return self.restoring(object);
        }
        if name == "restored" {
            return self.store.end_restore(&self.builders);
        }
        Ok(Reply::Refused(Refusal::NoCommand))
    }
}

impl<'r, T: Threads + Sync> LineMachine for Providing<'r, T> {
    ghost use Rattle.std.specs.Thread.{IsSync};
    ghost use Rattle.coniks_provider.specs.Turns.{ProviderState, provider_answer};

    ghost State = { ProviderState };

    ghost state = { λ s. s.store };

    ghost answer = { provider_answer };

    ghost Needs = { IsSync T.row };

    fn step(&mut self, line: &[u8], out: &mut Vec<u8>) -> Result<bool, AllocError> {
        let Some(object) = read_object(self.alloc, line)? else {
            Reply::Refused(Refusal::NotJson)
                .object(self.alloc)?
                .print(out)?;
            return Ok(false);
        };
        let reply = self.command(&object)?;
        let is_accepted = reply.is_accepted();
        let stored = self.to_store(&reply, &object, line)?;
        let mut printed = reply.object(self.alloc)?;
        if let Some(stored) = stored {
            put_store(&mut printed, &stored)?;
        }
        printed.print(out)?;
        Ok(is_accepted)
    }
}

/// Answers the lines of a provider over one directory, which `open` opens or a restore restores.
///
/// Answers each line with one line and one flush, until a read returns 0. Returns whether each line was accepted.
/// Several worker threads build an epoch, with a split depth. No answer depends on either. The call can wait, because it
/// joins its worker threads.
///
/// # Errors
///
/// The errors of `run_lines`.
pub fn run_provider<T: Threads + Sync, R: ByteIn, W: ByteOut>(
    rt: &T,
    alloc: Global,
    reader: &mut R,
    writer: &mut W,
    parallelism: Parallelism,
) -> Result<bool, RunFault>
    requires reads { (R.source reader.old).failed + 1 < 2 ^ 64 }
    requires writes { (W.sink writer.old).failed + 1 < 2 ^ 64 }
    ensures run { IsRunOf provider_answer nothing (FailsOn provider_answer nothing)
        (streams (R.source reader.old) (R.source reader.new) (W.sink writer.old) (W.sink writer.new))
        result }
{
    let mut providing = Providing::new(alloc, Builders { rt, parallelism });
    of_run(run_lines(alloc, &mut providing, reader, writer))
}
