//! The machine of `run`, and its engine.

ghost use Rattle.std.specs.Prelude.{◌≡◌, ◌<◌, ◌≤◌, ◌+◌, ◌^◌, None, Some, IfOk, OnOk, codes};
ghost use Rattle.serde_json.specs.View.{view};
ghost use Rattle.coniks_threads.specs.Parallel.{AreWorkers};
ghost use Rattle.coniks_lines.specs.Runs.{IsRunOf, streams};
ghost use Rattle.coniks_threads.specs.declared.jobs.TheConstants.{MAX_DEPTH};
ghost use Rattle.coniks_programs.specs.Faults.{FailsWithBoard};
ghost use Rattle.coniks_programs.specs.Members.{array_in, digits_in, if_there, number_in, text_in};
ghost use Rattle.coniks_programs.specs.Turns.{Takes};
ghost use Rattle.coniks_tool.specs.ScriptReplies.{outcome_of};
ghost use Rattle.coniks_tool.specs.Script.{ScriptState, batch_turn, command_turn, lookup_outcome, open_turn, script_answer};

use crate::run::batch::Batch;
use crate::run::reply::Reply;
use crate::run::store::Store;
use coniks_lines::{ByteIn, ByteOut, LineMachine, run_lines};
use coniks_programs::builders::Builders;
use coniks_programs::fault::{RunFault, of_run};
use coniks_programs::members::{array, digits32, digits32_if_there, number, read_object, text};
use coniks_programs::operations::{ReadList, read_ops};
use coniks_programs::printing::Member;
use coniks_programs::refusal::Refusal;
use coniks_threads::{Parallelism, Wanted};
use serde_json::Value;
use std::alloc::{AllocError, Global};
use std::thread::Threads;

/// A machine that answers the lines of a script, with what builds its epochs.
#[derive(Drop)]
pub struct Script<'r, T: Threads + Sync> {
    alloc: Global,
    builders: Builders<'r, T>,
    store: Store,
}

impl<'r, T: Threads + Sync> Script<'r, T> {
    /// Opens a directory under the line's key, nonce and policy digest.
    fn open(&mut self, object: &Value) -> Reply
        ensures { Takes (open_turn self.old.store (digits_in 32 (codes "key") (view object.now)) (digits_in 32 (codes "nonce") (view object.now))
            (digits_in 32 (codes "policy") (view object.now))) (outcome_of result) self.new.store }
    {
        let Some(key) = digits32(object, "key") else {
            return Reply::Refused(Refusal::BadMember(Member::Key));
        };
        let Some(nonce) = digits32(object, "nonce") else {
            return Reply::Refused(Refusal::BadMember(Member::Nonce));
        };
        let Some(policy) = digits32(object, "policy") else {
            return Reply::Refused(Refusal::BadMember(Member::Policy));
        };
        self.store.open_with(key, nonce, policy)
    }

    /// Commits the line's batch.
    fn batch(&mut self, object: &Value) -> Result<Reply, AllocError>
        ensures { IfOk result (λ reply. Takes (batch_turn self.old.store (number_in (codes "epoch") (view object.now))
            (if_there (codes "nonce") (view object.now) (digits_in 32 (codes "nonce") (view object.now))) (array_in (codes "ops") (view object.now)))
            (outcome_of reply) self.new.store) }
    {
        let Some(epoch) = number(object, "epoch") else {
            return Ok(Reply::Refused(Refusal::BadMember(Member::Epoch)));
        };
        let Some(new_nonce) = digits32_if_there(object, "nonce") else {
            return Ok(Reply::Refused(Refusal::BadMember(Member::Nonce)));
        };
        let Some(elements) = array(object, "ops") else {
            return Ok(Reply::Refused(Refusal::BadMember(Member::Ops)));
        };
        match read_ops(self.alloc, elements)? {
            ReadList::Whole(ops) => {
                let batch = Batch {
                    epoch,
                    new_nonce,
                    ops,
                };
                self.store.install(&self.builders, batch)
            }
            ReadList::BadElement(place) => {
                Ok(Reply::Refused(Refusal::BadElement(Member::Ops, place)))
            }
        }
    }

    /// Looks up the line's name at the line's epoch.
    fn lookup(&self, object: &Value) -> Result<Reply, AllocError>
        ensures { IfOk result (λ reply. outcome_of reply ≡ lookup_outcome self.now.store
            (number_in (codes "epoch") (view object.now)) (text_in (codes "name") (view object.now))) }
    {
        let Some(epoch) = number(object, "epoch") else {
            return Ok(Reply::Refused(Refusal::BadMember(Member::Epoch)));
        };
        let Some(name) = text(object, "name") else {
            return Ok(Reply::Refused(Refusal::BadMember(Member::Name)));
        };
        self.store.look_up(epoch, name)
    }

    /// Executes the command of an object.
    fn command(&mut self, object: &Value) -> Result<Reply, AllocError>
        ensures { IfOk result (λ reply. Takes (command_turn self.old.store (view object.now) (text_in (codes "cmd") (view object.now)))
            (outcome_of reply) self.new.store) }
    {
        let Some(name) = text(object, "cmd") else {
            return Ok(Reply::Refused(Refusal::NoCommand));
        };
        if name == "open" {
            return Ok(self.open(object));
        }
        if name == "batch" {
            return self.batch(object);
        }
        if name == "lookup" {
            return self.lookup(object);
        }
        Ok(Reply::Refused(Refusal::NoCommand))
    }
}

impl<'r, T: Threads + Sync> LineMachine for Script<'r, T> {
    ghost use Rattle.std.specs.Thread.{IsSync};
    ghost use Rattle.coniks_tool.specs.Script.{ScriptState, script_answer};

    ghost State = { ScriptState };

    ghost state = { λ s. s.store };

    ghost answer = { script_answer };

    ghost Needs = { IsSync T.row };

    fn step(&mut self, line: &[u8], out: &mut Vec<u8>) -> Result<bool, AllocError> {
        let reply = match read_object(self.alloc, line)? {
            Some(object) => self.command(&object)?,
            None => Reply::Refused(Refusal::NotJson),
        };
        reply.object(self.alloc)?.print(out)?;
        Ok(reply.is_accepted())
    }
}

/// Answers the lines of a script: `open`, `batch` and `lookup` over one directory.
///
/// Answers each line with one line and one flush, until a read returns 0. Returns whether each line was accepted.
/// `workers` worker threads build the epochs, at the split depth `depth` in bits, both within the limits of
/// `coniks_threads::build`. No answer depends on either. The call can wait, because it joins its worker threads.
///
/// # Errors
///
/// The errors of `run_lines`, and `NoBoard` if the board for the directory's heads cannot be allocated. Nothing is read
/// then.
pub fn run_script<T: Threads + Sync, R: ByteIn, W: ByteOut>(
    rt: &T,
    alloc: Global,
    reader: &mut R,
    writer: &mut W,
    workers: usize,
    depth: usize,
) -> Result<bool, RunFault>
    requires workers { AreWorkers workers }
    requires depth { depth ≤ MAX_DEPTH }
    requires reads { (R.source reader.old).failed + 1 < 2 ^ 64 }
    requires writes { (W.sink writer.old).failed + 1 < 2 ^ 64 }
    ensures run { IsRunOf script_answer None (FailsWithBoard script_answer None)
        (streams (R.source reader.old) (R.source reader.new) (W.sink writer.old) (W.sink writer.new))
        result }
{
    let store = Store::new(alloc)?;
    let Ok(parallelism) = Parallelism::new(Wanted { workers, depth }) else {
        unreachable!()
    };
    let mut script = Script {
        alloc,
        builders: Builders { rt, parallelism },
        store,
    };
    of_run(run_lines(alloc, &mut script, reader, writer))
}
