//! The machine of `monitor`, and its engine.

ghost use Rattle.std.specs.Prelude.{◌≡◌, ◌<◌, ◌+◌, ◌^◌, codes, IfOk, OnOk, Some};
ghost use Rattle.serde_json.specs.View.{view};
ghost use Rattle.coniks_lines.specs.Runs.{IsRunOf, streams};
ghost use Rattle.coniks_programs.specs.EntryLines.{entry_in};
ghost use Rattle.coniks_programs.specs.Faults.{FailsOn};
ghost use Rattle.coniks_tool.specs.Expectations.{expected_in};
ghost use Rattle.coniks_programs.specs.Members.{text_in};
ghost use Rattle.coniks_tool.specs.Monitor.{MonitorState, expect_turn, is_expect, monitor_answer, monitor_turn, none_watched, object_turn, step_turn, watch_turn};
ghost use Rattle.coniks_tool.specs.MonitorReplies.{monitor_outcome};
ghost use Rattle.coniks_programs.specs.ProofObjects.{proof_in};

use crate::demo::index::DemoIndex;
use crate::demo::seal::DemoSeal;
use crate::monitor::expectation::read_expectation;
use crate::monitor::reply::MonitorReply;
use coniks_chain::{Entry, Monitor};
use coniks_directory::IndexSource;
use coniks_lines::{ByteIn, ByteOut, LineMachine, run_lines};
use coniks_programs::entries::read_entry;
use coniks_programs::fault::{RunFault, of_run};
use coniks_programs::members::{read_object, text};
use coniks_programs::printing::Member;
use coniks_programs::proof_object::read_proof;
use coniks_proof::{Bytes, Proof, Sha256Hash};
use serde_json::Value;
use std::alloc::{AllocError, Global};
use std::marker::Model;

/// A machine that monitors one name over the entries of lines, each with its proof.
///
/// Contracts see it as the state that the lines lead to.
#[derive(Drop)]
pub struct Monitoring {
    alloc: Global,
    seal: DemoSeal,
    monitor: Monitor<Sha256Hash>,
}

impl Model for Monitoring {
    ghost use Rattle.coniks_tool.specs.Monitor.{MonitorState, watching};

    ghost Value = { MonitorState };

    ghost view = { λ m. watching m.seal.key m.monitor };
}

impl Monitoring {
    /// Returns a machine that monitors a name under the seal and the index of a key, and has seen no entry.
    ///
    /// The client expects a key of the name, or none.
    fn new(alloc: Global, key: [u8; 32], name: Bytes, expected: Option<Bytes>) -> Monitoring
        ensures { result ≡ none_watched key name expected }
    {
        let index = DemoIndex::new(key).index(name.as_slice());
        Monitoring {
            alloc,
            seal: DemoSeal::new(key),
            monitor: Monitor::new(Sha256Hash, name, index, expected),
        }
    }

    /// Passes an entry and its proof to the monitor.
    fn judge(&mut self, entry: &Entry, proof: &Proof) -> MonitorReply
        ensures reply { monitor_outcome result ≡ (step_turn self.old entry.now proof.now).outcome }
        ensures state { self.new ≡ (step_turn self.old entry.now proof.now).state }
    {
        let seen = match self.monitor.step(entry, proof, &self.seal) {
            Ok(seen) => seen,
            Err(fault) => return MonitorReply::AtFault(fault),
        };
        MonitorReply::Watched {
            epoch: entry.body.t,
            seen,
        }
    }

    /// Checks the line's entry and proof.
    fn watch(&mut self, object: &Value) -> Result<MonitorReply, AllocError>
        ensures reply { IfOk result (λ reply. monitor_outcome reply ≡ (watch_turn self.old (entry_in (view object.now)) (proof_in (view object.now))).outcome) }
        ensures state { OnOk result (self.new ≡ (watch_turn self.old (entry_in (view object.now)) (proof_in (view object.now))).state) }
    {
        let Some(entry) = read_entry(object) else {
            return Ok(MonitorReply::NoMember(Member::Entry));
        };
        match read_proof(self.alloc, object)? {
            Some(proof) => Ok(self.judge(&entry, &proof)),
            None => Ok(MonitorReply::NoMember(Member::Proof)),
        }
    }

    /// Sets the expected key to the line's key.
    fn expect(&mut self, object: &Value) -> Result<MonitorReply, AllocError>
        ensures reply { IfOk result (λ reply. monitor_outcome reply ≡ (expect_turn self.old (expected_in (view object.now))).outcome) }
        ensures state { OnOk result (self.new ≡ (expect_turn self.old (expected_in (view object.now))).state) }
    {
        match read_expectation(self.alloc, object)? {
            Some(expected) => {
                self.monitor.expect(expected);
                Ok(MonitorReply::Expecting)
            }
            None => Ok(MonitorReply::NoMember(Member::Key)),
        }
    }

    /// Executes the command of an object: it sets the expectation, or is an entry with a proof.
    fn dispatch(&mut self, object: &Value) -> Result<MonitorReply, AllocError>
        ensures reply { IfOk result (λ reply. monitor_outcome reply ≡ (object_turn self.old (view object.now)).outcome) }
        ensures state { OnOk result (self.new ≡ (object_turn self.old (view object.now)).state) }
    {
        if is_expect(object) {
            return self.expect(object);
        }
        self.watch(object)
    }

    /// Executes the command of a line, and returns the reply.
    fn reply(&mut self, line: &[u8]) -> Result<MonitorReply, AllocError>
        ensures reply { IfOk result (λ reply. monitor_outcome reply ≡ (monitor_turn self.old line.now).outcome) }
        ensures state { OnOk result (self.new ≡ (monitor_turn self.old line.now).state) }
    {
        match read_object(self.alloc, line)? {
            Some(object) => self.dispatch(&object),
            None => Ok(MonitorReply::NotJson),
        }
    }
}

/// Returns whether a line sets the expectation.
fn is_expect(object: &Value) -> bool
    ensures { result ≡ is_expect (text_in (codes "cmd") (view object.now)) }
{
    match text(object, "cmd") {
        Some(command) => command == "expect",
        None => false,
    }
}

impl LineMachine for Monitoring {
    ghost use Rattle.coniks_tool.specs.Monitor.{MonitorState, monitor_answer};

    ghost State = { MonitorState };

    ghost state = { λ m. m };

    ghost answer = { monitor_answer };

    ghost Needs = { Unit {0} };

    fn step(&mut self, line: &[u8], out: &mut Vec<u8>) -> Result<bool, AllocError> {
        let reply = self.reply(line)?;
        reply.object(self.alloc)?.print(out)?;
        Ok(reply.is_as_expected())
    }
}

/// Monitors a name over the entries in the reader's lines, for a client that expects a key of it or none.
///
/// Each entry comes with its proof. The entries are audited under the demonstration seal of a key. The proofs are checked
/// at the name's demonstration index under that key. Answers each line with one line and one flush, until a read returns
/// 0. Returns whether each line was accepted and showed the expected key.
///
/// A line whose `cmd` is `expect` sets the expected key from then on. After a line that shows something else, the next
/// entry is compared with that line's entry. A refused line changes nothing. A name that is empty or longer than 255
/// bytes is allowed, but then no proof is accepted.
///
/// # Errors
///
/// The errors of `run_lines`.
pub fn run_monitor<R: ByteIn, W: ByteOut>(
    alloc: Global,
    key: [u8; 32],
    name: Bytes,
    expected: Option<Bytes>,
    reader: &mut R,
    writer: &mut W,
) -> Result<bool, RunFault>
    requires reads { (R.source reader.old).failed + 1 < 2 ^ 64 }
    requires writes { (W.sink writer.old).failed + 1 < 2 ^ 64 }
    ensures run { IsRunOf monitor_answer (none_watched key name expected) (FailsOn monitor_answer (none_watched key name expected))
        (streams (R.source reader.old) (R.source reader.new) (W.sink writer.old) (W.sink writer.new))
        result }
{
    let mut monitoring = Monitoring::new(alloc, key, name, expected);
    of_run(run_lines(alloc, &mut monitoring, reader, writer))
}
