//! The machine of `audit`, and its engine.

ghost use Rattle.std.specs.Prelude.{◌≡◌, ◌<◌, ◌+◌, ◌^◌, ◌↔◌, IfOk, OnOk, Some, true};
ghost use Rattle.coniks_proof.specs.Octets.{Octets};
ghost use Rattle.coniks_lines.specs.Lines.{lines_of};
ghost use Rattle.coniks_lines.specs.Runs.{IsRunOf, streams};
ghost use Rattle.coniks_programs.specs.Faults.{FailsOn};
ghost use Rattle.coniks_tool.specs.Audit.{AuditState, audit_answer, audit_turn, entry_turn, none_audited};
ghost use Rattle.coniks_tool.specs.AuditChain.{HoldsGoodChain};
ghost use Rattle.coniks_tool.specs.AuditReplies.{audit_outcome};

use crate::audit::reply::AuditReply;
use crate::demo::seal::DemoSeal;
use coniks_chain::{Auditor, Entry};
use coniks_lines::{ByteIn, ByteOut, LineMachine, run_lines};
use coniks_programs::entries::read_entry;
use coniks_programs::fault::{RunFault, of_run};
use coniks_programs::members::read_object;
use coniks_proof::{Head, Sha256Hash};
use std::alloc::{AllocError, Global};
use std::marker::Model;

/// A machine that audits the entries of lines, each after the last accepted one.
///
/// Contracts see it as the key and the auditor's state.
#[derive(Drop)]
pub struct Auditing {
    alloc: Global,
    seal: DemoSeal,
    auditor: Auditor<Sha256Hash>,
}

impl Model for Auditing {
    ghost use Rattle.coniks_tool.specs.Audit.{AuditState};

    ghost Value = { AuditState };

    ghost view = { λ a. record { key = a.seal.key; before = a.auditor.1 } };
}

impl Auditing {
    /// Returns a machine that audits under the seal of a key, and has accepted no entry.
    fn new(alloc: Global, key: [u8; 32]) -> Auditing
        ensures { result ≡ none_audited key }
    {
        Auditing {
            alloc,
            seal: DemoSeal::new(key),
            auditor: Auditor::new(Sha256Hash),
        }
    }

    /// Feeds an entry to the auditor.
    fn judge(&mut self, entry: &Entry) -> AuditReply
        ensures reply { audit_outcome result ≡ (entry_turn self.old (Some entry.now)).outcome }
        ensures state { self.new ≡ (entry_turn self.old (Some entry.now)).state }
    {
        if let Err(fault) = self.auditor.feed(entry, &self.seal) {
            return AuditReply::AtFault(fault);
        }
        let Some(Head { epoch, link }) = self.auditor.head() else {
            unreachable!()
        };
        AuditReply::Audited { epoch, link }
    }

    /// Audits the entry of a line, and returns the reply.
    fn reply(&mut self, line: &[u8]) -> Result<AuditReply, AllocError>
        ensures reply { IfOk result (λ reply. audit_outcome reply ≡ (audit_turn self.old line.now).outcome) }
        ensures state { OnOk result (self.new ≡ (audit_turn self.old line.now).state) }
    {
        let Some(object) = read_object(self.alloc, line)? else {
            return Ok(AuditReply::NotJson);
        };
        match read_entry(&object) {
            Some(entry) => Ok(self.judge(&entry)),
            None => Ok(AuditReply::NoEntry),
        }
    }
}

impl LineMachine for Auditing {
    ghost use Rattle.coniks_tool.specs.Audit.{AuditState, audit_answer};

    ghost State = { AuditState };

    ghost state = { λ a. a };

    ghost answer = { audit_answer };

    ghost Needs = { Unit {0} };

    fn step(&mut self, line: &[u8], out: &mut Vec<u8>) -> Result<bool, AllocError> {
        let reply = self.reply(line)?;
        reply.object(self.alloc)?.print(out)?;
        Ok(reply.is_accepted())
    }
}

/// Audits the entries in the reader's lines, under the demonstration seal of a key.
///
/// Answers each line with one line and one flush, until a read returns 0. Returns whether each line was accepted. An
/// entry is compared with the last accepted one. A refused line changes nothing.
///
/// # Errors
///
/// The errors of `run_lines`.
pub fn run_audit<R: ByteIn, W: ByteOut>(
    alloc: Global,
    key: [u8; 32],
    reader: &mut R,
    writer: &mut W,
) -> Result<bool, RunFault>
    requires reads { (R.source reader.old).failed + 1 < 2 ^ 64 }
    requires writes { (W.sink writer.old).failed + 1 < 2 ^ 64 }
    ensures run { IsRunOf audit_answer (none_audited key) (FailsOn audit_answer (none_audited key))
        (streams (R.source reader.old) (R.source reader.new) (W.sink writer.old) (W.sink writer.new))
        result }

    // Each line is accepted if and only if the lines hold a good chain.
    ensures chain { (input : Octets) → (R.source reader.old).left ≡ Some input
        → IfOk result (λ all. (all ≡ true) ↔ HoldsGoodChain key (lines_of input)) }
{
    let mut auditing = Auditing::new(alloc, key);
    of_run(run_lines(alloc, &mut auditing, reader, writer))
}
