//! The machine of `check`, and its engine.

ghost use Rattle.std.specs.Prelude.{◌≡◌, ◌<◌, ◌+◌, ◌^◌, ◌++◌, Ok, IfOk, OnOk, Some};
ghost use Rattle.serde_json.specs.View.{view};
ghost use Rattle.serde_json.specs.Written.{compact_text};
ghost use Rattle.coniks_lines.specs.Runs.{IsRunOf, streams};
ghost use Rattle.coniks_programs.specs.Faults.{FailsOn};
ghost use Rattle.coniks_tool.specs.Check.{Stateless, requested_by, requested_in, check_answer, question_outcome, stateless};
ghost use Rattle.coniks_tool.specs.CheckReplies.{check_data, check_outcome, is_answered};

use crate::check::question::{Question, ReadQuestion, read_question};
use crate::check::reply::CheckReply;
use coniks_lines::{ByteIn, ByteOut, LineMachine, run_lines};
use coniks_programs::fault::{RunFault, of_run};
use coniks_programs::members::read_object;
use coniks_proof::{Sha256Hash, check};
use serde_json::Value;
use std::alloc::{AllocError, Global};

/// A machine that checks the proofs of lines, each on its own.
#[derive(Drop)]
pub struct Checking {
    alloc: Global,
}

/// Checks the proof of a question.
fn judge<'q>(question: &'q Question<'_>) -> CheckReply<'q>
    ensures { check_outcome result ≡ question_outcome (Ok (requested_by question.now)) }
{
    match check(
        &Sha256Hash,
        &question.nonce,
        &question.root,
        &question.index,
        question.name.as_bytes(),
        &question.proof,
    ) {
        Ok(answer) => CheckReply::Answered(answer),
        Err(fault) => CheckReply::AtFault(fault),
    }
}

/// Appends a reply's text, and returns whether the line was accepted.
fn reply(alloc: Global, reply: &CheckReply<'_>, out: &mut Vec<u8>) -> Result<bool, AllocError>
    ensures text { OnOk result (out.new.items ≡ out.old.items ++ compact_text (check_data (check_outcome reply.now))) }
    ensures accepted { IfOk result (λ accepted. accepted ≡ is_answered (check_outcome reply.now)) }
{
    reply.object(alloc)?.print(out)?;
    Ok(reply.is_accepted())
}

impl LineMachine for Checking {
    ghost use Rattle.coniks_tool.specs.Check.{Stateless, check_answer, stateless};

    ghost State = { Stateless };

    ghost state = { λ c. stateless };

    ghost answer = { check_answer };

    ghost Needs = { Unit {0} };

    fn step(&mut self, line: &[u8], out: &mut Vec<u8>) -> Result<bool, AllocError> {
        let Some(object) = read_object(self.alloc, line)? else {
            return reply(self.alloc, &CheckReply::NotJson, out);
        };
        answer(self.alloc, &object, out)
    }
}

/// Replies to a line that is an object.
fn answer(alloc: Global, object: &Value, out: &mut Vec<u8>) -> Result<bool, AllocError>
    ensures text { OnOk result (out.new.items ≡ out.old.items ++ compact_text (check_data (question_outcome (requested_in (view object.now))))) }
    ensures accepted { IfOk result (λ accepted. accepted ≡ is_answered (question_outcome (requested_in (view object.now)))) }
{
    match read_question(alloc, object)? {
        ReadQuestion::Whole(question) => reply(alloc, &judge(&question), out),
        ReadQuestion::BadMember(member) => reply(alloc, &CheckReply::NoMember(member), out),
    }
}

/// Checks the proofs in the reader's lines, each with its index, name, nonce and root.
///
/// Answers each line with one line and one flush, until a read returns 0. Returns whether each line was accepted.
///
/// # Errors
///
/// The errors of `run_lines`.
pub fn run_check<R: ByteIn, W: ByteOut>(
    alloc: Global,
    reader: &mut R,
    writer: &mut W,
) -> Result<bool, RunFault>
    requires reads { (R.source reader.old).failed + 1 < 2 ^ 64 }
    requires writes { (W.sink writer.old).failed + 1 < 2 ^ 64 }
    ensures run { IsRunOf check_answer stateless (FailsOn check_answer stateless)
        (streams (R.source reader.old) (R.source reader.new) (W.sink writer.old) (W.sink writer.new))
        result }
{
    let mut checking = Checking { alloc };
    of_run(run_lines(alloc, &mut checking, reader, writer))
}
