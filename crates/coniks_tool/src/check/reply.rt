//! The answers of `check` to a line, and their text.

ghost use Rattle.std.specs.Prelude.{◌≡◌, IfOk};
ghost use Rattle.serde_json.specs.Written.{compact_text};
ghost use Rattle.coniks_proof.specs.Proofs.{stated};
ghost use Rattle.coniks_tool.specs.CheckReplies.{answer_data, key_data, check_data, check_fault_name, check_outcome};

use coniks_programs::objects::{Field, Shown, object};
use coniks_programs::printable::Printable;
use coniks_programs::printing::{Member, bad_member, fault, member_text};
use coniks_proof::{Answer, CheckFault};
use std::alloc::{AllocError, Global};

/// The answer of `check` to a line.
#[derive(Clone, Copy)]
pub enum CheckReply<'a> {
    /// The proof is accepted, with this answer about the name.
    Answered(Answer<'a>),
    /// The line is not a JSON object.
    NotJson,
    /// A member is missing, of another kind or of a wrong text.
    NoMember(Member),
    /// The proof is not accepted.
    AtFault(CheckFault),
}

impl CheckReply<'_> {
    ghost use Rattle.coniks_tool.specs.CheckReplies.{is_answered};

    /// Returns whether the line was accepted.
    pub fn is_accepted(&self) -> bool
        ensures { result ≡ is_answered (check_outcome self.now) }
    {
        match self {
            CheckReply::Answered(_) => true,
            CheckReply::NotJson | CheckReply::NoMember(_) | CheckReply::AtFault(_) => false,
        }
    }

    /// Returns the object that is printed.
    ///
    /// # Errors
    ///
    /// `AllocError` if an allocation fails.
    pub fn object(&self, alloc: Global) -> Result<Printable, AllocError>
        ensures { IfOk result (λ object. object.text.items ≡ compact_text (check_data (check_outcome self.now))) }
    {
        match self {
            CheckReply::Answered(answer) => answer_value(alloc, answer),
            CheckReply::NotJson => fault(alloc, "Json"),
            CheckReply::NoMember(member) => bad_member(alloc, member_text(*member)),
            CheckReply::AtFault(found) => fault(alloc, check_fault_text(*found)),
        }
    }
}

/// Returns the object of an accepted proof.
fn answer_value(alloc: Global, answer: &Answer<'_>) -> Result<Printable, AllocError>
    ensures { IfOk result (λ object. object.text.items ≡ compact_text (answer_data (stated answer.now))) }
{
    match answer {
        Answer::Key(key) => key_value(alloc, *key),
        Answer::Absent => object(
            alloc,
            &[
                Field("answer", Shown::Text("absent")),
                Field("ok", Shown::Text("check")),
            ],
        ),
    }
}

/// Returns the object of a presence proof.
fn key_value(alloc: Global, key: &[u8]) -> Result<Printable, AllocError>
    ensures { IfOk result (λ object. object.text.items ≡ compact_text (key_data key.now)) }
{
    object(
        alloc,
        &[
            Field("answer", Shown::Text("key")),
            Field("key", Shown::Base64(key)),
            Field("ok", Shown::Text("check")),
        ],
    )
}

/// Returns the name of an error.
pub fn check_fault_text(fault: CheckFault) -> &'static str
    ensures { result.now ≡ check_fault_name fault }
{
    match fault {
        CheckFault::TooDeep => "TooDeep",
        CheckFault::NameLength => "NameLength",
        CheckFault::KeyLength => "KeyLength",
        CheckFault::WrongName => "WrongName",
        CheckFault::OtherIsSame => "OtherIsSame",
        CheckFault::OtherOffPath => "OtherOffPath",
        CheckFault::RootMismatch => "RootMismatch",
    }
}
