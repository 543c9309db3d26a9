//! The answers of `audit` to a line, and their text.

ghost use Rattle.std.specs.Prelude.{◌≡◌, IfOk};
ghost use Rattle.serde_json.specs.Written.{compact_text};
ghost use Rattle.coniks_tool.specs.AuditReplies.{audit_data, audit_fault_name, audit_outcome, audited_data};

use coniks_chain::AuditFault;
use coniks_programs::objects::{Field, Shown, object};
use coniks_programs::printable::Printable;
use coniks_programs::printing::{bad_member, fault};
use coniks_proof::Digest;
use std::alloc::{AllocError, Global};

/// The answer of `audit` to a line.
#[derive(Clone, Copy)]
pub enum AuditReply {
    /// The entry follows the last accepted one.
    Audited { epoch: u64, link: Digest },
    /// The line is not a JSON object.
    NotJson,
    /// The member `entry` is missing, of another kind or of a wrong text.
    NoEntry,
    /// The entry does not follow.
    AtFault(AuditFault),
}

impl AuditReply {
    ghost use Rattle.coniks_tool.specs.AuditReplies.{is_audited};

    /// Returns whether the line was accepted.
    pub fn is_accepted(&self) -> bool
        ensures { result ≡ is_audited (audit_outcome self.now) }
    {
        match self {
            AuditReply::Audited { .. } => true,
            AuditReply::NotJson | AuditReply::NoEntry | AuditReply::AtFault(_) => false,
        }
    }

    /// Returns the object that is printed.
    ///
    /// # Errors
    ///
    /// `AllocError` if an allocation fails.
    pub fn object(&self, alloc: Global) -> Result<Printable, AllocError>
        ensures { IfOk result (λ object. object.text.items ≡ compact_text (audit_data (audit_outcome self.now))) }
    {
        match self {
            AuditReply::Audited { epoch, link } => audited(alloc, *epoch, link),
            AuditReply::NotJson => fault(alloc, "Json"),
            AuditReply::NoEntry => bad_member(alloc, "entry"),
            AuditReply::AtFault(found) => fault(alloc, audit_fault_text(*found)),
        }
    }
}

/// Returns the name of an error.
pub fn audit_fault_text(fault: AuditFault) -> &'static str
    ensures { result.now ≡ audit_fault_name fault }
{
    match fault {
        AuditFault::Version => "Version",
        AuditFault::VersionBack => "VersionBack",
        AuditFault::FirstEpoch => "FirstEpoch",
        AuditFault::NotLater => "NotLater",
        AuditFault::PreviousEpoch => "PreviousEpoch",
        AuditFault::PreviousLink => "PreviousLink",
        AuditFault::NonceChanged => "NonceChanged",
        AuditFault::Verdict => "Verdict",
    }
}

/// Returns the object of an accepted entry.
fn audited(alloc: Global, epoch: u64, link: &Digest) -> Result<Printable, AllocError>
    ensures { IfOk result (λ object. object.text.items ≡ compact_text (audited_data epoch link.now.0)) }
{
    object(
        alloc,
        &[
            Field("epoch", Shown::Number(epoch)),
            Field("link", Shown::Digest(&link.0)),
            Field("ok", Shown::Text("audit")),
        ],
    )
}
