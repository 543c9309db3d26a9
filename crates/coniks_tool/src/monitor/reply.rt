//! The answers of `monitor` to a line, and their text.

ghost use Rattle.std.specs.Prelude.{◌≡◌, IfOk};
ghost use Rattle.serde_json.specs.Written.{compact_text};
ghost use Rattle.coniks_tool.specs.MonitorReplies.{expecting_data, monitor_data, monitor_fault_name, monitor_outcome, seen_name, watched_data};

use crate::audit::reply::audit_fault_text;
use crate::check::reply::check_fault_text;
use coniks_chain::{MonitorFault, Seen};
use coniks_programs::objects::{Field, Shown, object};
use coniks_programs::printable::Printable;
use coniks_programs::printing::{Member, bad_member, fault, member_text};
use std::alloc::{AllocError, Global};

/// The answer of `monitor` to a line.
#[derive(Clone, Copy)]
pub enum MonitorReply {
    /// Entry and proof are accepted: the entry's epoch, and the proof's answer compared with the expectation.
    Watched { epoch: u64, seen: Seen },
    /// From now on another key is expected, or none.
    Expecting,
    /// The line is not a JSON object.
    NotJson,
    /// A member is missing, of another kind or of a wrong text.
    NoMember(Member),
    /// The entry does not follow, or the proof is not accepted.
    AtFault(MonitorFault),
}

impl MonitorReply {
    ghost use Rattle.coniks_tool.specs.MonitorReplies.{is_as_expected};

    /// Returns whether the line was accepted, and showed the expected answer if it contains a proof.
    pub fn is_as_expected(&self) -> bool
        ensures { result ≡ is_as_expected (monitor_outcome self.now) }
    {
        match self {
            MonitorReply::Watched { epoch: _, seen } => matches!(seen, Seen::Same),
            MonitorReply::Expecting => true,
            MonitorReply::NotJson | MonitorReply::NoMember(_) | MonitorReply::AtFault(_) => false,
        }
    }

    /// Returns the object that is printed.
    ///
    /// # Errors
    ///
    /// `AllocError` if an allocation fails.
    pub fn object(&self, alloc: Global) -> Result<Printable, AllocError>
        ensures { IfOk result (λ object. object.text.items ≡ compact_text (monitor_data (monitor_outcome self.now))) }
    {
        match self {
            MonitorReply::Watched { epoch, seen } => watched(alloc, *epoch, seen_text(*seen)),
            MonitorReply::Expecting => expecting(alloc),
            MonitorReply::NotJson => fault(alloc, "Json"),
            MonitorReply::NoMember(member) => bad_member(alloc, member_text(*member)),
            MonitorReply::AtFault(found) => fault(alloc, monitor_fault_text(*found)),
        }
    }
}

/// Returns the object of a watched epoch.
fn watched(alloc: Global, epoch: u64, seen: &str) -> Result<Printable, AllocError>
    ensures { IfOk result (λ object. object.text.items ≡ compact_text (watched_data epoch seen.now)) }
{
    object(
        alloc,
        &[
            Field("epoch", Shown::Number(epoch)),
            Field("ok", Shown::Text("monitor")),
            Field("seen", Shown::Text(seen)),
        ],
    )
}

/// Returns the object of an expectation that was set.
fn expecting(alloc: Global) -> Result<Printable, AllocError>
    ensures { IfOk result (λ object. object.text.items ≡ compact_text expecting_data) }
{
    object(alloc, &[Field("ok", Shown::Text("expect"))])
}

/// Returns the name of what was seen.
fn seen_text(seen: Seen) -> &'static str
    ensures { result.now ≡ seen_name seen }
{
    match seen {
        Seen::Same => "same",
        Seen::Changed => "changed",
        Seen::Absent => "absent",
    }
}

/// Returns the name of an error.
fn monitor_fault_text(fault: MonitorFault) -> &'static str
    ensures { result.now ≡ monitor_fault_name fault }
{
    match fault {
        MonitorFault::Audit(fault) => audit_fault_text(fault),
        MonitorFault::Check(fault) => check_fault_text(fault),
    }
}
