//! Members of lines, and the objects that all engines print.

ghost use Rattle.std.specs.Prelude.{◌≡◌, IfOk, codes};
ghost use Rattle.serde_json.specs.Data.{member, no_members, string, object as object_of};
ghost use Rattle.serde_json.specs.Written.{compact_text};
ghost use Rattle.coniks_programs.specs.Objects.{data_of};
ghost use Rattle.coniks_programs.specs.Replies.{bad_member_data, fault_data, member_name};

use crate::objects::{Field, Shown, object};
use crate::printable::Printable;
use std::alloc::{AllocError, Global};

/// A member of a line.
#[derive(Clone, Copy)]
pub enum Member {
    Key,
    Nonce,
    Policy,
    Epoch,
    Ops,
    Name,
    Index,
    Root,
    Proof,
    Entry,
    Signature,
    After,
    Most,
    Bindings,
    Log,
    Link,
    Body,
    Snapshot,
    Position,
    Epochs,
    Names,
    Entries,
    Replaced,
    First,
}

/// Returns the name of a member.
pub fn member_text(member: Member) -> &'static str
    ensures { result.now ≡ member_name member }
{
    match member {
        Member::Key => "key",
        Member::Nonce => "nonce",
        Member::Policy => "policy",
        Member::Epoch => "epoch",
        Member::Ops => "ops",
        Member::Name => "name",
        Member::Index => "index",
        Member::Root => "root",
        Member::Proof => "proof",
        Member::Entry => "entry",
        Member::Signature => "signature",
        Member::After => "after",
        Member::Most => "most",
        Member::Bindings => "bindings",
        Member::Log => "log",
        Member::Link => "link",
        Member::Body => "body",
        Member::Snapshot => "snapshot",
        Member::Position => "position",
        Member::Epochs => "epochs",
        Member::Names => "names",
        Member::Entries => "entries",
        Member::Replaced => "replaced",
        Member::First => "first",
    }
}

/// Returns a refusal that contains only its error.
///
/// # Errors
///
/// `AllocError` if an allocation fails.
pub fn fault(alloc: Global, name: &str) -> Result<Printable, AllocError>
    ensures { IfOk result (λ object. object.text.items ≡ compact_text (fault_data name.now)) }
{
    object(alloc, &[Field("fault", Shown::Text(name))])
}

/// Returns the refusal of a line for one of its members.
///
/// # Errors
///
/// `AllocError` if an allocation fails.
pub fn bad_member(alloc: Global, name: &str) -> Result<Printable, AllocError>
    ensures { IfOk result (λ object. object.text.items ≡ compact_text (bad_member_data name.now)) }
{
    fault_with(alloc, "Member", Field("member", Shown::Text(name)))
}

/// Returns a refusal that contains its error and one more member, whose name is after `fault` in the order of bytes.
///
/// # Errors
///
/// `AllocError` if an allocation fails.
pub fn fault_with(alloc: Global, name: &str, more: Field<'_>) -> Result<Printable, AllocError>
    ensures { IfOk result (λ object. object.text.items ≡ compact_text (object_of
        (member (codes "fault") (string name.now) (member more.entry.0.now (data_of more.entry.1) no_members)))) }
{
    object(alloc, &[Field("fault", Shown::Text(name)), more])
}
