//! Replies that several engines print.

ghost use Rattle.std.specs.Prelude.{◌≡◌, IfOk};
ghost use Rattle.serde_json.specs.Written.{compact_text};
ghost use Rattle.coniks_directory.specs.Batches.{fault_is};
ghost use Rattle.coniks_programs.specs.Paths.{path_of};
ghost use Rattle.coniks_programs.specs.Replies.{bad_element_data, epoch_not_later_data, fault_name, looked_up_data, opened_data, placed_fault_data};

use crate::objects::{Field, Shown, object};
use crate::printable::Printable;
use crate::printing::fault_with;
use coniks_directory::{OpFault, SignedProof};
use std::alloc::{AllocError, Global};

/// Returns the name of an operation's error.
pub fn fault_text(fault: OpFault) -> &'static str
    ensures { result.now ≡ fault_name (fault_is fault) }
{
    match fault {
        // formats.toml: faults
        OpFault::NameLength => "NameLength",
        OpFault::KeyLength => "KeyLength",
        OpFault::NameTwice => "NameTwice",
        OpFault::NameTaken => "NameTaken",
        OpFault::NameUnknown => "NameUnknown",
        OpFault::IndexClash => "IndexClash",
        // formats.toml: end
    }
}

/// Returns the reply to an accepted `open`.
///
/// # Errors
///
/// `AllocError` if an allocation fails.
pub fn opened(alloc: Global) -> Result<Printable, AllocError>
    ensures { IfOk result (λ object. object.text.items ≡ compact_text opened_data) }
{
    object(alloc, &[Field("ok", Shown::Text("open"))])
}

/// Returns the reply to an accepted lookup.
///
/// # Errors
///
/// `AllocError` if an allocation fails.
pub fn looked_up<'a>(
    alloc: Global,
    name: &'a str,
    found: &'a SignedProof,
) -> Result<Printable, AllocError>
    ensures { IfOk result (λ object. object.text.items ≡ compact_text (looked_up_data found.now.entry found.now.index.0 name.now (path_of found.now.proof))) }
{
    let body = &found.entry.body;
    object(
        alloc,
        &[
            Field("entry", Shown::Entry(&found.entry)),
            Field("epoch", Shown::Number(body.t)),
            Field("index", Shown::Digest(&found.index.0)),
            Field("name", Shown::Text(name)),
            Field("nonce", Shown::Digest(&body.nonce.0)),
            Field("ok", Shown::Text("lookup")),
            Field("proof", Shown::Proof(&found.proof)),
            Field("root", Shown::Digest(&body.root.0)),
        ],
    )
}

/// Returns the refusal of a batch for the operation at a position.
///
/// # Errors
///
/// `AllocError` if an allocation fails.
pub fn placed_fault(alloc: Global, name: &str, position: usize) -> Result<Printable, AllocError>
    ensures { IfOk result (λ object. object.text.items ≡ compact_text (placed_fault_data name.now position)) }
{
    fault_with(
        alloc,
        name,
        Field("position", Shown::Number(position as u64)),
    )
}

/// Returns the refusal of a line whose element of this member at a position is no operation, or no binding.
///
/// # Errors
///
/// `AllocError` if an allocation fails.
pub fn bad_element(alloc: Global, member: &str, position: usize) -> Result<Printable, AllocError>
    ensures { IfOk result (λ object. object.text.items ≡ compact_text (bad_element_data member.now position)) }
{
    object(
        alloc,
        &[
            Field("fault", Shown::Text("Member")),
            Field("member", Shown::Text(member)),
            Field("position", Shown::Number(position as u64)),
        ],
    )
}

/// Returns the refusal of a batch whose epoch is not later than the latest one.
///
/// # Errors
///
/// `AllocError` if an allocation fails.
pub fn epoch_not_later(alloc: Global, latest: u64) -> Result<Printable, AllocError>
    ensures { IfOk result (λ object. object.text.items ≡ compact_text (epoch_not_later_data latest)) }
{
    fault_with(
        alloc,
        "EpochNotLater",
        Field("latest", Shown::Number(latest)),
    )
}
