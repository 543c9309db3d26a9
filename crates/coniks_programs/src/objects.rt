//! Objects that are printed, by their members.

ghost use Rattle.std.specs.Prelude.{◌≡◌, IfOk, OnOk};
ghost use Rattle.serde_json.specs.Data.{object as object_of};
ghost use Rattle.serde_json.specs.Written.{compact_text};
ghost use Rattle.coniks_programs.specs.Objects.{data_of, members_of};
ghost use Rattle.coniks_programs.specs.Printing.{Writes, WritesMember};

use crate::digits::{write_digest, write_digits, write_entry};
use crate::printable::Printable;
use crate::proof_text::write_proof;
use base64::engine::general_purpose::STANDARD;
use coniks_chain::Entry;
use coniks_proof::Proof;
use json::Writer;
use std::alloc::{AllocError, Global};

/// The bytes that are allocated for an object at first. Most replies to lookups are shorter.
const ROOM: usize = 2560;

/// The value of a member.
#[derive(Clone, Copy)]
pub enum Shown<'a> {
    /// 32 bytes, in lower case hexadecimal digits.
    Digest(&'a [u8; 32]),
    /// Bytes, in lower case hexadecimal digits.
    Digits(&'a [u8]),
    /// An entry's bytes, in lower case hexadecimal digits.
    Entry(&'a Entry),
    /// Bytes, in base64.
    Base64(&'a [u8]),
    /// A text.
    Text(&'a str),
    /// A number.
    Number(u64),
    /// A proof.
    Proof(&'a Proof),
}

/// A member: its name and its value.
#[derive(Clone, Copy)]
pub struct Field<'a>(pub &'a str, pub Shown<'a>);

/// Writes the value of a member.
fn write_value(alloc: Global, shown: Shown<'_>, writer: &mut Writer) -> Result<(), AllocError>
    ensures { OnOk result (Writes writer.old writer.new (data_of shown.entry)) }
{
    match shown {
        Shown::Digest(bytes) => write_digest(bytes, writer),
        Shown::Digits(bytes) => write_digits(alloc, bytes, writer),
        Shown::Entry(entry) => write_entry(entry, writer),
        Shown::Base64(bytes) => writer.string(STANDARD.encode(alloc, bytes)?.as_str()),
        Shown::Text(text) => writer.string(text),
        Shown::Number(number) => writer.u64(number),
        Shown::Proof(proof) => write_proof(alloc, proof, writer),
    }
}

/// Writes the object of these members, in their order.
///
/// # Errors
///
/// `AllocError` if an allocation fails. What is written is then unspecified.
pub fn write_object(
    alloc: Global,
    fields: &[Field<'_>],
    writer: &mut Writer,
) -> Result<(), AllocError>
    ensures { OnOk result (Writes writer.old writer.new (object_of (members_of fields.now))) }
{
    writer.begin_object()?;
    for field in fields {
        writer.key(field.0)?;
        write_value(alloc, field.1, writer)?;
    }
    writer.end_object()
}

/// Returns the object of these members, in their order.
///
/// # Errors
///
/// `AllocError` if an allocation fails.
pub fn object(alloc: Global, fields: &[Field<'_>]) -> Result<Printable, AllocError>
    ensures { IfOk result (λ object. object.text.items ≡ compact_text (object_of (members_of fields.now))) }
{
    let mut writer = Writer::new(Vec::with_capacity(alloc, ROOM)?);
    write_object(alloc, fields, &mut writer)?;
    Ok(Printable {
        text: writer.into_inner(),
    })
}
