//! The printed form of a proof: a JSON object with its members in the order of their names' bytes.

ghost use Rattle.std.specs.Prelude.{◌≡◌, OnOk, map};
ghost use Rattle.serde_json.specs.Data.{array, string};
ghost use Rattle.serde_json.specs.View.{items_of};
ghost use Rattle.coniks_proof.specs.Paths.{digests};
ghost use Rattle.coniks_programs.specs.Paths.{end_shown, its_entry, no_entry, other_entry, path_of};
ghost use Rattle.coniks_programs.specs.Printing.{Writes, WritesMember};
ghost use Rattle.coniks_programs.specs.ProofTexts.{digits, end_data, proof_data};

use crate::digits::write_digest;
use base64::engine::general_purpose::STANDARD;
use coniks_proof::{Bytes, Digest, End, Index, Opening, Proof};
use json::Writer;
use std::alloc::{AllocError, Global};

/// Writes the object of a proof: `end`, and `siblings` from the root down.
pub(crate) fn write_proof(
    alloc: Global,
    proof: &Proof,
    writer: &mut Writer,
) -> Result<(), AllocError>
    ensures { OnOk result (Writes writer.old writer.new (proof_data (path_of proof.now))) }
{
    writer.begin_object()?;
    writer.key("end")?;
    write_end(alloc, &proof.end, writer)?;
    writer.key("siblings")?;
    write_siblings(proof.siblings.as_slice(), writer)?;
    writer.end_object()
}

/// Writes the array of the siblings.
fn write_siblings(siblings: &[Digest], writer: &mut Writer) -> Result<(), AllocError>
    ensures { OnOk result (Writes writer.old writer.new (array (items_of (map digits (digests siblings.now))))) }
{
    writer.begin_array()?;
    for sibling in siblings {
        write_digest(&sibling.0, writer)?;
    }
    writer.end_array()
}

/// Writes the object of an end, by its kind.
fn write_end(alloc: Global, end: &End, writer: &mut Writer) -> Result<(), AllocError>
    ensures { OnOk result (Writes writer.old writer.new (end_data (end_shown end.now))) }
{
    match end {
        End::Empty => write_empty_end(writer),
        End::Other { index, commitment } => write_other_end(index, commitment, writer),
        End::Here { name, key, opening } => write_here_end(alloc, name, key, opening, writer),
    }
}

/// Writes the object of an end at no leaf.
fn write_empty_end(writer: &mut Writer) -> Result<(), AllocError>
    ensures { OnOk result (Writes writer.old writer.new (end_data no_entry)) }
{
    writer.begin_object()?;
    write_named_text("kind", "empty", writer)?;
    writer.end_object()
}

/// Writes the object of an end that is the leaf of another index.
fn write_other_end(
    index: &Index,
    commitment: &Digest,
    writer: &mut Writer,
) -> Result<(), AllocError>
    ensures { OnOk result (Writes writer.old writer.new (end_data (other_entry index.now.0 commitment.now.0))) }
{
    writer.begin_object()?;
    write_named_digest("commitment", &commitment.0, writer)?;
    write_named_digest("index", &index.0, writer)?;
    write_named_text("kind", "other", writer)?;
    writer.end_object()
}

/// Writes the object of an end that shows the requested index's binding.
fn write_here_end(
    alloc: Global,
    name: &Bytes,
    key: &Bytes,
    opening: &Opening,
    writer: &mut Writer,
) -> Result<(), AllocError>
    ensures { OnOk result (Writes writer.old writer.new (end_data (its_entry name.now key.now opening.now.0))) }
{
    let key = STANDARD.encode(alloc, key.as_slice())?;
    let name = String::from_utf8_lossy(alloc, name.as_slice())?;
    writer.begin_object()?;
    write_named_text("key", key.as_str(), writer)?;
    write_named_text("kind", "here", writer)?;
    write_named_text("name", name.as_str(), writer)?;
    write_named_digest("opening", &opening.0, writer)?;
    writer.end_object()
}

/// Writes a member whose value is a text.
fn write_named_text(name: &str, text: &str, writer: &mut Writer) -> Result<(), AllocError>
    ensures { OnOk result (WritesMember writer.old writer.new name.now (string text.now)) }
{
    writer.key(name)?;
    writer.string(text)
}

/// Writes a member whose value is 32 bytes, in digits.
fn write_named_digest(name: &str, bytes: &[u8; 32], writer: &mut Writer) -> Result<(), AllocError>
    ensures { OnOk result (WritesMember writer.old writer.new name.now (digits bytes.now)) }
{
    writer.key(name)?;
    write_digest(bytes, writer)
}
