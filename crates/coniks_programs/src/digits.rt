//! Bytes that are printed in lower case hexadecimal digits.

ghost use Rattle.std.specs.Prelude.{◌≡◌, ◌*◌, OnOk, length};
ghost use Rattle.coniks_chain.specs.Entries.{entry_bytes};
ghost use Rattle.coniks_programs.specs.Printing.{Writes};
ghost use Rattle.coniks_programs.specs.ProofTexts.{digits};

use coniks_chain::Entry;
use json::Writer;
use std::alloc::{AllocError, Global};

/// Writes 32 bytes, without an allocation for their digits.
pub(crate) fn write_digest(bytes: &[u8; 32], writer: &mut Writer) -> Result<(), AllocError>
    ensures { OnOk result (Writes writer.old writer.new (digits bytes.now)) }
{
    write_digits_in(bytes, &mut [0; 64], writer)
}

/// Writes an entry's bytes, without an allocation for their digits.
pub(crate) fn write_entry(entry: &Entry, writer: &mut Writer) -> Result<(), AllocError>
    ensures { OnOk result (Writes writer.old writer.new (digits (entry_bytes entry.now))) }
{
    write_digits_in(&entry.bytes(), &mut [0; 418], writer)
}

/// Writes bytes.
pub(crate) fn write_digits(
    alloc: Global,
    bytes: &[u8],
    writer: &mut Writer,
) -> Result<(), AllocError>
    ensures { OnOk result (Writes writer.old writer.new (digits bytes.now)) }
{
    writer.string(hex::encode(alloc, bytes)?.as_str())
}

/// Writes bytes, whose digits fill `text`.
fn write_digits_in(bytes: &[u8], text: &mut [u8], writer: &mut Writer) -> Result<(), AllocError>
    requires { length text.old ≡ 2 * length bytes.now }
    ensures { OnOk result (Writes writer.old writer.new (digits bytes.now)) }
{
    if hex::encode_to_slice(bytes, text).is_err() {
        unreachable!();
    }
    let Ok(text) = std::str::from_utf8(text) else {
        unreachable!();
    };
    writer.string(text)
}
