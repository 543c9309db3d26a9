//! Entries, their bytes and their links.

ghost use Rattle.std.specs.Prelude.{◌≡◌, ◌≢◌, ◌∷◌, IfNone, IfSome, length, replicate};
ghost use Rattle.coniks_proof.specs.Sha256.{sha256};
ghost use Rattle.coniks_chain.specs.Entries.{body_bytes, entry_bytes, entry_from};
ghost use Rattle.coniks_c.specs.Crossing.{body_in};

use crate::numbers;
use crate::values::{Bytes32, Bytes145, EntryBody};
use coniks_chain::{ENTRY_BYTES, Entry};
use coniks_proof::Sha256Hash;

/// The entry that these bytes are, where there are ENTRY_BYTES.
pub(crate) fn entry_of(bytes: &[u8]) -> Option<Entry>
    ensures whole { IfSome result (λ _. length bytes.now ≡ ENTRY_BYTES) }
    ensures from { IfSome result (λ entry. entry ≡ entry_from bytes.now) }
    ensures bytes { IfSome result (λ entry. entry_bytes entry ≡ bytes.now) }
    ensures other { IfNone result (length bytes.now ≢ ENTRY_BYTES) }
{
    let bytes = <&[u8; ENTRY_BYTES]>::try_from(bytes).ok()?;
    Some(Entry::read(bytes))
}

/// Writes the 145 bytes of a body, which are signed: version, epoch, epoch before, root, link before, nonce and policy,
/// the numbers with their most significant byte first.
#[unsafe(no_mangle)]
pub extern "C" fn coniks_body_bytes(body: &EntryBody, bytes: &mut Bytes145)
    ensures { bytes.new.bytes ≡ body_bytes (body_in body.now) }
{
    bytes.bytes = body.body().bytes();
}

/// Reads the body of an entry's ENTRY_BYTES bytes. The status is 0, or 48 where there are fewer bytes or more, and then nothing is
/// written.
#[unsafe(no_mangle)]
pub extern "C" fn coniks_entry_body(entry: &[u8], body: &mut EntryBody) -> u32
    ensures read { length entry.now ≡ ENTRY_BYTES → (result ≡ 0) × (body_in body.new ≡ (entry_from entry.now).body) }
    ensures unused { length entry.now ≡ ENTRY_BYTES → body.new.unused ≡ replicate 7 0 }
    ensures refused { length entry.now ≢ ENTRY_BYTES → (result ≡ 48) × (body.new ≡ body.old) }
{
    let Some(entry) = entry_of(entry) else {
        return numbers::ENTRY_LENGTH;
    };
    *body = EntryBody::of(&entry.body);
    numbers::GOOD
}

/// Writes the link of an entry of ENTRY_BYTES bytes, by which the next entry names it: SHA-256 of the byte 53 (hexadecimal) and
/// the entry. The status is 0, or 48 where there are fewer bytes or more, and then nothing is written.
#[unsafe(no_mangle)]
pub extern "C" fn coniks_link(entry: &[u8], link: &mut Bytes32) -> u32
    ensures hashed { length entry.now ≡ ENTRY_BYTES → (result ≡ 0) × (link.new.bytes ≡ sha256 (0x53 ∷ entry.now)) }
    ensures refused { length entry.now ≢ ENTRY_BYTES → (result ≡ 48) × (link.new ≡ link.old) }
{
    let Some(entry) = entry_of(entry) else {
        return numbers::ENTRY_LENGTH;
    };
    let bytes = coniks_chain::link(&Sha256Hash, &entry).0;
    *link = Bytes32 { bytes };
    numbers::GOOD
}
