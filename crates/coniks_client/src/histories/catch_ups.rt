//! Catch-ups: the entries after an epoch, as a provider's service sends them.

ghost use Rattle.std.specs.Prelude.{◌≡◌, ◌≢◌, ◌<◌, ◌*◌, ◌%◌, ℕ, IfOk, OnErr, Some, length, slice_get};
ghost use Rattle.coniks_chain.specs.Entries.{entry_length};
ghost use Rattle.coniks_client.specs.CatchUps.{entry_part};

use coniks_chain::ENTRY_BYTES;

/// The number of bytes is not a multiple of 209.
#[derive(Clone, Copy)]
pub struct CatchUpLength;

/// Returns the entries of a catch-up, in the order of the chain. Verifies nothing: feed them to a client one after another.
///
/// # Errors
///
/// `CatchUpLength` if the number of bytes is not a multiple of 209. No entry is read then.
pub fn read_catch_up(bytes: &[u8]) -> Result<&[[u8; ENTRY_BYTES]], CatchUpLength>
    ensures all { IfOk result (λ entries. length entries.now * entry_length ≡ length bytes.now) }
    ensures each { IfOk result (λ entries. (k : ℕ) → k < length entries.now → slice_get entries.now k ≡ Some (entry_part k bytes.now)) }
    ensures err { OnErr result (length bytes.now % entry_length ≢ 0) }
{
    let (entries, rest) = bytes.as_chunks::<ENTRY_BYTES>();
    if !rest.is_empty() {
        return Err(CatchUpLength);
    }
    Ok(entries)
}
