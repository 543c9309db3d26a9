//! What a client keeps of each epoch.

ghost use Rattle.std.specs.Prelude.{◌≡◌, Option, length};
ghost use Rattle.coniks_client.specs.StoredEntry.{entry_in, epoch_in, latest_epoch, latest_in};

use coniks_chain::{AuditorState, ENTRY_BYTES, Entry, link};
use coniks_proof::Hash32;

/// An accepted entry, when it was first accepted, and what was seen of the watched name: the 218 bytes that a client's
/// state has for an epoch.
#[repr(C)]
#[derive(Clone, Copy)]
pub struct StoredEntry {
    /// The entry's bytes.
    pub entry: [u8; ENTRY_BYTES],
    /// The Unix time in seconds, its most significant byte first.
    pub first_seen: [u8; 8],
    /// The number of what was seen.
    pub seen: u8,
}

/// Returns eight bytes as an array.
fn eight(bytes: &[u8]) -> [u8; 8]
    requires { length bytes.now ≡ 8 }
    ensures { result ≡ bytes.now }
{
    let mut array = [0; 8];
    array.copy_from_slice(bytes);
    array
}

impl StoredEntry {
    /// Returns the epoch of the entry.
    #[tactic(auto, unfolding(coniks_chain::specs::Entries::body_from))]
    pub fn epoch(&self) -> u64
        ensures { result ≡ epoch_in self.now }
    {
        u64::from_be_bytes(eight(&self.entry[1..9]))
    }

    /// Returns the entry.
    pub fn entry(&self) -> Entry
        ensures { result ≡ entry_in self.now }
    {
        Entry::read(&self.entry)
    }
}

/// Returns the latest stored epoch, 0 if none is stored.
pub fn latest_epoch(stored: &[StoredEntry]) -> u64
    ensures { result ≡ latest_epoch stored.now }
{
    match stored.last() {
        Some(mine) => mine.epoch(),
        None => 0,
    }
}

/// Returns what the next entry is compared with, or `None` before the first.
pub(crate) fn latest<H: Hash32>(h: &H, stored: &[StoredEntry]) -> Option<AuditorState>
    ensures { result ≡ latest_in (H.digest_of h.now) stored.now }
{
    let Some(last) = stored.last() else {
        return None;
    };
    let entry = last.entry();
    Some(AuditorState {
        t: entry.body.t,
        link: link(h, &entry),
        version: entry.body.version,
        nonce: entry.body.nonce,
    })
}
