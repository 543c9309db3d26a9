//! What the owner of a name and somebody who looked it up have stored.

ghost use Rattle.std.specs.Prelude.{◌≡◌, ◌<◌, ◌↔◌, suc, IfNone, IfSome, IsTrue, length, take};
ghost use Rattle.coniks_client.specs.Comparing.{HasHead};
ghost use Rattle.coniks_evidence.specs.Records.{HasHeadAt, HasNoHead};

use coniks_chain::link;
use coniks_client::{Change, StoredEntry, Watch};
use coniks_proof::{Hash32, Head};

/// What the owner of a name has: the stored epochs, the watched name with its first key and the changes of it, and the saved
/// reply for the name at one epoch.
#[derive(Clone, Copy)]
pub struct OwnerRecord<'a> {
    pub stored: &'a [StoredEntry],
    pub watch: Watch<'a>,
    pub changes: &'a [Change<'a>],
    pub reply: &'a [u8],
}

/// What somebody has who looked the name up: the stored epochs, and the saved reply for the name at the same epoch.
#[derive(Clone, Copy)]
pub struct ContactRecord<'a> {
    pub stored: &'a [StoredEntry],
    pub reply: &'a [u8],
}

/// Returns whether a stored epoch has a head.
fn has_head<H: Hash32>(h: &H, mine: &StoredEntry, head: &Head) -> bool
    ensures { IsTrue result ↔ HasHead (H.digest_of h.now) mine.now head.now }
{
    let entry = mine.entry();
    entry.body.t == head.epoch && link(h, &entry) == head.link
}

/// Returns the place of a stored epoch that has a head.
pub(crate) fn place_of<H: Hash32>(h: &H, stored: &[StoredEntry], head: &Head) -> Option<usize>
    ensures some { IfSome result (λ place. HasHeadAt (H.digest_of h.now) stored.now head.now place) }
    ensures within { IfSome result (λ place. place < length stored.now) }
    ensures none { IfNone result (HasNoHead (H.digest_of h.now) stored.now head.now) }
{
    for (place, mine) in stored.iter().enumerate() {
        if has_head(h, mine, head) {
            return Some(place);
        }
    }
    None
}

/// Returns the stored epochs up to a place.
pub(crate) fn up_to<'a>(stored: &'a [StoredEntry], place: usize) -> &'a [StoredEntry]
    requires { place < length stored.now }
    ensures { result.now ≡ take (suc place) stored.now }
{
    &stored[..place + 1]
}
