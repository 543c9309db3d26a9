//! Whether a client has a state, and how long it is.

ghost use Rattle.std.specs.Prelude.{◌≡◌, ◌<◌, ◌≤◌, ◌^◌, ◌↔◌, ◌+◌, ◌*◌, All, IfNone, IfSome, IsTrue, Option, flat_map, length, map};
ghost use Rattle.std.specs.Option.{option_map};
ghost use Rattle.coniks_quorum.specs.StateForms.{AreSized, IsStored, IsSizedChange, IsSizedName, IsSizedWatch};
ghost use Rattle.coniks_quorum.specs.Saved.{change_bytes, front_bytes, saved_change, saved_state, saved_watch, watch_bytes};
ghost use Rattle.coniks_quorum.specs.StateWriting.{HasState, size_of};

use crate::states::client::Client;
use crate::states::parts::{ALARM_BYTES, MARK_BYTES, STORED_BYTES};
use coniks_client::changes::Change;
use coniks_client::stored::StoredEntry;
use coniks_client::watching::Watch;

/// The largest number of stored epochs, of alarms, of marks, of changes and of a key's bytes.
const MOST: usize = 0xffff_ffff;

/// The number of bytes of a change without its key.
const CHANGE_BYTES: usize = 20;

/// The number of bytes of the version, the policy digest and the digest.
const PLAIN_BYTES: usize = 65;

/// The number of bytes of the trust and of the numbers of stored epochs, alarms and marks.
const FRONT_BYTES: usize = 44;

/// The number of bytes of a watched name with its kind, without the name, the key and the changes.
const WATCH_BYTES: usize = 18;

/// Returns whether the epochs and the key of a change have room.
fn is_sized_change(change: &Change<'_>) -> bool
    ensures { IsTrue result ↔ IsSizedChange (saved_change change.now) }
{
    let _last_old = change.last_old;
    let _first_new = change.first_new;
    change.key.len() <= MOST
}

/// Returns whether the epochs and the keys of all changes have room.
fn are_sized_changes(changes: &[Change<'_>]) -> bool
    ensures { IsTrue result ↔ All IsSizedChange (map saved_change changes.now) }
{
    for change in changes {
        if !is_sized_change(change) {
            return false;
        }
    }
    true
}

/// Returns whether a name and its first key have room.
fn is_sized_name(watch: &Watch<'_>) -> bool
    ensures { IsTrue result ↔ IsSizedName watch.now.name.now watch.now.since watch.now.key.now }
{
    let _since = watch.since;
    !watch.name.is_empty() && watch.name.len() <= 255 && watch.key.len() <= MOST
}

/// Returns whether a watched name and its changes have room.
fn is_sized_watch(watch: &Watch<'_>, changes: &[Change<'_>]) -> bool
    ensures { IsTrue result ↔ IsSizedWatch (saved_watch changes.now watch.now) }
{
    is_sized_name(watch) && changes.len() <= MOST && are_sized_changes(changes)
}

/// Returns whether the watch has room.
fn is_sized(watch: &Option<Watch<'_>>, changes: &[Change<'_>]) -> bool
    ensures { IsTrue result ↔ AreSized (option_map (saved_watch changes.now) watch.now) }
{
    match watch {
        None => true,
        Some(watch) => is_sized_watch(watch, changes),
    }
}

/// Returns whether a client has a state. It has fewer than 2^32 stored epochs, alarms, marks and changes, keys below 2^32 bytes, and a
/// watched name of 1 to 255 bytes.
pub fn has_state(client: &Client<'_>) -> bool
    ensures { IsTrue result ↔ HasState (saved_state client.now) }
{
    client.stored.len() <= MOST
        && client.alarms.len() <= MOST
        && client.marks.len() <= MOST
        && is_sized(&client.watch, client.changes)
}

/// Returns the number of bytes of changes, or `None` if it is 2^64 or more.
fn changes_size(changes: &[Change<'_>]) -> Option<usize>
    ensures some { IfSome result (λ size. size ≡ length (flat_map change_bytes (map saved_change changes.now))) }
    ensures none { IfNone result (2 ^ 64 ≤ length (flat_map change_bytes (map saved_change changes.now))) }
{
    let mut size: usize = 0;
    for change in changes {
        let Some(next) = sum_of(size, CHANGE_BYTES + change.key.len()) else {
            return None;
        };
        size = next;
    }
    Some(size)
}

/// Returns the number of bytes of a watched name and its changes, or `None` if it is 2^64 or more.
fn watched_size(watch: &Watch<'_>, changes: &[Change<'_>]) -> Option<usize>
    ensures some { IfSome result (λ size. size ≡ length (watch_bytes (Some (saved_watch changes.now watch.now)))) }
    ensures none { IfNone result (2 ^ 64 ≤ length (watch_bytes (Some (saved_watch changes.now watch.now)))) }
{
    let changes = changes_size(changes)?;
    let size = sum_of(changes, watch.name.len())?;
    sum_of(size, WATCH_BYTES + watch.key.len())
}

/// Proves that an array has its length.
fn full<const N: usize>(bytes: &[u8; N])
    ensures { length bytes.now ≡ N }
{
    let _ = bytes;
}

/// Proves that a stored epoch has the bytes of its types.
fn known_one(mine: &StoredEntry)
    ensures { IsStored mine.now }
{
    full(&mine.entry);
    full(&mine.first_seen);
}

/// Proves that each stored epoch has the bytes of its types.
fn known(stored: &[StoredEntry])
    ensures { All IsStored stored.now }
{
    for mine in stored {
        known_one(mine);
    }
}

/// Returns the sum of two numbers, or `None` if it is 2^64 or more.
fn sum_of(a: usize, b: usize) -> Option<usize>
    ensures some { IfSome result (λ sum. sum ≡ a + b) }
    ensures none { IfNone result (2 ^ 64 ≤ a + b) }
{
    a.checked_add(b)
}

/// Returns the product of two numbers, or `None` if it is 2^64 or more.
fn product_of(a: usize, b: usize) -> Option<usize>
    ensures some { IfSome result (λ product. product ≡ a * b) }
    ensures none { IfNone result (2 ^ 64 ≤ a * b) }
{
    a.checked_mul(b)
}

/// Returns the number of bytes before the watch, but for the version and the policy digest, or `None` if it is 2^64 or more.
fn front_size(client: &Client<'_>) -> Option<usize>
    ensures some { IfSome result (λ size. size ≡ length (front_bytes client.now.stored.now client.now.alarms.now client.now.trust.now client.now.marks.now)) }
    ensures none { IfNone result (2 ^ 64 ≤ length (front_bytes client.now.stored.now client.now.alarms.now client.now.trust.now client.now.marks.now)) }
{
    known(client.stored);
    full(client.trust);
    let stored = product_of(client.stored.len(), STORED_BYTES)?;
    let alarms = product_of(client.alarms.len(), ALARM_BYTES)?;
    let marks = product_of(client.marks.len(), MARK_BYTES)?;
    let two = sum_of(stored, alarms)?;
    let all = sum_of(two, marks)?;
    sum_of(all, FRONT_BYTES)
}

/// Returns the number of bytes of the watch, or `None` if it is 2^64 or more.
fn watch_size(watch: &Option<Watch<'_>>, changes: &[Change<'_>]) -> Option<usize>
    ensures some { IfSome result (λ size. size ≡ length (watch_bytes (option_map (saved_watch changes.now) watch.now))) }
    ensures none { IfNone result (2 ^ 64 ≤ length (watch_bytes (option_map (saved_watch changes.now) watch.now))) }
{
    match watch {
        None => Some(1),
        Some(watch) => watched_size(watch, changes),
    }
}

/// Returns the number of bytes of a client's state, or `None` if it is 2^64 or more.
pub fn state_size(client: &Client<'_>) -> Option<usize>
    ensures some { IfSome result (λ size. size ≡ size_of (saved_state client.now)) }
    ensures none { IfNone result (2 ^ 64 ≤ size_of (saved_state client.now)) }
{
    let front = front_size(client)?;
    let watch = watch_size(&client.watch, client.changes)?;
    full(client.policy);
    let size = sum_of(front, watch)?;
    sum_of(size, PLAIN_BYTES)
}
