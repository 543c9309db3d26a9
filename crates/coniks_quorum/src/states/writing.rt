//! Writing a state.

ghost use Rattle.std.specs.Prelude.{◌≡◌, ◌<◌, ◌≤◌, ◌^◌, ◌∷◌, [], All, IfNone, IfSome, Option, flat_map, length, map, take};
ghost use Rattle.std.specs.Int.{to_be_bytes, w32, w64};
ghost use Rattle.std.specs.Option.{option_map};
ghost use Rattle.coniks_quorum.specs.StateForms.{AreBytesOf, AreCounted, AreSized, IsAlarm, IsStored, IsMark, IsSized, IsSizedChange, IsSizedName, IsSizedWatch};
ghost use Rattle.coniks_quorum.specs.Saved.{alarm_bytes, body_bytes, change_bytes, counted_bytes, front_bytes, stored_bytes, key_bytes, mark_bytes, saved_change, saved_state, saved_watch, state_bytes, watch_bytes, watched_bytes};
ghost use Rattle.coniks_quorum.specs.StateWriting.{HasState, Puts, size_of};

use crate::alarms::Alarm;
use crate::states::client::Client;
use crate::states::reading::{NO_WATCH, STATE_VERSION, WATCH, hash_of};
use coniks_client::changes::Change;
use coniks_client::stored::StoredEntry;
use coniks_client::watching::Watch;
use coniks_proof::Hash32;

/// Writes bytes after the first `at`, and returns where they end, or `None` if there is no room for them.
fn put(out: &mut [u8], at: usize, part: &[u8]) -> Option<usize>
    requires { at ≤ length out.old }
    ensures { Puts out.old at part.now out.new result }
{
    if out.len() - at < part.len() {
        return None;
    }
    let end = at + part.len();
    out[at..end].copy_from_slice(part);
    Some(end)
}

/// Writes a byte.
fn put_byte(out: &mut [u8], at: usize, byte: u8) -> Option<usize>
    requires { at ≤ length out.old }
    ensures { Puts out.old at (byte ∷ []) out.new result }
{
    put(out, at, &[byte])
}

/// Writes a number of 8 bytes.
fn put_number(out: &mut [u8], at: usize, number: u64) -> Option<usize>
    requires { at ≤ length out.old }
    ensures { Puts out.old at (to_be_bytes w64 number) out.new result }
{
    put(out, at, &number.to_be_bytes())
}

/// Writes a count of 4 bytes.
fn put_count(out: &mut [u8], at: usize, count: u32) -> Option<usize>
    requires { at ≤ length out.old }
    ensures { Puts out.old at (to_be_bytes w32 count) out.new result }
{
    put(out, at, &count.to_be_bytes())
}

/// Writes a key with its length before it.
fn put_key(out: &mut [u8], at: usize, key: &[u8]) -> Option<usize>
    requires at { at ≤ length out.old }
    requires short { length key.now < 2 ^ 32 }
    ensures { Puts out.old at (key_bytes key.now) out.new result }
{
    let at = put_count(out, at, key.len() as u32)?;
    put(out, at, key)
}

/// Writes a change.
fn put_change(out: &mut [u8], at: usize, change: &Change<'_>) -> Option<usize>
    requires at { at ≤ length out.old }
    requires sized { IsSizedChange (saved_change change.now) }
    ensures { Puts out.old at (change_bytes (saved_change change.now)) out.new result }
{
    let at = put_number(out, at, change.last_old)?;
    let at = put_number(out, at, change.first_new)?;
    put_key(out, at, change.key)
}

/// Writes changes.
fn put_changes(out: &mut [u8], at: usize, changes: &[Change<'_>]) -> Option<usize>
    requires at { at ≤ length out.old }
    requires sized { All IsSizedChange (map saved_change changes.now) }
    ensures { Puts out.old at (flat_map change_bytes (map saved_change changes.now)) out.new result }
{
    let mut end = at;
    for change in changes {
        let Some(next) = put_change(out, end, change) else {
            return None;
        };
        end = next;
    }
    Some(end)
}

/// A part of a state of which there are several of one size: a stored epoch, an alarm, or a mark.
pub(crate) trait Part {
    ghost use Rattle.coniks_proof.specs.Octets.{Octets};

    /// Its bytes.
    ghost one_bytes: { Self → Octets };

    /// That it has its size.
    ghost is_part: { Self → Type 0 };

    /// Writes it.
    fn put(&self, out: &mut [u8], at: usize) -> Option<usize>
        requires { at ≤ length out.old }
        ensures puts { Puts out.old at (one_bytes self.now) out.new result }
        ensures sized { is_part self.now };
}

impl Part for StoredEntry {
    ghost one_bytes = { stored_bytes };

    ghost is_part = { IsStored };

    fn put(&self, out: &mut [u8], at: usize) -> Option<usize> {
        let at = put(out, at, &self.entry)?;
        let at = put(out, at, &self.first_seen)?;
        put_byte(out, at, self.seen)
    }
}

impl Part for Alarm {
    ghost one_bytes = { alarm_bytes };

    ghost is_part = { IsAlarm };

    fn put(&self, out: &mut [u8], at: usize) -> Option<usize> {
        let at = put_number(out, at, self.epoch)?;
        put_byte(out, at, self.seen)
    }
}

impl Part for u64 {
    ghost one_bytes = { mark_bytes };

    ghost is_part = { IsMark };

    fn put(&self, out: &mut [u8], at: usize) -> Option<usize> {
        put_number(out, at, *self)
    }
}

/// Writes parts of one size.
fn put_all<P: Part>(out: &mut [u8], at: usize, parts: &[P]) -> Option<usize>
    requires { at ≤ length out.old }
    ensures puts { Puts out.old at (flat_map P.one_bytes parts.now) out.new result }
    ensures sized { IfSome result (λ end. All P.is_part parts.now) }
{
    let mut end = at;
    for part in parts {
        let Some(next) = part.put(out, end) else {
            return None;
        };
        end = next;
    }
    Some(end)
}

/// Writes a name with its length before it, the first watched epoch, and the key.
fn put_named(out: &mut [u8], at: usize, watch: &Watch<'_>) -> Option<usize>
    requires at { at ≤ length out.old }
    requires sized { IsSizedName watch.now.name.now watch.now.since watch.now.key.now }
    ensures { Puts out.old at (watched_bytes watch.now.name.now watch.now.since watch.now.key.now) out.new result }
{
    let at = put_byte(out, at, watch.name.len() as u8)?;
    let at = put(out, at, watch.name)?;
    let at = put_number(out, at, watch.since)?;
    put_key(out, at, watch.key)
}

/// Writes a watched name and its changes, with the kind before them.
fn put_watched(
    out: &mut [u8],
    at: usize,
    watch: &Watch<'_>,
    changes: &[Change<'_>],
) -> Option<usize>
    requires at { at ≤ length out.old }
    requires sized { IsSizedWatch (saved_watch changes.now watch.now) }
    ensures { Puts out.old at (watch_bytes (Some (saved_watch changes.now watch.now))) out.new result }
{
    let at = put_byte(out, at, WATCH)?;
    let at = put_named(out, at, watch)?;
    let at = put_count(out, at, changes.len() as u32)?;
    put_changes(out, at, changes)
}

/// Writes the watch: none, or a watched name and its changes.
fn put_watch(
    out: &mut [u8],
    at: usize,
    watch: &Option<Watch<'_>>,
    changes: &[Change<'_>],
) -> Option<usize>
    requires at { at ≤ length out.old }
    requires sized { AreSized (option_map (saved_watch changes.now) watch.now) }
    ensures { Puts out.old at (watch_bytes (option_map (saved_watch changes.now) watch.now)) out.new result }
{
    match watch {
        None => put_byte(out, at, NO_WATCH),
        Some(watch) => put_watched(out, at, watch, changes),
    }
}

/// Writes parts of one size with their number before them.
fn put_counted<P: Part>(out: &mut [u8], at: usize, parts: &[P]) -> Option<usize>
    requires at { at ≤ length out.old }
    requires few { length parts.now < 2 ^ 32 }
    ensures puts { Puts out.old at (counted_bytes P.one_bytes parts.now) out.new result }
    ensures sized { IfSome result (λ end. AreCounted P.is_part parts.now) }
{
    let at = put_count(out, at, parts.len() as u32)?;
    put_all(out, at, parts)
}

/// Writes what is between the policy digest and the watch.
fn put_front(out: &mut [u8], at: usize, client: &Client<'_>) -> Option<usize>
    requires at { at ≤ length out.old }
    requires has { HasState (saved_state client.now) }
    ensures puts { Puts out.old at (front_bytes client.now.stored.now client.now.alarms.now client.now.trust.now client.now.marks.now) out.new result }
    ensures stored { IfSome result (λ end. AreCounted IsStored client.now.stored.now) }
    ensures alarms { IfSome result (λ end. AreCounted IsAlarm client.now.alarms.now) }
    ensures trust { IfSome result (λ end. length client.now.trust.now ≡ 32) }
    ensures marks { IfSome result (λ end. AreCounted IsMark client.now.marks.now) }
{
    let at = put_counted(out, at, client.stored)?;
    let at = put_counted(out, at, client.alarms)?;
    let trust = client.trust;
    let at = put(out, at, trust)?;
    put_counted(out, at, client.marks)
}

/// Writes all but the digest.
fn put_body(out: &mut [u8], client: &Client<'_>) -> Option<usize>
    requires { HasState (saved_state client.now) }
    ensures puts { Puts out.old 0 (body_bytes (saved_state client.now)) out.new result }
    ensures sized { IfSome result (λ end. IsSized (saved_state client.now)) }
{
    let at = put_byte(out, 0, STATE_VERSION)?;
    let policy = client.policy;
    let at = put(out, at, policy)?;
    let at = put_front(out, at, client)?;
    put_watch(out, at, &client.watch, client.changes)
}

/// Writes a client's state to the first bytes of a slice, and returns their number.
///
/// The client has a state: [`has_state`](crate::states::sizes::has_state) tests it. Returns `None` if the slice is shorter than
/// [`state_size`](crate::states::sizes::state_size). Then its contents are unspecified.
pub fn write<H: Hash32>(h: &H, client: &Client<'_>, out: &mut [u8]) -> Option<usize>
    requires { HasState (saved_state client.now) }
    ensures bytes { IfSome result (λ size. take size out.new ≡ state_bytes (H.digest_of h.now) (saved_state client.now)) }
    ensures size { IfSome result (λ size. size ≡ size_of (saved_state client.now)) }
    ensures none { IfNone result (length out.old < size_of (saved_state client.now)) }

    // So `read` reads them back, if the client's numbers and changes have the right form.
    ensures some { IfSome result (λ size. AreBytesOf (H.digest_of h.now) (saved_state client.now) (take size out.new)) }
{
    let at = put_body(out, client)?;
    let digest = hash_of(h, &out[..at]);
    put(out, at, &digest.0)
}
