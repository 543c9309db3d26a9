//! The watched name of a client, and the changes of its key.

ghost use Rattle.std.specs.Prelude.{◌≡◌, ◌≢◌, ◌⊎◌, ◌↔◌, ◌<◌, ◌≤◌, ◌+◌, Any, IsTrue, Option, [], length, take, drop};
ghost use Rattle.std.proofs.Math.ListN.{set};
ghost use Rattle.coniks_proof.specs.Octets.{Octets};
ghost use Rattle.coniks_proof.specs.Sha256.{sha256};
ghost use Rattle.coniks_client.specs.Changes.{wanted};
ghost use Rattle.coniks_client.specs.Expecting.{MayExpect, MayNotExpect};
ghost use Rattle.coniks_client.specs.StoredEntry.{IsChain, latest_epoch};
ghost use Rattle.coniks_client.specs.Owner.{IsWatched, Scheme};
ghost use Rattle.coniks_client.specs.Steps.{AreRenumbered, unseen_number};
ghost use Rattle.coniks_client.specs.declared.expecting.ExpectFault.{ExpectFault as Fault};
ghost use Rattle.coniks_c.specs.Core.{IsMarkedIn, IsWithin, changes_in, stored_in};
ghost use Rattle.coniks_c.specs.CoreStatuses.{expect_status};
ghost use Rattle.coniks_c.specs.CoreReported.{IsKey, IsName, IsWatchedAlready, first_watched};

use crate::core_client::RawCore;
use crate::core_status::expect_status;
use crate::core_values::RawWatch;
use crate::numbers;
use coniks_client::{Change, StoredEntry, Watch, begin_watch, expect, latest_epoch};
use coniks_proof::MAX_NAME;

/// Returns whether a name can be watched.
fn is_name(name: &[u8]) -> bool
    ensures { IsTrue result ↔ IsName name.now }
{
    !name.is_empty() && name.len() <= MAX_NAME
}

/// Returns whether a key can be expected.
fn is_key(key: &[u8]) -> bool
    ensures { IsTrue result ↔ IsKey key.now }
{
    key.len() < 1 << 32
}

/// Returns whether a key is that of a change.
fn has_key(changes: &[Change<'_>], key: &[u8]) -> bool
    ensures { IsTrue result ↔ Any (λ change. key.now ≡ change.key.now) changes.now }
{
    changes.iter().any(|change| *key == *change.key)
}

/// Returns the first watched epoch.
fn first_watched(stored: &[StoredEntry], is_since: u32, since: u64) -> u64
    ensures { result ≡ first_watched stored.now is_since since }
{
    if is_since == 1 {
        since
    } else {
        latest_epoch(stored).max(1)
    }
}

/// Returns whether the same is watched already.
fn is_watched_already(
    old: &RawWatch<'_>,
    new: &RawWatch<'_>,
    changes: &[Change<'_>],
    is_since: u32,
) -> bool
    ensures { IsTrue result ↔ IsWatchedAlready old.now new.now changes.now is_since }
{
    *new.name == *old.name
        && (is_since != 1 || new.since == old.since)
        && (*new.key == *old.key || has_key(changes, new.key))
}

/// Marks the first stored epochs of an array, from the first watched one on, as missing.
fn begin_first(stored: &mut [StoredEntry], count: usize, watch: &Watch<'_>)
    requires { count ≤ length stored.old }
    ensures renumbered { AreRenumbered (unseen_number watch.now) (take count stored.old) (take count stored.new) }
    ensures others { drop count stored.new ≡ drop count stored.old }
    ensures chain { IsChain sha256 (take count stored.old) → IsChain sha256 (take count stored.new) }
    ensures watched { (scheme : Scheme) (name : Octets) (key : Option Octets) → IsWatched sha256 scheme name key [] (take count stored.new) }
{
    begin_watch(&mut stored[..count], watch);
}

/// Begins to watch a name: each epoch from the first watched one on is missing, until a reply for it is accepted. `new` has the name and
/// the key, and the first watched epoch if `is_since` is 1; else it is the latest epoch, or 1 without an entry.
///
/// Returns 0, also if the same is watched already, and then nothing is changed. Else returns the first error in this order, and changes
/// nothing: 130 for a name of no byte or of more than 255, 131 for a key of 2^32 bytes or more, 132 if another name, another key, or from another
/// epoch on is watched, 137 if a count is greater than its room.
#[unsafe(no_mangle)]
pub extern "C" fn coniks_core_watch<'a>(
    core: &mut RawCore<'_, 'a>,
    new: &RawWatch<'a>,
    is_since: u32,
) -> u32
    ensures name { result ≡ 130 ↔ (¬ IsName new.now.name.now) }
    ensures key { result ≡ 131 ↔ IsName new.now.name.now × (¬ IsKey new.now.key.now) }
    ensures other { result ≡ 132 → IsKey new.now.key.now × (core.old.watch.is_watched ≡ 1) × (¬ IsWatchedAlready core.old.watch new.now (changes_in core.old) is_since) }
    ensures good { result ≡ 0 → IsName new.now.name.now × IsKey new.now.key.now }
    ensures again { result ≡ 0 → core.old.watch.is_watched ≡ 1 → IsWatchedAlready core.old.watch new.now (changes_in core.old) is_since × (core.new ≡ core.old) }
    ensures begun { result ≡ 0 → core.old.watch.is_watched ≢ 1
        → core.new.watch ≡ record { is_watched = 1; name = new.now.name; since = first_watched (stored_in core.old) is_since new.now.since; key = new.now.key } }
    ensures renumbered { result ≡ 0 → core.old.watch.is_watched ≢ 1
        → AreRenumbered (unseen_number (record { name = new.now.name; since = first_watched (stored_in core.old) is_since new.now.since; key = new.now.key })) (stored_in core.old) (stored_in core.new) }
    ensures full { result ≡ 137 → IsKey new.now.key.now × (core.old.watch.is_watched ≢ 1) × (¬ IsWithin core.old) }
    ensures known { (result ≡ 0) ⊎ (result ≡ 130) ⊎ (result ≡ 131) ⊎ (result ≡ 132) ⊎ (result ≡ 137) }
    ensures stored { IsMarkedIn core.old.stored core.new.stored }
    ensures others { core.new ≡ record core.old { watch = core.new.watch; stored = core.new.stored } }
    ensures unchanged { result ≢ 0 → core.new ≡ core.old }

    // The stored epochs are still a chain, and none of them is seen as the same.
    ensures chain { IsChain sha256 (stored_in core.old) → IsChain sha256 (stored_in core.new) }
    ensures watched { result ≡ 0 → core.old.watch.is_watched ≢ 1 → (scheme : Scheme) (name : Octets) (key : Option Octets) → IsWatched sha256 scheme name key [] (stored_in core.new) }
{
    if !is_name(new.name) {
        return numbers::MISUSE_NAME;
    }
    if !is_key(new.key) {
        return numbers::MISUSE_EXPECTED_KEY;
    }
    if core.watch.is_watched == 1 {
        let old = core.watch;
        return if is_watched_already(&old, new, core.changes(), is_since) {
            numbers::GOOD
        } else {
            numbers::MISUSE_OTHER_WATCH
        };
    }
    if !core.is_within() {
        return numbers::MISUSE_NO_ROOM;
    }
    let since = first_watched(core.stored(), is_since, new.since);
    let watch = Watch {
        name: new.name,
        since,
        key: new.key,
    };
    let count = core.stored.count;
    begin_first(core.stored.items, count, &watch);
    core.watch = RawWatch {
        is_watched: 1,
        name: new.name,
        since,
        key: new.key,
    };
    numbers::GOOD
}

/// Writes a change.
pub(crate) fn put<'a>(changes: &mut [Change<'a>], place: usize, change: &Change<'a>)
    requires { place < length changes.old }
    ensures { changes.new ≡ set changes.old place change.now }
{
    changes[place] = *change;
}

/// Expects a change of the watched key that its owner makes: after the latest epoch, to a new key, which each epoch from `by` on is to show.
/// It is written after the other changes. No byte is no key.
///
/// Returns 0, or the first error in this order, and changes nothing: 133 if no name is watched, 131 for a key of 2^32 bytes or more, 134 while
/// another change is open, 135 if the key is the one that is expected already, 136 if `by` is not after the latest epoch, 137 if there is no
/// room for a change more.
#[unsafe(no_mangle)]
pub extern "C" fn coniks_core_expect<'a>(core: &mut RawCore<'_, 'a>, key: &'a [u8], by: u64) -> u32
    ensures expected { result ≡ 0 → (core.old.watch.is_watched ≡ 1) × IsKey key.now
        × MayExpect (wanted core.old.watch.key.now) (changes_in core.old) (latest_epoch (stored_in core.old)) (wanted key.now) by }
    ensures put { result ≡ 0 → (core.new.changes.count ≡ core.old.changes.count + 1)
        × (core.new.changes.items.now ≡ set core.old.changes.items.now core.old.changes.count (record { last_old = latest_epoch (stored_in core.old); first_new = by; key = key.entry })) }
    ensures none { result ≡ 133 ↔ core.old.watch.is_watched ≢ 1 }
    ensures long { result ≡ 131 ↔ (core.old.watch.is_watched ≡ 1) × (¬ IsKey key.now) }
    ensures refused { (fault : Fault) → result ≡ expect_status fault → IsKey key.now × MayNotExpect (wanted core.old.watch.key.now) (changes_in core.old) (latest_epoch (stored_in core.old)) (wanted key.now) by fault }
    ensures full { result ≡ 137 → length core.old.changes.items.now ≤ core.old.changes.count }
    ensures last { result ≡ 137 → length core.old.changes.items.now ≡ core.old.changes.count → IsKey key.now × MayExpect (wanted core.old.watch.key.now) (changes_in core.old) (latest_epoch (stored_in core.old)) (wanted key.now) by }
    ensures known { (result ≡ 0) ⊎ (result ≡ 131) ⊎ (result ≡ 133) ⊎ ((fault : Fault) × (result ≡ expect_status fault)) ⊎ (result ≡ 137) }
    ensures others { core.new ≡ record core.old { changes = core.new.changes } }
    ensures unchanged { result ≢ 0 → core.new ≡ core.old }

    // What was seen of the stored epochs stands.
    ensures watched { result ≡ 0 → IsChain sha256 (stored_in core.old) → (scheme : Scheme) (name : Octets)
        → IsWatched sha256 scheme name (wanted core.old.watch.key.now) (changes_in core.old) (stored_in core.old)
        → IsWatched sha256 scheme name (wanted core.old.watch.key.now) (changes_in core.new) (stored_in core.old) }
{
    if core.watch.is_watched != 1 {
        return numbers::MISUSE_NOT_WATCHING;
    }
    if !is_key(key) {
        return numbers::MISUSE_EXPECTED_KEY;
    }
    if core.changes.count > core.changes.items.len() {
        return numbers::MISUSE_NO_ROOM;
    }
    let latest = latest_epoch(core.stored());
    let change = match expect(core.watch.key, core.changes(), latest, key, by) {
        Ok(change) => change,
        Err(fault) => return expect_status(&fault),
    };
    let count = core.changes.count;
    if count == core.changes.items.len() {
        return numbers::MISUSE_NO_ROOM;
    }
    put(core.changes.items, count, &change);
    core.changes.count = count + 1;
    numbers::GOOD
}
