//! Whether the stored epochs and the changes of a state have a form that a client can have.

ghost use Rattle.std.specs.Prelude.{◌≡◌, ◌↔◌, All, IsTrue, length, map};
ghost use Rattle.coniks_quorum.specs.StateForms.{AlarmFits, Fits, IsAlarming, IsClear, IsClearAt, IsOutside, IsSeen};
ghost use Rattle.coniks_quorum.specs.StateReading.{HasChanges, MayFollow};
ghost use Rattle.coniks_quorum.specs.Saved.{alarm_from, stored_from, mark_from, saved_change};

use crate::alarms::Alarm;
use crate::states::parts::{ALARM_BYTES, MARK_BYTES, Named, STORED_BYTES, split_change};
use coniks_chain::ENTRY_BYTES;
use coniks_client::changes::Change;
use coniks_client::stored::StoredEntry;
use coniks_client::watching::{ABSENT, CHANGED, MISSING, SAME, UNWATCHED};

/// Returns the bytes of a slice as an array.
fn part<const N: usize>(bytes: &[u8]) -> [u8; N]
    requires { length bytes.now ≡ N }
    ensures { result ≡ bytes.now }
{
    let mut array = [0; N];
    array.copy_from_slice(bytes);
    array
}

/// A part of a state that `N` bytes are: a stored epoch, an alarm, or a mark.
pub(crate) trait FromBytes<const N: usize>: Copy {
    ghost use Rattle.coniks_proof.specs.Octets.{Octets};

    /// The part that bytes are.
    ghost one_from: { Octets → Self };

    /// Returns the part that bytes are.
    fn from_bytes(bytes: &[u8; N]) -> Self
        ensures { result ≡ one_from bytes.now };
}

impl FromBytes<STORED_BYTES> for StoredEntry {
    ghost one_from = { stored_from };

    fn from_bytes(bytes: &[u8; STORED_BYTES]) -> StoredEntry {
        StoredEntry {
            entry: part(&bytes[..ENTRY_BYTES]),
            first_seen: part(&bytes[ENTRY_BYTES..STORED_BYTES - 1]),
            seen: bytes[STORED_BYTES - 1],
        }
    }
}

impl FromBytes<ALARM_BYTES> for Alarm {
    ghost one_from = { alarm_from };

    fn from_bytes(bytes: &[u8; ALARM_BYTES]) -> Alarm {
        Alarm {
            epoch: u64::from_be_bytes(part(&bytes[..MARK_BYTES])),
            seen: bytes[MARK_BYTES],
        }
    }
}

impl FromBytes<MARK_BYTES> for u64 {
    ghost one_from = { mark_from };

    fn from_bytes(bytes: &[u8; MARK_BYTES]) -> u64 {
        u64::from_be_bytes(*bytes)
    }
}

/// Returns whether an epoch is not strictly inside the window of a change.
fn is_outside(epoch: u64, change: &Change<'_>) -> bool
    ensures { IsTrue result ↔ IsOutside epoch (saved_change change.now) }
{
    epoch <= change.last_old || change.first_new <= epoch
}

/// Returns whether an epoch did not show the same, or is outside the window of a change.
fn is_clear_at(bytes: &[u8; STORED_BYTES], change: &Change<'_>) -> bool
    ensures { IsTrue result ↔ IsClearAt (saved_change change.now) (stored_from bytes.now) }
{
    let mine = StoredEntry::from_bytes(bytes);
    mine.seen != SAME || is_outside(mine.epoch(), change)
}

/// Returns whether no epoch that showed the same is inside the window of a change.
fn is_clear(stored: &[[u8; STORED_BYTES]], change: &Change<'_>) -> bool
    ensures { IsTrue result ↔ IsClear (map stored_from stored.now) (saved_change change.now) }
{
    for bytes in stored {
        if !is_clear_at(bytes, change) {
            return false;
        }
    }
    true
}

/// Returns whether a number is one of a watched epoch.
fn is_seen(number: u8) -> bool
    ensures { IsTrue result ↔ IsSeen number }
{
    number == SAME || number == CHANGED || number == ABSENT || number == MISSING
}

/// Returns whether a stored epoch has a number that it can have.
fn fits(bytes: &[u8; STORED_BYTES], since: Option<u64>) -> bool
    ensures { IsTrue result ↔ Fits since (stored_from bytes.now) }
{
    let mine = StoredEntry::from_bytes(bytes);
    match since {
        None => mine.seen == UNWATCHED,
        Some(since) => {
            if mine.epoch() < since {
                mine.seen == UNWATCHED
            } else {
                is_seen(mine.seen)
            }
        }
    }
}

/// Returns whether each stored epoch has a number that it can have.
pub(crate) fn all_fit(stored: &[[u8; STORED_BYTES]], since: Option<u64>) -> bool
    ensures { IsTrue result ↔ All (Fits since) (map stored_from stored.now) }
{
    for bytes in stored {
        if !fits(bytes, since) {
            return false;
        }
    }
    true
}

/// Returns whether a number is one of an alarm.
fn is_alarming(number: u8) -> bool
    ensures { IsTrue result ↔ IsAlarming number }
{
    number == CHANGED || number == ABSENT || number == MISSING
}

/// Returns whether an alarm is of a watched epoch and has a number that it can have.
fn alarm_fits(bytes: &[u8; ALARM_BYTES], since: Option<u64>) -> bool
    ensures { IsTrue result ↔ AlarmFits since (alarm_from bytes.now) }
{
    let alarm = Alarm::from_bytes(bytes);
    match since {
        None => false,
        Some(since) => since <= alarm.epoch && is_alarming(alarm.seen),
    }
}

/// Returns whether each alarm does.
pub(crate) fn alarms_fit(alarms: &[[u8; ALARM_BYTES]], since: Option<u64>) -> bool
    ensures { IsTrue result ↔ All (AlarmFits since) (map alarm_from alarms.now) }
{
    for bytes in alarms {
        if !alarm_fits(bytes, since) {
            return false;
        }
    }
    true
}

/// Returns whether a change may be the next one after an epoch and a key.
fn may_follow(stored: &[[u8; STORED_BYTES]], from: u64, key: &[u8], change: &Change<'_>) -> bool
    ensures { IsTrue result ↔ MayFollow (map stored_from stored.now) from key.now (saved_change change.now) }
{
    from <= change.last_old
        && change.last_old < change.first_new
        && key != change.key
        && is_clear(stored, change)
}

/// Returns whether bytes are the changes of a name, in order.
pub(crate) fn are_changes(stored: &[[u8; STORED_BYTES]], named: &Named<'_>, bytes: &[u8]) -> bool
    ensures { IsTrue result ↔ HasChanges (map stored_from stored.now) 0 named.now.key.now named.now.count bytes.now }
{
    let mut from = 0;
    let mut key = named.key;
    let mut rest = bytes;
    for _place in 0..named.count {
        let Some((change, after)) = split_change(rest) else {
            return false;
        };
        if !may_follow(stored, from, key, &change) {
            return false;
        }
        from = change.first_new;
        key = change.key;
        rest = after;
    }
    rest.is_empty()
}
