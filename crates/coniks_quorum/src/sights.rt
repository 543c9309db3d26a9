//! What an owner's client has seen of its name.

ghost use Rattle.std.specs.Prelude.{◌≡◌, ◌<◌, IfNone, IfSome, Some, length, slice_get};
ghost use Rattle.coniks_client.specs.declared.stored.StoredEntry.{StoredEntry as StoredOne};
ghost use Rattle.coniks_quorum.specs.Sights.{AlarmsNone, IsFirstAlarm, IsFirstOf, IsFirstSeen, IsNowhere, SeesNone, alarm_sight, number_sight, sight_of};

use crate::alarms::Alarm;
use crate::lost::{Promise, lost_at};
use coniks_client::stored::StoredEntry;
use coniks_client::times::Present;
use coniks_client::watching::{ABSENT, CHANGED, SAME};

/// The part of an owner's state that the report depends on.
#[derive(Clone, Copy)]
pub struct View<'a> {
    /// The stored epochs.
    pub stored: &'a [StoredEntry],
    /// The alarms of dropped epochs of which the owner has not taken note.
    pub alarms: &'a [Alarm],
    /// The first watched epoch.
    pub since: u64,
    /// The policy's clock, and the Unix time in seconds.
    pub present: Present,
    /// How long the policy promises proofs.
    pub promise: Promise,
}

/// What a client has seen of the watched name at an epoch.
#[derive(Clone, Copy, Debug, PartialEq, Eq)]
pub enum Sight {
    /// Nothing: the epoch is before the first watched one.
    Before,
    /// The expected key.
    Same,
    /// Another key, or no key.
    Other,
    /// Nothing yet: the epoch is missing, and not lost.
    Awaited,
    /// Nothing: the epoch is missing, and lost.
    Gone,
}

/// Returns the sight that the number of a watched epoch stands for. `lost` counts only if the epoch is missing.
fn number_sight(number: u8, lost: bool) -> Sight
    ensures { result ≡ number_sight number lost }
{
    match number {
        SAME => Sight::Same,
        CHANGED | ABSENT => Sight::Other,
        _ => { if lost { Sight::Gone } else { Sight::Awaited } }
    }
}

/// Returns the sight of a stored epoch.
fn sight_of(view: &View<'_>, place: usize, mine: &StoredEntry) -> Sight
    requires { place < length view.now.stored.now }
    ensures { result ≡ sight_of view.now place mine.now }
{
    if mine.epoch() < view.since {
        return Sight::Before;
    }
    let lost = lost_at(&view.present, &view.promise, view.stored, place);
    number_sight(mine.seen, lost)
}

/// Returns what the client has seen at the stored epoch of a place.
pub fn sight_at(view: &View<'_>, place: usize) -> Sight
    requires { place < length view.now.stored.now }
    ensures { (mine : StoredOne) → slice_get view.now.stored.now place ≡ Some mine → result ≡ sight_of view.now place mine }
{
    sight_of(view, place, &view.stored[place])
}

/// Returns the number of the first stored epoch that has this sight.
pub(crate) fn first_seen(view: &View<'_>, sight: Sight) -> Option<u64>
    ensures some { IfSome result (λ epoch. IsFirstSeen view.now sight epoch) }
    ensures none { IfNone result (SeesNone view.now sight) }
{
    for (place, mine) in view.stored.iter().enumerate() {
        if sight_of(view, place, mine) == sight {
            return Some(mine.epoch());
        }
    }
    None
}

/// Returns what was seen of a dropped epoch.
fn alarm_sight(alarm: &Alarm) -> Sight
    ensures { result ≡ alarm_sight alarm.now }
{
    number_sight(alarm.seen, true)
}

/// Returns the epoch of the first alarm that has this sight.
fn first_alarm(view: &View<'_>, sight: Sight) -> Option<u64>
    ensures some { IfSome result (λ epoch. IsFirstAlarm view.now sight epoch) }
    ensures none { IfNone result (AlarmsNone view.now sight) }
{
    for alarm in view.alarms {
        if alarm_sight(alarm) == sight {
            return Some(alarm.epoch);
        }
    }
    None
}

/// Returns the number of the first epoch that has this sight: that of an alarm, else a stored one.
pub(crate) fn first_of(view: &View<'_>, sight: Sight) -> Option<u64>
    ensures some { IfSome result (λ epoch. IsFirstOf view.now sight epoch) }
    ensures none { IfNone result (IsNowhere view.now sight) }
{
    if let Some(epoch) = first_alarm(view, sight) {
        return Some(epoch);
    }
    first_seen(view, sight)
}
