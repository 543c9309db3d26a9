//! What a client remembers of dropped epochs at which its watched name was not the same.

ghost use Rattle.std.specs.Prelude.{◌≡◌, ◌<◌, ◌≤◌, ◌+◌, count_by, length, set};
ghost use Rattle.coniks_quorum.specs.Alarms.{AreNoted, IsAppended, alarm_at, alarms_of, is_alarming};

use coniks_client::stored::StoredEntry;
use coniks_client::watching::SAME;

/// A dropped watched epoch that was not seen as the same.
#[repr(C)]
#[derive(Clone, Copy)]
pub struct Alarm {
    /// The number of the epoch.
    pub epoch: u64,
    /// What was seen: another key, no key, or nothing: then the epoch was missing, and lost when it was dropped.
    pub seen: u8,
}

/// Returns whether an epoch leaves an alarm when it is dropped.
fn is_alarming(since: u64, mine: &StoredEntry) -> bool
    ensures { result ≡ is_alarming since mine.now }
{
    since <= mine.epoch() && mine.seen != SAME
}

/// Returns the alarm of an epoch.
fn alarm_at(mine: &StoredEntry) -> Alarm
    ensures { result ≡ alarm_at mine.now }
{
    Alarm {
        epoch: mine.epoch(),
        seen: mine.seen,
    }
}

/// Returns the number of epochs that leave an alarm.
fn alarming(since: u64, dropped: &[StoredEntry]) -> usize
    ensures { result ≡ count_by (is_alarming since) dropped.now }
{
    dropped
        .iter()
        .filter(|mine| is_alarming(since, mine))
        .count()
}

/// Returns the number of alarms that epochs leave when they are dropped. `since` is the first watched epoch.
pub fn alarms_in(since: u64, dropped: &[StoredEntry]) -> usize
    ensures { result ≡ length (alarms_of since dropped.now) }
{
    alarming(since, dropped)
}

/// Writes an alarm at a place.
fn set_alarm(alarms: &mut [Alarm], place: usize, alarm: Alarm)
    requires { place < length alarms.old }
    ensures { alarms.new ≡ set alarms.old place alarm }
{
    alarms[place] = alarm;
}

/// Writes the alarms that epochs leave after the first `count` ones, and returns the number of all.
///
/// `since` is the first watched epoch. There is room for them: [`alarms_in`] says how many they are.
pub fn append_alarms(
    since: u64,
    dropped: &[StoredEntry],
    alarms: &mut [Alarm],
    count: usize,
) -> usize
    requires { count + length (alarms_of since dropped.now) ≤ length alarms.old }
    ensures { IsAppended alarms.old alarms.new count (alarms_of since dropped.now) result }
{
    let mut end = count;
    for mine in dropped {
        if is_alarming(since, mine) {
            set_alarm(alarms, end, alarm_at(mine));
            end += 1;
        }
    }
    end
}

/// Returns the number of the first alarms whose epoch is this one or an earlier one: those of which the owner takes note.
pub fn noted(alarms: &[Alarm], epoch: u64) -> usize
    ensures { AreNoted alarms.now epoch result }
{
    alarms
        .iter()
        .take_while(|alarm| alarm.epoch <= epoch)
        .count()
}
