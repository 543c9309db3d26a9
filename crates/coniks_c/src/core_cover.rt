//! Dropping the first stored epochs, and the changes that the others don't need.

ghost use Rattle.std.specs.Prelude.{◌≡◌, ◌≢◌, ◌⊎◌, ◌↔◌, ◌<◌, ◌≤◌, ◌+◌, ◌-◌, ◌++◌, ℕ, List, length, slice_get, take, drop};
ghost use Rattle.coniks_proof.specs.Octets.{Octets};
ghost use Rattle.coniks_proof.specs.Sha256.{sha256};
ghost use Rattle.coniks_client.specs.Changes.{wanted};
ghost use Rattle.coniks_client.specs.StoredEntry.{IsChain, epoch_of, latest_epoch};
ghost use Rattle.coniks_client.specs.Owner.{IsWatched, Scheme};
ghost use Rattle.coniks_client.specs.declared.stored.StoredEntry.{StoredEntry as StoredOne};
ghost use Rattle.coniks_quorum.specs.Alarms.{AreLogged, AreNoted, IsAppended};
ghost use Rattle.coniks_quorum.specs.Auditors.{Auditor};
ghost use Rattle.coniks_quorum.specs.Clients.{IsClient};
ghost use Rattle.coniks_c.specs.Core.{alarms_in, changes_in, stored_in};
ghost use Rattle.coniks_c.specs.CoreQuorum.{AreMoved, CoversTo, LacksRoom, SaysDropped, Settles, left_alarms};

use crate::core_client::{RawAlarms, RawCore, RawStored, first};
use crate::core_quorum::confirmed_to;
use crate::core_values::RawWatch;
use crate::numbers;
use coniks_client::{StoredEntry, latest_epoch, settle};
use coniks_quorum::alarms::{Alarm, alarms_in, append_alarms, noted};
use coniks_quorum::covering::coverable;
use coniks_quorum::laws;
use std::ops::Range;

/// The dropped epochs and changes.
#[repr(C)]
#[derive(Clone, Copy)]
pub struct RawCovered {
    /// How many stored epochs were dropped.
    pub epochs: usize,
    /// The first and the last of them; 0 if there is none.
    pub from: u64,
    pub to: u64,
    /// How many changes of the watched key were dropped.
    pub changes: usize,
    /// How many alarms the dropped epochs left.
    pub alarms: usize,
}

/// Drops the elements before a range: moves those of the range to the front. What is after them stays as it is. Returns their number.
fn drop_before<T: Copy>(items: &mut [T], left: Range<usize>) -> usize
    requires within { left.start ≤ left.end }
    requires room { left.end ≤ length items.old }
    ensures left { result ≡ left.end - left.start }
    ensures moved { AreMoved items.old items.new left.end result left.start }
{
    let count = left.end - left.start;
    items.copy_within(left, 0);
    count
}

/// Returns the number of alarms that epochs leave when they are dropped: none if no name is watched.
fn alarms_left(watch: &RawWatch<'_>, dropped: &[StoredEntry]) -> usize
    ensures { result ≡ length (left_alarms watch.now dropped.now) }
{
    if watch.is_watched == 1 {
        alarms_in(watch.since, dropped)
    } else {
        0
    }
}

/// The stored epochs, how many of them are dropped, and how many alarms there are.
#[derive(Clone, Copy)]
struct Dropping {
    stored: usize,
    gone: usize,
    alarms: usize,
}

/// Drops the first stored epochs of an array, and writes the alarms that they leave after the others. Returns the number of alarms.
fn drop_epochs(
    stored: &mut [StoredEntry],
    alarms: &mut [Alarm],
    watch: &RawWatch<'_>,
    dropping: &Dropping,
) -> usize
    requires within { dropping.now.gone ≤ dropping.now.stored }
    requires stored { dropping.now.stored ≤ length stored.old }
    requires room { dropping.now.alarms + length (left_alarms watch.now (take dropping.now.gone stored.old)) ≤ length alarms.old }
    ensures moved { AreMoved stored.old stored.new dropping.now.stored (dropping.now.stored - dropping.now.gone) dropping.now.gone }
    ensures alarms { IsAppended alarms.old alarms.new dropping.now.alarms (left_alarms watch.now (take dropping.now.gone stored.old)) result }
{
    let more = if watch.is_watched == 1 {
        append_alarms(
            watch.since,
            &stored[..dropping.gone],
            alarms,
            dropping.alarms,
        )
    } else {
        dropping.alarms
    };
    let _ = drop_before(stored, dropping.gone..dropping.stored);
    more
}

/// Drops the first stored epochs, and writes the alarms that they leave.
fn drop_epochs_in(
    stored: &mut RawStored<'_>,
    alarms: &mut RawAlarms<'_>,
    watch: &RawWatch<'_>,
    gone: usize,
)
    requires within { gone ≤ stored.old.count }
    requires stored { stored.old.count ≤ length stored.old.items.now }
    requires room { alarms.old.count + length (left_alarms watch.now (take gone stored.old.items.now)) ≤ length alarms.old.items.now }
    ensures moved { AreMoved stored.old.items.now stored.new.items.now stored.old.count stored.new.count gone }
    ensures alarms { IsAppended alarms.old.items.now alarms.new.items.now alarms.old.count (left_alarms watch.now (take gone stored.old.items.now)) alarms.new.count }
{
    let dropping = Dropping {
        stored: stored.count,
        gone,
        alarms: alarms.count,
    };
    alarms.count = drop_epochs(stored.items, alarms.items, watch, &dropping);
    stored.count = dropping.stored - gone;
}

/// Returns the first stored epoch, 0 if there is none.
fn first_epoch(stored: &[StoredEntry]) -> u64
    ensures { result ≡ epoch_of (slice_get stored.now 0) }
{
    match stored.first() {
        Some(mine) => mine.epoch(),
        None => 0,
    }
}

impl RawCovered {
    /// Returns what is written of dropped epochs that leave this number of alarms.
    fn of(dropped: &[StoredEntry], alarms: usize) -> RawCovered
        ensures { result ≡ record {
          epochs = length dropped.now;
          from = epoch_of (slice_get dropped.now 0);
          to = latest_epoch dropped.now;
          changes = 0;
          alarms = alarms;
        } }
    {
        RawCovered {
            epochs: dropped.len(),
            from: first_epoch(dropped),
            to: latest_epoch(dropped),
            changes: 0,
            alarms,
        }
    }
}

/// Returns how many of the first stored epochs may be dropped.
fn coverable_of(core: &RawCore<'_, '_>, time: u64) -> usize
    ensures covers { CoversTo core.now time result }
    ensures within { result ≤ length (stored_in core.now) }
    ensures left { 0 < length (stored_in core.now) → result < length (stored_in core.now) }

    // The rest is a client's, and its marks are right.
    ensures client { (auditors : List Auditor) (before : List StoredOne) → IsClient sha256 auditors before (stored_in core.now) core.now.marks.items.now
        → IsClient sha256 auditors (before ++ take result (stored_in core.now)) (drop result (stored_in core.now)) core.now.marks.items.now }
{
    let confirmed = confirmed_to(core.marks.items, core.rules.quorum);
    coverable(
        core.stored(),
        &core.rules.present(time),
        &core.rules.promise(),
        confirmed,
    )
}

/// Returns what is written of the first stored epochs of a client, this many.
fn dropped_of(core: &RawCore<'_, '_>, gone: usize) -> RawCovered
    ensures dropped { SaysDropped core.now.watch (take gone core.now.stored.items.now) result }
    ensures changes { result.changes ≡ 0 }
{
    let watch = core.watch;
    let dropped = first(core.stored.items, gone);
    RawCovered::of(dropped, alarms_left(&watch, dropped))
}

/// Drops the changes that no stored epoch needs, and makes the key of the last dropped one the first key. Returns their number.
fn settle_watch(core: &mut RawCore<'_, '_>) -> usize
    requires { core.old.changes.count ≤ length core.old.changes.items.now }
    ensures within { result ≤ core.old.changes.count }
    ensures moved { AreMoved core.old.changes.items.now core.new.changes.items.now core.old.changes.count core.new.changes.count result }
    ensures settles { Settles (stored_in core.old) core.old.watch core.new.watch (changes_in core.old) (changes_in core.new) result }
    ensures others { core.new ≡ record core.old { watch = core.new.watch; changes = core.new.changes } }

    // What was seen of the stored epochs stands.
    ensures watched { IsChain sha256 (stored_in core.old) → (scheme : Scheme) (name : Octets)
        → IsWatched sha256 scheme name (wanted core.old.watch.key.now) (changes_in core.old) (stored_in core.old)
        → IsWatched sha256 scheme name (wanted core.new.watch.key.now) (changes_in core.new) (stored_in core.old) }
{
    if core.watch.is_watched != 1 {
        return 0;
    }
    let Some(oldest) = core.stored().first() else {
        return 0;
    };
    let stage = settle(core.watch.key, core.changes(), oldest.epoch());
    let count = core.changes.count;
    core.changes.count = drop_before(core.changes.items, stage.count..count);
    core.watch.key = stage.key;
    stage.count
}

/// Drops the first stored epochs, as many as `coverable` says: those before the epoch that a quorum of the marks confirms, and before the
/// first missing one of which the policy still promises a proof. Then drops the changes that no epoch needs which is left.
///
/// Each dropped watched epoch that was not seen as the same leaves an alarm after those that there are. What is left of the epochs and of
/// the changes is moved to the front of their arrays, the three counts are set, and the first key of the watch is that of the last
/// dropped change. At least one epoch is left.
///
/// Returns 0, and writes what was dropped, also if nothing was. Returns 137 if a count is greater than its room, or there is no room for
/// the alarms, and changes nothing then.
#[unsafe(no_mangle)]
pub extern "C" fn coniks_core_cover(
    core: &mut RawCore<'_, '_>,
    time: u64,
    covered: &mut RawCovered,
) -> u32
    ensures full { result ≡ 137 → (length core.old.stored.items.now < core.old.stored.count) ⊎ (length core.old.changes.items.now < core.old.changes.count)
        ⊎ LacksRoom core.old time }
    ensures room { result ≡ 0 → (core.old.stored.count ≤ length core.old.stored.items.now) × (core.old.changes.count ≤ length core.old.changes.items.now)
        × (core.new.alarms.count ≤ length core.old.alarms.items.now) }
    ensures known { (result ≡ 0) ⊎ (result ≡ 137) }
    ensures others { (core.new.rules ≡ core.old.rules) × (core.new.marks ≡ core.old.marks) }
    ensures unchanged { result ≢ 0 → (core.new ≡ core.old) × (covered.new ≡ covered.old) }
    ensures coverable { result ≡ 0 → CoversTo core.old time covered.new.epochs }
    ensures moved { result ≡ 0 → AreMoved core.old.stored.items.now core.new.stored.items.now core.old.stored.count core.new.stored.count covered.new.epochs }
    ensures dropped { result ≡ 0 → SaysDropped core.old.watch (take covered.new.epochs core.old.stored.items.now) covered.new }
    ensures alarms { result ≡ 0 → IsAppended core.old.alarms.items.now core.new.alarms.items.now core.old.alarms.count
        (left_alarms core.old.watch (take covered.new.epochs core.old.stored.items.now)) core.new.alarms.count }
    ensures changes { result ≡ 0 → AreMoved core.old.changes.items.now core.new.changes.items.now core.old.changes.count core.new.changes.count covered.new.changes }
    ensures settled { result ≡ 0 → Settles (stored_in core.new) core.old.watch core.new.watch (changes_in core.old) (changes_in core.new) covered.new.changes }
    ensures left { result ≡ 0 → 0 < core.old.stored.count → 0 < core.new.stored.count }

    // Each watched epoch that was ever dropped was seen as the same, or its alarm is there, as before.
    ensures logged { result ≡ 0 → core.old.watch.is_watched ≡ 1 → (before : List StoredOne) → AreLogged core.old.watch.since before (alarms_in core.old)
        → AreLogged core.old.watch.since (before ++ take covered.new.epochs core.old.stored.items.now) (alarms_in core.new) }

    // The rest is still a client's chain, its marks are still right, and what was seen of it stands.
    ensures chain { result ≡ 0 → IsChain sha256 (stored_in core.old) → IsChain sha256 (stored_in core.new) }
    ensures client { result ≡ 0 → (auditors : List Auditor) (before : List StoredOne) → IsClient sha256 auditors before (stored_in core.old) core.old.marks.items.now
        → IsClient sha256 auditors (before ++ take covered.new.epochs core.old.stored.items.now) (stored_in core.new) core.old.marks.items.now }
    ensures watched { result ≡ 0 → IsChain sha256 (stored_in core.old) → (scheme : Scheme) (name : Octets)
        → IsWatched sha256 scheme name (wanted core.old.watch.key.now) (changes_in core.old) (stored_in core.old)
        → IsWatched sha256 scheme name (wanted core.new.watch.key.now) (changes_in core.new) (stored_in core.new) }
{
    laws::alarms();
    if core.stored.count > core.stored.items.len()
        || core.changes.count > core.changes.items.len()
    {
        return numbers::MISUSE_NO_ROOM;
    }
    let gone = coverable_of(core, time);
    let watch = core.watch;
    let (alarms, room) = (core.alarms.count, core.alarms.items.len());
    let mut stated = dropped_of(core, gone);
    if alarms > room || stated.alarms > room - alarms {
        return numbers::MISUSE_NO_ROOM;
    }
    drop_epochs_in(&mut core.stored, &mut core.alarms, &watch, gone);
    stated.changes = settle_watch(core);
    *covered = stated;
    numbers::GOOD
}

/// Takes note of the alarms up to an epoch: drops the first ones, as long as their epoch is this one or an earlier one.
///
/// Those that are left are moved to the front of their array, and the count is set. Returns 0, or 137 if the count is greater than the
/// room, and changes nothing then.
#[unsafe(no_mangle)]
pub extern "C" fn coniks_core_note(core: &mut RawCore<'_, '_>, epoch: u64) -> u32
    ensures room { result ≡ 137 ↔ (length core.old.alarms.items.now < core.old.alarms.count) }
    ensures known { (result ≡ 0) ⊎ (result ≡ 137) }
    ensures noted { result ≡ 0 → (n : ℕ) × AreNoted (alarms_in core.old) epoch n
        × AreMoved core.old.alarms.items.now core.new.alarms.items.now core.old.alarms.count core.new.alarms.count n }
    ensures others { core.new ≡ record core.old { alarms = core.new.alarms } }
    ensures unchanged { result ≢ 0 → core.new ≡ core.old }
{
    if core.alarms.count > core.alarms.items.len() {
        return numbers::MISUSE_NO_ROOM;
    }
    let gone = noted(core.alarms(), epoch);
    let count = core.alarms.count;
    core.alarms.count = drop_before(core.alarms.items, gone..count);
    numbers::GOOD
}
