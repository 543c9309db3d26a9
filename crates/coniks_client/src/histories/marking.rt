//! What the steps of a history change.

ghost use Rattle.std.specs.Prelude.{◌≡◌, ◌<◌, ◌≤◌, Some, length, slice_get};
ghost use Rattle.coniks_client.specs.Steps.{is_watched};
ghost use Rattle.coniks_client.specs.HistoryChecking.{answer_in};
ghost use Rattle.coniks_client.specs.HistoryMarking.{AreNumberedTo, AreReported, HavePlaces, IsReported, number_at, number_in, numbered, shows_number};

use crate::changes::Change;
use crate::histories::shown::{ShownStep, set_shown};
use crate::lookups::stored_at;
use crate::steps::{give_changes, given_number, mark};
use crate::stored::StoredEntry;
use crate::watching::Watch;
use coniks_proof::Answer;

/// Gives the epoch of a step the number of its answer, and marks the changes, if the name is watched there.
fn tell_step(
    stored: &mut [StoredEntry],
    watch: &Option<Watch<'_>>,
    changes: &mut [Change<'_>],
    name: &[u8],
    one: &ShownStep<'_>,
)
    requires { one.now.place < length stored.old }
    ensures { IsReported watch.now name.now one.now stored.old changes.old stored.new changes.new }
{
    let answer = one.answer();
    let at = stored_at(stored, one.place);
    let epoch = at.mine.entry().body.t;
    let number = given_number(watch, changes, name, epoch, &answer);
    mark(stored, one.place, &number);
    give_changes(watch, changes, name, epoch, &answer);
}

/// Returns what a step showed.
fn shown_at<'a>(shown: &[ShownStep<'a>], place: usize) -> ShownStep<'a>
    requires { place < length shown.now }
    ensures { slice_get shown.now place ≡ Some result }
{
    shown[place]
}

/// Marks the epochs of steps, one after another.
pub(crate) fn tell_steps(
    stored: &mut [StoredEntry],
    watch: &Option<Watch<'_>>,
    changes: &mut [Change<'_>],
    name: &[u8],
    shown: &[ShownStep<'_>],
)
    requires { HavePlaces shown.now (length shown.now) stored.old }
    ensures { AreReported watch.now name.now shown.now stored.old changes.old (length shown.now) stored.new changes.new }
{
    for one in shown {
        tell_step(stored, watch, changes, name, one);
    }
}

/// Returns whether a name is watched at an epoch.
fn is_watched(watch: &Watch<'_>, name: &[u8], epoch: u64) -> bool
    ensures { result ≡ is_watched watch.now name.now epoch }
{
    name == watch.name && watch.since <= epoch
}

/// Returns the number of a stored epoch, if the name is watched there, else 0.
fn number_in(watch: &Option<Watch<'_>>, name: &[u8], mine: &StoredEntry) -> u32
    ensures { result ≡ number_in watch.now name.now mine.now }
{
    match watch {
        None => 0,
        Some(watch) => {
            if is_watched(watch, name, mine.epoch()) {
                u32::from(mine.seen)
            } else {
                0
            }
        }
    }
}

/// Returns the number of the stored epoch at a place, if the name is watched there, else 0.
fn number_at(watch: &Option<Watch<'_>>, name: &[u8], stored: &[StoredEntry], place: usize) -> u32
    ensures { result ≡ number_at watch.now name.now (slice_get stored.now place) }
{
    match stored.get(place) {
        Some(mine) => number_in(watch, name, mine),
        None => 0,
    }
}

/// Returns the number of what a step shows: 1 for a key, 2 for none.
fn shows_number(one: &ShownStep<'_>) -> u32
    ensures { result ≡ shows_number (answer_in one.now) }
{
    match one.answer() {
        Answer::Key(_) => 1,
        Answer::Absent => 2,
    }
}

/// Returns a step with the number of what it shows, and the number that its epoch has.
fn numbered<'a>(
    watch: &Option<Watch<'_>>,
    name: &[u8],
    stored: &[StoredEntry],
    one: &ShownStep<'a>,
) -> ShownStep<'a>
    ensures { result ≡ numbered watch.now name.now stored.now one.now }
{
    ShownStep {
        place: one.place,
        key: one.key,
        shows: shows_number(one),
        seen: number_at(watch, name, stored, one.place),
    }
}

/// Writes what the first `count` steps show, and the numbers that their epochs have.
pub(crate) fn number_steps(
    stored: &[StoredEntry],
    watch: &Option<Watch<'_>>,
    name: &[u8],
    shown: &mut [ShownStep<'_>],
    count: usize,
)
    requires { count ≤ length shown.old }
    ensures { AreNumberedTo watch.now name.now stored.now shown.old shown.new count }
{
    for i in 0..count {
        let one = shown_at(shown, i);
        let done = numbered(watch, name, stored, &one);
        set_shown(shown, i, &done);
    }
}
