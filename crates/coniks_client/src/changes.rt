//! The changes of a watched key that its owner made.

ghost use Rattle.std.specs.Prelude.{◌≡◌, ◌≤◌, ◌<◌, ℕ, List, true, Option, Some, drop, length, slice_get};
ghost use Rattle.std.proofs.Math.ListN.{set};
ghost use Rattle.coniks_proof.specs.Octets.{Octets};
ghost use Rattle.coniks_proof.specs.Proofs.{stated};
ghost use Rattle.coniks_client.specs.Changes.{AreInOrder, IsDecided, Keeps, begun, expected, is_accepted, key_after, marked, may_show, narrowed, same_key, wanted};
ghost use Rattle.coniks_client.specs.Owner.{AreFrom, IsWatched, Scheme};
ghost use Rattle.coniks_client.specs.declared.stored.StoredEntry.{StoredEntry};

use coniks_proof::Answer;

/// A change of the watched key: epochs up to `last_old` show the key before it, and those from `first_new` on the new key. An
/// epoch between them may show either, and is then the last old or the first new one. A key that has no byte stands for no key.
#[repr(C)]
#[derive(Clone, Copy)]
pub struct Change<'a> {
    pub last_old: u64,
    pub first_new: u64,
    pub key: &'a [u8],
}

/// Returns whether an answer is a key, or no key if that has no byte.
pub(crate) fn same_key(answer: &Answer<'_>, key: &[u8]) -> bool
    ensures { result ≡ same_key (stated answer.now) (wanted key.now) }
{
    match answer {
        Answer::Absent => key.is_empty(),
        Answer::Key(shown) => !key.is_empty() && **shown == *key,
    }
}

/// Returns the number of changes that have begun at an epoch.
fn begun(changes: &[Change<'_>], epoch: u64) -> usize
    ensures count { result ≡ begun changes.now epoch }
    ensures within { result ≤ length changes.now }
{
    for (place, change) in changes.iter().enumerate() {
        if epoch < change.first_new {
            return place;
        }
    }
    changes.len()
}

/// Returns the key after the first changes.
fn key_after<'a>(key: &'a [u8], changes: &[Change<'a>], count: usize) -> &'a [u8]
    requires { count ≤ length changes.now }
    ensures { wanted result.now ≡ key_after (wanted key.now) changes.now count }
{
    if count == 0 {
        key
    } else {
        changes[count - 1].key
    }
}

/// The changes that have begun at an epoch: their number, and the key after them.
#[derive(Clone, Copy)]
pub struct Stage<'a> {
    pub count: usize,
    pub key: &'a [u8],
}

/// Returns the changes that have begun at an epoch.
pub(crate) fn stage_at<'a>(key: &'a [u8], changes: &[Change<'a>], epoch: u64) -> Stage<'a>
    ensures count { result.count ≡ begun changes.now epoch }
    ensures within { result.count ≤ length changes.now }
    ensures key { wanted result.key.now ≡ expected (wanted key.now) changes.now epoch }
{
    let count = begun(changes, epoch);
    Stage {
        count,
        key: key_after(key, changes, count),
    }
}

/// Returns the change at a place.
fn change_at<'a>(changes: &[Change<'a>], place: usize) -> Change<'a>
    requires { place < length changes.now }
    ensures { slice_get changes.now place ≡ Some result }
{
    changes[place]
}

/// Returns whether an epoch may show the key, or the new key of the next change.
fn may_show(key: &[u8], next: &Change<'_>, epoch: u64, answer: &Answer<'_>) -> bool
    ensures { result ≡ may_show (wanted key.now) (Some next.now) epoch (stated answer.now) }
{
    same_key(answer, key) || (next.last_old < epoch && same_key(answer, next.key))
}

/// Returns whether an epoch may show an answer.
pub(crate) fn is_accepted(
    key: &[u8],
    changes: &[Change<'_>],
    epoch: u64,
    answer: &Answer<'_>,
) -> bool
    ensures { result ≡ is_accepted (wanted key.now) changes.now epoch (stated answer.now) }
{
    let stage = stage_at(key, changes, epoch);
    if stage.count < changes.len() {
        let next = change_at(changes, stage.count);
        may_show(stage.key, &next, epoch, answer)
    } else {
        same_key(answer, stage.key)
    }
}

/// Returns the next change, once an epoch before its first new one showed an answer.
fn narrowed<'a>(key: &[u8], next: &Change<'a>, epoch: u64, answer: &Answer<'_>) -> Change<'a>
    ensures { result ≡ narrowed (wanted key.now) next.now epoch (stated answer.now) }
{
    let mut change = *next;
    if epoch > next.last_old {
        if same_key(answer, key) {
            change.last_old = epoch;
        } else if same_key(answer, next.key) {
            change.first_new = epoch;
        }
    }
    change
}

/// Changes the change at a place.
fn set_change<'a>(changes: &mut [Change<'a>], place: usize, change: &Change<'a>)
    requires { place < length changes.old }
    ensures { changes.new ≡ set changes.old place change.now }
{
    changes[place] = *change;
}

/// Marks what an epoch showed.
fn mark_next(key: &[u8], changes: &mut [Change<'_>], epoch: u64, answer: &Answer<'_>)
    ensures { changes.new ≡ marked (wanted key.now) changes.old epoch (stated answer.now) }
{
    let stage = stage_at(key, changes, epoch);
    if stage.count < changes.len() {
        let next = change_at(changes, stage.count);
        let change = narrowed(stage.key, &next, epoch, answer);
        set_change(changes, stage.count, &change);
    }
}

/// Marks what an epoch showed: the next change has its last old epoch there, or its first new one.
pub fn mark_changes(key: &[u8], changes: &mut [Change<'_>], epoch: u64, answer: &Answer<'_>)
    ensures marked { changes.new ≡ marked (wanted key.now) changes.old epoch (stated answer.now) }

    // Nothing that is decided already changes, and what was accepted is decided then.
    ensures order { AreInOrder 0 changes.old → AreInOrder 0 changes.new }
    ensures keeps { (earlier : ℕ) → AreInOrder 0 changes.old → Keeps (wanted key.now) changes.old (wanted key.now) changes.new earlier }
    ensures decides { AreInOrder 0 changes.old → is_accepted (wanted key.now) changes.old epoch (stated answer.now) ≡ true
        → IsDecided changes.new epoch × (expected (wanted key.now) changes.new epoch ≡ stated answer.now) }
{
    mark_next(key, changes, epoch, answer);
}

/// Returns the changes that no epoch from the oldest one on needs. Drop them, and let the key be the one after them.
pub fn settle<'a>(key: &'a [u8], changes: &[Change<'a>], oldest: u64) -> Stage<'a>
    ensures count { result.count ≡ begun changes.now oldest }
    ensures within { result.count ≤ length changes.now }
    ensures key { wanted result.key.now ≡ expected (wanted key.now) changes.now oldest }

    // The same is expected of each epoch from the oldest one on, and the same answers are accepted.
    ensures order { AreInOrder 0 changes.now → AreInOrder 0 (drop result.count changes.now) }
    ensures keeps { (epoch : ℕ) → oldest ≤ epoch → AreInOrder 0 changes.now
        → Keeps (wanted key.now) changes.now (wanted result.key.now) (drop result.count changes.now) epoch }
    ensures accepts { (epoch : ℕ) (answer : Option Octets) → oldest ≤ epoch
        → is_accepted (wanted result.key.now) (drop result.count changes.now) epoch answer ≡ is_accepted (wanted key.now) changes.now epoch answer }
    ensures watched { (hash : Octets → Octets) (scheme : Scheme) (name : Octets) (stored : List StoredEntry) → AreFrom oldest stored
        → IsWatched hash scheme name (wanted key.now) changes.now stored → IsWatched hash scheme name (wanted result.key.now) (drop result.count changes.now) stored }
{
    stage_at(key, changes, oldest)
}
