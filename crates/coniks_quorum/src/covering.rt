//! Which of the first stored epochs a client may drop.

ghost use Rattle.std.specs.Prelude.{◌<◌, ◌++◌, ◌↔◌, ℕ, List, IfNone, IfSome, IsTrue, drop, length, take};
ghost use Rattle.coniks_proof.specs.Octets.{Octets};
ghost use Rattle.coniks_client.specs.declared.stored.StoredEntry.{StoredEntry as StoredOne};
ghost use Rattle.coniks_quorum.specs.Auditors.{Auditor};
ghost use Rattle.coniks_quorum.specs.Clients.{IsClient};
ghost use Rattle.coniks_quorum.specs.Covering.{AreDroppable, AreFirstDroppable, IsAwaited, IsCoverable};

use crate::lost::{Promise, lost_at};
use coniks_client::stored::StoredEntry;
use coniks_client::times::Present;
use coniks_client::watching::MISSING;

/// Returns whether a stored epoch is missing, and the policy still promises a proof of it.
fn is_awaited(
    present: &Present,
    promise: &Promise,
    stored: &[StoredEntry],
    place: usize,
    mine: &StoredEntry,
) -> bool
    requires { place < length stored.now }
    ensures { IsTrue result ↔ IsAwaited present.now promise.now stored.now place mine.now }
{
    mine.seen == MISSING && !lost_at(present, promise, stored, place)
}

/// Returns the place of the first stored epoch that must stay: that is the confirmed one or a later one, or is awaited.
fn staying(
    stored: &[StoredEntry],
    present: &Present,
    promise: &Promise,
    confirmed: u64,
) -> Option<usize>
    ensures some { IfSome result (AreFirstDroppable present.now promise.now stored.now confirmed) }
    ensures none { IfNone result (AreDroppable present.now promise.now stored.now confirmed (length stored.now)) }
{
    for (place, mine) in stored.iter().enumerate() {
        let stays = confirmed <= mine.epoch() || is_awaited(present, promise, stored, place, mine);
        if stays {
            return Some(place);
        }
    }
    None
}

/// Returns the number of stored epochs that a client may drop: the first ones, before the confirmed epoch and before any missing one of which
/// the policy still promises a proof.
///
/// It is 0 if no epoch is confirmed, and if the confirmed epoch isn't stored and all stored ones are before it.
///
/// Keep the alarms that they leave (`alarms::append_alarms`): a state says nothing else of dropped epochs. Then drop them, and call
/// `settle` for the oldest epoch that is left.
pub fn coverable(
    stored: &[StoredEntry],
    present: &Present,
    promise: &Promise,
    confirmed: Option<u64>,
) -> usize
    ensures exact { IsCoverable present.now promise.now stored.now confirmed result }
    ensures some_left { 0 < length stored.now → result < length stored.now }

    // The rest is still a client's chain, and its marks are still right.
    ensures client { (hash : Octets → Octets) (auditors : List Auditor) (dropped : List StoredOne) (marks : List ℕ)
        → IsClient hash auditors dropped stored.now marks → IsClient hash auditors (dropped ++ take result stored.now) (drop result stored.now) marks }
{
    let Some(confirmed) = confirmed else {
        return 0;
    };
    match staying(stored, present, promise, confirmed) {
        Some(place) => place,
        None => 0,
    }
}
