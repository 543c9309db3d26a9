//! When the policy promises no proof of a missing epoch any more.

ghost use Rattle.std.specs.Prelude.{◌≡◌, ◌<◌, length};
ghost use Rattle.coniks_quorum.specs.Lost.{epoch_after, is_lost, is_over, lost_at};

use coniks_client::stored::StoredEntry;
use coniks_client::times::{Clock, Present, begins_at};

/// How long a policy promises proofs of a past epoch.
#[derive(Clone, Copy)]
pub enum Promise {
    /// Forever. Use this also if the client has only the policy's digest.
    Forever,
    /// For this many seconds after the next stored epoch begins.
    Seconds(u64),
}

/// Returns whether a promise of proofs is over. The sum may exceed 64 bits, and is exact.
fn is_over(clock: &Option<Clock>, time: u64, seconds: u64, next: u64) -> bool
    ensures { result ≡ is_over clock.now time seconds next }
{
    match clock {
        None => seconds == 0,
        Some(clock) => begins_at(clock, next) + u128::from(seconds) <= u128::from(time),
    }
}

/// Returns whether a missing epoch is lost: the policy promises no proof of it any more.
///
/// `next` is the number of the next stored epoch, `None` if the missing epoch is the latest one, which is never lost. A lost epoch
/// stays missing, and a reply for it is still accepted.
pub fn is_lost(present: &Present, promise: &Promise, next: Option<u64>) -> bool
    ensures { result ≡ is_lost present.now promise.now next }
{
    match (promise, next) {
        (Promise::Seconds(seconds), Some(next)) => {
            is_over(&present.clock, present.time, *seconds, next)
        }
        _ => false,
    }
}

/// Returns the number of the stored epoch after a place.
fn epoch_after(stored: &[StoredEntry], place: usize) -> Option<u64>
    requires { place < length stored.now }
    ensures { result ≡ epoch_after stored.now place }
{
    match stored.get(place + 1) {
        Some(next) => Some(next.epoch()),
        None => None,
    }
}

/// Returns whether the stored epoch of a place is lost, if it is missing.
pub fn lost_at(present: &Present, promise: &Promise, stored: &[StoredEntry], place: usize) -> bool
    requires { place < length stored.now }
    ensures { result ≡ lost_at present.now promise.now stored.now place }
{
    is_lost(present, promise, epoch_after(stored, place))
}
