//! What a client sees of the watched name.

ghost use Rattle.std.specs.Prelude.{◌≡◌};
ghost use Rattle.coniks_proof.specs.Proofs.{stated};
ghost use Rattle.coniks_client.specs.Watching.{first_number, other_number, seen_number};

use crate::changes::{Change, is_accepted};
use coniks_proof::Answer;

/// The number of an epoch that is not watched.
pub const UNWATCHED: u8 = 0;

/// The number of an epoch that shows the expected key.
pub const SAME: u8 = 1;

/// The number of an epoch that shows another key.
pub const CHANGED: u8 = 3;

/// The number of an epoch that shows no key, though one is expected.
pub const ABSENT: u8 = 4;

/// The number of an epoch of which no reply was accepted.
pub const MISSING: u8 = 5;

/// The watched name, and the key that epochs from `since` on must show before the first change: no byte if they must show no key.
#[derive(Clone, Copy)]
pub struct Watch<'a> {
    pub name: &'a [u8],
    pub since: u64,
    pub key: &'a [u8],
}

/// Returns the number of an answer that is not accepted.
fn other_number(answer: &Answer<'_>) -> u8
    ensures { result ≡ other_number (stated answer.now) }
{
    match answer {
        Answer::Key(_) => CHANGED,
        Answer::Absent => ABSENT,
    }
}

impl Watch<'_> {
    /// Returns the number of what an epoch shows.
    pub fn seen(&self, changes: &[Change<'_>], epoch: u64, answer: &Answer<'_>) -> u8
        ensures { result ≡ seen_number self.now changes.now epoch (stated answer.now) }
    {
        if is_accepted(self.key, changes, epoch, answer) {
            SAME
        } else {
            other_number(answer)
        }
    }

    /// Returns the number of an epoch of which no reply was accepted yet.
    pub fn first(&self, epoch: u64) -> u8
        ensures { result ≡ first_number self.now epoch }
    {
        if epoch < self.since {
            UNWATCHED
        } else {
            MISSING
        }
    }
}
