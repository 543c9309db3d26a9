//! What the steps of a history showed.

ghost use Rattle.std.specs.Prelude.{◌≡◌, ◌<◌, ◌≤◌, length, take};
ghost use Rattle.coniks_proof.specs.ProofRefs.{owned};
ghost use Rattle.coniks_proof.specs.Proofs.{stated};
ghost use Rattle.coniks_client.specs.HistoryChecking.{IsWritten, answer_in, key_of};

use coniks_proof::{Answer, EndRef};

/// What a step showed: the place of its epoch among the stored ones, and the key.
#[repr(C)]
#[derive(Clone, Copy)]
pub struct ShownStep<'a> {
    /// The place of the epoch.
    pub place: usize,
    /// The key, a part of the history. It has no byte if the name is bound to no key; a key has at least one.
    pub key: &'a [u8],
    /// 1 for a key, 2 for none. 0 if the history was not accepted.
    pub shows: u32,
    /// The number that the epoch has after the history, if the name is watched there, else 0.
    pub seen: u32,
}

impl<'a> ShownStep<'a> {
    /// Returns the answer.
    pub fn answer(&self) -> Answer<'a>
        ensures { stated result ≡ answer_in self.now }
    {
        match self.key {
            [] => Answer::Absent,
            _ => Answer::Key(self.key),
        }
    }
}

/// Returns the key of an end, of no byte if it has none.
pub(crate) fn key_at<'a>(end: &EndRef<'a>) -> &'a [u8]
    ensures { result.now ≡ key_of (owned end.now) }
{
    match end {
        EndRef::Here {
            name: _,
            key,
            opening: _,
        } => *key,
        _ => &[],
    }
}

/// Writes what a step showed.
pub(crate) fn set_shown<'a>(shown: &mut [ShownStep<'a>], place: usize, one: &ShownStep<'a>)
    requires { place < length shown.old }
    ensures { IsWritten shown.old shown.new place one.now }
{
    shown[place] = *one;
}

/// Returns the first `count` steps.
pub(crate) fn first_steps<'s, 'a>(shown: &'s [ShownStep<'a>], count: usize) -> &'s [ShownStep<'a>]
    requires { count ≤ length shown.now }
    ensures { result.now ≡ take count shown.now }
{
    &shown[..count]
}
