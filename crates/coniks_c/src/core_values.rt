//! What crosses between C and the client's core.

ghost use Rattle.std.specs.Prelude.{◌≡◌, ◌-◌, IfSome, length};
ghost use Rattle.coniks_proof.specs.Proofs.{stated};
ghost use Rattle.coniks_c.specs.CoreStatuses.{seen_of, shows_of};
ghost use Rattle.coniks_c.specs.CoreReported.{requested_epoch, watch_in};

use crate::values::Bytes32;
use coniks_client::{IndexScheme, Shown, Watch};
use coniks_proof::{Answer, Index};

/// The watched name. The caller keeps the bytes of the name and of the key.
#[repr(C)]
#[derive(Clone, Copy)]
pub struct RawWatch<'a> {
    /// 1 if a name is watched. Nothing else is read if not.
    pub is_watched: u32,
    pub name: &'a [u8],
    /// The first watched epoch.
    pub since: u64,
    /// The key that epochs show before the first change; no byte if the name must be bound to none.
    pub key: &'a [u8],
}

/// An entry that the client received.
#[repr(C)]
#[derive(Clone, Copy)]
pub struct RawReceived<'a> {
    pub entry: &'a [u8],
    /// 1 if the caller found the entry's signature valid for its first 145 bytes.
    pub signature: u32,
    /// When it was received, in Unix seconds.
    pub time: u64,
}

/// A name that is looked up, and the reply.
#[repr(C)]
#[derive(Clone, Copy)]
pub struct RawAsking<'a> {
    pub name: &'a [u8],
    pub reply: &'a [u8],
    /// 1 if `epoch` is requested, and not the latest one.
    pub is_requested: u32,
    pub epoch: u64,
    /// When the reply was received, in Unix seconds.
    pub time: u64,
}

/// What the caller has verified: 1 for what is valid.
#[repr(C)]
#[derive(Clone, Copy)]
pub struct RawVerdicts {
    /// Of the entry's signature.
    pub signature: u32,
    /// Of the VRF proof: that it is one of the name.
    pub index: u32,
    /// The index that it gives.
    pub at: Bytes32,
}

/// More on a refused entry.
#[repr(C)]
#[derive(Clone, Copy)]
pub struct RawWhy {
    /// Why an entry that convicts does not follow, 33 to 39, else 0.
    pub status: u32,
    /// The kind of the evidence, 1 to 3; 0 if there is none.
    pub kind: u32,
    /// The place of the stored entry that convicts with the refused one; SIZE_MAX if it convicts alone.
    pub mine: usize,
}

/// What the caller has to verify of a reply, as parts of it.
#[repr(C)]
#[derive(Clone, Copy)]
pub struct RawNeeds {
    /// 1 if the signature of the entry must be verified, 0 if the client keeps these bytes.
    pub signature: u32,
    /// The place of the entry's 209 bytes.
    pub entry_start: usize,
    /// The place of the VRF proof, and its length.
    pub vrf_start: usize,
    pub vrf_length: usize,
}

/// What an accepted reply shows.
#[repr(C)]
#[derive(Clone, Copy)]
pub struct RawFound {
    /// The place of its epoch among the stored ones.
    pub place: usize,
    /// 1 for a key, 2 for none.
    pub shows: u32,
    /// What the epoch shows of the watched name now; 0 if the name is not watched there.
    pub seen: u32,
    /// The place of the key in the reply, and its length; 0 for none.
    pub key_start: usize,
    pub key_length: usize,
}

impl RawFound {
    /// Returns what a reply shows, whose last bytes are the key's.
    pub(crate) fn of(shown: &Shown<'_>, reply: &[u8]) -> RawFound
        ensures place { result.place ≡ shown.now.place }
        ensures shows { result.shows ≡ shows_of (stated shown.now.answer) }
        ensures seen { result.seen ≡ seen_of shown.now.number }
        ensures start { IfSome (stated shown.now.answer) (λ key. result.key_start ≡ length reply.now - length key) }
        ensures length { IfSome (stated shown.now.answer) (λ key. result.key_length ≡ length key) }
    {
        let key_length = match &shown.answer {
            Answer::Key(key) => key.len(),
            Answer::Absent => 0,
        };
        RawFound {
            place: shown.place,
            shows: shows_number(&shown.answer),
            seen: seen_number(&shown.number),
            key_start: reply.len().saturating_sub(key_length),
            key_length,
        }
    }
}

impl<'a> RawWatch<'a> {
    /// Returns the watched name, if there is one.
    pub(crate) fn watch(&self) -> Option<Watch<'a>>
        ensures { result ≡ watch_in self.now }
    {
        if self.is_watched == 1 {
            Some(Watch {
                name: self.name,
                since: self.since,
                key: self.key,
            })
        } else {
            None
        }
    }
}

impl RawAsking<'_> {
    /// Returns the requested epoch, if one is requested.
    pub(crate) fn requested(&self) -> Option<u64>
        ensures { result ≡ requested_epoch self.now.is_requested self.now.epoch }
    {
        if self.is_requested == 1 {
            Some(self.epoch)
        } else {
            None
        }
    }
}

/// The caller's result of verifying a VRF proof.
#[derive(Clone, Copy)]
pub(crate) struct ReportedIndex {
    /// 1 if the proof is one of the name.
    pub verdict: u32,
    pub index: Index,
}

impl IndexScheme for ReportedIndex {
    ghost use Rattle.coniks_c.specs.CoreReported.{reported_index};

    ghost index_of = { λ reported name proof. reported_index reported.verdict reported.index.0 };

    fn index(&self, _name: &[u8], _proof: &[u8]) -> Option<Index> {
        if self.verdict == 1 {
            Some(self.index)
        } else {
            None
        }
    }
}

/// Returns the number of what is shown.
pub(crate) fn shows_number(answer: &Answer<'_>) -> u32
    ensures { result ≡ shows_of (stated answer.now) }
{
    match answer {
        Answer::Key(_) => 1,
        Answer::Absent => 2,
    }
}

/// Returns the number of what an epoch shows of the watched name.
pub(crate) fn seen_number(number: &Option<u8>) -> u32
    ensures { result ≡ seen_of number.now }
{
    match number {
        Some(number) => u32::from(*number),
        None => 0,
    }
}
