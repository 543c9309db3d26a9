//! The steps of a client over the epochs that it keeps.

ghost use Rattle.std.specs.Prelude.{◌≡◌, ◌<◌, ℕ, List, IfErr, IfOk, OnErr, IfSome, OnOk, Option, Some, length, slice_get};
ghost use Rattle.coniks_proof.specs.Octets.{Octets};
ghost use Rattle.coniks_client.specs.Feeding.{AreOwn, IsRefusedFeed};
ghost use Rattle.coniks_client.specs.StoredEntry.{IsChain, entry_in, epoch_in};
ghost use Rattle.coniks_client.specs.Changes.{wanted};
ghost use Rattle.coniks_client.specs.Owner.{IsBacked, IsShown, IsWatched, Scheme};
ghost use Rattle.coniks_client.specs.Steps.{AreMarked, IsAccepted, Marks, again_stored, given_changes, given_number, is_watched, stored_with, new_stored, new_number};
ghost use Rattle.coniks_client.specs.Lookups.{IsFound, IsNotFound};
ghost use Rattle.coniks_client.specs.declared.changes.Change.{Change as ChangeOne};
ghost use Rattle.coniks_client.specs.declared.stored.StoredEntry.{StoredEntry as StoredOne};
ghost use Rattle.coniks_proof.specs.Proofs.{stated};

use crate::changes::{Change, mark_changes};
use crate::feeding::{EntryFault, FeedFault, fault_after, signed_again, verified};
use crate::lookups::{Asking, IndexScheme, LookupFault, Verifier, lookup, stored_at};
use crate::stored::StoredEntry;
use crate::watching::{UNWATCHED, Watch};
use coniks_chain::{ENTRY_BYTES, Entry, Verify};
use coniks_proof::{Answer, Hash32};

/// Returns the number of a new epoch.
fn new_number(watch: &Option<Watch<'_>>, epoch: u64) -> u8
    ensures { result ≡ new_number watch.now epoch }
{
    match watch {
        None => UNWATCHED,
        Some(watch) => watch.first(epoch),
    }
}

/// An entry that a client is fed: its bytes, the client's policy digest, and the Unix time in seconds.
#[derive(Clone, Copy)]
pub struct Fed<'a> {
    pub policy: &'a [u8; 32],
    pub entry: &'a [u8],
    pub time: u64,
}

/// An accepted entry, and what to keep of it.
#[derive(Clone, Copy)]
pub enum Accepted {
    /// It continues the chain: append this to the stored epochs.
    Next(StoredEntry),
    /// It is the latest entry, signed again: put this in the place of the latest stored epoch.
    Again(StoredEntry),
}

/// Returns what is stored of an entry that continues the chain.
fn new_stored(watch: &Option<Watch<'_>>, bytes: &[u8; ENTRY_BYTES], time: u64) -> StoredEntry
    ensures { result ≡ new_stored watch.now bytes.now time }
{
    StoredEntry {
        entry: *bytes,
        first_seen: time.to_be_bytes(),
        seen: new_number(watch, Entry::read(bytes).body.t),
    }
}

/// Returns what is stored of the latest entry, signed again.
fn again_stored(latest: &StoredEntry, bytes: &[u8; ENTRY_BYTES]) -> StoredEntry
    ensures { result ≡ again_stored latest.now bytes.now }
{
    StoredEntry {
        entry: *bytes,
        first_seen: latest.first_seen,
        seen: latest.seen,
    }
}

/// Accepts an entry: the next one, or the latest one, signed again.
///
/// A directory can sign the body of its latest entry again, with another signature. The next entry links to one of the two. So a
/// client that keeps the other one goes on if it is fed the entry again: this takes the place of the latest stored epoch. When the
/// epoch was first seen and what was seen of it stay. An auditor's head that was equal at this epoch is of the signature before, and
/// must not count any longer (`coniks_quorum::marks::unmark`).
///
/// # Errors
///
/// If several apply, the first in the order of [`FeedFault`] is returned.
pub fn feed<H: Hash32 + Drop, V: Verify>(
    h: H,
    verify: &V,
    stored: &[StoredEntry],
    watch: &Option<Watch<'_>>,
    fed: &Fed<'_>,
) -> Result<Accepted, FeedFault>
    ensures ok { IfOk result (IsAccepted (H.digest_of h) (V.verdict_of verify.now) fed.now.policy.now stored.now watch.now fed.now.entry.now fed.now.time) }
    ensures err { IfErr result (λ fault. IsRefusedFeed (H.digest_of h) (V.verdict_of verify.now) fed.now.policy.now stored.now fed.now.entry.now fault) }

    // The stored epochs are a chain of this directory again, and each that shows what was expected has a proof behind it.
    ensures own { IfOk result (λ accepted. AreOwn fed.now.policy.now stored.now → AreOwn fed.now.policy.now (stored_with stored.now accepted)) }
    ensures chain { IfOk result (λ accepted. IsChain (H.digest_of h) stored.now → IsChain (H.digest_of h) (stored_with stored.now accepted)) }
    ensures backed { IfOk result (λ accepted. (scheme : Scheme) (name : Octets) (expected : ℕ → Option Octets)
        → IsBacked (H.digest_of h) scheme name expected stored.now → IsBacked (H.digest_of h) scheme name expected (stored_with stored.now accepted)) }
    ensures watched { IfOk result (λ accepted. (scheme : Scheme) (name : Octets) (key : Option Octets) (changes : List ChangeOne)
        → IsWatched (H.digest_of h) scheme name key changes stored.now → IsWatched (H.digest_of h) scheme name key changes (stored_with stored.now accepted)) }
{
    let Ok(whole) = <&[u8; ENTRY_BYTES]>::try_from(fed.entry) else {
        return Err(FeedFault::OfEntry(EntryFault::EntryLength));
    };
    let entry = match verified(fed.policy, stored, whole, verify) {
        Ok(entry) => entry,
        Err(fault) => return Err(FeedFault::OfEntry(fault)),
    };
    match signed_again(stored, &entry) {
        Some(latest) => return Ok(Accepted::Again(again_stored(&latest, whole))),
        None => {}
    }
    match fault_after(h, stored, &entry) {
        Some(fault) => Err(fault),
        None => Ok(Accepted::Next(new_stored(watch, whole, fed.time))),
    }
}

/// What an accepted reply shows: the place of its epoch, its answer, and the number that the epoch has now, if the name is
/// watched there.
#[derive(Clone, Copy)]
pub struct Shown<'a> {
    pub place: usize,
    pub answer: Answer<'a>,
    pub number: Option<u8>,
}

/// Returns whether a name is watched at an epoch.
fn is_watched(watch: &Watch<'_>, name: &[u8], epoch: u64) -> bool
    ensures { result ≡ is_watched watch.now name.now epoch }
{
    name == watch.name && watch.since <= epoch
}

/// Returns the number that an answer gives its epoch, if the name is watched there.
pub fn given_number(
    watch: &Option<Watch<'_>>,
    changes: &[Change<'_>],
    name: &[u8],
    epoch: u64,
    answer: &Answer<'_>,
) -> Option<u8>
    ensures { result ≡ given_number watch.now changes.now name.now epoch (stated answer.now) }
{
    match watch {
        None => None,
        Some(watch) => {
            if is_watched(watch, name, epoch) {
                Some(watch.seen(changes, epoch, answer))
            } else {
                None
            }
        }
    }
}

/// Marks the changes, if the name is watched there.
pub fn give_changes(
    watch: &Option<Watch<'_>>,
    changes: &mut [Change<'_>],
    name: &[u8],
    epoch: u64,
    answer: &Answer<'_>,
)
    ensures { changes.new ≡ given_changes watch.now changes.old name.now epoch (stated answer.now) }
{
    match watch {
        None => {}
        Some(watch) => {
            if is_watched(watch, name, epoch) {
                mark_changes(watch.key, changes, epoch, answer);
            }
        }
    }
}

/// Changes the number at a place.
pub(crate) fn set_number(stored: &mut [StoredEntry], place: usize, number: u8)
    requires { place < length stored.old }
    ensures { AreMarked stored.old stored.new place number }
{
    stored[place].seen = number;
}

/// Changes the number at a place, if there is one.
pub fn mark(stored: &mut [StoredEntry], place: usize, number: &Option<u8>)
    requires { place < length stored.old }
    ensures { Marks stored.old stored.new place number.now }
{
    match number {
        Some(number) => set_number(stored, place, *number),
        None => {}
    }
}

/// Returns what a reply shows of a name, at the requested epoch, or at the latest one if none is requested.
///
/// If the name is watched there, the epoch then has the number of what was seen, and the changes are marked. After an error nothing is
/// changed.
///
/// # Errors
///
/// If several apply, the first in the order of [`LookupFault`] is returned.
pub fn look_up<'a, H: Hash32, V: Verify, S: IndexScheme>(
    by: &Verifier<'_, H, V, S>,
    stored: &mut [StoredEntry],
    watch: &Option<Watch<'_>>,
    changes: &mut [Change<'_>],
    asking: &Asking<'a>,
) -> Result<Shown<'a>, LookupFault>
    ensures ok { IfOk result (λ shown. IsFound by.now.present (H.digest_of by.now.hash.now) (V.verdict_of by.now.signatures.now) (S.index_of by.now.indices.now)
        by.now.policy.now stored.old asking.now.name.now asking.now.reply.now asking.now.epoch shown.place (stated shown.answer)) }
    ensures number { IfOk result (λ shown. (mine : StoredOne) → slice_get stored.old shown.place ≡ Some mine
        → shown.number ≡ given_number watch.now changes.old asking.now.name.now (epoch_in mine) (stated shown.answer)) }
    ensures changes { IfOk result (λ shown. (mine : StoredOne) → slice_get stored.old shown.place ≡ Some mine
        → changes.new ≡ given_changes watch.now changes.old asking.now.name.now (epoch_in mine) (stated shown.answer)) }
    ensures marks { IfOk result (λ shown. Marks stored.old stored.new shown.place shown.number) }
    ensures err { IfErr result (λ fault. IsNotFound by.now.present (H.digest_of by.now.hash.now) (V.verdict_of by.now.signatures.now) (S.index_of by.now.indices.now)
        by.now.policy.now stored.old asking.now.name.now asking.now.reply.now asking.now.epoch fault) }
    ensures unchanged { OnErr result (stored.new ≡ stored.old) }
    ensures unmarked { OnErr result (changes.new ≡ changes.old) }

    // The answer was shown under the stored entry, which is what the owner law asks of both clients.
    ensures shown { IfOk result (λ shown. (mine : StoredOne) → slice_get stored.old shown.place ≡ Some mine
        → IsShown (H.digest_of by.now.hash.now) (S.index_of by.now.indices.now) (entry_in mine) asking.now.name.now (stated shown.answer)) }

    // The stored epochs are still a chain, and each that shows what is expected has a proof behind it.
    ensures chain { OnOk result (IsChain (H.digest_of by.now.hash.now) stored.old → IsChain (H.digest_of by.now.hash.now) stored.new) }
    ensures watched { OnOk result (IfSome watch.now (λ watch. IsWatched (H.digest_of by.now.hash.now) (S.index_of by.now.indices.now) watch.name.now (wanted watch.key.now) changes.old stored.old
        → IsWatched (H.digest_of by.now.hash.now) (S.index_of by.now.indices.now) watch.name.now (wanted watch.key.now) changes.new stored.new)) }
{
    let found = match lookup(by, stored, asking) {
        Ok(found) => found,
        Err(fault) => return Err(fault),
    };
    let epoch = stored_at(stored, found.place).mine.epoch();
    let number = given_number(watch, changes, asking.name, epoch, &found.answer);
    mark(stored, found.place, &number);
    give_changes(watch, changes, asking.name, epoch, &found.answer);
    Ok(Shown {
        place: found.place,
        answer: found.answer,
        number,
    })
}
