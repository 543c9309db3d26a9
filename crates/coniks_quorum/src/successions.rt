//! A client that goes on in the directory that a succession names.

ghost use Rattle.std.specs.Prelude.{◌≡◌, ◌<◌, Option, IfErr, IfNone, IfOk, IfSome, IsTrue, ◌↔◌, OnOk, slice_get};
ghost use Rattle.std.specs.Int.{to_be_bytes, w64};
ghost use Rattle.coniks_proof.specs.Octets.{Octets};
ghost use Rattle.coniks_client.specs.Changes.{AreInOrder, expected, is_accepted, wanted};
ghost use Rattle.coniks_client.specs.Comparing.{Compares};
ghost use Rattle.coniks_client.specs.declared.comparing.Comparison.TheVariants.{Equal};
ghost use Rattle.coniks_quorum.specs.Successions.{HasFirst, IsMisnamed, IsNamed, IsNoLast, IsNotFirst, IsRefusedSuccession, Succeeds, carried, changes_of, latest_number, moved, open_at};

use crate::vouching::{StartVerifier, head_of};
use coniks_chain::{ENTRY_BYTES, Verify};
use coniks_client::changes::{Change, settle};
use coniks_client::comparing::{Comparison, compare};
use coniks_client::feeding::{EntryFault, verified};
use coniks_client::stored::StoredEntry;
use coniks_client::watching::{UNWATCHED, Watch};
use coniks_proof::{Hash32, Head};

/// The lines of a succession, and whether the successor key of the policy that ends signed them.
#[derive(Clone, Copy)]
pub struct Succession {
    /// Whether the caller found the signature valid.
    pub is_signed: bool,
    /// The digest of the policy that ends.
    pub policy: [u8; 32],
    /// The last head of its chain.
    pub last: Head,
    /// The digest of the policy that goes on.
    pub next_policy: [u8; 32],
    /// The first head of its chain that counts.
    pub first: Head,
}

/// Why a client does not go on by a succession. The first error in declaration order is returned.
#[derive(Clone, Copy)]
pub enum SuccessionFault {
    /// The succession ends another policy.
    SuccessionPolicy,
    /// The successor key of the policy did not sign it.
    SuccessionSignature,
    /// It names another policy to go on.
    NextPolicy,
    /// No stored entry covers the last epoch.
    UnknownEpoch,
    /// Another stored entry covers the last epoch.
    ChainDiffers,
    /// The bytes are no entry of the next directory.
    OfEntry(EntryFault),
    /// The entry is not the first one that counts.
    OtherStart,
}

/// A client whose chain ends: the policy digest of its directory, and its stored epochs.
#[derive(Clone, Copy)]
pub struct Ending<'a> {
    pub policy: &'a [u8; 32],
    pub stored: &'a [StoredEntry],
}

/// Where a client goes on.
#[derive(Clone, Copy)]
pub struct Passage {
    /// The place of the last epoch in the chain that ends. Entries after it are void.
    pub place: usize,
    /// The first stored epoch in the chain that goes on.
    pub mine: StoredEntry,
}

/// What of a watch goes on.
#[derive(Clone, Copy)]
pub struct Carried<'a> {
    pub watch: Watch<'a>,
    pub change: Option<Change<'a>>,
}

/// Returns the error of a succession that is of other policies, or is not signed.
fn naming_fault(
    succession: &Succession,
    policy: &[u8; 32],
    next: &[u8; 32],
) -> Option<SuccessionFault>
    ensures none { IfNone result (IsNamed policy.now next.now succession.now) }
    ensures some { IfSome result (λ fault. IsMisnamed policy.now next.now succession.now fault) }
{
    if succession.policy != *policy {
        return Some(SuccessionFault::SuccessionPolicy);
    }
    if !succession.is_signed {
        return Some(SuccessionFault::SuccessionSignature);
    }
    if succession.next_policy != *next {
        return Some(SuccessionFault::NextPolicy);
    }
    None
}

/// Returns the place of the last epoch.
fn last_place<H: Hash32>(
    h: &H,
    stored: &[StoredEntry],
    last: &Head,
) -> Result<usize, SuccessionFault>
    ensures ok { IfOk result (λ place. Compares (H.digest_of h.now) stored.now last.now (Equal place)) }
    ensures err { IfErr result (λ fault. IsNoLast (H.digest_of h.now) stored.now last.now fault) }
{
    match compare(h, stored, last) {
        Comparison::Equal(place) => Ok(place),
        Comparison::Differs => Err(SuccessionFault::ChainDiffers),
        Comparison::Unknown => Err(SuccessionFault::UnknownEpoch),
    }
}

/// Returns whether two heads are the same.
fn are_same(own: &Head, head: &Head) -> bool
    ensures { IsTrue result ↔ (own.now ≡ head.now) }
{
    own.epoch == head.epoch && own.link == head.link
}

/// Returns the bytes of the first entry that counts.
fn first_entry<H: Hash32, V: Verify>(
    by: &StartVerifier<'_, H, V>,
    first: &Head,
    bytes: &[u8],
) -> Result<[u8; ENTRY_BYTES], SuccessionFault>
    ensures ok { OnOk result (HasFirst (H.digest_of by.now.hash.now) (V.verdict_of by.now.signatures.now) by.now.policy.now first.now bytes.now) }
    ensures whole { IfOk result (λ whole. whole ≡ bytes.now) }
    ensures err { IfErr result (λ fault. IsNotFirst (H.digest_of by.now.hash.now) (V.verdict_of by.now.signatures.now) by.now.policy.now first.now bytes.now fault) }
{
    let Ok(whole) = <&[u8; ENTRY_BYTES]>::try_from(bytes) else {
        return Err(SuccessionFault::OfEntry(EntryFault::EntryLength));
    };
    let entry = match verified(by.policy, &[], bytes, by.signatures) {
        Ok(entry) => entry,
        Err(fault) => return Err(SuccessionFault::OfEntry(fault)),
    };
    if !are_same(&head_of(by.hash, &entry), first) {
        return Err(SuccessionFault::OtherStart);
    }
    Ok(*whole)
}

/// Returns where a client goes on by a succession, with the first entry of the next chain that counts.
///
/// `by` has the policy digest of the next directory, and verifies its signatures. `now` is the Unix time in seconds. The marks of the
/// next client are 0. No name is watched at the epoch until the caller says so.
///
/// # Errors
///
/// If several apply, the first in the order of [`SuccessionFault`] is returned.
pub fn succeeded<H: Hash32, V: Verify>(
    by: &StartVerifier<'_, H, V>,
    ending: &Ending<'_>,
    succession: &Succession,
    bytes: &[u8],
    now: u64,
) -> Result<Passage, SuccessionFault>
    ensures ok { IfOk result (λ passage. Succeeds (H.digest_of by.now.hash.now) (V.verdict_of by.now.signatures.now) ending.now.policy.now by.now.policy.now ending.now.stored.now succession.now bytes.now passage.place) }
    ensures entry { IfOk result (λ passage. passage.mine.entry ≡ bytes.now) }
    ensures time { IfOk result (λ passage. passage.mine.first_seen ≡ to_be_bytes w64 now) }
    ensures seen { IfOk result (λ passage. passage.mine.seen ≡ 0) }
    ensures err { IfErr result (λ fault. IsRefusedSuccession (H.digest_of by.now.hash.now) (V.verdict_of by.now.signatures.now) ending.now.policy.now by.now.policy.now ending.now.stored.now succession.now bytes.now fault) }
{
    match naming_fault(succession, ending.policy, by.policy) {
        Some(fault) => return Err(fault),
        None => {}
    }
    let place = match last_place(by.hash, ending.stored, &succession.last) {
        Ok(place) => place,
        Err(fault) => return Err(fault),
    };
    match first_entry(by, &succession.first, bytes) {
        Ok(whole) => Ok(Passage {
            place,
            mine: StoredEntry {
                entry: whole,
                first_seen: now.to_be_bytes(),
                seen: UNWATCHED,
            },
        }),
        Err(fault) => Err(fault),
    }
}

/// Returns the change at a place, if there is one.
fn change_at<'a>(changes: &[Change<'a>], place: usize) -> Option<Change<'a>>
    ensures { result ≡ slice_get changes.now place }
{
    changes.get(place).copied()
}

/// Returns a change that is open at the last epoch, in the numbers of the next chain.
fn moved<'a>(change: &Change<'a>, last: u64, first: u64) -> Change<'a>
    requires { last < change.now.first_new }
    ensures { result ≡ moved last first change.now }
{
    Change {
        last_old: first.saturating_sub(1),
        first_new: first.saturating_add(change.first_new - last),
        key: change.key,
    }
}

/// Returns the next change in the numbers of the next chain, if it is open at the last epoch.
fn open_at<'a>(next: &Option<Change<'a>>, last: u64, first: u64) -> Option<Change<'a>>
    requires { IfSome next.now (λ change. last < change.first_new) }
    ensures { result ≡ open_at last first next.now }
{
    match next {
        Some(change) if change.last_old < last => Some(moved(change, last, first)),
        _ => None,
    }
}

/// Returns what of a watch goes on: the key that is expected at the last epoch, and the change that is open there.
///
/// The name is watched from the first epoch of the next chain that counts on.
pub fn carry<'a>(watch: &Watch<'a>, changes: &[Change<'a>], succession: &Succession) -> Carried<'a>
    ensures name { result.watch.name ≡ watch.now.name }
    ensures since { result.watch.since ≡ succession.now.first.epoch }
    ensures key { wanted result.watch.key.now ≡ expected (wanted watch.now.key.now) changes.now succession.now.last.epoch }
    ensures change { result.change ≡ carried changes.now succession.now.last.epoch succession.now.first.epoch }

    // The changes are in order. At the first epoch that counts exactly that is accepted, and expected, that was at the last one.
    ensures order { 0 < succession.now.first.epoch → AreInOrder 0 (changes_of result.change) }
    ensures expects { succession.now.first.epoch < latest_number
        → expected (wanted result.watch.key.now) (changes_of result.change) succession.now.first.epoch ≡ expected (wanted watch.now.key.now) changes.now succession.now.last.epoch }
    ensures accepts { (answer : Option Octets) → 0 < succession.now.first.epoch → succession.now.first.epoch < latest_number
        → is_accepted (wanted result.watch.key.now) (changes_of result.change) succession.now.first.epoch answer ≡ is_accepted (wanted watch.now.key.now) changes.now succession.now.last.epoch answer }
{
    let last = succession.last.epoch;
    let stage = settle(watch.key, changes, last);
    let next = change_at(changes, stage.count);
    Carried {
        watch: Watch {
            name: watch.name,
            since: succession.first.epoch,
            key: stage.key,
        },
        change: open_at(&next, last, succession.first.epoch),
    }
}
