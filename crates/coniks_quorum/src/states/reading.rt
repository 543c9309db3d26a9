//! Reading a state.

ghost use Rattle.std.specs.Prelude.{◌≡◌, ◌≤◌, ◌↔◌, ◌++◌, ◌∷◌, All, IfErr, IfNone, IfOk, IfSome, IsOkAnd, IsTrue, Option, length, map, slice_index};
ghost use Rattle.std.specs.Option.{option_map};
ghost use Rattle.coniks_proof.specs.Octets.{Octets};
ghost use Rattle.coniks_quorum.specs.StateForms.{AlarmFits, Fits, IsStateOf};
ghost use Rattle.coniks_quorum.specs.StateReading.{IsNoState, IsOpened, IsRest, IsWatch, IsWatched, body_in, digest_in, policy_in};
ghost use Rattle.coniks_quorum.specs.Saved.{SavedState, SavedWatch, alarm_from, stored_from};
ghost use Rattle.coniks_quorum.specs.Says.{Says, SaysWatch, SaysWatched};

use crate::states::forms::{alarms_fit, all_fit, are_changes};
use crate::states::parts::{Front, Named, STORED_BYTES, split_front, split_named};
use crate::states::state::{State, Watched};
use coniks_client::watching::Watch;
use coniks_proof::{Digest, Hash32};
use thiserror::Error;

/// The number of bytes of a state without stored epochs, alarms and marks, and without a watched name.
const STATE_BYTES: usize = 110;

/// The version that a state begins with.
pub(crate) const STATE_VERSION: u8 = 3;

/// The kind of a watch that is none.
pub(crate) const NO_WATCH: u8 = 0;

/// The kind of a watch with a name.
pub(crate) const WATCH: u8 = 1;

/// The error of bytes that are no state of a client. If several apply, the first in declaration order is returned.
#[derive(Clone, Copy, Debug, Drop, PartialEq, Eq, Error)]
pub enum StateFault {
    #[error("the state is shorter than 110 bytes")]
    StateLength,
    #[error("the state's version isn't 3")]
    StateVersion,
    #[error("the state's digest isn't that of the bytes before it")]
    StateDamaged,
    #[error("the state's policy digest isn't the client's")]
    StatePolicy,
    #[error("a part of the state has a wrong form")]
    StateForm,
}

/// Returns the hash of bytes.
pub(crate) fn hash_of<H: Hash32>(h: &H, bytes: &[u8]) -> Digest
    ensures value { result.0 ≡ H.digest_of h.now bytes.now }
    ensures size { length result.0 ≡ 32 }
{
    h.hash(&[bytes])
}

/// Returns whether two byte strings are the same.
pub(crate) fn are_same(a: &[u8], b: &[u8]) -> bool
    ensures { IsTrue result ↔ (a.now ≡ b.now) }
{
    a == b
}

/// Returns whether the last 32 bytes are the hash of those before.
fn is_whole<H: Hash32>(h: &H, bytes: &[u8]) -> bool
    requires { 32 ≤ length bytes.now }
    ensures whole { IsTrue result ↔ (digest_in bytes.now ≡ H.digest_of h.now (body_in bytes.now)) }
    ensures size { length (H.digest_of h.now (body_in bytes.now)) ≡ 32 }
{
    let body = &bytes[..bytes.len() - 32];
    let digest = &bytes[bytes.len() - 32..];
    let hash = hash_of(h, body);
    are_same(digest, &hash.0)
}

/// Returns whether bytes are of a policy.
fn has_policy(policy: &[u8; 32], bytes: &[u8]) -> bool
    requires { 33 ≤ length bytes.now }
    ensures { IsTrue result ↔ (policy_in bytes.now ≡ policy.now) }
{
    are_same(&bytes[1..33], policy)
}

/// Returns what is between the policy digest and the digest.
fn rest_of(bytes: &[u8]) -> &[u8]
    requires { 110 ≤ length bytes.now }
    ensures { body_in bytes.now ≡ slice_index bytes.now 0 ∷ policy_in bytes.now ++ result.now }
{
    &bytes[33..bytes.len() - 32]
}

/// Returns why bytes are not whole, or not of a policy.
fn fault_of<H: Hash32>(h: &H, policy: &[u8; 32], bytes: &[u8]) -> Option<StateFault>
    ensures some { IfSome result (λ fault. IsNoState (H.digest_of h.now) policy.now bytes.now fault) }
    ensures none { IfNone result (IsOpened (H.digest_of h.now) policy.now bytes.now) }
{
    if bytes.len() < STATE_BYTES {
        return Some(StateFault::StateLength);
    }
    if bytes[0] != STATE_VERSION {
        return Some(StateFault::StateVersion);
    }
    if !is_whole(h, bytes) {
        return Some(StateFault::StateDamaged);
    }
    if !has_policy(policy, bytes) {
        return Some(StateFault::StatePolicy);
    }
    None
}

/// Returns a watched name with the bytes of its changes.
fn watched_of<'a>(named: &Named<'a>, changes: &'a [u8]) -> Watched<'a>
    ensures name { result.watch.name.now ≡ named.now.name.now }
    ensures since { result.watch.since ≡ named.now.since }
    ensures key { result.watch.key.now ≡ named.now.key.now }
    ensures count { result.count ≡ named.now.count }
    ensures changes { result.changes.now ≡ changes.now }
{
    let watch = Watch {
        name: named.name,
        since: named.since,
        key: named.key,
    };
    Watched {
        watch,
        count: named.count,
        changes,
    }
}

/// Reads a watched name and its changes.
fn read_watched<'a>(stored: &[[u8; STORED_BYTES]], bytes: &'a [u8]) -> Option<Watched<'a>>
    ensures some { IfSome result (λ watched. (saved : SavedWatch) × IsWatched (map stored_from stored.now) saved bytes.now × SaysWatched watched saved) }
    ensures none { IfNone result ((saved : SavedWatch) → ¬ IsWatched (map stored_from stored.now) saved bytes.now) }
{
    let Some((named, changes)) = split_named(bytes) else {
        return None;
    };
    if !are_changes(stored, &named, changes) {
        return None;
    }
    Some(watched_of(&named, changes))
}

/// Reads the watch: none, or a watched name and its changes.
fn read_watch<'a>(stored: &[[u8; STORED_BYTES]], bytes: &'a [u8]) -> Option<Option<Watched<'a>>>
    ensures some { IfSome result (λ watch. (saved : Option SavedWatch) × IsWatch (map stored_from stored.now) saved bytes.now × SaysWatch watch saved) }
    ensures none { IfNone result ((saved : Option SavedWatch) → ¬ IsWatch (map stored_from stored.now) saved bytes.now) }
{
    let Some((kind, rest)) = bytes.split_first() else {
        return None;
    };
    if *kind == NO_WATCH {
        return if rest.is_empty() { Some(None) } else { None };
    }
    if *kind != WATCH {
        return None;
    }
    match read_watched(stored, rest) {
        Some(watched) => Some(Some(watched)),
        None => None,
    }
}

/// Returns the first watched epoch, if a name is watched.
fn since_of(watch: &Option<Watched<'_>>) -> Option<u64>
    ensures { result ≡ option_map (λ watched. watched.watch.since) watch.now }
{
    match watch {
        None => None,
        Some(watched) => Some(watched.watch.since),
    }
}

/// Returns whether each stored epoch and each alarm has a number that it can have.
fn front_fits(front: &Front<'_>, since: Option<u64>) -> bool
    ensures { IsTrue result ↔ (All (Fits since) (map stored_from front.now.stored.now) × All (AlarmFits since) (map alarm_from front.now.alarms.now)) }
{
    all_fit(front.stored, since) && alarms_fit(front.alarms, since)
}

/// Reads what is between the policy digest and the digest.
fn read_parts(bytes: &[u8]) -> Option<State<'_>>
    ensures some { IfSome result (λ state. (policy : Octets) → length policy ≡ 32
        → (saved : SavedState) × (saved.policy ≡ policy) × IsRest saved bytes.now × Says state saved) }
    ensures none { IfNone result ((saved : SavedState) → ¬ IsRest saved bytes.now) }
{
    let Some((front, rest)) = split_front(bytes) else {
        return None;
    };
    let Some(watch) = read_watch(front.stored, rest) else {
        return None;
    };
    if !front_fits(&front, since_of(&watch)) {
        return None;
    }
    Some(State {
        stored: front.stored,
        alarms: front.alarms,
        trust: front.trust,
        marks: front.marks,
        watch,
    })
}

/// Reads a client's state. The parts are borrowed from its bytes.
///
/// The chain of the stored epochs is not checked. [`restore`](crate::states::restoring::restore) checks it.
///
/// # Errors
///
/// If several apply, the first in the order of [`StateFault`] is returned.
pub fn read<'a, H: Hash32>(
    h: &H,
    policy: &[u8; 32],
    bytes: &'a [u8],
) -> Result<State<'a>, StateFault>
    ensures ok { IfOk result (λ state. (saved : SavedState) × IsStateOf (H.digest_of h.now) policy.now saved bytes.now × Says state saved) }
    ensures err { IfErr result (λ fault. IsNoState (H.digest_of h.now) policy.now bytes.now fault) }

    // A state is read back from its bytes.
    ensures back { (saved : SavedState) → IsStateOf (H.digest_of h.now) policy.now saved bytes.now → IsOkAnd result (λ state. Says state saved) }
{
    if let Some(fault) = fault_of(h, policy, bytes) {
        return Err(fault);
    }
    match read_parts(rest_of(bytes)) {
        Some(state) => Ok(state),
        None => Err(StateFault::StateForm),
    }
}
