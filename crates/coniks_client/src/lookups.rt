//! A client's lookup.

ghost use Rattle.std.specs.Prelude.{◌≡◌, ◌≢◌, ◌<◌, ◌+◌, ◌↔◌, ℕ, IfErr, IfNone, IfOk, IfSome, IsOkAnd, IsTrue, OnOk, Option, Some, None, length, slice_get};
ghost use Rattle.std.specs.Option.{option_map};
ghost use Rattle.coniks_proof.specs.Octets.{Octets};
ghost use Rattle.coniks_proof.specs.Proofs.{stated};
ghost use Rattle.coniks_client.specs.StoredEntry.{entry_in, epoch_in};
ghost use Rattle.coniks_chain.specs.Entries.{entry_from};
ghost use Rattle.coniks_client.specs.Lookups.{Answers, AnswersBy, AnswersNone, IsRequested, IsElsewhere, IsFound, IsStored, IsNotFound, IsThere, IsUnknown, IsUnvetted, IsUnvettedReply, IsVetted, IsVettedReply, Shows, ShowsBy, ShowsNone};
ghost use Rattle.coniks_client.specs.Replies.{entry_part, proof_part, vrf_part};

use crate::feeding::{EntryFault, evidence_of, verified};
use crate::replies::{Reply, ReplyFault};
use crate::stored::StoredEntry;
use crate::times::{AgeFault, Present, lateness};
use coniks_chain::{ENTRY_BYTES, Entry, Evidence, Verify};
use coniks_proof::{Answer, CheckFault, Hash32, Index, ProofRef, WireFault, check_ref};
use thiserror::Error;

/// Verifies where names are stored: a VRF (RFC 9381), or another index scheme of the directory.
pub trait IndexScheme {
    ghost use Rattle.coniks_proof.specs.declared.values.Index.{Index};

    /// The index that a proof of a name verifies to, if it does.
    ghost index_of: { Self → Octets → Octets → Option Octets };

    /// Returns the index of a name, if the proof is one of this name.
    fn index(&self, name: &[u8], proof: &[u8]) -> Option<Index>
        ensures { option_map (λ index. index.0) result ≡ index_of self.now name.now proof.now };
}

/// The error of a reply that is refused. If several apply, the first in declaration order is returned.
#[derive(Clone, Copy, Debug, Drop, PartialEq, Eq, Error)]
pub enum LookupFault {
    #[error("the bytes are no reply: {0}")]
    NoReply(ReplyFault),
    #[error("the reply's entry is none of this directory: {0}")]
    OfEntry(EntryFault),
    #[error("the reply's entry and a kept one are evidence against the directory")]
    Equivocation(Evidence),
    #[error("the chain has no entry at the asked epoch")]
    UnknownEpoch,
    #[error("the reply's body isn't that of the chain's entry at the asked epoch")]
    OtherEpoch,
    /// None was requested by its number.
    #[error("the latest epoch isn't that of the present: {0}")]
    OffTime(AgeFault),
    #[error("the VRF proof isn't one of this name")]
    VrfProof,
    #[error("the bytes after the VRF proof are no proof's: {0}")]
    Wire(WireFault),
    #[error("the proof is refused: {0}")]
    Check(CheckFault),
}

/// What an accepted reply shows: the place of its epoch among the stored ones, and the answer, whose key is a part of the reply.
#[derive(Clone, Copy)]
pub struct Found<'a> {
    pub place: usize,
    pub answer: Answer<'a>,
}

/// Who verifies: the caller's hash, signature scheme and index scheme, for a policy and at a time.
#[derive(Drop)]
pub struct Verifier<'a, H, V, S> {
    pub hash: &'a H,
    pub signatures: &'a V,
    pub indices: &'a S,
    /// The policy digest of the directory.
    pub policy: &'a [u8; 32],
    pub present: Present,
}

/// A name that is looked up, the requested epoch, the latest one if it is `None`, and the bytes of the reply.
#[derive(Clone, Copy)]
pub struct Asking<'a> {
    pub name: &'a [u8],
    pub epoch: Option<u64>,
    pub reply: &'a [u8],
}

/// A stored epoch, and its place.
#[derive(Clone, Copy)]
pub struct Place {
    pub place: usize,
    pub mine: StoredEntry,
}

/// Returns the stored epoch at a place.
pub fn stored_at(stored: &[StoredEntry], place: usize) -> Place
    requires { place < length stored.now }
    ensures place { result.place ≡ place }
    ensures there { slice_get stored.now place ≡ Some result.mine }
{
    let mine = stored[place];
    Place { place, mine }
}

/// Returns the stored epoch of a number where a chain has it: the epochs of a chain rise.
fn stored_near(stored: &[StoredEntry], epoch: u64) -> Option<Place>
    ensures { IfSome result (λ found. (slice_get stored.now found.place ≡ Some found.mine) × (epoch_in found.mine ≡ epoch)) }
{
    let place = stored.partition_point(|mine| mine.epoch() < epoch);
    if place == stored.len() {
        return None;
    }
    let found = stored_at(stored, place);
    if found.mine.epoch() == epoch {
        Some(found)
    } else {
        None
    }
}

/// Returns the first stored epoch of a number.
fn first_stored(stored: &[StoredEntry], epoch: u64) -> Option<Place>
    ensures some { IfSome result (λ found. (slice_get stored.now found.place ≡ Some found.mine) × (epoch_in found.mine ≡ epoch)) }
    ensures none { IfNone result ((k : ℕ) (mine : StoredEntry) → slice_get stored.now k ≡ Some mine → epoch_in mine ≢ epoch) }
{
    for (place, mine) in stored.iter().enumerate() {
        if mine.epoch() == epoch {
            return Some(Place { place, mine: *mine });
        }
    }
    None
}

/// Returns the stored epoch of a number.
///
/// It is searched by halves. Only a number that no stored epoch has is looked for in all of them, in any order.
pub fn stored_of(stored: &[StoredEntry], epoch: u64) -> Option<Place>
    ensures some { IfSome result (λ found. (slice_get stored.now found.place ≡ Some found.mine) × (epoch_in found.mine ≡ epoch)) }
    ensures none { IfNone result ((k : ℕ) (mine : StoredEntry) → slice_get stored.now k ≡ Some mine → epoch_in mine ≢ epoch) }
{
    match stored_near(stored, epoch) {
        Some(found) => Some(found),
        None => first_stored(stored, epoch),
    }
}

/// Returns whether a stored entry has these bytes.
fn has_bytes(mine: &StoredEntry, bytes: &[u8; ENTRY_BYTES]) -> bool
    ensures { IsTrue result ↔ (mine.now.entry ≡ bytes.now) }
{
    mine.entry == *bytes
}

/// Returns whether these bytes are stored where a chain has their epoch.
fn is_near(stored: &[StoredEntry], bytes: &[u8; ENTRY_BYTES]) -> bool
    ensures { IsTrue result → IsStored stored.now bytes.now }
{
    match stored_near(stored, Entry::read(bytes).body.t) {
        Some(found) => has_bytes(&found.mine, bytes),
        None => false,
    }
}

/// Returns whether these bytes are stored: then their signature was verified before.
pub fn is_stored(stored: &[StoredEntry], bytes: &[u8; ENTRY_BYTES]) -> bool
    ensures { IsTrue result ↔ (IsStored stored.now bytes.now) }
{
    is_near(stored, bytes) || stored.iter().any(|mine| has_bytes(mine, bytes))
}

/// Returns why the entry of a reply is neither stored nor one of this directory that convicts with none.
fn unvetted<V: Verify>(
    policy: &[u8; 32],
    stored: &[StoredEntry],
    bytes: &[u8; ENTRY_BYTES],
    verify: &V,
) -> Option<LookupFault>
    ensures none { IfNone result (IsVetted (V.verdict_of verify.now) policy.now stored.now bytes.now) }
    ensures some { IfSome result (λ fault. IsUnvetted (V.verdict_of verify.now) policy.now stored.now bytes.now fault) }
{
    if is_stored(stored, bytes) {
        return None;
    }
    let entry = match verified(policy, stored, bytes, verify) {
        Ok(entry) => entry,
        Err(fault) => return Some(LookupFault::OfEntry(fault)),
    };
    match evidence_of(stored, &entry) {
        Some(evidence) => Some(LookupFault::Equivocation(evidence)),
        None => None,
    }
}

/// Returns the latest stored epoch.
fn latest_stored(stored: &[StoredEntry]) -> Option<Place>
    ensures some { IfSome result (λ found. (slice_get stored.now found.place ≡ Some found.mine) × (found.place + 1 ≡ length stored.now)) }
    ensures none { IfNone result (length stored.now ≡ 0) }
{
    if stored.is_empty() {
        return None;
    }
    Some(stored_at(stored, stored.len() - 1))
}

/// Returns the requested epoch, or the latest one if none is requested.
fn requested(stored: &[StoredEntry], epoch: Option<u64>) -> Option<Place>
    ensures there { IfSome result (λ found. slice_get stored.now found.place ≡ Some found.mine) }
    ensures some { IfSome result (λ found. IsRequested stored.now epoch found.place) }
    ensures none { IfNone result (IsUnknown stored.now epoch) }
{
    match epoch {
        Some(epoch) => stored_of(stored, epoch),
        None => latest_stored(stored),
    }
}

/// Returns whether the body of an entry's bytes is that of an entry.
pub fn same_body(bytes: &[u8; ENTRY_BYTES], entry: &Entry) -> bool
    ensures { IsTrue result ↔ ((entry_from bytes.now).body ≡ entry.now.body) }
{
    Entry::read(bytes).body == entry.body
}

/// Returns the requested epoch, if its entry has the body of these bytes.
fn requested_body(
    present: &Present,
    stored: &[StoredEntry],
    epoch: Option<u64>,
    bytes: &[u8; ENTRY_BYTES],
) -> Result<Place, LookupFault>
    ensures ok { IfOk result (λ found. IsThere present.now stored.now epoch (entry_from bytes.now).body found.place found.mine) }
    ensures err { IfErr result (λ fault. IsElsewhere present.now stored.now epoch (entry_from bytes.now).body fault) }
{
    let Some(found) = requested(stored, epoch) else {
        return Err(LookupFault::UnknownEpoch);
    };
    if !same_body(bytes, &found.mine.entry()) {
        return Err(LookupFault::OtherEpoch);
    }
    if let Some(fault) = lateness(present, epoch, found.mine.entry().body.t) {
        return Err(LookupFault::OffTime(fault));
    }
    Ok(found)
}

/// Returns the parts of a reply whose entry is stored, or one of this directory.
fn vetted_reply<'a, V: Verify>(
    policy: &[u8; 32],
    stored: &[StoredEntry],
    bytes: &'a [u8],
    verify: &V,
) -> Result<Reply<'a>, LookupFault>
    ensures entry { IfOk result (λ reply. reply.entry.now ≡ entry_part bytes.now) }
    ensures vrf { IfOk result (λ reply. reply.vrf.now ≡ vrf_part bytes.now) }
    ensures proof { IfOk result (λ reply. reply.proof.now ≡ proof_part bytes.now) }
    ensures ok { OnOk result (IsVettedReply (V.verdict_of verify.now) policy.now stored.now bytes.now) }
    ensures err { IfErr result (λ fault. IsUnvettedReply (V.verdict_of verify.now) policy.now stored.now bytes.now fault) }
{
    let reply = match Reply::read(bytes) {
        Ok(reply) => reply,
        Err(fault) => return Err(LookupFault::NoReply(fault)),
    };
    match unvetted(policy, stored, reply.entry, verify) {
        Some(fault) => Err(fault),
        None => Ok(reply),
    }
}

/// A proof, and the answer with which it is accepted.
#[derive(Drop)]
struct Proven<'a> {
    proof: ProofRef<'a>,
    answer: Answer<'a>,
}

/// The VRF proof and the proof in a reply, with the index and the answer that they are accepted with.
#[derive(Drop)]
pub struct Saved<'a> {
    pub vrf: &'a [u8],
    pub index: Index,
    pub proof: ProofRef<'a>,
    pub answer: Answer<'a>,
}

/// Returns the proof that bytes are, if it is accepted under an entry.
fn shown<'a, H: Hash32>(
    h: &H,
    entry: &Entry,
    index: &Index,
    name: &[u8],
    bytes: &'a [u8],
) -> Result<Proven<'a>, LookupFault>
    ensures ok { IfOk result (λ p. ShowsBy (H.digest_of h.now) entry.now index.now.0 name.now bytes.now p.proof p.answer) }
    ensures exact { (answer : Option Octets) → Shows (H.digest_of h.now) entry.now index.now.0 name.now bytes.now answer
        → IsOkAnd result (λ p. stated p.answer ≡ answer) }
    ensures err { IfErr result (λ fault. ShowsNone (H.digest_of h.now) entry.now index.now.0 name.now bytes.now fault) }
{
    let proof = match ProofRef::read(bytes) {
        Ok(proof) => proof,
        Err(fault) => return Err(LookupFault::Wire(fault)),
    };
    let body = &entry.body;
    match check_ref(h, &body.nonce, &body.root, index, name, &proof) {
        Ok(answer) => Ok(Proven { proof, answer }),
        Err(fault) => Err(LookupFault::Check(fault)),
    }
}

/// Returns what the VRF proof and the proof of a reply show of a name under an entry.
///
/// # Errors
///
/// If several apply, the first in this order is returned.
///
/// - `VrfProof` if the VRF proof is not one of this name.
/// - `Wire` if the bytes after it are no proof's.
/// - `Check` if the proof is refused.
pub fn saved_answer<'a, H: Hash32, S: IndexScheme>(
    h: &H,
    scheme: &S,
    entry: &Entry,
    name: &[u8],
    reply: &Reply<'a>,
) -> Result<Saved<'a>, LookupFault>
    ensures ok { IfOk result (λ saved. AnswersBy (H.digest_of h.now) (S.index_of scheme.now) entry.now name.now reply.now.vrf.now reply.now.proof.now saved) }
    ensures exact { (answer : Option Octets) → Answers (H.digest_of h.now) (S.index_of scheme.now) entry.now name.now reply.now.vrf.now reply.now.proof.now answer
        → IsOkAnd result (λ saved. stated saved.answer ≡ answer) }
    ensures err { IfErr result (λ fault. AnswersNone (H.digest_of h.now) (S.index_of scheme.now) entry.now name.now reply.now.vrf.now reply.now.proof.now fault) }
{
    let Some(index) = scheme.index(name, reply.vrf) else {
        return Err(LookupFault::VrfProof);
    };
    match shown(h, entry, &index, name, reply.proof) {
        Ok(Proven { proof, answer }) => Ok(Saved {
            vrf: reply.vrf,
            index,
            proof,
            answer,
        }),
        Err(fault) => Err(fault),
    }
}

/// Returns what the VRF proof and the proof of a reply show of a name under a stored entry.
fn answer_of<'a, H: Hash32, S: IndexScheme>(
    h: &H,
    scheme: &S,
    mine: &StoredEntry,
    name: &[u8],
    reply: &Reply<'a>,
) -> Result<Answer<'a>, LookupFault>
    ensures ok { IfOk result (λ answer. Answers (H.digest_of h.now) (S.index_of scheme.now) (entry_in mine.now) name.now reply.now.vrf.now reply.now.proof.now (stated answer)) }
    ensures err { IfErr result (λ fault. AnswersNone (H.digest_of h.now) (S.index_of scheme.now) (entry_in mine.now) name.now reply.now.vrf.now reply.now.proof.now fault) }
{
    match saved_answer(h, scheme, &mine.entry(), name, reply) {
        Ok(saved) => Ok(saved.answer),
        Err(fault) => Err(fault),
    }
}

/// Returns what a reply shows of a name, at the requested epoch, or at the latest one if none is requested.
///
/// Nothing is changed. [`look_up`](crate::steps::look_up) also marks what a watched name shows.
///
/// # Errors
///
/// If several apply, the first in the order of [`LookupFault`] is returned.
pub fn lookup<'a, H: Hash32, V: Verify, S: IndexScheme>(
    by: &Verifier<'_, H, V, S>,
    stored: &[StoredEntry],
    asking: &Asking<'a>,
) -> Result<Found<'a>, LookupFault>
    ensures ok { IfOk result (λ found. IsFound by.now.present (H.digest_of by.now.hash.now) (V.verdict_of by.now.signatures.now) (S.index_of by.now.indices.now)
        by.now.policy.now stored.now asking.now.name.now asking.now.reply.now asking.now.epoch found.place (stated found.answer)) }
    ensures within { IfOk result (λ found. found.place < length stored.now) }
    ensures err { IfErr result (λ fault. IsNotFound by.now.present (H.digest_of by.now.hash.now) (V.verdict_of by.now.signatures.now) (S.index_of by.now.indices.now)
        by.now.policy.now stored.now asking.now.name.now asking.now.reply.now asking.now.epoch fault) }
{
    let reply = match vetted_reply(by.policy, stored, asking.reply, by.signatures) {
        Ok(reply) => reply,
        Err(fault) => return Err(fault),
    };
    let found = match requested_body(&by.present, stored, asking.epoch, reply.entry) {
        Ok(found) => found,
        Err(fault) => return Err(fault),
    };
    match answer_of(by.hash, by.indices, &found.mine, asking.name, &reply) {
        Ok(answer) => Ok(Found {
            place: found.place,
            answer,
        }),
        Err(fault) => Err(fault),
    }
}
