//! A client's chain, entry by entry.

ghost use Rattle.std.specs.Prelude.{◌≡◌, ◌≢◌, ◌↔◌, true, IfErr, IfNone, IfOk, IfSome, IsTrue, OnOk, Some, length};
ghost use Rattle.coniks_chain.specs.Chain.{Follows, IsFirstEntryFault};
ghost use Rattle.coniks_chain.specs.Entries.{entry_from, entry_length};
ghost use Rattle.coniks_chain.specs.Evidence.{IsWellFormed};
ghost use Rattle.coniks_client.specs.Feeding.{Gives, IsConvicted, IsForeign, IsNotNext, IsNotSignedAgain, IsOwn, IsRefusedAlone, IsSigned, IsSignedAgain, IsUnsigned, IsVerified};
ghost use Rattle.coniks_client.specs.StoredEntry.{entry_in, latest_in, verified_before};

use crate::stored::{StoredEntry, latest};
use coniks_chain::{
    AuditFault, Auditor, BODY_BYTES, ENTRY_BYTES, Entry, Evidence, Signature, Verify, convicts,
    is_well_formed,
};
use coniks_proof::Hash32;
use thiserror::Error;

/// What convicts the directory with a refused entry.
#[derive(Clone, Copy, Debug, Drop, PartialEq, Eq)]
pub enum Conviction {
    /// The first stored entry that does, with it.
    With(Evidence),
    /// The refused entry alone: no stored one does, and no chain contains it.
    Alone,
}

/// The error of bytes that are no entry of this directory. If several apply, the first in declaration order is returned.
#[derive(Clone, Copy, Debug, Drop, PartialEq, Eq, Error)]
pub enum EntryFault {
    #[error("the entry isn't 209 bytes long")]
    EntryLength,
    #[error("the signature isn't valid for this body")]
    Signature,
    #[error("the policy digest isn't the client's")]
    OtherPolicy(Option<Conviction>),
    #[error("no chain contains the entry")]
    Malformed(Conviction),
}

/// The error of an entry that is not accepted. If several apply, the first in declaration order is returned.
#[derive(Clone, Copy, Debug, Drop, PartialEq, Eq, Error)]
pub enum FeedFault {
    /// It is none of this directory.
    #[error("the bytes are no entry of this directory: {0}")]
    OfEntry(EntryFault),
    /// It does not follow, and convicts with a stored entry.
    #[error("the entry and a kept one are evidence against the directory: {1}")]
    Equivocation(Evidence, AuditFault),
    #[error("the entry doesn't continue the chain: {0}")]
    NotNext(AuditFault),
}

/// Signatures that were verified before.
struct VerifiedBefore;

impl Verify for VerifiedBefore {
    ghost verdict_of = { λ reported body signature. true };

    fn verdict(&self, _body: &[u8; BODY_BYTES], _signature: &Signature) -> bool {
        true
    }
}

/// Returns the first stored entry that convicts with another entry, and the first kind of evidence that both are.
///
/// Both are evidence against the owner of the signing key if their signatures are valid.
pub fn evidence_of(stored: &[StoredEntry], entry: &Entry) -> Option<Evidence>
    ensures { Gives stored.now entry.now result }
{
    for (place, mine) in stored.iter().enumerate() {
        match convicts(&mine.entry(), entry) {
            Some(kind) => return Some(Evidence { place, kind }),
            None => {}
        }
    }
    None
}

/// Returns the entry that bytes are.
fn entry_of(bytes: &[u8]) -> Option<Entry>
    ensures whole { IfSome result (λ _. length bytes.now ≡ entry_length) }
    ensures from { IfSome result (λ entry. entry ≡ entry_from bytes.now) }
    ensures other { IfNone result (length bytes.now ≢ entry_length) }
{
    let bytes = <&[u8; ENTRY_BYTES]>::try_from(bytes).ok()?;
    Some(Entry::read(bytes))
}

/// Returns the entry that bytes are, if it is signed.
///
/// # Errors
///
/// `EntryLength` if they are not 209 bytes, then `Signature` if the signature is not valid.
pub fn signed<V: Verify>(bytes: &[u8], verify: &V) -> Result<Entry, EntryFault>
    ensures from { IfOk result (λ entry. entry ≡ entry_from bytes.now) }
    ensures ok { OnOk result (IsSigned (V.verdict_of verify.now) bytes.now) }
    ensures err { IfErr result (λ fault. IsUnsigned (V.verdict_of verify.now) bytes.now fault) }
{
    let Some(entry) = entry_of(bytes) else {
        return Err(EntryFault::EntryLength);
    };
    if !verify.verdict(&entry.body.bytes(), &entry.signature) {
        return Err(EntryFault::Signature);
    }
    Ok(entry)
}

/// Returns what convicts with an entry that no chain contains.
fn conviction_of(stored: &[StoredEntry], entry: &Entry) -> Conviction
    ensures { ¬ IsWellFormed entry.now.body → IsConvicted stored.now entry.now (Some result) }
{
    match evidence_of(stored, entry) {
        Some(evidence) => Conviction::With(evidence),
        None => Conviction::Alone,
    }
}

/// Returns what convicts with a signed entry of another policy, if something does.
fn conviction_of_other(stored: &[StoredEntry], entry: &Entry) -> Option<Conviction>
    ensures { IsConvicted stored.now entry.now result }
{
    if !is_well_formed(&entry.body) {
        return Some(conviction_of(stored, entry));
    }
    match evidence_of(stored, entry) {
        Some(evidence) => Some(Conviction::With(evidence)),
        None => None,
    }
}

/// Returns the error of a signed entry alone.
fn fault_alone(policy: &[u8; 32], stored: &[StoredEntry], entry: &Entry) -> Option<EntryFault>
    ensures none { IfNone result (IsOwn policy.now entry.now) }
    ensures some { IfSome result (λ fault. IsForeign policy.now stored.now entry.now fault) }
{
    if entry.body.policy != *policy {
        return Some(EntryFault::OtherPolicy(conviction_of_other(stored, entry)));
    }
    if !is_well_formed(&entry.body) {
        return Some(EntryFault::Malformed(conviction_of(stored, entry)));
    }
    None
}

/// Returns the entry that bytes are, if it is one of this directory.
///
/// # Errors
///
/// If several apply, the first in the order of [`EntryFault`] is returned.
pub fn verified<V: Verify>(
    policy: &[u8; 32],
    stored: &[StoredEntry],
    bytes: &[u8],
    verify: &V,
) -> Result<Entry, EntryFault>
    ensures from { IfOk result (λ entry. entry ≡ entry_from bytes.now) }
    ensures ok { OnOk result (IsVerified (V.verdict_of verify.now) policy.now bytes.now) }
    ensures err { IfErr result (λ fault. IsRefusedAlone (V.verdict_of verify.now) policy.now stored.now bytes.now fault) }
{
    let entry = signed(bytes, verify)?;
    match fault_alone(policy, stored, &entry) {
        Some(fault) => Err(fault),
        None => Ok(entry),
    }
}

/// Returns whether a verified entry follows the last stored one, or begins the chain.
fn follow<H: Hash32 + Drop>(h: H, stored: &[StoredEntry], entry: &Entry) -> Result<(), AuditFault>
    ensures ok { OnOk result (Follows verified_before (latest_in (H.digest_of h) stored.now) entry.now) }
    ensures err { IfErr result (IsFirstEntryFault verified_before (latest_in (H.digest_of h) stored.now) entry.now) }
{
    let before = latest(&h, stored);
    let mut auditor = Auditor::resume(h, before);
    auditor.feed(entry, &VerifiedBefore)
}

/// Returns whether an entry has the body of a stored one.
fn has_body(mine: &StoredEntry, entry: &Entry) -> bool
    ensures { IsTrue result ↔ (entry.now.body ≡ (entry_in mine.now).body) }
{
    entry.body == mine.entry().body
}

/// Returns whether an entry has the signature of a stored one.
fn has_signature(mine: &StoredEntry, entry: &Entry) -> bool
    ensures { IsTrue result ↔ (entry.now.signature ≡ (entry_in mine.now).signature) }
{
    entry.signature == mine.entry().signature
}

/// Returns the latest stored epoch, if an entry has its body and another signature.
pub(crate) fn signed_again(stored: &[StoredEntry], entry: &Entry) -> Option<StoredEntry>
    ensures some { IfSome result (λ latest. IsSignedAgain stored.now latest entry.now) }
    ensures none { IfNone result (IsNotSignedAgain stored.now entry.now) }
{
    let Some(latest) = stored.last() else {
        return None;
    };
    if has_body(latest, entry) && !has_signature(latest, entry) {
        Some(*latest)
    } else {
        None
    }
}

/// Returns the error of a verified entry after the stored ones.
pub(crate) fn fault_after<H: Hash32 + Drop>(
    h: H,
    stored: &[StoredEntry],
    entry: &Entry,
) -> Option<FeedFault>
    ensures none { IfNone result (Follows verified_before (latest_in (H.digest_of h) stored.now) entry.now) }
    ensures some { IfSome result (λ fault. IsNotNext (H.digest_of h) stored.now entry.now fault) }
{
    let Err(fault) = follow(h, stored, entry) else {
        return None;
    };
    match evidence_of(stored, entry) {
        Some(evidence) => Some(FeedFault::Equivocation(evidence, fault)),
        None => Some(FeedFault::NotNext(fault)),
    }
}
