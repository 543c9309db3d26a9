//! The auditor of a chain.

ghost use Rattle.std.specs.Prelude.{◌≡◌, Option, Some, None, OnOk, OnErr, IfOk, IfErr, length};
ghost use Rattle.coniks_chain.specs.Chain.{Follows, GoodChain, IsFirstEntryFault, IsFirstRefused, before_at, auditor_after, head_after};

use crate::entry::{Entry, link};
use crate::signer::Verify;
use coniks_proof::{Digest, Hash32, Head, Nonce};
use std::marker::Model;
use thiserror::Error;

/// The error of an entry that is not accepted. If several apply, the first in declaration order is returned.
#[derive(Clone, Copy, Debug, Drop, PartialEq, Eq, Error)]
pub enum AuditFault {
    #[error("the version is neither 1 nor 2")]
    Version,
    #[error("the version is lower than that of the entry before")]
    VersionBack,
    #[error("the first epoch is 0")]
    FirstEpoch,
    #[error("the epoch isn't later than that of the entry before")]
    NotLater,
    #[error("the previous epoch isn't that of the entry before")]
    PreviousEpoch,
    #[error("the previous link isn't that of the entry before")]
    PreviousLink,
    #[error("the version is 1 and the nonce isn't that of the entry before")]
    NonceChanged,
    #[error("the signature isn't valid for this body")]
    Verdict,
}

/// The state of an auditor after an entry: the values that the next entry is compared with.
///
/// It is all that an auditor keeps beside its hash. Copy it, store it, compare it, and continue from it with
/// `Auditor::resume`.
#[derive(Clone, Copy, Debug, PartialEq, Eq)]
pub struct AuditorState {
    /// The entry's epoch.
    pub t: u64,
    /// Its link, which the next entry contains.
    pub link: Digest,
    /// Its version. No later entry has a lower one.
    pub version: u8,
    /// Its nonce. A next entry of version 1 has the same one.
    pub nonce: Nonce,
}

/// Checks an entry against the state before it.
fn judge<V: Verify>(
    before: &Option<AuditorState>,
    entry: &Entry,
    verify: &V,
) -> Result<(), AuditFault>
    ensures ok { OnOk result (Follows (V.verdict_of verify.now) before.now entry.now) }
    ensures err { IfErr result (IsFirstEntryFault (V.verdict_of verify.now) before.now entry.now) }
{
    let body = &entry.body;
    if body.version != 1 && body.version != 2 {
        return Err(AuditFault::Version);
    }
    match before {
        None => {
            if body.t == 0 {
                return Err(AuditFault::FirstEpoch);
            }
            if body.t_prev != 0 {
                return Err(AuditFault::PreviousEpoch);
            }
            if body.previous.0 != [0; 32] {
                return Err(AuditFault::PreviousLink);
            }
        }
        Some(before) => {
            if body.version < before.version {
                return Err(AuditFault::VersionBack);
            }
            if body.t <= before.t {
                return Err(AuditFault::NotLater);
            }
            if body.t_prev != before.t {
                return Err(AuditFault::PreviousEpoch);
            }
            if body.previous.0 != before.link.0 {
                return Err(AuditFault::PreviousLink);
            }
            if body.version == 1 && body.nonce.0 != before.nonce.0 {
                return Err(AuditFault::NonceChanged);
            }
        }
    }
    if !verify.verdict(&body.bytes(), &entry.signature) {
        return Err(AuditFault::Verdict);
    }
    Ok(())
}

/// Returns the state after an entry.
pub fn auditor_after<H: Hash32>(h: &H, entry: &Entry) -> AuditorState
    ensures { result ≡ auditor_after (H.digest_of h.now) entry.now }
{
    AuditorState {
        t: entry.body.t,
        link: link(h, entry),
        version: entry.body.version,
        nonce: entry.body.nonce,
    }
}

/// Returns the head of a state: its epoch and its link.
fn head_of(before: Option<AuditorState>) -> Option<Head>
    ensures { result ≡ head_after before }
{
    before.map(|before| Head {
        epoch: before.t,
        link: before.link,
    })
}

/// Follows a chain entry by entry, and keeps the values that the next entry is compared with. Allocates nothing.
#[derive(Drop)]
pub struct Auditor<H> {
    h: H,
    before: Option<AuditorState>,
}

impl<H> Model for Auditor<H> {
    ghost use Rattle.std.specs.Prelude.{Option};
    ghost use Rattle.coniks_chain.specs.declared.auditor.AuditorState.{AuditorState};

    ghost Value = { H × Option AuditorState };

    ghost view = { λ a. (a.h, a.before) };
}

impl<H: Hash32 + Drop> Auditor<H> {
    /// Returns an auditor that has seen no entry.
    pub fn new(h: H) -> Self
        ensures { result ≡ (h, None) }
    {
        Auditor { h, before: None }
    }

    /// Returns an auditor that continues from the state of another one of the same hash.
    ///
    /// `None` is the state of an auditor that has seen no entry. The state is not checked, so the caller trusts its
    /// storage.
    pub fn resume(h: H, before: Option<AuditorState>) -> Self
        ensures { result ≡ (h, before) }
    {
        Auditor { h, before }
    }

    /// Returns the state after the last accepted entry, for `resume`, or `None` before the first.
    pub fn state(&self) -> Option<AuditorState>
        ensures { result ≡ self.now.1 }
    {
        self.before
    }

    /// Returns the head of the last accepted entry, its epoch and its link, or `None` before the first.
    ///
    /// Computes no hash.
    pub fn head(&self) -> Option<Head>
        ensures { result ≡ head_after self.now.1 }
    {
        head_of(self.before)
    }

    /// Returns the hash that links entries.
    pub(crate) fn hasher(&self) -> &H
        ensures { result.now ≡ self.now.0 }
    {
        &self.h
    }

    /// Checks whether an entry would be accepted.
    pub(crate) fn judge<V: Verify>(&self, entry: &Entry, verify: &V) -> Result<(), AuditFault>
        ensures ok { OnOk result (Follows (V.verdict_of verify.now) self.now.1 entry.now) }
        ensures err { IfErr result (IsFirstEntryFault (V.verdict_of verify.now) self.now.1 entry.now) }
    {
        judge(&self.before, entry, verify)
    }

    /// Stores the values that the next entry is compared with.
    pub(crate) fn keep(&mut self, entry: &Entry)
        ensures { self.new ≡ (self.old.0, Some (auditor_after (H.digest_of self.old.0) entry.now)) }
    {
        self.before = Some(auditor_after(&self.h, entry));
    }

    /// Accepts an entry that follows the last accepted one.
    ///
    /// # Errors
    ///
    /// If several apply, the first in this order is returned. After an error the auditor is unchanged.
    ///
    /// - `Version` if the version is neither 1 nor 2.
    /// - `VersionBack` if the version is lower than that of the entry before.
    /// - `FirstEpoch` if the first entry's epoch is 0.
    /// - `NotLater` if the epoch is not later than that of the entry before.
    /// - `PreviousEpoch` if the epoch before is wrong; for the first entry it is 0.
    /// - `PreviousLink` if the link before is wrong; for the first entry it is 32 zero bytes.
    /// - `NonceChanged` if an entry of version 1 does not have the nonce of the entry before.
    /// - `Verdict` if the signature is not one for the body.
    pub fn feed<V: Verify>(&mut self, entry: &Entry, verify: &V) -> Result<(), AuditFault>
        ensures ok { OnOk result (Follows (V.verdict_of verify.now) self.old.1 entry.now) }
        ensures retained { OnOk result (self.new ≡ (self.old.0, Some (auditor_after (H.digest_of self.old.0) entry.now))) }
        ensures err { IfErr result (IsFirstEntryFault (V.verdict_of verify.now) self.old.1 entry.now) }
        ensures unchanged { OnErr result (self.new ≡ self.old) }
    {
        self.judge(entry, verify)?;
        self.keep(entry);
        Ok(())
    }
}

/// Audits a chain from its first entry, and returns its head, or `None` if there are no entries.
///
/// Allocates nothing.
///
/// # Errors
///
/// The position of the first entry that does not follow, counted from 0, and its error, as of `Auditor::feed`.
pub fn audit<H: Hash32, V: Verify>(
    h: &H,
    entries: &[Entry],
    verify: &V,
) -> Result<Option<Head>, (usize, AuditFault)>
    ensures ok { OnOk result (GoodChain (H.digest_of h.now) (V.verdict_of verify.now) entries.now) }
    ensures head { IfOk result (λ head. head ≡ head_after (before_at (H.digest_of h.now) None entries.now (length entries.now))) }
    ensures err { IfErr result (λ refused. IsFirstRefused (H.digest_of h.now) (V.verdict_of verify.now) None entries.now refused.0 refused.1) }
{
    let mut before = None;
    for (i, entry) in entries.iter().enumerate() {
        if let Err(fault) = judge(&before, entry, verify) {
            return Err((i, fault));
        }
        before = Some(auditor_after(h, entry));
    }
    Ok(head_of(before))
}
