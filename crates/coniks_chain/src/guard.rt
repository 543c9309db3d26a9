//! A guard of a signing key, which lets it sign one chain.
//!
//! The guard keeps a record of what its key has signed. Each step reads the record, computes the next one, and stores it in the
//! place of the one that it read, if that is still there. So many processes share a record. The caller has the record's bytes,
//! stores them durably, uses the key and verifies its signatures.

ghost use Rattle.std.specs.Prelude.{◌≡◌, ◌≢◌, IfErr, IfOk, OnOk};
ghost use Rattle.coniks_chain.specs.Guard.{Abandons, Adopts, Asks, IsAllowed, IsFirstAskFault, IsRefusedAbandon, IsRefusedAdopt, IsRefusedAsk, IsRefusedSign, Signs, bodies_in, made, with_abandoned};
ghost use Rattle.coniks_chain.specs.declared.guard.Effect.TheVariants.{Added, Narrowed, Same};

use crate::entry::{Body, Entry, Signature, link};
use crate::evidence::is_well_formed;
use crate::guard_record::{GuardState, RawBody};
use coniks_proof::Hash32;
use thiserror::Error;

/// What a step does to the abandoned bodies.
#[derive(Clone, Copy, Debug, PartialEq, Eq)]
pub enum Effect {
    /// They stay.
    Same,
    /// Those stay that `keep_rivals` returns for the body of the step.
    Narrowed,
    /// The body of the step is appended.
    Added,
}

/// What a step makes of a record.
#[derive(Clone, Copy, Debug, PartialEq, Eq)]
pub struct Next {
    pub guard_state: GuardState,
    pub effect: Effect,
}

/// Why a key must not sign a body. If several apply, the first in declaration order is returned.
#[derive(Clone, Copy, Debug, Drop, PartialEq, Eq, Error)]
pub enum AskFault {
    #[error("no chain has such a body")]
    Malformed,
    #[error("it follows an epoch, and nothing is recorded as signed")]
    NothingRecorded,
    #[error("it begins a directory, and that isn't allowed")]
    BeginsUnasked,
    #[error("it begins a directory, and the key has signed")]
    BeginsAgain,
    #[error("it has another policy digest than the last entry signed")]
    OtherPolicy,
    #[error("it follows an earlier epoch than the last one signed")]
    LogBehind,
    #[error("it follows a later epoch than the last one signed")]
    RecordBehind,
    #[error("it follows another entry of the last epoch signed")]
    OtherLink,
    #[error("its version is lower than that of the last entry signed")]
    VersionBack,
    #[error("its version is 1 and its nonce isn't that of the last entry signed")]
    NonceChanged,
    #[error("another body is open")]
    OtherOpen,
}

/// Why a signature is not stored.
#[derive(Clone, Copy, Debug, Drop, PartialEq, Eq, Error)]
pub enum SignFault {
    #[error("the body is not open: another step came between")]
    NotAsked,
    #[error("the signature of the last entry is not replaced while a body is open")]
    OtherOpen,
}

/// Why a body can't be abandoned.
#[derive(Clone, Copy, Debug, Drop, PartialEq, Eq, Error)]
pub enum AbandonFault {
    #[error("it follows an earlier epoch than the last one signed, so it may be signed")]
    MayBeSigned,
    #[error("it follows a later epoch than the last one signed")]
    RecordOld,
}

/// Why an entry can't be adopted.
#[derive(Clone, Copy, Debug, Drop, PartialEq, Eq, Error)]
pub enum AdoptFault {
    #[error("the record has other bodies")]
    OtherBodies,
    #[error("no chain has such an entry")]
    NoEntry,
}

impl Next {
    /// Returns what leaves a record as it is.
    fn unchanged(guard_state: &GuardState) -> Next
        ensures { result ≡ record { guard_state = guard_state.now; effect = Same } }
    {
        Next {
            guard_state: *guard_state,
            effect: Effect::Same,
        }
    }
}

/// Checks whether the key may sign a body that is not settled.
fn judge<H: Hash32>(
    h: &H,
    may_begin: bool,
    guard_state: &GuardState,
    abandoned: &[RawBody],
    body: &Body,
) -> Result<(), AskFault>
    ensures ok { OnOk result (IsAllowed (H.digest_of h.now) may_begin (with_abandoned guard_state.now (bodies_in abandoned.now)) body.now) }
    ensures err { IfErr result (IsFirstAskFault (H.digest_of h.now) may_begin (with_abandoned guard_state.now (bodies_in abandoned.now)) body.now) }
{
    if !is_well_formed(body) {
        return Err(AskFault::Malformed);
    }
    match &guard_state.signed {
        None => {
            if body.t_prev != 0 {
                return Err(AskFault::NothingRecorded);
            }
            if !may_begin {
                return Err(AskFault::BeginsUnasked);
            }
        }
        Some(last) => {
            if body.t_prev == 0 {
                return Err(AskFault::BeginsAgain);
            }
            if body.policy != last.body.policy {
                return Err(AskFault::OtherPolicy);
            }
            if body.t_prev < last.body.t {
                return Err(AskFault::LogBehind);
            }
            if body.t_prev > last.body.t {
                return Err(AskFault::RecordBehind);
            }
            if body.previous.0 != link(h, last).0 {
                return Err(AskFault::OtherLink);
            }
            if body.version < last.body.version {
                return Err(AskFault::VersionBack);
            }
            if body.version == 1 && body.nonce.0 != last.body.nonce.0 {
                return Err(AskFault::NonceChanged);
            }
        }
    }
    match &guard_state.asked {
        None => Ok(()),
        Some(other) => {
            if *other == *body {
                Ok(())
            } else {
                Err(AskFault::OtherOpen)
            }
        }
    }
}

/// Asks for the signature of a body: the key may be used for it once the next record is durable, if `answer_of` says of that record
/// that the body is unsettled.
///
/// A body that is settled changes nothing. Another one is open then. `may_begin` allows the first body of a directory.
///
/// # Errors
///
/// The first reason why the key must not sign the body.
pub fn ask<H: Hash32>(
    h: &H,
    may_begin: bool,
    guard_state: &GuardState,
    abandoned: &[RawBody],
    body: &Body,
) -> Result<Next, AskFault>
    ensures ok { IfOk result (λ next. Asks (H.digest_of h.now) may_begin (with_abandoned guard_state.now (bodies_in abandoned.now)) body.now (made next (bodies_in abandoned.now) body.now)) }
    ensures same { IfOk result (λ next. next.effect ≡ Same) }
    ensures err { IfErr result (λ fault. IsRefusedAsk (H.digest_of h.now) may_begin (with_abandoned guard_state.now (bodies_in abandoned.now)) body.now fault) }
{
    if guard_state.settles(abandoned, body) {
        return Ok(Next::unchanged(guard_state));
    }
    judge(h, may_begin, guard_state, abandoned, body)?;
    Ok(Next {
        guard_state: GuardState {
            signed: guard_state.signed,
            asked: Some(*body),
        },
        effect: Effect::Same,
    })
}

/// Stores the signature of the open body, which is the last one signed then. Verify the signature first.
///
/// A body that is settled changes nothing, but if `replaces` is true and it is that of the last entry, the signature takes the
/// place of the entry's. Pass true only if the entry's signature is not valid.
///
/// # Errors
///
/// `NotAsked` if the body is not open. `OtherOpen` if the last signature would be replaced while a body is open, which names it.
pub fn sign(
    guard_state: &GuardState,
    abandoned: &[RawBody],
    replaces: bool,
    body: &Body,
    signature: &Signature,
) -> Result<Next, SignFault>
    ensures ok { IfOk result (λ next. Signs (with_abandoned guard_state.now (bodies_in abandoned.now)) replaces body.now signature.now (made next (bodies_in abandoned.now) body.now)) }
    ensures effect { IfOk result (λ next. next.effect ≢ Added) }
    ensures err { IfErr result (λ fault. IsRefusedSign (with_abandoned guard_state.now (bodies_in abandoned.now)) replaces body.now fault) }
{
    let stored = GuardState {
        signed: Some(Entry {
            body: *body,
            signature: *signature,
        }),
        asked: None,
    };
    if replaces && guard_state.is_last(body) {
        if guard_state.asked.is_some() {
            return Err(SignFault::OtherOpen);
        }
        return Ok(Next::unchanged(&stored));
    }
    if guard_state.settles(abandoned, body) {
        return Ok(Next::unchanged(guard_state));
    }
    if !guard_state.is_open(body) {
        return Err(SignFault::NotAsked);
    }
    Ok(Next {
        guard_state: stored,
        effect: Effect::Narrowed,
    })
}

/// Abandons a body, for ever. If the stored record's `answer_of` is `Signed`, the body was signed before, and is not abandoned.
///
/// A body that is settled changes nothing.
///
/// # Errors
///
/// `MayBeSigned` or `RecordOld` if the epoch before the body is not the last one signed.
pub fn abandon(
    guard_state: &GuardState,
    abandoned: &[RawBody],
    body: &Body,
) -> Result<Next, AbandonFault>
    ensures ok { IfOk result (λ next. Abandons (with_abandoned guard_state.now (bodies_in abandoned.now)) body.now (made next (bodies_in abandoned.now) body.now)) }
    ensures effect { IfOk result (λ next. next.effect ≢ Narrowed) }
    ensures err { IfErr result (λ fault. IsRefusedAbandon (with_abandoned guard_state.now (bodies_in abandoned.now)) body.now fault) }
{
    if guard_state.settles(abandoned, body) {
        return Ok(Next::unchanged(guard_state));
    }
    let last = guard_state.last_epoch();
    if body.t_prev < last {
        return Err(AbandonFault::MayBeSigned);
    }
    if body.t_prev > last {
        return Err(AbandonFault::RecordOld);
    }
    let asked = guard_state.closed(body);
    Ok(Next {
        guard_state: GuardState {
            signed: guard_state.signed,
            asked,
        },
        effect: Effect::Added,
    })
}

/// Adopts the last entry that a key has signed without a guard. Verify its signature first.
///
/// # Errors
///
/// `OtherBodies` if the record has anything but this entry. `NoEntry` if no chain has such an entry.
pub fn adopt(
    guard_state: &GuardState,
    abandoned: &[RawBody],
    entry: &Entry,
) -> Result<Next, AdoptFault>
    ensures ok { IfOk result (λ next. Adopts (with_abandoned guard_state.now (bodies_in abandoned.now)) entry.now (made next (bodies_in abandoned.now) entry.now.body)) }
    ensures same { IfOk result (λ next. next.effect ≡ Same) }
    ensures err { IfErr result (λ fault. IsRefusedAdopt (with_abandoned guard_state.now (bodies_in abandoned.now)) entry.now fault) }
{
    if guard_state.has_signed(entry) {
        return Ok(Next::unchanged(guard_state));
    }
    if !guard_state.is_empty(abandoned) {
        return Err(AdoptFault::OtherBodies);
    }
    if !is_well_formed(&entry.body) {
        return Err(AdoptFault::NoEntry);
    }
    Ok(Next::unchanged(&GuardState {
        signed: Some(*entry),
        asked: None,
    }))
}
