//! A change of the watched key that its owner makes.

ghost use Rattle.std.specs.Prelude.{◌≡◌, ◌≤◌, ◌↔◌, ℕ, List, IfErr, IfNone, IfOk, IfSome, IsTrue, OnOk};
ghost use Rattle.coniks_client.specs.Changes.{AreInOrder, Keeps, expected, wanted, with_change};
ghost use Rattle.coniks_client.specs.Expecting.{MayExpect, MayNotExpect};
ghost use Rattle.coniks_proof.specs.Octets.{Octets};
ghost use Rattle.coniks_client.specs.Owner.{AreUpTo, IsWatched, Scheme};
ghost use Rattle.coniks_client.specs.declared.stored.StoredEntry.{StoredEntry};

use crate::changes::{Change, stage_at};
use thiserror::Error;

/// The error of a change of the key that can't be expected. If several apply, the first in declaration order is returned.
#[derive(Clone, Copy, Debug, Drop, PartialEq, Eq, Error)]
pub enum ExpectFault {
    #[error("an earlier change of the key is open")]
    ChangeOpen,
    #[error("the new key is the one that is expected already")]
    SameKey,
    #[error("the epoch by which the new key is expected isn't later than the latest one")]
    NotLater,
}

/// Returns whether two expected keys are the same.
fn are_same(a: &[u8], b: &[u8]) -> bool
    ensures { IsTrue result ↔ (wanted a.now ≡ wanted b.now) }
{
    *a == *b
}

/// Returns why a change can't be expected.
fn expect_fault(
    key: &[u8],
    changes: &[Change<'_>],
    latest: u64,
    new: &[u8],
    by: u64,
) -> Option<ExpectFault>
    ensures none { IfNone result (MayExpect (wanted key.now) changes.now latest (wanted new.now) by) }
    ensures some { IfSome result (λ fault. MayNotExpect (wanted key.now) changes.now latest (wanted new.now) by fault) }
{
    let stage = stage_at(key, changes, latest);
    if stage.count < changes.len() {
        return Some(ExpectFault::ChangeOpen);
    }
    if are_same(new, stage.key) {
        return Some(ExpectFault::SameKey);
    }
    if by <= latest {
        return Some(ExpectFault::NotLater);
    }
    None
}

/// Returns the change after the latest epoch to a new key, which each epoch from `by` on is to show. Append it to the changes.
///
/// # Errors
///
/// If several apply, the first in the order of [`ExpectFault`] is returned.
pub fn expect<'a>(
    key: &[u8],
    changes: &[Change<'_>],
    latest: u64,
    new: &'a [u8],
    by: u64,
) -> Result<Change<'a>, ExpectFault>
    ensures may { OnOk result (MayExpect (wanted key.now) changes.now latest (wanted new.now) by) }
    ensures ok { IfOk result (λ change. change ≡ (record { last_old = latest; first_new = by; key = new.entry })) }
    ensures err { IfErr result (λ fault. MayNotExpect (wanted key.now) changes.now latest (wanted new.now) by fault) }

    // Nothing changes of the epochs up to the latest one, and the new key is expected from `by` on.
    ensures order { IfOk result (λ change. AreInOrder 0 changes.now → AreInOrder 0 (with_change changes.now change)) }
    ensures keeps { IfOk result (λ change. (epoch : ℕ) → epoch ≤ latest
        → Keeps (wanted key.now) changes.now (wanted key.now) (with_change changes.now change) epoch) }
    ensures new { IfOk result (λ change. (epoch : ℕ) → by ≤ epoch → expected (wanted key.now) (with_change changes.now change) epoch ≡ wanted new.now) }
    ensures watched { IfOk result (λ change. (hash : Octets → Octets) (scheme : Scheme) (name : Octets) (stored : List StoredEntry) → AreUpTo latest stored
        → IsWatched hash scheme name (wanted key.now) changes.now stored → IsWatched hash scheme name (wanted key.now) (with_change changes.now change) stored) }
{
    match expect_fault(key, changes, latest, new, by) {
        Some(fault) => Err(fault),
        None => Ok(Change {
            last_old: latest,
            first_new: by,
            key: new,
        }),
    }
}
