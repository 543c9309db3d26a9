//! The chain of a state that was read.

ghost use Rattle.std.specs.Prelude.{◌≡◌, ◌↔◌, ◌-◌, ◌<◌, true, Option, Some, IfErr, IfNone, IfSome, IsTrue, OnOk, map};
ghost use Rattle.coniks_chain.specs.Chain.{Follows, auditor_after};
ghost use Rattle.coniks_client.specs.Feeding.{IsVerified};
ghost use Rattle.coniks_client.specs.StoredEntry.{IsChain, entry_in, verified_before};
ghost use Rattle.coniks_quorum.specs.Restoring.{AreVerified, IsFirstBad};
ghost use Rattle.coniks_quorum.specs.Saved.{stored_from};

use crate::states::forms::FromBytes;
use crate::states::parts::STORED_BYTES;
use crate::states::state::State;
use coniks_chain::{Auditor, BODY_BYTES, Entry, Signature, Verify, auditor_after};
use coniks_client::feeding::verified;
use coniks_client::stored::StoredEntry;
use coniks_proof::Hash32;
use thiserror::Error;

/// The error of a state whose stored epochs are no chain of entries of this directory.
#[derive(Clone, Copy, Debug, Drop, PartialEq, Eq, Error)]
#[error("the state's kept epoch {place}, counted from 0, isn't one of this directory or doesn't follow the one before it")]
pub struct StateChain {
    /// The place of the first such epoch.
    pub place: usize,
}

/// Signatures that were verified before.
struct VerifiedBefore;

impl Verify for VerifiedBefore {
    ghost verdict_of = { λ reported body signature. true };

    fn verdict(&self, _body: &[u8; BODY_BYTES], _signature: &Signature) -> bool {
        true
    }
}

/// Returns the entry of a stored epoch, if it is one of this directory.
fn own_entry<V: Verify>(policy: &[u8; 32], bytes: &[u8; STORED_BYTES], verify: &V) -> Option<Entry>
    ensures from { IfSome result (λ entry. entry ≡ entry_in (stored_from bytes.now)) }
    ensures some { IfSome result (λ entry. IsVerified (V.verdict_of verify.now) policy.now (stored_from bytes.now).entry) }
    ensures none { IfNone result (¬ IsVerified (V.verdict_of verify.now) policy.now (stored_from bytes.now).entry) }
{
    let mine = StoredEntry::from_bytes(bytes);
    match verified(policy, &[], &mine.entry, verify) {
        Ok(entry) => Some(entry),
        Err(_) => None,
    }
}

/// Returns whether an entry follows, and lets the auditor go on with it.
fn follows<H: Hash32 + Drop>(auditor: &mut Auditor<H>, entry: &Entry) -> bool
    ensures follows { IsTrue result ↔ Follows verified_before auditor.old.1 entry.now }
    ensures next { IsTrue result → auditor.new ≡ (auditor.old.0, Some (auditor_after (H.digest_of auditor.old.0) entry.now)) }
{
    match auditor.feed(entry, &VerifiedBefore) {
        Ok(()) => true,
        Err(_) => false,
    }
}

/// Checks that the stored epochs of a state are a chain of entries of this directory, whatever the first one follows.
///
/// # Errors
///
/// [`StateChain`] with the place of the first epoch whose entry's signature, policy or form is wrong, or that does not follow the one
/// before it.
pub fn restore<H: Hash32 + Drop, V: Verify>(
    h: H,
    policy: &[u8; 32],
    state: &State<'_>,
    verify: &V,
) -> Result<(), StateChain>
    ensures chain { OnOk result (IsChain (H.digest_of h) (map stored_from state.now.stored.now)) }
    ensures verified { OnOk result (AreVerified (V.verdict_of verify.now) policy.now (map stored_from state.now.stored.now)) }
    ensures err { IfErr result (λ fault. IsFirstBad (H.digest_of h) (V.verdict_of verify.now) policy.now (map stored_from state.now.stored.now) fault.place) }
{
    let stored = state.stored;
    let Some((first, later)) = stored.split_first() else {
        return Ok(());
    };
    let Some(entry) = own_entry(policy, first, verify) else {
        return Err(StateChain { place: 0 });
    };
    let before = auditor_after(&h, &entry);
    let mut auditor = Auditor::resume(h, Some(before));
    for (place, bytes) in later.iter().enumerate() {
        let Some(entry) = own_entry(policy, bytes, verify) else {
            return Err(StateChain { place: place + 1 });
        };
        if !follows(&mut auditor, &entry) {
            return Err(StateChain { place: place + 1 });
        }
    }
    Ok(())
}
