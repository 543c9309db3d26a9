//! An auditor whose state the caller keeps.

ghost use Rattle.std.specs.Prelude.{◌==◌, ◌≡◌, ◌≢◌, ◌⊎◌, ◌+◌, Bool, None, Some, IfNone, IfSome, length, replicate};
ghost use Rattle.coniks_proof.specs.Octets.{Octets};
ghost use Rattle.coniks_proof.specs.Sha256.{sha256};
ghost use Rattle.coniks_chain.specs.Chain.{Follows, IsFirstEntryFault, auditor_after, place_of};
ghost use Rattle.coniks_chain.specs.Entries.{entry_from};
ghost use Rattle.coniks_chain.specs.declared.auditor.AuditFault.{AuditFault as Fault};
ghost use Rattle.coniks_c.specs.Crossing.{IsReportedBy, IsZero, before_in};
ghost use Rattle.coniks_c.specs.Statuses.{IsAuditStatus};

use crate::entries::entry_of;
use crate::numbers;
use crate::status::audit_status;
use crate::values::{Bytes32, RawAuditorState};
use coniks_chain::{Auditor, BODY_BYTES, ENTRY_BYTES, Signature, Verify};
use coniks_proof::Sha256Hash;

/// The verdict on a signature that the caller came to.
#[derive(Clone, Copy, Drop)]
pub(crate) struct Reported {
    /// Returns whether a signature is valid: 1 if it is.
    pub signature: u32,
}

impl Verify for Reported {
    ghost verdict_of = { λ reported body signature. reported.signature == 1 };

    fn verdict(&self, _body: &[u8; BODY_BYTES], _signature: &Signature) -> bool {
        self.signature == 1
    }
}

/// Makes the state of an auditor that has seen no entry, all of whose bytes are 0.
#[unsafe(no_mangle)]
pub extern "C" fn coniks_auditor_begin(state: &mut RawAuditorState)
    ensures none { before_in state.new ≡ None }
    ensures zero { IsZero state.new }
{
    *state = RawAuditorState::empty();
}

/// Audits an entry of 209 bytes.
///
/// Pass 1 as the verification result if the signature is valid for the body, the entry's first 145 bytes. Returns 0 if the
/// entry follows the last accepted one, 33 to 40 for its first error, and 48 for another length. After an error the state is
/// unchanged.
#[unsafe(no_mangle)]
pub extern "C" fn coniks_auditor_feed(
    state: &mut RawAuditorState,
    entry: &[u8],
    signature_verdict: u32,
) -> u32
    ensures whole { result ≢ 48 → length entry.now ≡ ENTRY_BYTES }
    ensures follows { result ≡ 0 → (verdict : Octets → Octets → Bool)
        → IsReportedBy verdict (entry_from entry.now) signature_verdict → Follows verdict (before_in state.old) (entry_from entry.now) }
    ensures retained { result ≡ 0 → before_in state.new ≡ Some (auditor_after sha256 (entry_from entry.now)) }
    ensures unused { result ≡ 0 → state.new.unused ≡ replicate 7 0 }
    ensures refused { (fault : Fault) → result ≡ place_of fault + 33 → (verdict : Octets → Octets → Bool)
        → IsReportedBy verdict (entry_from entry.now) signature_verdict → IsFirstEntryFault verdict (before_in state.old) (entry_from entry.now) fault }
    ensures other { result ≡ 48 → length entry.now ≢ ENTRY_BYTES }
    ensures known { (result ≡ 0) ⊎ IsAuditStatus result ⊎ (result ≡ 48) }
    ensures unchanged { result ≢ 0 → state.new ≡ state.old }
{
    let Some(entry) = entry_of(entry) else {
        return numbers::ENTRY_LENGTH;
    };
    let reported = Reported {
        signature: signature_verdict,
    };
    let mut auditor = Auditor::resume(Sha256Hash, state.state());
    if let Err(fault) = auditor.feed(&entry, &reported) {
        return audit_status(fault);
    }
    if let Some(before) = auditor.state() {
        *state = RawAuditorState::after(&before);
    }
    numbers::GOOD
}

/// Writes the epoch and the link of the last accepted entry. Returns 0, or 49 if there was none, and writes nothing then.
#[unsafe(no_mangle)]
pub extern "C" fn coniks_auditor_head(
    state: &RawAuditorState,
    epoch: &mut u64,
    link: &mut Bytes32,
) -> u32
    ensures head { IfSome (before_in state.now) (λ before. (result ≡ 0) × (epoch.new ≡ before.t) × (link.new.bytes ≡ before.link.0)) }
    ensures none { IfNone (before_in state.now) ((result ≡ 49) × (epoch.new ≡ epoch.old) × (link.new ≡ link.old)) }
{
    let Some(before) = state.state() else {
        return numbers::NO_ENTRY;
    };
    *epoch = before.t;
    let bytes = before.link.0;
    *link = Bytes32 { bytes };
    numbers::GOOD
}
