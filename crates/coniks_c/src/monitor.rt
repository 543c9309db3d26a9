//! A client's monitor of one name, whose state the caller keeps.

ghost use Rattle.std.specs.Prelude.{◌≡◌, ◌≢◌, ◌⊎◌, ◌+◌, Bool, Some, length, replicate};
ghost use Rattle.coniks_proof.specs.Faults.{number};
ghost use Rattle.coniks_proof.specs.Octets.{Octets};
ghost use Rattle.coniks_proof.specs.Sha256.{sha256};
ghost use Rattle.coniks_proof.specs.Wire.{IsFirstFault as IsFirstUnread, WireHas, order};
ghost use Rattle.coniks_proof.specs.declared.checker.CheckFault.{CheckFault as Wrong};
ghost use Rattle.coniks_proof.specs.declared.wire.WireFault.{WireFault as Unread};
ghost use Rattle.coniks_chain.specs.Chain.{auditor_after, place_of};
ghost use Rattle.coniks_chain.specs.Entries.{entry_from};
ghost use Rattle.coniks_chain.specs.Seen.{key_shown};
ghost use Rattle.coniks_chain.specs.declared.auditor.AuditFault.{AuditFault as Fault};
ghost use Rattle.coniks_chain.specs.declared.seen.MonitorFault.TheVariants.{Audit, Check};
ghost use Rattle.coniks_chain.specs.declared.seen.Seen.{Seen as Sight};
ghost use Rattle.coniks_c.specs.Crossing.{IsReportedBy, before_in};
ghost use Rattle.coniks_c.specs.Statuses.{IsAuditStatus, IsCheckStatus, IsSeenStatus, IsWireStatus, status_of_seen};
ghost use Rattle.coniks_c.specs.Watched.{IsRefusedStep, Sees, expectation};

use crate::auditor::Reported;
use crate::entries::entry_of;
use crate::numbers;
use crate::status::{audit_status, check_status, seen_status, wire_status};
use crate::values::{Bytes32, RawAuditorState};
use coniks_chain::{Auditor, ENTRY_BYTES, MonitorFault, Wanted};
use coniks_proof::{Index, ProofRef, Sha256Hash};

/// Returns the key that a client expects, none if there are no bytes.
fn expectation(bytes: &[u8]) -> Option<&[u8]>
    ensures { key_shown result ≡ expectation bytes.now }
{
    if bytes.is_empty() { None } else { Some(bytes) }
}

/// Audits an entry of 209 bytes, and checks the bytes of a proof for the client's name at its index. Pass 1 as the
/// verification result if the entry's signature is valid. The state is an auditor's. An empty expected key means that the
/// name is expected to be bound to none.
///
/// Returns 0 if the proof shows what is expected, 1 if it shows no key although one is expected, and 9 if it shows another
/// key, or a key although none is expected. Else returns the first error, and the state is unchanged: 48 for an entry of
/// another length, 17 to 25 for the bytes of the proof, 33 to 40 for the entry, and 2 to 8 for the proof against the entry's
/// root and nonce.
#[unsafe(no_mangle)]
pub extern "C" fn coniks_monitor_step(
    state: &mut RawAuditorState,
    index: &Bytes32,
    name: &[u8],
    expected: &[u8],
    entry: &[u8],
    signature_verdict: u32,
    proof: &[u8],
) -> u32
    ensures whole { result ≢ 48 → length entry.now ≡ ENTRY_BYTES }
    ensures other { result ≡ 48 → length entry.now ≢ ENTRY_BYTES }
    ensures seen { (seen : Sight) → result ≡ status_of_seen seen → (verdict : Octets → Octets → Bool)
        → IsReportedBy verdict (entry_from entry.now) signature_verdict
        → Sees verdict (before_in state.old) name.now index.now.bytes (expectation expected.now) (entry_from entry.now) proof.now seen }
    ensures retained { IsSeenStatus result → before_in state.new ≡ Some (auditor_after sha256 (entry_from entry.now)) }
    ensures unused { IsSeenStatus result → state.new.unused ≡ replicate 7 0 }
    ensures unread { (fault : Unread) → result ≡ order fault + 16 → IsFirstUnread (WireHas proof.now) fault }
    ensures audited { (fault : Fault) → result ≡ place_of fault + 33 → (verdict : Octets → Octets → Bool)
        → IsReportedBy verdict (entry_from entry.now) signature_verdict
        → IsRefusedStep verdict (before_in state.old) name.now index.now.bytes (entry_from entry.now) proof.now (Audit fault) }
    ensures checked { (fault : Wrong) → result ≡ number fault + 1 → (verdict : Octets → Octets → Bool)
        → IsReportedBy verdict (entry_from entry.now) signature_verdict
        → IsRefusedStep verdict (before_in state.old) name.now index.now.bytes (entry_from entry.now) proof.now (Check fault) }
    ensures known { IsSeenStatus result ⊎ (result ≡ 48) ⊎ IsWireStatus result ⊎ IsAuditStatus result ⊎ IsCheckStatus result }
    ensures unchanged { (IsSeenStatus result → ⊥) → state.new ≡ state.old }
{
    let Some(entry) = entry_of(entry) else {
        return numbers::ENTRY_LENGTH;
    };
    let proof = match ProofRef::read(proof) {
        Ok(proof) => proof,
        Err(fault) => return wire_status(fault),
    };
    let reported = Reported {
        signature: signature_verdict,
    };
    let wanted = Wanted {
        name,
        index: Index(index.bytes),
        expected: expectation(expected),
    };
    let mut auditor = Auditor::resume(Sha256Hash, state.state());
    match auditor.watch(&wanted, &entry, &proof, &reported) {
        Ok(seen) => {
            if let Some(before) = auditor.state() {
                *state = RawAuditorState::after(&before);
            }
            seen_status(seen)
        }
        Err(MonitorFault::Audit(fault)) => audit_status(fault),
        Err(MonitorFault::Check(fault)) => check_status(fault),
    }
}
