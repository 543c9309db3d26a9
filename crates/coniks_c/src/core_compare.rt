//! Heads of auditors, and entries of others, compared with a client's chain.

ghost use Rattle.std.specs.Prelude.{◌≡◌, ◌≢◌, ◌⊎◌, Bool};
ghost use Rattle.coniks_proof.specs.Octets.{Octets};
ghost use Rattle.coniks_proof.specs.Sha256.{sha256};
ghost use Rattle.coniks_chain.specs.Entries.{entry_from};
ghost use Rattle.coniks_chain.specs.declared.evidence.Evidence.{Evidence as Found};
ghost use Rattle.coniks_client.specs.Comparing.{Compares};
ghost use Rattle.coniks_client.specs.Feeding.{ConvictsNone, IsFirstConvicting, IsSigned, IsUnsigned};
ghost use Rattle.coniks_client.specs.declared.comparing.Comparison.{Comparison as Outcome};
ghost use Rattle.coniks_client.specs.declared.feeding.EntryFault.{EntryFault as Fault};
ghost use Rattle.coniks_c.specs.Core.{stored_in};
ghost use Rattle.coniks_c.specs.CoreStatuses.{convicted, entry_status};
ghost use Rattle.coniks_c.specs.CoreReported.{comparison_number, place_of_equal};
ghost use Rattle.coniks_c.specs.Crossing.{IsReportedBy};

use crate::auditor::Reported;
use crate::core_client::RawCore;
use crate::core_status::entry_status;
use crate::core_values::{RawReceived, RawWhy};
use crate::numbers;
use crate::values::Bytes32;
use coniks_client::{Comparison, compare, evidence_of, signed};
use coniks_proof::{Digest, Head, Sha256Hash};

/// Compares a head, the epoch and the link of an entry, with a client's chain.
///
/// Returns 1 if the client keeps an entry with this head, and writes its place; 3 if it keeps another entry that covers the head's epoch; 2 if
/// it keeps none that does.
#[unsafe(no_mangle)]
pub extern "C" fn coniks_core_compare(
    core: &RawCore<'_, '_>,
    epoch: u64,
    link: &Bytes32,
    place: &mut usize,
) -> u32
    ensures compares { (outcome : Outcome) × (result ≡ comparison_number outcome)
        × Compares sha256 (stored_in core.now) (record { epoch = epoch; link = record { 0 = link.now.bytes } }) outcome × (place.new ≡ place_of_equal place.old outcome) }
{
    let head = Head {
        epoch,
        link: Digest(link.bytes),
    };
    match compare(&Sha256Hash, core.stored(), &head) {
        Comparison::Equal(found) => {
            *place = found;
            1
        }
        Comparison::Unknown => 2,
        Comparison::Differs => 3,
    }
}

/// Finds what convicts with an entry of somebody else: the first stored entry that is evidence with it.
///
/// Returns 0 if there is one, and writes `why`. Returns 48 or 40 for an entry that is none, and 50 if no stored one convicts with it, and
/// writes nothing then. The time is not read. An entry that no chain has convicts alone: see `coniks_convicts`.
#[unsafe(no_mangle)]
pub extern "C" fn coniks_core_evidence(
    core: &RawCore<'_, '_>,
    received: &RawReceived<'_>,
    why: &mut RawWhy,
) -> u32
    ensures found { result ≡ 0 → (evidence : Found) × IsFirstConvicting (stored_in core.now) (entry_from received.now.entry.now) evidence × (why.new ≡ convicted 0 evidence) }
    ensures signed { (result ≡ 0) ⊎ (result ≡ 50) → (verdict : Octets → Octets → Bool) → IsReportedBy verdict (entry_from received.now.entry.now) received.now.signature → IsSigned verdict received.now.entry.now }
    ensures none { result ≡ 50 → ConvictsNone (stored_in core.now) (entry_from received.now.entry.now) }
    ensures refused { result ≢ 0 → result ≢ 50 → (verdict : Octets → Octets → Bool) → IsReportedBy verdict (entry_from received.now.entry.now) received.now.signature
        → (fault : Fault) × (result ≡ entry_status fault) × IsUnsigned verdict received.now.entry.now fault }
    ensures unwritten { result ≢ 0 → why.new ≡ why.old }
{
    let reported = Reported {
        signature: received.signature,
    };
    let entry = match signed(received.entry, &reported) {
        Ok(entry) => entry,
        Err(fault) => return entry_status(&fault),
    };
    match evidence_of(core.stored(), &entry) {
        Some(evidence) => {
            *why = RawWhy::convicted(0, &evidence);
            numbers::GOOD
        }
        None => numbers::NO_EVIDENCE,
    }
}
