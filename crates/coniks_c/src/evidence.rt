//! Two signed entries, compared.

ghost use Rattle.std.specs.Prelude.{◌≡◌, ◌≢◌, ◌⊎◌, length};
ghost use Rattle.coniks_chain.specs.Entries.{entry_from};
ghost use Rattle.coniks_chain.specs.Evidence.{Convicts, IsOfFirstKind};
ghost use Rattle.coniks_chain.specs.declared.evidence.EvidenceKind.{EvidenceKind};
ghost use Rattle.coniks_c.specs.Statuses.{number_of_kind};

use crate::entries::entry_of;
use crate::numbers;
use crate::status::kind_number;
use coniks_chain::{ENTRY_BYTES, convicts};

/// Compares two entries of 209 bytes that were signed with one key, and returns whether they are evidence that its owner
/// equivocated. The caller has verified both signatures.
///
/// Returns 0 if they are evidence, and writes the first kind that applies: 1 for different bodies whose intervals (epoch
/// before, epoch] overlap, 2 for different policy digests, 3 for an entry that no chain contains. Returns 50 if they are no
/// evidence, and 48 if one of them has another length. Then nothing is written.
#[unsafe(no_mangle)]
pub extern "C" fn coniks_convicts(a: &[u8], b: &[u8], kind: &mut u32) -> u32
    ensures evidence { result ≡ 0 → (found : EvidenceKind) × IsOfFirstKind (entry_from a.now) (entry_from b.now) found × (kind.new ≡ number_of_kind found) }
    ensures none { result ≡ 50 → (found : EvidenceKind) → ¬ Convicts (entry_from a.now) (entry_from b.now) found }
    ensures whole { result ≢ 48 → (length a.now ≡ ENTRY_BYTES) × (length b.now ≡ ENTRY_BYTES) }
    ensures other { result ≡ 48 → (length a.now ≢ ENTRY_BYTES) ⊎ (length b.now ≢ ENTRY_BYTES) }
    ensures known { (result ≡ 0) ⊎ (result ≡ 48) ⊎ (result ≡ 50) }
    ensures unwritten { result ≢ 0 → kind.new ≡ kind.old }
{
    let Some(a) = entry_of(a) else {
        return numbers::ENTRY_LENGTH;
    };
    let Some(b) = entry_of(b) else {
        return numbers::ENTRY_LENGTH;
    };
    match convicts(&a, &b) {
        Some(found) => {
            *kind = kind_number(found);
            numbers::GOOD
        }
        None => numbers::NO_EVIDENCE,
    }
}
