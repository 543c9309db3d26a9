//! The epoch that a quorum of auditors confirms, from the auditors' marks in an array of the caller.

ghost use Rattle.std.specs.Prelude.{◌≡◌, ◌≢◌, ◌⊎◌, ◌↔◌, ◌<◌, ◌≤◌, ◌+◌, ◌*◌, ◌^◌, ◌++◌, ℕ, List, Option, Some, length, slice_get};
ghost use Rattle.coniks_proof.specs.Sha256.{sha256};
ghost use Rattle.coniks_client.specs.Comparing.{Compares};
ghost use Rattle.coniks_client.specs.StoredEntry.{epoch_in};
ghost use Rattle.coniks_client.specs.declared.comparing.Comparison.{Comparison as Outcome};
ghost use Rattle.coniks_client.specs.declared.stored.StoredEntry.{StoredEntry as StoredOne};
ghost use Rattle.coniks_quorum.specs.Auditors.{Auditor, IsLeastQuorum, WasCosigned};
ghost use Rattle.coniks_quorum.specs.Marks.{AreMarks, IsGreatest, ReachesNone, Remembers};
ghost use Rattle.coniks_quorum.specs.Relying.{Confirms, IsReliance};
ghost use Rattle.coniks_quorum.specs.declared.relying.Reliance.{Reliance as Verdict};
ghost use Rattle.coniks_c.specs.Core.{stored_in};
ghost use Rattle.coniks_c.specs.CoreQuorum.{ConfirmsTo};
ghost use Rattle.coniks_c.specs.CoreStatuses.{reliance_status};
ghost use Rattle.coniks_c.specs.CoreReported.{comparison_number};

use crate::core_client::RawCore;
use crate::core_status::reliance_status;
use crate::numbers;
use crate::values::Bytes32;
use coniks_client::{Comparison, compare};
use coniks_proof::{Digest, Head, Sha256Hash};
use coniks_quorum::marks::{confirmed, remember};
use coniks_quorum::quorum::quorum_of;
use coniks_quorum::relying::reliance_on;

/// Returns the greatest epoch that a quorum of the marks confirms, if it confirms any. 0 is no quorum, and confirms none.
pub(crate) fn confirmed_to(marks: &[u64], quorum: usize) -> Option<u64>
    ensures { ConfirmsTo marks.now quorum result }
{
    if quorum == 0 {
        return None;
    }
    confirmed(marks, quorum)
}

/// Returns the quorum of `auditors` of which at most `faulty` lie or are silent: any two quorums share an honest auditor, and the others
/// alone are a quorum.
///
/// Returns 0, which is no quorum, if three times `faulty` are not fewer than `auditors`, and for 2^32 auditors or more.
#[unsafe(no_mangle)]
pub extern "C" fn coniks_core_quorum(auditors: usize, faulty: usize) -> usize
    ensures least { result ≢ 0 → IsLeastQuorum auditors faulty result }
    ensures reachable { result ≢ 0 → result + faulty ≤ auditors }
    ensures none { result ≡ 0 ↔ ((auditors ≤ 3 * faulty) ⊎ (2 ^ 32 ≤ auditors)) }
{
    if auditors >= 1 << 32 || faulty >= auditors || 3 * faulty >= auditors {
        return 0;
    }
    quorum_of(auditors, faulty)
}

/// Returns the number of a comparison.
fn comparison_number(outcome: &Comparison) -> u32
    ensures { result ≡ comparison_number outcome.now }
{
    match outcome {
        Comparison::Equal(_) => 1,
        Comparison::Unknown => 2,
        Comparison::Differs => 3,
    }
}

/// Compares the head that an auditor cosigned with a client's chain, and raises the auditor's mark to the head's epoch if they are equal.
///
/// Returns 1 if the client keeps an entry with this head, 3 if it keeps another entry that covers the head's epoch, and 2 if it keeps none
/// that does. Returns 138 if there is no mark at the place. For 2, 3 and 138 no mark is changed.
#[unsafe(no_mangle)]
pub extern "C" fn coniks_core_mark(
    core: &mut RawCore<'_, '_>,
    place: usize,
    epoch: u64,
    link: &Bytes32,
) -> u32
    ensures compares { result ≢ 138 → (outcome : Outcome) × (result ≡ comparison_number outcome)
        × Compares sha256 (stored_in core.old) (record { epoch = epoch; link = record { 0 = link.now.bytes } }) outcome × Remembers core.old.marks.items.now core.new.marks.items.now place epoch outcome }
    ensures outside { result ≡ 138 ↔ length core.old.marks.items.now ≤ place }
    ensures others { core.new ≡ record core.old { marks = core.new.marks } }
    ensures unchanged { result ≢ 1 → core.new ≡ core.old }

    // If the auditor cosigned the head, right marks stay right. They speak of all accepted entries, also of the dropped ones.
    ensures right { (auditors : List Auditor) (dropped : List StoredOne) → WasCosigned auditors place (record { epoch = epoch; link = record { 0 = link.now.bytes } })
        → AreMarks sha256 auditors (dropped ++ stored_in core.old) core.old.marks.items.now → AreMarks sha256 auditors (dropped ++ stored_in core.old) core.new.marks.items.now }
{
    if place >= core.marks.items.len() {
        return numbers::MISUSE_NO_AUDITOR;
    }
    let head = Head {
        epoch,
        link: Digest(link.bytes),
    };
    let outcome = compare(&Sha256Hash, core.stored(), &head);
    remember(core.marks.items, place, &head, &outcome);
    comparison_number(&outcome)
}

/// Finds the greatest epoch that a quorum of the marks confirms: that many marks are at this epoch or a later one.
///
/// Returns 0, and writes the epoch. Returns 139 if a quorum confirms none, or if the quorum is 0, and writes nothing then.
#[unsafe(no_mangle)]
pub extern "C" fn coniks_core_confirmed(core: &RawCore<'_, '_>, epoch: &mut u64) -> u32
    ensures confirmed { result ≡ 0 → (0 < core.now.rules.quorum) × IsGreatest core.now.marks.items.now core.now.rules.quorum epoch.new }
    ensures none { result ≡ 139 → (core.now.rules.quorum ≡ 0) ⊎ ReachesNone core.now.marks.items.now core.now.rules.quorum }
    ensures known { (result ≡ 0) ⊎ (result ≡ 139) }
    ensures unwritten { result ≢ 0 → epoch.new ≡ epoch.old }
{
    match confirmed_to(core.marks.items, core.rules.quorum) {
        Some(greatest) => {
            *epoch = greatest;
            numbers::GOOD
        }
        None => numbers::MISUSE_NOT_CONFIRMED,
    }
}

/// Finds whether a client may rely on what the stored epoch of a place shows: whether a quorum of the marks confirms it.
///
/// Returns 0 if it may, 83 if there is no stored epoch at the place, and 139 if no quorum confirms the epoch yet.
#[unsafe(no_mangle)]
pub extern "C" fn coniks_core_relied(core: &RawCore<'_, '_>, place: usize) -> u32
    ensures relied { result ≢ 83 → (mine : StoredOne) × (slice_get (stored_in core.now) place ≡ Some mine) × ((confirmed : Option ℕ) × (reliance : Verdict)
        × ConfirmsTo core.now.marks.items.now core.now.rules.quorum confirmed × IsReliance confirmed (epoch_in mine) reliance × (result ≡ reliance_status reliance)) }
    ensures outside { result ≡ 83 ↔ length (stored_in core.now) ≤ place }

    // The client relies on an epoch only if a quorum of auditors confirms it.
    ensures only { result ≡ 0 → (mine : StoredOne) → slice_get (stored_in core.now) place ≡ Some mine
        → (0 < core.now.rules.quorum) × ((to : ℕ) × IsGreatest core.now.marks.items.now core.now.rules.quorum to × Confirms (Some to) (epoch_in mine)) }
{
    match core.stored().get(place) {
        Some(mine) => {
            let confirmed = confirmed_to(core.marks.items, core.rules.quorum);
            reliance_status(reliance_on(mine, confirmed))
        }
        None => numbers::UNKNOWN_EPOCH,
    }
}
