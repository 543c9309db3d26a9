//! A client's histories and catch-ups: what the caller has to verify of a history, and what it shows then.

ghost use Rattle.std.specs.Prelude.{◌≡◌, ◌≢◌, ◌<◌, ◌≤◌, ◌*◌, ◌%◌, ℕ, IfErr, IfOk, OnErr, Some, drop, length, slice_get, take};
ghost use Rattle.coniks_proof.specs.Sha256.{sha256};
ghost use Rattle.coniks_client.specs.StoredEntry.{IsChain, entry_in};
ghost use Rattle.coniks_client.specs.Owner.{IsShown, Scheme};
ghost use Rattle.coniks_client.specs.declared.stored.StoredEntry.{StoredEntry as StoredOne};
ghost use Rattle.coniks_client.specs.HistoryAccepting.{IsAccepted, IsNotAccepted};
ghost use Rattle.coniks_client.specs.HistoryChecking.{answer_in};
ghost use Rattle.coniks_client.specs.Histories.{IsOpened, IsUnopened, vrf_part};
ghost use Rattle.coniks_client.specs.HistoryMarking.{AreReported, IsNumbered};
ghost use Rattle.coniks_client.specs.declared.histories.faults.AcceptFault.{AcceptFault as Fault};
ghost use Rattle.coniks_client.specs.declared.histories.faults.HistoryFault.{HistoryFault as Cut};
ghost use Rattle.coniks_client.specs.declared.histories.shown.ShownStep.{ShownStep as ShownOne};
ghost use Rattle.coniks_c.specs.Checked.{part};
ghost use Rattle.coniks_c.specs.Core.{AreChangedIn, IsMarkedCore, IsMarkedIn, IsWithin, all_in, changes_in, entries_in, stored_in};
ghost use Rattle.coniks_c.specs.CoreStatuses.{accept_status, history_status};
ghost use Rattle.coniks_c.specs.CoreReported.{AcceptsAll, IsIndexedBy, StaysWatched, watch_in};

use crate::core_client::{RawChanges, RawCore, RawStored};
use crate::core_status::{accept_status, history_status};
use crate::core_values::{RawVerdicts, ReportedIndex};
use crate::numbers;
use coniks_client::histories::{
    AcceptFault, HistoryLookup, ShownStep, accept, history_parts, read_catch_up,
};
use coniks_client::{Change, IndexScheme, StoredEntry};
use coniks_proof::{Hash32, Index, Sha256Hash};

/// What the caller has to verify of a history, as a part of it.
#[repr(C)]
#[derive(Clone, Copy)]
pub struct RawHistoryNeeds {
    /// The place of the VRF proof, and its length.
    pub vrf_start: usize,
    pub vrf_length: usize,
}

/// A name that is looked up at several epochs, and the history.
#[repr(C)]
#[derive(Clone, Copy)]
pub struct RawHistory<'a> {
    pub name: &'a [u8],
    pub history: &'a [u8],
}

/// Memory for what the steps show: the first `count` are written.
#[repr(C)]
#[derive(Drop)]
pub struct RawSteps<'m, 'a> {
    pub items: &'m mut [ShownStep<'a>],
    pub count: usize,
}

/// Memory for the siblings of one step.
#[repr(C)]
#[derive(Clone, Copy)]
pub struct RawSiblings {
    pub strings: [[u8; 32]; 256],
}

/// Finds what of a history the caller has to verify before `coniks_core_history`.
///
/// Returns 0, or 69, 70 or 67 if the bytes begin no history, and writes nothing then. The steps are not read.
#[unsafe(no_mangle)]
pub extern "C" fn coniks_core_history_needs(history: &[u8], needs: &mut RawHistoryNeeds) -> u32
    ensures read { result ≡ 0 → IsOpened history.now × (part history.now needs.new.vrf_start needs.new.vrf_length ≡ vrf_part history.now) }
    ensures refused { result ≢ 0 → (fault : Cut) × (result ≡ history_status fault) × IsUnopened history.now fault }
    ensures unwritten { result ≢ 0 → needs.new ≡ needs.old }
{
    match history_parts(history) {
        Ok(parts) => {
            *needs = RawHistoryNeeds {
                vrf_start: 3,
                vrf_length: parts.vrf.len(),
            };
            numbers::GOOD
        }
        Err(fault) => history_status(&fault),
    }
}

/// A lookup at several epochs, and how many stored epochs and changes the client has.
#[derive(Drop)]
struct Past<'l, 'h, 'a, H, S> {
    lookup: &'l HistoryLookup<'h, 'a, H, S>,
    stored: usize,
    changes: usize,
}

/// Accepts a history under the first stored epochs of an array, and marks them and the first changes.
fn accept_first<'a, H: Hash32, S: IndexScheme>(
    past: &Past<'_, '_, 'a, H, S>,
    stored: &mut [StoredEntry],
    changes: &mut [Change<'_>],
    siblings: &mut [[u8; 32]],
    shown: &mut [ShownStep<'a>],
) -> Result<usize, AcceptFault>
    requires siblings { 256 ≤ length siblings.old }
    requires stored { past.now.stored ≤ length stored.old }
    requires changes { past.now.changes ≤ length changes.old }
    ensures ok { IfOk result (λ count. AcceptsAll (H.digest_of past.now.lookup.now.hash.now) (S.index_of past.now.lookup.now.indices.now) past.now.lookup.now.watch past.now.lookup.now.name.now past.now.lookup.now.history.now
        (take past.now.stored stored.old) (take past.now.stored stored.new) (take past.now.changes changes.old) (take past.now.changes changes.new) shown.new count) }
    ensures err { IfErr result (λ fault. IsNotAccepted (H.digest_of past.now.lookup.now.hash.now) (S.index_of past.now.lookup.now.indices.now) (take past.now.stored stored.old)
        past.now.lookup.now.name.now past.now.lookup.now.history.now (length shown.old) fault) }
    ensures others { drop past.now.stored stored.new ≡ drop past.now.stored stored.old }
    ensures other_changes { drop past.now.changes changes.new ≡ drop past.now.changes changes.old }
    ensures unchanged { OnErr result (stored.new ≡ stored.old) }
    ensures unmarked { OnErr result (changes.new ≡ changes.old) }
{
    Ok(accept(
        past.lookup,
        &mut stored[..past.stored],
        &mut changes[..past.changes],
        siblings,
        shown,
    )?)
}

/// Accepts a history under the stored epochs, and marks them and the changes.
fn accept_in<'a, H: Hash32, S: IndexScheme>(
    lookup: &HistoryLookup<'_, 'a, H, S>,
    stored: &mut RawStored<'_>,
    changes: &mut RawChanges<'_, '_>,
    siblings: &mut [[u8; 32]],
    shown: &mut [ShownStep<'a>],
) -> Result<usize, AcceptFault>
    requires siblings { 256 ≤ length siblings.old }
    requires stored { stored.old.count ≤ length stored.old.items.now }
    requires changes { changes.old.count ≤ length changes.old.items.now }
    ensures ok { IfOk result (λ count. AcceptsAll (H.digest_of lookup.now.hash.now) (S.index_of lookup.now.indices.now) lookup.now.watch lookup.now.name.now lookup.now.history.now
        (entries_in stored.old) (entries_in stored.new) (all_in changes.old) (all_in changes.new) shown.new count) }
    ensures err { IfErr result (λ fault. IsNotAccepted (H.digest_of lookup.now.hash.now) (S.index_of lookup.now.indices.now) (entries_in stored.old)
        lookup.now.name.now lookup.now.history.now (length shown.old) fault) }
    ensures others { IsMarkedIn stored.old stored.new }
    ensures other_changes { AreChangedIn changes.old changes.new }
    ensures unchanged { OnErr result (stored.new ≡ stored.old) }
    ensures unmarked { OnErr result (changes.new ≡ changes.old) }
{
    let past = Past {
        lookup,
        stored: stored.count,
        changes: changes.count,
    };
    Ok(accept_first(&past, stored.items, changes.items, siblings, shown)?)
}

/// Accepts a history of a name as a whole, and writes its number of steps. What step k showed, counted from 0, is at place k of `steps`. If
/// the name is watched, the epochs and the changes are marked, step by step.
///
/// Of the verdicts only that of the VRF proof is read. `steps` needs a place for each step.
///
/// Returns 0, or the first error in this order: 137 if a count is greater than its room; 69, 70, 67; 71 to 76 and 2 of a step's bytes; 87; then those of the steps one after
/// another: 137 if `steps` has no place for it, 83, 3 to 8. Then the client and the number of steps are unchanged. Afterwards `siblings`
/// contains any siblings, and after an error `steps` any steps.
#[unsafe(no_mangle)]
pub extern "C" fn coniks_core_history<'a>(
    core: &mut RawCore<'_, '_>,
    asking: &RawHistory<'a>,
    verdicts: &RawVerdicts,
    siblings: &mut RawSiblings,
    steps: &mut RawSteps<'_, 'a>,
) -> u32
    ensures accepted { result ≡ 0 → (scheme : Scheme) → IsIndexedBy scheme asking.now.name.now (vrf_part asking.now.history.now) verdicts.now.index verdicts.now.at.bytes
        → IsAccepted sha256 scheme (stored_in core.old) asking.now.name.now asking.now.history.now steps.new.items.now steps.new.count }
    ensures within { result ≡ 0 → steps.new.count ≤ length steps.new.items.now }
    ensures reported { result ≡ 0 → AreReported (watch_in core.old.watch) asking.now.name.now steps.new.items.now (stored_in core.old) (changes_in core.old) steps.new.count (stored_in core.new) (changes_in core.new) }
    ensures numbered { result ≡ 0 → (k : ℕ) (one : ShownOne) → k < steps.new.count → slice_get steps.new.items.now k ≡ Some one
        → IsNumbered (watch_in core.old.watch) asking.now.name.now (stored_in core.new) one }
    ensures full { (¬ IsWithin core.old) → result ≡ 137 }
    ensures refused { result ≢ 0 → IsWithin core.old → (scheme : Scheme) → IsIndexedBy scheme asking.now.name.now (vrf_part asking.now.history.now) verdicts.now.index verdicts.now.at.bytes
        → (fault : Fault) × (result ≡ accept_status fault) × IsNotAccepted sha256 scheme (stored_in core.old) asking.now.name.now asking.now.history.now (length steps.old.items.now) fault }
    ensures marked { IsMarkedCore core.old core.new }
    ensures unchanged { result ≢ 0 → (core.new ≡ core.old) × (steps.new.count ≡ steps.old.count) }

    // Each answer was shown under the stored entry, which is what the owner law asks of both clients.
    ensures shown { result ≡ 0 → (scheme : Scheme) → IsIndexedBy scheme asking.now.name.now (vrf_part asking.now.history.now) verdicts.now.index verdicts.now.at.bytes
        → (k : ℕ) (one : ShownOne) (mine : StoredOne) → k < steps.new.count → slice_get steps.new.items.now k ≡ Some one → slice_get (stored_in core.old) one.place ≡ Some mine
        → IsShown sha256 scheme (entry_in mine) asking.now.name.now (answer_in one) }

    // The stored epochs are still a chain, and each that shows what is expected has a proof behind it.
    ensures chain { result ≡ 0 → IsChain sha256 (stored_in core.old) → IsChain sha256 (stored_in core.new) }
    ensures watched { result ≡ 0 → (scheme : Scheme) → IsIndexedBy scheme asking.now.name.now (vrf_part asking.now.history.now) verdicts.now.index verdicts.now.at.bytes
        → StaysWatched scheme core.old core.new }
{
    if !core.is_within() {
        return numbers::MISUSE_NO_ROOM;
    }
    let watch = core.watched();
    let lookup = HistoryLookup {
        hash: &Sha256Hash,
        indices: &ReportedIndex {
            verdict: verdicts.index,
            index: Index(verdicts.at.bytes),
        },
        watch,
        name: asking.name,
        history: asking.history,
    };
    match accept_in(
        &lookup,
        &mut core.stored,
        &mut core.changes,
        &mut siblings.strings,
        steps.items,
    ) {
        Ok(many) => {
            steps.count = many;
            numbers::GOOD
        }
        Err(fault) => accept_status(&fault),
    }
}

/// Writes the number of entries of a catch-up, 209 bytes each. Feed them one after another.
///
/// Returns 0, or 68 if the number of bytes is not a multiple of 209, and writes nothing then.
#[unsafe(no_mangle)]
pub extern "C" fn coniks_core_catch_up(bytes: &[u8], count: &mut usize) -> u32
    ensures entries { result ≡ 0 → count.new * 209 ≡ length bytes.now }
    ensures refused { result ≢ 0 → (result ≡ 68) × (length bytes.now % 209 ≢ 0) }
    ensures unwritten { result ≢ 0 → count.new ≡ count.old }
{
    match read_catch_up(bytes) {
        Ok(entries) => {
            *count = entries.len();
            numbers::GOOD
        }
        Err(_) => numbers::CATCH_UP_LENGTH,
    }
}
