//! A client's state as bytes: written, and read after the caller has verified the signatures of its entries.

ghost use Rattle.std.specs.Prelude.{◌≡◌, ◌≢◌, ◌⊎◌, ◌↔◌, ◌<◌, ◌≤◌, Bool, true, false, IfErr, IfNone, IfOk, IfSome, IsTrue, length, map, take};
ghost use Rattle.std.specs.Option.{option_map};
ghost use Rattle.coniks_proof.specs.Octets.{Octets};
ghost use Rattle.coniks_proof.specs.Sha256.{sha256};
ghost use Rattle.coniks_client.specs.Changes.{expected, wanted};
ghost use Rattle.coniks_client.specs.StoredEntry.{IsChain, verified_before};
ghost use Rattle.coniks_client.specs.Owner.{IsBacked, IsWatched, Scheme};
ghost use Rattle.coniks_quorum.specs.StateForms.{AreBytesOf, IsStateOf};
ghost use Rattle.coniks_quorum.specs.StateReading.{IsNoState};
ghost use Rattle.coniks_quorum.specs.Restoring.{AreVerified};
ghost use Rattle.coniks_quorum.specs.Saved.{SavedState, alarm_from, stored_from, saved_state};
ghost use Rattle.coniks_quorum.specs.StateWriting.{HasState, size_of};
ghost use Rattle.coniks_quorum.specs.declared.states.reading.StateFault.{StateFault as Fault};
ghost use Rattle.coniks_c.specs.Core.{IsWithin, changes_in, stored_in};
ghost use Rattle.coniks_c.specs.CoreStates.{AreCopied, AreNeeds, AreNotValid, AreReportedBy, AreValid, HasNoState, HasRoomFor, IsNoChain, IsRead, IsRefusedChain, IsTaken, IsUnread, IsValidAt, count_in, saved_in};
ghost use Rattle.coniks_c.specs.CoreStatuses.{state_status};
ghost use Rattle.coniks_c.specs.CoreReported.{watch_in};

use crate::auditor::Reported;
use crate::core_client::RawCore;
use crate::core_status::state_status;
use crate::core_values::RawWatch;
use crate::numbers;
use crate::values::Bytes32;
use coniks_client::{Change, StoredEntry};
use coniks_proof::Sha256Hash;
use coniks_quorum::alarms::Alarm;
use coniks_quorum::states::{
    Client, STORED_BYTES, State, has_state, laws, read, restore, state_size, write,
};

/// The place of the first entry in a state.
const FIRST_ENTRY: usize = 37;

/// What a client needs for a state: memory for its parts, and the results of verifying the entries, as parts of the state.
#[repr(C)]
#[derive(Clone, Copy)]
pub struct RawStateNeeds {
    /// The number of stored epochs, and of the signatures to verify.
    pub stored: usize,
    /// The number of changes.
    pub changes: usize,
    /// The number of alarms.
    pub alarms: usize,
    /// The place of the first entry's 209 bytes, and how far the next one is from it.
    pub entry_start: usize,
    pub entry_step: usize,
}

/// Returns a client as its state has it.
fn client_of<'a>(core: &'a RawCore<'_, '_>) -> Client<'a>
    ensures { saved_state result ≡ saved_in core.now }
{
    Client {
        policy: &core.rules.policy.bytes,
        stored: core.stored(),
        alarms: core.alarms(),
        trust: &core.rules.trust.bytes,
        marks: core.marks.items,
        watch: core.watch.watch(),
        changes: core.changes(),
    }
}

/// Returns the size of a client's state, if it has one of fewer than 2^64 bytes.
fn size_of(client: &Client<'_>) -> Option<usize>
    ensures some { IfSome result (λ size. HasState (saved_state client.now) × (size ≡ size_of (saved_state client.now))) }
    ensures none { IfNone result (HasNoState (saved_state client.now)) }
{
    if !has_state(client) {
        return None;
    }
    state_size(client)
}

/// Writes the number of bytes of a client's state.
///
/// Returns 0, or 143 if the client has no state, and writes nothing then: it has 2^32 stored epochs, changes, alarms or
/// marks or more, a key of 2^32 bytes or more, or a watched name of no byte or of more than 255.
#[unsafe(no_mangle)]
pub extern "C" fn coniks_core_state_size(core: &RawCore<'_, '_>, size: &mut usize) -> u32
    ensures size { result ≡ 0 → size.new ≡ size_of (saved_in core.now) }
    ensures has { result ≡ 0 → HasState (saved_in core.now) }
    ensures none { result ≢ 0 → (result ≡ 143) × HasNoState (saved_in core.now) }
    ensures unwritten { result ≢ 0 → size.new ≡ size.old }
{
    let client = client_of(core);
    match size_of(&client) {
        Some(needed) => {
            *size = needed;
            numbers::GOOD
        }
        None => numbers::MISUSE_NO_STATE,
    }
}

/// Writes a client's state to the first bytes of a slice, and their number.
///
/// Returns 0; 143 as `coniks_core_state_size` does; or 137 if the slice has fewer bytes than the state. Then nothing is written.
#[unsafe(no_mangle)]
pub extern "C" fn coniks_core_state_write(
    core: &RawCore<'_, '_>,
    out: &mut [u8],
    size: &mut usize,
) -> u32
    ensures bytes { result ≡ 0 → AreBytesOf sha256 (saved_in core.now) (take size.new out.new) }
    ensures size { result ≡ 0 → size.new ≡ size_of (saved_in core.now) }
    ensures none { result ≡ 143 → HasNoState (saved_in core.now) }
    ensures full { result ≡ 137 → HasState (saved_in core.now) × (length out.old < size_of (saved_in core.now)) }
    ensures known { (result ≡ 0) ⊎ (result ≡ 143) ⊎ (result ≡ 137) }
    ensures unchanged { result ≢ 0 → (out.new ≡ out.old) × (size.new ≡ size.old) }
{
    let client = client_of(core);
    let Some(needed) = size_of(&client) else {
        return numbers::MISUSE_NO_STATE;
    };
    if out.len() < needed {
        return numbers::MISUSE_NO_ROOM;
    }
    match write(&Sha256Hash, &client, out) {
        Some(written) => {
            *size = written;
            numbers::GOOD
        }
        None => numbers::MISUSE_NO_ROOM,
    }
}

/// Returns the number of changes of a state.
fn number_of_changes(state: &State<'_>) -> usize
    ensures { result ≡ count_in state.now.watch }
{
    match &state.watch {
        Some(watched) => watched.count,
        None => 0,
    }
}

/// Finds what a client needs for a state before `coniks_core_state_read`.
///
/// Returns 0, or the first of 96 to 100 if the bytes are no state of a client of this policy, and writes nothing then.
#[unsafe(no_mangle)]
pub extern "C" fn coniks_core_state_needs(
    core: &RawCore<'_, '_>,
    state: &[u8],
    needs: &mut RawStateNeeds,
) -> u32
    ensures read { result ≡ 0 → (saved : SavedState) × IsStateOf sha256 core.now.rules.policy.bytes saved state.now × AreNeeds saved state.now needs.new }
    ensures refused { result ≢ 0 → (fault : Fault) × (result ≡ state_status fault) × IsNoState sha256 core.now.rules.policy.bytes state.now fault }
    ensures unwritten { result ≢ 0 → needs.new ≡ needs.old }
{
    match read(&Sha256Hash, &core.rules.policy.bytes, state) {
        Ok(parts) => {
            *needs = RawStateNeeds {
                stored: parts.stored.len(),
                changes: number_of_changes(&parts),
                alarms: parts.alarms.len(),
                entry_start: FIRST_ENTRY,
                entry_step: STORED_BYTES,
            };
            numbers::GOOD
        }
        Err(fault) => state_status(&fault),
    }
}

/// Returns whether the signature of an entry is valid.
fn is_valid(verdicts: &[u32], place: usize) -> bool
    ensures { IsTrue result ↔ IsValidAt verdicts.now place }
{
    match verdicts.get(place) {
        Some(verdict) => *verdict == 1,
        None => false,
    }
}

/// Returns whether each of the first `count` signatures is valid.
fn are_valid(verdicts: &[u32], count: usize) -> bool
    ensures yes { result ≡ true → AreValid verdicts.now count }
    ensures no { result ≡ false → AreNotValid verdicts.now count }
{
    for place in 0..count {
        if !is_valid(verdicts, place) {
            return false;
        }
    }
    true
}

/// Returns whether the stored epochs of a state are a chain of entries whose signatures are valid.
fn is_restored(policy: &Bytes32, state: &State<'_>, verdicts: &[u32]) -> bool
    ensures valid { result ≡ true → AreValid verdicts.now (length state.now.stored.now) }
    ensures chain { result ≡ true → IsChain sha256 (map stored_from state.now.stored.now) }
    ensures verified { result ≡ true → AreVerified verified_before policy.now.bytes (map stored_from state.now.stored.now) }
    ensures no { result ≡ false → IsRefusedChain policy.now.bytes (map stored_from state.now.stored.now) verdicts.now }
{
    if !are_valid(verdicts, state.stored.len()) {
        return false;
    }
    match restore(Sha256Hash, &policy.bytes, state, &Reported { signature: 1 }) {
        Ok(()) => true,
        Err(_) => false,
    }
}

/// Returns the watched name of a state.
fn watch_of<'a>(state: &State<'a>) -> RawWatch<'a>
    ensures { watch_in result ≡ option_map (λ watched. watched.watch) state.now.watch }
{
    match &state.watch {
        Some(watched) => RawWatch {
            is_watched: 1,
            name: watched.watch.name,
            since: watched.watch.since,
            key: watched.watch.key,
        },
        None => RawWatch {
            is_watched: 0,
            name: &[],
            since: 0,
            key: &[],
        },
    }
}

/// Returns whether a client has room for the parts of a state.
fn has_room(core: &RawCore<'_, '_>, parts: &State<'_>) -> bool
    ensures { IsTrue result ↔ HasRoomFor core.now parts.now }
{
    parts.stored.len() <= core.stored.items.len()
        && number_of_changes(parts) <= core.changes.items.len()
        && parts.alarms.len() <= core.alarms.items.len()
}

/// Reads a state, if the client has room for it and its caller verified the signatures. Else returns the status.
fn read_verified<'a>(
    core: &RawCore<'_, '_>,
    state: &'a [u8],
    verdicts: &[u32],
) -> Result<State<'a>, u32>
    ensures ok { IfOk result (λ parts. IsRead core.now state.now verdicts.now parts) }
    ensures err { IfErr result (λ status. IsUnread core.now state.now verdicts.now status) }
{
    let parts = match read(&Sha256Hash, &core.rules.policy.bytes, state) {
        Ok(parts) => parts,
        Err(fault) => return Err(state_status(&fault)),
    };
    if !has_room(core, &parts) {
        return Err(numbers::MISUSE_NO_ROOM);
    }
    if !is_restored(&core.rules.policy, &parts, verdicts) {
        return Err(numbers::STATE_CHAIN);
    }
    Ok(parts)
}

/// Copies the stored epochs of a state to the first places of a slice, and returns their number.
fn put_stored(parts: &State<'_>, stored: &mut [StoredEntry]) -> usize
    requires { length parts.now.stored.now ≤ length stored.old }
    ensures count { result ≡ length parts.now.stored.now }
    ensures stored { take result stored.new ≡ map stored_from parts.now.stored.now }
{
    parts.copy_stored(stored).unwrap_or(0)
}

/// Copies the alarms of a state to the first places of a slice, and returns their number.
fn put_alarms(parts: &State<'_>, alarms: &mut [Alarm]) -> usize
    requires { length parts.now.alarms.now ≤ length alarms.old }
    ensures count { result ≡ length parts.now.alarms.now }
    ensures alarms { take result alarms.new ≡ map alarm_from parts.now.alarms.now }
{
    parts.copy_alarms(alarms).unwrap_or(0)
}

/// Copies the changes of a state to the first places of a slice, and returns their number.
fn put_changes<'a>(parts: &State<'a>, changes: &mut [Change<'a>]) -> usize
    requires { count_in parts.now.watch ≤ length changes.old }
    ensures { AreCopied parts.now.watch (take result changes.new) result }
{
    match &parts.watch {
        Some(watched) => watched.copy_changes(changes).unwrap_or(0),
        None => 0,
    }
}

/// Reads a client's state, once the caller has verified the signatures of its entries.
///
/// `verdicts` has the verification result of each stored entry, 1 if it is valid; a missing one is not valid. The watched name and the keys
/// are parts of the state, whose bytes the caller keeps.
///
/// Returns 0, with the stored epochs, the watched name, the changes and the alarms of the state. So are the marks, if the state is of the
/// client's trust document and of its number of auditors, and 0 if not. Otherwise returns the first error in this order, and writes
/// nothing: 96 to 100 if the bytes are no state of a client of this policy, 137 if there is no room for its epochs, its changes or its
/// alarms, 101 if an entry's signature, policy or form is wrong, or it does not follow the one before.
#[unsafe(no_mangle)]
pub extern "C" fn coniks_core_state_read<'a>(
    core: &mut RawCore<'_, 'a>,
    state: &'a [u8],
    verdicts: &[u32],
) -> u32
    ensures same { result ≡ 0 → IsTaken core.new state.now }
    ensures counts { result ≡ 0 → IsWithin core.new }
    ensures chain { result ≡ 0 → IsChain sha256 (stored_in core.new) }
    ensures verified { result ≡ 0 → (verdict : Octets → Octets → Bool) → AreReportedBy verdict (stored_in core.new) verdicts.now
        → AreVerified verdict core.old.rules.policy.bytes (stored_in core.new) }
    ensures refused { result ≢ 0 → IsUnread core.old state.now verdicts.now result }
    ensures unchained { result ≡ 101 → (saved : SavedState) × IsStateOf sha256 core.old.rules.policy.bytes saved state.now
        × ((verdict : Octets → Octets → Bool) → AreReportedBy verdict saved.stored verdicts.now → IsNoChain verdict core.old.rules.policy.bytes saved.stored) }
    ensures others { core.new.rules ≡ core.old.rules }
    ensures unchanged { result ≢ 0 → core.new ≡ core.old }

    // It goes on as the owner's client, but for the proofs that a state can't show.
    ensures watched { result ≡ 0 → IfSome (watch_in core.new.watch) (λ watch. (scheme : Scheme)
        → IsBacked sha256 scheme watch.name.now (expected (wanted watch.key.now) (changes_in core.new)) (stored_in core.new)
        → IsWatched sha256 scheme watch.name.now (wanted watch.key.now) (changes_in core.new) (stored_in core.new)) }
{
    laws::states();
    laws::clients();
    match read_verified(core, state, verdicts) {
        Ok(parts) => {
            core.stored.count = put_stored(&parts, core.stored.items);
            core.changes.count = put_changes(&parts, core.changes.items);
            core.alarms.count = put_alarms(&parts, core.alarms.items);
            core.watch = watch_of(&parts);
            let trust = core.rules.trust;
            parts.copy_marks(&trust.bytes, core.marks.items);
            numbers::GOOD
        }
        Err(status) => status,
    }
}
