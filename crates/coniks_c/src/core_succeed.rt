//! A client that goes on in the directory that a succession names, in memory of the caller.

ghost use Rattle.std.specs.Prelude.{◌≡◌, ◌≢◌, ◌<◌, ◌∷◌, [], Bool, IfSome, List, None, drop, length, map, take};
ghost use Rattle.coniks_proof.specs.Octets.{Octets};
ghost use Rattle.coniks_proof.specs.Sha256.{sha256};
ghost use Rattle.coniks_chain.specs.Entries.{entry_from};
ghost use Rattle.coniks_client.specs.Changes.{wanted};
ghost use Rattle.coniks_client.specs.Owner.{IsWatched, Scheme};
ghost use Rattle.coniks_client.specs.Steps.{new_number, new_stored};
ghost use Rattle.coniks_client.specs.StoredEntry.{epoch_in};
ghost use Rattle.coniks_quorum.specs.Auditors.{Auditor};
ghost use Rattle.coniks_quorum.specs.Clients.{IsClient};
ghost use Rattle.coniks_quorum.specs.Successions.{IsRefusedSuccession, Succeeds};
ghost use Rattle.coniks_quorum.specs.declared.successions.SuccessionFault.{SuccessionFault as Fault};
ghost use Rattle.coniks_c.specs.Core.{changes_in, stored_in};
ghost use Rattle.coniks_c.specs.CoreReported.{watch_in};
ghost use Rattle.coniks_c.specs.CoreStatuses.{succession_status};
ghost use Rattle.coniks_c.specs.CoreSucceeding.{GoesOn, carried_in, misused_next, succession_in, watch_of};
ghost use Rattle.coniks_c.specs.Crossing.{IsReportedBy};

use crate::auditor::Reported;
use crate::core_client::RawCore;
use crate::core_start::{first_number, put_first};
use crate::core_status::succession_status;
use crate::core_values::{RawReceived, RawWatch};
use crate::core_watch::put;
use crate::numbers;
use crate::values::Bytes32;
use coniks_client::{Change, StoredEntry};
use coniks_proof::{Digest, Head, Sha256Hash};
use coniks_quorum::successions::{Carried, Ending, Succession, carry, succeeded};
use coniks_quorum::vouching::StartVerifier;

/// A succession, whose lines the caller has read.
#[repr(C)]
#[derive(Clone, Copy)]
pub struct RawSuccession {
    /// 1 if the caller found its signature valid by the successor key of the client's policy.
    pub signature: u32,
    pub policy: Bytes32,
    pub last_epoch: u64,
    pub last_link: Bytes32,
    pub next_policy: Bytes32,
    pub first_epoch: u64,
    pub first_link: Bytes32,
}

impl RawSuccession {
    /// Returns the succession.
    fn succession(&self) -> Succession
        ensures { result ≡ succession_in self.now }
    {
        Succession {
            is_signed: self.signature == 1,
            policy: self.policy.bytes,
            last: Head {
                epoch: self.last_epoch,
                link: Digest(self.last_link.bytes),
            },
            next_policy: self.next_policy.bytes,
            first: Head {
                epoch: self.first_epoch,
                link: Digest(self.first_link.bytes),
            },
        }
    }
}

/// Returns the status of a client that can't be the next one, or 0.
fn misused_next(next: &RawCore<'_, '_>) -> u32
    ensures { result ≡ misused_next next.now }
{
    if next.stored.count > 0 {
        numbers::MISUSE_HAS_ENTRIES
    } else if next.stored.items.is_empty() || next.changes.items.is_empty() {
        numbers::MISUSE_NO_ROOM
    } else {
        numbers::GOOD
    }
}

/// Returns what of a client's watch goes on, if it watches a name.
fn carried<'k>(core: &RawCore<'_, 'k>, succession: &Succession) -> Option<Carried<'k>>
    ensures goes_on { GoesOn (watch_in core.now.watch) (changes_in core.now) succession.now (watch_of result) (carried_in result) }
{
    match core.watched() {
        Some(watch) => Some(carry(&watch, core.changes(), succession)),
        None => None,
    }
}

/// Returns the watch of the next client.
fn next_watch<'k>(old: &RawWatch<'k>, carried: &Option<Carried<'k>>) -> RawWatch<'k>
    requires { carried.now ≡ None → watch_in old.now ≡ None }
    ensures { watch_in result ≡ watch_of carried.now }
{
    match carried {
        Some(carried) => RawWatch {
            is_watched: 1,
            name: carried.watch.name,
            since: carried.watch.since,
            key: carried.watch.key,
        },
        None => *old,
    }
}

/// Writes a change to the front of an array, and returns the number of changes.
fn put_change<'k>(changes: &mut [Change<'k>], carried: &Option<Carried<'k>>) -> usize
    requires { 0 < length changes.old }
    ensures put { take result changes.new ≡ carried_in carried.now }
    ensures room { drop 1 changes.new ≡ drop 1 changes.old }
{
    match carried {
        Some(
            Carried {
                change: Some(change),
                ..
            },
        ) => {
            put(changes, 0, change);
            1
        }
        _ => 0,
    }
}

/// Writes the watch and the changes of the next client, and its first epoch.
fn begin<'k>(
    next: &mut RawCore<'_, 'k>,
    old: &RawWatch<'k>,
    carried: &Option<Carried<'k>>,
    mine: &StoredEntry,
)
    requires watched { carried.now ≡ None → watch_in old.now ≡ None }
    requires rooms { (0 < length next.old.stored.items.now) × (0 < length next.old.changes.items.now) }
    ensures watch { watch_in next.new.watch ≡ watch_of carried.now }
    ensures stored { stored_in next.new ≡ record mine.now { seen = new_number (watch_in next.new.watch) (epoch_in mine.now) } ∷ [] }
    ensures changes { changes_in next.new ≡ carried_in carried.now }
    ensures room { (drop 1 next.new.stored.items.now ≡ drop 1 next.old.stored.items.now) × (drop 1 next.new.changes.items.now ≡ drop 1 next.old.changes.items.now) }
    ensures others { next.new ≡ record next.old { watch = next.new.watch; stored = next.new.stored; changes = next.new.changes } }
{
    next.watch = next_watch(old, carried);
    let watch = next.watched();
    put_first(next.stored.items, mine, first_number(&watch, mine.epoch()));
    next.stored.count = 1;
    next.changes.count = put_change(next.changes.items, carried);
}

/// Goes on in the directory that a succession names.
///
/// `next` has seen nothing, has the rules of the next policy, and room for an epoch and a change. `received` is the first entry of the next
/// chain that counts. Returns 0: `next` has this entry, and watches the name of `core`. Entries of `core` after `place` are void. Else
/// returns the first error in this order, and writes nothing: 140 if `next` has an entry, 137 if it lacks room; then 88 to 90, 83, 91, 48,
/// 40, 80, 81 and 92.
#[unsafe(no_mangle)]
pub extern "C" fn coniks_core_succeed<'k>(
    core: &RawCore<'_, 'k>,
    succession: &RawSuccession,
    received: &RawReceived<'_>,
    next: &mut RawCore<'_, 'k>,
    place: &mut usize,
) -> u32
    ensures misused { misused_next next.old ≢ 0 → result ≡ misused_next next.old }
    ensures succeeds { result ≡ 0 → (verdict : Octets → Octets → Bool) → IsReportedBy verdict (entry_from received.now.entry.now) received.now.signature
        → Succeeds sha256 verdict core.now.rules.policy.bytes next.old.rules.policy.bytes (stored_in core.now) (succession_in succession.now) received.now.entry.now place.new }
    ensures stored { result ≡ 0 → stored_in next.new ≡ new_stored (watch_in next.new.watch) received.now.entry.now received.now.time ∷ [] }
    ensures goes_on { result ≡ 0 → GoesOn (watch_in core.now.watch) (changes_in core.now) (succession_in succession.now) (watch_in next.new.watch) (changes_in next.new) }
    ensures refused { result ≢ 0 → misused_next next.old ≡ 0 → (verdict : Octets → Octets → Bool) → IsReportedBy verdict (entry_from received.now.entry.now) received.now.signature
        → (fault : Fault) × (result ≡ succession_status fault)
        × IsRefusedSuccession sha256 verdict core.now.rules.policy.bytes next.old.rules.policy.bytes (stored_in core.now) (succession_in succession.now) received.now.entry.now fault }
    ensures room { (drop 1 next.new.stored.items.now ≡ drop 1 next.old.stored.items.now) × (drop 1 next.new.changes.items.now ≡ drop 1 next.old.changes.items.now) }
    ensures others { next.new ≡ record next.old { watch = next.new.watch; stored = next.new.stored; changes = next.new.changes } }
    ensures unchanged { result ≢ 0 → (next.new ≡ next.old) × (place.new ≡ place.old) }

    // The next client's chain is one, and marks of 0 are right. What the owner law asks of it holds.
    ensures client { result ≡ 0 → (auditors : List Auditor) → IsClient sha256 auditors [] (stored_in next.new) (map (λ auditor. 0) auditors) }
    ensures watched { result ≡ 0 → (scheme : Scheme) → IfSome (watch_in next.new.watch) (λ watch. IsWatched sha256 scheme watch.name.now (wanted watch.key.now) (changes_in next.new) (stored_in next.new)) }
{
    let misused = misused_next(next);
    if misused != numbers::GOOD {
        return misused;
    }
    let reported = Reported {
        signature: received.signature,
    };
    let old_policy = core.rules.policy;
    let next_policy = next.rules.policy;
    let ending = Ending {
        policy: &old_policy.bytes,
        stored: core.stored(),
    };
    let by = StartVerifier {
        hash: &Sha256Hash,
        signatures: &reported,
        policy: &next_policy.bytes,
    };
    let named = succession.succession();
    let passage = match succeeded(&by, &ending, &named, received.entry, received.time) {
        Ok(passage) => passage,
        Err(fault) => return succession_status(&fault),
    };
    let carried = carried(core, &named);
    begin(next, &core.watch, &carried, &passage.mine);
    *place = passage.place;
    numbers::GOOD
}
