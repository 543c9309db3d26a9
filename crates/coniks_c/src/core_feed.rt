//! A client's chain, entry by entry, in an array of the caller.

ghost use Rattle.std.specs.Prelude.{◌≡◌, ◌≢◌, ◌⊎◌, ◌<◌, ◌≤◌, ◌↔◌, IsTrue, List, Bool, Option, length};
ghost use Rattle.std.proofs.Math.ListN.{set};
ghost use Rattle.coniks_proof.specs.Octets.{Octets};
ghost use Rattle.coniks_proof.specs.Sha256.{sha256};
ghost use Rattle.coniks_chain.specs.Entries.{entry_from};
ghost use Rattle.coniks_client.specs.Feeding.{IsRefusedFeed};
ghost use Rattle.coniks_client.specs.StoredEntry.{IsChain};
ghost use Rattle.coniks_client.specs.Owner.{IsWatched, Scheme};
ghost use Rattle.coniks_client.specs.Steps.{IsAccepted};
ghost use Rattle.coniks_client.specs.declared.changes.Change.{Change as ChangeOne};
ghost use Rattle.coniks_client.specs.declared.feeding.FeedFault.{FeedFault as Fault};
ghost use Rattle.coniks_client.specs.declared.stored.StoredEntry.{StoredEntry as StoredOne};
ghost use Rattle.coniks_client.specs.declared.steps.Accepted.{Accepted as Outcome};
ghost use Rattle.coniks_quorum.specs.Auditors.{Auditor};
ghost use Rattle.coniks_quorum.specs.Clients.{IsClient};
ghost use Rattle.coniks_c.specs.Core.{stored_in};
ghost use Rattle.coniks_c.specs.CoreFeed.{AreMarksWith, HasPlace, IsStored};
ghost use Rattle.coniks_c.specs.CoreStatuses.{feed_status, why_of_feed};
ghost use Rattle.coniks_c.specs.CoreReported.{watch_in};
ghost use Rattle.coniks_c.specs.Crossing.{IsReportedBy};

use crate::auditor::Reported;
use crate::core_client::{RawCore, RawStored};
use crate::core_status::feed_status;
use crate::core_values::{RawReceived, RawWhy};
use crate::numbers;
use coniks_client::{Accepted, Fed, StoredEntry, feed};
use coniks_proof::Sha256Hash;
use coniks_quorum::laws;
use coniks_quorum::marks::unmark;

/// Writes a stored epoch.
fn put(stored: &mut [StoredEntry], place: usize, mine: &StoredEntry)
    requires { place < length stored.old }
    ensures { stored.new ≡ set stored.old place mine.now }
{
    stored[place] = *mine;
}

/// Returns whether an accepted entry has a place among the stored epochs.
fn has_place(core: &RawCore<'_, '_>, accepted: &Accepted) -> bool
    ensures { IsTrue result ↔ HasPlace core.now.stored accepted.now }
{
    match accepted {
        Accepted::Next(_) => core.stored.count < core.stored.items.len(),
        Accepted::Again(_) => 0 < core.stored.count,
    }
}

/// Stores an accepted entry: the next one after the others, the latest one, signed again, in its place.
fn store(stored: &mut RawStored<'_>, accepted: &Accepted)
    requires within { stored.old.count ≤ length stored.old.items.now }
    requires place { HasPlace stored.old accepted.now }
    ensures { IsStored stored.old stored.new accepted.now }
{
    match accepted {
        Accepted::Next(mine) => {
            let count = stored.count;
            put(stored.items, count, mine);
            stored.count = count + 1;
        }
        Accepted::Again(mine) => {
            let latest = stored.count - 1;
            put(stored.items, latest, mine);
        }
    }
}

/// Sets the marks at an epoch to 0 if its entry was signed again.
fn reset_marks(marks: &mut [u64], accepted: &Accepted)
    ensures { AreMarksWith marks.old marks.new accepted.now }
{
    match accepted {
        Accepted::Next(_) => {}
        Accepted::Again(mine) => unmark(marks, mine.epoch()),
    }
}

/// Accepts an entry: one that continues a client's chain is stored after the others. The latest one with another signature takes its
/// place, and each mark at its epoch becomes 0.
///
/// Returns 0, or the first error in this order: 48, 40, 80, 81, 82, 33 to 39. For these `why` is written. Returns 137 if there is no room
/// for one epoch more, or the count is greater than the room. After an error nothing else is written.
#[unsafe(no_mangle)]
pub extern "C" fn coniks_core_feed(
    core: &mut RawCore<'_, '_>,
    received: &RawReceived<'_>,
    why: &mut RawWhy,
) -> u32
    ensures fed { result ≡ 0 → (verdict : Octets → Octets → Bool) → IsReportedBy verdict (entry_from received.now.entry.now) received.now.signature
        → (accepted : Outcome) × IsAccepted sha256 verdict core.old.rules.policy.bytes (stored_in core.old) (watch_in core.old.watch) received.now.entry.now received.now.time accepted
        × IsStored core.old.stored core.new.stored accepted × AreMarksWith core.old.marks.items.now core.new.marks.items.now accepted }
    ensures refused { result ≢ 0 → result ≢ 137 → (verdict : Octets → Octets → Bool) → IsReportedBy verdict (entry_from received.now.entry.now) received.now.signature
        → (fault : Fault) × (result ≡ feed_status fault) × IsRefusedFeed sha256 verdict core.old.rules.policy.bytes (stored_in core.old) received.now.entry.now fault × (why.new ≡ why_of_feed fault) }
    ensures full { result ≡ 137 → length core.old.stored.items.now ≤ core.old.stored.count }
    ensures room { length core.old.stored.items.now < core.old.stored.count → result ≡ 137 }
    ensures others { core.new ≡ record core.old { stored = core.new.stored; marks = core.new.marks } }
    ensures unchanged { result ≢ 0 → core.new ≡ core.old }
    ensures unwritten { (result ≡ 0) ⊎ (result ≡ 137) → why.new ≡ why.old }

    // The stored epochs are a chain again, each that shows what was expected has a proof behind it, and right marks stay right.
    ensures chain { result ≡ 0 → IsChain sha256 (stored_in core.old) → IsChain sha256 (stored_in core.new) }
    ensures watched { result ≡ 0 → (scheme : Scheme) (name : Octets) (key : Option Octets) (changes : List ChangeOne)
        → IsWatched sha256 scheme name key changes (stored_in core.old) → IsWatched sha256 scheme name key changes (stored_in core.new) }
    ensures client { result ≡ 0 → (auditors : List Auditor) (before : List StoredOne) → IsClient sha256 auditors before (stored_in core.old) core.old.marks.items.now
        → IsClient sha256 auditors before (stored_in core.new) core.new.marks.items.now }
{
    laws::clients();
    if core.stored.count > core.stored.items.len() {
        return numbers::MISUSE_NO_ROOM;
    }
    let reported = Reported {
        signature: received.signature,
    };
    let policy = core.rules.policy;
    let watch = core.watched();
    let fed = Fed {
        policy: &policy.bytes,
        entry: received.entry,
        time: received.time,
    };
    match feed(Sha256Hash, &reported, core.stored(), &watch, &fed) {
        Ok(accepted) => {
            if !has_place(core, &accepted) {
                return numbers::MISUSE_NO_ROOM;
            }
            store(&mut core.stored, &accepted);
            reset_marks(core.marks.items, &accepted);
            numbers::GOOD
        }
        Err(fault) => {
            *why = RawWhy::of_feed(&fault);
            feed_status(&fault)
        }
    }
}
