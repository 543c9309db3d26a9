//! A client's lookup: what the caller has to verify, and what a reply shows then.

ghost use Rattle.std.specs.Prelude.{◌≡◌, ◌≢◌, ◌⊎◌, ◌≤◌, ◌↔◌, Bool, Option, IfErr, IfOk, OnErr, drop, length, take};
ghost use Rattle.coniks_proof.specs.Octets.{Octets};
ghost use Rattle.coniks_proof.specs.Sha256.{sha256};
ghost use Rattle.coniks_chain.specs.Entries.{entry_from};
ghost use Rattle.coniks_client.specs.StoredEntry.{IsChain};
ghost use Rattle.coniks_client.specs.Lookups.{IsFound, IsStored, IsNotFound};
ghost use Rattle.coniks_client.specs.Owner.{Scheme};
ghost use Rattle.coniks_client.specs.Replies.{IsNoReply, IsReply, entry_part, vrf_part};
ghost use Rattle.coniks_client.specs.declared.lookups.LookupFault.{LookupFault as Fault};
ghost use Rattle.coniks_client.specs.declared.replies.ReplyFault.{ReplyFault as Cut};
ghost use Rattle.coniks_c.specs.CoreStatuses.{lookup_status, reply_status, why_of_lookup};
ghost use Rattle.coniks_c.specs.Core.{AreChangedIn, IsMarkedCore, IsMarkedIn, IsWithin, all_in, changes_in, entries_in, present_in, stored_in};
ghost use Rattle.coniks_c.specs.CoreReported.{IsAnswered, IsIndexedBy, LooksUp, Needs, StaysWatched, requested_epoch, watch_in};
ghost use Rattle.coniks_c.specs.Crossing.{IsReportedBy};

use crate::auditor::Reported;
use crate::core_client::{RawChanges, RawCore, RawStored, Used};
use crate::core_status::{lookup_status, reply_status};
use crate::core_values::{RawAsking, RawFound, RawNeeds, RawVerdicts, RawWhy, ReportedIndex};
use crate::numbers;
use coniks_chain::{ENTRY_BYTES, Verify};
use coniks_client::{
    Asking, Change, IndexScheme, LookupFault, Reply, Shown, StoredEntry, Verifier, Watch,
    is_stored, look_up,
};
use coniks_proof::{Hash32, Index, Sha256Hash};

/// Returns 1 if the signature of an entry must be verified, 0 if its bytes are stored.
fn unverified(stored: &[StoredEntry], entry: &[u8; ENTRY_BYTES]) -> u32
    ensures { ((result ≡ 0) × IsStored stored.now entry.now) ⊎ ((result ≡ 1) × (¬ IsStored stored.now entry.now)) }
{
    if is_stored(stored, entry) { 0 } else { 1 }
}

/// Finds what of a reply the caller has to verify before `coniks_core_lookup`.
///
/// Returns 0, or 64 to 67 if the bytes are no reply, and writes nothing then.
#[unsafe(no_mangle)]
pub extern "C" fn coniks_core_reply_needs(
    core: &RawCore<'_, '_>,
    reply: &[u8],
    needs: &mut RawNeeds,
) -> u32
    ensures read { result ≡ 0 → IsReply reply.now × Needs (stored_in core.now) reply.now needs.new }
    ensures refused { result ≢ 0 → (fault : Cut) × (result ≡ reply_status fault) × IsNoReply reply.now fault }
    ensures unwritten { result ≢ 0 → needs.new ≡ needs.old }
{
    match Reply::read(reply) {
        Ok(parts) => {
            *needs = RawNeeds {
                signature: unverified(core.stored(), parts.entry),
                entry_start: 1,
                vrf_start: 212,
                vrf_length: parts.vrf.len(),
            };
            numbers::GOOD
        }
        Err(fault) => reply_status(&fault),
    }
}

/// Looks a name up in the first stored epochs of an array, and marks them and the first changes.
fn look_up_first<'a, H: Hash32, V: Verify, S: IndexScheme>(
    by: &Verifier<'_, H, V, S>,
    used: &Used<'_>,
    stored: &mut [StoredEntry],
    changes: &mut [Change<'_>],
    asking: &Asking<'a>,
) -> Result<Shown<'a>, LookupFault>
    requires stored { used.now.stored ≤ length stored.old }
    requires changes { used.now.changes ≤ length changes.old }
    ensures ok { IfOk result (λ shown. LooksUp by.now.present (H.digest_of by.now.hash.now) (V.verdict_of by.now.signatures.now) (S.index_of by.now.indices.now) by.now.policy.now used.now.watch
        asking.now.name.now asking.now.reply.now asking.now.epoch (take used.now.stored stored.old) (take used.now.stored stored.new) (take used.now.changes changes.old) (take used.now.changes changes.new) shown) }
    ensures err { IfErr result (λ fault. IsNotFound by.now.present (H.digest_of by.now.hash.now) (V.verdict_of by.now.signatures.now) (S.index_of by.now.indices.now)
        by.now.policy.now (take used.now.stored stored.old) asking.now.name.now asking.now.reply.now asking.now.epoch fault) }
    ensures others { drop used.now.stored stored.new ≡ drop used.now.stored stored.old }
    ensures other_changes { drop used.now.changes changes.new ≡ drop used.now.changes changes.old }
    ensures unchanged { OnErr result (stored.new ≡ stored.old) }
    ensures unmarked { OnErr result (changes.new ≡ changes.old) }
{
    Ok(look_up(
        by,
        &mut stored[..used.stored],
        &used.watch,
        &mut changes[..used.changes],
        asking,
    )?)
}

/// Looks a name up in the stored epochs, and marks them and the changes.
fn look_up_in<'a, H: Hash32, V: Verify, S: IndexScheme>(
    by: &Verifier<'_, H, V, S>,
    watch: &Option<Watch<'_>>,
    stored: &mut RawStored<'_>,
    changes: &mut RawChanges<'_, '_>,
    asking: &Asking<'a>,
) -> Result<Shown<'a>, LookupFault>
    requires stored { stored.old.count ≤ length stored.old.items.now }
    requires changes { changes.old.count ≤ length changes.old.items.now }
    ensures ok { IfOk result (λ shown. LooksUp by.now.present (H.digest_of by.now.hash.now) (V.verdict_of by.now.signatures.now) (S.index_of by.now.indices.now) by.now.policy.now watch.now
        asking.now.name.now asking.now.reply.now asking.now.epoch (entries_in stored.old) (entries_in stored.new) (all_in changes.old) (all_in changes.new) shown) }
    ensures err { IfErr result (λ fault. IsNotFound by.now.present (H.digest_of by.now.hash.now) (V.verdict_of by.now.signatures.now) (S.index_of by.now.indices.now)
        by.now.policy.now (entries_in stored.old) asking.now.name.now asking.now.reply.now asking.now.epoch fault) }
    ensures others { IsMarkedIn stored.old stored.new }
    ensures other_changes { AreChangedIn changes.old changes.new }
    ensures unchanged { OnErr result (stored.new ≡ stored.old) }
    ensures unmarked { OnErr result (changes.new ≡ changes.old) }
{
    let used = Used {
        stored: stored.count,
        changes: changes.count,
        watch: *watch,
    };
    Ok(look_up_first(by, &used, stored.items, changes.items, asking)?)
}

/// Looks a name up in a reply, at the requested epoch, or at the latest one.
///
/// Returns 0 if the reply shows a key, or that the name is bound to none; `found` is written, and a watched epoch and the changes are marked.
/// Else returns the first error in this order: 64 to 67, 40, 80 to 87, 17 to 25, 2 to 8. Then `why` is written, and nothing else. Returns
/// 137 if a count is greater than its room, and writes nothing then.
#[unsafe(no_mangle)]
pub extern "C" fn coniks_core_lookup(
    core: &mut RawCore<'_, '_>,
    asking: &RawAsking<'_>,
    verdicts: &RawVerdicts,
    found: &mut RawFound,
    why: &mut RawWhy,
) -> u32
    ensures answered { result ≡ 0 → (verdict : Octets → Octets → Bool) (scheme : Scheme)
        → IsReportedBy verdict (entry_from (entry_part asking.now.reply.now)) verdicts.now.signature
        → IsIndexedBy scheme asking.now.name.now (vrf_part asking.now.reply.now) verdicts.now.index verdicts.now.at.bytes
        → (answer : Option Octets) × IsFound (present_in core.old.rules asking.now.time) sha256 verdict scheme core.old.rules.policy.bytes (stored_in core.old) asking.now.name.now asking.now.reply.now
        (requested_epoch asking.now.is_requested asking.now.epoch) found.new.place answer
        × IsAnswered (watch_in core.old.watch) (stored_in core.old) (stored_in core.new) (changes_in core.old) (changes_in core.new) asking.now.name.now asking.now.reply.now found.new answer }
    ensures full { result ≡ 137 ↔ (¬ IsWithin core.old) }
    ensures refused { result ≢ 0 → result ≢ 137 → (verdict : Octets → Octets → Bool) (scheme : Scheme)
        → IsReportedBy verdict (entry_from (entry_part asking.now.reply.now)) verdicts.now.signature
        → IsIndexedBy scheme asking.now.name.now (vrf_part asking.now.reply.now) verdicts.now.index verdicts.now.at.bytes
        → (fault : Fault) × (result ≡ lookup_status fault) × IsNotFound (present_in core.old.rules asking.now.time) sha256 verdict scheme core.old.rules.policy.bytes (stored_in core.old) asking.now.name.now
        asking.now.reply.now (requested_epoch asking.now.is_requested asking.now.epoch) fault × (why.new ≡ why_of_lookup fault) }
    ensures marked { IsMarkedCore core.old core.new }
    ensures unchanged { result ≢ 0 → (core.new ≡ core.old) × (found.new ≡ found.old) }
    ensures unwritten { (result ≡ 0) ⊎ (result ≡ 137) → why.new ≡ why.old }

    // The stored epochs are still a chain, and each that shows what is expected has a proof behind it.
    ensures chain { result ≡ 0 → IsChain sha256 (stored_in core.old) → IsChain sha256 (stored_in core.new) }
    ensures watched { result ≡ 0 → (scheme : Scheme) → IsIndexedBy scheme asking.now.name.now (vrf_part asking.now.reply.now) verdicts.now.index verdicts.now.at.bytes
        → StaysWatched scheme core.old core.new }
{
    if !core.is_within() {
        return numbers::MISUSE_NO_ROOM;
    }
    let policy = core.rules.policy;
    let watch = core.watched();
    let by = Verifier {
        hash: &Sha256Hash,
        signatures: &Reported {
            signature: verdicts.signature,
        },
        indices: &ReportedIndex {
            verdict: verdicts.index,
            index: Index(verdicts.at.bytes),
        },
        policy: &policy.bytes,
        present: core.rules.present(asking.time),
    };
    let requested = Asking {
        name: asking.name,
        epoch: asking.requested(),
        reply: asking.reply,
    };
    match look_up_in(&by, &watch, &mut core.stored, &mut core.changes, &requested) {
        Ok(shown) => {
            *found = RawFound::of(&shown, asking.reply);
            numbers::GOOD
        }
        Err(fault) => {
            *why = RawWhy::of_lookup(&fault);
            lookup_status(&fault)
        }
    }
}
