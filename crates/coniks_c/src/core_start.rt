//! The first entry of a client that starts late, in an array of the caller.

ghost use Rattle.std.specs.Prelude.{◌≡◌, ◌≢◌, ◌<◌, ◌≤◌, Bool, length, take};
ghost use Rattle.std.specs.Int.{to_be_bytes, w64};
ghost use Rattle.std.proofs.Math.ListN.{set};
ghost use Rattle.coniks_proof.specs.Octets.{Octets};
ghost use Rattle.coniks_proof.specs.Sha256.{sha256};
ghost use Rattle.coniks_chain.specs.Entries.{entry_from};
ghost use Rattle.coniks_client.specs.Steps.{new_number};
ghost use Rattle.coniks_client.specs.declared.stored.StoredEntry.{StoredEntry as StoredOne};
ghost use Rattle.coniks_quorum.specs.Marks.{IsGreatest, marks_of};
ghost use Rattle.coniks_quorum.specs.Vouching.{Begins, IsRefusedStart};
ghost use Rattle.coniks_quorum.specs.declared.vouching.StartFault.{StartFault as Fault};
ghost use Rattle.coniks_c.specs.Core.{stored_in};
ghost use Rattle.coniks_c.specs.CoreQuorum.{head_in, heads_in, misused_start};
ghost use Rattle.coniks_c.specs.CoreStatuses.{start_status, why_of_start};
ghost use Rattle.coniks_c.specs.CoreReported.{watch_in};
ghost use Rattle.coniks_c.specs.Crossing.{IsReportedBy};

use crate::auditor::Reported;
use crate::core_client::RawCore;
use crate::core_status::start_status;
use crate::core_values::{RawReceived, RawWhy};
use crate::numbers;
use crate::values::Bytes32;
use coniks_client::watching::UNWATCHED;
use coniks_client::{StoredEntry, Watch};
use coniks_proof::{Digest, Head, Sha256Hash};
use coniks_quorum::heads::MAX_AUDITORS;
use coniks_quorum::vouching::{StartVerifier, Vouchers, vouched};

/// The head that an auditor cosigned.
#[repr(C)]
#[derive(Clone, Copy)]
pub struct RawHead {
    /// 1 if the client has a head of this auditor. Nothing else is read if not.
    pub is_there: u32,
    pub epoch: u64,
    pub link: Bytes32,
}

impl RawHead {
    /// Returns the head, if there is one.
    fn head(&self) -> Option<Head>
        ensures { result ≡ head_in self.now }
    {
        if self.is_there == 1 {
            Some(Head {
                epoch: self.epoch,
                link: Digest(self.link.bytes),
            })
        } else {
            None
        }
    }
}

/// Writes the heads to the front of an array.
fn write_heads(heads: &[RawHead], all: &mut [Option<Head>])
    requires { length heads.now ≤ length all.old }
    ensures size { length all.new ≡ length all.old }
    ensures written { take (length heads.now) all.new ≡ heads_in heads.now }
{
    for (place, raw) in heads.iter().enumerate() {
        all[place] = raw.head();
    }
}

/// Returns the status of a start that the caller must not make, or 0.
fn misused_start(core: &RawCore<'_, '_>, heads: &[RawHead]) -> u32
    ensures { result ≡ misused_start core.now (length heads.now) }
{
    if core.stored.count > 0 {
        numbers::MISUSE_HAS_ENTRIES
    } else if core.rules.quorum == 0 {
        numbers::MISUSE_NO_QUORUM
    } else if heads.len() > MAX_AUDITORS {
        numbers::MISUSE_MANY_HEADS
    } else if core.stored.items.is_empty() {
        numbers::MISUSE_NO_ROOM
    } else {
        numbers::GOOD
    }
}

/// Returns the number of the first epoch.
pub(crate) fn first_number(watch: &Option<Watch<'_>>, epoch: u64) -> u8
    ensures { result ≡ new_number watch.now epoch }
{
    match watch {
        Some(watch) => watch.first(epoch),
        None => UNWATCHED,
    }
}

/// Writes the first stored epoch.
pub(crate) fn put_first(stored: &mut [StoredEntry], mine: &StoredEntry, seen: u8)
    requires { 0 < length stored.old }
    ensures { stored.new ≡ set stored.old 0 (record mine.now { seen = seen }) }
{
    stored[0] = StoredEntry {
        entry: mine.entry,
        first_seen: mine.first_seen,
        seen,
    };
}

/// Accepts the first entry of a client that starts late: a quorum of auditors has the entry's head.
///
/// `heads` has the head of each auditor, in the order of the marks, at most 64. The quorum is that of `coniks_core_quorum`. Returns 0, and
/// the entry is stored. Call `coniks_core_mark` with each head then. Else returns the first error in this order, and keeps nothing: 140 if
/// the client has an entry, 141 if the quorum is 0, 142 for more than 64 heads, 137 if there is no room for an epoch; then 48, 40, 80, 81,
/// 105 if an auditor has another link for the entry's epoch, 104 if fewer than a quorum have its head. From 48 on `why` is written. After
/// an error nothing else is.
#[unsafe(no_mangle)]
pub extern "C" fn coniks_core_start(
    core: &mut RawCore<'_, '_>,
    heads: &[RawHead],
    received: &RawReceived<'_>,
    why: &mut RawWhy,
) -> u32
    ensures misused { misused_start core.old (length heads.now) ≢ 0 → (result ≡ misused_start core.old (length heads.now)) × (why.new ≡ why.old) }
    ensures begins { result ≡ 0 → (verdict : Octets → Octets → Bool) → IsReportedBy verdict (entry_from received.now.entry.now) received.now.signature
        → Begins sha256 verdict core.old.rules.policy.bytes (heads_in heads.now) core.old.rules.quorum received.now.entry.now }
    ensures one { result ≡ 0 → (core.old.stored.count ≡ 0) × (core.new.stored.count ≡ 1) }
    ensures stored { result ≡ 0 → (mine : StoredOne) × (core.new.stored.items.now ≡ set core.old.stored.items.now 0 mine) × (mine.entry ≡ received.now.entry.now)
        × (mine.first_seen ≡ to_be_bytes w64 received.now.time) × (mine.seen ≡ new_number (watch_in core.old.watch) (entry_from received.now.entry.now).body.t) }
    ensures refused { result ≢ 0 → misused_start core.old (length heads.now) ≡ 0
        → (verdict : Octets → Octets → Bool) → IsReportedBy verdict (entry_from received.now.entry.now) received.now.signature
        → (fault : Fault) × (result ≡ start_status fault) × IsRefusedStart sha256 verdict core.old.rules.policy.bytes (heads_in heads.now) core.old.rules.quorum received.now.entry.now fault × (why.new ≡ why_of_start fault) }
    ensures others { core.new ≡ record core.old { stored = core.new.stored } }
    ensures unchanged { result ≢ 0 → core.new ≡ core.old }
    ensures unwritten { result ≡ 0 → why.new ≡ why.old }

    // The greatest epoch that the marks of these heads confirm is that of the entry.
    ensures confirmed { result ≡ 0 → IsGreatest (marks_of sha256 (stored_in core.new) (heads_in heads.now)) core.old.rules.quorum (entry_from received.now.entry.now).body.t }
{
    let misused = misused_start(core, heads);
    if misused != numbers::GOOD {
        return misused;
    }
    let reported = Reported {
        signature: received.signature,
    };
    let mut all = [None; MAX_AUDITORS];
    write_heads(heads, &mut all);
    let vouchers = Vouchers {
        heads: &all[..heads.len()],
        quorum: core.rules.quorum,
    };
    let policy = core.rules.policy;
    let watch = core.watched();
    let by = StartVerifier {
        hash: &Sha256Hash,
        signatures: &reported,
        policy: &policy.bytes,
    };
    match vouched(&by, &vouchers, received.entry, received.time) {
        Ok(mine) => {
            let seen = first_number(&watch, mine.epoch());
            put_first(core.stored.items, &mine, seen);
            core.stored.count = 1;
            numbers::GOOD
        }
        Err(fault) => {
            *why = RawWhy::of_start(&fault);
            start_status(&fault)
        }
    }
}
