//! What a client reports to the owner of the watched name.

ghost use Rattle.std.specs.Prelude.{◌≡◌, ◌≢◌, ◌⊎◌, ◌↔◌, ◌≤◌, ℕ, List, Option, Some, slice_get};
ghost use Rattle.coniks_proof.specs.Octets.{Octets};
ghost use Rattle.coniks_proof.specs.Sha256.{sha256};
ghost use Rattle.coniks_client.specs.StoredEntry.{IsChain, epoch_in};
ghost use Rattle.coniks_client.specs.Owner.{IsSame, IsWatched, IsWatcher, Scheme};
ghost use Rattle.coniks_client.specs.declared.changes.Change.{Change as ChangeOne};
ghost use Rattle.coniks_client.specs.declared.stored.StoredEntry.{StoredEntry as StoredOne};
ghost use Rattle.coniks_quorum.specs.Alarms.{AreLogged};
ghost use Rattle.coniks_quorum.specs.Marks.{IsGreatest};
ghost use Rattle.coniks_quorum.specs.Reporting.{Reports};
ghost use Rattle.coniks_quorum.specs.declared.reporting.Report.{Report as Outcome};
ghost use Rattle.coniks_quorum.specs.declared.sights.View.{View as Seen};
ghost use Rattle.coniks_c.specs.Core.{alarms_in, stored_in};
ghost use Rattle.coniks_c.specs.CoreQuorum.{ConfirmsTo, IsViewOf, raw_report};

use crate::core_client::RawCore;
use crate::core_quorum::confirmed_to;
use crate::numbers;
use coniks_quorum::reporting::{Report, report_of};
use coniks_quorum::sights::View;

/// What a client reports of the watched name.
#[repr(C)]
#[derive(Clone, Copy)]
pub struct RawReport {
    /// 1 changed, 2 missing, 3 lost, 4 no stored epoch is watched, 5 the same but not confirmed, 6 good.
    pub verdict: u32,
    /// The first and the last epoch that the verdict is about. They are equal for 1 to 3, and 0 for 4.
    pub from: u64,
    pub to: u64,
}

impl RawReport {
    /// Returns a verdict on the epochs from one number to another.
    fn on(verdict: u32, from: u64, to: u64) -> RawReport
        ensures { result ≡ record { verdict = verdict; from = from; to = to } }
    {
        RawReport { verdict, from, to }
    }

    /// Returns what is written of a report.
    fn of(report: &Report) -> RawReport
        ensures { result ≡ raw_report report.now }
    {
        match report {
            Report::Changed(epoch) => RawReport::on(1, *epoch, *epoch),
            Report::Missing(epoch) => RawReport::on(2, *epoch, *epoch),
            Report::Lost(epoch) => RawReport::on(3, *epoch, *epoch),
            Report::Unwatched => RawReport::on(4, 0, 0),
            Report::Unconfirmed(span) => RawReport::on(5, span.from, span.to),
            Report::Good(span) => RawReport::on(6, span.from, span.to),
        }
    }
}

/// Reports what the client has seen of the watched name: at the stored epochs, and at the dropped ones of which there are alarms.
///
/// Returns 0, and writes the first verdict that applies: 1 an alarm or a stored epoch shows another key, or no key; 2 a stored one is missing,
/// and not lost; 3 an alarm or a stored epoch is lost; 4 no stored epoch is watched; 5 all are the same, but no quorum of the marks confirms
/// the latest one; 6 all are the same and confirmed. So 4 to 6 are written only if there is no alarm. Returns 133 if no name is watched,
/// and writes nothing then. It doesn't compare the latest epoch with the clock.
#[unsafe(no_mangle)]
pub extern "C" fn coniks_core_report(
    core: &RawCore<'_, '_>,
    time: u64,
    report: &mut RawReport,
) -> u32
    ensures reported { result ≡ 0 → (confirmed : Option ℕ) × (outcome : Outcome) × ConfirmsTo core.now.marks.items.now core.now.rules.quorum confirmed
        × ((view : Seen) × IsViewOf core.now time view × Reports view confirmed outcome) × (report.new ≡ raw_report outcome) }
    ensures none { result ≡ 133 ↔ core.now.watch.is_watched ≢ 1 }
    ensures known { (result ≡ 0) ⊎ (result ≡ 133) }
    ensures unwritten { result ≢ 0 → report.new ≡ report.old }

    // 6 is written only if the premises of the owner law hold of these epochs, and of the dropped ones whose alarms would be there, and a
    // quorum confirms the last of them.
    ensures good { result ≡ 0 → report.new.verdict ≡ 6 → (scheme : Scheme) (name : Octets) (key : Option Octets) (changes : List ChangeOne)
        → IsChain sha256 (stored_in core.now) → IsWatched sha256 scheme name key changes (stored_in core.now)
        → IsWatcher sha256 scheme name key changes report.new.from report.new.to (stored_in core.now) }
    ensures past { result ≡ 0 → report.new.verdict ≡ 6 → (from : ℕ) (dropped : List StoredOne) → AreLogged from dropped (alarms_in core.now)
        → (k : ℕ) (mine : StoredOne) → slice_get dropped k ≡ Some mine → from ≤ epoch_in mine → IsSame mine.seen }
    ensures sure { result ≡ 0 → report.new.verdict ≡ 6 → (to : ℕ) × IsGreatest core.now.marks.items.now core.now.rules.quorum to × (report.new.to ≤ to) }
{
    if core.watch.is_watched != 1 {
        return numbers::MISUSE_NOT_WATCHING;
    }
    let view = View {
        stored: core.stored(),
        alarms: core.alarms(),
        since: core.watch.since,
        present: core.rules.present(time),
        promise: core.rules.promise(),
    };
    let outcome = report_of(&view, confirmed_to(core.marks.items, core.rules.quorum));
    *report = RawReport::of(&outcome);
    numbers::GOOD
}
