//! What an owner's client reports of its name.

ghost use Rattle.std.specs.Prelude.{◌≡◌, ◌≤◌, ℕ, List, Option, Some, slice_get};
ghost use Rattle.coniks_proof.specs.Octets.{Octets};
ghost use Rattle.coniks_client.specs.StoredEntry.{IsChain, epoch_in};
ghost use Rattle.coniks_client.specs.Owner.{IsSame, IsWatched, IsWatcher, Scheme};
ghost use Rattle.coniks_client.specs.declared.changes.Change.{Change};
ghost use Rattle.coniks_client.specs.declared.stored.StoredEntry.{StoredEntry as StoredOne};
ghost use Rattle.coniks_quorum.specs.Alarms.{AreLogged};
ghost use Rattle.coniks_quorum.specs.Reporting.{Reports, ReportsSame};
ghost use Rattle.coniks_quorum.specs.declared.reporting.Span.{Span as SpanOne};
ghost use Rattle.coniks_quorum.specs.declared.reporting.Report.TheVariants.{Good};

use crate::relying::is_confirmed;
use crate::sights::{Sight, View, first_of, first_seen};

/// The epochs from one number to another, both included.
#[derive(Clone, Copy, Debug, PartialEq, Eq)]
pub struct Span {
    pub from: u64,
    pub to: u64,
}

/// What an owner's client reports of its name: the first in declaration order that applies.
#[derive(Clone, Copy, Debug, PartialEq, Eq)]
pub enum Report {
    /// This epoch shows another key, or no key. It is the first such one: that of an alarm, else a stored one.
    Changed(u64),
    /// This stored epoch is missing, and not lost. It is the first such one.
    Missing(u64),
    /// This epoch is lost, or was when it was dropped. It is the first such one: that of an alarm, else a stored one. Each missing
    /// epoch is lost.
    Lost(u64),
    /// There is no alarm, and no stored epoch is watched.
    Unwatched,
    /// There is no alarm, and each of these epochs shows the expected key, but no quorum of auditors confirms the latest one.
    Unconfirmed(Span),
    /// There is no alarm, each of these epochs shows the expected key, and a quorum of auditors confirms all of them.
    Good(Span),
}

/// Returns what is reported if no watched epoch is changed or missing.
fn report_same(view: &View<'_>, confirmed: Option<u64>) -> Report
    ensures { ReportsSame view.now confirmed result }
{
    let Some(latest) = view.stored.last() else {
        return Report::Unwatched;
    };
    let Some(from) = first_seen(view, Sight::Same) else {
        return Report::Unwatched;
    };
    let to = latest.entry().body.t;
    if is_confirmed(confirmed, to) {
        Report::Good(Span { from, to })
    } else {
        Report::Unconfirmed(Span { from, to })
    }
}

/// Returns what an owner's client reports of its name. `confirmed` is the greatest confirmed epoch, if there is one.
///
/// An alarm is reported until the owner takes note of it. The latest epoch isn't compared with the clock: `age_fault` does that.
pub fn report_of(view: &View<'_>, confirmed: Option<u64>) -> Report
    ensures reports { Reports view.now confirmed result }

    // `Good` is returned only if the premises of the owner law hold of these epochs, and of the dropped ones whose alarms would be there.
    ensures good { (hash : Octets → Octets) (scheme : Scheme) (name : Octets) (key : Option Octets) (changes : List Change) (span : SpanOne)
        → result ≡ Good span → IsChain hash view.now.stored.now → IsWatched hash scheme name key changes view.now.stored.now
        → IsWatcher hash scheme name key changes span.from span.to view.now.stored.now }
    ensures past { (span : SpanOne) (from : ℕ) (dropped : List StoredOne) → result ≡ Good span → AreLogged from dropped view.now.alarms.now
        → (k : ℕ) (mine : StoredOne) → slice_get dropped k ≡ Some mine → from ≤ epoch_in mine → IsSame mine.seen }
{
    if let Some(epoch) = first_of(view, Sight::Other) {
        return Report::Changed(epoch);
    }
    if let Some(epoch) = first_seen(view, Sight::Awaited) {
        return Report::Missing(epoch);
    }
    if let Some(epoch) = first_of(view, Sight::Gone) {
        return Report::Lost(epoch);
    }
    report_same(view, confirmed)
}
