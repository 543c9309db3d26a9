//! What a client remembers of its auditors, and the epoch that a quorum of them confirms.

ghost use Rattle.std.specs.Prelude.{◌≡◌, ◌<◌, ◌++◌, List, IfNone, IfSome, length, map, nat_le};
ghost use Rattle.coniks_proof.specs.Octets.{Octets};
ghost use Rattle.coniks_client.specs.Comparing.{Compares};
ghost use Rattle.coniks_client.specs.Feeding.{IsSignedAgain};
ghost use Rattle.coniks_client.specs.StoredEntry.{entry_in, epoch_in};
ghost use Rattle.coniks_client.specs.Steps.{with_latest};
ghost use Rattle.coniks_client.specs.declared.stored.StoredEntry.{StoredEntry as StoredOne};
ghost use Rattle.coniks_quorum.specs.Auditors.{Auditor, WasCosigned};
ghost use Rattle.coniks_quorum.specs.Marks.{AreMarks, IsBetter, IsGreatest, IsRaised, ReachesNone, Remembers, reaching, unmarked};

use coniks_client::comparing::{Comparison, compare};
use coniks_client::stored::StoredEntry;
use coniks_proof::{Hash32, Head};

/// Returns the number of marks at an epoch or a later one.
pub fn reaches(marks: &[u64], epoch: u64) -> usize
    ensures { result ≡ reaching marks.now epoch }
{
    marks.iter().filter(|mark| epoch <= **mark).count()
}

/// Returns whether a quorum of the marks reaches an epoch.
fn has_quorum(marks: &[u64], quorum: usize, epoch: u64) -> bool
    ensures { result ≡ nat_le quorum (reaching marks.now epoch) }
{
    quorum <= reaches(marks, epoch)
}

/// Returns the greater one of an epoch and a mark, if a quorum reaches the mark.
fn better(marks: &[u64], quorum: usize, best: u64, mark: u64) -> u64
    ensures { IsBetter marks.now quorum best mark result }
{
    if mark <= best {
        return best;
    }
    if has_quorum(marks, quorum, mark) {
        mark
    } else {
        best
    }
}

/// Returns the greatest epoch that a quorum of the marks reaches, or `None` if a quorum reaches none.
///
/// The order of the marks doesn't matter. The time is quadratic in their number.
pub fn confirmed(marks: &[u64], quorum: usize) -> Option<u64>
    requires { 0 < quorum }
    ensures some { IfSome result (λ epoch. IsGreatest marks.now quorum epoch) }
    ensures none { IfNone result (ReachesNone marks.now quorum) }
{
    let mut best = 0;
    for mark in marks {
        best = better(marks, quorum, best, *mark);
    }
    if best == 0 { None } else { Some(best) }
}

/// Raises a mark to an epoch.
fn raise(marks: &mut [u64], place: usize, epoch: u64)
    requires { place < length marks.old }
    ensures { IsRaised marks.old marks.new place epoch }
{
    marks[place] = marks[place].max(epoch);
}

/// Raises the mark of an auditor to the epoch of its head, if the head was found equal to that of a stored entry.
pub fn remember(marks: &mut [u64], place: usize, head: &Head, found: &Comparison)
    requires { place < length marks.old }
    ensures remembers { Remembers marks.old marks.new place head.now.epoch found.now }

    // If the auditor cosigned the head, right marks stay right. They speak of all accepted entries, also of the dropped ones.
    ensures right { (hash : Octets → Octets) (stored : List StoredOne) → Compares hash stored head.now found.now
        → (auditors : List Auditor) (dropped : List StoredOne) → WasCosigned auditors place head.now
        → AreMarks hash auditors (dropped ++ stored) marks.old → AreMarks hash auditors (dropped ++ stored) marks.new }
{
    if let Comparison::Equal(_) = found {
        raise(marks, place, head.epoch);
    }
}

/// Compares an auditor's head with the stored entries, and raises the auditor's mark to its epoch if they are equal.
///
/// `place` is that of the auditor. A head that differs or is unknown changes no mark. A head at a dropped epoch is unknown, so
/// compare heads before entries are dropped.
pub fn mark<H: Hash32>(
    h: &H,
    stored: &[StoredEntry],
    marks: &mut [u64],
    place: usize,
    head: &Head,
) -> Comparison
    requires { place < length marks.old }
    ensures compares { Compares (H.digest_of h.now) stored.now head.now result }
    ensures remembers { Remembers marks.old marks.new place head.now.epoch result }

    // If the auditor cosigned the head, right marks stay right. They speak of all accepted entries, also of the dropped ones.
    ensures right { (auditors : List Auditor) (dropped : List StoredOne) → WasCosigned auditors place head.now
        → AreMarks (H.digest_of h.now) auditors (dropped ++ stored.now) marks.old
        → AreMarks (H.digest_of h.now) auditors (dropped ++ stored.now) marks.new }
{
    let found = compare(h, stored, head);
    remember(marks, place, head, &found);
    found
}

/// Returns a mark, or 0 if it is at an epoch.
fn unmarked(mark: u64, epoch: u64) -> u64
    ensures { result ≡ unmarked epoch mark }
{
    if mark == epoch { 0 } else { mark }
}

/// Sets each mark at an epoch to 0.
fn unmark_each(marks: &mut [u64], epoch: u64)
    ensures { marks.new ≡ map (unmarked epoch) marks.old }
{
    for place in 0..marks.len() {
        marks[place] = unmarked(marks[place], epoch);
    }
}

/// Sets each mark at an epoch to 0.
///
/// Call it with the epoch of the latest entry if that was signed again: a head that was equal there is of the signature before.
pub fn unmark(marks: &mut [u64], epoch: u64)
    ensures unmarked { marks.new ≡ map (unmarked epoch) marks.old }

    // Right marks are then right of the chain in which the latest entry has its new signature.
    ensures right { (hash : Octets → Octets) (auditors : List Auditor) (dropped stored : List StoredOne) (latest mine : StoredOne)
        → IsSignedAgain stored latest (entry_in mine) → epoch_in latest ≡ epoch
        → AreMarks hash auditors (dropped ++ stored) marks.old → AreMarks hash auditors (dropped ++ with_latest stored mine) marks.new }
{
    unmark_each(marks, epoch);
}
