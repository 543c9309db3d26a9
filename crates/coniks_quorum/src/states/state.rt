//! The parts of a state that was read.

ghost use Rattle.std.specs.Prelude.{◌≡◌, ◌<◌, ◌≤◌, IfNone, IfSome, length, map, slice_get, take};
ghost use Rattle.std.proofs.Math.ListN.{set};
ghost use Rattle.coniks_quorum.specs.StateForms.{IsSizedWatch};
ghost use Rattle.coniks_quorum.specs.Saved.{SavedWatch, alarm_from, stored_from, mark_from, saved_change};

use crate::alarms::Alarm;
use crate::states::forms::FromBytes;
use crate::states::parts::{ALARM_BYTES, MARK_BYTES, STORED_BYTES, split_change};
use crate::states::reading::are_same;
use coniks_client::changes::Change;
use coniks_client::stored::StoredEntry;
use coniks_client::watching::Watch;

/// A watched name, and the bytes of the changes of its key.
#[derive(Clone, Copy)]
pub struct Watched<'a> {
    pub watch: Watch<'a>,
    /// The number of changes.
    pub count: usize,
    /// Their bytes.
    pub changes: &'a [u8],
}

/// The parts of a state. All of them are borrowed from its bytes.
#[derive(Clone, Copy)]
pub struct State<'a> {
    /// The stored epochs, each as 218 bytes.
    pub stored: &'a [[u8; STORED_BYTES]],
    /// The alarms, each as 9 bytes.
    pub alarms: &'a [[u8; ALARM_BYTES]],
    /// The SHA-256 of the trust document, 32 zero bytes without one.
    pub trust: &'a [u8; 32],
    /// The marks, each as 8 bytes.
    pub marks: &'a [[u8; MARK_BYTES]],
    /// The watched name, if there is one.
    pub watch: Option<Watched<'a>>,
}

impl State<'_> {
    ghost use Rattle.coniks_quorum.specs.Says.{AreMarksAfter};

    /// Returns a stored epoch, counted from 0, or `None` if there are fewer.
    pub fn stored_at(&self, place: usize) -> Option<StoredEntry>
        ensures { result ≡ slice_get (map stored_from self.now.stored.now) place }
    {
        if place < self.stored.len() {
            Some(StoredEntry::from_bytes(&self.stored[place]))
        } else {
            None
        }
    }

    /// Copies the stored epochs to the first places of a slice, and returns their number.
    ///
    /// Returns `None` if the slice has fewer places. Then its contents are unspecified.
    pub fn copy_stored(&self, out: &mut [StoredEntry]) -> Option<usize>
        ensures some { IfSome result (λ count. take count out.new ≡ map stored_from self.now.stored.now) }
        ensures count { IfSome result (λ count. count ≡ length self.now.stored.now) }
        ensures none { IfNone result (length out.old < length self.now.stored.now) }
    {
        copy_parts(self.stored, out)
    }

    /// Copies the alarms to the first places of a slice, and returns their number.
    ///
    /// Returns `None` if the slice has fewer places. Then its contents are unspecified.
    pub fn copy_alarms(&self, out: &mut [Alarm]) -> Option<usize>
        ensures some { IfSome result (λ count. take count out.new ≡ map alarm_from self.now.alarms.now) }
        ensures count { IfSome result (λ count. count ≡ length self.now.alarms.now) }
        ensures none { IfNone result (length out.old < length self.now.alarms.now) }
    {
        copy_parts(self.alarms, out)
    }

    /// Writes the marks of a client that names a trust document, one for each of its auditors.
    ///
    /// They are those of the state, if it is of the same trust document and of the same number of auditors, else 0.
    pub fn copy_marks(&self, trust: &[u8; 32], out: &mut [u64])
        ensures { AreMarksAfter self.now.trust.now (map mark_from self.now.marks.now) trust.now out.new }
    {
        let saved = self.trust;
        let marks = self.marks;
        if are_same(saved, trust) && marks.len() == out.len() {
            copy_marks(marks, out);
        } else {
            out.fill(0);
        }
    }
}

/// Copies parts to the first places of a slice.
fn write_parts<const N: usize, P: FromBytes<N>>(parts: &[[u8; N]], out: &mut [P])
    requires { length parts.now ≤ length out.old }
    ensures written { take (length parts.now) out.new ≡ map P.one_from parts.now }
    ensures size { length out.new ≡ length out.old }
{
    for (place, bytes) in parts.iter().enumerate() {
        out[place] = P::from_bytes(bytes);
    }
}

/// Copies parts to the first places of a slice, and returns their number, or `None` if the slice has fewer places.
fn copy_parts<const N: usize, P: FromBytes<N>>(parts: &[[u8; N]], out: &mut [P]) -> Option<usize>
    ensures some { IfSome result (λ count. take count out.new ≡ map P.one_from parts.now) }
    ensures count { IfSome result (λ count. count ≡ length parts.now) }
    ensures none { IfNone result (length out.old < length parts.now) }
{
    if out.len() < parts.len() {
        return None;
    }
    write_parts(parts, out);
    Some(parts.len())
}

/// Copies marks to a slice of their number.
fn copy_marks(marks: &[[u8; MARK_BYTES]], out: &mut [u64])
    requires { length marks.now ≡ length out.old }
    ensures { out.new ≡ map mark_from marks.now }
{
    write_parts(marks, out);
}

/// Writes the change at a place.
fn set_change<'a>(changes: &mut [Change<'a>], place: usize, change: &Change<'a>)
    requires { place < length changes.old }
    ensures { changes.new ≡ set changes.old place change.now }
{
    changes[place] = *change;
}

impl<'a> Watched<'a> {
    ghost use Rattle.coniks_quorum.specs.Says.{SaysWatched};

    /// Returns a change, counted from 0, or `None` if there are fewer. Reads all changes before it.
    pub fn change_at(&self, place: usize) -> Option<Change<'a>>
        ensures some { IfSome result (λ change. (saved : SavedWatch) → IsSizedWatch saved → SaysWatched self.now saved
            → slice_get saved.changes place ≡ Some (saved_change change)) }
        ensures none { IfNone result ((saved : SavedWatch) → IsSizedWatch saved → SaysWatched self.now saved → length saved.changes ≤ place) }
    {
        let mut rest = self.changes;
        for _before in 0..place {
            let Some((_, after)) = split_change(rest) else {
                return None;
            };
            rest = after;
        }
        let Some((change, _)) = split_change(rest) else {
            return None;
        };
        Some(change)
    }

    /// Copies the changes to the first places of a slice, and returns their number.
    ///
    /// Returns `None` if the slice has fewer places. Then its contents are unspecified.
    pub fn copy_changes(&self, out: &mut [Change<'a>]) -> Option<usize>
        ensures some { IfSome result (λ count. (saved : SavedWatch) → IsSizedWatch saved → SaysWatched self.now saved
            → map saved_change (take count out.new) ≡ saved.changes) }
        ensures count { IfSome result (λ count. (saved : SavedWatch) → IsSizedWatch saved → SaysWatched self.now saved → count ≡ length saved.changes) }
        ensures none { IfNone result ((saved : SavedWatch) → IsSizedWatch saved → SaysWatched self.now saved → length out.old < length saved.changes) }
    {
        let mut rest = self.changes;
        let mut count = 0;
        while let Some((change, after)) = split_change(rest) {
            if count == out.len() {
                return None;
            }
            set_change(out, count, &change);
            count += 1;
            rest = after;
        }
        Some(count)
    }
}
