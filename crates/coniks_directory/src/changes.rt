//! The changes of a checked batch.

ghost use Rattle.std.specs.Prelude.{◌≡◌, ◌<◌, ◌+◌, ◌^◌, All, List, IfOk, length};
ghost use Rattle.std.specs.BTreeMap.{values};
ghost use Rattle.coniks_proof.specs.Octets.{Octets};
ghost use Rattle.coniks_proof.specs.Registry.{Registered};
ghost use Rattle.coniks_tree.specs.Parts.{entries_in, entry_of_change};
ghost use Rattle.coniks_tree.specs.Table.{entry_of_record};
ghost use Rattle.coniks_directory.specs.Judged.{AreChangesOf, ArePendingRecords};

use crate::pending::PendingRecords;
use coniks_tree::{Change, Record, RecordNo};
use std::alloc::{AllocError, Global};

/// Returns the change that stores a record in the tree, for a record at this position.
fn change_to(place: usize, new: &Record) -> Change
    ensures { entry_of_change result ≡ entry_of_record place new.now }
{
    Change {
        index: new.index,
        commitment: new.commitment,
        place: RecordNo(place),
    }
}

/// Returns the changes that store the records in the tree, in increasing order of index.
///
/// The records are stored from position `base` on.
pub(crate) fn changes_of(
    alloc: Global,
    base: usize,
    pending: &PendingRecords,
) -> Result<Vec<Change>, AllocError>
    requires numbered { All (λ n. n < length pending.now.records.items) (values pending.now.numbers) }
    requires fits { base + length pending.now.records.items < 2 ^ 64 }
    ensures { IfOk result (λ changes. (hash index_of : Octets → Octets) (bound : List Registered)
        → ArePendingRecords hash index_of bound pending.now.records.items pending.now.numbers
        → AreChangesOf base pending.now.records.items (entries_in changes.items)) }
{
    let mut changes = Vec::with_capacity(alloc, pending.records.len())?;
    for &number in pending.numbers.values() {
        changes.push(change_to(base + number, &pending.records[number]))?;
    }
    Ok(changes)
}
