//! Parts that are overwritten by changes.

ghost use Rattle.std.specs.Prelude.{◌≡◌, ◌∷◌, [], ◌<◌, ◌≤◌, ◌+◌, ◌*◌, ◌-◌, List, length, slice_get, IfOk, IfSome, Some, None, Bool, drop, false, take, true};
ghost use Rattle.coniks_proof.specs.Entries.{half};
ghost use Rattle.coniks_proof.specs.Changes.{overwritten, AreApart, AreInOrder};
ghost use Rattle.coniks_proof.specs.Hashing.{Hashing, hashing};
ghost use Rattle.coniks_tree.specs.Table.{Extends, Numbered, Table};
ghost use Rattle.coniks_tree.specs.Trees.{table_of};
ghost use Rattle.coniks_tree.specs.declared.part.Part.{Entry};
ghost use Rattle.coniks_tree.specs.Counts.{new_nodes};
ghost use Rattle.coniks_tree.specs.Parts.{Stands, Fits, KeepsNone, Placed, AllPlaced, node_count, is_made, entries_in, entry_of_change};

use crate::halving::opened;
use crate::levels::grow_by_levels;
use crate::part::{Change, Part, join_parts, lefts};
use crate::table::Record;
use crate::tree::Base;
use coniks_proof::{Hash32, Index, MAX_LEVEL, Prefix};
use std::alloc::AllocError;

/// The fewest changes for which a part is grown level by level.
const FEWEST_BY_LEVELS: usize = 8;

/// The most changes for which a part is grown level by level.
const MOST_BY_LEVELS: usize = 256;

/// Splits changes into those that go left at a level, and those that go right.
pub fn sides(changes: &[Change], level: usize) -> (&[Change], &[Change])
    requires { level < 256 }
    ensures all { length result.0.now + length result.1.now ≡ length changes.now }
    ensures cut { length result.0.now ≡ length (half false level (entries_in changes.now)) }
    ensures front { entries_in result.0.now ≡ take (length (half false level (entries_in changes.now))) (entries_in changes.now) }
    ensures back { entries_in result.1.now ≡ drop (length (half false level (entries_in changes.now))) (entries_in changes.now) }
    ensures placed { (all : List Record) → AllPlaced all changes.now → AllPlaced all result.0.now × AllPlaced all result.1.now }
    ensures left { AreInOrder level (entries_in changes.now) → entries_in result.0.now ≡ half false level (entries_in changes.now) }
    ensures right { AreInOrder level (entries_in changes.now) → entries_in result.1.now ≡ half true level (entries_in changes.now) }
{
    let cut = lefts(changes, level);
    changes.split_at(cut)
}

/// Returns whether a change of this index leaves a part with no other entry.
pub(crate) fn is_replaced(part: &Part, index: &Index) -> bool
    ensures { (by : Hashing) (t : Table) (prefix : List Bool) (entries : List Numbered) (new : Numbered)
        → Stands by t part.now prefix entries → new.index ≡ index.now.0 → result ≡ true → overwritten entries (new ∷ []) ≡ new ∷ [] }
{
    match part {
        Part::Nothing => true,
        Part::Entry(change) => *index == change.index,
        Part::Kept(_) => false,
        Part::Made(_) => false,
    }
}

/// Returns the first of the changes.
fn first_of(changes: &[Change]) -> Change
    requires { 0 < length changes.now }
    ensures { slice_get changes.now 0 ≡ Some result }
{
    changes[0]
}

/// Returns the change that leaves one entry, if there is one.
pub(crate) fn only_change(level: usize, part: &Part, changes: &[Change]) -> Option<Change>
    requires short { level ≤ 256 }
    requires some { 0 < length changes.now }
    ensures none { result ≡ None → level < 256 }
    ensures placed { IfSome result (λ change. (all : List Record) → AllPlaced all changes.now → Placed all (Entry change)) }
    ensures stands { IfSome result
        (λ change. (by : Hashing) (t : Table) (prefix : List Bool) (entries : List Numbered)
        → AreApart level (overwritten entries (entries_in changes.now))
        → Stands by t part.now prefix entries → overwritten entries (entries_in changes.now) ≡ entry_of_change change ∷ []) }
{
    let first = first_of(changes);
    if level == MAX_LEVEL {
        Some(first)
    } else if changes.len() == 1 {
        if is_replaced(part, &first.index) {
            Some(first)
        } else {
            None
        }
    } else {
        None
    }
}

/// Returns the part overwritten by the changes.
pub(crate) fn grow_part<H: Hash32>(
    base: &Base<'_, H>,
    part: Part,
    prefix: &Prefix,
    changes: &[Change],
) -> Result<Part, AllocError>
    requires { Fits (length base.now.tree.now.nodes) (length prefix.now) part }
    ensures fits { IfOk result (λ grown. Fits (length base.now.tree.now.nodes) (length prefix.now) grown) }
    ensures same { IfOk result (λ grown. length changes.now ≡ 0 → grown ≡ part) }
    ensures placed { IfOk result (λ grown. (all : List Record) → Extends base.now.tree.now.records all
        → Placed all part → AllPlaced all changes.now → Placed all grown) }
    ensures count { IfOk result (λ grown. is_made part ≡ false → 0 < length changes.now
        → node_count grown ≤ 1 + 2 * ((256 - length prefix.now) * length changes.now)) }
    ensures new { IfOk result (λ grown. is_made part ≡ false → 0 < length prefix.now + length changes.now → (entries : List Numbered)
        → AreInOrder (length prefix.now) (entries_in changes.now)
        → AreApart (length prefix.now) (overwritten entries (entries_in changes.now))
        → Stands (hashing (H.digest_of base.now.h.now) base.now.nonce.now.0) (table_of base.now.tree.now) part prefix.now entries
        → node_count grown ≡ new_nodes (length prefix.now) entries (entries_in changes.now)) }
    ensures keeps { IfOk result (λ grown. KeepsNone part → KeepsNone grown) }
    ensures stands { IfOk result (λ grown. (entries : List Numbered)
        → AreInOrder (length prefix.now) (entries_in changes.now)
        → AreApart (length prefix.now) (overwritten entries (entries_in changes.now))
        → Stands (hashing (H.digest_of base.now.h.now) base.now.nonce.now.0) (table_of base.now.tree.now) part prefix.now entries
        → Stands (hashing (H.digest_of base.now.h.now) base.now.nonce.now.0) (table_of base.now.tree.now)
        grown prefix.now (overwritten entries (entries_in changes.now))) }
{
    if changes.is_empty() {
        return Ok(part);
    }
    let level = prefix.len();
    if let Some(change) = only_change(level, &part, changes) {
        return Ok(Part::Entry(change));
    }
    if changes.len() >= FEWEST_BY_LEVELS && changes.len() <= MOST_BY_LEVELS {
        return grow_by_levels(base, part, prefix, changes);
    }
    let (left, right) = opened(base.tree, level, part);
    let (changes_left, changes_right) = sides(changes, level);
    let left = grow_part(base, left, &prefix.child(false), changes_left)?;
    let right = grow_part(base, right, &prefix.child(true), changes_right)?;
    Ok(join_parts(base, prefix, left, right)?)
}
