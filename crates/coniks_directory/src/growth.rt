//! The root that an epoch's tree grows from, and the changes.

ghost use Rattle.std.specs.Prelude.{◌≡◌, ◌++◌, ◌<◌, ◌≤◌, List, IfOk, IfSome, None, OnOk, length};
ghost use Rattle.coniks_proof.specs.Changes.{overwritten};
ghost use Rattle.coniks_proof.specs.Hashing.{Hashing};
ghost use Rattle.coniks_tree.specs.Trees.{table_of};
ghost use Rattle.coniks_tree.specs.Entries.{Lists, in_order};
ghost use Rattle.coniks_tree.specs.Parts.{AllPlaced, entries_in};
ghost use Rattle.coniks_tree.specs.Table.{Extends, Numbered};
ghost use Rattle.coniks_tree.specs.declared.table.Record.{Record};
ghost use Rattle.coniks_threads.specs.Grown.{IsOldMap};
ghost use Rattle.coniks_directory.specs.Built.{AreAligned, IsGrowth};

use coniks_proof::MAX_LEVEL;
use coniks_tree::{Change, OutOfMemory, Root, Tree, sides};
use std::alloc::{AllocError, Global};

/// The root that a tree grows from, or `None` for the empty map, and the changes.
#[derive(Drop)]
pub(crate) struct Growth {
    pub(crate) root: Option<Root>,
    pub(crate) changes: Vec<Change>,
}

/// Appends entries that are overwritten by changes to a list, in the order of their indices.
///
/// Entries and changes are in that order, under one prefix of `level` bits.
fn overlay(
    level: usize,
    entries: &[Change],
    changes: &[Change],
    all: &mut Vec<Change>,
) -> Result<(), AllocError>
    requires { level ≤ 256 }
    ensures lists { OnOk result (AreAligned level (entries_in entries.now) (entries_in changes.now)
        → entries_in all.new.items ≡ entries_in all.old.items ++ in_order level (overwritten (entries_in entries.now) (entries_in changes.now))) }
    ensures placed { OnOk result ((records : List Record) → AllPlaced records entries.now
        → AllPlaced records changes.now → AllPlaced records all.old.items → AllPlaced records all.new.items) }
{
    if changes.is_empty() {
        return Ok(all.extend_from_slice(entries)?);
    }
    if entries.is_empty() || level == MAX_LEVEL {
        return Ok(all.extend_from_slice(changes)?);
    }
    let (left, right) = sides(entries, level);
    let (left_changes, right_changes) = sides(changes, level);
    overlay(level + 1, left, left_changes, all)?;
    overlay(level + 1, right, right_changes, all)?;
    Ok(())
}

/// Returns the entries under a root, or none if there is no root.
fn entries_under(alloc: Global, tree: &Tree, root: Option<Root>) -> Result<Vec<Change>, OutOfMemory>
    requires { IfSome root (λ r. r.0 < length tree.now.nodes) }
    ensures placed { IfOk result (λ entries. (all : List Record) → Extends tree.now.records all → AllPlaced all entries.items) }
    ensures lists { IfOk result (λ listed. (by : Hashing) (entries : List Numbered)
        → IsOldMap by (table_of tree.now) root entries → Lists listed.items entries) }
{
    match root {
        Some(root) => Ok(tree.entries(root)?),
        None => Ok(Vec::new(alloc)),
    }
}

/// Returns the growth by a batch's changes from the latest root.
///
/// For a rehashed tree it is the growth by the whole changed map from the empty map.
pub(crate) fn growth_of(
    alloc: Global,
    tree: &Tree,
    root: Option<Root>,
    is_anew: bool,
    changes: Vec<Change>,
) -> Result<Growth, OutOfMemory>
    requires { IfSome root (λ r. r.0 < length tree.now.nodes) }
    ensures { IfOk result (IsGrowth (table_of tree.now) root is_anew changes.items) }
{
    if !is_anew {
        return Ok(Growth { root, changes });
    }
    let entries = entries_under(alloc, tree, root)?;
    let mut all = Vec::with_capacity(alloc, entries.len() + changes.len())?;
    overlay(0, &entries, &changes, &mut all)?;
    Ok(Growth {
        root: None,
        changes: all,
    })
}
