//! The entries under a root, in the order of their indices.

ghost use Rattle.std.specs.Prelude.{◌≡◌, ◌++◌, ◌<◌, ◌-◌, List, length, slice_get, IfOk, OnOk, Bool};
ghost use Rattle.coniks_proof.specs.Hashing.{Hashing};
ghost use Rattle.coniks_tree.specs.Entries.{AreStored, entries_at, entry_at, in_order};
ghost use Rattle.coniks_tree.specs.Parts.{AllPlaced, entries_in};
ghost use Rattle.coniks_tree.specs.Table.{Extends, Numbered, Shows};
ghost use Rattle.coniks_tree.specs.Trees.{table_of};

use crate::halving::change_at;
use crate::part::Change;
use crate::table::{Node, Record, RecordNo};
use crate::tree::Tree;
use coniks_proof::MAX_LEVEL;
use std::alloc::AllocError;

/// A node of the table, by its number, at a prefix of `level` bits.
#[derive(Clone, Copy)]
pub(crate) struct NodeAt {
    pub(crate) number: usize,
    pub(crate) level: usize,
}

/// Appends the numbers of the records under a node to a list, in the order of their indices.
pub(crate) fn list_places(
    tree: &Tree,
    node: NodeAt,
    listed: &mut Vec<RecordNo>,
) -> Result<(), AllocError>
    requires { node.number < length tree.now.nodes }
    ensures stored { OnOk result (AreStored (length tree.now.records) listed.old.items
        → AreStored (length tree.now.records) listed.new.items) }
    ensures lists { OnOk result ((by : Hashing) (prefix : List Bool) (entries : List Numbered)
        → length prefix ≡ node.level
        → Shows by (table_of tree.now) node.number prefix entries
        → entries_at tree.now.records listed.new.items ≡ entries_at tree.now.records listed.old.items ++ in_order node.level entries) }
{
    match tree.node(node.number) {
        Node::Empty(_) => Ok(()),
        Node::Leaf(place, _) => Ok(listed.push(place)?),
        Node::Inner(left, right, _) => {
            if node.level < MAX_LEVEL {
                let level = node.level + 1;
                list_places(
                    tree,
                    NodeAt {
                        number: left,
                        level,
                    },
                    listed,
                )?;
                list_places(
                    tree,
                    NodeAt {
                        number: right,
                        level,
                    },
                    listed,
                )?;
            }
            Ok(())
        }
    }
}

/// Appends the record of a number to changes.
fn push_change(tree: &Tree, place: RecordNo, changes: &mut Vec<Change>) -> Result<(), AllocError>
    requires { place.0 < length tree.now.records }
    ensures placed { OnOk result ((all : List Record) → Extends tree.now.records all → AllPlaced all changes.old.items → AllPlaced all changes.new.items) }
    ensures entry { OnOk result (entries_in changes.new.items ≡ entries_in changes.old.items ++ entry_at place.0 (slice_get tree.now.records place.0)) }
{
    Ok(changes.push(change_at(tree, place))?)
}

/// Returns the records of these numbers as changes. It reads them one after another, and nothing else in between.
pub(crate) fn changes_at(tree: &Tree, places: &[RecordNo]) -> Result<Vec<Change>, AllocError>
    requires { AreStored (length tree.now.records) places.now }
    ensures placed { IfOk result (λ changes. (all : List Record) → Extends tree.now.records all → AllPlaced all changes.items) }
    ensures same { IfOk result (λ changes. entries_in changes.items ≡ entries_at tree.now.records places.now) }
{
    let mut changes = Vec::with_capacity(tree.alloc(), places.len())?;
    let mut rest = places;
    while let [place, others @ ..] = rest {
        push_change(tree, *place, &mut changes)?;
        rest = others;
    }
    Ok(changes)
}
