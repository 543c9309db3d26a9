//! A page of the entries under a root: the first of those beyond an index, in the order of their indices.

ghost use Rattle.std.specs.Prelude.{◌≡◌, ◌++◌, ◌<◌, ◌≤◌, ◌-◌, List, length, take, OnOk, Bool};
ghost use Rattle.coniks_proof.specs.Hashing.{Hashing};
ghost use Rattle.coniks_tree.specs.Entries.{AreStored, entries_at, in_order};
ghost use Rattle.coniks_tree.specs.Pages.{beyond_from, is_less_from};
ghost use Rattle.coniks_tree.specs.Table.{Numbered, Shows};
ghost use Rattle.coniks_tree.specs.Trees.{table_of};

use crate::entries::NodeAt;
use crate::table::{Node, RecordNo};
use crate::tree::Tree;
use coniks_proof::{Index, MAX_LEVEL, bit};
use std::alloc::AllocError;

/// Returns whether an index is less than another one by its bits from a level on.
fn is_less_from(level: usize, index: &Index, other: &Index) -> bool
    ensures { result ≡ is_less_from level index.now.0 other.now.0 }
{
    let mut at = level;
    while at < MAX_LEVEL {
        let right = bit(other, at);
        if bit(index, at) != right {
            return right;
        }
        at += 1;
    }
    false
}

/// Appends the numbers of the records under a node to a list, in the order of their indices, until it has `most`.
pub(crate) fn list_first(
    tree: &Tree,
    node: NodeAt,
    most: usize,
    listed: &mut Vec<RecordNo>,
) -> Result<(), AllocError>
    requires known { node.number < length tree.now.nodes }
    requires room { length listed.old.items ≤ most }
    ensures room { OnOk result (length listed.new.items ≤ most) }
    ensures stored { OnOk result (AreStored (length tree.now.records) listed.old.items
        → AreStored (length tree.now.records) listed.new.items) }
    ensures lists { OnOk result ((by : Hashing) (prefix : List Bool) (entries : List Numbered)
        → AreStored (length tree.now.records) listed.old.items
        → length prefix ≡ node.level
        → Shows by (table_of tree.now) node.number prefix entries
        → entries_at tree.now.records listed.new.items
        ≡ take most (entries_at tree.now.records listed.old.items ++ in_order node.level entries)) }
{
    if listed.len() >= most {
        return Ok(());
    }
    match tree.node(node.number) {
        Node::Empty(_) => Ok(()),
        Node::Leaf(place, _) => Ok(listed.push(place)?),
        Node::Inner(left, right, _) => {
            if node.level < MAX_LEVEL {
                let level = node.level + 1;
                list_first(
                    tree,
                    NodeAt {
                        number: left,
                        level,
                    },
                    most,
                    listed,
                )?;
                list_first(
                    tree,
                    NodeAt {
                        number: right,
                        level,
                    },
                    most,
                    listed,
                )?;
            }
            Ok(())
        }
    }
}

/// Appends the numbers of the records under a node that are beyond an index to a list, until it has `most`.
///
/// They are in the order of their indices. Only the bits from the node's level on are compared.
pub(crate) fn list_beyond(
    tree: &Tree,
    node: NodeAt,
    after: &Index,
    most: usize,
    listed: &mut Vec<RecordNo>,
) -> Result<(), AllocError>
    requires known { node.number < length tree.now.nodes }
    requires room { length listed.old.items ≤ most }
    ensures room { OnOk result (length listed.new.items ≤ most) }
    ensures stored { OnOk result (AreStored (length tree.now.records) listed.old.items
        → AreStored (length tree.now.records) listed.new.items) }
    ensures lists { OnOk result ((by : Hashing) (prefix : List Bool) (entries : List Numbered)
        → AreStored (length tree.now.records) listed.old.items
        → length prefix ≡ node.level
        → Shows by (table_of tree.now) node.number prefix entries
        → entries_at tree.now.records listed.new.items
        ≡ take most (entries_at tree.now.records listed.old.items ++ beyond_from node.level after.now.0 (in_order node.level entries))) }
{
    match tree.node(node.number) {
        Node::Empty(_) => Ok(()),
        Node::Leaf(place, _) => {
            if is_less_from(node.level, after, &tree.record(place).index) {
                list_first(tree, node, most, listed)?;
            }
            Ok(())
        }
        Node::Inner(lesser, greater, _) => {
            if node.level < MAX_LEVEL {
                let level = node.level + 1;
                let greater = NodeAt {
                    number: greater,
                    level,
                };
                if bit(after, node.level) {
                    list_beyond(tree, greater, after, most, listed)?;
                } else {
                    let lesser = NodeAt {
                        number: lesser,
                        level,
                    };
                    list_beyond(tree, lesser, after, most, listed)?;
                    list_first(tree, greater, most, listed)?;
                }
            }
            Ok(())
        }
    }
}
