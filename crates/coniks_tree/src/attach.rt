//! Makes nodes at the end of the table from a part.

ghost use Rattle.std.specs.Prelude.{◌≡◌, ◌++◌, ◌∷◌, [], ◌<◌, ◌≤◌, ◌+◌, ◌*◌, ◌-◌, ◌^◌, List, length, slice_get, vec_capacity, Bool};
ghost use Rattle.coniks_proof.specs.Hashing.{Hashing};
ghost use Rattle.coniks_proof.specs.Tree.{node};
ghost use Rattle.coniks_tree.specs.Table.{Extends, IsLinked, NodeFits, Numbered, Shows, table};
ghost use Rattle.coniks_tree.specs.Packed.{greatest_child};
ghost use Rattle.coniks_tree.specs.Parts.{Stands, Fits, Placed, node_count};

use crate::packed::PackedNode;
use crate::part::{Part, Subtree};
use crate::table::{Node, Record};
use coniks_proof::Digest;

/// Appends a node, for which there is room.
fn put(nodes: &mut Vec<PackedNode>, node: PackedNode)
    requires { length nodes.old.items < vec_capacity nodes.old }
    ensures items { nodes.new.items ≡ nodes.old.items ++ node ∷ [] }
    ensures len { length nodes.new.items ≡ length nodes.old.items + 1 }
    ensures room { vec_capacity nodes.old ≤ vec_capacity nodes.new }
{
    let _ = nodes.push(node);
}

/// Appends a node, for which there is room, and returns its number.
pub(crate) fn push_node(nodes: &mut Vec<PackedNode>, node: Node) -> usize
    requires room { length nodes.old.items < vec_capacity nodes.old }
    requires child { greatest_child node < 2 ^ 48 }
    ensures number { result ≡ length nodes.old.items }
    ensures len { length nodes.new.items ≡ length nodes.old.items + 1 }
    ensures room { vec_capacity nodes.old ≤ vec_capacity nodes.new }
    ensures at { slice_get nodes.new.items result ≡ Some node }
    ensures extends { Extends nodes.old.items nodes.new.items }
    ensures table { (records : List Record) → NodeFits (length nodes.old.items) records node
        → IsLinked (table nodes.old.items records) → IsLinked (table nodes.new.items records) }
{
    let number = nodes.len();
    put(nodes, PackedNode::new(node));
    number
}

/// Appends a part's nodes, and returns the number of the node that stands for the part.
///
/// The part is of a prefix of `level` bits and has this hash. Computes no hash.
pub(crate) fn append(nodes: &mut Vec<PackedNode>, level: usize, hash: &Digest, part: &Part) -> usize
    requires fits { Fits (length nodes.old.items) level part.now }
    requires room { length nodes.old.items + node_count part.now ≤ vec_capacity nodes.old }
    requires few { length nodes.old.items + node_count part.now ≤ 2 ^ 48 }
    ensures len { length nodes.new.items ≡ length nodes.old.items + node_count part.now }
    ensures room { vec_capacity nodes.old ≤ vec_capacity nodes.new }
    ensures known { result < length nodes.new.items }
    ensures extends { Extends nodes.old.items nodes.new.items }
    ensures table { (records : List Record) → Placed records part.now → IsLinked (table nodes.old.items records) → IsLinked (table nodes.new.items records) }
    ensures shows { (by : Hashing) (records : List Record) (prefix : List Bool) (entries : List Numbered)
        → length prefix ≡ level → Placed records part.now → hash.now.0 ≡ node by prefix entries
        → Stands by (table nodes.old.items records) part.now prefix entries
        → Shows by (table nodes.new.items records) result prefix entries }
{
    match part {
        Part::Nothing => push_node(nodes, Node::Empty(*hash)),
        Part::Entry(change) => push_node(nodes, Node::Leaf(change.place, *hash)),
        Part::Kept(root) => root.0,
        Part::Made(made) => {
            let below: &Subtree = made;
            let left = append(nodes, level + 1, &below.left_hash, &below.left);
            let right = append(nodes, level + 1, &below.right_hash, &below.right);
            push_node(nodes, Node::Inner(left, right, below.hash))
        }
    }
}
