//! Nodes as the table has them.

ghost use Rattle.std.specs.Prelude.{◌≡◌, ◌↔◌, ◌<◌, ◌≤◌, ◌+◌, ◌^◌, length, true};
ghost use Rattle.coniks_tree.specs.Packed.{greatest_child};
ghost use Rattle.coniks_tree.specs.Table.{hash_of_node};

use crate::table::{Node, RecordNo};
use coniks_proof::Digest;
use std::marker::Model;

/// The most nodes of a table, whose numbers have 48 bits.
const MAX_NODES: usize = 0x1_0000_0000_0000;

/// Returns whether a table of these nodes has numbers for further ones.
pub(crate) fn has_numbers(nodes: &[PackedNode], more: usize) -> bool
    ensures { result ≡ true ↔ length nodes.now + more ≤ 2 ^ 48 }
{
    nodes.len().saturating_add(more) <= MAX_NODES
}

/// The kind of a node.
#[derive(Clone, Copy)]
enum Kind {
    Empty,
    Leaf,
    Inner,
}

/// A node in 48 bytes, which contracts see as the node.
///
/// `low` and `high` are a leaf's record number, or the numbers of both children, the left one in the lowest 48 bits.
#[derive(Drop)]
pub struct PackedNode {
    low: u64,
    high: u32,
    kind: Kind,
    hash: Digest,
}

impl Model for PackedNode {
    ghost use Rattle.coniks_tree.specs.Packed.{node_of};
    ghost use Rattle.coniks_tree.specs.declared.table.Node.{Node};

    ghost Value = { Node };

    ghost view = { λ p. node_of p.kind p.low p.high p.hash };
}

impl PackedNode {
    /// Packs a node. The numbers of its children have 48 bits.
    pub(crate) fn new(node: Node) -> PackedNode
        requires { greatest_child node < 2 ^ 48 }
        ensures { result ≡ node }
    {
        match node {
            Node::Empty(hash) => PackedNode {
                low: 0,
                high: 0,
                kind: Kind::Empty,
                hash,
            },
            Node::Leaf(place, hash) => PackedNode {
                low: place.0 as u64,
                high: 0,
                kind: Kind::Leaf,
                hash,
            },
            Node::Inner(left, right, hash) => PackedNode {
                low: (left + right % 0x1_0000 * MAX_NODES) as u64,
                high: (right / 0x1_0000) as u32,
                kind: Kind::Inner,
                hash,
            },
        }
    }

    /// Returns the node's hash.
    pub(crate) fn hash(&self) -> Digest
        ensures { result ≡ hash_of_node self.now }
    {
        self.hash
    }

    /// Returns the node.
    pub(crate) fn node(&self) -> Node
        ensures { result ≡ self.now }
    {
        let (low, high) = (self.low as usize, self.high as usize);
        match self.kind {
            Kind::Empty => Node::Empty(self.hash),
            Kind::Leaf => Node::Leaf(RecordNo(low), self.hash),
            Kind::Inner => Node::Inner(
                low % MAX_NODES,
                low / MAX_NODES + high * 0x1_0000,
                self.hash,
            ),
        }
    }
}
