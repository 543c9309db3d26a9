//! The nodes and records of a tree, which are numbered.

use coniks_proof::{Binding, Digest, Index, Opening};

/// The number of a record: its position in the list of a tree's records, from 0.
#[derive(Clone, Copy, Debug, PartialEq, Eq)]
pub struct RecordNo(pub usize);

/// The number of a node: its position in the list of a tree's nodes, from 0.
///
/// An epoch's root is the number of the node at the empty prefix.
#[derive(Clone, Copy, Debug, PartialEq, Eq)]
pub struct Root(pub usize);

/// The record of a leaf: the binding at an index, with its commitment and the opening of the commitment.
#[derive(Drop)]
pub struct Record {
    pub index: Index,
    /// The commitment to the binding, which the leaf contains.
    pub commitment: Digest,
    pub opening: Opening,
    pub binding: Binding,
}

/// A node with its hash (CONIKS, section 3.1).
///
/// A leaf has its record's number. An interior node has its children's numbers, the left one first, which are smaller
/// than its own.
#[derive(Clone, Copy, Debug)]
pub enum Node {
    Empty(Digest),
    Leaf(RecordNo, Digest),
    Inner(usize, usize, Digest),
}
