//! Parts: the new contents of one prefix.

ghost use Rattle.std.specs.Prelude.{◌≡◌, ◌<◌, ◌≤◌, ◌+◌, ◌-◌, ◌^◌, List, ℕ, length, Bool, IfOk, false, true, min};
ghost use Rattle.coniks_proof.specs.Bits.{child};
ghost use Rattle.coniks_proof.specs.Entries.{half};
ghost use Rattle.coniks_proof.specs.Hashing.{Hashing, hashing};
ghost use Rattle.coniks_proof.specs.Tree.{node};
ghost use Rattle.coniks_tree.specs.Table.{Numbered, Table};
ghost use Rattle.coniks_tree.specs.Trees.{table_of};
ghost use Rattle.coniks_tree.specs.Counts.{joined_count};
ghost use Rattle.coniks_tree.specs.Parts.{Stands, Fits, KeepsNone, Placed, IsSubtree, entries_in, node_count, weight_of};

use crate::table::{Record, RecordNo, Root};
use crate::tree::{Base, Tree};
use coniks_proof::{Digest, Hash32, Index, Nonce, Prefix, bit, empty_hash, inner_hash, leaf_hash};
use std::alloc::{AllocError, Global};

/// A commitment to be stored at an index, and the number of its record.
#[derive(Clone, Copy, Debug)]
pub struct Change {
    pub index: Index,
    pub commitment: Digest,
    pub place: RecordNo,
}

/// Returns the number of changes that go left at a level.
pub fn lefts(changes: &[Change], level: usize) -> usize
    requires { level < 256 }
    ensures within { result ≤ length changes.now }
    ensures count { result ≡ length (half false level (entries_in changes.now)) }
{
    let mut count = 0;
    for change in changes {
        if !bit(&change.index, level) {
            count += 1;
        }
    }
    count
}

/// The new contents of one prefix, which the tree has only after `attach`.
#[derive(Drop)]
#[cycle(part)]
pub enum Part {
    /// No entry: an empty node.
    Nothing,
    /// One entry: a leaf.
    Entry(Change),
    /// The entries that a node of the tree shows: two or more below the root, and any number at the root.
    Kept(Root),
    /// Two or more entries under new nodes.
    Made(Box<Subtree>),
}

/// A new subtree of two or more entries, with its hash and those of its two sides.
#[derive(Drop)]
#[cycle(part)]
pub struct Subtree {
    pub hash: Digest,
    pub left_hash: Digest,
    pub right_hash: Digest,
    /// The number of nodes that an attach adds, or `usize::MAX` if there are more.
    pub count: usize,
    pub left: Part,
    pub right: Part,
}

/// Returns the hash of a part of this prefix.
pub(crate) fn hash_at<H: Hash32>(
    tree: &Tree,
    h: &H,
    nonce: &Nonce,
    prefix: &Prefix,
    part: &Part,
) -> Digest
    requires { Fits (length tree.now.nodes) (length prefix.now) part.now }
    ensures { (entries : List Numbered)
        → Stands (hashing (H.digest_of h.now) nonce.now.0) (table_of tree.now) part.now prefix.now entries
        → result.0 ≡ node (hashing (H.digest_of h.now) nonce.now.0) prefix.now entries }
{
    match part {
        Part::Nothing => empty_hash(h, nonce, prefix),
        Part::Entry(change) => leaf_hash(h, nonce, &change.index, prefix.len(), &change.commitment),
        Part::Kept(root) => tree.node_hash(*root),
        Part::Made(made) => made.hash,
    }
}

/// Returns the number of nodes that an attach of a part adds.
pub(crate) fn new_nodes(part: &Part) -> usize
    ensures { (n level : ℕ) → Fits n level part.now → result ≡ min (node_count part.now) (2 ^ 64 - 1) }
{
    match part {
        Part::Nothing => 1,
        Part::Entry(_) => 1,
        Part::Kept(_) => 0,
        Part::Made(made) => made.count,
    }
}

/// Returns a lower bound of the number of entries of a part below the root, counted up to two.
pub(crate) fn weight(part: &Part) -> usize
    ensures { result ≡ weight_of part.now }
{
    match part {
        Part::Nothing => 0,
        Part::Entry(_) => 1,
        Part::Kept(_) => 2,
        Part::Made(_) => 2,
    }
}

/// The hash of a node, and those of its two sides.
#[derive(Clone, Copy)]
pub(crate) struct NodeHashes {
    pub(crate) node: Digest,
    pub(crate) left: Digest,
    pub(crate) right: Digest,
}

/// Returns a new subtree over two parts, whose node has these hashes.
#[inline(always)]
pub(crate) fn made(
    alloc: Global,
    left: Part,
    right: Part,
    hashes: NodeHashes,
) -> Result<Part, AllocError>
    ensures fits { IfOk result (λ part. (n level : ℕ) → level < 256 → Fits n (level + 1) left → Fits n (level + 1) right → Fits n level part) }
    ensures count { IfOk result (λ part. node_count part ≡ node_count left + node_count right + 1) }
    ensures keeps { IfOk result (λ part. KeepsNone left → KeepsNone right → KeepsNone part) }
    ensures placed { IfOk result (λ part. (all : List Record) → Placed all left → Placed all right → Placed all part) }
    ensures stands { IfOk result (λ part. (by : Hashing)
        (t : Table) (prefix : List Bool) (entries : List Numbered)
        → IsSubtree by prefix entries hashes.node hashes.left hashes.right
        (Stands by t left) (Stands by t right)
        → Stands by t part prefix entries) }
{
    let count = new_nodes(&left)
        .saturating_add(new_nodes(&right))
        .saturating_add(1);
    Ok(Part::Made(Box::new(
        alloc,
        Subtree {
            hash: hashes.node,
            left_hash: hashes.left,
            right_hash: hashes.right,
            count,
            left,
            right,
        },
    )?))
}

/// Joins two parts of neighbouring prefixes to the part of the prefix above.
pub(crate) fn join_parts<H: Hash32>(
    base: &Base<'_, H>,
    prefix: &Prefix,
    left: Part,
    right: Part,
) -> Result<Part, AllocError>
    requires short { length prefix.now < 256 }
    requires left { Fits (length base.now.tree.now.nodes) (length prefix.now + 1) left }
    requires right { Fits (length base.now.tree.now.nodes) (length prefix.now + 1) right }
    ensures fits { IfOk result (λ part. Fits (length base.now.tree.now.nodes) (length prefix.now) part) }
    ensures count { IfOk result (λ part. node_count part ≤ node_count left + node_count right + 1) }
    ensures new { IfOk result (λ part. node_count part ≡ joined_count left right) }
    ensures keeps { IfOk result (λ part. KeepsNone left → KeepsNone right → KeepsNone part) }
    ensures placed { IfOk result (λ part. (all : List Record) → Placed all left → Placed all right → Placed all part) }
    ensures stands { IfOk result (λ part. (entries : List Numbered)
        → Stands (hashing (H.digest_of base.now.h.now) base.now.nonce.now.0) (table_of base.now.tree.now)
        left (child prefix.now false) (half false (length prefix.now) entries)
        → Stands (hashing (H.digest_of base.now.h.now) base.now.nonce.now.0) (table_of base.now.tree.now)
        right (child prefix.now true) (half true (length prefix.now) entries)
        → Stands (hashing (H.digest_of base.now.h.now) base.now.nonce.now.0) (table_of base.now.tree.now) part prefix.now entries) }
{
    let weight_left = weight(&left);
    if weight_left + weight(&right) < 2 {
        if weight_left == 1 {
            return Ok(left);
        }
        return Ok(right);
    }
    let left_hash = hash_at(base.tree, base.h, base.nonce, &prefix.child(false), &left);
    let right_hash = hash_at(base.tree, base.h, base.nonce, &prefix.child(true), &right);
    let hashes = NodeHashes {
        node: inner_hash(base.h, &left_hash, &right_hash),
        left: left_hash,
        right: right_hash,
    };
    Ok(made(base.tree.alloc(), left, right, hashes)?)
}
