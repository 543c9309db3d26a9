//! The way to an index: its end, and the authentication path.

ghost use Rattle.std.specs.Prelude.{◌≡◌, [], ◌<◌, ◌≤◌, ◌+◌, List, length, IfOk, IfSome, None, Bool, not, map};
ghost use Rattle.coniks_proof.specs.Bits.{bit_at};
ghost use Rattle.coniks_proof.specs.Entries.{backed_by};
ghost use Rattle.coniks_proof.specs.Hashing.{Hashing};
ghost use Rattle.coniks_proof.specs.Octets.{Octets};
ghost use Rattle.coniks_proof.specs.Paths.{EndIs, IsPath, end_of};
ghost use Rattle.coniks_tree.specs.Table.{Numbered, Shows, registered_at};
ghost use Rattle.coniks_tree.specs.Trees.{table_of};
ghost use Rattle.coniks_tree.specs.Paths.{IsKnown, IsStep, PathStopsAt};

use crate::table::{Node, RecordNo, Root};
use crate::tree::Tree;
use coniks_proof::{Bytes, Digest, Digests, End, Index, MAX_LEVEL, Proof, bit};
use std::alloc::AllocError;

/// The end of the way to an index: nothing, a leaf of another index, or the leaf of the index.
#[derive(Clone, Copy, Debug)]
pub(crate) enum Stop {
    Empty,
    Other(Index, Digest),
    Here(RecordNo),
}

/// Returns the node below on the way to an index, and the hash beside it.
pub(crate) fn step(
    tree: &Tree,
    number: usize,
    index: &Index,
    level: usize,
) -> Option<(usize, Digest)>
    requires { number < length tree.now.nodes }
    ensures known { IfSome result (λ s. s.0 < length tree.now.nodes) }
    ensures short { IfSome result (λ _. level < 256) }
    ensures down { IfSome result (λ s. (by : Hashing) (prefix : List Bool) (entries : List Numbered) → length prefix ≡ level
        → Shows by (table_of tree.now) number prefix entries
        → IsStep by (table_of tree.now) (bit_at index.now.0 level) prefix entries s.0 s.1) }
    ensures last { result ≡ None → (by : Hashing) (prefix : List Bool) (entries : List Numbered) → length prefix ≡ level
        → Shows by (table_of tree.now) number prefix entries → length entries ≤ 1 }
{
    if level >= MAX_LEVEL {
        return None;
    }
    match tree.node(number) {
        Node::Empty(_) => None,
        Node::Leaf(_, _) => None,
        Node::Inner(left, right, _) => {
            if bit(index, level) {
                Some((right, tree.node_hash(Root(left))))
            } else {
                Some((left, tree.node_hash(Root(right))))
            }
        }
    }
}

/// Returns the end at a node that is not an interior node.
pub(crate) fn stop_at(tree: &Tree, number: usize, index: &Index) -> Stop
    requires { number < length tree.now.nodes }
    ensures known { IsKnown (length tree.now.records) result }
    ensures stops { (by : Hashing) (prefix : List Bool) (entries : List Numbered)
        → length entries ≤ 1 → Shows by (table_of tree.now) number prefix entries → PathStopsAt tree.now.records index.now.0 result entries }
{
    match tree.node(number) {
        Node::Empty(_) => Stop::Empty,
        Node::Inner(_, _, _) => Stop::Empty,
        Node::Leaf(place, _) => {
            let found = tree.record(place);
            if found.index == *index {
                Stop::Here(place)
            } else {
                Stop::Other(found.index, found.commitment)
            }
        }
    }
}

/// Returns the end of a path, with a copy of the binding that it shows.
pub(crate) fn end_of_path(tree: &Tree, stop: Stop) -> Result<End, AllocError>
    requires { IsKnown (length tree.now.records) stop }
    ensures { IfOk result (λ end. (index : Octets) (entries : List Numbered)
        → PathStopsAt tree.now.records index stop entries → EndIs index (map (backed_by (registered_at tree.now.records)) entries) end) }
{
    match stop {
        Stop::Empty => Ok(End::Empty),
        Stop::Other(index, commitment) => Ok(End::Other { index, commitment }),
        Stop::Here(place) => {
            let found = tree.record(place);
            let name = Bytes::copy_of(tree.alloc(), found.binding.name.as_slice())?;
            let key = Bytes::copy_of(tree.alloc(), found.binding.key.as_slice())?;
            Ok(End::Here {
                name,
                key,
                opening: found.opening,
            })
        }
    }
}

/// Returns the authentication path to an index.
pub(crate) fn path_from(tree: &Tree, root: Root, index: &Index) -> Result<Proof, AllocError>
    requires { root.0 < length tree.now.nodes }
    ensures { IfOk result (λ path. (by : Hashing) (entries : List Numbered)
        → Shows by (table_of tree.now) root.0 [] entries
        → IsPath by (map (backed_by (registered_at tree.now.records)) entries) index.now.0 path) }
{
    let mut siblings = Vec::new(tree.alloc());
    let mut number = root.0;
    let mut level = 0;
    while let Some((near, sibling)) = step(tree, number, index, level) {
        siblings.push(sibling)?;
        number = near;
        level += 1;
    }
    let end = end_of_path(tree, stop_at(tree, number, index))?;
    Ok(Proof {
        siblings: Digests::new(siblings),
        end,
    })
}

/// Returns the number of the node at which the way to an index ends.
pub(crate) fn last_number(tree: &Tree, root: Root, index: &Index) -> usize
    requires { root.0 < length tree.now.nodes }
    ensures known { result < length tree.now.nodes }
    ensures ends { (by : Hashing) (entries : List Numbered) → Shows by (table_of tree.now) root.0 [] entries
        → (prefix : List Bool) × Shows by (table_of tree.now) result prefix (end_of [] index.now.0 entries)
        × (length (end_of [] index.now.0 entries) ≤ 1) }
{
    let mut number = root.0;
    let mut level = 0;
    while let Some((near, _beside)) = step(tree, number, index, level) {
        number = near;
        level += 1;
    }
    number
}
