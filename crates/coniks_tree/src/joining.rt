//! Joins many pairs of parts, and computes their hashes several at a time.

ghost use Rattle.std.specs.Prelude.{◌≡◌, ◌++◌, ◌∷◌, ◌<◌, ◌≤◌, ◌+◌, [], List, ℕ, length, map, IfOk, OnOk, Bool, false, true};
ghost use Rattle.coniks_proof.specs.Bits.{child};
ghost use Rattle.coniks_proof.specs.Messages.{preimage_of};
ghost use Rattle.coniks_proof.specs.Entries.{half};
ghost use Rattle.coniks_proof.specs.Hashing.{Hashing, hashing};
ghost use Rattle.coniks_proof.specs.Octets.{Octets};
ghost use Rattle.coniks_tree.specs.Table.{Numbered, Table};
ghost use Rattle.coniks_tree.specs.Trees.{table_of};
ghost use Rattle.coniks_tree.specs.Counts.{joined_count};
ghost use Rattle.coniks_tree.specs.Parts.{Stands, Fits, KeepsNone, Placed, node_count};
ghost use Rattle.coniks_tree.specs.Joins.{requested_at, requested_of, inner_of, AllHalved, AllJoined, IsHashAt, IsHalved, PairFits, PairsFit};

use crate::part::{NodeHashes, Part, made, weight};
use crate::table::Record;
use crate::tree::{Base, Tree};
use coniks_proof::{Digest, Hash32, Message, Prefix, empty_message, hash_all, leaf_message};
use std::alloc::{AllocError, Global};
use std::collections::VecDeque;

/// Two parts of neighbouring prefixes, and the prefix above.
#[derive(Drop)]
pub(crate) struct Pair {
    pub(crate) prefix: Prefix,
    pub(crate) left: Part,
    pub(crate) right: Part,
}

/// A pair with the hashes of its two parts.
#[derive(Drop)]
pub(crate) struct Halved {
    pub(crate) pair: Pair,
    pub(crate) left_hash: Digest,
    pub(crate) right_hash: Digest,
}

/// Appends the message of a side to a list, if the side has no hash yet.
fn ask(
    prefix: &Prefix,
    right: bool,
    part: &Part,
    messages: &mut Vec<Message>,
) -> Result<(), AllocError>
    requires { length prefix.now < 256 }
    ensures { OnOk result ((nonce : Octets)
        → map (preimage_of nonce) messages.new.items ≡ map (preimage_of nonce) messages.old.items ++ requested_at nonce (child prefix.now right) part.now) }
{
    match part {
        Part::Nothing => Ok(messages.push(empty_message(prefix.child(right)))?),
        Part::Entry(change) => {
            let message = leaf_message(&change.index, prefix.len() + 1, &change.commitment);
            Ok(messages.push(message)?)
        }
        Part::Kept(_) => Ok(()),
        Part::Made(_) => Ok(()),
    }
}

/// Returns the messages of the sides of pairs that have no hash yet, from left to right.
fn requested(alloc: Global, pairs: &[Pair]) -> Result<Vec<Message>, AllocError>
    requires { (n : ℕ) × PairsFit n pairs.now }
    ensures { IfOk result (λ messages. (nonce : Octets) → map (preimage_of nonce) messages.items ≡ requested_of nonce pairs.now) }
{
    let mut messages = Vec::with_capacity(alloc, pairs.len())?;
    let mut rest = pairs;
    while let [pair, others @ ..] = rest {
        ask(&pair.prefix, false, &pair.left, &mut messages)?;
        ask(&pair.prefix, true, &pair.right, &mut messages)?;
        rest = others;
    }
    Ok(messages)
}

/// Returns the first of the hashes.
fn first_hash(hashes: &mut VecDeque<Digest>) -> Digest
    requires { 0 < length hashes.old.items }
    ensures { hashes.old.items ≡ result ∷ hashes.new.items }
{
    let Some(hash) = hashes.pop_front() else {
        unreachable!()
    };
    hash
}

/// Returns the hash of a side: its own, or else the first of the hashes that were requested.
fn side_hash(tree: &Tree, part: &Part, hashes: &mut VecDeque<Digest>) -> Digest
    requires fits { (level : ℕ) × Fits (length tree.now.nodes) level part.now }
    requires some { length (requested_at [] [] part.now) ≤ length hashes.old.items }
    ensures len { length hashes.new.items + length (requested_at [] [] part.now) ≡ length hashes.old.items }
    ensures hash { (by : Hashing) (prefix : List Bool) (rest : List Octets)
        → map (λ d. d.0) hashes.old.items ≡ map by.hash (requested_at by.nonce prefix part.now ++ rest)
        → IsHashAt by (table_of tree.now) prefix part.now result × (map (λ d. d.0) hashes.new.items ≡ map by.hash rest) }
{
    match part {
        Part::Nothing => first_hash(hashes),
        Part::Entry(_) => first_hash(hashes),
        Part::Kept(root) => tree.node_hash(*root),
        Part::Made(made) => made.hash,
    }
}

/// Returns a pair with the hashes of its two parts. Those that were requested are the first of the hashes.
fn halve(tree: &Tree, pair: Pair, hashes: &mut VecDeque<Digest>) -> Halved
    requires fits { PairFits (length tree.now.nodes) pair }
    requires some { length (requested_at [] [] pair.left) + length (requested_at [] [] pair.right) ≤ length hashes.old.items }
    ensures same { result.pair ≡ pair }
    ensures len { length hashes.new.items + length (requested_at [] [] pair.left) + length (requested_at [] [] pair.right) ≡ length hashes.old.items }
    ensures halved { (by : Hashing) (rest : List Octets)
        → map (λ d. d.0) hashes.old.items ≡ map by.hash
        (requested_at by.nonce (child pair.prefix false) pair.left ++ (requested_at by.nonce (child pair.prefix true) pair.right ++ rest))
        → IsHalved by (table_of tree.now) result × (map (λ d. d.0) hashes.new.items ≡ map by.hash rest) }
{
    let left_hash = side_hash(tree, &pair.left, hashes);
    let right_hash = side_hash(tree, &pair.right, hashes);
    Halved {
        pair,
        left_hash,
        right_hash,
    }
}

/// Returns the pairs with the hashes of their parts, and the messages of the nodes over them.
fn halve_all(
    tree: &Tree,
    pairs: Vec<Pair>,
    mut hashes: VecDeque<Digest>,
) -> Result<(VecDeque<Halved>, Vec<Message>), AllocError>
    requires fits { PairsFit (length tree.now.nodes) pairs.items }
    requires some { length (requested_of [] pairs.items) ≤ length hashes.items }
    ensures same { IfOk result (λ all. map (λ h. h.pair) all.0.items ≡ pairs.items) }
    ensures inner { IfOk result (λ all. (nonce : Octets) → map (preimage_of nonce) all.1.items ≡ map inner_of all.0.items) }
    ensures halved { IfOk result (λ all. (by : Hashing)
        → map (λ d. d.0) hashes.items ≡ map by.hash (requested_of by.nonce pairs.items) → AllHalved by (table_of tree.now) all.0.items) }
{
    let mut halved = VecDeque::with_capacity(tree.alloc(), pairs.len())?;
    let mut messages = Vec::with_capacity(tree.alloc(), pairs.len())?;
    let mut rest = VecDeque::from(pairs);
    while let Some(pair) = rest.pop_front() {
        let one = halve(tree, pair, &mut hashes);
        messages.push(Message::Inner(one.left_hash, one.right_hash))?;
        halved.push_back(one)?;
    }
    Ok((halved, messages))
}

/// Joins two parts, whose hashes and whose node's hash are known, to the part of the prefix above.
fn joined(alloc: Global, halved: Halved, hash: Digest) -> Result<Part, AllocError>
    ensures fits { IfOk result (λ part. (n : ℕ) → PairFits n halved.pair → Fits n (length halved.pair.prefix) part) }
    ensures count { IfOk result (λ part. node_count part ≤ node_count halved.pair.left + node_count halved.pair.right + 1) }
    ensures new { IfOk result (λ part. node_count part ≡ joined_count halved.pair.left halved.pair.right) }
    ensures keeps { IfOk result (λ part. KeepsNone halved.pair.left → KeepsNone halved.pair.right → KeepsNone part) }
    ensures placed { IfOk result (λ part. (all : List Record) → Placed all halved.pair.left → Placed all halved.pair.right → Placed all part) }
    ensures stands { IfOk result (λ part. (by : Hashing) (t : Table) (entries : List Numbered)
        → length halved.pair.prefix < 256 → IsHalved by t halved → hash.0 ≡ by.hash (inner_of halved)
        → Stands by t halved.pair.left (child halved.pair.prefix false) (half false (length halved.pair.prefix) entries)
        → Stands by t halved.pair.right (child halved.pair.prefix true) (half true (length halved.pair.prefix) entries)
        → Stands by t part halved.pair.prefix entries) }
{
    let Halved {
        pair,
        left_hash,
        right_hash,
    } = halved;
    let Pair { left, right, .. } = pair;
    let weight_left = weight(&left);
    if weight_left + weight(&right) < 2 {
        if weight_left == 1 {
            return Ok(left);
        }
        return Ok(right);
    }
    let hashes = NodeHashes {
        node: hash,
        left: left_hash,
        right: right_hash,
    };
    Ok(made(alloc, left, right, hashes)?)
}

/// Joins the pairs, whose nodes have these hashes.
fn joined_all(
    alloc: Global,
    mut halved: VecDeque<Halved>,
    mut hashes: VecDeque<Digest>,
) -> Result<VecDeque<Part>, AllocError>
    requires { length halved.items ≡ length hashes.items }
    ensures { IfOk result (λ parts. (by : Hashing) (t : Table)
        → PairsFit (length t.nodes) (map (λ h. h.pair) halved.items)
        → AllHalved by t halved.items → map (λ d. d.0) hashes.items ≡ map (λ h. by.hash (inner_of h)) halved.items
        → AllJoined by t (map (λ h. h.pair) halved.items) parts.items) }
{
    let mut parts = VecDeque::with_capacity(alloc, halved.len())?;
    while let Some(one) = halved.pop_front() {
        let hash = first_hash(&mut hashes);
        parts.push_back(joined(alloc, one, hash)?)?;
    }
    Ok(parts)
}

/// Joins the parts of pairs, in their order, each pair to the part of the prefix above.
///
/// The missing hashes of the sides are computed several at a time, and then those of the nodes above them.
pub(crate) fn join_all<H: Hash32>(
    base: &Base<'_, H>,
    pairs: Vec<Pair>,
) -> Result<VecDeque<Part>, AllocError>
    requires { PairsFit (length base.now.tree.now.nodes) pairs.items }
    ensures { IfOk result (λ parts. AllJoined (hashing (H.digest_of base.now.h.now) base.now.nonce.now.0) (table_of base.now.tree.now) pairs.items parts.items) }
{
    let alloc = base.tree.alloc();
    let messages = requested(alloc, &pairs)?;
    let hashes = hash_all(alloc, base.h, base.nonce, &messages)?;
    let (halved, messages) = halve_all(base.tree, pairs, hashes)?;
    let hashes = hash_all(alloc, base.h, base.nonce, &messages)?;
    Ok(joined_all(alloc, halved, hashes)?)
}
