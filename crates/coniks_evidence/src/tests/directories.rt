//! A small directory that may be dishonest: a hash with one collision, and the trees and entries that it makes.
//!
//! A tree has two places, at the indices 000.. and 001... If both are taken, they are below one node of level 2; if one is, its leaf
//! is the root.

use coniks_chain::{BODY_BYTES, Body, ENTRY_BYTES, Entry, Signature, Verify, link};
use coniks_client::StoredEntry;
use coniks_proof::{
    Digest, Hash32, Index, Nonce, Opening, Prefix, Sha256Hash, commit_hash, empty_hash, inner_hash,
    leaf_hash,
};
use std::alloc::Global;
use std::process::Abort;

pub(crate) const ALICE: [u8; 5] = *b"alice";

pub(crate) const CAROL: [u8; 5] = *b"carol";

pub(crate) const POLICY: [u8; 32] = [7; 32];

const NONCE: Nonce = Nonce([9; 32]);

const OPENING: Opening = Opening([0xDD; 32]);

/// The level of the leaves if both places are taken.
const DEEP: u8 = 3;

/// A hash, but the string with the hash `from` has the hash `to`.
#[derive(Clone, Copy, Drop)]
pub(crate) struct Merged<H> {
    hash: H,
    pub(crate) from: Digest,
    pub(crate) to: Digest,
}

impl<H: Hash32> Hash32 for Merged<H> {
    ghost use Rattle.std.specs.Prelude.{if◌then◌else◌};
    ghost use Rattle.std.specs.Str.{bytes_eq};

    ghost digest_of = { λ h message. if bytes_eq (H.digest_of h.hash message) h.from.0 then h.to.0 else H.digest_of h.hash message };

    fn hash(&self, pieces: &[&[u8]]) -> Digest {
        let digest = self.hash.hash(pieces);
        if digest == self.from { self.to } else { digest }
    }
}

/// SHA-256 with one collision.
pub(crate) type Flawed = Merged<Sha256Hash>;

/// SHA-256 itself: no string is known whose hash is zeros.
pub(crate) const SHA256: Flawed = Merged {
    hash: Sha256Hash,
    from: Digest([0; 32]),
    to: Digest([0; 32]),
};

/// Returns SHA-256, but the string with the first hash has the second one.
pub(crate) fn colliding(from: Digest, to: Digest) -> Flawed {
    Merged {
        hash: Sha256Hash,
        from,
        to,
    }
}

/// A verifier that accepts every signature.
pub(crate) struct Signed;

impl Verify for Signed {
    ghost use Rattle.std.specs.Prelude.{true};

    ghost verdict_of = { λ signed body signature. true };

    fn verdict(&self, _body: &[u8; BODY_BYTES], _signature: &Signature) -> bool {
        true
    }
}

/// Returns the index that begins with a byte, with zero bits after it.
pub(crate) fn index_of(first: u8) -> Index {
    let mut bytes = [0; 32];
    bytes[0] = first;
    Index(bytes)
}

/// The index of the first place.
pub(crate) const FIRST: Index = Index([0; 32]);

/// Returns the index of the second place.
pub(crate) fn second() -> Index {
    index_of(0x20)
}

/// A name and its key.
#[derive(Clone, Copy)]
pub(crate) struct Bound {
    pub(crate) name: [u8; 5],
    pub(crate) key: [u8; 1],
}

impl Bound {
    fn commitment<H: Hash32>(&self, h: &H) -> Digest {
        commit_hash(h, &OPENING, &self.name, &self.key)
    }

    fn leaf<H: Hash32>(&self, h: &H, place: &Index, level: u8) -> Digest {
        leaf_hash(h, &NONCE, place, usize::from(level), &self.commitment(h))
    }
}

/// Returns the hash of the empty node beside the path to both places, at level 1 or 2.
fn beside<H: Hash32>(h: &H, level: u8) -> Digest {
    let prefix = if level == 1 {
        Prefix::of(&index_of(0x80), 1)
    } else {
        Prefix::of(&index_of(0x40), 2)
    };
    empty_hash(h, &NONCE, &prefix)
}

/// Returns the hashes of the interior nodes over two leaves: those of the levels 2, 1 and 0.
fn above<H: Hash32>(h: &H, left: &Digest, right: &Digest) -> [Digest; 3] {
    let lowest = inner_hash(h, left, right);
    let middle = inner_hash(h, &lowest, &beside(h, 2));
    let root = inner_hash(h, &middle, &beside(h, 1));
    [lowest, middle, root]
}

/// Returns byte strings, one after another.
pub(crate) fn joined(rt: &impl Abort, alloc: Global, parts: &[&[u8]]) -> Vec<u8> {
    let mut bytes = Vec::new(alloc);
    for part in parts {
        bytes.extend_from_slice(*part).expect(rt, "memory");
    }
    bytes
}

/// What is at the two places of a tree.
#[derive(Clone, Copy)]
pub(crate) struct Tree {
    pub(crate) first: Option<Bound>,
    pub(crate) second: Option<Bound>,
}

impl Tree {
    pub(crate) fn root<H: Hash32>(&self, h: &H) -> Digest {
        match (&self.first, &self.second) {
            (None, None) => empty_hash(h, &NONCE, &Prefix::root()),
            (Some(one), None) => one.leaf(h, &FIRST, 0),
            (None, Some(one)) => one.leaf(h, &second(), 0),
            (Some(one), Some(two)) => {
                let [_, _, root] = above(
                    h,
                    &one.leaf(h, &FIRST, DEEP),
                    &two.leaf(h, &second(), DEEP),
                );
                root
            }
        }
    }

    /// Returns the same tree with the places exchanged.
    fn exchanged(&self) -> Tree {
        Tree {
            first: self.second,
            second: self.first,
        }
    }

    /// Returns the bytes of the proof at the index of the first place.
    pub(crate) fn first_proof<H: Hash32>(&self, rt: &impl Abort, alloc: Global, h: &H) -> Vec<u8> {
        proof(rt, alloc, h, self, &second())
    }

    /// Returns the bytes of the proof at the index of the second place.
    pub(crate) fn second_proof<H: Hash32>(&self, rt: &impl Abort, alloc: Global, h: &H) -> Vec<u8> {
        proof(rt, alloc, h, &self.exchanged(), &FIRST)
    }

    /// Returns the key at the first place.
    pub(crate) fn key(&self) -> &[u8] {
        key_of(&self.first)
    }

    /// Returns the key at the second place.
    pub(crate) fn second_key(&self) -> &[u8] {
        key_of(&self.second)
    }
}

/// Returns the key at a place, which has no byte if nothing is there.
fn key_of(bound: &Option<Bound>) -> &[u8] {
    match bound {
        Some(one) => &one.key,
        None => &[],
    }
}

/// Returns the bytes of the proof at the first of two places. The second one is at an index.
fn proof<H: Hash32>(rt: &impl Abort, alloc: Global, h: &H, tree: &Tree, other: &Index) -> Vec<u8> {
    match (&tree.first, &tree.second) {
        (None, None) => joined(rt, alloc, &[&[0, 0, 0]]),
        (None, Some(two)) => joined(rt, alloc, &[&[1, 0, 0], &other.0, &two.commitment(h).0]),
        (Some(one), None) => joined(
            rt,
            alloc,
            &[
                &[2, 0, 0],
                &OPENING.0,
                &[0, 5],
                &one.name,
                &[0, 0, 0, 1],
                &one.key,
            ],
        ),
        (Some(one), Some(two)) => joined(
            rt,
            alloc,
            &[
                &[2, 0, DEEP],
                &beside(h, 1).0,
                &beside(h, 2).0,
                &two.leaf(h, other, DEEP).0,
                &OPENING.0,
                &[0, 5],
                &one.name,
                &[0, 0, 0, 1],
                &one.key,
            ],
        ),
    }
}

/// The keys that Alice can have.
const KEYS: [Option<u8>; 4] = [None, Some(b'A'), Some(b'B'), Some(b'C')];

/// Returns what Alice has at her place with one of the keys.
fn alice(key: Option<u8>) -> Option<Bound> {
    match key {
        Some(key) => Some(Bound {
            name: ALICE,
            key: [key],
        }),
        None => None,
    }
}

/// What a directory can show of `alice` with a tree: its root, and the bytes of a proof.
#[derive(Drop)]
pub(crate) struct Shown {
    pub(crate) tree: Tree,
    pub(crate) root: Digest,
    pub(crate) proof: Vec<u8>,
}

/// Returns what a directory can show with each tree: at the first place one of Alice's keys or nothing, at the second one this or
/// nothing.
pub(crate) fn all_shown<H: Hash32>(
    rt: &impl Abort,
    alloc: Global,
    h: &H,
    other: Bound,
) -> Vec<Shown> {
    let mut all = Vec::new(alloc);
    for number in 0..8 {
        let tree = Tree {
            first: alice(KEYS[number / 2]),
            second: if number % 2 == 0 { None } else { Some(other) },
        };
        let shown = Shown {
            tree,
            root: tree.root(h),
            proof: tree.first_proof(rt, alloc, h),
        };
        all.push(shown).expect(rt, "memory");
    }
    all
}

/// Returns the hashes of all strings that are hashed for these trees. No string is hashed into one before it.
pub(crate) fn hashes<H: Hash32>(
    rt: &impl Abort,
    alloc: Global,
    h: &H,
    other: Bound,
) -> Vec<Digest> {
    let deep = other.leaf(h, &second(), DEEP);
    let mut hashes = vec![in alloc;
        other.commitment(h),
        deep,
        other.leaf(h, &second(), 0),
        empty_hash(h, &NONCE, &Prefix::root()),
        beside(h, 1),
        beside(h, 2),
    ]
    .expect(rt, "memory");
    for key in [b'A', b'B', b'C'] {
        let one = Bound {
            name: ALICE,
            key: [key],
        };
        let leaf = one.leaf(h, &FIRST, DEEP);
        let own = [one.commitment(h), leaf, one.leaf(h, &FIRST, 0)];
        hashes.extend_from_slice(&own).expect(rt, "memory");
        hashes
            .extend_from_slice(&above(h, &leaf, &deep))
            .expect(rt, "memory");
    }
    hashes
}

/// Returns the bytes of the entry after the stored ones, with a root.
pub(crate) fn entry_after<H: Hash32>(
    h: &H,
    stored: &[StoredEntry],
    root: &Digest,
) -> [u8; ENTRY_BYTES] {
    let (t_prev, previous) = match stored.last() {
        Some(last) => (last.epoch(), link(h, &last.entry())),
        None => (0, Digest([0; 32])),
    };
    let body = Body {
        version: 1,
        t: t_prev.saturating_add(1),
        t_prev,
        root: *root,
        previous,
        nonce: NONCE,
        policy: POLICY,
    };
    let signature = Signature([0xEE; 64]);
    Entry { body, signature }.bytes()
}

/// Returns a reply with the entry of an epoch and the bytes of a proof at an index, which is its VRF proof too.
pub(crate) fn reply(
    rt: &impl Abort,
    alloc: Global,
    entry: &[u8; ENTRY_BYTES],
    index: &Index,
    proof: &[u8],
) -> Vec<u8> {
    joined(rt, alloc, &[&[1], entry, &[0, 32], &index.0, proof])
}
