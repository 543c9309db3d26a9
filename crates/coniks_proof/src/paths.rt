//! Authentication paths: from the root of the tree to an empty node or a leaf (CONIKS, section 3.1).

ghost use Rattle.std.specs.Prelude.{◌≡◌, ◌+◌, ◌<◌, ◌≤◌, length};
ghost use Rattle.coniks_proof.specs.Hashing.{hashing};
ghost use Rattle.coniks_proof.specs.ProofRefs.{listed, owned};
ghost use Rattle.coniks_proof.specs.Proofs.{LengthsFit, end_preimage, joined, preimage};

use crate::bits::{Prefix, bit};
use crate::bytes::{Bytes, Digests};
use crate::hashing::{Hash32, commit_hash, empty_hash, inner_hash, leaf_hash};
use crate::proof_ref::{EndRef, Siblings};
use crate::values::{Digest, Index, MAX_LEVEL, Nonce, Opening};

/// The end of an authentication path.
#[derive(Drop)]
pub enum End {
    /// An empty node: no index of the tree begins with the path's bits.
    Empty,
    /// A leaf of another index, which begins with the path's bits.
    Other {
        index: Index,
        commitment: Digest,
    },
    /// The leaf of the requested index, with the opening of its commitment.
    Here {
        name: Bytes,
        key: Bytes,
        opening: Opening,
    },
}

/// A presence or absence proof: the authentication path to an index.
#[derive(Drop)]
pub struct Proof {
    /// The siblings from the root down: the sibling at position `l` is the one at level `l + 1`.
    pub siblings: Digests,
    pub end: End,
}

/// The answer of an accepted proof about the requested name.
#[derive(Clone, Copy, Debug, PartialEq, Eq)]
pub enum Answer<'a> {
    /// The name is bound to this key, which the proof contains.
    Key(&'a [u8]),
    /// The name is bound to no key.
    Absent,
}

/// A level on the way to an index, in a tree with a nonce.
#[derive(Clone, Copy)]
pub struct Spot {
    pub nonce: Nonce,
    pub index: Index,
    pub level: usize,
}

/// Returns the hash of the end of a path, at a level.
fn end_hash<H: Hash32>(
    h: &H,
    nonce: &Nonce,
    index: &Index,
    level: usize,
    end: &EndRef<'_>,
) -> Digest
    requires level { level ≤ MAX_LEVEL }
    requires fits { LengthsFit (owned end.now) }
    ensures { result.0 ≡ H.digest_of h.now (end_preimage (hashing (H.digest_of h.now) nonce.now.0) index.now.0 level (owned end.now)) }
{
    match end {
        EndRef::Empty => empty_hash(h, nonce, &Prefix::of(index, level)),
        EndRef::Other {
            index: other,
            commitment,
        } => leaf_hash(h, nonce, other, level, commitment),
        EndRef::Here { name, key, opening } => {
            let commitment = commit_hash(h, opening, *name, *key);
            leaf_hash(h, nonce, index, level, &commitment)
        }
    }
}

/// Returns the hash of a hash on the way to an index and its sibling.
pub(crate) fn joined_hash<H: Hash32>(
    h: &H,
    goes_right: bool,
    sibling: &Digest,
    below: &Digest,
) -> Digest
    ensures { result.0 ≡ H.digest_of h.now (joined goes_right sibling.now.0 below.now.0) }
{
    if goes_right {
        inner_hash(h, sibling, below)
    } else {
        inner_hash(h, below, sibling)
    }
}

/// Returns the hash at a level on the way to an index.
///
/// It is carried up from the end over the siblings below, the deepest first.
pub(crate) fn carried<H: Hash32>(
    h: &H,
    spot: &Spot,
    siblings: &Siblings<'_>,
    end: &EndRef<'_>,
) -> Digest
    requires deep { spot.now.level + length (listed siblings.now) ≤ MAX_LEVEL }
    requires fits { LengthsFit (owned end.now) }
    ensures { result.0 ≡ H.digest_of h.now (preimage (hashing (H.digest_of h.now) spot.now.nonce.0) spot.now.index.0 spot.now.level (listed siblings.now) (owned end.now)) }
{
    let Spot {
        nonce,
        index,
        level,
    } = spot;
    let mut place = siblings.len();
    let mut hash = end_hash(h, nonce, index, *level + place, end);
    while place > 0 {
        place -= 1;
        hash = joined_hash(h, bit(index, *level + place), &siblings.at(place), &hash);
    }
    hash
}
