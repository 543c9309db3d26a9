//! What is hashed at the levels of a path to an index.

ghost use Rattle.std.specs.Prelude.{◌≡◌, ◌≤◌, drop, length};
ghost use Rattle.coniks_proof.specs.Hashing.{hashing};
ghost use Rattle.coniks_proof.specs.ProofRefs.{listed, owned};
ghost use Rattle.coniks_proof.specs.Proofs.{LengthsFit, end_preimage, preimage};

use crate::preimages::Preimage;
use coniks_proof::{EndRef, Hash32, Index, MAX_LEVEL, Nonce, Siblings, Spot, bit, commit_hash};

/// A path to an index: the siblings beside it from the root down, and its end.
#[derive(Clone, Copy)]
pub(crate) struct Path<'a> {
    pub(crate) siblings: Siblings<'a>,
    pub(crate) end: EndRef<'a>,
}

/// Returns what is hashed at the end of a path, at a level.
fn end_preimage<'a, H: Hash32>(
    h: &H,
    nonce: &Nonce,
    index: &Index,
    level: usize,
    end: &EndRef<'a>,
) -> Preimage<'a>
    requires level { level ≤ MAX_LEVEL }
    requires fits { LengthsFit (owned end.now) }
    ensures { result ≡ end_preimage (hashing (H.digest_of h.now) nonce.now.0) index.now.0 level (owned end.now) }
{
    match end {
        EndRef::Empty => Preimage::empty(nonce, index, level),
        EndRef::Other {
            index: other,
            commitment,
        } => Preimage::leaf(nonce, other, level, commitment),
        EndRef::Here { name, key, opening } => {
            let commitment = commit_hash(h, opening, *name, *key);
            Preimage::leaf(nonce, index, level, &commitment)
        }
    }
}

/// Returns what is hashed at a level on a path to an index.
pub(crate) fn level_preimage<'a, H: Hash32>(h: &H, spot: &Spot, path: &Path<'a>) -> Preimage<'a>
    requires level { spot.now.level ≤ length (listed path.now.siblings) }
    requires deep { length (listed path.now.siblings) ≤ MAX_LEVEL }
    requires fits { LengthsFit (owned path.now.end) }
    ensures { result ≡ preimage (hashing (H.digest_of h.now) spot.now.nonce.0) spot.now.index.0 spot.now.level (drop spot.now.level (listed path.now.siblings)) (owned path.now.end) }
{
    let mut place = path.siblings.len();
    let mut node = end_preimage(h, &spot.nonce, &spot.index, place, &path.end);
    while place > spot.level {
        place -= 1;
        let below = node.hash(h);
        node = Preimage::joined(bit(&spot.index, place), &path.siblings.at(place), &below);
    }
    node
}
