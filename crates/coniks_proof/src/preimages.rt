//! The preimages on a way to an index, as byte strings in memory.

ghost use Rattle.std.specs.Prelude.{◌≡◌, ◌≤◌, ◌+◌, flat_map, length, IfOk};
ghost use Rattle.coniks_proof.specs.Collisions.{committed};
ghost use Rattle.coniks_proof.specs.Hashing.{hashing};
ghost use Rattle.coniks_proof.specs.Preimages.{commitment_preimage, empty_preimage, leaf_preimage};
ghost use Rattle.coniks_proof.specs.Proofs.{LengthsFit, end_preimage, joined, preimage};

use crate::bits::{Prefix, bit};
use crate::bytes::Bytes;
use crate::hashing::{CommitmentPreimage, EMPTY_TAG, Hash32, INNER_TAG, LEAF_TAG, commit_hash};
use crate::paths::{End, Spot, carried};
use crate::proof_ref::Siblings;
use crate::values::{Digest, Index, MAX_KEY, MAX_LEVEL, MAX_NAME, Nonce, Opening};
use std::alloc::{AllocError, Global};

/// A way to an index from a level down: the siblings beside it, and its end.
#[derive(Clone, Copy)]
pub(crate) struct Way<'a> {
    pub(crate) siblings: &'a [Digest],
    pub(crate) end: &'a End,
}

/// Returns the pieces, one after another, with room for this number of bytes from the start.
fn bytes_of(alloc: Global, room: usize, pieces: &[&[u8]]) -> Result<Bytes, AllocError>
    ensures { IfOk result (λ bytes. bytes ≡ flat_map (λ piece. piece.now) pieces.now) }
{
    let mut bytes = Vec::with_capacity(alloc, room)?;
    for piece in pieces {
        bytes.extend_from_slice(*piece)?;
    }
    Ok(Bytes::new(bytes))
}

/// Returns the preimage of an empty node.
fn empty_bytes(alloc: Global, nonce: &Nonce, prefix: &Prefix) -> Result<Bytes, AllocError>
    ensures { IfOk result (λ bytes. bytes ≡ empty_preimage nonce.now.0 prefix.now) }
{
    let level = (prefix.len() as u16).to_be_bytes();
    bytes_of(alloc, 67, &[&[EMPTY_TAG], &nonce.0, prefix.bytes(), &level])
}

/// Returns the preimage of a leaf.
fn leaf_bytes<'a>(
    alloc: Global,
    nonce: &'a Nonce,
    index: &'a Index,
    level: usize,
    commitment: &'a Digest,
) -> Result<Bytes, AllocError>
    requires { level ≤ MAX_LEVEL }
    ensures { IfOk result (λ bytes. bytes ≡ leaf_preimage nonce.now.0 index.now.0 level commitment.now.0) }
{
    let level = (level as u16).to_be_bytes();
    let pieces: [&[u8]; 5] = [&[LEAF_TAG], &nonce.0, &index.0, &level, &commitment.0];
    bytes_of(alloc, 99, &pieces)
}

/// Returns the preimage of the interior node over a hash on the way to an index and its sibling.
fn joined_bytes(
    alloc: Global,
    goes_right: bool,
    sibling: &Digest,
    below: &Digest,
) -> Result<Bytes, AllocError>
    ensures { IfOk result (λ bytes. bytes ≡ joined goes_right sibling.now.0 below.now.0) }
{
    if goes_right {
        bytes_of(alloc, 65, &[&[INNER_TAG], &sibling.0, &below.0])
    } else {
        bytes_of(alloc, 65, &[&[INNER_TAG], &below.0, &sibling.0])
    }
}

/// Returns the preimage of a commitment.
fn commitment_bytes<'a>(
    alloc: Global,
    opening: &'a Opening,
    name: &'a [u8],
    key: &'a [u8],
) -> Result<Bytes, AllocError>
    requires name { length name.now ≤ MAX_NAME }
    requires key { length key.now ≤ MAX_KEY }
    ensures { IfOk result (λ bytes. bytes ≡ commitment_preimage opening.now.0 name.now key.now) }
{
    let preimage = CommitmentPreimage::of(opening, name, key);
    bytes_of(alloc, 39 + name.len() + key.len(), &preimage.pieces())
}

/// Returns the preimage of an end's commitment, or no bytes if the end opens none.
pub(crate) fn committed_bytes(alloc: Global, end: &End) -> Result<Bytes, AllocError>
    requires { LengthsFit end.now }
    ensures { IfOk result (λ bytes. bytes ≡ committed end.now) }
{
    match end {
        End::Here { name, key, opening } => {
            commitment_bytes(alloc, opening, name.as_slice(), key.as_slice())
        }
        _ => Ok(Bytes::new(Vec::new(alloc))),
    }
}

/// Returns the preimage at the end of a path, at a level.
fn end_bytes<H: Hash32>(alloc: Global, h: &H, spot: &Spot, end: &End) -> Result<Bytes, AllocError>
    requires level { spot.now.level ≤ MAX_LEVEL }
    requires fits { LengthsFit end.now }
    ensures { IfOk result (λ bytes. bytes ≡ end_preimage (hashing (H.digest_of h.now) spot.now.nonce.0) spot.now.index.0 spot.now.level end.now) }
{
    match end {
        End::Empty => empty_bytes(alloc, &spot.nonce, &Prefix::of(&spot.index, spot.level)),
        End::Other { index, commitment } => {
            leaf_bytes(alloc, &spot.nonce, index, spot.level, commitment)
        }
        End::Here { name, key, opening } => {
            let commitment = commit_hash(h, opening, name.as_slice(), key.as_slice());
            leaf_bytes(alloc, &spot.nonce, &spot.index, spot.level, &commitment)
        }
    }
}

/// Returns the preimage at a level on the way to an index.
pub(crate) fn level_bytes<H: Hash32>(
    alloc: Global,
    h: &H,
    spot: &Spot,
    way: Way<'_>,
) -> Result<Bytes, AllocError>
    requires deep { spot.now.level + length way.siblings.now ≤ MAX_LEVEL }
    requires fits { LengthsFit way.end.now }
    ensures { IfOk result (λ bytes. bytes ≡ preimage (hashing (H.digest_of h.now) spot.now.nonce.0) spot.now.index.0 spot.now.level way.entry.siblings.now way.entry.end.now) }
{
    match way.siblings.split_first() {
        None => end_bytes(alloc, h, spot, way.end),
        Some((sibling, rest)) => {
            let rest = Siblings::Listed(rest);
            let below_spot = Spot {
                level: spot.level + 1,
                ..*spot
            };
            let below = carried(h, &below_spot, &rest, &way.end.borrowed());
            joined_bytes(alloc, bit(&spot.index, spot.level), sibling, &below)
        }
    }
}
