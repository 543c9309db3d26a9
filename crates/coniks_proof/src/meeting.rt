//! The position at which two ways to one index differ. Both ways are climbed once, and it is found on the way up.

ghost use Rattle.std.specs.Prelude.{◌≡◌, ◌↔◌, ◌⊎◌, length, IsTrue, IfOk};
ghost use Rattle.coniks_proof.specs.Collisions.{IsSized, Parts};
ghost use Rattle.coniks_proof.specs.Hashing.{hashing};
ghost use Rattle.coniks_proof.specs.Meetings.{CommitmentIs, Contradict, Meets, PartsAt, PlaceFits};
ghost use Rattle.coniks_proof.specs.Proofs.{LengthsFit, end_preimage};

use crate::bits::bit;
use crate::bytes::Bytes;
use crate::hashing::{Hash32, commit_hash};
use crate::paths::{End, Spot, carried, joined_hash};
use crate::preimages::{Way, committed_bytes, level_bytes};
use crate::proof_ref::Siblings;
use crate::values::{Digest, in_range};
use std::alloc::{AllocError, Global};

/// The position at which two ways to one index differ.
#[derive(Drop)]
enum Place<'a> {
    /// At a level; the siblings are those from there down.
    Level {
        level: usize,
        siblings_a: &'a [Digest],
        siblings_b: &'a [Digest],
    },
    /// In the commitments.
    Commitments,
}

/// The hashes of two ways at a level, and the position at which the ways differ from there down.
#[derive(Drop)]
struct Meeting<'a> {
    a: Digest,
    b: Digest,
    place: Place<'a>,
}

/// Proves that the values of 32 bytes in an end have 32 bytes.
fn sized(end: &End)
    ensures { IsSized end.now }
{
    match end {
        End::Empty => {}
        End::Other {
            index,
            commitment: _,
        } => in_range(&index.0),
        End::Here {
            name: _,
            key: _,
            opening,
        } => in_range(&opening.0),
    }
}

/// Returns the commitment of an end that opens one.
fn commitment_of<H: Hash32>(h: &H, end: &End) -> Option<Digest>
    requires { LengthsFit end.now }
    ensures { CommitmentIs (H.digest_of h.now) end.now result }
{
    match end {
        End::Here { name, key, opening } => Some(commit_hash(
            h,
            opening,
            name.as_slice(),
            key.as_slice(),
        )),
        _ => None,
    }
}

/// Returns whether the ends of two ways, of different answers, hash the same bytes at a level: two leaves of one commitment.
fn same_ends<H: Hash32>(h: &H, spot: &Spot, a: Way<'_>, b: Way<'_>) -> bool
    requires { Contradict spot.now.index.0 spot.now.level a.siblings.now a.end.now b.siblings.now b.end.now }
    ensures { IsTrue result ↔ (end_preimage (hashing (H.digest_of h.now) spot.now.nonce.0) spot.now.index.0 spot.now.level
        a.entry.end.now ≡ end_preimage (hashing (H.digest_of h.now) spot.now.nonce.0) spot.now.index.0 spot.now.level b.entry.end.now) }
{
    in_range(&spot.index.0);
    sized(a.end);
    sized(b.end);
    let commitment_a = commitment_of(h, a.end);
    let commitment_b = commitment_of(h, b.end);
    match (commitment_a, commitment_b) {
        (Some(a), Some(b)) => a == b,
        _ => false,
    }
}

/// Returns whether four digests are two pairs of equal digests.
fn same_pairs(a: &Digest, b: &Digest, c: &Digest, d: &Digest) -> bool
    ensures { IsTrue result ↔ ((a.now ≡ b.now) × (c.now ≡ d.now)) }
{
    *a == *b && *c == *d
}

/// Returns the position at which two ways differ, if one of them ends at this level.
fn end_place<'a, H: Hash32>(h: &H, spot: &Spot, a: Way<'a>, b: Way<'a>) -> Place<'a>
    requires ways { Contradict spot.now.index.0 spot.now.level a.siblings.now a.end.now b.siblings.now b.end.now }
    requires ends { (length a.siblings.now ≡ 0) ⊎ (length b.siblings.now ≡ 0) }
    ensures fits { PlaceFits result }
    ensures place { PartsAt (hashing (H.digest_of h.now) spot.now.nonce.0) spot.now.index.0 spot.now.level
        a.entry.siblings.now a.entry.end.now b.entry.siblings.now b.entry.end.now result }
{
    in_range(&spot.index.0);
    sized(a.end);
    sized(b.end);
    let here = Place::Level {
        level: spot.level,
        siblings_a: a.siblings,
        siblings_b: b.siblings,
    };
    if !a.siblings.is_empty() {
        return here;
    }
    if !b.siblings.is_empty() {
        return here;
    }
    if same_ends(h, spot, a, b) {
        return Place::Commitments;
    }
    here
}

/// Compares two ways if one of them ends at this level.
fn ending<'a, H: Hash32>(h: &H, spot: &Spot, a: Way<'a>, b: Way<'a>) -> Meeting<'a>
    requires ways { Contradict spot.now.index.0 spot.now.level a.siblings.now a.end.now b.siblings.now b.end.now }
    requires ends { (length a.siblings.now ≡ 0) ⊎ (length b.siblings.now ≡ 0) }
    ensures { Meets (hashing (H.digest_of h.now) spot.now.nonce.0) spot.now.index.0 spot.now.level
        a.entry.siblings.now a.entry.end.now b.entry.siblings.now b.entry.end.now result }
{
    let siblings_a = Siblings::Listed(a.siblings);
    let siblings_b = Siblings::Listed(b.siblings);
    Meeting {
        a: carried(h, spot, &siblings_a, &a.end.borrowed()),
        b: carried(h, spot, &siblings_b, &b.end.borrowed()),
        place: end_place(h, spot, a, b),
    }
}

/// Climbs two ways to one index from their ends to a level.
fn meet<'a, H: Hash32>(h: &H, spot: &Spot, a: Way<'a>, b: Way<'a>) -> Meeting<'a>
    requires { Contradict spot.now.index.0 spot.now.level a.siblings.now a.end.now b.siblings.now b.end.now }
    ensures { Meets (hashing (H.digest_of h.now) spot.now.nonce.0) spot.now.index.0 spot.now.level
        a.entry.siblings.now a.entry.end.now b.entry.siblings.now b.entry.end.now result }
{
    let Some((first_a, rest_a)) = a.siblings.split_first() else {
        return ending(h, spot, a, b);
    };
    let Some((first_b, rest_b)) = b.siblings.split_first() else {
        return ending(h, spot, a, b);
    };
    let below_a = Way {
        siblings: rest_a,
        end: a.end,
    };
    let below_b = Way {
        siblings: rest_b,
        end: b.end,
    };
    let below_spot = Spot {
        level: spot.level + 1,
        ..*spot
    };
    let below = meet(h, &below_spot, below_a, below_b);
    in_range(&first_a.0);
    in_range(&first_b.0);
    let goes_right = bit(&spot.index, spot.level);
    let hash_a = joined_hash(h, goes_right, first_a, &below.a);
    let hash_b = joined_hash(h, goes_right, first_b, &below.b);
    if same_pairs(first_a, first_b, &below.a, &below.b) {
        return Meeting {
            a: hash_a,
            b: hash_b,
            place: below.place,
        };
    }
    Meeting {
        a: hash_a,
        b: hash_b,
        place: Place::Level {
            level: spot.level,
            siblings_a: a.siblings,
            siblings_b: b.siblings,
        },
    }
}

/// Returns the byte strings at the position where two ways from a level differ, the first from the first way.
pub(crate) fn parted<H: Hash32>(
    alloc: Global,
    h: &H,
    spot: &Spot,
    a: Way<'_>,
    b: Way<'_>,
) -> Result<(Bytes, Bytes), AllocError>
    requires { Contradict spot.now.index.0 spot.now.level a.siblings.now a.end.now b.siblings.now b.end.now }
    ensures { IfOk result (λ found. Parts (hashing (H.digest_of h.now) spot.now.nonce.0) spot.now.index.0 spot.now.level
        a.entry.siblings.now a.entry.end.now b.entry.siblings.now b.entry.end.now found.0 found.1) }
{
    match meet(h, spot, a, b).place {
        Place::Commitments => {
            let x = committed_bytes(alloc, a.end)?;
            let y = committed_bytes(alloc, b.end)?;
            Ok((x, y))
        }
        Place::Level {
            level,
            siblings_a,
            siblings_b,
        } => {
            let there = Spot { level, ..*spot };
            let a = Way {
                siblings: siblings_a,
                end: a.end,
            };
            let b = Way {
                siblings: siblings_b,
                end: b.end,
            };
            let x = level_bytes(alloc, h, &there, a)?;
            let y = level_bytes(alloc, h, &there, b)?;
            Ok((x, y))
        }
    }
}
