//! Where two paths to one index part.

ghost use Rattle.std.specs.Prelude.{◌≡◌, ◌+◌, ◌<◌, ◌≤◌, ◌⊎◌, ◌↔◌, ◌∷◌, List, drop, length, IfNone, IfSome, IsTrue};
ghost use Rattle.coniks_proof.specs.Collisions.{IsSized, Parts};
ghost use Rattle.coniks_proof.specs.Hashing.{hashing};
ghost use Rattle.coniks_proof.specs.Meetings.{Contradict};
ghost use Rattle.coniks_proof.specs.ProofRefs.{listed, owned};
ghost use Rattle.coniks_proof.specs.Proofs.{LengthsFit};
ghost use Rattle.coniks_proof.specs.declared.values.Digest.{Digest as DigestOne};
ghost use Rattle.coniks_proof.specs.declared.paths.End.{End};
ghost use Rattle.coniks_evidence.specs.Parting.{Meets, OpenOne, Opens};

use crate::paths::{Path, level_preimage};
use crate::preimages::{Colliding, Preimage, full};
use coniks_proof::{Digest, EndRef, Hash32, Index, MAX_LEVEL, Nonce, Spot, bit, commit_hash};

/// The hashes of two paths at a level, and the first two strings from there down that differ.
#[derive(Drop)]
struct Meeting<'a> {
    a: Digest,
    b: Digest,
    parts: Colliding<'a>,
}

/// Proves that the values of 32 bytes in an end have 32 bytes.
fn sized(end: &EndRef<'_>)
    ensures { IsSized (owned end.now) }
{
    match end {
        EndRef::Empty => {}
        EndRef::Other {
            index,
            commitment: _,
        } => full(&index.0),
        EndRef::Here {
            name: _,
            key: _,
            opening,
        } => full(&opening.0),
    }
}

/// Returns what is hashed to the commitments of two ends, if both open the same one.
fn one_commitment<'a, H: Hash32>(h: &H, a: &EndRef<'a>, b: &EndRef<'a>) -> Option<Colliding<'a>>
    requires fits_a { LengthsFit (owned a.now) }
    requires fits_b { LengthsFit (owned b.now) }
    ensures some { IfSome result (λ parts. Opens (H.digest_of h.now) (owned a.now) (owned b.now) parts) }
    ensures none { IfNone result (¬ OpenOne (H.digest_of h.now) (owned a.now) (owned b.now)) }
{
    match (a, b) {
        (
            EndRef::Here {
                name: name_a,
                key: key_a,
                opening: opening_a,
            },
            EndRef::Here {
                name: name_b,
                key: key_b,
                opening: opening_b,
            },
        ) => {
            if commit_hash(h, opening_a, *name_a, *key_a)
                == commit_hash(h, opening_b, *name_b, *key_b)
            {
                Some(Colliding {
                    x: Preimage::commitment(opening_a, *name_a, *key_a),
                    y: Preimage::commitment(opening_b, *name_b, *key_b),
                })
            } else {
                None
            }
        }
        _ => None,
    }
}

/// Returns the first two strings that differ from a level down at which one of the paths ends.
fn parted_at_end<'a, H: Hash32>(h: &H, spot: &Spot, a: &Path<'a>, b: &Path<'a>) -> Colliding<'a>
    requires paths { Contradict spot.now.index.0 0 (listed a.now.siblings) (owned a.now.end) (listed b.now.siblings) (owned b.now.end) }
    requires within_a { spot.now.level ≤ length (listed a.now.siblings) }
    requires within_b { spot.now.level ≤ length (listed b.now.siblings) }
    requires ends { (length (listed a.now.siblings) ≡ spot.now.level) ⊎ (length (listed b.now.siblings) ≡ spot.now.level) }
    ensures { Parts (hashing (H.digest_of h.now) spot.now.nonce.0) spot.now.index.0 spot.now.level (drop spot.now.level (listed a.now.siblings)) (owned a.now.end)
        (drop spot.now.level (listed b.now.siblings)) (owned b.now.end) result.x result.y }
{
    full(&spot.index.0);
    sized(&a.end);
    sized(&b.end);
    let nodes = Colliding {
        x: level_preimage(h, spot, a),
        y: level_preimage(h, spot, b),
    };
    if spot.level < a.siblings.len() {
        return nodes;
    }
    if spot.level < b.siblings.len() {
        return nodes;
    }
    match one_commitment(h, &a.end, &b.end) {
        Some(commitments) => commitments,
        None => nodes,
    }
}

/// Returns whether four digests are two pairs of equal digests.
fn same_pairs(a: &Digest, b: &Digest, c: &Digest, d: &Digest) -> bool
    ensures { IsTrue result ↔ ((a.now ≡ b.now) × (c.now ≡ d.now)) }
{
    *a == *b && *c == *d
}

/// Climbs two paths one level up, from the one below it.
fn climb<'a, H: Hash32>(
    h: &H,
    spot: &Spot,
    siblings: &(Digest, Digest),
    below: Meeting<'a>,
) -> Meeting<'a>
    requires { spot.now.level < MAX_LEVEL }
    ensures { (ss ts : List DigestOne) (end_a end_b : End) → Meets (hashing (H.digest_of h.now) spot.now.nonce.0) spot.now.index.0 (spot.now.level + 1) ss end_a ts end_b below.entry
        → Meets (hashing (H.digest_of h.now) spot.now.nonce.0) spot.now.index.0 spot.now.level (siblings.now.0 ∷ ss) end_a (siblings.now.1 ∷ ts) end_b result }
{
    let (sibling_a, sibling_b) = siblings;
    full(&sibling_a.0);
    full(&sibling_b.0);
    let goes_right = bit(&spot.index, spot.level);
    let x = Preimage::joined(goes_right, sibling_a, &below.a);
    let y = Preimage::joined(goes_right, sibling_b, &below.b);
    let a = x.hash(h);
    let b = y.hash(h);
    if same_pairs(sibling_a, sibling_b, &below.a, &below.b) {
        return Meeting {
            a,
            b,
            parts: below.parts,
        };
    }
    Meeting {
        a,
        b,
        parts: Colliding { x, y },
    }
}

/// Returns the first two strings that are hashed on two paths to one index and differ, from the root down: first the nodes of
/// each level, then what is hashed to the commitments.
///
/// Each level is hashed twice.
pub(crate) fn parted<'a, H: Hash32>(
    h: &H,
    nonce: &Nonce,
    index: &Index,
    a: &Path<'a>,
    b: &Path<'a>,
) -> Colliding<'a>
    requires { Contradict index.now.0 0 (listed a.now.siblings) (owned a.now.end) (listed b.now.siblings) (owned b.now.end) }
    ensures { Parts (hashing (H.digest_of h.now) nonce.now.0) index.now.0 0 (listed a.now.siblings) (owned a.now.end)
        (listed b.now.siblings) (owned b.now.end) result.x result.y }
{
    let mut level = a.siblings.len().min(b.siblings.len());
    let end = Spot {
        nonce: *nonce,
        index: *index,
        level,
    };
    let mut meeting = Meeting {
        a: level_preimage(h, &end, a).hash(h),
        b: level_preimage(h, &end, b).hash(h),
        parts: parted_at_end(h, &end, a, b),
    };
    while level > 0 {
        level -= 1;
        let siblings = (a.siblings.at(level), b.siblings.at(level));
        let spot = Spot {
            nonce: *nonce,
            index: *index,
            level,
        };
        meeting = climb(h, &spot, &siblings, meeting);
    }
    meeting.parts
}
