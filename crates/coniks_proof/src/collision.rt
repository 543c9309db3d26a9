//! A collision of the hash, from two accepted proofs with different answers.

ghost use Rattle.std.specs.Prelude.{◌≡◌, ◌↔◌, IsTrue, IfOk, IsOk, MatchOption};
ghost use Rattle.coniks_proof.specs.Collisions.{Disagree, FirstDiffer, IsCollision, hashed};
ghost use Rattle.coniks_proof.specs.Hashing.{hashing};
ghost use Rattle.coniks_proof.specs.Proofs.{stated};

use crate::bytes::Bytes;
use crate::checker::check;
use crate::hashing::Hash32;
use crate::meeting::parted;
use crate::memory::OutOfMemory;
use crate::paths::{Answer, Proof, Spot};
use crate::preimages::Way;
use crate::values::{Digest, Index, Nonce};
use std::alloc::Global;

/// Two different byte strings that have one hash.
#[derive(Drop)]
pub struct Collision {
    pub x: Bytes,
    pub y: Bytes,
}

/// Returns whether two answers are equal.
pub fn same_answer(a: &Answer<'_>, b: &Answer<'_>) -> bool
    ensures { IsTrue result ↔ (stated a.now ≡ stated b.now) }
{
    match (a, b) {
        (Answer::Absent, Answer::Absent) => true,
        (Answer::Key(x), Answer::Key(y)) => *x == *y,
        _ => false,
    }
}

/// Returns a collision of the hash if two proofs, each with its requested name, are accepted for one root, nonce
/// and index with different answers, and else `None`. The byte strings are the first two that differ, from the root down, of
/// those that the proofs hash: `x` is hashed in the first proof's path and `y` in the second's. If no node differs, they
/// are the preimages of the two commitments (CONIKS, section 3.1: a commitment binds the directory to one key).
///
/// # Errors
///
/// `OutOfMemory` if an allocation fails. If nothing is found, none is made.
pub fn extract<H: Hash32>(
    alloc: Global,
    h: &H,
    nonce: &Nonce,
    root: &Digest,
    index: &Index,
    first: (&[u8], &Proof),
    second: (&[u8], &Proof),
) -> Result<Option<Collision>, OutOfMemory>
    ensures exact { IfOk result (λ found. MatchOption found
        (¬ Disagree (hashing (H.digest_of h.now) nonce.now.0) root.now.0 index.now.0
        first.entry.0.now first.entry.1.now second.entry.0.now second.entry.1.now)
        (λ c. Disagree (hashing (H.digest_of h.now) nonce.now.0) root.now.0 index.now.0
        first.entry.0.now first.entry.1.now second.entry.0.now second.entry.1.now)) }
    ensures collision { IfOk result (λ found. MatchOption found Unit (λ c. IsCollision (H.digest_of h.now) c.x c.y)) }
    ensures place { IfOk result (λ found. MatchOption found Unit (λ c. FirstDiffer
        (hashed (hashing (H.digest_of h.now) nonce.now.0) index.now.0 0 first.entry.1.now.siblings first.entry.1.now.end)
        (hashed (hashing (H.digest_of h.now) nonce.now.0) index.now.0 0 second.entry.1.now.siblings second.entry.1.now.end) c.x c.y)) }
    ensures calm { ¬ Disagree (hashing (H.digest_of h.now) nonce.now.0) root.now.0 index.now.0
        first.entry.0.now first.entry.1.now second.entry.0.now second.entry.1.now
        → IsOk result }
{
    let (name_a, a) = first;
    let (name_b, b) = second;
    let Ok(answer_a) = check(h, nonce, root, index, name_a, a) else {
        return Ok(None);
    };
    let Ok(answer_b) = check(h, nonce, root, index, name_b, b) else {
        return Ok(None);
    };
    if same_answer(&answer_a, &answer_b) {
        return Ok(None);
    }
    let way_a = Way {
        siblings: a.siblings.as_slice(),
        end: &a.end,
    };
    let way_b = Way {
        siblings: b.siblings.as_slice(),
        end: &b.end,
    };
    let spot = Spot {
        nonce: *nonce,
        index: *index,
        level: 0,
    };
    let (x, y) = parted(alloc, h, &spot, way_a, way_b)?;
    Ok(Some(Collision { x, y }))
}
