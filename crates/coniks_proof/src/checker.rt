//! The checker of proofs.

ghost use Rattle.std.specs.Prelude.{◌≡◌, ◌≤◌, ◌↔◌, Option, IsTrue, IfOk, IfErr, IsOkAnd, MatchOption};
ghost use Rattle.coniks_proof.specs.Bits.{first_bits};
ghost use Rattle.coniks_proof.specs.ProofRefs.{owned};
ghost use Rattle.coniks_proof.specs.Faults.{EndHas, Has, IsFirst};
ghost use Rattle.coniks_proof.specs.Hashing.{Hashing, hashing};
ghost use Rattle.coniks_proof.specs.Octets.{Octets};
ghost use Rattle.coniks_proof.specs.Proofs.{Accepts, EndFits, IsWellFormed, answer_of, stated};

use crate::bits::bit;
use crate::hashing::Hash32;
use crate::paths::{Answer, Proof, Spot, carried};
use crate::proof_ref::{EndRef, ProofRef};
use crate::values::{Digest, Index, MAX_KEY, MAX_LEVEL, MAX_NAME, Nonce};
use thiserror::Error;

/// The error of a proof that is not accepted. If several apply, the first in declaration order is returned.
#[derive(Clone, Copy, Debug, Drop, PartialEq, Eq, Error)]
pub enum CheckFault {
    #[error("the proof has more than {} siblings", MAX_LEVEL)]
    TooDeep,
    #[error("the name is empty or longer than {} bytes", MAX_NAME)]
    NameLength,
    #[error("the proof's key is empty or longer than {} bytes", MAX_KEY)]
    KeyLength,
    #[error("the proof's leaf contains another name")]
    WrongName,
    #[error("the proof's other index is the requested index")]
    OtherIsSame,
    #[error("the proof's other index isn't on the path to the requested index")]
    OtherOffPath,
    #[error("the root computed from the proof isn't the expected root")]
    RootMismatch,
}

/// Returns whether two indices begin with the same bits.
fn begin_alike(a: &Index, b: &Index, length: usize) -> bool
    requires { length ≤ MAX_LEVEL }
    ensures { IsTrue result ↔ (first_bits a.now.0 length ≡ first_bits b.now.0 length) }
{
    for k in 0..length {
        if bit(a, k) != bit(b, k) {
            return false;
        }
    }
    true
}

/// Returns the error of an end at a level, if any.
fn end_fault(index: &Index, name: &[u8], level: usize, end: &EndRef<'_>) -> Option<CheckFault>
    requires { level ≤ MAX_LEVEL }
    ensures { MatchOption result (EndFits index.now.0 name.now level (owned end.now))
        (λ fault. IsFirst (EndHas index.now.0 name.now level (owned end.now)) fault) }
{
    match end {
        EndRef::Empty => None,
        EndRef::Other {
            index: other,
            commitment: _,
        } => {
            if *other == *index {
                Some(CheckFault::OtherIsSame)
            } else if !begin_alike(other, index, level) {
                Some(CheckFault::OtherOffPath)
            } else {
                None
            }
        }
        EndRef::Here {
            name: here,
            key,
            opening: _,
        } => {
            if key.is_empty() || key.len() > MAX_KEY {
                Some(CheckFault::KeyLength)
            } else if *here != name {
                Some(CheckFault::WrongName)
            } else {
                None
            }
        }
    }
}

/// Returns the error that a proof has before any hash is computed, if any.
fn early_fault(index: &Index, name: &[u8], proof: &ProofRef<'_>) -> Option<CheckFault>
    ensures { MatchOption result (IsWellFormed index.now.0 name.now proof.now)
        (λ fault. (by : Hashing) (root : Octets) → IsFirst (Has by root index.now.0 name.now proof.now) fault) }
{
    let level = proof.siblings().len();
    if level > MAX_LEVEL {
        return Some(CheckFault::TooDeep);
    }
    if name.is_empty() || name.len() > MAX_NAME {
        return Some(CheckFault::NameLength);
    }
    end_fault(index, name, level, &proof.end())
}

/// Returns the answer that an end contains.
fn answer_at<'a>(end: &EndRef<'a>) -> Answer<'a>
    ensures { stated result ≡ answer_of (owned end.now) }
{
    match end {
        EndRef::Here {
            name: _,
            key,
            opening: _,
        } => Answer::Key(*key),
        _ => Answer::Absent,
    }
}

/// Checks a borrowed proof for a name at its index, under a root and a nonce, and returns its answer.
///
/// Carries the end's hash up along the index's bits and compares it with the root. Finds every error except
/// `RootMismatch` before it computes a hash. Allocates nothing, and its stack use does not grow with the proof.
///
/// # Errors
///
/// If several apply, the first in this order is returned.
///
/// - `TooDeep` if the proof has more than `MAX_LEVEL` siblings.
/// - `NameLength` if the name is empty or longer than `MAX_NAME` bytes.
/// - `KeyLength` if the proof's key is empty or longer than `MAX_KEY` bytes.
/// - `WrongName` if the proof's leaf contains another name.
/// - `OtherIsSame` if the leaf of another index has the requested index.
/// - `OtherOffPath` if the other index does not begin with the path's bits.
/// - `RootMismatch` if the path does not lead to the root.
pub fn check_ref<'a, H: Hash32>(
    h: &H,
    nonce: &Nonce,
    root: &Digest,
    index: &Index,
    name: &[u8],
    proof: &ProofRef<'a>,
) -> Result<Answer<'a>, CheckFault>
    ensures accepted { IfOk result (λ answer. Accepts (hashing (H.digest_of h.now) nonce.now.0) root.now.0 index.now.0 name.now proof.now (stated answer)) }
    ensures exact { (answer : Option Octets) → Accepts (hashing (H.digest_of h.now) nonce.now.0) root.now.0 index.now.0 name.now proof.now answer
        → IsOkAnd result (λ given. stated given ≡ answer) }
    ensures refused { IfErr result (λ fault. IsFirst (Has (hashing (H.digest_of h.now) nonce.now.0) root.now.0 index.now.0 name.now proof.now) fault) }
{
    if let Some(fault) = early_fault(index, name, proof) {
        return Err(fault);
    }
    let end = proof.end();
    let spot = Spot {
        nonce: *nonce,
        index: *index,
        level: 0,
    };
    if carried(h, &spot, &proof.siblings(), &end) != *root {
        return Err(CheckFault::RootMismatch);
    }
    Ok(answer_at(&end))
}

/// Checks a proof for a name at its index, under a root and a nonce, and returns its answer as `check_ref` does.
///
/// Allocates nothing.
///
/// # Errors
///
/// The errors of `check_ref`, in the same order.
pub fn check<'a, H: Hash32>(
    h: &H,
    nonce: &Nonce,
    root: &Digest,
    index: &Index,
    name: &[u8],
    proof: &'a Proof,
) -> Result<Answer<'a>, CheckFault>
    ensures accepted { IfOk result (λ answer. Accepts (hashing (H.digest_of h.now) nonce.now.0) root.now.0 index.now.0 name.now proof.now (stated answer)) }
    ensures exact { (answer : Option Octets) → Accepts (hashing (H.digest_of h.now) nonce.now.0) root.now.0 index.now.0 name.now proof.now answer
        → IsOkAnd result (λ given. stated given ≡ answer) }
    ensures refused { IfErr result (λ fault. IsFirst (Has (hashing (H.digest_of h.now) nonce.now.0) root.now.0 index.now.0 name.now proof.now) fault) }
{
    check_ref(h, nonce, root, index, name, &proof.borrowed())
}
