//! The wire form of proofs: each proof has exactly one byte string.

ghost use Rattle.std.specs.Prelude.{◌≡◌, ◌≢◌, ◌+◌, ◌++◌, ◌<◌, ◌^◌, IfErr, IfNone, IfOk, IfSome, IsOkAnd, MatchOption, OnOk, length};
ghost use Rattle.std.specs.Int.{to_be_bytes, w16, w32};
ghost use Rattle.coniks_proof.specs.ProofRefs.{listed, owned};
ghost use Rattle.coniks_proof.specs.Wire.{AreSized, EndHas, FrontHas, HasRoom, IsEndOf, IsFirstFault, IsFront, IsWire, IsWritableEnd, Refuses, WireHas, after_key, after_name, end_bytes, key_length, kind_of, long_length, name_length, short_length, sibling_bytes};
ghost use Rattle.coniks_proof.specs.declared.wire.BytesFault.TheVariants.{OutOfMemory};
ghost use Rattle.coniks_proof.specs.declared.wire.WireFault.TheVariants.{BytesFollow};
ghost use Rattle.coniks_proof.specs.declared.paths.Proof.{Proof as Whole};

use crate::paths::{End, Proof};
use crate::proof_ref::{EndRef, ProofRef, Siblings};
use crate::values::{Digest, Index, Opening, in_range};
use std::alloc::{AllocError, Global};
use thiserror::Error;

/// The first byte of a proof that ends with an empty node.
const EMPTY_KIND: u8 = 0;

/// The first byte of a proof that ends with the leaf of another index.
const OTHER_KIND: u8 = 1;

/// The first byte of a proof that ends with the leaf of the requested index.
const HERE_KIND: u8 = 2;

/// The error of bytes that are no proof. If several apply, the first in declaration order is returned.
#[derive(Clone, Copy, Debug, Drop, PartialEq, Eq, Error)]
pub enum WireFault {
    #[error("there are no bytes")]
    NoBytes,
    #[error("the first byte is no kind of proof")]
    UnknownKind,
    #[error("the bytes end within the number of siblings")]
    CutInCount,
    #[error("the bytes end within the siblings")]
    CutInSiblings,
    #[error("the bytes end within the other index or its commitment")]
    CutInOther,
    #[error("the bytes end within the opening")]
    CutInOpening,
    #[error("the bytes end within the name or its length")]
    CutInName,
    #[error("the bytes end within the key or its length")]
    CutInKey,
    #[error("bytes follow the proof")]
    BytesFollow,
}

/// The error of a proof that has no bytes. If several apply, the first in declaration order is returned.
#[derive(Clone, Copy, Debug, Drop, PartialEq, Eq, Error)]
pub enum BytesFault {
    #[error("the proof has more than 65,535 siblings")]
    TooManySiblings,
    #[error("the proof's name is longer than 65,535 bytes")]
    NameTooLong,
    #[error("the proof's key is longer than 4,294,967,295 bytes")]
    KeyTooLong,
    #[error("out of memory")]
    OutOfMemory,
}

impl From<AllocError> for BytesFault {
    ghost from_gives = { λ _ fault. fault ≡ OutOfMemory };

    fn from(_: AllocError) -> BytesFault {
        BytesFault::OutOfMemory
    }
}

/// Returns the kind and the siblings that bytes begin with, and the bytes after them.
fn read_front(bytes: &[u8]) -> Result<(u8, Siblings<'_>, &[u8]), WireFault>
    ensures found { IfOk result (λ front. IsFront bytes.now front.0 (listed front.1) front.2.now) }
    ensures refused { IfErr result (λ fault. IsFirstFault (FrontHas bytes.now) fault) }
{
    let (kind, rest) = bytes.split_first().ok_or(WireFault::NoBytes)?;
    if *kind > HERE_KIND {
        return Err(WireFault::UnknownKind);
    }
    let (count, rest) = rest.split_first_chunk::<2>().ok_or(WireFault::CutInCount)?;
    let count = usize::from(u16::from_be_bytes(*count));
    let (siblings, rest) = rest
        .split_at_checked(count * 32)
        .ok_or(WireFault::CutInSiblings)?;
    Ok((*kind, Siblings::Wire(siblings.as_chunks::<32>().0), rest))
}

/// Returns a name that follows its length in 2 bytes, and the bytes after it.
fn split_name(bytes: &[u8]) -> Option<(&[u8], &[u8])>
    ensures whole { IfSome result (λ parts. bytes.now ≡ to_be_bytes w16 (length parts.0.now) ++ parts.0.now ++ parts.1.now) }
    ensures short { IfSome result (λ parts. length parts.0.now < 2 ^ 16) }
    ensures rest { IfSome result (λ parts. parts.1.now ≡ after_name bytes.now) }
    ensures cut { IfNone result (length bytes.now < 2 + short_length bytes.now) }
{
    let (length, rest) = bytes.split_first_chunk::<2>()?;
    rest.split_at_checked(usize::from(u16::from_be_bytes(*length)))
}

/// Returns a key that follows its length in 4 bytes, and the bytes after it.
fn split_key(bytes: &[u8]) -> Option<(&[u8], &[u8])>
    ensures whole { IfSome result (λ parts. bytes.now ≡ to_be_bytes w32 (length parts.0.now) ++ parts.0.now ++ parts.1.now) }
    ensures short { IfSome result (λ parts. length parts.0.now < 2 ^ 32) }
    ensures rest { IfSome result (λ parts. parts.1.now ≡ after_key bytes.now) }
    ensures cut { IfNone result (length bytes.now < 4 + long_length bytes.now) }
{
    let (length, rest) = bytes.split_first_chunk::<4>()?;
    rest.split_at_checked(u32::from_be_bytes(*length) as usize)
}

/// Returns the leaf of another index that bytes begin with, and the bytes after it.
fn read_other(bytes: &[u8]) -> Result<(EndRef<'_>, &[u8]), WireFault>
    ensures found { IfOk result (λ end. IsEndOf bytes.now 1 (owned end.0) end.1.now) }
    ensures refused { IfErr result (λ fault. IsFirstFault (EndHas 1 bytes.now) fault) }
    ensures cut { IfErr result (λ fault. fault ≢ BytesFollow) }
{
    let (index, rest) = bytes
        .split_first_chunk::<32>()
        .ok_or(WireFault::CutInOther)?;
    let (commitment, rest) = rest.split_first_chunk::<32>().ok_or(WireFault::CutInOther)?;
    let index = Index(*index);
    let commitment = Digest(*commitment);
    Ok((EndRef::Other { index, commitment }, rest))
}

/// Returns the leaf of the requested index that bytes begin with, and the bytes after it.
fn read_here(bytes: &[u8]) -> Result<(EndRef<'_>, &[u8]), WireFault>
    ensures found { IfOk result (λ end. IsEndOf bytes.now 2 (owned end.0) end.1.now) }
    ensures refused { IfErr result (λ fault. IsFirstFault (EndHas 2 bytes.now) fault) }
    ensures cut { IfErr result (λ fault. fault ≢ BytesFollow) }
{
    let (opening, rest) = bytes
        .split_first_chunk::<32>()
        .ok_or(WireFault::CutInOpening)?;
    let (name, rest) = split_name(rest).ok_or(WireFault::CutInName)?;
    let (key, rest) = split_key(rest).ok_or(WireFault::CutInKey)?;
    let opening = Opening(*opening);
    Ok((EndRef::Here { name, key, opening }, rest))
}

/// Returns the end of this kind that bytes begin with, and the bytes after it: kind 0 is an empty node, 1 the leaf of another
/// index, 2 the leaf of the requested one. The name and the key are borrowed from the bytes.
///
/// # Errors
///
/// If several apply, the first in this order is returned.
///
/// - `CutInOther` if the bytes end within the other index or its commitment.
/// - `CutInOpening` if the bytes end within the opening.
/// - `CutInName` if the bytes end within the name or its length.
/// - `CutInKey` if the bytes end within the key or its length.
pub fn read_end(kind: u8, bytes: &[u8]) -> Result<(EndRef<'_>, &[u8]), WireFault>
    requires { kind < 3 }
    ensures found { IfOk result (λ end. IsEndOf bytes.now kind (owned end.0) end.1.now) }
    ensures refused { IfErr result (λ fault. IsFirstFault (EndHas kind bytes.now) fault) }

    // Bytes may follow the end.
    ensures cut { IfErr result (λ fault. fault ≢ BytesFollow) }
{
    match kind {
        EMPTY_KIND => Ok((EndRef::Empty, bytes)),
        OTHER_KIND => read_other(bytes),
        _ => read_here(bytes),
    }
}

impl<'a> ProofRef<'a> {
    /// Reads the proof that has these bytes.
    ///
    /// The siblings, the name and the key are borrowed from the bytes. Allocates nothing. `read` accepts more than 256
    /// siblings, and a name or a key that is empty or too long; `check_ref` refuses them.
    ///
    /// # Errors
    ///
    /// If several apply, the first in this order is returned.
    ///
    /// - `NoBytes` if there are no bytes.
    /// - `UnknownKind` if the first byte is no kind of proof.
    /// - `CutInCount` if the bytes end within the number of siblings.
    /// - `CutInSiblings` if the bytes end within the siblings.
    /// - `CutInOther` if the bytes end within the other index or its commitment.
    /// - `CutInOpening` if the bytes end within the opening.
    /// - `CutInName` if the bytes end within the name or its length.
    /// - `CutInKey` if the bytes end within the key or its length.
    /// - `BytesFollow` if bytes follow the proof.
    pub fn read(bytes: &'a [u8]) -> Result<ProofRef<'a>, WireFault>
        ensures accepted { IfOk result (λ proof. IsWire bytes.now proof) }
        ensures exact { (proof : Whole) → IsWire bytes.now proof → IsOkAnd result (λ given. given ≡ proof) }
        ensures refused { IfErr result (λ fault. IsFirstFault (WireHas bytes.now) fault) }
    {
        let (kind, siblings, rest) = read_front(bytes)?;
        let (end, rest) = read_end(kind, rest)?;
        if !rest.is_empty() {
            return Err(WireFault::BytesFollow);
        }
        Ok(ProofRef::new(siblings, end))
    }
}

/// Returns the error of a proof with a part that is too long for its bytes, if any.
fn excess(proof: &Proof) -> Option<BytesFault>
    ensures { MatchOption result (HasRoom proof.now) (λ fault. Refuses proof.now fault) }
{
    if proof.siblings.as_slice().len() > usize::from(u16::MAX) {
        return Some(BytesFault::TooManySiblings);
    }
    match &proof.end {
        End::Here {
            name,
            key,
            opening: _,
        } => {
            if name.as_slice().len() > usize::from(u16::MAX) {
                Some(BytesFault::NameTooLong)
            } else if key.as_slice().len() > u32::MAX as usize {
                Some(BytesFault::KeyTooLong)
            } else {
                None
            }
        }
        _ => None,
    }
}

/// Returns the first byte of a proof with this end.
fn kind_byte(end: &End) -> u8
    ensures { result ≡ kind_of end.now }
{
    match end {
        End::Empty => EMPTY_KIND,
        End::Other { .. } => OTHER_KIND,
        End::Here { .. } => HERE_KIND,
    }
}

/// Returns the number of bytes of an end.
fn end_size(end: &End) -> usize
    requires name { name_length end.now < 2 ^ 16 }
    requires key { key_length end.now < 2 ^ 32 }
    ensures size { result ≡ length (end_bytes end.now) }
    ensures small { result < 2 ^ 33 }
{
    match end {
        End::Empty => 0,
        End::Other { index, commitment } => {
            in_range(&index.0);
            in_range(&commitment.0);
            index.0.len() + commitment.0.len()
        }
        End::Here { name, key, opening } => {
            in_range(&opening.0);
            opening.0.len() + 2 + name.as_slice().len() + 4 + key.as_slice().len()
        }
    }
}

/// Appends the siblings to the bytes.
fn put_siblings(bytes: &mut Vec<u8>, siblings: &[Digest]) -> Result<(), AllocError>
    ensures put { OnOk result (bytes.new.items ≡ bytes.old.items ++ sibling_bytes siblings.now) }
    ensures sized { OnOk result (AreSized siblings.now) }
{
    for sibling in siblings {
        in_range(&sibling.0);
        bytes.extend_from_slice(&sibling.0)?;
    }
    Ok(())
}

/// Appends what follows the siblings to the bytes.
fn put_end(bytes: &mut Vec<u8>, end: &End) -> Result<(), AllocError>
    requires name { name_length end.now < 2 ^ 16 }
    requires key { key_length end.now < 2 ^ 32 }
    ensures put { OnOk result (bytes.new.items ≡ bytes.old.items ++ end_bytes end.now) }
    ensures sized { OnOk result (IsWritableEnd end.now) }
{
    match end {
        End::Empty => {}
        End::Other { index, commitment } => {
            in_range(&index.0);
            in_range(&commitment.0);
            bytes.extend_from_slice(&index.0)?;
            bytes.extend_from_slice(&commitment.0)?;
        }
        End::Here { name, key, opening } => {
            in_range(&opening.0);
            let name = name.as_slice();
            let key = key.as_slice();
            bytes.extend_from_slice(&opening.0)?;
            bytes.extend_from_slice(&(name.len() as u16).to_be_bytes())?;
            bytes.extend_from_slice(name)?;
            bytes.extend_from_slice(&(key.len() as u32).to_be_bytes())?;
            bytes.extend_from_slice(key)?;
        }
    }
    Ok(())
}

impl Proof {
    /// Returns the bytes of the proof, in one allocation.
    ///
    /// Every proof that `check` accepts has bytes.
    ///
    /// # Errors
    ///
    /// If several apply, the first in this order is returned.
    ///
    /// - `TooManySiblings` if the proof has more than 65,535 siblings.
    /// - `NameTooLong` if its name is longer than 65,535 bytes.
    /// - `KeyTooLong` if its key is longer than 4,294,967,295 bytes.
    /// - `OutOfMemory` if an allocation fails.
    pub fn bytes(&self, alloc: Global) -> Result<Vec<u8>, BytesFault>
        ensures written { IfOk result (λ bytes. IsWire bytes.items self.now) }
        ensures refused { IfErr result (λ fault. Refuses self.now fault) }
    {
        if let Some(fault) = excess(self) {
            return Err(fault);
        }
        let siblings = self.siblings.as_slice();
        let size = 3 + siblings.len() * 32 + end_size(&self.end);
        let mut bytes = Vec::with_capacity(alloc, size)?;
        bytes.extend_from_slice(&[kind_byte(&self.end)])?;
        bytes.extend_from_slice(&(siblings.len() as u16).to_be_bytes())?;
        put_siblings(&mut bytes, siblings)?;
        put_end(&mut bytes, &self.end)?;
        Ok(bytes)
    }
}
