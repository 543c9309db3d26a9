//! The proof in a line.

ghost use Rattle.std.specs.Prelude.{◌≡◌, IfOk, codes, option_and_then};
ghost use Rattle.serde_json.specs.View.{view, items_view};
ghost use Rattle.serde_json.specs.Find.{get};
ghost use Rattle.coniks_programs.specs.ProofObjects.{digest_in, digests_in, end_in, here_in, other_in, proof_in, proof_of};

use crate::members::{array, base64, bytes_of_digits, digits32, text};
use coniks_proof::{Bytes, Digest, Digests, End, Index, Opening, Proof};
use serde_json::Value;
use std::alloc::{AllocError, Global};

/// Reads the proof of a line: its member `proof`, with `end` and `siblings` from the root down.
///
/// Returns `None` if it is missing, or anything in it is missing, of another kind or of a wrong text. Any length and any
/// number of siblings is accepted.
///
/// # Errors
///
/// `AllocError` if an allocation fails.
pub fn read_proof(alloc: Global, object: &Value) -> Result<Option<Proof>, AllocError>
    ensures { IfOk result (λ proof. proof ≡ proof_in (view object.now)) }
{
    match object.get("proof") {
        Some(value) => proof_at(alloc, value),
        None => Ok(None),
    }
}

/// Reads a proof, or returns `None` if the value is no proof.
fn proof_at(alloc: Global, value: &Value) -> Result<Option<Proof>, AllocError>
    ensures { IfOk result (λ proof. proof ≡ proof_of (view value.now)) }
{
    let Some(end) = end(alloc, value)? else {
        return Ok(None);
    };
    let Some(elements) = array(value, "siblings") else {
        return Ok(None);
    };
    let Some(siblings) = digests(alloc, elements)? else {
        return Ok(None);
    };
    Ok(Some(Proof { siblings, end }))
}

/// Reads the digests of the elements, or returns `None` if one is no digest.
fn digests(alloc: Global, elements: &[Value]) -> Result<Option<Digests>, AllocError>
    ensures { IfOk result (λ digests. digests ≡ digests_in (items_view elements.now)) }
{
    let mut found = Vec::with_capacity(alloc, elements.len())?;
    for element in elements {
        match digest(element) {
            Some(digest) => found.push(digest)?,
            None => return Ok(None),
        }
    }
    Ok(Some(Digests::new(found)))
}

/// Reads a digest, or returns `None` if the value is no digest.
fn digest(value: &Value) -> Option<Digest>
    ensures { result ≡ digest_in (view value.now) }
{
    match bytes_of_digits(value.as_str()?) {
        Some(bytes) => Some(Digest(bytes)),
        None => None,
    }
}

/// Reads the end of a proof object.
fn end(alloc: Global, proof: &Value) -> Result<Option<End>, AllocError>
    ensures { IfOk result (λ end. end ≡ option_and_then end_in (get (codes "end") (view proof.now))) }
{
    match proof.get("end") {
        Some(value) => end_at(alloc, value),
        None => Ok(None),
    }
}

/// Reads the end of a path, or returns `None` if the value is no end.
fn end_at(alloc: Global, value: &Value) -> Result<Option<End>, AllocError>
    ensures { IfOk result (λ end. end ≡ end_in (view value.now)) }
{
    let Some(kind) = text(value, "kind") else {
        return Ok(None);
    };
    if kind == "empty" {
        return Ok(Some(End::Empty));
    }
    if kind == "other" {
        return Ok(other(value));
    }
    if kind == "here" {
        return here(alloc, value);
    }
    Ok(None)
}

/// Reads an end that is the leaf of another index.
fn other(value: &Value) -> Option<End>
    ensures { result ≡ other_in (view value.now) }
{
    let commitment = Digest(digits32(value, "commitment")?);
    let index = Index(digits32(value, "index")?);
    Some(End::Other { index, commitment })
}

/// Reads an end that shows the requested index's binding.
fn here(alloc: Global, value: &Value) -> Result<Option<End>, AllocError>
    ensures { IfOk result (λ end. end ≡ here_in (view value.now)) }
{
    let Some(key) = base64(alloc, value, "key")? else {
        return Ok(None);
    };
    let Some(name) = text(value, "name") else {
        return Ok(None);
    };
    let Some(opening) = digits32(value, "opening") else {
        return Ok(None);
    };
    Ok(Some(End::Here {
        name: Bytes::copy_of(alloc, name.as_bytes())?,
        key: Bytes::new(key),
        opening: Opening(opening),
    }))
}
