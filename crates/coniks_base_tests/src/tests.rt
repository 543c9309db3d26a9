//! What no contract states: that calls succeed, also after a failed allocation, streams that fail, printed texts,
//! published values and costs.

mod chain;
mod lanes;
mod lines;
mod proof;
mod tree;

use coniks_proof::Bytes;
use std::alloc::Global;
use std::process::Abort;

/// Copies a name or a key, and tries once more if an allocation fails.
fn copied(rt: &impl Abort, alloc: Global, bytes: &[u8]) -> Bytes {
    match Bytes::copy_of(alloc, bytes) {
        Ok(copy) => copy,
        Err(_) => Bytes::copy_of(alloc, bytes).expect(rt, "memory"),
    }
}

/// Returns the bytes after the pieces, or `None` if the bytes do not begin with the pieces, one after another.
fn after<'a>(bytes: &'a [u8], pieces: &[&[u8]]) -> Option<&'a [u8]> {
    let mut rest = bytes;
    for piece in pieces {
        rest = rest.strip_prefix(*piece)?;
    }
    Some(rest)
}

/// Returns whether the bytes are the concatenation of the pieces.
fn is_joined(bytes: &[u8], pieces: &[&[u8]]) -> bool {
    match after(bytes, pieces) {
        Some(rest) => rest.is_empty(),
        None => false,
    }
}
