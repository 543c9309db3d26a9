//! Numbered names. Each name is its own key.

use coniks_directory::{Op, OpKind};
use coniks_proof::{Bytes, Opening};
use std::alloc::{AllocError, Global};

/// Returns the name of a number.
pub fn name_of(number: u64) -> [u8; 8] {
    number.to_be_bytes()
}

/// Returns the operation that registers the name of a number.
fn registration(alloc: Global, number: u64) -> Result<Op, AllocError> {
    let name = name_of(number);
    Ok(Op {
        kind: OpKind::Register,
        name: Bytes::copy_of(alloc, &name)?,
        key: Bytes::copy_of(alloc, &name)?,
        opening: Opening([0x22; 32]),
    })
}

/// Returns the operations that register `count` names, beginning with the name of the number `first`.
pub fn registrations(alloc: Global, first: u64, count: usize) -> Result<Vec<Op>, AllocError> {
    let mut ops = Vec::new(alloc);
    for place in 0..count {
        ops.push(registration(alloc, first.wrapping_add(place as u64))?)?;
    }
    Ok(ops)
}
