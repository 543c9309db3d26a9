//! The result of a lookup, and its errors.

use coniks_chain::Entry;
use coniks_proof::{Index, MAX_NAME, Proof};
use thiserror::Error;

/// A proof with the entry of its epoch and the name's index.
///
/// A client checks the proof against the entry's root and nonce and against the index.
#[derive(Drop)]
pub struct SignedProof {
    pub entry: Entry,
    pub index: Index,
    pub proof: Proof,
}

/// The error of a lookup. If several apply, the first in declaration order is returned.
#[derive(Clone, Copy, Debug, Drop, PartialEq, Eq, Error)]
pub enum LookupFault {
    /// No epoch was installed under exactly this number.
    #[error("there is no such epoch")]
    UnknownEpoch,
    /// The name is empty or longer than `MAX_NAME` bytes.
    #[error("the name is empty or longer than {} bytes", MAX_NAME)]
    NameLength,
    /// An allocation failed.
    #[error("out of memory")]
    OutOfMemory,
}

/// The error of a lookup of a name at an index. If several apply, the first in declaration order is returned.
#[derive(Clone, Copy, Debug, Drop, PartialEq, Eq, Error)]
pub enum LookupAtFault {
    /// No epoch was installed under exactly this number.
    #[error("there is no such epoch")]
    UnknownEpoch,
    /// The name is empty or longer than `MAX_NAME` bytes.
    #[error("the name is empty or longer than {} bytes", MAX_NAME)]
    NameLength,
    /// The name is registered with another index.
    #[error("the name is registered with another index")]
    OtherIndex,
    /// An allocation failed.
    #[error("out of memory")]
    OutOfMemory,
}
