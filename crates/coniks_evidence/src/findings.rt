//! What two records of one epoch contain against a directory.

use crate::preimages::Colliding;
use coniks_client::LookupFault;
use coniks_proof::Index;
use thiserror::Error;

/// A VRF proof, and the index of the name that it verifies to.
#[derive(Clone, Copy)]
pub struct Indexed<'a> {
    pub vrf: &'a [u8],
    pub index: Index,
}

/// Why two records show nothing. If several apply, the first in declaration order is returned.
#[derive(Clone, Copy, Debug, Drop, PartialEq, Eq, Error)]
pub enum Reason {
    #[error("the owner's kept epochs don't have the head")]
    OwnerHead,
    #[error("the contact's kept epochs don't have the head")]
    ContactHead,
    #[error("the owner's reply is refused: {0}")]
    OwnerReply(LookupFault),
    #[error("the contact's reply is refused: {0}")]
    ContactReply(LookupFault),
    /// One of the records is then no chain.
    #[error("the kept entries of the epoch have different bodies")]
    OtherBody,
    #[error("both replies show one key, which isn't the one that the owner's changes expect")]
    Unexpected,
}

/// What two records of one epoch contain.
#[derive(Drop)]
pub enum Finding<'a> {
    /// Both replies show the expected key.
    Same,
    /// What is hashed to the links of two entries: they differ and have one link.
    Links(Colliding<'a>),
    /// What is hashed for two nodes or two commitments on the paths in the replies.
    Nodes(Colliding<'a>),
    /// Two VRF proofs of the name with different indices.
    Indices(Indexed<'a>, Indexed<'a>),
    /// Nothing that convicts.
    Nothing(Reason),
}
