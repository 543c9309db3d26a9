//! Bits, hashes, commitments and authentication paths of a CONIKS key directory, and the checker of its proofs.
//!
//! A directory keeps a Merkle binary prefix tree over the indices of its names (Melara, Blankstein, Bonneau, Felten,
//! Freedman: CONIKS, USENIX Security 2015, section 3). This crate defines the types that all other crates share: the
//! values of 32 bytes, the hashes of nodes and commitments, and proofs. A proof is an authentication path, and `check`
//! verifies it.
//!
//! A client computes a name's index itself, and takes root and nonce from an entry that it has audited. `TaggedHash` and
//! `INDEX` are your own hash and index source:
//!
//! ```rust
//! let index = INDEX.index(requested);
//! match check(&TaggedHash, &NONCE, &root, &index, requested, &proof)? {
//!     Answer::Key(key) => println!(rt; "{name} at epoch {epoch}: a key of {} bytes", key.len())?,
//!     Answer::Absent => println!(rt; "{name} at epoch {epoch}: not registered")?,
//! }
//! ```
#![tactic(auto)]

pub mod bits;
pub mod bytes;
pub mod checker;
pub mod collision;
pub mod hashing;
pub mod laws;
mod meeting;
mod memory;
pub mod messages;
pub mod paths;
mod preimages;
pub mod proof_ref;
pub mod values;
pub mod wire;

pub use bits::{Prefix, bit};
pub use bytes::{Binding, Bytes, Digests};
pub use checker::{CheckFault, check, check_ref};
pub use collision::{Collision, extract, same_answer};
pub use hashing::{
    CommitmentPreimage, Flat, Hash32, Sha256Hash, commit_hash, commit_hash_eight, commit_hash_four,
    empty_hash, inner_hash, leaf_hash,
};
pub use memory::OutOfMemory;
pub use messages::{Message, empty_message, hash_all, leaf_message};
pub use paths::{Answer, End, Proof, Spot};
pub use proof_ref::{EndRef, ProofRef, Siblings};
pub use values::{
    Digest, Head, Index, MAX_KEY, MAX_LEVEL, MAX_NAME, MAX_OPERATIONS, Nonce, Opening,
};
pub use wire::{BytesFault, WireFault, read_end};
