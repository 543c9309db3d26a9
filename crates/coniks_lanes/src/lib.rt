//! SHA-256 (FIPS 180-4) of four or eight messages at once, each in a lane of the processor's vectors.
//!
//! The kit's `sha2` defines the hash of a message; this crate has no definition of its own. Messages of two blocks are hashed
//! together: four in vectors of 16 bytes, which each x86-64 has, and eight in vectors of 32 bytes, which x86-64-v3 has; elsewhere
//! the compiler splits each in two. `TwoBlocks::of` takes the pieces of a message, and `hash_four` and `hash_eight` take such
//! messages.
#![tactic(auto)]

pub mod hashing;
pub mod message;
mod rounds;
mod words;

pub use hashing::{hash_eight, hash_four};
pub use message::{MAX_TWO_BLOCKS, MIN_TWO_BLOCKS, TwoBlocks};
