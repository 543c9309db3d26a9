//! Values, trees, streams, signers, a gate and watchers for tests and measurements; and the tests of `coniks_lanes`,
//! `coniks_proof`, `coniks_lines`, `coniks_tree` and `coniks_chain`, by their public calls, so that the libraries are proved
//! once.
//!
//! No function outside the tests asserts or aborts: a test unwraps the result.
#![tactic(auto)]

mod epochs;
mod gates;
mod records;
mod signers;
mod streams;
#[cfg(test)]
mod tests;
mod values;
mod watches;

pub use epochs::{Epochs, part_before};
pub use gates::Meeting;
pub use records::{Added, Bound, add, changes_to, known, record_of, records_of};
pub use signers::{Only, Stamp, Yes};
pub use streams::{FailIn, FailOut, NEVER, Stop};
pub use values::{NEW_NONCE, NONCE, OPENING, POLICY, bytes_of, digest, index_below, index_of};
pub use watches::{Watch, watch_each, watches_of};
