//! The engine of `monitor`: a client's monitor over the entries and proofs of lines, and its expectation.

pub(crate) mod expectation;
pub mod laws;
pub(crate) mod machine;
pub(crate) mod reply;
