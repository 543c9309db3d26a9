//! The engine of `run`: a script's directory, and the replies to its lines.

pub(crate) mod batch;
pub mod laws;
pub(crate) mod machine;
pub(crate) mod reply;
pub(crate) mod store;
