//! The engine of `audit`: an auditor over the entries of lines.

pub mod laws;
pub(crate) mod machine;
pub(crate) mod reply;
