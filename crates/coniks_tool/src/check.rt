//! The engine of `check`: the question of a line, and the checker's answer.

pub mod laws;
pub(crate) mod machine;
pub(crate) mod question;
pub(crate) mod reply;
