//! What both programs share: lines of JSON, and command lines (`cli`).
//!
//! Lines have members, with entries, proofs and operations in them. Several engines print the same replies.
//!
//! `read_object` reads a line, `text`, `number`, `array` and the others read its members, and `object` prints a reply:
//!
//! ```rust
//! let Some(line) = read_object(alloc, br#"{"name":"alice"}"#)? else {
//!     return Ok(());
//! };
//! let name = text(&line, "name").unwrap_or("");
//! object(alloc, &[Field("ok", Shown::Text(name))])?.print(&mut out)?;
//! ```
#![tactic(auto)]

pub mod builders;
pub mod cli;
mod digits;
pub mod entries;
pub mod fault;
pub mod members;
pub mod objects;
pub mod operations;
pub mod printable;
pub mod printing;
pub mod proof_object;
pub mod proof_text;
pub mod refusal;
pub mod replies;
