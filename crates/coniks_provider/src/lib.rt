//! The lines, the engine and the command line of the program `provider`: a directory whose indices and signatures come
//! from outside.
//!
//! A service computes the index of each name with its own verifiable random function (VRF, RFC 9381). It signs each
//! epoch's body with its own key. A directory is opened, or restored from its latest entry and the bindings at that
//! epoch, which a service reads in pages. `run_provider` answers lines over memory as the program `provider` answers
//! standard input:
//!
//! ```rust
//! let mut reader = MemoryIn::new(Vec::from_slice(alloc, LINES)?);
//! let mut writer = MemoryOut::new(alloc);
//! let parallelism = Parallelism::new(Wanted {
//!     workers: 2,
//!     depth: 1,
//! })?;
//! let all = run_provider(rt, alloc, &mut reader, &mut writer, parallelism)?;
//! ```
#![tactic(auto)]

mod batch;
mod claims;
mod cli;
mod discard;
mod latest;
pub mod laws;
mod machine;
mod operations;
mod page;
mod replay;
mod reply;
mod restoring;
mod service;
mod stage;
mod store;
mod stored;

pub use cli::provider::Provider;
pub use coniks_lines::{SystemIn, SystemOut};
pub use coniks_programs::cli::start;
pub use machine::run_provider;
pub use replay::run_replay;
