//! Streams of bytes, and an engine over them.
//!
//! The engine reads lines from one stream, passes each to a machine, and writes the answers to another stream. A machine
//! that repeats lines, and refuses empty ones:
//!
//! ```rust
//! impl LineMachine for Echo {
//!     ghost State = { ℕ };
//!
//!     ghost state = { λ _. 0 };
//!
//!     ghost answer = { λ state line. record { text = line; accepted = nat_lt 0 (length line); state = state } };
//!
//!     ghost Needs = { Unit {0} };
//!
//!     fn step(&mut self, line: &[u8], out: &mut Vec<u8>) -> Result<bool, AllocError> {
//!         out.extend_from_slice(line)?;
//!         Ok(line.len() > 0)
//!     }
//! }
//! ```
//!
//! It replies to three lines, from memory to memory. `SystemIn` and `SystemOut` are the standard streams:
//!
//! ```rust
//! let mut reader = MemoryIn::new(Vec::from_slice(alloc, b"one\n\nthree\n")?);
//! let mut writer = MemoryOut::new(alloc);
//! let all = run_lines(alloc, &mut Echo, &mut reader, &mut writer)?;
//! ```
#![tactic(auto)]

pub mod bytes;
pub mod engine;
pub mod fault;
pub mod lines;
pub mod memory;
pub mod system;

pub use bytes::{ByteIn, ByteOut, Failed};
pub use engine::{LineMachine, run_lines, write_all};
pub use fault::LineFault;
pub use lines::lines_are_parts;
pub use memory::{MemoryIn, MemoryOut};
pub use system::{SystemIn, SystemOut};
