//! Tests. Another program computed the expected digests, entries and outputs.

mod answers;
mod clerk;
mod directory;
mod refused;
mod runs;
mod shared;
mod texts;
mod tool;
mod watching;
mod work;
