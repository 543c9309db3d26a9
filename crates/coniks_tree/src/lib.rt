//! The node table of a CONIKS key directory: a Merkle binary prefix tree whose epochs share nodes (Melara, Blankstein,
//! Bonneau, Felten, Freedman: CONIKS, USENIX Security 2015, section 3.1).
//!
//! A `Tree` holds nodes and records, and only grows. A new epoch is a `Part`. `grow` makes it from the entries of an
//! older root, and `attach` adds it at the end of the table. Every older root shows the same entries as before. An epoch
//! of b changes, b at least 1, adds at most `512 * b + 1` nodes, however large the tree is. Each new node is hashed once.
//!
//! A directory (`coniks_directory`) keeps a tree and calls this crate itself. A tree alone takes a part and its records,
//! for which it has reserved room:
//!
//! ```rust
//! let mut tree = Tree::new(alloc);
//! tree.reserve(&part, records.len())?;
//! let root = tree.attach(&TaggedHash, &NONCE, part, records);
//! ```
//!
//! An epoch later:
//!
//! ```rust
//! // The next part is grown from what a root shows. The tree is only read.
//! let top = Prefix::root();
//! let part = tree.grow(
//!     &TaggedHash,
//!     &NONCE,
//!     tree.part_at(root, &top),
//!     &top,
//!     &changes,
//! )?;
//! ```
#![tactic(auto)]

mod attach;
mod entries;
mod growth;
mod halving;
mod joining;
pub mod laws;
mod levels;
pub mod packed;
mod page;
pub mod part;
mod path;
pub mod table;
pub mod tree;

pub use coniks_proof::OutOfMemory;
pub use growth::sides;
pub use part::{Change, Part, Subtree, lefts};
pub use table::{Record, RecordNo, Root};
pub use tree::Tree;
