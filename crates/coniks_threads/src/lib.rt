//! What several threads share, without a lock, and one epoch's part that several worker threads build.
//!
//! The changes of a batch are split into jobs, one for each prefix of the split depth under which an index changes.
//! Workers draw the numbers of the jobs from the claims, each once. Each builds the parts of the prefixes that it drew,
//! and the parts are joined upwards. The result is the same for every number of workers and every split depth. The tree
//! is that of Melara, Blankstein, Bonneau, Felten, Freedman: CONIKS, USENIX Security 2015, section 3.1.
//!
//! A directory (`coniks_directory`) calls `build` for its batches, and takes only a `Gate`, for example `Open`. For a
//! tree alone:
//!
//! ```rust
//! // Indices that differ in their first bit are jobs of their own, and two workers draw them.
//! let (depth, workers) = (1, 2);
//! let (h, old) = (&TaggedHash, Some(root));
//! let alloc = rt.alloc();
//! let part = build(
//!     rt, alloc, h, &NONCE, tree, old, changes, depth, workers, &Open,
//! )?;
//! let hash = tree.part_hash(h, &NONCE, &part);
//! ```
//!
//! On a board one publisher publishes heads, and watchers read the last one. A board with its publisher, and a watcher:
//!
//! ```rust
//! let (board, mut publisher) = Board::new(alloc, 8)?;
//! let mut watcher = publisher.watcher(&board)?;
//! ```
//!
//! A directory takes the publisher at each install, and publishes the epoch's head there:
//!
//! ```rust
//! if let Some(head) = watcher.latest(&board) {
//!     println!(rt; "the watcher saw epoch {}", head.epoch)?;
//! }
//! ```
#![tactic(auto)]

mod board;
mod board_rule;
mod building;
mod claims;
mod claims_rule;
mod errors;
mod gate;
mod growing;
mod head_words;
mod jobs;
pub mod laws;
mod parallelism;
mod places;
mod pool;
mod upwards;
mod work;
mod worker;

pub use board::{Board, MAX_HEADS, Publisher, Watcher};
pub use building::{MAX_WORKERS, build};
pub use claims::{Claims, Drawer, MAX_DRAWERS, MAX_NUMBERS};
pub use errors::{BoardFull, NoBoard, NoClaims, NoSeat};
pub use gate::{Gate, Open};
pub use jobs::{Job, MAX_DEPTH, split};
pub use parallelism::{Parallelism, ParallelismFault, Wanted};
