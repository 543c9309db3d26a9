//! A client of a key directory: the epochs that it keeps, the entries and replies that it accepts, and what it sees of a watched name.
//!
//! A client is its policy digest, its stored epochs from the oldest to the latest one, and the watched name with the changes of its key
//! that the owner made. All of them are slices of the caller, and no call allocates. The caller verifies signatures and VRF proofs, by
//! [`Verify`](coniks_chain::Verify) and [`IndexScheme`], and knows the time. docs/FORMATS.md, "Replies to clients", defines what each
//! call accepts, and the order of errors.
//!
//! | To | Call |
//! |---|---|
//! | accept an entry | [`feed`], and append what it returns, or put it in the place of the latest stored epoch |
//! | look a name up | [`look_up`] |
//! | accept a history, or the entries of a catch-up | [`histories::accept`], [`histories::read_catch_up`] |
//! | watch a name | [`begin_watch`]; later [`expect`] for a change of its key, [`settle`] for changes that are over |
//! | compare an auditor's head | [`compare`] |
//! | find what convicts with an entry of somebody else | [`signed`], then [`evidence_of`] |
//!
//! [`laws::owner`] is what these calls are worth to the owner of a name and to those who look it up.
#![tactic(auto)]

pub mod changes;
pub mod comparing;
pub mod expecting;
pub mod feeding;
pub mod histories;
pub mod laws;
pub mod lookups;
pub mod renumbering;
pub mod replies;
pub mod steps;
pub mod stored;
pub mod times;
pub mod watching;

pub use changes::{Change, mark_changes, settle};
pub use comparing::{Comparison, compare};
pub use expecting::{ExpectFault, expect};
pub use feeding::{Conviction, EntryFault, FeedFault, evidence_of, signed, verified};
pub use lookups::{Asking, Found, IndexScheme, LookupFault, Verifier, is_stored, lookup};
pub use renumbering::begin_watch;
pub use replies::{Reply, ReplyFault};
pub use steps::{Accepted, Fed, Shown, feed, look_up};
pub use stored::{StoredEntry, latest_epoch};
pub use times::{AgeFault, Clock, Present, age_fault};
pub use watching::Watch;
