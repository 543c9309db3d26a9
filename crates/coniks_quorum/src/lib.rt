//! Confirms a client's chain by a quorum of auditors, says what a client may rely on, and makes bytes of all that it keeps
//! (`states`).
//!
//! A client names n auditors. At most f of them lie. The client compares each auditor's head with its own chain, and keeps the
//! auditor's mark: the greatest epoch at which both were equal. A quorum confirms an epoch if that many marks reach it. Two
//! clients with the same auditors are then on one chain, even if they don't know of each other (see `laws`).
//!
//! The caller verifies the cosignatures of heads, and lists each auditor once. Nothing here allocates.
#![tactic(auto)]

pub mod alarms;
pub mod covering;
pub mod heads;
pub mod laws;
pub mod lost;
pub mod marks;
pub mod quorum;
pub mod relying;
pub mod reporting;
pub mod sights;
pub mod states;
pub mod successions;
pub mod vouching;
