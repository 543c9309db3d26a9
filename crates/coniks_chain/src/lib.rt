//! The chain of signed tree roots (STRs) of a CONIKS key directory, its auditor, a client's monitor, and a guard of the signing key.
//!
//! A directory signs the root of its tree at each epoch, together with the hash of the entry before it (Melara,
//! Blankstein, Bonneau, Felten, Freedman: CONIKS, USENIX Security 2015, section 3). An entry is the encoding of one STR.
//! An auditor verifies such a chain. A client's monitor also checks a proof for its own name at each entry. Two chains
//! that end in one link are the same, or `extract_history` finds a collision of the hash in them. Two chains of one signing
//! key that part contain two entries that convict the key's owner, and `find_evidence` finds them. A key that is used through a
//! guard signs one chain: `guard` has the steps, and `guard_record` the record that they change.
//!
//! An auditor takes the entries, and a type that verifies their signatures:
//!
//! ```rust
//! let mut auditor = Auditor::new(TaggedHash);
//! for entry in provider.directory.chain() {
//!     auditor.feed(entry, &provider.signer)?;
//! }
//! if let Some(head) = auditor.head() {
//!     let link = hex::encode(rt.alloc(), &head.link.0)?;
//!     println!(rt; "the chain is good up to epoch {}, link {link}", head.epoch)?;
//! }
//! ```
//!
//! A monitor of a name also takes the proof for it at each entry:
//!
//! ```rust
//! let proof = provider.directory.lookup(epoch, name.as_bytes())?;
//! match monitor.step(entry, &proof, &provider.signer)? {
//!     Seen::Same => println!(rt; "{name} at epoch {epoch}: the expected key")?,
//!     Seen::Changed => println!(rt; "{name} at epoch {epoch}: another key")?,
//!     Seen::Absent => println!(rt; "{name} at epoch {epoch}: no key")?,
//! }
//! ```
#![tactic(auto)]

pub mod auditor;
pub mod entry;
pub mod evidence;
pub mod guard;
pub mod guard_record;
pub mod history;
pub mod laws;
pub mod monitor;
pub mod seen;
pub mod signer;

pub use auditor::{AuditFault, Auditor, AuditorState, audit, auditor_after};
pub use entry::{BODY_BYTES, Body, ENTRY_BYTES, Entry, Signature, link};
pub use evidence::{Evidence, EvidenceKind, convicts, find_evidence, is_well_formed};
pub use history::extract_history;
pub use monitor::{Monitor, Wanted};
pub use seen::{MonitorFault, Seen, Tally};
pub use signer::{Sign, SignatureSource, Signer, Signings, Verify};
