//! The checker of proofs, the auditor of a chain, a client's monitor and its core, and the guard of a signing key for C, and for all
//! that calls C. Nothing here takes memory but the stack, starts a thread, keeps anything after a call or calls anybody back.
//!
//! Each export checks the lengths that are passed, so a call has one precondition: the bytes are there. The headers in `include/`
//! describe the calls for C.
#![tactic(auto)]

mod auditor;
mod check;
mod core_client;
mod core_compare;
mod core_cover;
mod core_feed;
mod core_history;
mod core_lookup;
mod core_lost;
mod core_quorum;
mod core_report;
mod core_start;
mod core_state;
mod core_status;
mod core_succeed;
mod core_values;
mod core_watch;
mod entries;
mod evidence;
mod guard;
mod guard_status;
mod monitor;
mod numbers;
mod status;
mod text;
mod values;
mod version;

pub use auditor::{coniks_auditor_begin, coniks_auditor_feed, coniks_auditor_head};
pub use check::coniks_check;
pub use core_client::{
    RawAlarms, RawChanges, RawClock, RawCore, RawMarks, RawPromise, RawRules, RawStored,
};
pub use core_compare::{coniks_core_compare, coniks_core_evidence};
pub use core_cover::{RawCovered, coniks_core_cover, coniks_core_note};
pub use core_feed::coniks_core_feed;
pub use core_history::{
    RawHistory, RawHistoryNeeds, RawSiblings, RawSteps, coniks_core_catch_up, coniks_core_history,
    coniks_core_history_needs,
};
pub use core_lookup::{coniks_core_lookup, coniks_core_reply_needs};
pub use core_lost::coniks_core_lost;
pub use core_quorum::{
    coniks_core_confirmed, coniks_core_mark, coniks_core_quorum, coniks_core_relied,
};
pub use core_report::{RawReport, coniks_core_report};
pub use core_start::{RawHead, coniks_core_start};
pub use core_state::{
    RawStateNeeds, coniks_core_state_needs, coniks_core_state_read, coniks_core_state_size,
    coniks_core_state_write,
};
pub use core_succeed::{RawSuccession, coniks_core_succeed};
pub use core_values::{RawAsking, RawFound, RawNeeds, RawReceived, RawVerdicts, RawWatch, RawWhy};
pub use core_watch::{coniks_core_expect, coniks_core_watch};
pub use entries::{coniks_body_bytes, coniks_entry_body, coniks_link};
pub use evidence::coniks_convicts;
pub use guard::{
    RawSignature, coniks_guard_abandon, coniks_guard_adopt, coniks_guard_answer, coniks_guard_ask,
    coniks_guard_sign,
};
pub use monitor::coniks_monitor_step;
pub use text::coniks_text;
pub use values::{Bytes32, Bytes145, EntryBody, RawAuditorState};
pub use version::coniks_version;
