//! The state of a client of a key directory as bytes: docs/STORED.md, "A client's state", version 03.
//!
//! A state is written into a slice of the caller, and the parts of one that is read are borrowed from its bytes.
//!
//! | To | Call |
//! |---|---|
//! | write a client's state | [`has_state`], [`state_size`], [`write`] |
//! | read one | [`read`]: its stored epochs, alarms, watched name and changes are in the right form |
//! | verify its chain | [`restore`]: after it, the stored epochs are a chain of entries of the directory |
//! | go on as a client | [`State::copy_stored`], [`State::copy_alarms`], [`State::copy_marks`] and [`Watched::copy_changes`] into slices of the caller, and the calls of `coniks_client` |
//!
//! [`laws::states`] says that bytes are those of one client at most, and [`laws::clients`] what a client that was read may rely on.

pub mod client;
mod forms;
pub mod laws;
mod parts;
pub mod reading;
pub mod restoring;
pub mod sizes;
pub mod state;
pub mod writing;

pub use client::Client;
pub use parts::{ALARM_BYTES, MARK_BYTES, STORED_BYTES};
pub use reading::{StateFault, read};
pub use restoring::{StateChain, restore};
pub use sizes::{has_state, state_size};
pub use state::{State, Watched};
pub use writing::write;
