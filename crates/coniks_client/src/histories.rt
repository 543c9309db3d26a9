//! Histories: the proofs of one name at several epochs, as a provider's service sends them, and how a client accepts one.

pub mod accepting;
pub mod catch_ups;
mod checking;
pub mod faults;
pub mod laws;
mod maps;
mod marking;
pub mod reading;
pub mod shown;
mod siblings;
pub mod steps;

pub use accepting::{HistoryLookup, accept};
pub use catch_ups::{CatchUpLength, read_catch_up};
pub use faults::{AcceptFault, HistoryFault};
pub use reading::{History, HistoryParts, history_parts, read_history};
pub use shown::ShownStep;
pub use steps::{Before, Read, Step, read_step};
