//! The command lines of both programs: their arguments, the texts of `clap`, and texts on standard error.
//!
//! A program implements `CommandLine`, and `start` runs it on the arguments that it was called with:
//!
//! ```rust
//! match settings(words) {
//!     Ok(settings) => run_by(settings, reader, writer),
//!     Err(fault) => end_unrun(alloc, fault, writer),
//! }
//! ```

pub mod arguments;
pub mod command_line;
pub mod commands;
pub mod ending;
pub mod explaining;
pub mod refusing;
pub mod running;
pub mod telling;

pub use arguments::{Unread, words};
pub use command_line::{CommandLine, Host};
pub use commands::{number_option, with_below, with_default, with_option};
pub use ending::{Ending, status};
pub use explaining::{end_unrun, explain};
pub use refusing::{WordsFault, refused};
pub use running::{end_unread, run_on, start};
pub use telling::{tell, tell_if};
