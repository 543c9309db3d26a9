//! The lines, the engines and the command line of the program `keydir`.
//!
//! `run_script` answers a script over memory as `keydir run` answers standard input:
//!
//! ```rust
//! let mut reader = MemoryIn::new(Vec::from_slice(alloc, SCRIPT)?);
//! let mut writer = MemoryOut::new(alloc);
//! let all = run_script(rt, alloc, &mut reader, &mut writer, 2, 1)?;
//! ```
#![tactic(auto)]

mod audit;
mod check;
mod cli;
mod demo;
mod monitor;
mod run;

pub use audit::laws as audit_laws;
pub use audit::machine::run_audit;
pub use check::laws as check_laws;
pub use check::machine::run_check;
pub use cli::choice::Settings;
pub use cli::keydir::Keydir;
pub use cli::settings::settings;
pub use cli::statuses::program;
pub use coniks_lines::{ByteIn, ByteOut, Failed, MemoryIn, MemoryOut, SystemIn, SystemOut};
pub use coniks_programs::cli::{WordsFault, start};
pub use coniks_programs::fault::RunFault;
pub use demo::index::DemoIndex;
pub use demo::seal::DemoSeal;
pub use monitor::laws as monitor_laws;
pub use monitor::machine::run_monitor;
pub use run::laws as script_laws;
pub use run::machine::run_script;
