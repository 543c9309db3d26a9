//! The command line, its settings, the run and the exit statuses.

pub(crate) mod command;
pub(crate) mod provider;
pub(crate) mod running;
pub(crate) mod settings;
