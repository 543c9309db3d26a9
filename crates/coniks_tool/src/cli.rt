//! The command line, its settings, the run and the exit statuses.

pub(crate) mod choice;
pub(crate) mod command;
pub(crate) mod help;
pub(crate) mod keydir;
pub(crate) mod running;
pub(crate) mod settings;
pub(crate) mod statuses;
