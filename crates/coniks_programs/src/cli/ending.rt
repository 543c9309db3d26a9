//! The outcome of a command line, its status, and its text on standard error.

ghost use Rattle.std.specs.Prelude.{◌≡◌, option_map};
ghost use Rattle.coniks_programs.specs.Endings.{status_of, text_of};

use crate::fault::RunFault;

/// The outcome of a command line.
#[derive(Drop)]
pub enum Ending {
    /// A run ended, or help or the version was shown. Contains whether everything was accepted.
    Done(bool),
    /// `clap` refused the arguments. Contains its text.
    Refused(String),
    /// A run cannot use a text of the arguments. Contains the error line.
    Unusable(&'static str),
}

impl Ending {
    /// Returns the text for standard error, if any.
    pub fn text(&self) -> Option<&str>
        ensures { option_map (λ text. text.now) result ≡ text_of self.now }
    {
        match self {
            Ending::Done(_) => None,
            Ending::Refused(text) => Some(text.as_str()),
            Ending::Unusable(line) => Some(*line),
        }
    }
}

/// Returns the exit status of an outcome.
///
/// - 0: every line was accepted, or help or the version was shown.
/// - 1: a line was refused.
/// - 2: the arguments are refused, or a run cannot use one of their texts.
/// - 3: a stream or an allocation failed.
pub fn status(outcome: &Result<Ending, RunFault>) -> u8
    ensures { result ≡ status_of outcome.now }
{
    match outcome {
        Ok(Ending::Done(true)) => 0,
        Ok(Ending::Done(false)) => 1,
        Ok(_) => 2,
        Err(_) => 3,
    }
}
