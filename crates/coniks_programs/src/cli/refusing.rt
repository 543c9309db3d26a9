//! Command lines without settings.

ghost use Rattle.std.specs.Prelude.{◌≡◌};
ghost use Rattle.clap.specs.Words.{Kinds, HasKind, kind_of};
ghost use Rattle.coniks_programs.specs.WordsFaults.{IsRefusal};
ghost use Rattle.coniks_programs.specs.declared.cli.refusing.WordsFault.TheVariants.{OutOfMemory};

use clap::Error;
use clap::error::ErrorKind;

/// The error of a command line without settings.
#[derive(Debug, Drop)]
pub enum WordsFault {
    /// `clap` refused the arguments, or they ask for help or the version.
    Clap(Error),
    /// An allocation failed.
    OutOfMemory,
}

/// Returns the error of a command line from that of `clap`.
pub fn refused(error: Error) -> WordsFault
    ensures memory { kind_of error ≡ ErrorKind.OutOfMemory → result ≡ OutOfMemory }
    ensures kind { (kinds : Kinds) → HasKind kinds error → IsRefusal kinds result }
{
    match error.kind() {
        ErrorKind::OutOfMemory => WordsFault::OutOfMemory,
        _ => WordsFault::Clap(error),
    }
}
